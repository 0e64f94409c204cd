// The column that is taken apart next: of the first row with the fewest heads the one where most rows have heads.
ghost use Rattle.std.specs.Prelude.{◌≡◌, ◌<◌, true, length, IfOk};
ghost use Rattle.usefulness.specs.Frames.{has_start};
ghost use Rattle.usefulness.specs.States.{plain_askeds, IsChosen, ListsHeads};

use crate::frames::{Asked, Frame};
use no_memory::NoMemory;
use pattern_matrix::Head;
use std::alloc::Global;

// Which of the two rows lists fewer heads: the second where it lists one and fewer than the first, which does too.
fn shorter<'a, T: Copy>(rows: &[Asked<'a, T>], first: usize, second: usize) -> usize
    requires first { ListsHeads first rows.now }
    requires second { second < length rows.now }
    ensures { ListsHeads result rows.now }
{
    let count = rows[second].row.heads.len();
    if count > 0 && count < rows[first].row.heads.len() {
        second
    } else {
        first
    }
}

// The place of the first of the rows with the fewest heads, of those that list one. The first row does.
fn shortest<'a, T: Copy>(rows: &[Asked<'a, T>]) -> usize
    requires { has_start (plain_askeds rows.now) ≡ true }
    ensures { ListsHeads result rows.now }
{
    let mut best = 0;
    for i in 0..rows.len() {
        best = shorter(rows, best, i);
    }
    best
}

// Counts the heads by their columns.
fn count_heads<'a, T: Copy>(counts: &mut Vec<usize>, heads: &[Head<'a, T>]) {
    for head in heads {
        if head.column < counts.len() {
            counts[head.column] = counts[head.column].saturating_add(1);
        }
    }
}

// How many heads the rows have at each column with a number below the next one.
fn counts<'a, T: Copy>(
    alloc: Global,
    rows: &[Asked<'a, T>],
    next: usize,
) -> Result<Vec<usize>, NoMemory> {
    let mut counts = vec![in alloc; 0usize; next]?;
    for asked in rows {
        count_heads(&mut counts, asked.row.heads.as_slice());
    }
    Ok(counts)
}

// The count of a column, where there is one.
fn count_of(counts: &[usize], column: usize) -> usize {
    if column < counts.len() {
        counts[column]
    } else {
        0
    }
}

// Which of the two heads stands at the column with the greater count; where these are equal the first.
fn fuller<'a, T: Copy>(
    counts: &[usize],
    heads: &[Head<'a, T>],
    first: usize,
    second: usize,
) -> usize
    requires first { first < length heads.now }
    requires second { second < length heads.now }
    ensures { result < length heads.now }
{
    let count = count_of(counts, heads[second].column);
    if count > count_of(counts, heads[first].column) {
        second
    } else {
        first
    }
}

// The place of the first of the heads whose columns have the greatest count.
fn fullest<'a, T: Copy>(counts: &[usize], heads: &[Head<'a, T>]) -> usize
    requires { 0 < length heads.now }
    ensures { result < length heads.now }
{
    let mut best = 0;
    for i in 0..heads.len() {
        best = fuller(counts, heads, best, i);
    }
    best
}

// The place of the head at the column with the most heads in the rows. A lone head needs no count.
fn place_among<'a, T: Copy>(
    alloc: Global,
    frame: &Frame<'a, T>,
    heads: &[Head<'a, T>],
) -> Result<usize, NoMemory>
    requires { 0 < length heads.now }
    ensures { IfOk result (λ k. k < length heads.now) }
{
    if heads.len() == 1 {
        return Ok(0);
    }
    let counts = counts(alloc, &frame.rows, frame.next)?;
    Ok(fullest(&counts, heads))
}

// The number of the column that is taken apart next. The first row lists a head.
pub(crate) fn choose<'a, T: Copy>(alloc: Global, frame: &Frame<'a, T>) -> Result<usize, NoMemory>
    requires { has_start (plain_askeds frame.now.rows.items) ≡ true }
    ensures { IfOk result (λ n. IsChosen n (plain_askeds frame.now.rows.items)) }
{
    let best = shortest(&frame.rows);
    let heads = frame.rows[best].row.heads.as_slice();
    let place = place_among(alloc, frame, heads)?;
    Ok(heads[place].column)
}
