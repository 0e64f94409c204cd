// The rows of each piece of a column, found by halving the range of pieces. On the way there each half is rid of the rows
// behind one that takes all of the half, where each row before it takes all that it has of the half: the first row of
// each piece is kept then, and it is taken, so no other row is looked at.
ghost use Rattle.std.specs.Prelude.{cond, ◌≡◌, ◌≤◌, ◌<◌, ◌+◌, ◌-◌, ◌++◌, ◌∷◌, ◌&&◌, not, false, nat_le, ℕ, List, length, map, take, drop};
ghost use Rattle.std.specs.Prelude.{Some, IfOk, OnOk};
ghost use Rattle.std.specs.List.{All, list_all};
ghost use Rattle.match_model.specs.Rows.{is_wild};
ghost use Rattle.constructor_sets.specs.Spans.{plain_span};
ghost use Rattle.pattern_arena.specs.Trees.{tree};
ghost use Rattle.pattern_matrix.specs.Halving.{span_meets, having, leaves_with};
ghost use Rattle.pattern_matrix.specs.Parts.{plain_spans, pieces_in, pieces_left};
ghost use Rattle.keyed_matrix.specs.Steps.{AreLonger};
ghost use Rattle.keyed_matrix.specs.Views.{plain_head, plain_run, plain_heads, plain_row, plain_rows};
ghost use Rattle.decision_tree.specs.Cutting.{is_flat, open_count, takes_pieces, TakesMet, AreEnough, IsCutPart, IsCutTo, AreLed};

use crate::leaves::{is_wild, is_wild_pat};
use constructor_sets::Span;
use keyed_matrix::{HeadRun, KeyedRow, head_at};
use no_memory::NoMemory;
use pattern_arena::DePat;
use pattern_matrix::{Part, PieceLeaves, meeting};
use std::alloc::Global;

// Tells whether the patterns are wildcards and names.
fn are_wild_pats<'a, T: Copy>(pats: &[DePat<'a, T>]) -> bool
    ensures { result ≡ list_all is_wild (map (λ p. Some (tree p)) pats.now) }
{
    for pat in pats {
        if !is_wild_pat(pat) {
            return false;
        }
    }
    true
}

// How many of the heads side by side are neither wildcards nor names.
#[tactic(auto, using(crate::proofs::RunTests::run_tests))]
fn open_in<'a, T: Copy>(one: &HeadRun<'a, T>) -> usize
    ensures is { result ≡ open_count (plain_run one.now) }
    ensures few { result ≤ 1 }
{
    match one {
        HeadRun::Wilds(_count) => 0,
        HeadRun::Written(p) => { if is_wild_pat(*p) { 0 } else { 1 } }
    }
}

// How many of the heads are neither wildcards nor names.
fn count_open<'a, T: Copy>(heads: &[HeadRun<'a, T>]) -> usize
    ensures { result ≡ open_count (plain_heads heads.now) }
{
    let mut count = 0;
    for one in heads {
        count += open_in(one);
    }
    count
}

// Tells whether the patterns below the head are wildcards and names.
fn is_flat<'a, T: Copy>(head: Option<&'a DePat<'a, T>>) -> bool
    ensures { result ≡ is_flat (plain_head head.entry) }
{
    match head {
        None => true,
        Some(p) => are_wild_pats(p.form.subs),
    }
}

// How many heads the head is that are neither wildcards nor names.
fn own_count<'a, T: Copy>(head: &Option<&'a DePat<'a, T>>) -> usize
    ensures { result ≡ cond (is_wild (plain_head head.now)) 0 1 }
{
    if is_wild(head) { 0 } else { 1 }
}

// Tells whether all heads of the row but that with the number are wildcards and names.
fn are_wild_beside<'a, T: Copy>(row: &KeyedRow<'a, T>, i: usize) -> bool
    requires { i < length (plain_row row.now).heads }
    ensures { result ≡ (list_all is_wild (take i (plain_row row.now).heads)
        && list_all is_wild (drop (i + 1) (plain_row row.now).heads)) }
{
    let head = head_at(row, i);
    count_open(&row.heads) == own_count(&head)
}

// Tells whether the row is taken, whatever piece of the column is entered that it has.
fn takes_pieces<'a, T: Copy>(row: &KeyedRow<'a, T>, i: usize) -> bool
    requires { i < length (plain_row row.now).heads }
    ensures { result ≡ takes_pieces i (plain_row row.now) }
{
    if row.guarded {
        return false;
    }
    if !is_flat(head_at(row, i)) {
        return false;
    }
    are_wild_beside(row, i)
}

// Tells whether the span has a piece from the first to before the end.
fn meets(span: &Span, first: usize, end: usize) -> bool
    ensures { result ≡ span_meets first end (Some (plain_span span.now)) }
{
    span.first < end && first < span.end
}

// Tells whether the span has all pieces from the first to before the end.
fn covers(span: &Span, first: usize, end: usize) -> bool
    ensures { result ≡ (nat_le span.now.first first && nat_le end span.now.end) }
{
    span.first <= first && end <= span.end
}

// Tells whether the row with the span has a piece of the part, and is not taken in each.
fn is_open<'a, T: Copy>(row: &KeyedRow<'a, T>, i: usize, span: &Span, part: &Part) -> bool
    requires { i < length (plain_row row.now).heads }
    ensures { result ≡ (span_meets part.now.first part.now.end (Some (plain_span span.now))
        && not (takes_pieces i (plain_row row.now))) }
{
    meets(span, part.first, part.end) && !takes_pieces(row, i)
}

// Tells whether one of so many of the part's rows in front has a piece of the part, and is not taken in each.
fn have_open<'a, T: Copy>(
    rows: &[KeyedRow<'a, T>],
    i: usize,
    spans: &[Span],
    part: &Part,
    count: usize,
) -> bool
    requires longer { AreLonger i (plain_rows rows.now) }
    requires spans { length spans.now ≡ length rows.now }
    requires within { All (λ k. k < length spans.now) part.now.leaves.items }
    requires count { count ≤ length part.now.leaves.items }
    ensures { result ≡ false → All (TakesMet i (plain_rows rows.now) (plain_spans spans.now) part.now.first part.now.end)
        (take count part.now.leaves.items) }
{
    for n in 0..count {
        let k = part.leaves[n];
        if is_open(&rows[k], i, &spans[k], part) {
            return true;
        }
    }
    false
}

// How many of the part's rows, from the first on, are enough for each of its pieces. Only where a row has all of them is
// asked whether rows are taken.
fn count_enough<'a, T: Copy>(
    rows: &[KeyedRow<'a, T>],
    i: usize,
    spans: &[Span],
    part: &Part,
) -> usize
    requires longer { AreLonger i (plain_rows rows.now) }
    requires spans { length spans.now ≡ length rows.now }
    requires some { part.now.first < part.now.end }
    requires within { All (λ k. k < length spans.now) part.now.leaves.items }
    ensures within { result ≤ length part.now.leaves.items }
    ensures enough { (j : ℕ) → part.now.first ≤ j → j < part.now.end → AreEnough i (plain_rows rows.now)
        (having (plain_spans spans.now) j (take result part.now.leaves.items))
        (having (plain_spans spans.now) j part.now.leaves.items) }
{
    let count = part.leaves.len();
    for n in 0..count {
        let k = part.leaves[n];
        if covers(&spans[k], part.first, part.end) {
            if have_open(rows, i, spans, part, n + 1) {
                return count;
            }
            return n + 1;
        }
    }
    count
}

// Of the part's rows those that are enough for each of its pieces.
fn cut<'a, T: Copy>(
    alloc: Global,
    rows: &[KeyedRow<'a, T>],
    i: usize,
    spans: &[Span],
    part: &Part,
) -> Result<Vec<usize>, NoMemory>
    requires longer { AreLonger i (plain_rows rows.now) }
    requires spans { length spans.now ≡ length rows.now }
    requires some { part.now.first < part.now.end }
    requires within { All (λ k. k < length spans.now) part.now.leaves.items }
    ensures { IfOk result (λ v. IsCutTo i (plain_rows rows.now) spans.now part.now.first part.now.end
        part.now.leaves.items v.items) }
{
    let count = count_enough(rows, i, spans, part);
    let leaves = meeting(alloc, &part.leaves[..count], spans, part.first, part.end)?;
    Ok(leaves)
}

// The first half of the part; the other half is added to what is left to do. Both have only rows that have a piece of the
// part.
fn halved<'a, T: Copy>(
    alloc: Global,
    rows: &[KeyedRow<'a, T>],
    i: usize,
    todo: &mut Vec<Part>,
    part: Part,
    spans: &[Span],
) -> Result<Part, NoMemory>
    requires longer { AreLonger i (plain_rows rows.now) }
    requires spans { length spans.now ≡ length rows.now }
    requires part { IsCutPart i (plain_rows rows.now) spans.now part }
    requires several { part.first + 1 < part.end }
    ensures part { IfOk result (λ p. IsCutPart i (plain_rows rows.now) spans.now p) }
    ensures pieces { IfOk result (λ p. pieces_in p ++ pieces_left todo.new.items
        ≡ pieces_in part ++ pieces_left todo.old.items) }
    ensures others { OnOk result (All (IsCutPart i (plain_rows rows.now) spans.now) todo.old.items
        → All (IsCutPart i (plain_rows rows.now) spans.now) todo.new.items) }
    ensures less { IfOk result (λ p. p.end - p.first < part.end - part.first) }
{
    let first = part.first;
    let end = part.end;
    let leaves = cut(alloc, rows, i, spans, &part)?;
    let middle = first + (end - first) / 2;
    let others = Vec::from_slice(alloc, &leaves)?;
    todo.push(Part {
        first: middle,
        end,
        leaves: others,
    })?;
    Ok(Part {
        first,
        end: middle,
        leaves,
    })
}

// These numbers of rows, or the first of them alone where its row takes its pieces.
fn first_alone<'a, T: Copy>(rows: &[KeyedRow<'a, T>], i: usize, numbers: Vec<usize>) -> Vec<usize>
    requires longer { AreLonger i (plain_rows rows.now) }
    requires within { All (λ k. k < length rows.now) numbers.items }
    ensures { (all : List ℕ) → AreEnough i (plain_rows rows.now) numbers.items all
        → AreLed i (plain_rows rows.now) result.items all }
{
    if numbers.is_empty() {
        return numbers;
    }
    if !takes_pieces(&rows[numbers[0]], i) {
        return numbers;
    }
    let mut first = numbers;
    first.truncate(1);
    first
}

// The one piece of the part with its rows, or the first of them alone where it is taken.
fn only_piece<'a, T: Copy>(
    alloc: Global,
    rows: &[KeyedRow<'a, T>],
    i: usize,
    part: &Part,
    spans: &[Span],
) -> Result<PieceLeaves, NoMemory>
    requires longer { AreLonger i (plain_rows rows.now) }
    requires spans { length spans.now ≡ length rows.now }
    requires part { IsCutPart i (plain_rows rows.now) spans.now part.now }
    requires one { part.now.first + 1 ≡ part.now.end }
    ensures piece { IfOk result (λ p. p.piece ≡ part.now.first) }
    ensures rows { IfOk result (λ p. AreLed i (plain_rows rows.now) p.leaves.items
        (leaves_with (plain_spans spans.now) p.piece)) }
{
    let met = meeting(alloc, &part.leaves, spans, part.first, part.end)?;
    let leaves = first_alone(rows, i, met);
    Ok(PieceLeaves {
        piece: part.first,
        leaves,
    })
}

// The first piece of the part with its rows, or the first of them alone where it is taken; what else the part has is added
// to what is left to do.
fn narrowed<'a, T: Copy>(
    alloc: Global,
    rows: &[KeyedRow<'a, T>],
    i: usize,
    todo: &mut Vec<Part>,
    part: Part,
    spans: &[Span],
) -> Result<PieceLeaves, NoMemory>
    requires longer { AreLonger i (plain_rows rows.now) }
    requires spans { length spans.now ≡ length rows.now }
    requires part { IsCutPart i (plain_rows rows.now) spans.now part }
    ensures pieces { IfOk result (λ p. pieces_in part ++ pieces_left todo.old.items
        ≡ p.piece ∷ pieces_left todo.new.items) }
    ensures rows { IfOk result (λ p. AreLed i (plain_rows rows.now) p.leaves.items
        (leaves_with (plain_spans spans.now) p.piece)) }
    ensures others { OnOk result (All (IsCutPart i (plain_rows rows.now) spans.now) todo.old.items
        → All (IsCutPart i (plain_rows rows.now) spans.now) todo.new.items) }
{
    if part.first + 1 < part.end {
        let left = halved(alloc, rows, i, todo, part, spans)?;
        let found = narrowed(alloc, rows, i, todo, left, spans)?;
        Ok(found)
    } else {
        let found = only_piece(alloc, rows, i, &part, spans)?;
        Ok(found)
    }
}

// The numbers of the rows that have the next of the pieces that are left, or the first of them alone where it is taken.
pub(crate) fn next_cut<'a, T: Copy>(
    alloc: Global,
    rows: &[KeyedRow<'a, T>],
    i: usize,
    todo: &mut Vec<Part>,
    spans: &[Span],
) -> Result<Vec<usize>, NoMemory>
    requires longer { AreLonger i (plain_rows rows.now) }
    requires spans { length spans.now ≡ length rows.now }
    requires parts { All (IsCutPart i (plain_rows rows.now) spans.now) todo.old.items }
    ensures rows { IfOk result (λ v. (n : ℕ) (left : List ℕ) → pieces_left todo.old.items ≡ n ∷ left
        → AreLed i (plain_rows rows.now) v.items (leaves_with (plain_spans spans.now) n)) }
    ensures left { OnOk result ((n : ℕ) (left : List ℕ) → pieces_left todo.old.items ≡ n ∷ left
        → pieces_left todo.new.items ≡ left) }
    ensures parts { OnOk result (All (IsCutPart i (plain_rows rows.now) spans.now) todo.new.items) }
{
    match todo.pop() {
        None => Ok(Vec::new(alloc)),
        Some(part) => {
            let found = narrowed(alloc, rows, i, todo, part, spans)?;
            Ok(found.leaves)
        }
    }
}
