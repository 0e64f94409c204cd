// Rows without those that repeat one in front of them: a row of their arm that has no guard and the same heads. Such a
// row is unreachable, and its heads add no constructor to a column. So no step of the lowering depends on it.
ghost use Rattle.std.specs.Prelude.{◌≡◌, ◌++◌, ◌∷◌, [], List, map, true, IfOk, OnOk};
ghost use Rattle.match_model.specs.Lists.{Among};
ghost use Rattle.match_model.specs.Matrices.{MRow};
ghost use Rattle.keyed_matrix.specs.Views.{plain_run, plain_heads, plain_row, plain_rows};
ghost use Rattle.decision_tree.specs.Known.{head_uid};
ghost use Rattle.decision_tree.specs.Repeated.{IsRepeated, AreLeftOf};

use indexmap::IndexMap;
use keyed_matrix::{HeadRun, KeyedRow};
use no_memory::NoMemory;
use std::alloc::Global;

// Tells whether the runs are of the same patterns.
fn is_same_run<'a, T: Copy>(one: &HeadRun<'a, T>, other: &HeadRun<'a, T>) -> bool
    ensures { result ≡ true → map head_uid (plain_run one.now) ≡ map head_uid (plain_run other.now) }
{
    match (one, other) {
        (HeadRun::Wilds(count), HeadRun::Wilds(size)) => *count == *size,
        (HeadRun::Written(p), HeadRun::Written(q)) => p.uid == q.uid,
        _ => false,
    }
}

// Tells whether the heads are the same, run by run.
fn are_same_heads<'a, T: Copy>(one: &[HeadRun<'a, T>], other: &[HeadRun<'a, T>]) -> bool
    ensures { result ≡ true → map head_uid (plain_heads one.now) ≡ map head_uid (plain_heads other.now) }
{
    if one.len() != other.len() {
        return false;
    }
    for i in 0..one.len() {
        if !is_same_run(&one[i], &other[i]) {
            return false;
        }
    }
    true
}

// Tells whether the row repeats the first.
fn is_repeated<'a, T: Copy>(first: &KeyedRow<'a, T>, row: &KeyedRow<'a, T>) -> bool
    ensures { result ≡ true → IsRepeated (plain_row first.now) (plain_row row.now) }
{
    if first.guarded || first.arm != row.arm {
        return false;
    }
    are_same_heads(&first.heads, &row.heads)
}

// A number of the run.
fn run_number<'a, T: Copy>(one: &HeadRun<'a, T>) -> u64 {
    match one {
        HeadRun::Wilds(count) => (*count as u64) ^ 0x5000_0000_0000_0000,
        HeadRun::Written(p) => p.uid,
    }
}

// A number of the row's arm and heads: rows that are the same have one, and others seldom the same.
fn row_number<'a, T: Copy>(row: &KeyedRow<'a, T>) -> u64 {
    let mut number = row.arm as u64;
    for one in &row.heads {
        number = (number ^ run_number(one))
            .wrapping_mul(0x9E37_79B9_7F4A_7C15)
            .rotate_left(29);
    }
    number
}

// Tells whether two rows of one arm without a guard stand side by side.
fn have_pair<'a, T: Copy>(rows: &[KeyedRow<'a, T>]) -> bool {
    for i in 1..rows.len() {
        if rows[i].arm == rows[i - 1].arm && !rows[i].guarded {
            return true;
        }
    }
    false
}

// Tells whether the row with the number, where there is one, is repeated.
fn repeats_at<'a, T: Copy>(
    left: &[KeyedRow<'a, T>],
    number: Option<&usize>,
    row: &KeyedRow<'a, T>,
) -> bool
    ensures { result ≡ true → (first : MRow T) × Among first (plain_rows left.now)
        × IsRepeated first (plain_row row.now) }
{
    match number {
        None => false,
        Some(at) => match left.get(*at) {
            None => false,
            Some(first) => is_repeated(first, row),
        },
    }
}

// Adds the row to those that are left, unless it repeats one of them.
fn add_unless_repeated<'a, T: Copy>(
    left: &mut Vec<KeyedRow<'a, T>>,
    firsts: &mut IndexMap<u64, usize>,
    row: KeyedRow<'a, T>,
) -> Result<(), NoMemory>
    ensures { OnOk result ((rows : List (MRow T)) → AreLeftOf rows (plain_rows left.old.items)
        → AreLeftOf (rows ++ plain_row row.entry ∷ []) (plain_rows left.new.items)) }
{
    let number = row_number(&row);
    if repeats_at(left, firsts.get(&number), &row) {
        return Ok(());
    }
    firsts.insert(number, left.len())?;
    left.push(row)?;
    Ok(())
}

// The rows without those that repeat one in front of them.
pub(crate) fn without_repeated<'a, T: Copy>(
    alloc: Global,
    rows: Vec<KeyedRow<'a, T>>,
) -> Result<Vec<KeyedRow<'a, T>>, NoMemory>
    ensures { IfOk result (λ v. AreLeftOf (plain_rows rows.entry.items) (plain_rows v.items)) }
{
    if !have_pair(&rows) {
        return Ok(rows);
    }
    let mut left = Vec::with_capacity(alloc, rows.len())?;
    let mut firsts = IndexMap::new(alloc);
    for row in rows {
        add_unless_repeated(&mut left, &mut firsts, row)?;
    }
    Ok(left)
}
