// Rows in the order in which their arms and alternatives are tried.
ghost use Rattle.std.specs.Prelude.{◌≡◌, ◌<◌, IfOk, All};
ghost use Rattle.match_model.specs.Lists.{Ordered};
ghost use Rattle.match_model.specs.RowOrder.{AreInOrder};
ghost use Rattle.keyed_matrix.specs.Deciding.{table_decides};
ghost use Rattle.keyed_matrix.specs.Turns.{turn_cmp, HasKey, turn_rows, IsOneFirst};
ghost use Rattle.keyed_matrix.specs.Views.{plain_rows};

use crate::keys::key_of;
use crate::{Decided, Decisions, KeyedRow};
use no_memory::NoMemory;
use std::alloc::Global;
use std::cmp::Ordering;

// A row with what was decided of its arm, ascending by the numbers of the or-patterns.
#[derive(Drop)]
pub(crate) struct Turn<'a, T: Copy> {
    pub(crate) key: Vec<Decided>,
    pub(crate) row: KeyedRow<'a, T>,
}

// Which of the two rows is tried first: by their arms, and in one arm by what was decided.
fn compare<'a, T: Copy>(first: &Turn<'a, T>, second: &Turn<'a, T>) -> Ordering
    ensures { result ≡ turn_cmp first.now second.now }
{
    match first.row.arm.cmp(&second.row.arm) {
        Ordering::Equal => first.key.as_slice().cmp(second.key.as_slice()),
        order => order,
    }
}

// The rows with what was decided of them.
fn turns_of<'a, T: Copy>(
    alloc: Global,
    decisions: &Decisions,
    rows: Vec<KeyedRow<'a, T>>,
) -> Result<Vec<Turn<'a, T>>, NoMemory>
    ensures rows { IfOk result (λ v. turn_rows v.items ≡ rows.entry.items) }
    ensures keys { IfOk result (λ v. All (HasKey (table_decides decisions.now)) v.items) }
{
    let mut turns = Vec::with_capacity(alloc, rows.len())?;
    for row in rows {
        let key = key_of(alloc, decisions, row.chosen.as_slice())?;
        turns.push(Turn { key, row })?;
    }
    Ok(turns)
}

// The rows alone.
fn rows_of<'a, T: Copy>(
    alloc: Global,
    turns: Vec<Turn<'a, T>>,
) -> Result<Vec<KeyedRow<'a, T>>, NoMemory>
    ensures { IfOk result (λ v. v.items ≡ turn_rows turns.entry.items) }
{
    let mut rows = Vec::with_capacity(alloc, turns.len())?;
    for turn in turns {
        rows.push(turn.row)?;
    }
    Ok(rows)
}

/// The rows in the order in which they are tried: by their arms, and in one arm by what the alternatives that were chosen
/// decide. Of any two rows one comes first. The only error is want of memory.
pub fn in_order<'a, T: Copy>(
    alloc: Global,
    decisions: &Decisions,
    rows: Vec<KeyedRow<'a, T>>,
) -> Result<Vec<KeyedRow<'a, T>>, NoMemory>
    requires { Ordered (IsOneFirst (table_decides decisions.now)) (plain_rows rows.items) }
    ensures { IfOk result (λ v. AreInOrder (table_decides decisions.now) (plain_rows rows.entry.items)
        (plain_rows v.items)) }
{
    let mut turns = turns_of(alloc, decisions, rows)?;
    turns.sort_by(|first, second| compare(first, second))?;
    let sorted = rows_of(alloc, turns)?;
    Ok(sorted)
}
