// What the rows of a submatrix have chosen.
ghost use Rattle.std.specs.Prelude.{◌≡◌, ◌++◌, IfOk, OnOk};
ghost use Rattle.std.specs.List.{flat_map};
ghost use Rattle.usefulness.specs.Chosen.{unmarked_one, unmarked_in, unmarked_from};
ghost use Rattle.usefulness.specs.Marking.{is_marked};
ghost use Rattle.usefulness.specs.States.{plain_asked, plain_askeds};

use crate::Marks;
use crate::frames::Asked;
use no_memory::NoMemory;
use pattern_matrix::Marked;
use std::alloc::Global;

// An alternative that a row has chosen: the number of the row in its submatrix, from 0, and the alternative's uid.
#[derive(Clone, Copy)]
pub(crate) struct ChosenIn {
    pub(crate) row: usize,
    pub(crate) uid: u64,
}

// Adds the alternative of the arm, which the row has chosen, where it is not marked.
fn add_unmarked(
    chosen: &mut Vec<ChosenIn>,
    marks: &Marks,
    row: usize,
    arm: u32,
    uid: u64,
) -> Result<(), NoMemory>
    ensures { OnOk result (chosen.new.items ≡ chosen.old.items ++ unmarked_one (is_marked marks.now) row arm uid) }
{
    if !marks.has_alternative(arm, uid) {
        chosen.push(ChosenIn { row, uid })?;
    }
    Ok(())
}

// Adds those of these alternatives of the arm that are not marked.
fn add_all_unmarked(
    chosen: &mut Vec<ChosenIn>,
    marks: &Marks,
    row: usize,
    arm: u32,
    uids: &[u64],
) -> Result<(), NoMemory>
    ensures { OnOk result (chosen.new.items ≡ chosen.old.items ++ flat_map (unmarked_one (is_marked marks.now) row arm) uids.now) }
{
    for uid in uids {
        add_unmarked(chosen, marks, row, arm, *uid)?;
    }
    Ok(())
}

// Adds what the row has chosen and what is not marked, where the row is wanted.
fn add_row<'a, T: Copy>(
    chosen: &mut Vec<ChosenIn>,
    marks: &Marks,
    row: usize,
    asked: &Asked<'a, T>,
) -> Result<(), NoMemory>
    ensures { OnOk result (chosen.new.items ≡ chosen.old.items ++ unmarked_in (is_marked marks.now) row (plain_asked asked.now)) }
{
    if asked.wanted {
        add_all_unmarked(
            chosen,
            marks,
            row,
            asked.row.arm,
            asked.row.chosen.as_slice(),
        )
    } else {
        Ok(())
    }
}

// What the wanted rows have chosen and what is not marked, row by row.
pub(crate) fn unmarked_chosen<'a, T: Copy>(
    alloc: Global,
    marks: &Marks,
    rows: &[Asked<'a, T>],
) -> Result<Vec<ChosenIn>, NoMemory>
    ensures { IfOk result (λ v. v.items ≡ unmarked_from (is_marked marks.now) 0 (plain_askeds rows.now)) }
{
    let mut chosen = Vec::new(alloc);
    for (i, asked) in rows.iter().enumerate() {
        add_row(&mut chosen, marks, i, asked)?;
    }
    Ok(chosen)
}
