// The first matrix of a match.
ghost use Rattle.std.specs.Prelude.{◌≡◌, ◌<◌, ◌^◌, map, length, IfOk, OnOk, ◌++◌, ◌∷◌, []};
ghost use Rattle.match_model.specs.Matrices.{first_rows};
ghost use Rattle.pattern_arena.specs.Trees.{plain_arm, plain_match};
ghost use Rattle.keyed_matrix.specs.First.{first_row};
ghost use Rattle.keyed_matrix.specs.Steps.{AreLonger};
ghost use Rattle.keyed_matrix.specs.Views.{plain_rows, plain_column};

use crate::{HeadRun, KeyedColumn, KeyedRow};
use no_memory::NoMemory;
use pattern_arena::{CheckedArm, CheckedMatch};
use smallvec::SmallVec;
use std::alloc::Global;

/// The rows of the arms of a match, each with its pattern as its only head; there are fewer than 2^32 arms. The only
/// error is want of memory.
pub fn first_rows<'a, T: Copy>(
    alloc: Global,
    m: &CheckedMatch<'a, T>,
) -> Result<Vec<KeyedRow<'a, T>>, NoMemory>
    requires { length m.now.arms.now < 2 ^ 32 }
    ensures rows { IfOk result (λ v. plain_rows v.items ≡ first_rows 0 (plain_match m.now).arms) }
    ensures longer { IfOk result (λ v. AreLonger 0 (plain_rows v.items)) }
{
    let rows = rows_of_arms(alloc, m.arms)?;
    Ok(rows)
}

// The rows of the arms.
fn rows_of_arms<'a, T: Copy>(
    alloc: Global,
    arms: &'a [CheckedArm<'a, T>],
) -> Result<Vec<KeyedRow<'a, T>>, NoMemory>
    requires { length arms.now < 2 ^ 32 }
    ensures { IfOk result (λ v. plain_rows v.items ≡ first_rows 0 (map plain_arm arms.entry.now)) }
{
    let mut rows = Vec::with_capacity(alloc, arms.len())?;
    for (j, arm) in arms.iter().enumerate() {
        add_arm(alloc, &mut rows, arm, j as u32)?;
    }
    Ok(rows)
}

// Adds the row of the arm with the number.
fn add_arm<'a, T: Copy>(
    alloc: Global,
    rows: &mut Vec<KeyedRow<'a, T>>,
    arm: &'a CheckedArm<'a, T>,
    j: u32,
) -> Result<(), NoMemory>
    ensures { OnOk result (plain_rows rows.new.items ≡ plain_rows rows.old.items
        ++ first_row j (plain_arm arm.entry.now) ∷ []) }
{
    let mut heads = Vec::new(alloc);
    heads.push(HeadRun::Written(&arm.pat))?;
    rows.push(KeyedRow {
        heads,
        arm: j,
        guarded: arm.guarded,
        chosen: SmallVec::new(alloc),
        caught: Vec::new(alloc),
    })?;
    Ok(())
}

/// The column of the scrutinee. It takes no memory.
pub fn first_column<'a, T: Copy>(m: &CheckedMatch<'a, T>) -> KeyedColumn<'a, T>
    ensures { plain_column result
        ≡ record { place = []; type = (plain_match m.now).type; sure = (plain_match m.now).sure } }
{
    KeyedColumn {
        place: &[],
        ty: m.ty,
        validity: m.validity,
    }
}
