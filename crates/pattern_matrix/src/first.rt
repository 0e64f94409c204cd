// The rows of a match.
ghost use Rattle.std.specs.Prelude.{◌≡◌, ◌≤◌, ◌<◌, ◌^◌, ◌++◌, ◌∷◌, [], length, map, cond, Some, IfOk, OnOk};
ghost use Rattle.match_model.specs.Matrices.{first_matrix};
ghost use Rattle.match_model.specs.Rows.{is_wild};
ghost use Rattle.pattern_arena.specs.Trees.{plain_arm, plain_match, tree};
ghost use Rattle.pattern_matrix.specs.Sparse.{row_views, bare_row, AreBelow, AreOver};
ghost use Rattle.pattern_matrix.specs.HeadLists.{kept_heads};
ghost use Rattle.pattern_matrix.specs.Views.{plain_heads, plain_rows};
ghost use Rattle.pattern_matrix.specs.Starting.{starting_row, starting_rows};

use crate::leaves::is_wild;
use crate::{Chosen, Head, Heads, Row};
use no_memory::NoMemory;
use pattern_arena::{CheckedArm, CheckedMatch, DePat};
use std::alloc::Global;

// The pattern as the head of the first column, which has the number 0; none for a wildcard.
#[tactic(auto, using(crate::proofs::Bare::bares))]
fn starting_heads<'a, T: Copy>(pat: &'a DePat<'a, T>) -> Heads<'a, T>
    ensures { plain_heads (kept_heads result) ≡ cond (is_wild (Some (tree pat.entry.now))) [] ((0, tree pat.entry.now) ∷ []) }
{
    if is_wild(&pat.form.ctor) {
        Heads::Bare
    } else {
        Heads::One(Head { column: 0, pat })
    }
}

// Adds the row of the arm with the number.
fn add_first<'a, T: Copy>(
    rows: &mut Vec<Row<'a, T>>,
    number: u32,
    arm: &'a CheckedArm<'a, T>,
) -> Result<(), NoMemory>
    ensures { OnOk result (plain_rows rows.new.items ≡ plain_rows rows.old.items ++ starting_row number (plain_arm arm.entry.now) ∷ []) }
{
    rows.push(Row {
        heads: starting_heads(&arm.pat),
        arm: number,
        guarded: arm.guarded,
        chosen: Chosen::Nothing,
    })?;
    Ok(())
}

/// The rows of a match over its one column, the scrutinee's, which has the number 0: one for each arm, in order.
///
/// They are the rows of the definitions' first matrix, but for the names that wildcards bind. There are at most 2^32
/// arms. The only error is want of memory.
pub fn first_rows<'a, T: Copy>(
    alloc: Global,
    m: &CheckedMatch<'a, T>,
) -> Result<Vec<Row<'a, T>>, NoMemory>
    requires { length m.now.arms.now ≤ 2 ^ 32 }
    ensures rows { IfOk result (λ v. row_views (0 ∷ []) (plain_rows v.items) ≡ map bare_row (first_matrix (plain_match m.now)).rows) }
    ensures starting { IfOk result (λ v. plain_rows v.items ≡ starting_rows 0 (plain_match m.now).arms) }
    ensures over { IfOk result (λ v. AreOver (0 ∷ []) (plain_rows v.items)) }
    ensures within { IfOk result (λ v. AreBelow 1 (plain_rows v.items)) }
{
    let rows = rows_of_arms(alloc, m.arms)?;
    Ok(rows)
}

// The rows of the arms.
fn rows_of_arms<'a, T: Copy>(
    alloc: Global,
    arms: &'a [CheckedArm<'a, T>],
) -> Result<Vec<Row<'a, T>>, NoMemory>
    requires { length arms.now ≤ 2 ^ 32 }
    ensures { IfOk result (λ v. plain_rows v.items ≡ starting_rows 0 (map plain_arm arms.entry.now)) }
{
    let mut rows = Vec::with_capacity(alloc, arms.len())?;
    for (i, arm) in arms.iter().enumerate() {
        add_first(&mut rows, i as u32, arm)?;
    }
    Ok(rows)
}
