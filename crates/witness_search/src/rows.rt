// Rows of arms, and rows that take everything.
ghost use Rattle.std.specs.Prelude.{◌≡◌, ◌++◌, map, IfOk, OnOk};
ghost use Rattle.std.specs.List.{list_any};
ghost use Rattle.pattern_arena.specs.Trees.{plain_arm, tree};
ghost use Rattle.pattern_matrix.specs.HeadLists.{kept_heads};
ghost use Rattle.pattern_matrix.specs.Views.{plain_heads, plain_row, plain_rows};
ghost use Rattle.witness_search.specs.Starts.{lists_none, starting_heads, starting_row, starting_rows};

use no_memory::NoMemory;
use pat_context::Ctor;
use pattern_arena::{CheckedArm, DePat};
use pattern_matrix::{Chosen, Head, Heads, Row};
use std::alloc::Global;

// Tells whether the row lists no head.
#[tactic(auto, using(crate::proofs::Plain::empty_lists))]
fn is_bare<'a, T: Copy>(row: &Row<'a, T>) -> bool
    ensures { result ≡ lists_none (plain_row row.now) }
{
    row.heads.is_empty()
}

// Tells whether some row lists no head.
pub(crate) fn has_bare<'a, T: Copy>(rows: &[Row<'a, T>]) -> bool
    ensures { result ≡ list_any lists_none (plain_rows rows.now) }
{
    for row in rows {
        if is_bare(row) {
            return true;
        }
    }
    false
}

// The pattern as the head of the first column, which has the number 0; none for a wildcard.
fn starting_heads<'a, T: Copy>(pat: &'a DePat<'a, T>) -> Heads<'a, T>
    ensures { plain_heads (kept_heads result) ≡ starting_heads (tree pat.entry.now) }
{
    match pat.form.ctor {
        Ctor::Wild => Heads::Bare,
        _ => Heads::One(Head { column: 0, pat }),
    }
}

// Adds the row of the arm, unless it has a guard. No arm's number is asked for.
fn add_arm<'a, T: Copy>(
    rows: &mut Vec<Row<'a, T>>,
    arm: &'a CheckedArm<'a, T>,
) -> Result<(), NoMemory>
    ensures { OnOk result (plain_rows rows.new.items ≡ plain_rows rows.old.items ++ starting_row (plain_arm arm.entry.now)) }
{
    if !arm.guarded {
        rows.push(Row {
            heads: starting_heads(&arm.pat),
            arm: 0,
            guarded: false,
            chosen: Chosen::Nothing,
        })?;
    }
    Ok(())
}

// The rows of the arms without a guard, over the scrutinee's place, which has the number 0.
pub(crate) fn unguarded_rows<'a, T: Copy>(
    alloc: Global,
    arms: &'a [CheckedArm<'a, T>],
) -> Result<Vec<Row<'a, T>>, NoMemory>
    ensures { IfOk result (λ v. plain_rows v.items ≡ starting_rows (map plain_arm arms.entry.now)) }
{
    let mut rows = Vec::with_capacity(alloc, arms.len())?;
    for arm in arms {
        add_arm(&mut rows, arm)?;
    }
    Ok(rows)
}
