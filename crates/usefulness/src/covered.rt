// Whether rows over open columns cover all values, asked many times for rows of one match.
//
// A question is a search like that for what is reached. A row of wildcards stands behind the rows and is the only one that
// is wanted. Some value comes to it exactly where no row takes that value, so the question ends once it is marked.
// Of each submatrix that is looked at, its words and the height of the stack are kept until all that is left of it was looked
// at. Its rows then cover all values, and its words are noted in one table. Where a question ends early, the words of all
// submatrices that were begun are noted in the other. No word depends on a mark, since none is made while a question goes on.
// So words that one question notes serve all later ones.
ghost use Rattle.std.specs.Prelude.{◌≡◌, true, false, map, IfOk};
ghost use Rattle.pattern_arena.specs.Trees.{plain_arm};
ghost use Rattle.usefulness.specs.Covering.{asking_columns, asking_rows, covered_arms, AreAllTaken, AreCovered, AreSomeLeft, IsAsking, IsNew};

use crate::asking::Asking;
use crate::begun::note_ended;
use crate::behind::{begin, is_behind, step};
use crate::told::{Told, few_told, none_told};
use no_memory::NoMemory;
use pat_context::PatCx;
use pattern_arena::CheckedArm;
use std::alloc::Global;

/// What is known of rows of one match: which cover all values of their columns, and which do not.
#[derive(Drop)]
pub struct Covered<'a, T: Copy> {
    pub(crate) arms: &'a [CheckedArm<'a, T>],
    // The words of submatrices whose rows cover all values.
    pub(crate) full: Told,
    // The words of submatrices where no row takes some value.
    pub(crate) left: Told,
}

/// Nothing is known yet of rows whose heads are patterns of these arms.
pub fn none_covered<'a, T: Copy>(alloc: Global, arms: &'a [CheckedArm<'a, T>]) -> Covered<'a, T>
    ensures arms { covered_arms result ≡ map plain_arm arms.now }
    ensures new { IsNew result }
{
    Covered {
        arms,
        full: none_told(alloc),
        left: few_told(alloc),
    }
}

/// Tells whether the rows cover all values of the columns: `true` where some row takes each list of values, `false` where no
/// row takes some list. What is known afterwards is still right, also after an error, which is want of memory.
pub fn is_covered<'a, C: PatCx>(
    alloc: Global,
    cx: &C,
    covered: &mut Covered<'a, C::Ty>,
    asking: Asking<'a, C::Ty>,
) -> Result<bool, NoMemory>
    requires known { AreCovered (C.is_type cx.now) (C.is_value cx.now) (C.context cx.now) covered.old }
    requires asking { IsAsking (C.is_type cx.now) (C.is_value cx.now) (C.context cx.now) (covered_arms covered.old) asking.next (asking_columns asking) (asking_rows asking) }
    ensures known { AreCovered (C.is_type cx.now) (C.is_value cx.now) (C.context cx.now) covered.new }
    ensures arms { covered_arms covered.new ≡ covered_arms covered.old }
    ensures covered { IfOk result (λ b. b ≡ true → AreAllTaken (C.is_value cx.now) (asking_columns asking.entry) (asking_rows asking.entry)) }
    ensures left { IfOk result (λ b. b ≡ false → AreSomeLeft (C.is_value cx.now) (asking_columns asking.entry) (asking_rows asking.entry)) }
{
    let mut search = begin(alloc, cx, covered.arms, asking)?;
    if is_behind(&search) {
        return Ok(false);
    }
    while let Some(entry) = search.todo.pop() {
        step(alloc, cx, covered, &mut search, entry)?;
        if is_behind(&search) {
            note_ended(&mut covered.left, &mut search.begun, 0)?;
            return Ok(false);
        }
        let left = search.todo.len();
        note_ended(&mut covered.full, &mut search.begun, left)?;
    }
    Ok(true)
}
