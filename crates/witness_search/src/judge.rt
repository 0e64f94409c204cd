// What is found of a match, from marks of what is reached.
ghost use Rattle.std.specs.Prelude.{◌≡◌, ◌<◌, ◌^◌, [], map, length, true, false, IfOk};
ghost use Rattle.match_model.specs.WellTyped.{IsWellTyped};
ghost use Rattle.match_model.specs.WitnessList.{IsWitnessList};
ghost use Rattle.pattern_arena.specs.Trees.{plain_match};
ghost use Rattle.pattern_matrix.specs.Counting.{to_arm};
ghost use Rattle.pattern_matrix.specs.SearchLaws.{IsReached, IsJudged};
ghost use Rattle.witnesses.specs.Views.{plain_witness};
ghost use Rattle.witness_search.specs.Entries.{plain_entries};

use crate::top::witness_list;
use crate::unreachable::unreachable_list;
use no_memory::NoMemory;
use pat_context::PatCx;
use pattern_arena::CheckedMatch;
use pattern_arena::laws::matches_are_made;
use pattern_matrix::Marked;
use pattern_matrix::reach_laws::judged_by_marks;
use std::alloc::Global;
use witnesses::{Judgement, Witness};

// The witnesses, where the row behind all arms is marked; else none.
fn witnesses_where<'a, C: PatCx, M: Marked>(
    alloc: Global,
    cx: &C,
    m: &CheckedMatch<'a, C::Ty>,
    marks: &M,
) -> Result<Vec<Witness>, NoMemory>
    requires typed { IsWellTyped (C.is_type cx.now) (C.context cx.now) (plain_match m.now) }
    requires few { length m.now.arms.now < 2 ^ 32 }
    ensures missed { IfOk result (λ v. M.is_marked marks.now (to_arm (length m.now.arms.now)) ≡ true
        → IsWitnessList (C.context cx.now) (C.is_value cx.now) (plain_match m.now) (map plain_witness v.items)) }
    ensures none { IfOk result (λ v. M.is_marked marks.now (to_arm (length m.now.arms.now)) ≡ false → v.items ≡ []) }
{
    if marks.has_arm(m.arms.len() as u32) {
        let witnesses = witness_list(alloc, cx, m)?;
        Ok(witnesses)
    } else {
        Ok(Vec::new(alloc))
    }
}

/// What is found of a match: whether it is exhaustive, the witnesses of what it leaves out, and what of it is unreachable.
///
/// The match is well typed and has fewer than 2^32 arms, and the marks are those that a search for what is reached promises
/// of it. The only error is want of memory.
pub fn judge_by<'a, C: PatCx, M: Marked>(
    alloc: Global,
    cx: &C,
    m: &CheckedMatch<'a, C::Ty>,
    marks: &M,
) -> Result<Judgement, NoMemory>
    requires typed { IsWellTyped (C.is_type cx.now) (C.context cx.now) (plain_match m.now) }
    requires few { length m.now.arms.now < 2 ^ 32 }
    requires reached { IsReached (C.is_value cx.now) (plain_match m.now) (M.is_marked marks.now) }
    ensures { IfOk result (λ j. IsJudged (C.is_value cx.now) (C.context cx.now) (plain_match m.now) j.exhaustive
        (plain_entries j.unreachable.items) (map plain_witness j.witnesses.items)) }
{
    matches_are_made(m);
    judged_by_marks(cx);
    let witnesses = witnesses_where(alloc, cx, m, marks)?;
    let unreachable = unreachable_list(alloc, m, marks)?;
    Ok(Judgement {
        exhaustive: witnesses.is_empty(),
        witnesses,
        unreachable,
    })
}
