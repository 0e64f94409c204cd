// The overlaps of a match.
ghost use Rattle.std.specs.Prelude.{◌≡◌, IfOk};
ghost use Rattle.match_model.specs.ArenaWays.{match_arms, InMatchDomain};
ghost use Rattle.match_model.specs.Overlaps.{IsOverlapList};
ghost use Rattle.match_model.specs.WellTyped.{IsWellTyped};
ghost use Rattle.pattern_arena.specs.Trees.{plain_match};
ghost use Rattle.range_split.specs.Order.{key_by};
ghost use Rattle.pattern_lints.specs.Views.{plain_overlaps, IsInOrder};

use crate::ends::number_key;
use crate::pairs::all_pairs;
use crate::spots::find_ranges;
use no_memory::NoMemory;
use pat_context::PatCx;
use pattern_arena::CheckedMatch;
use std::alloc::Global;
use witnesses::Overlap;

// Orders overlaps: by their offsets, and then by their number.
fn key(overlap: &Overlap) -> (u64, (u64, (u8, u128)))
    ensures { result ≡ (
      overlap.now.first,
      (
        overlap.now.second,
        key_by overlap.now.value.negative overlap.now.value.size,
      ),
    ) }
{
    (overlap.first, (overlap.second, number_key(&overlap.value)))
}

// The overlaps in order, each once.
fn in_order(mut overlaps: Vec<Overlap>) -> Result<Vec<Overlap>, NoMemory>
    ensures { IfOk result (λ v. IsInOrder (plain_overlaps overlaps.items) (plain_overlaps v.items)) }
{
    overlaps.sort_by_key(|overlap| key(overlap))?;
    overlaps.dedup();
    Ok(overlaps)
}

/// Finds which range patterns of the match have exactly one number in common, at one part of some value of the
/// scrutinee. Both of their patterns match that value (the documentation of the lint on overlapping range endpoints).
/// Ranges of one number take no part, and arms with guards count.
///
/// The list ascends by the first offset, then the second, then the number, and has each overlap once. Offsets are in
/// bytes. The match is well typed. The only error is want of memory.
pub fn overlaps<'a, C: PatCx>(
    alloc: Global,
    cx: &C,
    m: &CheckedMatch<'a, C::Ty>,
) -> Result<Vec<Overlap>, NoMemory>
    requires { IsWellTyped (C.is_type cx.now) (C.context cx.now) (plain_match m.now) }
    ensures { IfOk result (λ v. IsOverlapList (InMatchDomain (C.is_value cx.now) (plain_match m.now))
        (match_arms (plain_match m.now)) (plain_overlaps v.items)) }
{
    let found = find_ranges(alloc, m.arms)?;
    let all = all_pairs(alloc, cx, m, &found)?;
    let list = in_order(all)?;
    Ok(list)
}
