// Pairs of ranges that were found and overlap.
ghost use Rattle.std.specs.Prelude.{◌≡◌, ◌<◌, [], map, length, slice_get, Some, IfOk, OnOk};
ghost use Rattle.match_model.specs.Overlaps.{MeetAt};
ghost use Rattle.match_model.specs.WellTyped.{IsWellTyped};
ghost use Rattle.pattern_arena.specs.Trees.{plain_match};
ghost use Rattle.pattern_lints.specs.Ends.{AreApart, AreEnds, IsEnd, Rise, across};
ghost use Rattle.pattern_lints.specs.declared.ends.Side.TheVariants.{Low, High};
ghost use Rattle.pattern_lints.specs.Finding.{AreFoundIn, range_view};
ghost use Rattle.pattern_lints.specs.Pairing.{Adds, IsInArm, IsPair, IsPairFacing, IsPairFrom, IsPairIn, pair_at};
ghost use Rattle.pattern_lints.specs.Views.{plain_overlap, plain_overlaps};
ghost use Rattle.range_split.specs.Numbers.{num_value};

use crate::along::along;
use crate::columns::{Crowd, choose_columns, find_crowds};
use crate::ends::{RangeEnd, Side, run_across, sorted_ends};
use crate::found::FoundRange;
use crate::hulls::{find_hulls, no_hulls};
use no_memory::NoMemory;
use pat_context::PatCx;
use pattern_arena::CheckedMatch;
use range_split::Num;
use std::alloc::Global;
use witnesses::Overlap;

// The overlap of ranges at two offsets, the smaller one first.
fn overlap_at(one: u64, other: u64, value: Num) -> Overlap
    ensures { plain_overlap result ≡ pair_at one other (num_value value) }
{
    let (first, second) = if one < other {
        (one, other)
    } else {
        (other, one)
    };
    Overlap {
        first,
        second,
        value,
    }
}

// Adds the overlap of two ranges at one place, of which one ends where the other begins, if they do overlap.
fn add_pair<'a, C: PatCx>(
    cx: &C,
    m: &CheckedMatch<'a, C::Ty>,
    overlaps: &mut Vec<Overlap>,
    one: &FoundRange,
    other: &FoundRange,
    value: Num,
) -> Result<(), NoMemory>
    requires typed { IsWellTyped (C.is_type cx.now) (C.context cx.now) (plain_match m.now) }
    requires one { IsInArm (plain_match m.now).arms (range_view one.now) }
    requires other { IsInArm (plain_match m.now).arms (range_view other.now) }
    requires one_arm { one.now.arm < length m.now.arms.now }
    requires other_arm { other.now.arm < length m.now.arms.now }
    requires touch { MeetAt (range_view one.now).range (range_view other.now).range (num_value value) }
    ensures { OnOk result (Adds (IsPair (C.is_value cx.now) (plain_match m.now) (range_view one.now)
        (range_view other.now) (num_value value)) (plain_overlaps overlaps.old.items)
        (plain_overlaps overlaps.new.items)) }
{
    if one.at == other.at {
        return Ok(());
    }
    let first = &m.arms[one.arm].pat;
    let second = &m.arms[other.arm].pat;
    if along(cx, m.ty, m.validity, first, &one.path, second, &other.path) {
        overlaps.push(overlap_at(one.at, other.at, value))?;
    }
    Ok(())
}

// The range with the index.
fn range_at(found: &[FoundRange], index: usize) -> &FoundRange
    requires { index < length found.now }
    ensures { slice_get (map range_view found.now) index ≡ Some (range_view result.now) }
{
    &found[index]
}

// Adds the overlaps of the range of an end on the side with those whose ends face it.
fn add_facing<'a, C: PatCx>(
    cx: &C,
    m: &CheckedMatch<'a, C::Ty>,
    overlaps: &mut Vec<Overlap>,
    found: &[FoundRange],
    side: Side,
    others: &[RangeEnd],
    end: &RangeEnd,
) -> Result<(), NoMemory>
    requires typed { IsWellTyped (C.is_type cx.now) (C.context cx.now) (plain_match m.now) }
    requires found { AreFoundIn (plain_match m.now).arms (map range_view found.now) }
    requires others { AreEnds (across side) (map range_view found.now) others.now }
    requires rise { Rise others.now }
    requires end { IsEnd side (map range_view found.now) end.now }
    ensures { OnOk result (Adds (IsPairFacing (C.is_value cx.now) (plain_match m.now) (map range_view found.now) side
        others.now end.now) (plain_overlaps overlaps.old.items) (plain_overlaps overlaps.new.items)) }
{
    let one = range_at(found, end.index);
    let (first, last) = run_across(others, end, side);
    for i in first..last {
        let other = range_at(found, others[i].index);
        add_pair(cx, m, overlaps, one, other, end.number)?;
    }
    Ok(())
}

// Adds the overlaps of the ranges of ends on the side with those whose ends face them.
fn add_from<'a, C: PatCx>(
    cx: &C,
    m: &CheckedMatch<'a, C::Ty>,
    overlaps: &mut Vec<Overlap>,
    found: &[FoundRange],
    side: Side,
    ends: &[RangeEnd],
    others: &[RangeEnd],
) -> Result<(), NoMemory>
    requires typed { IsWellTyped (C.is_type cx.now) (C.context cx.now) (plain_match m.now) }
    requires found { AreFoundIn (plain_match m.now).arms (map range_view found.now) }
    requires ends { AreEnds side (map range_view found.now) ends.now }
    requires others { AreEnds (across side) (map range_view found.now) others.now }
    requires rise { Rise others.now }
    ensures { OnOk result (Adds (IsPairFrom (C.is_value cx.now) (plain_match m.now) (map range_view found.now) side
        ends.now others.now) (plain_overlaps overlaps.old.items) (plain_overlaps overlaps.new.items)) }
{
    for end in ends {
        add_facing(cx, m, overlaps, found, side, others, end)?;
    }
    Ok(())
}

// The overlaps of the ranges of two lists of ends, in no order.
fn pairs_across<'a, C: PatCx>(
    alloc: Global,
    cx: &C,
    m: &CheckedMatch<'a, C::Ty>,
    found: &[FoundRange],
    highs: &[RangeEnd],
    lows: &[RangeEnd],
) -> Result<Vec<Overlap>, NoMemory>
    requires typed { IsWellTyped (C.is_type cx.now) (C.context cx.now) (plain_match m.now) }
    requires found { AreFoundIn (plain_match m.now).arms (map range_view found.now) }
    requires highs { AreEnds High (map range_view found.now) highs.now }
    requires lows { AreEnds Low (map range_view found.now) lows.now }
    requires high_rise { Rise highs.now }
    requires low_rise { Rise lows.now }
    requires apart { AreApart (plain_match m.now).arms (map range_view found.now) highs.now lows.now }
    ensures { IfOk result (λ v. Adds (IsPairIn (C.is_value cx.now) (plain_match m.now) (map range_view found.now)) []
        (plain_overlaps v.items)) }
{
    let mut overlaps = Vec::new(alloc);
    add_from(cx, m, &mut overlaps, found, Side::High, highs, lows)?;
    add_from(cx, m, &mut overlaps, found, Side::Low, lows, highs)?;
    Ok(overlaps)
}

// The overlaps of the ranges, in no order, where columns keep some of them apart.
fn pairs_apart<'a, C: PatCx>(
    alloc: Global,
    cx: &C,
    m: &CheckedMatch<'a, C::Ty>,
    found: &[FoundRange],
    crowds: &[Crowd],
) -> Result<Vec<Overlap>, NoMemory>
    requires typed { IsWellTyped (C.is_type cx.now) (C.context cx.now) (plain_match m.now) }
    requires found { AreFoundIn (plain_match m.now).arms (map range_view found.now) }
    ensures { IfOk result (λ v. Adds (IsPairIn (C.is_value cx.now) (plain_match m.now) (map range_view found.now)) []
        (plain_overlaps v.items)) }
{
    let hulls = find_hulls(alloc, m.arms)?;
    let columns = choose_columns(alloc, m.arms, found, &hulls, crowds)?;
    let highs = sorted_ends(alloc, m.arms, found, &hulls, &columns, Side::High)?;
    let lows = sorted_ends(alloc, m.arms, found, &hulls, &columns, Side::Low)?;
    pairs_across(alloc, cx, m, found, &highs, &lows)
}

// The overlaps of the ranges, in no order.
pub(crate) fn all_pairs<'a, C: PatCx>(
    alloc: Global,
    cx: &C,
    m: &CheckedMatch<'a, C::Ty>,
    found: &[FoundRange],
) -> Result<Vec<Overlap>, NoMemory>
    requires typed { IsWellTyped (C.is_type cx.now) (C.context cx.now) (plain_match m.now) }
    requires found { AreFoundIn (plain_match m.now).arms (map range_view found.now) }
    ensures { IfOk result (λ v. Adds (IsPairIn (C.is_value cx.now) (plain_match m.now) (map range_view found.now)) []
        (plain_overlaps v.items)) }
{
    let none = no_hulls(alloc);
    let highs = sorted_ends(alloc, m.arms, found, &none, &[], Side::High)?;
    let lows = sorted_ends(alloc, m.arms, found, &none, &[], Side::Low)?;
    let crowds = find_crowds(alloc, found, &highs, &lows)?;
    if crowds.is_empty() {
        return pairs_across(alloc, cx, m, found, &highs, &lows);
    }
    pairs_apart(alloc, cx, m, found, &crowds)
}
