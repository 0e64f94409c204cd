// The ends of ranges, in order, so that those that touch an end of the other side stand together.
ghost use Rattle.std.specs.Prelude.{◌≡◌, map, IfOk};
ghost use Rattle.pattern_arena.specs.Trees.{plain_arm, tree};
ghost use Rattle.range_split.specs.Numbers.{num_value};
ghost use Rattle.range_split.specs.Order.{key_by};
ghost use Rattle.range_split.specs.Ends.{plain_end};
ghost use Rattle.range_split.specs.Ranges.{plain_range};
ghost use Rattle.pattern_lints.specs.Finding.{AreFoundIn, range_view};
ghost use Rattle.pattern_lints.specs.Ends.{end_at, is_high, is_under, AreBounded, AreEnds, IsBetween, IsCount, IsRun};
ghost use Rattle.pattern_lints.specs.Ends.{KnowsColumns, Rise, is_before};
ghost use Rattle.pattern_lints.specs.Hulls.{AreKnown, AreKnownIn};

use crate::beside::bounds;
use crate::found::FoundRange;
use crate::hulls::{Hulls, all_numbers};
use crate::mixing::{Columns, numbers_in};
use no_memory::NoMemory;
use pattern_arena::{CheckedArm, DePat};
use range_split::{End, Num, Range};
use std::alloc::Global;

// Which end of a range.
#[derive(Clone, Copy, Debug, PartialEq, Eq)]
pub(crate) enum Side {
    Low,
    High,
}

// An end of a range that was found.
#[derive(Clone, Copy, Debug)]
pub(crate) struct RangeEnd {
    // The number of the range's place.
    pub(crate) place: usize,
    pub(crate) number: Num,
    // Between these two lies the number in the columns beside the range.
    pub(crate) from: Num,
    pub(crate) to: Num,
    // The index of the range.
    pub(crate) index: usize,
}

// Orders numbers: first those below zero, of which the greater size comes first.
pub(crate) fn number_key(number: &Num) -> (u8, u128)
    ensures { result ≡ key_by number.now.negative number.now.size }
{
    if number.negative {
        (0, u128::MAX - number.size)
    } else {
        (1, number.size)
    }
}

// Orders ends: by place, then by number, and then by what stands beside the range.
fn key(end: &RangeEnd) -> (usize, ((u8, u128), (u8, u128)))
    ensures { result ≡ (
      end.now.place,
      (
        key_by end.now.number.negative end.now.number.size,
        key_by end.now.from.negative end.now.from.size,
      ),
    ) }
{
    (end.place, (number_key(&end.number), number_key(&end.from)))
}

// The end of the range on the side.
fn end_of(range: &Range, side: Side) -> End
    ensures { plain_end result ≡ end_at side (plain_range range.now) }
{
    match side {
        Side::Low => range.low(),
        Side::High => range.high(),
    }
}

// Between which numbers lies the number in the columns of the range's place.
fn bounds_beside<'a, T: Copy>(
    hulls: &Hulls,
    columns: &[Columns],
    p: &'a DePat<'a, T>,
    range: &FoundRange,
) -> (Num, Num)
    requires { KnowsColumns columns.now (AreKnown hulls.now (tree p.now)) }
    ensures { IsBetween columns.now (tree p.entry.now) (range_view range.now) (num_value result.0)
        (num_value result.1) }
{
    match columns.get(range.place) {
        None => bounds(&all_numbers()),
        Some(own) => bounds(&numbers_in(hulls, p, &range.path, own)),
    }
}

// The ends of the ranges on the side that are numbers, as the ranges stand.
fn ends_found<'a, T: Copy>(
    alloc: Global,
    arms: &'a [CheckedArm<'a, T>],
    found: &[FoundRange],
    hulls: &Hulls,
    columns: &[Columns],
    side: Side,
) -> Result<Vec<RangeEnd>, NoMemory>
    requires found { AreFoundIn (map plain_arm arms.now) (map range_view found.now) }
    requires known { KnowsColumns columns.now (AreKnownIn hulls.now (map plain_arm arms.now)) }
    ensures ends { IfOk result (λ v. AreEnds side (map range_view found.now) v.items) }
    ensures bounded { IfOk result (λ v. AreBounded (map plain_arm arms.entry.now) columns.now
        (map range_view found.now) v.items) }
{
    let mut ends = Vec::new(alloc);
    for index in 0..found.len() {
        let range = &found[index];
        if let End::At(number) = end_of(&range.range, side) {
            let (from, to) = bounds_beside(hulls, columns, &arms[range.arm].pat, range);
            ends.push(RangeEnd {
                place: range.place,
                number,
                from,
                to,
                index,
            })?;
        }
    }
    Ok(ends)
}

// The ends of the ranges on the side that are numbers, in order.
pub(crate) fn sorted_ends<'a, T: Copy>(
    alloc: Global,
    arms: &'a [CheckedArm<'a, T>],
    found: &[FoundRange],
    hulls: &Hulls,
    columns: &[Columns],
    side: Side,
) -> Result<Vec<RangeEnd>, NoMemory>
    requires found { AreFoundIn (map plain_arm arms.now) (map range_view found.now) }
    requires known { KnowsColumns columns.now (AreKnownIn hulls.now (map plain_arm arms.now)) }
    ensures ends { IfOk result (λ v. AreEnds side (map range_view found.now) v.items) }
    ensures bounded { IfOk result (λ v. AreBounded (map plain_arm arms.entry.now) columns.now
        (map range_view found.now) v.items) }
    ensures rise { IfOk result (λ v. Rise v.items) }
{
    let mut ends = ends_found(alloc, arms, found, hulls, columns, side)?;
    ends.sort_by_key(|end| key(end))?;
    Ok(ends)
}

// Tells whether the number is below the bound, or at it where that counts.
fn is_under(number: &Num, bound: &Num, equal: bool) -> bool
    ensures { result ≡ is_under equal (num_value number.now) (num_value bound.now) }
{
    if equal {
        number.is_at_most(bound)
    } else {
        !bound.is_at_most(number)
    }
}

// Tells whether the end stands before that number at that place, or there, and below the bound.
fn stands_before(end: &RangeEnd, place: usize, number: &Num, bound: &Num, equal: bool) -> bool
    ensures { result ≡ is_before equal place (num_value number.now) (num_value bound.now) end.now }
{
    end.place < place
        || end.place == place
            && (!number.is_at_most(&end.number)
                || end.number.is_at_most(number) && is_under(&end.from, bound, equal))
}

// How many of the ends stand before that number at that place, or there, and below the bound.
fn count_before(ends: &[RangeEnd], place: usize, number: &Num, bound: &Num, equal: bool) -> usize
    requires { Rise ends.now }
    ensures { IsCount (is_before equal place (num_value number.now) (num_value bound.now)) ends.now result }
{
    ends.partition_point(
        |end: &RangeEnd| -> bool
            ensures { result ≡ is_before equal place (num_value number.entry.now) (num_value bound.entry.now) end.now }
        { stands_before(end, place, number, bound, equal) },
    )
}

// Tells whether the side is the high one.
fn is_high(side: Side) -> bool
    ensures { result ≡ is_high side }
{
    match side {
        Side::Low => false,
        Side::High => true,
    }
}

// Which of the ends of the other side face an end of this side: from the first index on, and before the second one.
pub(crate) fn run_across(ends: &[RangeEnd], end: &RangeEnd, side: Side) -> (usize, usize)
    requires { Rise ends.now }
    ensures { IsRun side end.now ends.now result.0 result.1 }
{
    let first = count_before(ends, end.place, &end.number, &end.from, !is_high(side));
    let last = count_before(ends, end.place, &end.number, &end.to, true);
    (first, last)
}
