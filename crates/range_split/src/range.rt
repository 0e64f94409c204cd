// Ranges of whole numbers.
ghost use Rattle.std.specs.Prelude.{◌≡◌, IsTrue};
ghost use Rattle.match_model.specs.Numbers as model;
ghost use Rattle.range_split.specs.Numbers.{num_value};
ghost use Rattle.range_split.specs.Ends.{plain_end, ends_ascend, ends_are_apart, kept_end, is_kept};

use crate::size::Size;
use crate::{End, Num};

/// What an end of a range is: free, at a number below zero, or at another number.
#[derive(Clone, Copy, Debug, PartialEq, Eq, Hash)]
pub enum EndKind {
    Free,
    Negative,
    Positive,
}

/// A range of whole numbers with both its ends in it. It has a number: a low end is never above a high one. `low` and
/// `high` give its ends, which are kept in 40 bytes.
#[derive(Clone, Copy, Debug, PartialEq, Eq, Hash)]
pub struct Range {
    pub low_kind: EndKind,
    pub high_kind: EndKind,
    /// How far from zero the ends are, zero where they are free.
    pub low_size: Size,
    pub high_size: Size,
    pub ghost low_is_kept: { IsTrue (is_kept low_kind low_size) },
    pub ghost high_is_kept: { IsTrue (is_kept high_kind high_size) },
    pub ghost ascending: { IsTrue (ends_ascend (kept_end low_kind low_size) (kept_end high_kind high_size)) },
}

// The end as a range keeps it.
fn kept(end: &End) -> (EndKind, Size)
    ensures end { kept_end result.0 result.1 ≡ plain_end end.now }
    ensures kept { IsTrue (is_kept result.0 result.1) }
{
    match end {
        End::Free => (EndKind::Free, Size::new(0)),
        End::At(n) => kept_number(n),
    }
}

// The number as a range keeps it.
fn kept_number(n: &Num) -> (EndKind, Size)
    ensures end { kept_end result.0 result.1 ≡ model.At (num_value n.now) }
    ensures kept { IsTrue (is_kept result.0 result.1) }
{
    if n.negative {
        (EndKind::Negative, Size::new(n.size))
    } else {
        (EndKind::Positive, Size::new(n.size))
    }
}

// The end that a range keeps so.
fn shown(kind: EndKind, size: &Size) -> End
    ensures { plain_end result ≡ kept_end kind size.now }
{
    match kind {
        EndKind::Free => End::Free,
        EndKind::Negative => End::At(Num::new(true, size.whole())),
        EndKind::Positive => End::At(Num::new(false, size.whole())),
    }
}

// Tells whether a low end is at or below a high one.
pub(crate) fn ascend(low: &End, high: &End) -> bool
    ensures { result ≡ ends_ascend (plain_end low.now) (plain_end high.now) }
{
    match (low, high) {
        (End::At(first), End::At(last)) => first.is_at_most(last),
        _ => true,
    }
}

// Tells whether a high end is below a low one.
fn are_apart(high: &End, low: &End) -> bool
    ensures { result ≡ ends_are_apart (plain_end high.now) (plain_end low.now) }
{
    match (high, low) {
        (End::At(last), End::At(first)) => !first.is_at_most(last),
        _ => false,
    }
}

impl Range {
    ghost use Rattle.std.specs.Prelude.{◌≡◌, ◌↔◌, IsTrue, IfSome, is_some};
    ghost use Rattle.match_model.specs.Numbers.{in_range, has_one_number};
    ghost use Rattle.range_split.specs.Numbers.{num_value};
    ghost use Rattle.range_split.specs.Ends.{plain_end, ends_ascend};
    ghost use Rattle.range_split.specs.Ranges.{plain_range, range_of, Meet, IsBelow};

    /// The range from one end to the other, or nothing exactly where both are numbers and `low` is above `high`.
    pub fn new(low: End, high: End) -> Option<Range>
        ensures some { is_some result ≡ ends_ascend (plain_end low) (plain_end high) }
        ensures ends { IfSome result (λ r. plain_range r ≡ range_of (plain_end low) (plain_end high)) }
    {
        if ascend(&low, &high) {
            Some(Range::between(&low, &high))
        } else {
            None
        }
    }

    /// The range from one end to the other, which is not below it.
    pub fn between(low: &End, high: &End) -> Range
        requires { IsTrue (ends_ascend (plain_end low.now) (plain_end high.now)) }
        ensures { plain_range result ≡ range_of (plain_end low.now) (plain_end high.now) }
    {
        let (low_kind, low_size) = kept(low);
        let (high_kind, high_size) = kept(high);
        Range {
            low_kind,
            high_kind,
            low_size,
            high_size,
        }
    }

    /// The low end.
    pub fn low(&self) -> End
        ensures { plain_end result ≡ (plain_range self.now).low }
    {
        shown(self.low_kind, &self.low_size)
    }

    /// The high end.
    pub fn high(&self) -> End
        ensures { plain_end result ≡ (plain_range self.now).high }
    {
        shown(self.high_kind, &self.high_size)
    }

    /// Tells whether the two ranges share a number.
    pub fn meets(&self, other: &Range) -> bool
        ensures { IsTrue result ↔ Meet (plain_range self.now) (plain_range other.now) }
    {
        ascend(&self.low(), &other.high()) && ascend(&other.low(), &self.high())
    }

    /// Tells whether the range has the number.
    pub fn contains(&self, n: &Num) -> bool
        ensures { result ≡ in_range (plain_range self.now) (num_value n.now) }
    {
        let at = End::At(*n);
        ascend(&self.low(), &at) && ascend(&at, &self.high())
    }

    /// Tells whether both ends are the same number, so that the range has exactly that one.
    pub fn is_single(&self) -> bool
        ensures { result ≡ has_one_number (plain_range self.now) }
    {
        match (self.low(), self.high()) {
            (End::At(first), End::At(last)) => last.is_at_most(&first),
            _ => false,
        }
    }

    /// Tells whether each number of the range is below each of the other.
    pub fn before(&self, other: &Range) -> bool
        ensures { IsTrue result ↔ IsBelow (plain_range self.now) (plain_range other.now) }
    {
        are_apart(&self.high(), &other.low())
    }
}
