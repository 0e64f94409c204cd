// Ends beside numbers and beside each other.
ghost use Rattle.std.specs.Prelude.{◌≡◌};
ghost use Rattle.match_model.specs.Constructors.{low_within};
ghost use Rattle.match_model.specs.Pieces.{is_at};
ghost use Rattle.range_split.specs.Numbers.{num_value};
ghost use Rattle.range_split.specs.Ends.{plain_end};

use crate::{End, Num};

// Tells whether an end is this number.
pub(crate) fn is_at(end: &End, n: &Num) -> bool
    ensures { result ≡ is_at (num_value n.now) (plain_end end.now) }
{
    match end {
        End::Free => false,
        End::At(at) => at.is_at_most(n) && n.is_at_most(at),
    }
}

// Tells whether one low end is at or below another.
pub(crate) fn is_low_within(low: &End, other: &End) -> bool
    ensures { result ≡ low_within (plain_end low.now) (plain_end other.now) }
{
    match (low, other) {
        (End::Free, _) => true,
        (End::At(first), End::At(second)) => first.is_at_most(second),
        _ => false,
    }
}
