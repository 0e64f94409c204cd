// Cuts: where the ranges of a column begin and end.
ghost use Rattle.std.specs.Prelude.{◌≡◌, ◌<◌, ◌^◌, false, IsTrue, int_lt};
ghost use Rattle.match_model.specs.Constructors.{least_held};
ghost use Rattle.range_split.specs.Numbers.{signed};

use crate::Num;

/// A place between two numbers where a range of a column begins or has ended. The number behind it is told by its sign
/// and its distance from zero; the number before it can be held.
#[derive(Clone, Copy)]
pub struct Cut {
    /// The distance from zero of the number behind the cut.
    pub size: u128,
    /// Whether that number is below zero.
    pub negative: bool,
    /// Whether a range begins behind the cut; else one has ended before it.
    pub begins: bool,
    pub ghost zero_is_not_negative: { size ≡ 0 → negative ≡ false },
    pub ghost size_fits: { size < 2 ^ 128 },
    pub ghost held: { IsTrue (int_lt least_held (signed negative size)) },
}

impl Cut {
    ghost use Rattle.std.specs.Prelude.{◌≡◌, IsTrue, int_lt};
    ghost use Rattle.match_model.specs.Constructors.{least_held};
    ghost use Rattle.range_split.specs.Numbers.{num_value};
    ghost use Rattle.range_split.specs.Order.{key_by};
    ghost use Rattle.range_split.specs.Cuts.{cut_number};

    // The cut before the number.
    pub(crate) fn before(first: &Num, begins: bool) -> Cut
        requires { IsTrue (int_lt least_held (num_value first.now)) }
        ensures number { cut_number result ≡ num_value first.now }
        ensures begins { result.begins ≡ begins }
    {
        Cut {
            size: first.size,
            negative: first.negative,
            begins,
        }
    }

    // The number behind the cut.
    pub(crate) fn first(&self) -> Num
        ensures { num_value result ≡ cut_number self.now }
    {
        Num {
            negative: self.negative,
            size: self.size,
        }
    }

    // Orders cuts by their numbers: first those below zero, of which the greater size comes first.
    pub(crate) fn key(&self) -> (u8, u128)
        ensures { result ≡ key_by self.now.negative self.now.size }
    {
        if self.negative {
            (0, u128::MAX - self.size)
        } else {
            (1, self.size)
        }
    }
}
