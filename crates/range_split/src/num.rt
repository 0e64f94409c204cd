// Whole numbers.
ghost use Rattle.std.specs.Prelude.{◌≡◌, ◌<◌, ◌^◌, false};

/// A whole number from -(2^128 - 1) to 2^128 - 1, by its sign and its distance from zero.
#[derive(Clone, Copy, Debug, PartialEq, Eq, Hash)]
pub struct Num {
    pub negative: bool,
    /// The distance from zero.
    pub size: u128,
    pub ghost zero_is_not_negative: { size ≡ 0 → negative ≡ false },
    pub ghost size_fits: { size < 2 ^ 128 },
}

impl Num {
    ghost use Rattle.std.specs.Prelude.{int_le, ◌≡◌, ◌+ℤ◌, ◌-ℤ◌, pos, IsTrue, int_lt};
    ghost use Rattle.match_model.specs.Constructors.{greatest_held, least_held};
    ghost use Rattle.range_split.specs.Numbers.{signed, num_value};

    /// The number of that sign and size; minus zero is zero.
    pub fn new(negative: bool, size: u128) -> Num
        ensures value { num_value result ≡ signed negative size }
        ensures size { result.size ≡ size }
    {
        Num {
            negative: negative && size != 0,
            size,
        }
    }

    /// Tells whether a number is at or below another.
    pub fn is_at_most(&self, other: &Num) -> bool
        ensures { result ≡ int_le (num_value self.now) (num_value other.now) }
    {
        if self.negative {
            !other.negative || other.size <= self.size
        } else {
            !other.negative && self.size <= other.size
        }
    }

    // The next number.
    pub(crate) fn next(&self) -> Num
        requires { IsTrue (int_lt (num_value self.now) greatest_held) }
        ensures { num_value result ≡ num_value self.now +ℤ pos 1 }
    {
        if self.negative {
            Num::new(true, self.size - 1)
        } else {
            Num::new(false, self.size + 1)
        }
    }

    // The number before.
    pub(crate) fn previous(&self) -> Num
        requires { IsTrue (int_lt least_held (num_value self.now)) }
        ensures { num_value result ≡ num_value self.now -ℤ pos 1 }
    {
        if self.negative || self.size == 0 {
            Num::new(true, self.size + 1)
        } else {
            Num::new(false, self.size - 1)
        }
    }
}
