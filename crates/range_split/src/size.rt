// Distances from zero, in two halves.
ghost use Rattle.std.specs.Prelude.{◌<◌, ◌^◌};

/// A number below 2^128 in two halves, so that it lies at any place of eight bytes.
#[derive(Clone, Copy, Debug, PartialEq, Eq, Hash)]
pub struct Size {
    pub upper: u64,
    pub lower: u64,
    pub ghost upper_fits: { upper < 2 ^ 64 },
    pub ghost lower_fits: { lower < 2 ^ 64 },
}

// 2^64.
const HALF: u128 = 0x1_0000_0000_0000_0000;

impl Size {
    ghost use Rattle.std.specs.Prelude.{◌≡◌, ◌<◌, ◌^◌};
    ghost use Rattle.range_split.specs.Numbers.{whole_size};

    /// The halves of a number.
    pub fn new(whole: u128) -> Size
        ensures { whole_size result ≡ whole }
    {
        Size {
            upper: (whole / HALF) as u64,
            lower: (whole % HALF) as u64,
        }
    }

    /// The number.
    pub fn whole(&self) -> u128
        ensures { result ≡ whole_size self.now }
    {
        self.upper as u128 * HALF + self.lower as u128
    }
}
