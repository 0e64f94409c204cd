// Numbers as literals and the ends of ranges write them (Rust Reference, Literal patterns and Range patterns).
ghost use Rattle.std.specs.Prelude.{◌≡◌, ◌-ℤ◌, pos, false, int_le, int_lt, IsTrue, IfSome, option_map};
ghost use Rattle.match_model.specs.declared.Width as widths;
ghost use Rattle.match_model.specs.Constructors.{least_held};
ghost use Rattle.match_model.specs.Numbers.{is_at, numbers_of};
ghost use Rattle.match_model.specs.SourcePatterns.{low_written, high_written, number_before, written_range};
ghost use Rattle.number_kinds.specs.Kinds.{kind_type, scalar_ranges};
ghost use Rattle.number_kinds.specs.Literals.{literal_width, is_literal_of, ends_cross, has_no_number};
ghost use Rattle.range_split.specs.Ends.{plain_end};
ghost use Rattle.range_split.specs.Numbers.{num_value};
ghost use Rattle.range_split.specs.Ranges.{plain_range};

use crate::kinds::{NumberKind, greatest, has_number, least};
use match_model::Width;
use range_split::{End, Num, Range};

/// The width that literals are held to: without a width those of `usize` and `isize` fit 64 bits (our own choice).
pub fn literal_width(width: Width) -> Width
    ensures { result ≡ literal_width width }
{
    match width {
        Width::Endless => Width::Bits64,
        Width::Bits16 => Width::Bits16,
        Width::Bits32 => Width::Bits32,
        Width::Bits64 => Width::Bits64,
    }
}

/// Whether a literal of the type can be the number.
pub fn is_literal_of(width: Width, kind: NumberKind, n: &Num) -> bool
    ensures { result ≡ is_literal_of width (kind_type kind) (num_value n.now) }
{
    has_number(literal_width(width), kind, n)
}

/// Whether a range with these ends, of which the high one is in it where it is inclusive, has no number of the type: its
/// ends cross, or it is `..b` with the type's least number b.
pub fn has_no_number(
    width: Width,
    kind: NumberKind,
    low: Option<Num>,
    inclusive: bool,
    high: Option<Num>,
) -> bool
    ensures { result ≡ has_no_number width (kind_type kind)
        (option_map num_value low) inclusive (option_map num_value high) }
{
    match high {
        Some(high) => match low {
            Some(low) => ends_cross(inclusive, &low, &high),
            None => !inclusive && is_at(&high, least(width, kind)),
        },
        None => false,
    }
}

// Whether `a..=b` has a above b, or `a..b` has a not below b.
fn ends_cross(inclusive: bool, a: &Num, b: &Num) -> bool
    ensures { result ≡ ends_cross inclusive (num_value a.now) (num_value b.now) }
{
    if inclusive {
        !is_at_most(a, b)
    } else {
        is_at_most(b, a)
    }
}

// Whether one number is at or below another.
fn is_at_most(a: &Num, b: &Num) -> bool
    ensures { result ≡ int_le (num_value a.now) (num_value b.now) }
{
    Range::new(End::At(*a), End::At(*b)).is_some()
}

// Whether the end is this number.
fn is_at(n: &Num, end: End) -> bool
    ensures { result ≡ is_at (num_value n.now) (plain_end end) }
{
    match end {
        End::Free => false,
        End::At(m) => is_at_most(n, &m) && is_at_most(&m, n),
    }
}

/// The range that a written one means at the type, with both its ends in it: an end that is left out is the type's least
/// or greatest number, where it has one, and an exclusive end is brought to the number of the type before it.
pub fn written_range(
    width: Width,
    kind: NumberKind,
    low: Option<Num>,
    inclusive: bool,
    high: Option<Num>,
) -> Range
    requires low_fits { IfSome low (λ n. IsTrue (is_literal_of width (kind_type kind) (num_value n))) }
    requires high_fits { IfSome high (λ n. IsTrue (is_literal_of width (kind_type kind) (num_value n))) }
    requires has_one { has_no_number width (kind_type kind)
        (option_map num_value low) inclusive (option_map num_value high) ≡ false }
    ensures { plain_range result ≡ written_range width (kind_type kind)
        (option_map num_value low) inclusive (option_map num_value high) }
{
    let low = low_end(width, kind, low);
    let high = high_end(width, kind, inclusive, high);
    Range::between(&low, &high)
}

// A low end as it is written, or the type's least number.
fn low_end(width: Width, kind: NumberKind, low: Option<Num>) -> End
    ensures { plain_end result ≡ low_written (numbers_of width (kind_type kind)) (option_map num_value low) }
{
    match low {
        Some(n) => End::At(n),
        None => least(width, kind),
    }
}

// A high end as it is written, the number before it where it is exclusive, or the type's greatest number.
fn high_end(width: Width, kind: NumberKind, inclusive: bool, high: Option<Num>) -> End
    requires { IfSome high (λ n. IsTrue (is_literal_of width (kind_type kind) (num_value n))) }
    ensures { plain_end result
        ≡ high_written (numbers_of width (kind_type kind)) inclusive (option_map num_value high) }
{
    match high {
        Some(n) => End::At(if inclusive { n } else { number_before(kind, n) }),
        None => greatest(width, kind),
    }
}

// The number of the type right before this one.
fn number_before(kind: NumberKind, n: Num) -> Num
    requires { IsTrue (int_lt least_held (num_value n)) }
    ensures { (width : widths.Width) →
        num_value result ≡ number_before (numbers_of width (kind_type kind)) (num_value n) }
{
    match kind {
        NumberKind::Char => scalar_before(n),
        NumberKind::Int(_) => previous(n),
    }
}

// The scalar value right before this one, over the surrogates where they stand between.
fn scalar_before(n: Num) -> Num
    requires { IsTrue (int_lt least_held (num_value n)) }
    ensures { num_value result ≡ number_before scalar_ranges (num_value n) }
{
    if !n.negative && n.size == 0xe000 {
        Num::new(false, 0xd7ff)
    } else {
        previous(n)
    }
}

// The number one below.
fn previous(n: Num) -> Num
    requires { IsTrue (int_lt least_held (num_value n)) }
    ensures { (num_value result) ≡ (num_value n -ℤ pos 1) }
{
    if n.negative || n.size == 0 {
        Num::new(true, n.size + 1)
    } else {
        Num::new(false, n.size - 1)
    }
}
