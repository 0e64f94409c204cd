// The numbers of `char` and of the integer types (Rust Reference, Numeric types and Textual types).
ghost use Rattle.std.specs.Prelude.{◌≡◌, ◌<◌, ◌≤◌, ◌^◌, ◌∷◌, [], pos, negsuc};
ghost use Rattle.std.specs.List.{list_any};
ghost use Rattle.match_model.specs.declared.IntKind.TheVariants.{USize, ISize};
ghost use Rattle.match_model.specs.Numbers.{kind_range, closed, in_range, numbers_of, has_number};
ghost use Rattle.match_model.specs.SourcePatterns.{least_end, greatest_end};
ghost use Rattle.number_kinds.specs.Kinds.{kind_type, scalar_ranges};
ghost use Rattle.range_split.specs.Ends.{plain_end};
ghost use Rattle.range_split.specs.Numbers.{num_value};
ghost use Rattle.range_split.specs.Ranges.{plain_range};

use match_model::{IntKind, Width};
use range_split::{End, Num, Range};

/// A type whose values are numbers: `char`, by its scalar values, or an integer type.
#[derive(Clone, Copy, Debug, PartialEq, Eq)]
pub enum NumberKind {
    Char,
    Int(IntKind),
}

/// The numbers of an integer type. Without a width `usize` has no greatest number, and `isize` neither a least nor a
/// greatest one.
pub fn kind_numbers(width: Width, kind: IntKind) -> Range
    ensures { plain_range result ≡ kind_range width kind }
{
    match kind {
        IntKind::U8 => unsigned(u8::MAX as u128),
        IntKind::U16 => unsigned(u16::MAX as u128),
        IntKind::U32 => unsigned(u32::MAX as u128),
        IntKind::U64 => unsigned(u64::MAX as u128),
        IntKind::U128 => unsigned(u128::MAX),
        IntKind::USize => usize_numbers(width),
        IntKind::I8 => signed(i8::MAX as u128),
        IntKind::I16 => signed(i16::MAX as u128),
        IntKind::I32 => signed(i32::MAX as u128),
        IntKind::I64 => signed(i64::MAX as u128),
        IntKind::I128 => signed(i128::MAX as u128),
        IntKind::ISize => isize_numbers(width),
    }
}

// The numbers of `usize`.
fn usize_numbers(width: Width) -> Range
    ensures { plain_range result ≡ kind_range width USize }
{
    match width {
        Width::Endless => Range::between(&End::At(Num::new(false, 0)), &End::Free),
        Width::Bits16 => unsigned(u16::MAX as u128),
        Width::Bits32 => unsigned(u32::MAX as u128),
        Width::Bits64 => unsigned(u64::MAX as u128),
    }
}

// The numbers of `isize`.
fn isize_numbers(width: Width) -> Range
    ensures { plain_range result ≡ kind_range width ISize }
{
    match width {
        Width::Endless => Range::between(&End::Free, &End::Free),
        Width::Bits16 => signed(i16::MAX as u128),
        Width::Bits32 => signed(i32::MAX as u128),
        Width::Bits64 => signed(i64::MAX as u128),
    }
}

/// The scalar values, below the surrogates and above them (The Unicode Standard, Unicode scalar value).
pub fn char_numbers() -> (Range, Range)
    ensures { plain_range result.0 ∷ (plain_range result.1 ∷ []) ≡ scalar_ranges }
{
    (between(0, 0xd7ff), between(0xe000, 0x10ffff))
}

// The numbers from 0 to the greatest.
fn unsigned(greatest: u128) -> Range
    ensures { plain_range result ≡ closed (pos 0) (pos greatest) }
{
    between(0, greatest)
}

// The numbers from the one below minus the greatest to the greatest.
fn signed(greatest: u128) -> Range
    requires { greatest < 2 ^ 127 }
    ensures { plain_range result ≡ closed (negsuc greatest) (pos greatest) }
{
    let low = Num::new(true, greatest + 1);
    let high = Num::new(false, greatest);
    Range::between(&End::At(low), &End::At(high))
}

// The numbers from one to another, neither below zero.
fn between(least: u128, greatest: u128) -> Range
    requires { least ≤ greatest }
    ensures { plain_range result ≡ closed (pos least) (pos greatest) }
{
    let low = Num::new(false, least);
    let high = Num::new(false, greatest);
    Range::between(&End::At(low), &End::At(high))
}

/// Whether the number is one of the type's.
pub fn has_number(width: Width, kind: NumberKind, n: &Num) -> bool
    ensures { result ≡ has_number width (kind_type kind) (num_value n.now) }
{
    match kind {
        NumberKind::Char => is_scalar(n),
        NumberKind::Int(kind) => kind_numbers(width, kind).contains(n),
    }
}

// Whether the number is a scalar value.
fn is_scalar(n: &Num) -> bool
    ensures { result ≡ list_any (λ r. in_range r (num_value n.now)) scalar_ranges }
{
    let (low, high) = char_numbers();
    low.contains(n) || high.contains(n)
}

// The type's least number.
pub(crate) fn least(width: Width, kind: NumberKind) -> End
    ensures { plain_end result ≡ least_end (numbers_of width (kind_type kind)) }
{
    match kind {
        NumberKind::Char => End::At(Num::new(false, 0)),
        NumberKind::Int(kind) => kind_numbers(width, kind).low(),
    }
}

// The type's greatest number.
pub(crate) fn greatest(width: Width, kind: NumberKind) -> End
    ensures { plain_end result ≡ greatest_end (numbers_of width (kind_type kind)) }
{
    match kind {
        NumberKind::Char => End::At(Num::new(false, 0x10ffff)),
        NumberKind::Int(kind) => kind_numbers(width, kind).high(),
    }
}
