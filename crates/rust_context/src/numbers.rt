// The numbers of `char` and of the integer types, as ranges (Rust Reference, Numeric types and Textual types).
ghost use Rattle.std.specs.Prelude.{◌≡◌, ◌<◌, ◌≤◌, ◌^◌, pos, negsuc};
ghost use Rattle.match_model.specs.Numbers.{kind_range, closed};
ghost use Rattle.match_model.specs.declared.IntKind.TheVariants.{USize, ISize};
ghost use Rattle.range_split.specs.Ranges.{plain_range};

use match_model::{IntKind, Width};
use range_split::{End, Num, Range};

// The numbers of an integer type. Without a width `usize` has no greatest number, and `isize` neither a least nor a
// greatest one.
pub(crate) fn kind_numbers(width: Width, kind: IntKind) -> Range
    ensures { plain_range result ≡ kind_range width kind }
{
    match kind {
        IntKind::U8 => unsigned(u8::MAX as u128),
        IntKind::U16 => unsigned(u16::MAX as u128),
        IntKind::U32 => unsigned(u32::MAX as u128),
        IntKind::U64 => unsigned(u64::MAX as u128),
        IntKind::U128 => unsigned(u128::MAX),
        IntKind::USize => usize_numbers(width),
        IntKind::I8 => signed(i8::MAX as u128),
        IntKind::I16 => signed(i16::MAX as u128),
        IntKind::I32 => signed(i32::MAX as u128),
        IntKind::I64 => signed(i64::MAX as u128),
        IntKind::I128 => signed(i128::MAX as u128),
        IntKind::ISize => isize_numbers(width),
    }
}

// The numbers of `usize`.
fn usize_numbers(width: Width) -> Range
    ensures { plain_range result ≡ kind_range width USize }
{
    match width {
        Width::Endless => Range::between(&End::At(Num::new(false, 0)), &End::Free),
        Width::Bits16 => unsigned(u16::MAX as u128),
        Width::Bits32 => unsigned(u32::MAX as u128),
        Width::Bits64 => unsigned(u64::MAX as u128),
    }
}

// The numbers of `isize`.
fn isize_numbers(width: Width) -> Range
    ensures { plain_range result ≡ kind_range width ISize }
{
    match width {
        Width::Endless => Range::between(&End::Free, &End::Free),
        Width::Bits16 => signed(i16::MAX as u128),
        Width::Bits32 => signed(i32::MAX as u128),
        Width::Bits64 => signed(i64::MAX as u128),
    }
}

// The numbers from 0 to the greatest.
fn unsigned(greatest: u128) -> Range
    ensures { plain_range result ≡ closed (pos 0) (pos greatest) }
{
    between(0, greatest)
}

// The numbers from the one below minus the greatest to the greatest.
fn signed(greatest: u128) -> Range
    requires { greatest < 2 ^ 127 }
    ensures { plain_range result ≡ closed (negsuc greatest) (pos greatest) }
{
    let low = Num::new(true, greatest + 1);
    let high = Num::new(false, greatest);
    Range::between(&End::At(low), &End::At(high))
}

// The numbers from one to another, neither below zero.
pub(crate) fn between(least: u128, greatest: u128) -> Range
    requires { least ≤ greatest }
    ensures { plain_range result ≡ closed (pos least) (pos greatest) }
{
    let low = Num::new(false, least);
    let high = Num::new(false, greatest);
    Range::between(&End::At(low), &End::At(high))
}
