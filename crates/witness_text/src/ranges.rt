// Ranges of numbers and of characters.
ghost use Rattle.std.specs.Prelude.{◌≡◌, ◌++◌, pos, neg_ℤ, OnOk, codes, decimal, string_bytes};
ghost use Rattle.std.specs.Fmt.{signed_decimal};
ghost use Rattle.range_split.specs.Numbers.{num_value};
ghost use Rattle.range_split.specs.Ends.{plain_end};
ghost use Rattle.range_split.specs.Ranges.{plain_range};
ghost use Rattle.witness_text.specs.Literals.{char_literal};
ghost use Rattle.witness_text.specs.Ranges.{numbers_text, chars_text, is_above, is_below};
ghost use Rattle.witness_text.specs.Ranges.{begins_above_literals, ends_below_literals, above_text, ints_text};
ghost use Rattle.witness_text.specs.Arms.{from_greatest, up_to_least, several_text, arm_ints, is_one_char, arm_chars, ints_by, chars_by};

use crate::literals::push_char;
use crate::named::Style;
use match_model::IntKind;
use range_split::{End, Num, Range};
use std::alloc::AllocError;

// Adds a number without a sign.
pub fn push_size(text: &mut String, size: u128) -> Result<(), AllocError>
    ensures { OnOk result (string_bytes text.new ≡ string_bytes text.old ++ decimal size) }
{
    write!(text, "{size}")
}

// Adds a number.
pub fn push_number(text: &mut String, number: &Num) -> Result<(), AllocError>
    ensures { OnOk result (string_bytes text.new ≡ string_bytes text.old ++ signed_decimal (num_value number.now)) }
{
    if number.negative {
        text.push('-')?;
        return push_size(text, number.size);
    }
    push_size(text, number.size)
}

// Whether an end is above the greatest number of 64 bits, or of 63.
fn is_above(end: &End, size: u128) -> bool
    ensures { result ≡ is_above (pos size) (plain_end end.now) }
{
    match end {
        End::Free => false,
        End::At(number) => !number.negative && number.size > size,
    }
}

// Whether an end is further below zero than so much.
fn is_below(end: &End, size: u128) -> bool
    ensures { result ≡ is_below (neg_ℤ (pos size)) (plain_end end.now) }
{
    match end {
        End::Free => false,
        End::At(number) => number.negative && number.size > size,
    }
}

// Whether a range begins above every literal of its type.
fn begins_above_literals(kind: IntKind, low: &End) -> bool
    ensures { result ≡ begins_above_literals kind (plain_end low.now) }
{
    match kind {
        IntKind::USize => is_above(low, 0xffff_ffff_ffff_ffff),
        IntKind::ISize => is_above(low, 0x7fff_ffff_ffff_ffff),
        _ => false,
    }
}

// Whether a range ends below every literal of its type.
fn ends_below_literals(kind: IntKind, high: &End) -> bool
    ensures { result ≡ ends_below_literals kind (plain_end high.now) }
{
    match kind {
        IntKind::ISize => is_below(high, 0x8000_0000_0000_0000),
        _ => false,
    }
}

// The numbers from the greatest literal on.
fn above_text(kind: IntKind) -> &'static str
    ensures { result.now ≡ above_text kind }
{
    match kind {
        IntKind::ISize => "isize::MAX..",
        _ => "usize::MAX..",
    }
}

// Adds two ends that are different numbers.
fn push_two(text: &mut String, low: &Num, high: &Num) -> Result<(), AllocError>
    ensures { OnOk result (string_bytes text.new ≡ string_bytes text.old
        ++ (signed_decimal (num_value low.now) ++ (codes "..=" ++ signed_decimal (num_value high.now)))) }
{
    push_number(text, low)?;
    text.push_str("..=")?;
    push_number(text, high)?;
    Ok(())
}

// Adds the numbers of a range by its ends.
fn push_numbers(text: &mut String, range: &Range) -> Result<(), AllocError>
    ensures { OnOk result (string_bytes text.new ≡ string_bytes text.old
        ++ numbers_text (plain_range range.now).low (plain_range range.now).high) }
{
    match (&range.low(), &range.high()) {
        (End::Free, End::Free) => text.push('_'),
        (End::Free, End::At(high)) => {
            text.push_str("..=")?;
            push_number(text, high)?;
            Ok(())
        }
        (End::At(low), End::Free) => {
            push_number(text, low)?;
            text.push_str("..")?;
            Ok(())
        }
        (End::At(low), End::At(high)) => {
            if range.is_single() {
                return push_number(text, low);
            }
            push_two(text, low, high)
        }
    }
}

// Adds a range of an integer type, as a report shows it.
fn push_shown_ints(text: &mut String, kind: IntKind, range: &Range) -> Result<(), AllocError>
    ensures { OnOk result (string_bytes text.new ≡ string_bytes text.old ++ ints_text kind (plain_range range.now)) }
{
    if begins_above_literals(kind, &range.low()) {
        return text.push_str(above_text(kind));
    }
    if ends_below_literals(kind, &range.high()) {
        return text.push_str("..isize::MIN");
    }
    push_numbers(text, range)
}

// Adds two ends that are different characters.
fn push_two_chars(text: &mut String, low: char, high: char) -> Result<(), AllocError>
    ensures { OnOk result (string_bytes text.new ≡ string_bytes text.old
        ++ (char_literal low ++ (codes "..=" ++ char_literal high))) }
{
    push_char(text, low)?;
    text.push_str("..=")?;
    push_char(text, high)?;
    Ok(())
}

// Adds a range of characters, as a report shows it.
fn push_shown_chars(
    text: &mut String,
    low: Option<char>,
    high: Option<char>,
) -> Result<(), AllocError>
    ensures { OnOk result (string_bytes text.new ≡ string_bytes text.old ++ chars_text low high) }
{
    match (low, high) {
        (None, None) => text.push('_'),
        (None, Some(high)) => {
            text.push_str("..=")?;
            push_char(text, high)?;
            Ok(())
        }
        (Some(low), None) => {
            push_char(text, low)?;
            text.push_str("..")?;
            Ok(())
        }
        (Some(low), Some(high)) => {
            if low == high {
                return push_char(text, low);
            }
            push_two_chars(text, low, high)
        }
    }
}

// The numbers from the greatest literal on, which is the nearest literal to what lies above.
fn from_greatest(kind: IntKind) -> &'static str
    ensures { result.now ≡ from_greatest kind }
{
    match kind {
        IntKind::ISize => "9223372036854775807..",
        _ => "18446744073709551615..",
    }
}

// Adds several numbers. A range beyond every literal begins or ends at the nearest one.
fn push_several(text: &mut String, kind: IntKind, range: &Range) -> Result<(), AllocError>
    ensures { OnOk result (string_bytes text.new ≡ string_bytes text.old ++ several_text kind (plain_range range.now)) }
{
    if begins_above_literals(kind, &range.low()) {
        return text.push_str(from_greatest(kind));
    }
    if ends_below_literals(kind, &range.high()) {
        return text.push_str("..=-9223372036854775808");
    }
    push_numbers(text, range)
}

// Adds numbers of an integer type as an arm has them: several stand in parentheses.
fn push_arm_ints(text: &mut String, kind: IntKind, range: &Range) -> Result<(), AllocError>
    ensures { OnOk result (string_bytes text.new ≡ string_bytes text.old ++ arm_ints kind (plain_range range.now)) }
{
    if range.is_single() {
        return push_numbers(text, range);
    }
    text.push('(')?;
    push_several(text, kind, range)?;
    text.push(')')?;
    Ok(())
}

// Adds characters as an arm has them: several stand in parentheses.
fn push_arm_chars(
    text: &mut String,
    low: Option<char>,
    high: Option<char>,
) -> Result<(), AllocError>
    ensures { OnOk result (string_bytes text.new ≡ string_bytes text.old ++ arm_chars low high) }
{
    if is_one_char(low, high) {
        return push_shown_chars(text, low, high);
    }
    text.push('(')?;
    push_shown_chars(text, low, high)?;
    text.push(')')?;
    Ok(())
}

// Whether the ends are one character.
fn is_one_char(low: Option<char>, high: Option<char>) -> bool
    ensures { result ≡ is_one_char low high }
{
    match (low, high) {
        (Some(low), Some(high)) => low == high,
        _ => false,
    }
}

// Adds numbers of an integer type.
pub fn push_ints(
    text: &mut String,
    style: Style,
    kind: IntKind,
    range: &Range,
) -> Result<(), AllocError>
    ensures { OnOk result (string_bytes text.new ≡ string_bytes text.old ++ ints_by style kind (plain_range range.now)) }
{
    match style {
        Style::Shown => push_shown_ints(text, kind, range),
        Style::Arm => push_arm_ints(text, kind, range),
    }
}

// Adds characters.
pub fn push_chars(
    text: &mut String,
    style: Style,
    low: Option<char>,
    high: Option<char>,
) -> Result<(), AllocError>
    ensures { OnOk result (string_bytes text.new ≡ string_bytes text.old ++ chars_by style low high) }
{
    match style {
        Style::Shown => push_shown_chars(text, low, high),
        Style::Arm => push_arm_chars(text, low, high),
    }
}
