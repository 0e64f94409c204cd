//! Integer and floating-point literals.
ghost use Rattle.std.specs.Prelude.{◌≡◌, ◌+◌, ◌*◌, ◌<◌, ◌≤◌, ◌∷◌, ℕ, chars, encode_utf8_all, IfOk, IfSome, MatchOption, Ok, Some, [], true, false};
ghost use Rattle.decl_lexer.specs.Text.{first_passes};
ghost use Rattle.decl_lexer.specs.Numbers.{behind_digits, has_digit, has_other_digit, number_from, in_128_bits, suffix_of, behind_suffix, is_exponent_letter, behind_sign, has_exponent, behind_exponent, integer_at, based_at, float_at, fraction_at, is_point, decimal_at, number_at};
ghost use Rattle.decl_lexer.specs.Begins.{Integer, token};
ghost use Rattle.decl_lexer.specs.Plain.{ends_number, starts_other};
ghost use Rattle.decl_lexer.specs.Views.{GivesPiece, read_view};

use crate::names::{is_name_start, starts_name};
use crate::pieces::{Piece, PieceRead, breaks};
use crate::read::ReadKind;
use crate::text::{first_is, skip_first, split_first, split_name};
use crate::token::IntToken;
use std::alloc::{AllocError, Global};

/// The digits and underscores that a text begins with, read in a base.
#[derive(Drop)]
pub struct Digits<'a> {
    /// The number that they write, or `None` from 2^128 on.
    pub value: Option<u128>,
    /// Whether a digit is among them.
    pub some: bool,
    /// Whether a digit that the base lacks is among them.
    pub others: bool,
    /// The text behind them.
    pub rest: &'a str,
}

/// The number that the text begins with; `behind` is the text behind its first digit.
#[inline(never)]
pub fn number_at<'a>(alloc: Global, text: &'a str, first: char, behind: &'a str) -> PieceRead<'a>
    requires { chars text.now ≡ first ∷ chars behind.now }
    ensures { GivesPiece result (number_at first (chars behind.now)) }
{
    if first == '0' && first_is('x', behind) {
        return based_at(alloc, 16, 16, text, skip_first(behind));
    }
    if first == '0' && first_is('o', behind) {
        return based_at(alloc, 10, 8, text, skip_first(behind));
    }
    if first == '0' && first_is('b', behind) {
        return based_at(alloc, 10, 2, text, skip_first(behind));
    }
    decimal_at(alloc, text)
}

/// The integer that the text begins with, and the text behind it, where decimal digits alone write it, the end or another
/// character of ASCII follows them, and it is at most 4 * 10^9 + 9. Else `None`, from which nothing follows.
#[inline(always)]
pub fn plain_number(text: &str) -> Option<(u32, &str)>
    ensures { IfSome result (λ p. decimal_at (chars text.now) ≡ token (Integer (Some p.0) [] true) (chars p.1.now)) }
{
    let (number, rest) = few_digits(text)?;
    if starts_other(rest) {
        Some((number, rest))
    } else {
        None
    }
}

/// The number that the decimal digits write that the text begins with, and the text behind them. Above 4 * 10^9 + 9, `None`.
#[inline(always)]
fn few_digits(text: &str) -> Option<(u32, &str)>
    ensures number { IfSome result (λ p. number_from 10 10 p.0 (chars p.1.now) ≡ number_from 10 10 0 (chars text.now)) }
    ensures rest { IfSome result (λ p. behind_digits 10 (chars p.1.now) ≡ behind_digits 10 (chars text.now)) }
{
    let mut number = 0u32;
    let mut rest = text;
    while let Some((first, behind)) = split_first(rest) {
        let Some(digit) = first.to_digit(10) else {
            break;
        };
        if 400_000_000 < number {
            return None;
        }
        number = 10 * number + digit;
        rest = behind;
    }
    Some((number, rest))
}

/// Whether the text is empty or begins with a character of ASCII that is no letter or digit, `_` or `.`. Such a character
/// goes on no number.
#[inline(always)]
fn starts_other(text: &str) -> bool
    ensures { result ≡ starts_other (chars text.now) }
{
    match split_first(text) {
        Some((first, _)) => ends_number(first),
        None => true,
    }
}

/// Whether the character is of ASCII, and no letter or digit, `_` or `.`.
#[inline(always)]
fn ends_number(c: char) -> bool
    ensures { result ≡ ends_number c }
{
    c < '\u{80}' && !c.is_ascii_alphanumeric() && c != '_' && c != '.'
}

/// An integer with a prefix for its base at the start of the text, behind which `inside` stands.
fn based_at<'a>(
    alloc: Global,
    radix: u32,
    base: u32,
    text: &'a str,
    inside: &'a str,
) -> PieceRead<'a>
    requires least { 2 ≤ base }
    requires most { base ≤ radix }
    requires radix { radix ≤ 36 }
    ensures { GivesPiece result (based_at radix base (chars text.now) (chars inside.now)) }
{
    let digits = read_digits(radix, base, inside);
    if !digits.some || digits.others {
        return breaks(2, text);
    }
    integer_at(alloc, text, digits.value, false, digits.rest)
}

/// A number without a prefix at the start of the text.
fn decimal_at(alloc: Global, text: &str) -> PieceRead<'_>
    ensures { GivesPiece result (decimal_at (chars text.now)) }
{
    let digits = read_digits(10, 10, text);
    if starts_point(digits.rest) {
        return fraction_at(text, skip_first(digits.rest));
    }
    if let Some(rest) = skip_exponent(digits.rest) {
        return Ok(float_at(rest));
    }
    integer_at(alloc, text, digits.value, true, digits.rest)
}

/// A float with a `.` at the start of the text, behind which `inside` stands.
fn fraction_at<'a>(text: &'a str, inside: &'a str) -> PieceRead<'a>
    ensures { GivesPiece result (fraction_at (chars text.now) (chars inside.now)) }
{
    let digits = read_digits(10, 10, inside);
    if let Some(rest) = skip_exponent(digits.rest) {
        return Ok(float_at(rest));
    }
    if starts_exponent(digits.rest) {
        return breaks(2, text);
    }
    Ok(float_at(digits.rest))
}

/// An integer at the start of the text, behind whose digits `behind` stands.
fn integer_at<'a>(
    alloc: Global,
    text: &'a str,
    value: Option<u128>,
    decimal: bool,
    behind: &'a str,
) -> PieceRead<'a>
    ensures { GivesPiece result (integer_at (chars text.now) value decimal (chars behind.now)) }
{
    if starts_exponent(behind) {
        return breaks(2, text);
    }
    let (suffix, rest) = split_suffix(behind);
    let kind = integer_kind(alloc, value, suffix, decimal)?;
    Ok((Piece::Token(kind), rest))
}

/// The token of an integer.
fn integer_kind(
    alloc: Global,
    value: Option<u128>,
    suffix: &str,
    decimal: bool,
) -> Result<ReadKind<'static>, AllocError>
    ensures { IfOk result (λ kind. read_view kind ≡ Integer value suffix.now decimal) }
{
    if decimal && suffix.is_empty() {
        if let Some(small) = small_value(value) {
            return Ok(ReadKind::Small(small));
        }
    }
    let suffix = String::from_str(alloc, suffix)?;
    let integer = IntToken {
        value,
        suffix,
        decimal,
    };
    Ok(ReadKind::Int(Box::new(alloc, integer)?))
}

/// The value, where it is below 2^64.
fn small_value(value: Option<u128>) -> Option<u64>
    ensures { IfSome result (λ small. value ≡ Some small) }
{
    let value = value?;
    if value <= u64::MAX as u128 {
        Some(value as u64)
    } else {
        None
    }
}

/// A float, behind whose digits or exponent the text begins.
fn float_at(behind: &str) -> (Piece<'_>, &str)
    ensures { GivesPiece (Ok result) (float_at (chars behind.now)) }
{
    let (_, rest) = split_suffix(behind);
    (Piece::Token(ReadKind::Float), rest)
}

/// Cuts the text behind the suffix that it begins with, which may be empty.
fn split_suffix(text: &str) -> (&str, &str)
    ensures suffix { result.0.now ≡ encode_utf8_all (suffix_of (chars text.now)) }
    ensures rest { chars result.1.now ≡ behind_suffix (chars text.now) }
{
    if starts_name(text) {
        split_name(text)
    } else {
        ("", text)
    }
}

/// Whether the text begins with a `.` that no `.`, `_` or identifier follows.
fn starts_point(text: &str) -> bool
    ensures { result ≡ is_point (chars text.now) }
{
    if !first_is('.', text) {
        return false;
    }
    match split_first(skip_first(text)) {
        Some((second, _)) => second != '.' && !is_name_start(second),
        None => true,
    }
}

/// The text behind the exponent that it begins with, if it begins with one.
fn skip_exponent(text: &str) -> Option<&str>
    ensures { MatchOption result (has_exponent (chars text.now) ≡ false)
        (λ rest. (has_exponent (chars text.now) ≡ true) × (chars rest.now ≡ behind_exponent (chars text.now))) }
{
    if !starts_exponent(text) {
        return None;
    }
    let digits = read_digits(10, 10, skip_sign(skip_first(text)));
    if digits.some { Some(digits.rest) } else { None }
}

/// Whether the text begins with the letter of an exponent.
fn starts_exponent(text: &str) -> bool
    ensures { result ≡ first_passes is_exponent_letter (chars text.now) }
{
    match split_first(text) {
        Some((first, _)) => first == 'e' || first == 'E',
        None => false,
    }
}

/// The text behind the sign that it may begin with.
fn skip_sign(text: &str) -> &str
    ensures { chars result.now ≡ behind_sign (chars text.now) }
{
    match split_first(text) {
        Some(('+' | '-', rest)) => rest,
        _ => text,
    }
}

/// Reads the digits of the radix and the underscores that the text begins with, in the base.
pub fn read_digits(radix: u32, base: u32, text: &str) -> Digits<'_>
    requires least { 2 ≤ base }
    requires most { base ≤ radix }
    requires radix { radix ≤ 36 }
    ensures value { result.value ≡ in_128_bits (number_from radix base 0 (chars text.now)) }
    ensures some { result.some ≡ has_digit radix (chars text.now) }
    ensures others { result.others ≡ has_other_digit radix base (chars text.now) }
    ensures rest { chars result.rest.now ≡ behind_digits radix (chars text.now) }
{
    let mut value = Some(0u128);
    let mut some = false;
    let mut others = false;
    let mut rest = text;
    while let Some((first, behind)) = split_first(rest) {
        if first != '_' {
            let Some(digit) = first.to_digit(radix) else {
                break;
            };
            some = true;
            others |= base <= digit;
            value = append_digit(base, value, digit);
        }
        rest = behind;
    }
    Digits {
        value,
        some,
        others,
        rest,
    }
}

/// The number with one more digit behind its own.
fn append_digit(base: u32, value: Option<u128>, digit: u32) -> Option<u128>
    requires { 0 < base }
    ensures { (n : ℕ) → value ≡ in_128_bits n → result ≡ in_128_bits (base * n + digit) }
{
    let shifted = value?.checked_mul(base as u128)?;
    shifted.checked_add(digit as u128)
}
