//! Escapes in characters, bytes and texts.
ghost use Rattle.std.specs.Prelude.{◌≡◌, ◌<◌, ◌≤◌, ℕ, option_map, IfSome, Some, None, chars, if◌then◌else◌};
ghost use lib.Utf8.{scalar};
ghost use Rattle.decl_lexer.specs.Numbers.{in_128_bits};
ghost use Rattle.decl_lexer.specs.Escapes.{greatest_hex, has_unicode, simple_escape, hex_escape, digit_count, unicode_escape, escape};
ghost use Rattle.decl_lexer.specs.Views.{char_view};

use crate::numbers::read_digits;
use crate::text::{first_is, skip_first, split_first};

/// What an escape stands in, which decides on the escapes that there are.
#[derive(Clone, Copy, Debug, PartialEq, Eq)]
pub enum Quoted {
    /// A character or a text.
    Text,
    /// A byte or a byte text.
    Bytes,
    /// A C text.
    CText,
}

impl Quoted {
    /// The greatest number of a `\x` escape.
    fn greatest_hex(self) -> u32
        ensures { result ≡ greatest_hex self }
    {
        match self {
            Quoted::Text => 0x7F,
            Quoted::Bytes | Quoted::CText => 0xFF,
        }
    }

    /// Whether there are `\u` escapes.
    fn has_unicode(self) -> bool
        ensures { result ≡ has_unicode self }
    {
        match self {
            Quoted::Text | Quoted::CText => true,
            Quoted::Bytes => false,
        }
    }
}

/// The character of the escape that the text begins with behind its backslash, and the text behind it.
pub fn escape(kind: Quoted, text: &str) -> Option<(char, &str)>
    ensures value { option_map char_view result ≡ escape kind (chars text.now) }
    ensures byte { IfSome result (λ p. kind ≡ Quoted.Bytes → p.0 < 256) }
{
    let (first, behind) = split_first(text)?;
    if let Some(c) = simple_escape(first) {
        return Some((c, behind));
    }
    if first == 'x' {
        return hex_escape(kind, behind);
    }
    if first == 'u' && kind.has_unicode() {
        return unicode_escape(behind);
    }
    None
}

/// The character that a backslash and this character stand for.
fn simple_escape(c: char) -> Option<char>
    ensures { result ≡ simple_escape c }
{
    match c {
        'n' => Some('\n'),
        'r' => Some('\r'),
        't' => Some('\t'),
        '\\' => Some('\\'),
        '0' => Some('\0'),
        '\'' => Some('\''),
        '"' => Some('"'),
        _ => None,
    }
}

/// The character of two hexadecimal digits behind `\x`, and the text behind them.
fn hex_escape(kind: Quoted, text: &str) -> Option<(char, &str)>
    ensures { option_map char_view result ≡ hex_escape kind (chars text.now) }
{
    let (high, behind) = split_first(text)?;
    let (low, rest) = split_first(behind)?;
    let value = 16 * high.to_digit(16)? + low.to_digit(16)?;
    if value > kind.greatest_hex() {
        return None;
    }
    let c = char::from_u32(value)?;
    Some((c, rest))
}

/// The character of an escape behind `\u`, and the text behind it.
fn unicode_escape(text: &str) -> Option<(char, &str)>
    ensures { option_map char_view result ≡ unicode_escape (chars text.now) }
{
    if !first_is('{', text) {
        return None;
    }
    let inside = skip_first(text);
    let (first, _) = split_first(inside)?;
    if !first.is_digit(16) || count_digits(16, inside) > 6 {
        return None;
    }
    let digits = read_digits(16, 16, inside);
    if !first_is('}', digits.rest) {
        return None;
    }
    let c = scalar_value(digits.value)?;
    Some((c, skip_first(digits.rest)))
}

/// How many digits are among the digits of the radix and the underscores that the text begins with.
fn count_digits(radix: u32, text: &str) -> usize
    requires least { 2 ≤ radix }
    requires most { radix ≤ 36 }
    ensures { result ≡ digit_count radix (chars text.now) }
{
    let mut count = 0usize;
    let mut rest = text;
    while let Some((first, behind)) = split_first(rest) {
        if first != '_' {
            if !first.is_digit(radix) {
                break;
            }
            count += 1;
        }
        rest = behind;
    }
    count
}

/// The character of the number, if it is a Unicode scalar value.
fn scalar_value(value: Option<u128>) -> Option<char>
    ensures { (n : ℕ) → value ≡ in_128_bits n → result ≡ (if scalar n then Some n else None) }
{
    let code = u32::try_from(value?).ok()?;
    char::from_u32(code)
}
