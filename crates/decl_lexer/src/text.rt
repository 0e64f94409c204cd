//! Stepping over a text by its characters.
ghost use Rattle.std.specs.Prelude.{◌≡◌, ◌<◌, ◌≤◌, [], ◌∷◌, length, drop, MatchOption, IfSome, chars, encode_utf8_all};
ghost use Rattle.std.specs.List.{take_while};
ghost use Rattle.decl_lexer.specs.Text.{skip_while, begins_with};
ghost use Rattle.unicode_ident.specs.Ident.{is_xid_continue};

/// The first character, and the text behind it. A character of ASCII is its byte, which is not decoded.
#[inline(always)]
pub fn split_first(text: &str) -> Option<(char, &str)>
    ensures cases { MatchOption result (chars text.now ≡ []) (λ p. chars text.now ≡ p.0 ∷ chars p.1.now) }
    ensures shorter { IfSome result (λ p. length p.1.now < length text.now) }
{
    match text.as_bytes().first() {
        Some(&first) if first < 128 => Some((first as char, &text[1..])),
        _ => split_decoded(text),
    }
}

/// The first character, which is decoded, and the text behind it.
#[inline(never)]
fn split_decoded(text: &str) -> Option<(char, &str)>
    ensures cases { MatchOption result (chars text.now ≡ []) (λ p. chars text.now ≡ p.0 ∷ chars p.1.now) }
    ensures shorter { IfSome result (λ p. length p.1.now < length text.now) }
{
    let mut all = text.chars();
    let first = all.next()?;
    Some((first, all.as_str()))
}

/// Whether the text begins with the character.
pub fn first_is(wanted: char, text: &str) -> bool
    ensures { result ≡ begins_with (wanted ∷ []) (chars text.now) }
{
    match split_first(text) {
        Some((first, _)) => first == wanted,
        None => false,
    }
}

/// Whether the first character and the text behind it begin with these two characters.
pub fn pair_is(one: char, two: char, first: char, behind: &str) -> bool
    ensures { result ≡ begins_with (one ∷ two ∷ []) (first ∷ chars behind.now) }
{
    first == one && first_is(two, behind)
}

/// The text behind its first character.
pub fn skip_first(text: &str) -> &str
    ensures rest { chars result.now ≡ drop 1 (chars text.now) }
    ensures shorter { length result.now ≤ length text.now }
{
    match split_first(text) {
        Some((_, rest)) => rest,
        None => text,
    }
}

/// Whether the character may stand within an identifier. The table of Unicode is asked beyond ASCII alone.
#[inline(always)]
fn continues_name(c: char) -> bool
    ensures { result ≡ is_xid_continue c }
{
    if c.is_ascii() {
        c.is_ascii_alphanumeric() || c == '_'
    } else {
        unicode_ident::is_xid_continue(c)
    }
}

/// The text behind the identifier characters that it begins with.
#[inline(always)]
pub fn skip_name(text: &str) -> &str
    ensures rest { chars result.now ≡ skip_while is_xid_continue (chars text.now) }
    ensures shorter { length result.now ≤ length text.now }
{
    let mut rest = text;
    while let Some((first, others)) = split_first(rest) {
        if !continues_name(first) {
            break;
        }
        rest = others;
    }
    rest
}

/// The identifier characters that the text begins with; `rest` is the text behind them.
#[inline(always)]
pub fn name_before<'a>(text: &'a str, rest: &str) -> &'a str
    requires { chars rest.now ≡ skip_while is_xid_continue (chars text.now) }
    ensures name { chars result.now ≡ take_while is_xid_continue (chars text.now) }
    ensures bytes { result.now ≡ encode_utf8_all (take_while is_xid_continue (chars text.now)) }
{
    &text[..text.len() - rest.len()]
}

/// Cuts the text behind the identifier characters that it begins with.
#[inline(always)]
pub fn split_name(text: &str) -> (&str, &str)
    ensures name { chars result.0.now ≡ take_while is_xid_continue (chars text.now) }
    ensures bytes { result.0.now ≡ encode_utf8_all (take_while is_xid_continue (chars text.now)) }
    ensures rest { chars result.1.now ≡ skip_while is_xid_continue (chars text.now) }
{
    let rest = skip_name(text);
    (name_before(text, rest), rest)
}
