//! Plain tokens: those that are commonest, and are read without the ways by which any other token is found.
ghost use Rattle.std.specs.Prelude.{◌≡◌, ◌<◌, ◌∷◌, IfSome, true, chars};
ghost use Rattle.decl_lexer.specs.Begins.{Marked, token};
ghost use Rattle.decl_lexer.specs.Marks.{mark_at};
ghost use Rattle.decl_lexer.specs.Names.{lexeme_of, name_at};
ghost use Rattle.decl_lexer.specs.Pieces.{piece_at};
ghost use Rattle.decl_lexer.specs.Plain.{is_plain_start, is_letter_name, is_quote_sign, is_plain_digit, is_plain_mark, GivesPlain};
ghost use Rattle.decl_lexer.specs.Text.{skip_while, first_passes};
ghost use Rattle.unicode_ident.specs.Ident.{is_xid_continue};
ghost use Rattle.decl_lexer.specs.Views.{plain_view};

use crate::marks::Mark;
use crate::numbers::plain_number;
use crate::read::PlainKind;
use crate::text::{name_before, skip_name, split_first};
use crate::words::word_of;

/// The token that the text begins with, and the text behind it, where it is plain: a keyword or a name in ASCII, of those
/// that begin with `b`, `c` or `r` where neither a quote nor `#` nor `r` follows; a decimal integer up to 4 * 10^9 + 9 that
/// does not begin with 0, behind which nothing stands or a character of ASCII that goes on no number; or one of the
/// commonest marks. Else `None`, from which nothing follows. `behind` is the text behind its first character.
#[inline(always)]
pub fn plain_kind<'a>(
    text: &'a str,
    first: char,
    behind: &'a str,
) -> Option<(PlainKind<'a>, &'a str)>
    requires { chars text.now ≡ first ∷ chars behind.now }
    ensures { GivesPlain (piece_at first (chars behind.now)) result }
{
    if starts_plain_name(first) {
        return plain_name(text, behind);
    }
    if starts_letter_name(first, behind) {
        return plain_name(text, behind);
    }
    if starts_plain_number(first) {
        let (number, after) = plain_number(text)?;
        return Some((PlainKind::Small(number), after));
    }
    let (mark, after) = plain_mark(first, behind)?;
    Some((PlainKind::Mark(mark), after))
}

/// The name or keyword that the text begins with, and the text behind it. `behind` is the text behind its first character.
#[inline(always)]
fn plain_name<'a>(text: &'a str, behind: &'a str) -> Option<(PlainKind<'a>, &'a str)>
    requires { skip_while is_xid_continue (chars behind.now) ≡ skip_while is_xid_continue (chars text.now) }
    ensures { GivesPlain (name_at (chars text.now)) result }
{
    let after = skip_name(behind);
    let kind = name_kind(name_before(text, after))?;
    Some((kind, after))
}

/// What a name is, where it is in ASCII: a keyword, the mark `_`, or a name.
#[inline(always)]
fn name_kind(name: &str) -> Option<PlainKind<'_>>
    ensures { IfSome result (λ kind. plain_view kind ≡ lexeme_of (chars name.now)) }
{
    if name == "_" {
        return Some(PlainKind::Mark(Mark::Underscore));
    }
    if let Some(word) = word_of(name) {
        return Some(PlainKind::Word(word));
    }
    if name.is_ascii() {
        Some(PlainKind::Name(name))
    } else {
        None
    }
}

/// Whether a text that begins with the character begins with a name, a keyword or `_`, whatever stands behind it. The letters `b`,
/// `c` and `r` are left out, since they may stand before a quote.
#[inline(always)]
fn starts_plain_name(c: char) -> bool
    ensures value { result ≡ is_plain_start c }
    ensures ascii { result ≡ true → c < 128 }
{
    matches!(c, 'a' | 'd'..='q' | 's'..='z' | 'A'..='Z' | '_')
}

/// Whether a text begins with `b`, `c` or `r` and goes on, in `behind`, with nothing that may make more of it than a name
/// or a keyword. A name such as `bra` is left out.
#[inline(always)]
fn starts_letter_name(first: char, behind: &str) -> bool
    ensures value { result ≡ is_letter_name first (chars behind.now) }
    ensures ascii { result ≡ true → first < 128 }
{
    matches!(first, 'b' | 'c' | 'r') && !starts_sign(behind)
}

/// Whether the text begins with a quote or a `#`, or with an `r`, which may stand before them: behind such a letter they
/// may be part of a quoted piece or a raw name.
#[inline(always)]
fn starts_sign(text: &str) -> bool
    ensures { result ≡ first_passes is_quote_sign (chars text.now) }
{
    match split_first(text) {
        Some((first, _)) => matches!(first, '"' | '#' | '\'' | 'r'),
        None => false,
    }
}

/// Whether a text that begins with the character begins with a decimal number, whatever stands behind it.
#[inline(always)]
fn starts_plain_number(c: char) -> bool
    ensures value { result ≡ is_plain_digit c }
    ensures ascii { result ≡ true → c < 128 }
{
    matches!(c, '1'..='9')
}

/// The mark that a text begins with, and the text behind it, for the first characters of the commonest marks. Else
/// `None`, from which nothing follows. `behind` is the text behind that character.
#[inline(always)]
fn plain_mark(first: char, behind: &str) -> Option<(Mark, &str)>
    ensures mark { IfSome result (λ p. mark_at (first ∷ chars behind.now) ≡ token (Marked p.0) (chars p.1.now)) }
    ensures first { IfSome result (λ _. is_plain_mark first ≡ true) }
    ensures ascii { IfSome result (λ _. first < 128) }
{
    match first {
        '(' => Some((Mark::OpenRound, behind)),
        ')' => Some((Mark::CloseRound, behind)),
        '{' => Some((Mark::OpenCurly, behind)),
        '}' => Some((Mark::CloseCurly, behind)),
        '[' => Some((Mark::OpenSquare, behind)),
        ']' => Some((Mark::CloseSquare, behind)),
        ',' => Some((Mark::Comma, behind)),
        ';' => Some((Mark::Semicolon, behind)),
        '#' => Some((Mark::Hash, behind)),
        ':' => Some(colon(behind)),
        '=' => Some(equals_sign(behind)),
        '|' => Some(bar(behind)),
        _ => None,
    }
}

/// The mark that begins with a `:` before this text, and the text behind it.
#[inline(always)]
fn colon(behind: &str) -> (Mark, &str)
    ensures { mark_at (58 ∷ chars behind.now) ≡ token (Marked result.0) (chars result.1.now) }
{
    match split_first(behind) {
        Some((':', after)) => (Mark::PathSeparator, after),
        _ => (Mark::Colon, behind),
    }
}

/// The mark that begins with a `=` before this text, and the text behind it.
#[inline(always)]
fn equals_sign(behind: &str) -> (Mark, &str)
    ensures { mark_at (61 ∷ chars behind.now) ≡ token (Marked result.0) (chars result.1.now) }
{
    match split_first(behind) {
        Some(('>', after)) => (Mark::FatArrow, after),
        Some(('=', after)) => (Mark::Equal, after),
        _ => (Mark::Assign, behind),
    }
}

/// The mark that begins with a `|` before this text, and the text behind it.
#[inline(always)]
fn bar(behind: &str) -> (Mark, &str)
    ensures { mark_at (124 ∷ chars behind.now) ≡ token (Marked result.0) (chars result.1.now) }
{
    match split_first(behind) {
        Some(('|', after)) => (Mark::Or, after),
        Some(('=', after)) => (Mark::BarAssign, after),
        _ => (Mark::Bar, behind),
    }
}
