//! Texts, byte texts, C texts, and the raw ones.
ghost use Rattle.std.specs.Prelude.{◌≡◌, ◌<◌, ◌≤◌, true, false, length, drop, MatchOption, chars, string_bytes, encode_utf8_all};
ghost use Rattle.std.specs.List.{take_while};
ghost use Rattle.decl_lexer.specs.Text.{skip_while, first_passes};
ghost use Rattle.decl_lexer.specs.Texts.{begins_line_end, behind_blanks, is_ordinary, text_from, text_at, is_hash, has_hashes, raw_from, is_raw_text, raw_text_at, text_lexeme};
ghost use Rattle.decl_lexer.specs.Views.{GivesPiece, GivesText, read_view};

use crate::escapes::{Quoted, escape};
use crate::pieces::{Piece, PieceError, PieceRead, breaks};
use crate::read::ReadKind;
use crate::text::{first_is, skip_first, split_first};
use std::alloc::Global;

/// The text that `text` begins with, which goes on behind its opening quote as `inside`.
#[inline(never)]
pub fn text_at<'a>(alloc: Global, kind: Quoted, text: &'a str, inside: &'a str) -> PieceRead<'a>
    ensures { GivesPiece result (text_at kind (chars text.now) (chars inside.now)) }
{
    match read_text(alloc, kind, text, inside) {
        Ok((value, rest)) => {
            let token = kind_of_text(kind, value);
            Ok((Piece::Token(token), rest))
        }
        Err(e) => Err(e),
    }
}

/// The raw text that `text` begins with, which goes on behind its letters as `behind`.
#[inline(never)]
pub fn raw_text_at<'a>(alloc: Global, kind: Quoted, text: &'a str, behind: &'a str) -> PieceRead<'a>
    ensures { GivesPiece result (raw_text_at kind (chars text.now) (chars behind.now)) }
{
    let (hashes, rest) = count_hashes(behind);
    if hashes > 255 {
        return breaks(2, text);
    }
    match read_raw(alloc, hashes, text, skip_first(rest)) {
        Ok((value, rest)) => {
            let token = kind_of_text(kind, value);
            Ok((Piece::Token(token), rest))
        }
        Err(e) => Err(e),
    }
}

/// Whether a raw text goes on here behind its letters: `#` and then a quote.
#[inline(never)]
pub fn starts_raw_text(text: &str) -> bool
    ensures { result ≡ is_raw_text (chars text.now) }
{
    let (_, rest) = count_hashes(text);
    first_is('"', rest)
}

/// What a text stands for whose opening quote `inside` follows, and the text behind its closing
/// quote. The whole text begins where `all` does.
fn read_text<'a>(
    alloc: Global,
    kind: Quoted,
    all: &'a str,
    inside: &'a str,
) -> Result<(String, &'a str), PieceError<'a>>
    ensures { GivesText result (text_from kind (chars all.now) 0 (chars inside.now)) }
{
    let mut value = String::new(alloc);
    let mut rest = inside;
    while let Some((first, behind)) = split_first(rest) {
        if first == '"' {
            return Ok((value, behind));
        }
        if first == '\\' {
            if starts_line_end(behind) {
                rest = skip_blanks(behind);
            } else {
                let Some((c, after)) = escape(kind, behind) else {
                    return Err(PieceError::Fault { rule: 5, rest });
                };
                value.push(c)?;
                rest = after;
            }
        } else if first == '\r' {
            if !first_is('\n', behind) {
                return Err(PieceError::Fault { rule: 2, rest });
            }
            rest = behind;
        } else {
            let (run, after) = split_run(true, rest);
            value.push_str(run)?;
            rest = after;
        }
    }
    Err(PieceError::Fault { rule: 4, rest: all })
}

/// What a raw text of so many `#` stands for whose opening quote `inside` follows, and the text behind
/// it. The whole text begins where `all` does.
fn read_raw<'a>(
    alloc: Global,
    hashes: usize,
    all: &'a str,
    inside: &'a str,
) -> Result<(String, &'a str), PieceError<'a>>
    ensures { GivesText result (raw_from hashes (chars all.now) (chars inside.now)) }
{
    let mut value = String::new(alloc);
    let mut rest = inside;
    while let Some((first, behind)) = split_first(rest) {
        if first == '"' {
            if let Some(after) = skip_hashes(hashes, behind) {
                return Ok((value, after));
            }
            value.push('"')?;
            rest = behind;
            continue;
        }
        if first == '\r' {
            if !first_is('\n', behind) {
                return Err(PieceError::Fault { rule: 2, rest });
            }
            rest = behind;
            continue;
        }
        let (run, after) = split_run(false, rest);
        value.push_str(run)?;
        rest = after;
    }
    Err(PieceError::Fault { rule: 4, rest: all })
}

/// The token of a text that stands for this.
fn kind_of_text(kind: Quoted, value: String) -> ReadKind<'static>
    ensures { read_view result ≡ text_lexeme kind (string_bytes value) }
{
    match kind {
        Quoted::Text => ReadKind::Str(value),
        Quoted::Bytes => ReadKind::ByteStr,
        Quoted::CText => ReadKind::CStr,
    }
}

/// Cuts the text behind the characters that stand for themselves.
fn split_run(escapes: bool, text: &str) -> (&str, &str)
    ensures run { result.0.now ≡ encode_utf8_all (take_while (is_ordinary escapes) (chars text.now)) }
    ensures rest { chars result.1.now ≡ skip_while (is_ordinary escapes) (chars text.now) }
    ensures shorter { first_passes (is_ordinary escapes) (chars text.now) ≡ true
        → length result.1.now < length text.now }
{
    let rest = skip_run(escapes, text);
    let run = &text[..text.len() - rest.len()];
    (run, rest)
}

/// The text behind the characters that stand for themselves.
fn skip_run(escapes: bool, text: &str) -> &str
    ensures rest { chars result.now ≡ skip_while (is_ordinary escapes) (chars text.now) }
    ensures shorter { length result.now ≤ length text.now }
{
    let mut rest = text;
    while let Some((first, behind)) = split_first(rest) {
        if first == '"' || first == '\r' || (escapes && first == '\\') {
            break;
        }
        rest = behind;
    }
    rest
}

/// Whether the text begins with a line feed, or with a CR and a line feed.
fn starts_line_end(text: &str) -> bool
    ensures { result ≡ begins_line_end (chars text.now) }
{
    match split_first(text) {
        Some((first, behind)) => first == '\n' || (first == '\r' && first_is('\n', behind)),
        None => false,
    }
}

/// The text behind the spaces, tabs and line ends that it begins with.
fn skip_blanks(text: &str) -> &str
    ensures rest { chars result.now ≡ behind_blanks (chars text.now) }
    ensures shorter { length result.now ≤ length text.now }
{
    let mut rest = text;
    while let Some((first, behind)) = split_first(rest) {
        if !(first == ' ' || first == '\t' || starts_line_end(rest)) {
            break;
        }
        rest = behind;
    }
    rest
}

/// How many `#` the text begins with, and the text behind them.
fn count_hashes(text: &str) -> (usize, &str)
    ensures count { result.0 ≡ length (take_while is_hash (chars text.now)) }
    ensures rest { chars result.1.now ≡ skip_while is_hash (chars text.now) }
{
    let mut count = 0usize;
    let mut rest = text;
    while let Some((first, behind)) = split_first(rest) {
        if first != '#' {
            break;
        }
        count += 1;
        rest = behind;
    }
    (count, rest)
}

/// The text behind so many `#`, if it begins with them.
fn skip_hashes(hashes: usize, text: &str) -> Option<&str>
    ensures { MatchOption result (has_hashes hashes (chars text.now) ≡ false)
        (λ rest. (has_hashes hashes (chars text.now) ≡ true) × (chars rest.now ≡ drop hashes (chars text.now))) }
{
    let mut rest = text;
    for _ in 0..hashes {
        if !first_is('#', rest) {
            return None;
        }
        rest = skip_first(rest);
    }
    Some(rest)
}
