//! Character and byte literals, and lifetimes.
ghost use Rattle.std.specs.Prelude.{chars};
ghost use Rattle.decl_lexer.specs.Begins.{Character, Byte};
ghost use Rattle.decl_lexer.specs.Characters.{escaped_at, raw_lifetime_at, lifetime_at, quote_at, byte_at};
ghost use Rattle.decl_lexer.specs.Views.{GivesPiece};

use crate::escapes::{Quoted, escape};
use crate::names::{is_name_start, starts_name};
use crate::pieces::{Piece, PieceRead, breaks};
use crate::read::ReadKind;
use crate::text::{first_is, skip_first, split_first, split_name};
use crate::words::can_be_raw;

/// The character or lifetime that the text begins with; `inside` is the text behind its `'`.
#[inline(never)]
pub fn quote_at<'a>(text: &'a str, inside: &'a str) -> PieceRead<'a>
    ensures { GivesPiece result (quote_at (chars text.now) (chars inside.now)) }
{
    let Some((first, behind)) = split_first(inside) else {
        return breaks(2, text);
    };
    if first == '\\' {
        return escaped_char_at(text, inside);
    }
    if !matches!(first, '\'' | '\n' | '\r' | '\t') && first_is('\'', behind) {
        return Ok((Piece::Token(ReadKind::Char(first)), skip_first(behind)));
    }
    if first == 'r' && first_is('#', behind) && starts_name(skip_first(behind)) {
        return raw_lifetime_at(text, skip_first(behind));
    }
    if is_name_start(first) {
        return lifetime_at(text, inside);
    }
    breaks(2, text)
}

/// The byte that the text begins with; `inside` is the text behind its `b'`.
#[inline(never)]
pub fn byte_at<'a>(text: &'a str, inside: &'a str) -> PieceRead<'a>
    ensures { GivesPiece result (byte_at (chars text.now) (chars inside.now)) }
{
    let Some((first, behind)) = split_first(inside) else {
        return breaks(2, text);
    };
    if first == '\\' {
        return escaped_byte_at(text, inside);
    }
    if first.is_ascii() && !matches!(first, '\'' | '\n' | '\r' | '\t') && first_is('\'', behind) {
        let byte = first as u32 as u8;
        return Ok((Piece::Token(ReadKind::Byte(byte)), skip_first(behind)));
    }
    breaks(2, text)
}

/// A character at the start of the text whose escape begins where `escaped` does.
fn escaped_char_at<'a>(text: &'a str, escaped: &'a str) -> PieceRead<'a>
    ensures { GivesPiece result (escaped_at Quoted.Text Character (chars text.now) (chars escaped.now)) }
{
    let Some((c, behind)) = escape(Quoted::Text, skip_first(escaped)) else {
        return breaks(5, escaped);
    };
    if !first_is('\'', behind) {
        return breaks(2, text);
    }
    Ok((Piece::Token(ReadKind::Char(c)), skip_first(behind)))
}

/// A byte at the start of the text whose escape begins where `escaped` does.
fn escaped_byte_at<'a>(text: &'a str, escaped: &'a str) -> PieceRead<'a>
    ensures { GivesPiece result (escaped_at Quoted.Bytes Byte (chars text.now) (chars escaped.now)) }
{
    let Some((c, behind)) = escape(Quoted::Bytes, skip_first(escaped)) else {
        return breaks(5, escaped);
    };
    if !first_is('\'', behind) {
        return breaks(2, text);
    }
    let byte = c as u32 as u8;
    Ok((Piece::Token(ReadKind::Byte(byte)), skip_first(behind)))
}

/// A raw lifetime at the start of the text, whose name `named` begins with.
fn raw_lifetime_at<'a>(text: &'a str, named: &'a str) -> PieceRead<'a>
    ensures { GivesPiece result (raw_lifetime_at (chars text.now) (chars named.now)) }
{
    let (name, rest) = split_name(named);
    if !can_be_raw(name) || first_is('\'', rest) {
        return breaks(2, text);
    }
    Ok((Piece::Token(ReadKind::Lifetime), rest))
}

/// A lifetime at the start of the text, whose name `named` begins with.
fn lifetime_at<'a>(text: &'a str, named: &'a str) -> PieceRead<'a>
    ensures { GivesPiece result (lifetime_at (chars text.now) (chars named.now)) }
{
    let (_, rest) = split_name(named);
    if first_is('\'', rest) {
        return breaks(2, text);
    }
    Ok((Piece::Token(ReadKind::Lifetime), rest))
}
