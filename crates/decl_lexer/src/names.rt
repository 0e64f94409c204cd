//! Names, raw names and keywords.
ghost use Rattle.std.specs.Prelude.{◌≡◌, IfOk, chars, string_bytes, encode_utf8_all};
ghost use Rattle.unicode_normalization.specs.Forms.{nfc};
ghost use Rattle.decl_lexer.specs.Begins.{Named};
ghost use Rattle.decl_lexer.specs.Text.{first_passes};
ghost use Rattle.decl_lexer.specs.Names.{is_name_start, lexeme_of, name_at, raw_name_at};
ghost use Rattle.decl_lexer.specs.Views.{GivesPiece, read_view};

use crate::marks::Mark;
use crate::pieces::{Piece, PieceRead, breaks};
use crate::read::ReadKind;
use crate::text::{split_first, split_name};
use crate::words::{can_be_raw, word_of};
use std::alloc::{AllocError, Global};
use unicode_normalization::to_nfc;

/// The name, keyword or `_` that the text begins with.
pub fn name_at(alloc: Global, text: &str) -> PieceRead<'_>
    ensures { GivesPiece result (name_at (chars text.now)) }
{
    let (name, rest) = split_name(text);
    let kind = kind_of(alloc, name)?;
    Ok((Piece::Token(kind), rest))
}

/// The raw name that the text begins with; `behind` is what stands behind its `r#`.
#[inline(never)]
pub fn raw_name_at<'a>(alloc: Global, text: &'a str, behind: &'a str) -> PieceRead<'a>
    ensures { GivesPiece result (raw_name_at (chars text.now) (chars behind.now)) }
{
    let (name, rest) = split_name(behind);
    if !can_be_raw(name) {
        return breaks(2, text);
    }
    let kind = named(alloc, name, true)?;
    Ok((Piece::Token(kind), rest))
}

/// What a name is: a keyword, the mark `_`, or a name.
#[inline(always)]
pub fn kind_of(alloc: Global, name: &str) -> Result<ReadKind<'_>, AllocError>
    ensures { IfOk result (λ kind. read_view kind ≡ lexeme_of (chars name.now)) }
{
    if name == "_" {
        return Ok(ReadKind::Mark(Mark::Underscore));
    }
    match word_of(name) {
        Some(word) => Ok(ReadKind::Word(word)),
        None => named(alloc, name, false),
    }
}

/// A name with this text, which is copied only where it is not ASCII.
#[inline(always)]
fn named(alloc: Global, text: &str, raw: bool) -> Result<ReadKind<'_>, AllocError>
    ensures { IfOk result (λ kind. read_view kind ≡ Named (encode_utf8_all (nfc (chars text.now))) raw) }
{
    if text.is_ascii() {
        return Ok(ReadKind::Plain { text, raw });
    }
    let text = to_nfc(alloc, text)?;
    Ok(ReadKind::Name { text, raw })
}

/// The text in NFC. ASCII text is in NFC already.
pub fn in_nfc(alloc: Global, text: &str) -> Result<String, AllocError>
    ensures { IfOk result (λ s. string_bytes s ≡ encode_utf8_all (nfc (chars text.now))) }
{
    if text.is_ascii() {
        String::from_str(alloc, text)
    } else {
        to_nfc(alloc, text)
    }
}

/// Whether an identifier may begin with the character.
pub fn is_name_start(c: char) -> bool
    ensures { result ≡ is_name_start c }
{
    unicode_ident::is_xid_start(c) || c == '_'
}

/// Whether the text begins with an identifier.
pub fn starts_name(text: &str) -> bool
    ensures { result ≡ first_passes is_name_start (chars text.now) }
{
    match split_first(text) {
        Some((first, _)) => is_name_start(first),
        None => false,
    }
}
