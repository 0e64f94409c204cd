//! What a text begins with: whitespace, a comment or a token, or else a fault.
ghost use Rattle.std.specs.Prelude.{◌≡◌, [], ◌∷◌, ◌&&◌, ◌==◌, drop, option_map, chars, codes};
ghost use Rattle.decl_lexer.specs.Begins.{breaks};
ghost use Rattle.decl_lexer.specs.Gaps.{comment_at};
ghost use Rattle.decl_lexer.specs.Marks.{longest_mark, mark_at};
ghost use Rattle.decl_lexer.specs.Text.{begins_with, first_passes};
ghost use Rattle.decl_lexer.specs.Names.{is_name_start};
ghost use Rattle.decl_lexer.specs.Texts.{is_raw_text};
ghost use Rattle.decl_lexer.specs.Pieces.{letter_at, piece_at};
ghost use Rattle.decl_lexer.specs.Views.{GivesPiece, mark_view};

use crate::characters::{byte_at, quote_at};
use crate::escapes::Quoted;
use crate::gaps::{is_space, skip_comment, skip_line, skip_spaces};
use crate::marks::{Mark, mark_of_one, mark_of_three, mark_of_two};
use crate::names::{is_name_start, name_at, raw_name_at, starts_name};
use crate::numbers::number_at;
use crate::read::ReadKind;
use crate::text::{first_is, pair_is, skip_first, split_first};
use crate::texts::{raw_text_at, starts_raw_text, text_at};
use std::alloc::{AllocError, Global};

/// Whitespace or a comment, or a token.
#[derive(Debug, Drop)]
pub enum Piece<'a> {
    Gap,
    Token(ReadKind<'a>),
}

/// Why no piece was read. A fault holds the text from there on.
#[derive(Drop)]
pub enum PieceError<'a> {
    Memory,
    Fault { rule: u32, rest: &'a str },
}

/// The piece that a text begins with, and the text behind it.
pub type PieceRead<'a> = Result<(Piece<'a>, &'a str), PieceError<'a>>;

/// The rule is broken where the text begins.
pub fn breaks(rule: u32, text: &str) -> PieceRead<'_>
    ensures { GivesPiece result (breaks rule (chars text.now)) }
{
    Err(PieceError::Fault { rule, rest: text })
}

impl From<AllocError> for PieceError<'_> {
    ghost use Rattle.decl_lexer.specs.declared.pieces.PieceError.TheVariants.{Memory};

    ghost from_gives = { λ _ e. e ≡ Memory };

    fn from(_e: AllocError) -> Self {
        PieceError::Memory
    }
}

/// The piece that the text begins with, and the text behind it.
/// `behind` is the text behind its first character.
#[tactic(auto, unfolding(crate::specs::Pieces::piece_at))]
pub fn piece_at<'a>(alloc: Global, text: &'a str, first: char, behind: &'a str) -> PieceRead<'a>
    requires { chars text.now ≡ first ∷ chars behind.now }
    ensures { GivesPiece result (piece_at first (chars behind.now)) }
{
    if is_space(first) {
        return Ok((Piece::Gap, skip_spaces(behind)));
    }
    if first == '/' && first_is('/', behind) {
        return Ok((Piece::Gap, skip_line(behind)));
    }
    if first == '/' && first_is('*', behind) {
        return comment_at(text, skip_first(behind));
    }
    if first.is_digit(10) {
        return number_at(alloc, text, first, behind);
    }
    if first == '\'' {
        return quote_at(text, behind);
    }
    if first == '"' {
        return text_at(alloc, Quoted::Text, text, behind);
    }
    if is_name_start(first) {
        return letter_at(alloc, text, first, behind);
    }
    mark_at(text)
}

/// The piece that the text begins with, where an identifier may begin with its first character.
/// `behind` is the text behind that character.
fn letter_at<'a>(alloc: Global, text: &'a str, first: char, behind: &'a str) -> PieceRead<'a>
    requires { chars text.now ≡ first ∷ chars behind.now }
    ensures { GivesPiece result (letter_at first (chars behind.now)) }
{
    if pair_is('b', '\'', first, behind) {
        return byte_at(text, skip_first(behind));
    }
    if pair_is('b', '"', first, behind) {
        return text_at(alloc, Quoted::Bytes, text, skip_first(behind));
    }
    if pair_is('c', '"', first, behind) {
        return text_at(alloc, Quoted::CText, text, skip_first(behind));
    }
    if is_raw('r', first, behind) {
        return raw_text_at(alloc, Quoted::Text, text, behind);
    }
    if is_raw_pair('b', first, behind) {
        return raw_text_at(alloc, Quoted::Bytes, text, skip_first(behind));
    }
    if is_raw_pair('c', first, behind) {
        return raw_text_at(alloc, Quoted::CText, text, skip_first(behind));
    }
    if is_raw_name(first, behind) {
        return raw_name_at(alloc, text, skip_first(behind));
    }
    name_at(alloc, text)
}

/// Whether the first character is this letter, and a raw text goes on behind it.
fn is_raw(letter: char, first: char, behind: &str) -> bool
    ensures { result ≡ (first == letter && is_raw_text (chars behind.now)) }
{
    first == letter && starts_raw_text(behind)
}

/// Whether this letter and an `r` stand first, and a raw text goes on behind them.
fn is_raw_pair(letter: char, first: char, behind: &str) -> bool
    ensures { result ≡ (begins_with (letter ∷ 114 ∷ []) (first ∷ chars behind.now)
        && is_raw_text (drop 1 (chars behind.now))) }
{
    pair_is(letter, 'r', first, behind) && starts_raw_text(skip_first(behind))
}

/// Whether `r#` and an identifier stand first.
fn is_raw_name(first: char, behind: &str) -> bool
    ensures { result ≡ (begins_with (codes "r#") (first ∷ chars behind.now)
        && first_passes is_name_start (drop 1 (chars behind.now))) }
{
    pair_is('r', '#', first, behind) && starts_name(skip_first(behind))
}

/// The block comment that the text begins with, which goes on behind its `/*` as `inside`.
fn comment_at<'a>(text: &'a str, inside: &'a str) -> PieceRead<'a>
    ensures { GivesPiece result (comment_at (chars text.now) (chars inside.now)) }
{
    match skip_comment(inside) {
        Some(rest) => Ok((Piece::Gap, rest)),
        None => breaks(3, text),
    }
}

/// The mark that the text begins with.
fn mark_at(text: &str) -> PieceRead<'_>
    ensures { GivesPiece result (mark_at (chars text.now)) }
{
    match longest_mark(text) {
        Some((mark, rest)) => Ok((Piece::Token(ReadKind::Mark(mark)), rest)),
        None => breaks(2, text),
    }
}

/// The longest mark that the text begins with, and the text behind it.
pub fn longest_mark(text: &str) -> Option<(Mark, &str)>
    ensures { option_map mark_view result ≡ longest_mark (chars text.now) }
{
    let (a, behind_one) = split_first(text)?;
    if let Some((b, behind_two)) = split_first(behind_one) {
        if let Some((c, behind_three)) = split_first(behind_two) {
            if let Some(mark) = mark_of_three(a, b, c) {
                return Some((mark, behind_three));
            }
        }
        if let Some(mark) = mark_of_two(a, b) {
            return Some((mark, behind_two));
        }
    }
    let mark = mark_of_one(a)?;
    Some((mark, behind_one))
}
