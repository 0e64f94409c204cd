//! Literals, paths, the ends of ranges, and ranges.
ghost use Rattle.std.specs.Prelude.{◌≡◌, [], Some, option_map, string_bytes};
ghost use Rattle.std.specs.Rc.{rc_str_bytes};
ghost use Rattle.decl_syntax.specs.Units.{left, token_at, first_passes};
ghost use Rattle.decl_syntax.specs.Patterns.{Int, Range, lit_view, path_view, shape_view};
ghost use Rattle.decl_syntax.specs.Reading.{Gives};
ghost use Rattle.decl_syntax.specs.EndGrammar.{begins_end};
ghost use Rattle.decl_syntax.specs.EndReading.{literal_of, negated_of, end_of, range_mark_of, segment_of, segment_view, segments_at, end_at, range_behind, range_at, path_tree_at};

use crate::cursor::{Cursor, Seen, behind, name_at};
use crate::lists::fitted;
use crate::stop::Stop;
use crate::tree::{IntLit, Lit, PatKind, Path, RangePat};
use decl_lexer::{IntToken, Mark, Name, TokenKind, Word};
use std::alloc::Global;

/// A decimal integer below 2^64 without a suffix.
fn small(negative: bool, size: u64) -> Lit
    ensures { lit_view result ≡ Int negative (Some size) [] }
{
    Lit::Small { negative, size }
}

/// Any other integer.
fn integer(alloc: Global, negative: bool, int: &IntToken) -> Result<Lit, Stop>
    ensures { Gives lit_view result (Some (Int negative int.now.value (string_bytes int.now.suffix))) }
{
    let suffix = String::from_str(alloc, int.suffix.as_str())?;
    let size = int.value;
    Ok(Lit::Int(Box::new(
        alloc,
        IntLit {
            negative,
            size,
            suffix,
        },
    )?))
}

/// A literal, and the place behind it.
pub fn literal_at(alloc: Global, at: Cursor<'_>) -> Result<(Lit, Cursor<'_>), Stop>
    ensures { Gives (λ x. (lit_view x.0, left x.1)) result (token_at literal_of (left at.entry)) }
{
    let Some((first, rest)) = at.next() else {
        return Err(Stop::Syntax);
    };
    let Seen::Other(kind) = first.kind else {
        return Err(Stop::Syntax);
    };
    match kind {
        TokenKind::Word(Word::True) => Ok((Lit::Flag(true), rest)),
        TokenKind::Word(Word::False) => Ok((Lit::Flag(false), rest)),
        TokenKind::Char(c) => Ok((Lit::Char(c), rest)),
        TokenKind::Byte(b) => Ok((Lit::Byte(b), rest)),
        TokenKind::Small(size) => Ok((small(false, size), rest)),
        TokenKind::Int(int) => Ok((integer(alloc, false, int)?, rest)),
        TokenKind::Str(text) => Ok((Lit::Str(String::from_str(alloc, text.as_str())?), rest)),
        TokenKind::Float | TokenKind::ByteStr | TokenKind::CStr => Ok((Lit::Other, rest)),
        _ => Err(Stop::Syntax),
    }
}

/// A literal behind `-`, and the place behind it.
pub fn negated_at(alloc: Global, at: Cursor<'_>) -> Result<(Lit, Cursor<'_>), Stop>
    ensures { Gives (λ x. (lit_view x.0, left x.1)) result (token_at negated_of (left at.entry)) }
{
    let Some((first, rest)) = at.next() else {
        return Err(Stop::Syntax);
    };
    let Seen::Other(kind) = first.kind else {
        return Err(Stop::Syntax);
    };
    match kind {
        TokenKind::Small(size) => Ok((small(true, size), rest)),
        TokenKind::Int(int) => Ok((integer(alloc, true, int)?, rest)),
        TokenKind::Float => Ok((Lit::Other, rest)),
        _ => Err(Stop::Syntax),
    }
}

/// The end of a range that is one token, and the place behind it.
fn one_token_end(alloc: Global, at: Cursor<'_>) -> Result<(Lit, Cursor<'_>), Stop>
    ensures { Gives (λ x. (lit_view x.0, left x.1)) result (token_at end_of (left at.entry)) }
{
    let Some((first, rest)) = at.next() else {
        return Err(Stop::Syntax);
    };
    let Seen::Other(kind) = first.kind else {
        return Err(Stop::Syntax);
    };
    match kind {
        TokenKind::Char(c) => Ok((Lit::Char(c), rest)),
        TokenKind::Byte(b) => Ok((Lit::Byte(b), rest)),
        TokenKind::Small(size) => Ok((small(false, size), rest)),
        TokenKind::Int(int) => Ok((integer(alloc, false, int)?, rest)),
        TokenKind::Float => Ok((Lit::Other, rest)),
        _ => Err(Stop::Syntax),
    }
}

/// A part of a path: its text, whether it is a name, and the place behind it.
fn segment_at(at: Cursor<'_>) -> Option<(&str, bool, Cursor<'_>)>
    ensures { option_map (λ p. (segment_view p.0.now p.1, left p.2)) result ≡ token_at segment_of (left at.entry) }
{
    if let Some((text, rest)) = name_at(at) {
        return Some((text.as_str(), true, rest));
    }
    let (word, rest) = at.word()?;
    match word {
        Word::Crate => Some(("crate", false, rest)),
        Word::SelfValue => Some(("self", false, rest)),
        Word::Super => Some(("super", false, rest)),
        Word::SelfType => Some(("Self", false, rest)),
        _ => None,
    }
}

/// A part of a path, which shares its text with the token where it is a name.
fn owned_segment_at(alloc: Global, at: Cursor<'_>) -> Result<(Name, bool, Cursor<'_>), Stop>
    ensures { Gives (λ p. (segment_view (rc_str_bytes p.0) p.1, left p.2)) result (token_at segment_of (left at.entry)) }
{
    if let Some((text, rest)) = name_at(at) {
        return Ok((text.clone()?, true, rest));
    }
    match segment_at(at) {
        Some((text, is_name, rest)) => Ok((Name::from_str(alloc, text)?, is_name, rest)),
        None => Err(Stop::Syntax),
    }
}

/// A path, and the place behind it.
pub fn path_at(alloc: Global, at: Cursor<'_>) -> Result<(Path, Cursor<'_>), Stop>
    ensures { Gives (λ x. (path_view x.0, left x.1)) result (path_tree_at (left at.entry)) }
{
    let mut names = Vec::with_capacity(alloc, 2)?;
    let mut plain = true;
    let mut rest = at;
    'parts: loop {
        let (name, is_name, after) = owned_segment_at(alloc, rest)?;
        names.push(name)?;
        plain &= is_name;
        match behind(after, Mark::PathSeparator) {
            Some(behind) => rest = behind,
            None => {
                let names = fitted(names);
                return Ok((Path { names, plain }, after));
            }
        }
    }
}

/// The place behind a path.
fn skip_path(at: Cursor<'_>) -> Option<Cursor<'_>>
    ensures { option_map left result ≡ option_map (λ x. x.1) (segments_at (left at.entry)) }
{
    let mut rest = at;
    'parts: loop {
        let Some((_, _, after)) = segment_at(rest) else {
            return None;
        };
        match behind(after, Mark::PathSeparator) {
            Some(behind) => rest = behind,
            None => return Some(after),
        }
    }
}

/// The end of a range, and the place behind it.
#[tactic(auto, unfolding(crate::specs::EndReading::end_at))]
fn end_at(alloc: Global, at: Cursor<'_>) -> Result<(Lit, Cursor<'_>), Stop>
    ensures { Gives (λ x. (lit_view x.0, left x.1)) result (end_at (left at.entry)) }
{
    if let Some(rest) = behind(at, Mark::Minus) {
        return negated_at(alloc, rest);
    }
    match one_token_end(alloc, at) {
        Ok((end, rest)) => return Ok((end, rest)),
        Err(Stop::Memory) => return Err(Stop::Memory),
        Err(Stop::Syntax) => {}
    }
    match skip_path(at) {
        Some(rest) => Ok((Lit::Other, rest)),
        None => Err(Stop::Syntax),
    }
}

/// Whether the end of a range begins here.
pub fn begins_end(at: Cursor<'_>) -> bool
    ensures { result ≡ first_passes begins_end (left at.entry) }
{
    let Some((first, _)) = at.next() else {
        return false;
    };
    match first.kind {
        Seen::Mark(mark) => mark == Mark::Minus,
        Seen::Other(kind) => matches!(
            kind,
            TokenKind::Mark(Mark::Minus)
                | TokenKind::Char(_)
                | TokenKind::Byte(_)
                | TokenKind::Small(_)
                | TokenKind::Int(_)
                | TokenKind::Float
                | TokenKind::Name { .. }
                | TokenKind::Word(Word::Crate | Word::SelfValue | Word::Super | Word::SelfType)
        ),
    }
}

/// A mark of ranges: whether the end is within, and the place behind it.
fn range_mark_at(at: Cursor<'_>) -> Option<(bool, Cursor<'_>)>
    ensures { option_map (λ p. (p.0, left p.1)) result ≡ token_at range_mark_of (left at.entry) }
{
    let closed = match at.mark()? {
        Mark::TwoDots => false,
        Mark::DotsEqual => true,
        _ => return None,
    };
    let (_, rest) = at.step()?;
    Some((closed, rest))
}

/// A range of these ends.
fn range(alloc: Global, low: Option<Lit>, high: Option<Lit>, closed: bool) -> Result<PatKind, Stop>
    ensures { Gives shape_view result (Some (Range (option_map lit_view low) (option_map lit_view high) closed)) }
{
    Ok(PatKind::Range(Box::new(alloc, RangePat { low, high, closed })?))
}

/// Behind the mark of a range that has a low end.
#[tactic(auto, unfolding(crate::specs::EndReading::range_behind))]
fn range_behind(
    alloc: Global,
    low: Lit,
    closed: bool,
    at: Cursor<'_>,
) -> Result<(PatKind, Cursor<'_>), Stop>
    ensures { Gives (λ x. (shape_view x.0, left x.1)) result (range_behind (lit_view low) closed (left at.entry)) }
{
    let low = Some(low);
    if begins_end(at) {
        let (high, rest) = end_at(alloc, at)?;
        let high = Some(high);
        return Ok((range(alloc, low, high, closed)?, rest));
    }
    if closed {
        return Err(Stop::Syntax);
    }
    let high = None;
    Ok((range(alloc, low, high, closed)?, at))
}

/// A range, and the place behind it.
#[tactic(auto, unfolding(crate::specs::EndReading::range_at))]
pub fn range_at(alloc: Global, at: Cursor<'_>) -> Result<(PatKind, Cursor<'_>), Stop>
    ensures { Gives (λ x. (shape_view x.0, left x.1)) result (range_at (left at.entry)) }
{
    if let Some((closed, rest)) = range_mark_at(at) {
        let (high, rest) = end_at(alloc, rest)?;
        let low = None;
        let high = Some(high);
        return Ok((range(alloc, low, high, closed)?, rest));
    }
    let (low, rest) = end_at(alloc, at)?;
    match range_mark_at(rest) {
        Some((closed, rest)) => range_behind(alloc, low, closed, rest),
        None => Err(Stop::Syntax),
    }
}
