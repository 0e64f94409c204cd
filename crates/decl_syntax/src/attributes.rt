//! Attributes.
ghost use Rattle.std.specs.Prelude.{◌≡◌, map, option_map, reverse, Some, IfOk, IfErr};
ghost use Rattle.std.specs.Rc.{rc_str_bytes};
ghost use Rattle.decl_lexer.specs.Begins.{Marked};
ghost use Rattle.decl_syntax.specs.Units.{left, unit_view, name_of};
ghost use Rattle.decl_syntax.specs.Patterns.{attr_view};
ghost use Rattle.decl_syntax.specs.Grammar.{NoneSpelled};
ghost use Rattle.decl_syntax.specs.Reading.{Gives};
ghost use Rattle.decl_syntax.specs.Runs.{part_of, part_view, mark_of, behind_part, or_else, text_of, Tracks, SpellsAttributes};
ghost use Rattle.decl_syntax.specs.RunReading.{word_at, attribute_at, attributes_at};

use crate::cursor::{Cursor, Seen, Unit, behind, expect};
use crate::stop::Stop;
use crate::tree::Attr;
use decl_lexer::{Mark, Name, TokenKind};
use std::alloc::Global;

/// Reads the attributes behind a place, one after the other, and gives the place behind them. Where one of
/// them is followed by a `#` that begins none, or the first token is such a `#`, it answers `Syntax`; want of
/// memory is the one free answer.
///
/// Source: the Rust Reference, "Attributes"; what stands in the brackets is any run of tokens whose
/// brackets pair up.
pub fn read_attributes(alloc: Global, at: Cursor<'_>) -> Result<(Vec<Attr>, Cursor<'_>), Stop>
    ensures found { IfOk result (λ x. SpellsAttributes (left at.entry) (map attr_view x.0.items) (left x.1)) }
    ensures none { IfErr result (NoneSpelled SpellsAttributes (left at.entry)) }
{
    attributes_at(alloc, at)
}

/// What a token is to brackets: it opens one, which this mark closes, or closes one, or neither.
#[derive(Clone, Copy, Debug)]
pub enum Part {
    Opens(Mark),
    Closes,
    Inside,
}

/// The same of a mark.
fn part_of_mark(mark: Mark) -> Part
    ensures { part_view result ≡ part_of (Marked mark) }
{
    match mark {
        Mark::OpenRound => Part::Opens(Mark::CloseRound),
        Mark::OpenSquare => Part::Opens(Mark::CloseSquare),
        Mark::OpenCurly => Part::Opens(Mark::CloseCurly),
        Mark::CloseRound | Mark::CloseSquare | Mark::CloseCurly => Part::Closes,
        _ => Part::Inside,
    }
}

/// The mark that a token is.
pub fn mark_of(unit: Unit<'_>) -> Option<Mark>
    ensures { result ≡ mark_of (unit_view unit.entry).lexeme }
{
    match unit.kind {
        Seen::Mark(mark) => Some(mark),
        Seen::Other(TokenKind::Mark(mark)) => Some(mark),
        _ => None,
    }
}

/// Keeps in `opened` the marks that are still to close the open brackets, the innermost last, behind a
/// token. It answers false where the token closes another bracket, and then `opened` says nothing more.
pub fn track(opened: &mut Vec<Mark>, unit: Unit<'_>) -> Result<bool, Stop>
    ensures { Tracks result
        (behind_part (part_of (unit_view unit.entry).lexeme) (unit_view unit.entry).lexeme (reverse opened.old.items))
        (reverse opened.new.items) }
{
    let Some(mark) = mark_of(unit) else {
        return Ok(true);
    };
    match part_of_mark(mark) {
        Part::Opens(close) => {
            opened.push(close)?;
            Ok(true)
        }
        Part::Closes => match opened.pop() {
            Some(close) => Ok(mark == close),
            None => Ok(false),
        },
        Part::Inside => Ok(true),
    }
}

/// A word, or else the name that a token is.
fn first_word<'a>(word: Option<&'a Name>, unit: Unit<'a>) -> Option<&'a Name>
    ensures { option_map (λ s. rc_str_bytes s.now) result
        ≡ or_else (option_map (λ s. rc_str_bytes s.now) word.entry) (name_of (unit_view unit.entry).lexeme) }
{
    if let Some(word) = word {
        return Some(word);
    }
    match unit.kind {
        Seen::Other(TokenKind::Name { text, .. }) => Some(text),
        _ => None,
    }
}

/// The first name of a run, and the place behind the run.
fn word_at(alloc: Global, at: Cursor<'_>) -> Result<(Option<&Name>, Cursor<'_>), Stop>
    ensures { Gives (λ x. (option_map (λ s. rc_str_bytes s.now) x.0, left x.1)) result (word_at (left at.entry)) }
{
    let mut opened = Vec::new(alloc);
    let mut word = None;
    let mut rest = at;
    'tokens: loop {
        let Some((first, after)) = rest.next() else {
            return Err(Stop::Syntax);
        };
        let outside = opened.is_empty();
        let tracked = track(&mut opened, first)?;
        if !tracked {
            if outside {
                return Ok((word, rest));
            }
            return Err(Stop::Syntax);
        }
        word = first_word(word, first);
        rest = after;
    }
}

/// A text, or an empty one.
fn text_of(alloc: Global, word: Option<&Name>) -> Result<Name, Stop>
    ensures { Gives rc_str_bytes result (Some (text_of (option_map (λ s. rc_str_bytes s.now) word.entry))) }
{
    match word {
        Some(text) => Ok(text.clone()?),
        None => Ok(Name::from_str(alloc, "")?),
    }
}

/// An attribute, and the place behind it.
#[tactic(auto, unfolding(crate::specs::RunReading::attribute_at))]
fn attribute_at(alloc: Global, at: Cursor<'_>) -> Result<(Attr, Cursor<'_>), Stop>
    ensures { Gives (λ x. (attr_view x.0, left x.1)) result (attribute_at (left at.entry)) }
{
    let from = at.from();
    let rest = expect(at, Mark::Hash)?;
    let rest = expect(rest, Mark::OpenSquare)?;
    if behind(rest, Mark::CloseSquare).is_some() {
        return Err(Stop::Syntax);
    }
    let (word, rest) = word_at(alloc, rest)?;
    let rest = expect(rest, Mark::CloseSquare)?;
    let word = text_of(alloc, word)?;
    Ok((Attr { from, word }, rest))
}

/// Attributes one after the other, and the place behind them.
pub fn attributes_at(alloc: Global, at: Cursor<'_>) -> Result<(Vec<Attr>, Cursor<'_>), Stop>
    ensures { Gives (λ x. (map attr_view x.0.items, left x.1)) result (attributes_at (left at.entry)) }
{
    let mut found = Vec::new(alloc);
    let mut rest = at;
    'found: loop {
        let Some(_) = behind(rest, Mark::Hash) else {
            return Ok((found, rest));
        };
        let (one, after) = attribute_at(alloc, rest)?;
        found.push(one)?;
        rest = after;
    }
}
