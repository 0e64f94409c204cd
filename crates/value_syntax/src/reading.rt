//! Values from their texts.
ghost use Rattle.std.specs.Prelude.{◌≡◌, [], map, option_map, string_bytes, IfOk, IfErr};
ghost use Rattle.decl_lexer.specs.declared.marks.Mark.TheVariants as marks;
ghost use Rattle.decl_syntax.specs.Units.{left, token_at};
ghost use Rattle.decl_syntax.specs.Reading.{Gives, list_at};
ghost use Rattle.value_syntax.specs.Trees.{WrittenInt, written_view, field_view, path_view};
ghost use Rattle.value_syntax.specs.Grammar.{IsWritten, NoneWritten};
ghost use Rattle.value_syntax.specs.ValueReading.{sized, literal_of, negated_of, referred_of, unknown_word, unknown_of};
ghost use Rattle.value_syntax.specs.ValueReading.{form_name_at, field_at, round_value, row_value, point_value};
ghost use Rattle.value_syntax.specs.ValueReading.{form_value, value_at, whole_value};

use crate::value::{ReadFault, WrittenField, WrittenPath, WrittenValue};
use decl_lexer::{IntToken, LexFault, Mark, TokenKind, Word, lex};
use decl_syntax::{Cursor, Seen, Stop, behind, name_at, skip_word};
use std::alloc::Global;

/// The value that a text spells, within 64 levels, or `Syntax` where it spells none; want of memory is the one free
/// answer. A text never spells two.
///
/// Source: our own choice, after the Rust Reference, "Expressions".
pub fn read_written(alloc: Global, text: &str) -> Result<WrittenValue, ReadFault>
    ensures written { IfOk result (λ w. IsWritten text.now (written_view w)) }
    ensures none { IfErr result (NoneWritten text.now) }
{
    let tokens = match lex(alloc, text.as_bytes()) {
        Ok(tokens) => tokens,
        Err(LexFault::Rule { .. }) => return Err(ReadFault::Syntax),
        Err(LexFault::NoMemory) => return Err(ReadFault::NoMemory),
    };
    match whole_value(alloc, Cursor::new(&tokens)) {
        Ok(value) => Ok(value),
        Err(Stop::Syntax) => Err(ReadFault::Syntax),
        Err(Stop::Memory) => Err(ReadFault::NoMemory),
    }
}

/// The value that all tokens behind a place are.
#[tactic(auto, unfolding(crate::specs::ValueReading::whole_value))]
fn whole_value(alloc: Global, at: Cursor<'_>) -> Result<WrittenValue, Stop>
    ensures { Gives written_view result (whole_value (left at.entry)) }
{
    let (value, rest) = value_at(alloc, 64, at)?;
    match rest.next() {
        Some(_) => Err(Stop::Syntax),
        None => Ok(value),
    }
}

/// An integer, where its size has at most 128 bits.
fn integer(alloc: Global, negative: bool, int: &IntToken) -> Result<WrittenValue, Stop>
    ensures { Gives written_view result (sized negative int.now.value (string_bytes int.now.suffix)) }
{
    let Some(size) = int.value else {
        return Err(Stop::Syntax);
    };
    let suffix = String::from_str(alloc, int.suffix.as_str())?;
    Ok(WrittenValue::Int {
        negative,
        size,
        suffix,
    })
}

/// A decimal integer below 2^64 without a suffix.
fn small(alloc: Global, negative: bool, size: u64) -> WrittenValue
    ensures { written_view result ≡ WrittenInt negative size [] }
{
    WrittenValue::Int {
        negative,
        size: size as u128,
        suffix: String::new(alloc),
    }
}

/// A value of one token, and the place behind it.
fn literal_at(alloc: Global, at: Cursor<'_>) -> Result<(WrittenValue, Cursor<'_>), Stop>
    ensures { Gives (λ x. (written_view x.0, left x.1)) result (token_at literal_of (left at.entry)) }
{
    let Some((first, rest)) = at.next() else {
        return Err(Stop::Syntax);
    };
    let Seen::Other(kind) = first.kind else {
        return Err(Stop::Syntax);
    };
    match kind {
        TokenKind::Word(Word::True) => Ok((WrittenValue::Flag(true), rest)),
        TokenKind::Word(Word::False) => Ok((WrittenValue::Flag(false), rest)),
        TokenKind::Char(c) => Ok((WrittenValue::Char(c), rest)),
        TokenKind::Byte(b) => Ok((WrittenValue::Byte(b), rest)),
        TokenKind::Small(size) => Ok((small(alloc, false, size), rest)),
        TokenKind::Int(int) => Ok((integer(alloc, false, int)?, rest)),
        TokenKind::Str(text) => {
            let text = String::from_str(alloc, text.as_str())?;
            Ok((WrittenValue::Str(text), rest))
        }
        _ => Err(Stop::Syntax),
    }
}

/// An integer behind `-`, and the place behind it.
fn negated_at(alloc: Global, at: Cursor<'_>) -> Result<(WrittenValue, Cursor<'_>), Stop>
    ensures { Gives (λ x. (written_view x.0, left x.1)) result (token_at negated_of (left at.entry)) }
{
    let Some((first, rest)) = at.next() else {
        return Err(Stop::Syntax);
    };
    let Seen::Other(kind) = first.kind else {
        return Err(Stop::Syntax);
    };
    match kind {
        TokenKind::Small(size) => Ok((small(alloc, true, size), rest)),
        TokenKind::Int(int) => Ok((integer(alloc, true, int)?, rest)),
        _ => Err(Stop::Syntax),
    }
}

/// A text behind `*`, and the place behind it.
fn referred_at(alloc: Global, at: Cursor<'_>) -> Result<(WrittenValue, Cursor<'_>), Stop>
    ensures { Gives (λ x. (written_view x.0, left x.1)) result (token_at referred_of (left at.entry)) }
{
    let Some((first, rest)) = at.next() else {
        return Err(Stop::Syntax);
    };
    let Seen::Other(TokenKind::Str(text)) = first.kind else {
        return Err(Stop::Syntax);
    };
    let text = String::from_str(alloc, text.as_str())?;
    Ok((WrittenValue::Text(text), rest))
}

/// What a word behind `?` stands for.
fn unknown_word(word: &str) -> Option<WrittenValue>
    ensures { option_map written_view result ≡ unknown_word word.now }
{
    if word == "opaque" {
        return Some(WrittenValue::Opaque);
    }
    if word == "later" {
        return Some(WrittenValue::Later);
    }
    if word == "unseen" {
        return Some(WrittenValue::Unseen);
    }
    None
}

/// A plain name behind `?`, and the place behind it.
fn unknown_at(at: Cursor<'_>) -> Result<(WrittenValue, Cursor<'_>), Stop>
    ensures { Gives (λ x. (written_view x.0, left x.1)) result (token_at unknown_of (left at.entry)) }
{
    let Some((first, rest)) = at.next() else {
        return Err(Stop::Syntax);
    };
    let Seen::Other(TokenKind::Name { text, raw }) = first.kind else {
        return Err(Stop::Syntax);
    };
    if raw {
        return Err(Stop::Syntax);
    }
    match unknown_word(text.as_str()) {
        Some(value) => Ok((value, rest)),
        None => Err(Stop::Syntax),
    }
}

/// The name of a form, alone or behind `::`, and the place behind it.
#[tactic(auto, unfolding(crate::specs::ValueReading::form_name_at))]
fn form_name_at(alloc: Global, at: Cursor<'_>) -> Result<(WrittenPath, Cursor<'_>), Stop>
    ensures { Gives (λ x. (path_view x.0, left x.1)) result (form_name_at (left at.entry)) }
{
    let Some((first, rest)) = name_at(at) else {
        return Err(Stop::Syntax);
    };
    let first = String::from_str(alloc, first.as_str())?;
    let Some(after) = behind(rest, Mark::PathSeparator) else {
        let path = WrittenPath {
            owner: None,
            name: first,
        };
        return Ok((path, rest));
    };
    let Some((name, rest)) = name_at(after) else {
        return Err(Stop::Syntax);
    };
    let name = String::from_str(alloc, name.as_str())?;
    let owner = Some(first);
    Ok((WrittenPath { owner, name }, rest))
}

/// A value of at most so many levels, and the place behind it.
#[cycle(values)]
#[tactic(auto, unfolding(crate::specs::ValueReading::value_at))]
fn value_at(alloc: Global, levels: u32, at: Cursor<'_>) -> Result<(WrittenValue, Cursor<'_>), Stop>
    ensures { Gives (λ x. (written_view x.0, left x.1)) result (value_at levels (left at.entry)) }
{
    if levels == 0 {
        return Err(Stop::Syntax);
    }
    if let Some(rest) = behind(at, Mark::OpenRound) {
        return round_value(alloc, levels - 1, rest);
    }
    if let Some(rest) = behind(at, Mark::OpenSquare) {
        return row_value(alloc, levels - 1, rest);
    }
    if let Some(rest) = behind(at, Mark::Ampersand) {
        return point_value(alloc, levels - 1, rest);
    }
    if let Some(rest) = behind(at, Mark::Minus) {
        return negated_at(alloc, rest);
    }
    if let Some(rest) = behind(at, Mark::Star) {
        return referred_at(alloc, rest);
    }
    if let Some(rest) = behind(at, Mark::Question) {
        return unknown_at(rest);
    }
    match literal_at(alloc, at) {
        Ok((value, rest)) => return Ok((value, rest)),
        Err(Stop::Memory) => return Err(Stop::Memory),
        Err(Stop::Syntax) => {}
    }
    form_value(alloc, levels - 1, at)
}

/// A value behind an opening round bracket.
#[cycle(values)]
fn round_value(
    alloc: Global,
    levels: u32,
    at: Cursor<'_>,
) -> Result<(WrittenValue, Cursor<'_>), Stop>
    ensures { Gives (λ x. (written_view x.0, left x.1)) result (round_value (value_at levels) (left at.entry)) }
{
    if let Some(rest) = behind(at, Mark::CloseRound) {
        return Ok((WrittenValue::Tuple(Vec::new(alloc)), rest));
    }
    let (first, rest) = value_at(alloc, levels, at)?;
    if let Some(rest) = behind(rest, Mark::CloseRound) {
        return Ok((first, rest));
    }
    let Some(rest) = behind(rest, Mark::Comma) else {
        return Err(Stop::Syntax);
    };
    let (mut parts, rest) = values_up_to(alloc, levels, Mark::CloseRound, rest)?;
    parts.insert(0, first)?;
    Ok((WrittenValue::Tuple(parts), rest))
}

/// A value behind an opening square bracket.
#[cycle(values)]
fn row_value(alloc: Global, levels: u32, at: Cursor<'_>) -> Result<(WrittenValue, Cursor<'_>), Stop>
    ensures { Gives (λ x. (written_view x.0, left x.1)) result (row_value (value_at levels) (left at.entry)) }
{
    let (items, rest) = values_up_to(alloc, levels, Mark::CloseSquare, at)?;
    Ok((WrittenValue::Row(items), rest))
}

/// A value behind `&`.
#[cycle(values)]
fn point_value(
    alloc: Global,
    levels: u32,
    at: Cursor<'_>,
) -> Result<(WrittenValue, Cursor<'_>), Stop>
    ensures { Gives (λ x. (written_view x.0, left x.1)) result (point_value (value_at levels) (left at.entry)) }
{
    let (mutable, rest) = skip_word(at, Word::Mut);
    let (inner, rest) = value_at(alloc, levels, rest)?;
    let inner = Box::new(alloc, inner)?;
    Ok((WrittenValue::Point { mutable, inner }, rest))
}

/// A value that begins with a name.
#[cycle(values)]
fn form_value(
    alloc: Global,
    levels: u32,
    at: Cursor<'_>,
) -> Result<(WrittenValue, Cursor<'_>), Stop>
    ensures { Gives (λ x. (written_view x.0, left x.1)) result (form_value (value_at levels) (left at.entry)) }
{
    let (path, rest) = form_name_at(alloc, at)?;
    if let Some(rest) = behind(rest, Mark::OpenRound) {
        let (parts, rest) = values_up_to(alloc, levels, Mark::CloseRound, rest)?;
        return Ok((WrittenValue::TupleForm { path, parts }, rest));
    }
    if let Some(rest) = behind(rest, Mark::OpenCurly) {
        let (fields, rest) = fields_up_to(alloc, levels, rest)?;
        return Ok((WrittenValue::BraceForm { path, fields }, rest));
    }
    Ok((WrittenValue::UnitForm(path), rest))
}

/// The values of a list up to the mark that closes it.
#[cycle(values)]
fn values_up_to(
    alloc: Global,
    levels: u32,
    close: Mark,
    at: Cursor<'_>,
) -> Result<(Vec<WrittenValue>, Cursor<'_>), Stop>
    ensures { Gives (λ x. (map written_view x.0.items, left x.1)) result
        (list_at close (value_at levels) (left at.entry)) }
{
    let mut parts = Vec::new(alloc);
    let mut rest = at;
    'parts: loop {
        if let Some(behind) = behind(rest, close) {
            return Ok((parts, behind));
        }
        let (part, after) = value_at(alloc, levels, rest)?;
        parts.push(part)?;
        if let Some(behind) = behind(after, close) {
            return Ok((parts, behind));
        }
        let Some(behind) = behind(after, Mark::Comma) else {
            return Err(Stop::Syntax);
        };
        rest = behind;
    }
}

/// A field, and the place behind it.
#[cycle(values)]
fn field_at(alloc: Global, levels: u32, at: Cursor<'_>) -> Result<(WrittenField, Cursor<'_>), Stop>
    ensures { Gives (λ x. (field_view x.0, left x.1)) result (field_at (value_at levels) (left at.entry)) }
{
    let Some((name, rest)) = name_at(at) else {
        return Err(Stop::Syntax);
    };
    let Some(rest) = behind(rest, Mark::Colon) else {
        return Err(Stop::Syntax);
    };
    let name = String::from_str(alloc, name.as_str())?;
    let (value, rest) = value_at(alloc, levels, rest)?;
    Ok((WrittenField { name, value }, rest))
}

/// The fields of a list up to the bracket that closes it.
#[cycle(values)]
fn fields_up_to(
    alloc: Global,
    levels: u32,
    at: Cursor<'_>,
) -> Result<(Vec<WrittenField>, Cursor<'_>), Stop>
    ensures { Gives (λ x. (map field_view x.0.items, left x.1)) result
        (list_at marks.CloseCurly (field_at (value_at levels)) (left at.entry)) }
{
    let mut fields = Vec::new(alloc);
    let mut rest = at;
    'fields: loop {
        if let Some(behind) = behind(rest, Mark::CloseCurly) {
            return Ok((fields, behind));
        }
        let (field, after) = field_at(alloc, levels, rest)?;
        fields.push(field)?;
        if let Some(behind) = behind(after, Mark::CloseCurly) {
            return Ok((fields, behind));
        }
        let Some(behind) = behind(after, Mark::Comma) else {
            return Err(Stop::Syntax);
        };
        rest = behind;
    }
}
