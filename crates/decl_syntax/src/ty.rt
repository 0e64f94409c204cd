//! Types as they are written.
ghost use Rattle.std.specs.Prelude.{◌≡◌, map, option_map, ◌++◌, ◌∷◌, [], IfOk, IfErr};
ghost use Rattle.std.specs.Rc.{rc_str_bytes};
ghost use Rattle.decl_syntax.specs.declared.stop.Stop.TheVariants.{Memory};
ghost use Rattle.decl_syntax.specs.TypeGrammar.{somes, SpellsType};
ghost use Rattle.decl_syntax.specs.Units.{left};
ghost use Rattle.decl_syntax.specs.Types.{type_view};
ghost use Rattle.decl_syntax.specs.Grammar.{NoneSpelled};
ghost use Rattle.decl_syntax.specs.Reading.{Gives, list_at};
ghost use Rattle.decl_syntax.specs.TypeReading.{argument_at, arguments_at, type_at, round_type, square_type, point_type, named_type};
ghost use Rattle.decl_lexer.specs.declared.marks.Mark.TheVariants as marks;

use crate::cursor::{
    Cursor, behind, behind_lifetime, expect, integer_at, name_at, skip_lifetime, skip_word,
};
use crate::lists::fitted;
use crate::stop::Stop;
use decl_lexer::{Mark, Name, Word};
use std::alloc::Global;

/// The length of an array as it is written: `len` is `None` from 2^128 on, `suffix` is the one that is written at it, or
/// empty.
#[derive(Debug, Drop)]
pub struct ArraySize {
    pub len: Option<u128>,
    pub suffix: String,
}

/// A type as it is written. Brackets around a type and lifetimes leave no trace.
#[derive(Debug, Drop)]
pub enum Ty {
    Never,
    Tuple(Vec<Ty>),
    Point { mutable: bool, inner: Box<Ty> },
    Slice(Box<Ty>),
    /// The length stands behind a box, since it is much larger than the others and rare.
    Array { item: Box<Ty>, size: Box<ArraySize> },
    /// A name with its type arguments.
    Named { name: Name, args: Vec<Ty> },
}

/// Reads the type behind a place, of at most 64 levels, and gives the place behind it. Where there is
/// none it answers `Syntax`; want of memory is the one free answer.
///
/// Source: the Rust Reference, "Types"; which of them, and the levels, are our own choice.
pub fn read_type(alloc: Global, at: Cursor<'_>) -> Result<(Ty, Cursor<'_>), Stop>
    ensures found { IfOk result (λ x. SpellsType 64 (left at.entry) (type_view x.0) (left x.1)) }
    ensures none { IfErr result (NoneSpelled (SpellsType 64) (left at.entry)) }
{
    type_at(alloc, 64, at)
}

/// A type of at most so many levels, and the place behind it.
#[cycle(types)]
#[tactic(auto, unfolding(crate::specs::TypeReading::type_at))]
fn type_at(alloc: Global, levels: u32, at: Cursor<'_>) -> Result<(Ty, Cursor<'_>), Stop>
    ensures { Gives (λ x. (type_view x.0, left x.1)) result (type_at levels (left at.entry)) }
{
    if levels == 0 {
        return Err(Stop::Syntax);
    }
    if let Some(rest) = behind(at, Mark::Bang) {
        return Ok((Ty::Never, rest));
    }
    if let Some(rest) = behind(at, Mark::OpenRound) {
        return round_type(alloc, levels - 1, rest);
    }
    if let Some(rest) = behind(at, Mark::OpenSquare) {
        return square_type(alloc, levels - 1, rest);
    }
    if let Some(rest) = behind(at, Mark::Ampersand) {
        return point_type(alloc, levels - 1, rest);
    }
    match name_at(at) {
        Some((name, rest)) => named_type(alloc, levels - 1, name, rest),
        None => Err(Stop::Syntax),
    }
}

/// A type behind an opening round bracket.
#[cycle(types)]
fn round_type(alloc: Global, levels: u32, at: Cursor<'_>) -> Result<(Ty, Cursor<'_>), Stop>
    ensures { Gives (λ x. (type_view x.0, left x.1)) result (round_type (type_at levels) (left at.entry)) }
{
    if let Some(rest) = behind(at, Mark::CloseRound) {
        return Ok((Ty::Tuple(Vec::new(alloc)), rest));
    }
    let (first, rest) = type_at(alloc, levels, at)?;
    if let Some(rest) = behind(rest, Mark::CloseRound) {
        return Ok((first, rest));
    }
    let rest = expect(rest, Mark::Comma)?;
    let (mut parts, rest) = tuple_parts(alloc, levels, rest)?;
    parts.insert(0, first)?;
    Ok((Ty::Tuple(fitted(parts)), rest))
}

/// A type behind an opening square bracket.
#[cycle(types)]
fn square_type(alloc: Global, levels: u32, at: Cursor<'_>) -> Result<(Ty, Cursor<'_>), Stop>
    ensures { Gives (λ x. (type_view x.0, left x.1)) result (square_type (type_at levels) (left at.entry)) }
{
    let (item, rest) = type_at(alloc, levels, at)?;
    let item = Box::new(alloc, item)?;
    if let Some(rest) = behind(rest, Mark::CloseSquare) {
        return Ok((Ty::Slice(item), rest));
    }
    let rest = expect(rest, Mark::Semicolon)?;
    let Some((len, suffix, rest)) = integer_at(rest) else {
        return Err(Stop::Syntax);
    };
    let rest = expect(rest, Mark::CloseSquare)?;
    let suffix = String::from_str(alloc, suffix)?;
    let size = Box::new(alloc, ArraySize { len, suffix })?;
    Ok((Ty::Array { item, size }, rest))
}

/// A type behind `&`.
#[cycle(types)]
fn point_type(alloc: Global, levels: u32, at: Cursor<'_>) -> Result<(Ty, Cursor<'_>), Stop>
    ensures { Gives (λ x. (type_view x.0, left x.1)) result (point_type (type_at levels) (left at.entry)) }
{
    let (mutable, rest) = skip_word(skip_lifetime(at), Word::Mut);
    let (inner, rest) = type_at(alloc, levels, rest)?;
    let inner = Box::new(alloc, inner)?;
    Ok((Ty::Point { mutable, inner }, rest))
}

/// A type behind its name.
#[cycle(types)]
fn named_type<'a>(
    alloc: Global,
    levels: u32,
    name: &Name,
    at: Cursor<'a>,
) -> Result<(Ty, Cursor<'a>), Stop>
    ensures { Gives (λ x. (type_view x.0, left x.1)) result
        (named_type (type_at levels) (rc_str_bytes name.now) (left at.entry)) }
{
    let name = name.clone()?;
    match behind(at, Mark::Less) {
        Some(rest) => {
            let (args, rest) = type_args(alloc, levels, rest)?;
            let args = fitted(args);
            Ok((Ty::Named { name, args }, rest))
        }
        None => {
            let args = Vec::new(alloc);
            Ok((Ty::Named { name, args }, at))
        }
    }
}

/// The types up to a closing round bracket.
#[cycle(types)]
fn tuple_parts(alloc: Global, levels: u32, at: Cursor<'_>) -> Result<(Vec<Ty>, Cursor<'_>), Stop>
    ensures { Gives (λ x. (map type_view x.0.items, left x.1)) result
        (list_at marks.CloseRound (type_at levels) (left at.entry)) }
{
    let mut parts = Vec::new(alloc);
    let mut rest = at;
    'parts: loop {
        if let Some(behind) = behind(rest, Mark::CloseRound) {
            return Ok((parts, behind));
        }
        let (part, after) = type_at(alloc, levels, rest)?;
        parts.push(part)?;
        if let Some(behind) = behind(after, Mark::CloseRound) {
            return Ok((parts, behind));
        }
        let Some(behind) = behind(after, Mark::Comma) else {
            return Err(Stop::Syntax);
        };
        rest = behind;
    }
}

/// A lifetime, which leaves nothing, or a type.
#[cycle(types)]
fn argument_at(alloc: Global, levels: u32, at: Cursor<'_>) -> Result<(Option<Ty>, Cursor<'_>), Stop>
    ensures { Gives (λ x. (option_map type_view x.0, left x.1)) result (argument_at (type_at levels) (left at.entry)) }
{
    if let Some(rest) = behind_lifetime(at) {
        return Ok((None, rest));
    }
    let (found, rest) = type_at(alloc, levels, at)?;
    Ok((Some(found), rest))
}

/// Appends the type, if there is one.
fn push_some(parts: &mut Vec<Ty>, part: Option<Ty>) -> Result<(), Stop>
    ensures pushed { IfOk result
        (λ _. map type_view parts.new.items
        ≡ map type_view parts.old.items ++ somes (option_map type_view part ∷ [])) }
    ensures memory { IfErr result (λ e. e ≡ Memory) }
{
    if let Some(part) = part {
        parts.push(part)?;
    }
    Ok(())
}

/// The types up to `>`; lifetimes among them leave nothing.
#[cycle(types)]
fn type_args(alloc: Global, levels: u32, at: Cursor<'_>) -> Result<(Vec<Ty>, Cursor<'_>), Stop>
    ensures { Gives (λ x. (map type_view x.0.items, left x.1)) result (arguments_at (type_at levels) (left at.entry)) }
{
    let mut parts = Vec::new(alloc);
    let mut rest = at;
    'parts: loop {
        if let Some(behind) = behind(rest, Mark::Greater) {
            return Ok((parts, behind));
        }
        let (part, after) = argument_at(alloc, levels, rest)?;
        push_some(&mut parts, part)?;
        if let Some(behind) = behind(after, Mark::Greater) {
            return Ok((parts, behind));
        }
        let Some(behind) = behind(after, Mark::Comma) else {
            return Err(Stop::Syntax);
        };
        rest = behind;
    }
}
