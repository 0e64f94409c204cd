//! Files and their first faults.
ghost use Rattle.std.specs.Prelude.{◌≡◌, ◌*◌, length, IfOk, IfErr};
ghost use Rattle.decl_lexer.specs.Tokens.{tokens_view};
ghost use Rattle.decl_syntax.specs.Units.{units, left};
ghost use Rattle.decl_syntax.specs.Reading.{Gives};
ghost use Rattle.decl_parser.specs.declared.file.ParseFault.TheVariants.{NoMemory};
ghost use Rattle.decl_syntax.specs.Items.{file_view, item_view};
ghost use Rattle.decl_parser.specs.Counts.{HasAtMost};
ghost use Rattle.decl_parser.specs.FileGrammar.{SkipsAttributes, IsFile, IsFaultOf};
ghost use Rattle.decl_parser.specs.FileReading.{file_attribute_at, ReadsItem};

use crate::items::item_at;
use crate::runs::{Until, run_at};
use crate::widths::item_is_wide;
use decl_lexer::{Mark, Tokens};
use decl_syntax::{Cursor, File, Item, Stop, expect};
use std::alloc::{AllocError, AllocFailed, Global};

/// Why tokens spell no file. `item` counts the items before the fault, and `at` is the byte offset of the first
/// token behind them.
#[derive(Debug, Drop)]
pub enum ParseFault {
    /// Rule 6: what stands there is the text of no item.
    Syntax { item: u64, at: u64 },
    /// Rule 9: the item that stands there has more than 256 fields in a form, parts in a tuple type, or items or
    /// fields in one list of a pattern.
    Wide { item: u64, at: u64 },
    /// Memory ran out.
    NoMemory,
}

impl From<AllocError> for ParseFault {
    ghost from_gives = { λ _ e. e ≡ NoMemory };

    fn from(_e: AllocError) -> Self {
        ParseFault::NoMemory
    }
}

impl<T: Drop> From<AllocFailed<T>> for ParseFault {
    ghost from_gives = { λ _ e. e ≡ NoMemory };

    fn from(_e: AllocFailed<T>) -> Self {
        ParseFault::NoMemory
    }
}

/// Reads a file: as many attributes `#![..]` as are complete at its start leave no trace, and items follow up to
/// the end. Else it gives the first fault. Want of memory is the one free answer. Of items,
/// of variants, of arms and of the nodes of patterns there are at most twice as many as tokens.
///
/// Source: the Rust Reference, "Items"; which of them, and the limits, are our own choice.
pub fn parse(alloc: Global, tokens: &Tokens) -> Result<File, ParseFault>
    ensures file { IfOk result (λ f. IsFile (units (tokens_view tokens.now)) (file_view f)) }
    ensures fault { IfErr result (IsFaultOf (units (tokens_view tokens.now))) }
    ensures counts { IfOk result (λ f. HasAtMost (2 * length (tokens_view tokens.now)) (file_view f)) }
{
    let mut items = Vec::new(alloc);
    let mut rest = start_of_items(alloc, Cursor::new(tokens))?;
    'items: loop {
        let Some(_) = rest.next() else {
            return Ok(File { items });
        };
        let number = items.len() as u64;
        let (item, after) = narrow_item_at(alloc, number, rest)?;
        items.push(item)?;
        rest = after;
    }
}

/// The item that stands here and is not too wide, behind so many items, and the place behind it.
fn narrow_item_at(
    alloc: Global,
    number: u64,
    at: Cursor<'_>,
) -> Result<(Item, Cursor<'_>), ParseFault>
    ensures { ReadsItem (λ x. (item_view x.0, left x.1)) result number (left at.entry) }
{
    match item_at(alloc, at) {
        Ok((item, rest)) => {
            if item_is_wide(&item) {
                let at = at.from();
                return Err(ParseFault::Wide { item: number, at });
            }
            Ok((item, rest))
        }
        Err(Stop::Syntax) => Err(ParseFault::Syntax {
            item: number,
            at: at.from(),
        }),
        Err(Stop::Memory) => Err(ParseFault::NoMemory),
    }
}

/// The place behind as many attributes of the file as are complete at its start.
fn start_of_items(alloc: Global, at: Cursor<'_>) -> Result<Cursor<'_>, ParseFault>
    ensures start { IfOk result (λ x. SkipsAttributes (left at.entry) (left x)) }
    ensures memory { IfErr result (λ e. e ≡ NoMemory) }
{
    let mut rest = at;
    'attributes: loop {
        match skip_file_attribute(alloc, rest) {
            Ok(after) => rest = after,
            Err(Stop::Syntax) => return Ok(rest),
            Err(Stop::Memory) => return Err(ParseFault::NoMemory),
        }
    }
}

/// The place behind an attribute of the file.
#[tactic(auto, unfolding(crate::specs::FileReading::file_attribute_at))]
fn skip_file_attribute(alloc: Global, at: Cursor<'_>) -> Result<Cursor<'_>, Stop>
    ensures { Gives left result (file_attribute_at (left at.entry)) }
{
    let rest = expect(at, Mark::Hash)?;
    let rest = expect(rest, Mark::Bang)?;
    let rest = expect(rest, Mark::OpenSquare)?;
    let rest = run_at(alloc, rest, Until::Bracket)?;
    expect(rest, Mark::CloseSquare)
}
