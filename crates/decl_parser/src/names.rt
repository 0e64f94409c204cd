//! Names, and what an import lists.
ghost use Rattle.std.specs.Prelude.{map, option_map};
ghost use Rattle.std.specs.Rc.{rc_str_bytes};
ghost use Rattle.decl_syntax.specs.Units.{left, token_at, name_of};
ghost use Rattle.decl_syntax.specs.Reading.{Gives};
ghost use Rattle.decl_parser.specs.DeclarationReading.{name_list_at, names_at};

use decl_lexer::{Mark, Name};
use decl_syntax::{Cursor, Stop, behind, expect, fitted, name_at};
use std::alloc::Global;

/// A name, and the place behind it.
pub fn owned_name_at(at: Cursor<'_>) -> Result<(Name, Cursor<'_>), Stop>
    ensures { Gives (λ x. (rc_str_bytes x.0, left x.1)) result (token_at name_of (left at.entry)) }
{
    let Some((name, rest)) = name_at(at) else {
        return Err(Stop::Syntax);
    };
    Ok((name.clone()?, rest))
}

/// The names up to a `}`, and the place behind it.
fn name_list_at(alloc: Global, at: Cursor<'_>) -> Result<(Vec<Name>, Cursor<'_>), Stop>
    ensures { Gives (λ x. (map rc_str_bytes x.0.items, left x.1)) result (name_list_at (left at.entry)) }
{
    let mut found = Vec::new(alloc);
    let mut rest = at;
    'found: loop {
        if let Some(behind) = behind(rest, Mark::CloseCurly) {
            return Ok((found, behind));
        }
        let (one, after) = owned_name_at(rest)?;
        found.push(one)?;
        if let Some(behind) = behind(after, Mark::CloseCurly) {
            return Ok((found, behind));
        }
        let Some(behind) = behind(after, Mark::Comma) else {
            return Err(Stop::Syntax);
        };
        rest = behind;
    }
}

/// The names that an import lists, or none for `*`, and the place behind them.
///
/// Source: the Rust Reference, "Use declarations".
#[tactic(auto, unfolding(crate::specs::DeclarationReading::names_at))]
pub fn names_at(alloc: Global, at: Cursor<'_>) -> Result<(Option<Vec<Name>>, Cursor<'_>), Stop>
    ensures { Gives (λ x. (option_map (λ names. map rc_str_bytes names.items) x.0, left x.1)) result
        (names_at (left at.entry)) }
{
    if let Some(rest) = behind(at, Mark::Star) {
        return Ok((None, rest));
    }
    let rest = expect(at, Mark::OpenCurly)?;
    let (names, rest) = name_list_at(alloc, rest)?;
    Ok((Some(fitted(names)), rest))
}
