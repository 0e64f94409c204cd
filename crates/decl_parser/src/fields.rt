//! Visibilities, fields and the forms that they make.
ghost use Rattle.std.specs.Prelude.{◌≡◌, ◌++◌, ◌∷◌, [], map, option_map, true, IfOk, IfErr};
ghost use Rattle.std.specs.Rc.{rc_str_bytes};
ghost use Rattle.decl_syntax.specs.declared.stop.Stop.TheVariants.{Memory};
ghost use Rattle.decl_syntax.specs.Units.{left, behind, first_passes};
ghost use Rattle.decl_syntax.specs.Reading.{Gives};
ghost use Rattle.decl_syntax.specs.Items.{field_view, form_view};
ghost use Rattle.decl_parser.specs.DeclarationGrammar.{begins_scope, is_scope, closing};
ghost use Rattle.decl_parser.specs.DeclarationReading.{scope_at, restriction_at, visibility_at, label_at, field_at, fields_at, form_at};

use crate::names::owned_name_at;
use crate::parts::{attributes_at, type_at};
use crate::runs::{Until, run_at};
use decl_lexer::{Mark, Name, TokenKind, Word};
use decl_syntax::{Cursor, Field, Form, Seen, Stop, behind, behind_word, expect, fitted};
use std::alloc::Global;

/// Whether a word comes next that begins what stands between the brackets of a visibility.
fn begins_scope(at: Cursor<'_>) -> bool
    ensures { result ≡ first_passes begins_scope (left at.entry) }
{
    let Some((first, _)) = at.next() else {
        return false;
    };
    match first.kind {
        Seen::Other(TokenKind::Word(Word::Crate | Word::SelfValue | Word::Super | Word::In)) =>
            true,
        _ => false,
    }
}

/// The place behind `crate`, `self` or `super`.
fn behind_scope(at: Cursor<'_>) -> Option<Cursor<'_>>
    ensures { option_map left result ≡ behind is_scope (left at.entry) }
{
    let (first, rest) = at.next()?;
    match first.kind {
        Seen::Other(TokenKind::Word(Word::Crate | Word::SelfValue | Word::Super)) => Some(rest),
        _ => None,
    }
}

/// The place behind what stands in the brackets of a visibility and behind the bracket that closes them.
#[tactic(auto, unfolding(crate::specs::DeclarationReading::scope_at))]
fn skip_scope(alloc: Global, at: Cursor<'_>) -> Result<Cursor<'_>, Stop>
    ensures { Gives (λ x. (true, left x)) result (scope_at (left at.entry)) }
{
    let rest = match behind_word(at, Word::In) {
        Some(rest) => run_at(alloc, rest, Until::Bracket)?,
        None => match behind_scope(at) {
            Some(rest) => rest,
            None => return Err(Stop::Syntax),
        },
    };
    let rest = expect(rest, Mark::CloseRound)?;
    Ok(rest)
}

/// The place behind what restricts a visibility, if something does.
#[tactic(auto, unfolding(crate::specs::DeclarationReading::restriction_at))]
fn skip_restriction(alloc: Global, at: Cursor<'_>) -> Result<Cursor<'_>, Stop>
    ensures { Gives (λ x. (true, left x)) result (restriction_at (left at.entry)) }
{
    let Some(rest) = behind(at, Mark::OpenRound) else {
        return Ok(at);
    };
    if begins_scope(rest) {
        return skip_scope(alloc, rest);
    }
    Ok(at)
}

/// The place behind a visibility, if there is one, and else this one.
///
/// Source: the Rust Reference, "Visibility and privacy".
#[tactic(auto, unfolding(crate::specs::DeclarationReading::visibility_at))]
pub fn skip_visibility(alloc: Global, at: Cursor<'_>) -> Result<Cursor<'_>, Stop>
    ensures { Gives left result (option_map (λ x. x.1) (visibility_at (left at.entry))) }
{
    match behind_word(at, Word::Pub) {
        Some(rest) => skip_restriction(alloc, rest),
        None => Ok(at),
    }
}

/// What stands before the type of a field: a name in a brace form, and nothing in a tuple form.
#[tactic(auto, unfolding(crate::specs::DeclarationReading::label_at))]
fn label_at(braced: bool, at: Cursor<'_>) -> Result<(Option<Name>, Cursor<'_>), Stop>
    ensures { Gives (λ x. (option_map rc_str_bytes x.0, left x.1)) result (label_at braced (left at.entry)) }
{
    if !braced {
        return Ok((None, at));
    }
    let (name, rest) = owned_name_at(at)?;
    let rest = expect(rest, Mark::Colon)?;
    Ok((Some(name), rest))
}

/// A field, and the place behind it.
#[tactic(auto, unfolding(crate::specs::DeclarationReading::field_at))]
fn field_at(alloc: Global, braced: bool, at: Cursor<'_>) -> Result<(Field, Cursor<'_>), Stop>
    ensures { Gives (λ x. (field_view x.0, left x.1)) result (field_at braced (left at.entry)) }
{
    let (attrs, rest) = attributes_at(alloc, at)?;
    let rest = skip_visibility(alloc, rest)?;
    let (name, rest) = label_at(braced, rest)?;
    let (ty, rest) = type_at(alloc, rest)?;
    Ok((Field { name, attrs, ty }, rest))
}

/// The bracket that closes a brace form, or a tuple form.
fn closing(braced: bool) -> Mark
    ensures { result ≡ closing braced }
{
    if braced {
        Mark::CloseCurly
    } else {
        Mark::CloseRound
    }
}

/// Appends a field to a list, which begins with room for one: many lists have no more.
fn push(fields: &mut Vec<Field>, field: Field) -> Result<(), Stop>
    ensures items { IfOk result (λ _. fields.new.items ≡ fields.old.items ++ field ∷ []) }
    ensures memory { IfErr result (λ e. e ≡ Memory) }
{
    if fields.is_empty() {
        fields.reserve_exact(1)?;
    }
    fields.push(field)?;
    Ok(())
}

/// The fields of a form, and the place behind the bracket that closes them.
fn fields_at(alloc: Global, braced: bool, at: Cursor<'_>) -> Result<(Vec<Field>, Cursor<'_>), Stop>
    ensures { Gives (λ x. (map field_view x.0.items, left x.1)) result (fields_at braced (left at.entry)) }
{
    let close = closing(braced);
    let mut found = Vec::new(alloc);
    let mut rest = at;
    'found: loop {
        if let Some(behind) = behind(rest, close) {
            return Ok((found, behind));
        }
        let (one, after) = field_at(alloc, braced, rest)?;
        push(&mut found, one)?;
        if let Some(behind) = behind(after, close) {
            return Ok((found, behind));
        }
        let Some(behind) = behind(after, Mark::Comma) else {
            return Err(Stop::Syntax);
        };
        rest = behind;
    }
}

/// The form that stands behind the name of a variant or struct, and the place behind it.
///
/// Source: the Rust Reference, "Structs" and "Enumerations".
#[tactic(auto, unfolding(crate::specs::DeclarationReading::form_at))]
pub fn form_at(alloc: Global, at: Cursor<'_>) -> Result<(Form, Cursor<'_>), Stop>
    ensures { Gives (λ x. (form_view x.0, left x.1)) result (form_at (left at.entry)) }
{
    if let Some(rest) = behind(at, Mark::OpenRound) {
        let (parts, rest) = fields_at(alloc, false, rest)?;
        return Ok((Form::Tuple(fitted(parts)), rest));
    }
    if let Some(rest) = behind(at, Mark::OpenCurly) {
        let (members, rest) = fields_at(alloc, true, rest)?;
        return Ok((Form::Brace(fitted(members)), rest));
    }
    Ok((Form::Unit, at))
}
