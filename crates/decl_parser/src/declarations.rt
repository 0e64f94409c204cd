//! Variants, the forms of structs, the heads of items and what an import lists.
ghost use Rattle.std.specs.Prelude.{◌≡◌, map, option_map};
ghost use Rattle.std.specs.Rc.{rc_str_bytes};
ghost use Rattle.decl_syntax.specs.Units.{left};
ghost use Rattle.decl_syntax.specs.Reading.{Gives};
ghost use Rattle.decl_syntax.specs.Items.{form_view, variant_view};
ghost use Rattle.decl_parser.specs.DeclarationGrammar.{ends_in_semicolon};
ghost use Rattle.decl_parser.specs.DeclarationReading.{number_at, variant_at, variants_at, struct_form_at, head_at};

use crate::fields::form_at;
use crate::names::owned_name_at;
use crate::params::skip_params;
use crate::parts::attributes_at;
use crate::runs::{Until, run_at};
use decl_lexer::{Mark, Name, Word};
use decl_syntax::{Cursor, Form, Stop, Variant, behind, expect, expect_word};
use std::alloc::Global;

/// The place behind the number of a variant, if it is written, and else this one.
#[tactic(auto, unfolding(crate::specs::DeclarationReading::number_at))]
fn skip_number(alloc: Global, at: Cursor<'_>) -> Result<Cursor<'_>, Stop>
    ensures { Gives left result (option_map (λ x. x.1) (number_at (left at.entry))) }
{
    match behind(at, Mark::Assign) {
        Some(rest) => run_at(alloc, rest, Until::Comma),
        None => Ok(at),
    }
}

/// A variant, and the place behind it.
#[tactic(auto, unfolding(crate::specs::DeclarationReading::variant_at))]
fn variant_at(alloc: Global, at: Cursor<'_>) -> Result<(Variant, Cursor<'_>), Stop>
    ensures { Gives (λ x. (variant_view x.0, left x.1)) result (variant_at (left at.entry)) }
{
    let (attrs, rest) = attributes_at(alloc, at)?;
    let (name, rest) = owned_name_at(rest)?;
    let (form, rest) = form_at(alloc, rest)?;
    let rest = skip_number(alloc, rest)?;
    Ok((Variant { name, attrs, form }, rest))
}

/// The variants of an enum, and the place behind its `}`.
///
/// Source: the Rust Reference, "Enumerations".
pub fn variants_at(alloc: Global, at: Cursor<'_>) -> Result<(Vec<Variant>, Cursor<'_>), Stop>
    ensures { Gives (λ x. (map variant_view x.0.items, left x.1)) result (variants_at (left at.entry)) }
{
    let mut found = Vec::new(alloc);
    let mut rest = at;
    'found: loop {
        if let Some(behind) = behind(rest, Mark::CloseCurly) {
            return Ok((found, behind));
        }
        let (one, after) = variant_at(alloc, rest)?;
        found.push(one)?;
        if let Some(behind) = behind(after, Mark::CloseCurly) {
            return Ok((found, behind));
        }
        let Some(behind) = behind(after, Mark::Comma) else {
            return Err(Stop::Syntax);
        };
        rest = behind;
    }
}

/// Whether a `;` ends a struct of this form.
fn ends_in_semicolon(form: &Form) -> bool
    ensures { result ≡ ends_in_semicolon (form_view form.now) }
{
    match form {
        Form::Unit | Form::Tuple(_) => true,
        Form::Brace(_) => false,
    }
}

/// The form of a struct, and the place behind what ends it.
///
/// Source: the Rust Reference, "Structs".
#[tactic(auto, unfolding(crate::specs::DeclarationReading::struct_form_at))]
pub fn struct_form_at(alloc: Global, at: Cursor<'_>) -> Result<(Form, Cursor<'_>), Stop>
    ensures { Gives (λ x. (form_view x.0, left x.1)) result (struct_form_at (left at.entry)) }
{
    let (form, rest) = form_at(alloc, at)?;
    if ends_in_semicolon(&form) {
        let rest = expect(rest, Mark::Semicolon)?;
        return Ok((form, rest));
    }
    Ok((form, rest))
}

/// The name of an item that begins with this keyword, and the place behind its parameters.
#[tactic(auto, unfolding(crate::specs::DeclarationReading::head_at))]
pub fn head_at(word: Word, at: Cursor<'_>) -> Result<(Name, Cursor<'_>), Stop>
    ensures { Gives (λ x. (rc_str_bytes x.0, left x.1)) result (head_at word (left at.entry)) }
{
    let rest = expect_word(at, word)?;
    let (name, rest) = owned_name_at(rest)?;
    match skip_params(rest) {
        Some(rest) => Ok((name, rest)),
        None => Err(Stop::Syntax),
    }
}
