//! The parameters of items, which leave no trace.
ghost use Rattle.std.specs.Prelude.{◌≡◌, option_map};
ghost use Rattle.decl_syntax.specs.Units.{left};
ghost use Rattle.decl_parser.specs.DeclarationReading.{bounds_at, param_at, param_list_at, params_at};

use decl_lexer::Mark;
use decl_syntax::{Cursor, behind, behind_lifetime};

/// The place behind lifetimes with `+` between them.
fn skip_bounds(at: Cursor<'_>) -> Option<Cursor<'_>>
    ensures { option_map left result ≡ option_map (λ x. x.1) (bounds_at (left at.entry)) }
{
    let mut rest = at;
    'bounds: loop {
        let Some(after) = behind_lifetime(rest) else {
            return None;
        };
        match behind(after, Mark::Plus) {
            Some(behind) => rest = behind,
            None => return Some(after),
        }
    }
}

/// The place behind a parameter.
#[tactic(auto, unfolding(crate::specs::DeclarationReading::param_at))]
fn skip_param(at: Cursor<'_>) -> Option<Cursor<'_>>
    ensures { option_map left result ≡ option_map (λ x. x.1) (param_at (left at.entry)) }
{
    let rest = behind_lifetime(at)?;
    match behind(rest, Mark::Colon) {
        Some(rest) => skip_bounds(rest),
        None => Some(rest),
    }
}

/// The place behind parameters and the `>` that closes them.
fn skip_param_list(at: Cursor<'_>) -> Option<Cursor<'_>>
    ensures { option_map left result ≡ option_map (λ x. x.1) (param_list_at (left at.entry)) }
{
    let mut rest = at;
    'params: loop {
        if let Some(behind) = behind(rest, Mark::Greater) {
            return Some(behind);
        }
        let Some(after) = skip_param(rest) else {
            return None;
        };
        if let Some(behind) = behind(after, Mark::Greater) {
            return Some(behind);
        }
        let Some(behind) = behind(after, Mark::Comma) else {
            return None;
        };
        rest = behind;
    }
}

/// The place behind the parameters of an item, if it has some, and else this one.
///
/// Source: the Rust Reference, "Generic parameters"; that lifetimes alone may stand there is our own choice.
#[tactic(auto, unfolding(crate::specs::DeclarationReading::params_at))]
pub fn skip_params(at: Cursor<'_>) -> Option<Cursor<'_>>
    ensures { option_map left result ≡ option_map (λ x. x.1) (params_at (left at.entry)) }
{
    match behind(at, Mark::Less) {
        Some(rest) => skip_param_list(rest),
        None => Some(at),
    }
}
