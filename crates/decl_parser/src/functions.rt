//! A function, from the `(` behind its name on.
ghost use Rattle.std.specs.Rc.{rc_str_bytes};
ghost use Rattle.decl_syntax.specs.Units.{left};
ghost use Rattle.decl_syntax.specs.Types.{type_view};
ghost use Rattle.decl_syntax.specs.Reading.{Gives};
ghost use Rattle.decl_parser.specs.FunctionGrammar.{body_view, OneFunction};
ghost use Rattle.decl_parser.specs.FunctionReading.{parameter_at, returned_at, scrutinee_at, head_at, function_at};

use crate::arms::arms_at;
use crate::parts::type_at;
use crate::runs::{Until, run_at};
use decl_lexer::{Mark, Name, Word};
use decl_syntax::{
    Arm, Cursor, Stop, Ty, behind, expect, expect_word, fitted, name_at, skip_mark, skip_word,
};
use std::alloc::Global;

/// What is known of a function but its name: the type of its parameter, the byte offset of the `*` in
/// `match *x`, and its arms.
#[derive(Debug, Drop)]
pub struct Body {
    pub param: Ty,
    pub deref: Option<u64>,
    pub arms: Vec<Arm>,
}

/// A function from the `(` behind its name and parameters in `<..>` on, and the place behind it: its one parameter,
/// what it returns, and a block that is a match on that parameter.
///
/// Source: the Rust Reference, "Functions" and "Match expressions"; the form of the block is our own choice.
#[tactic(auto, unfolding(crate::specs::FunctionReading::function_at))]
pub fn function_at(alloc: Global, at: Cursor<'_>) -> Result<(Body, Cursor<'_>), Stop>
    ensures { Gives (λ x. (body_view x.0, left x.1)) result (function_at (left at.entry)) }
{
    let (name, param, rest) = parameter_at(alloc, at)?;
    let rest = returned_at(alloc, rest)?;
    let (deref, rest) = head_at(name, rest)?;
    let (arms, rest) = arms_at(alloc, rest)?;
    let rest = expect(rest, Mark::CloseCurly)?;
    let arms = fitted(arms);
    Ok((Body { param, deref, arms }, rest))
}

/// The parameter's name and type, and the place behind its `)`.
#[tactic(auto, unfolding(crate::specs::FunctionReading::parameter_at))]
fn parameter_at(alloc: Global, at: Cursor<'_>) -> Result<(&Name, Ty, Cursor<'_>), Stop>
    ensures { Gives (λ x. (record { name = rc_str_bytes x.0.now; type = type_view x.1 }, left x.2)) result
        (parameter_at (left at.entry)) }
{
    let rest = expect(at, Mark::OpenRound)?;
    let (_, rest) = skip_word(rest, Word::Mut);
    let Some((name, rest)) = name_at(rest) else {
        return Err(Stop::Syntax);
    };
    let rest = expect(rest, Mark::Colon)?;
    let (param, rest) = type_at(alloc, rest)?;
    let rest = expect(skip_mark(rest, Mark::Comma), Mark::CloseRound)?;
    Ok((name, param, rest))
}

/// The place behind what is returned, if that is written.
#[tactic(auto, unfolding(crate::specs::FunctionReading::returned_at))]
fn returned_at(alloc: Global, at: Cursor<'_>) -> Result<Cursor<'_>, Stop>
    ensures { Gives left result (returned_at (left at.entry)) }
{
    match behind(at, Mark::ThinArrow) {
        Some(rest) => run_at(alloc, rest, Until::Block),
        None => Ok(at),
    }
}

/// The place of the `*`, if there is one, the name that is matched on, and the place behind it.
#[tactic(auto, unfolding(crate::specs::FunctionReading::scrutinee_at))]
fn scrutinee_at(at: Cursor<'_>) -> Result<(Option<u64>, &Name, Cursor<'_>), Stop>
    ensures { Gives (λ x. (record { deref = x.0; name = rc_str_bytes x.1.now }, left x.2)) result
        (scrutinee_at (left at.entry)) }
{
    let at = expect_word(at, Word::Match)?;
    if let Some(rest) = behind(at, Mark::Star) {
        return match name_at(rest) {
            Some((name, rest)) => Ok((Some(at.from()), name, rest)),
            None => Err(Stop::Syntax),
        };
    }
    match name_at(at) {
        Some((name, rest)) => Ok((None, name, rest)),
        None => Err(Stop::Syntax),
    }
}

/// The `{` of the function and the head of its match on this name: the place of the `*`, if there is one,
/// and the place behind the match's `{`.
#[tactic(auto, unfolding(crate::specs::FunctionReading::head_at))]
fn head_at<'a>(name: &Name, at: Cursor<'a>) -> Result<(Option<u64>, Cursor<'a>), Stop>
    ensures { Gives (λ x. (x.0, left x.1)) result (head_at (rc_str_bytes name.now) (left at.entry)) }
{
    let rest = expect(at, Mark::OpenCurly)?;
    let (deref, scrutinee, rest) = scrutinee_at(rest)?;
    if scrutinee.as_str() != name.as_str() {
        return Err(Stop::Syntax);
    }
    let rest = expect(rest, Mark::OpenCurly)?;
    Ok((deref, rest))
}

/// Tokens begin with at most one function from its `(` on, and one place stands behind it.
pub fn one_function()
    ensures { OneFunction }
{}
