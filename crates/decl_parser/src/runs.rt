//! Runs: tokens that are skipped, whose brackets pair up.
ghost use Rattle.std.specs.Prelude.{◌≡◌, ◌&&◌};
ghost use Rattle.decl_lexer.specs.Begins.{Marked};
ghost use Rattle.decl_syntax.specs.Units.{left, unit_view, first_passes};
ghost use Rattle.decl_syntax.specs.Reading.{Gives};
ghost use Rattle.decl_syntax.specs.Runs.{part_of};
ghost use Rattle.decl_parser.specs.RunGrammar.{stops, closes, ends_run, OneRun};
ghost use Rattle.decl_parser.specs.RunReading.{skip_at, run_at};

use decl_lexer::Mark;
use decl_syntax::{Cursor, Stop, Unit, mark_of, track};
use std::alloc::Global;

/// What ends a run, outside all its brackets. A closing bracket that closes none of them ends each run.
#[derive(Clone, Copy, Debug)]
pub enum Until {
    /// Nothing else.
    Bracket,
    /// A `{`, as behind `->`.
    Block,
    /// A `=>`, as behind `if`.
    Arrow,
    /// A comma, as behind the `=` of a variant.
    Comma,
    /// A comma or a `=>`, as in the body of an arm.
    CommaOrArrow,
}

/// The place behind a run: one token or more, whose round, square and curly brackets pair up, up to the first token
/// outside of them that ends it.
///
/// Source: the Rust Reference, "Macros", whose token trees these are; where they end is our own choice.
#[tactic(auto, unfolding(crate::specs::RunReading::run_at))]
pub fn run_at(alloc: Global, at: Cursor<'_>, until: Until) -> Result<Cursor<'_>, Stop>
    ensures { Gives left result (run_at until (left at.entry)) }
{
    if ends_here(at, until) {
        return Err(Stop::Syntax);
    }
    skip_tokens(alloc, at, until)
}

/// Whether a mark outside all brackets ends the run.
fn stops_mark(until: Until, mark: Mark) -> bool
    ensures { result ≡ stops until (Marked mark) }
{
    match until {
        Until::Bracket => false,
        Until::Block => mark == Mark::OpenCurly,
        Until::Arrow => mark == Mark::FatArrow,
        Until::Comma => mark == Mark::Comma,
        Until::CommaOrArrow => mark == Mark::Comma || mark == Mark::FatArrow,
    }
}

/// Whether a token outside all brackets ends the run.
fn stops(until: Until, unit: Unit<'_>) -> bool
    ensures { result ≡ stops until (unit_view unit.entry).lexeme }
{
    match mark_of(unit) {
        Some(mark) => stops_mark(until, mark),
        None => false,
    }
}

/// Whether a mark closes a bracket.
fn closes_mark(mark: Mark) -> bool
    ensures { result ≡ closes (part_of (Marked mark)) }
{
    match mark {
        Mark::CloseRound | Mark::CloseSquare | Mark::CloseCurly => true,
        _ => false,
    }
}

/// Whether a run ends before this mark.
fn ends(until: Until, mark: Mark) -> bool
    ensures { result ≡ ends_run until (Marked mark) }
{
    stops_mark(until, mark) || closes_mark(mark)
}

/// Whether a token comes next before which a run ends.
fn ends_here(at: Cursor<'_>, until: Until) -> bool
    ensures { result ≡ first_passes (ends_run until) (left at.entry) }
{
    match at.mark() {
        Some(mark) => ends(until, mark),
        None => false,
    }
}

/// Whether no bracket is open and the token ends the run.
fn stops_outside(outside: bool, until: Until, unit: Unit<'_>) -> bool
    ensures { result ≡ (outside && stops until (unit_view unit.entry).lexeme) }
{
    if outside {
        return stops(until, unit);
    }
    false
}

/// The place of the token that ends a run, which may be empty.
#[tactic(auto, unfolding(crate::specs::RunReading::skip_at))]
pub fn skip_tokens(alloc: Global, at: Cursor<'_>, until: Until) -> Result<Cursor<'_>, Stop>
    ensures { Gives left result (skip_at until (left at.entry)) }
{
    let mut opened = Vec::new(alloc);
    let mut rest = at;
    'tokens: loop {
        let Some((first, after)) = rest.next() else {
            return Err(Stop::Syntax);
        };
        let outside = opened.is_empty();
        let stopped = stops_outside(outside, until, first);
        if stopped {
            return Ok(rest);
        }
        let tracked = track(&mut opened, first)?;
        if !tracked {
            if outside {
                return Ok(rest);
            }
            return Err(Stop::Syntax);
        }
        rest = after;
    }
}

/// Tokens begin with at most one run of a kind: one place stands behind it.
pub fn one_run()
    ensures { OneRun }
{}
