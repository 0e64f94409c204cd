//! The arms of a match.
ghost use Rattle.std.specs.Prelude.{map};
ghost use Rattle.decl_syntax.specs.Units.{left};
ghost use Rattle.decl_syntax.specs.Reading.{Gives};
ghost use Rattle.decl_syntax.specs.Items.{arm_view};
ghost use Rattle.decl_parser.specs.ArmReading.{guard_at, block_at, value_at, body_at, arm_at, arms_at};

use crate::parts::{attributes_at, pattern_at};
use crate::runs::{Until, run_at, skip_tokens};
use decl_lexer::{Mark, Word};
use decl_syntax::{Arm, Cursor, Stop, behind, behind_word, expect, skip_mark};
use std::alloc::Global;

/// Whether a guard stands here, and the place behind it.
#[tactic(auto, unfolding(crate::specs::ArmReading::guard_at))]
fn guard_at(alloc: Global, at: Cursor<'_>) -> Result<(bool, Cursor<'_>), Stop>
    ensures { Gives (λ x. (x.0, left x.1)) result (guard_at (left at.entry)) }
{
    match behind_word(at, Word::If) {
        Some(rest) => {
            let rest = run_at(alloc, rest, Until::Arrow)?;
            Ok((true, rest))
        }
        None => Ok((false, at)),
    }
}

/// The place behind a block and an optional comma, behind its `{`.
#[tactic(auto, unfolding(crate::specs::ArmReading::block_at))]
fn block_at(alloc: Global, at: Cursor<'_>) -> Result<Cursor<'_>, Stop>
    ensures { Gives left result (block_at (left at.entry)) }
{
    let rest = skip_tokens(alloc, at, Until::Bracket)?;
    let rest = expect(rest, Mark::CloseCurly)?;
    Ok(skip_mark(rest, Mark::Comma))
}

/// The place behind a body that is no block, and its comma; a `}` ends it and stays.
#[tactic(auto, unfolding(crate::specs::ArmReading::value_at))]
fn value_at(alloc: Global, at: Cursor<'_>) -> Result<Cursor<'_>, Stop>
    ensures { Gives left result (value_at (left at.entry)) }
{
    let rest = run_at(alloc, at, Until::CommaOrArrow)?;
    if let Some(after) = behind(rest, Mark::Comma) {
        return Ok(after);
    }
    expect(rest, Mark::CloseCurly)?;
    Ok(rest)
}

/// The place behind a body.
#[tactic(auto, unfolding(crate::specs::ArmReading::body_at))]
fn body_at(alloc: Global, at: Cursor<'_>) -> Result<Cursor<'_>, Stop>
    ensures { Gives left result (body_at (left at.entry)) }
{
    match behind(at, Mark::OpenCurly) {
        Some(rest) => block_at(alloc, rest),
        None => value_at(alloc, at),
    }
}

/// An arm, and the place behind it.
#[tactic(auto, unfolding(crate::specs::ArmReading::arm_at))]
fn arm_at(alloc: Global, at: Cursor<'_>) -> Result<(Arm, Cursor<'_>), Stop>
    ensures { Gives (λ x. (arm_view x.0, left x.1)) result (arm_at (left at.entry)) }
{
    let (attrs, rest) = attributes_at(alloc, at)?;
    let (pat, rest) = pattern_at(alloc, rest)?;
    let (guarded, rest) = guard_at(alloc, rest)?;
    let rest = expect(rest, Mark::FatArrow)?;
    let rest = body_at(alloc, rest)?;
    let arm = Arm {
        attrs,
        pat,
        guarded,
    };
    Ok((arm, rest))
}

/// Arms one after the other, and the place behind the `}` that follows them.
pub fn arms_at(alloc: Global, at: Cursor<'_>) -> Result<(Vec<Arm>, Cursor<'_>), Stop>
    ensures { Gives (λ x. (map arm_view x.0.items, left x.1)) result (arms_at (left at.entry)) }
{
    let mut arms = Vec::new(alloc);
    let mut rest = at;
    'arms: loop {
        if let Some(behind) = behind(rest, Mark::CloseCurly) {
            return Ok((arms, behind));
        }
        let (arm, after) = arm_at(alloc, rest)?;
        arms.push(arm)?;
        rest = after;
    }
}
