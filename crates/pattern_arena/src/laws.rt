//! What holds of everything that is placed, and of what a match means.

ghost use Rattle.std.specs.Prelude.{◌≡◌, map, IfOk};
ghost use Rattle.match_model.specs.Made.{AreArmsMade};
ghost use Rattle.pattern_arena.specs.Trees.{tree, plain_match};
ghost use Rattle.pattern_arena.specs.Meaning.{ReadingListIsOne, OverlapListIsOne, ExhaustiveWhereNothingIsLeft};

use crate::{CheckedMatch, DePat, Placer};
use no_memory::NoMemory;
use pat_context::PatCx;

/// What was placed stands for the same trees after a further call, whether that one had its memory or not.
pub fn placed_patterns_stand<'a, T: Copy>(
    placer: &Placer<'a>,
    placed: &'a [DePat<'a, T>],
    more: &[DePat<'a, T>],
) -> (&'a [DePat<'a, T>], Result<&'a [DePat<'a, T>], NoMemory>)
    ensures stand { map tree result.0.now ≡ map tree placed.entry.now }
    ensures more { IfOk result.1 (λ next. map tree next.now ≡ map tree more.now) }
{
    let next = placer.place_subs(more);
    (placed, next)
}

/// A match has one list of what is unreachable, whatever values the types of the context have.
pub fn reading_lists_are_one<C: PatCx>(cx: &C)
    ensures { ReadingListIsOne (C.is_value cx.now) }
{}

/// A match has one list of overlaps, whatever values the types of the context have.
pub fn overlap_lists_are_one<C: PatCx>(cx: &C)
    ensures { OverlapListIsOne (C.is_value cx.now) }
{}

/// A match is exhaustive exactly where an exact cover of what it leaves out is empty, whatever values the types of the
/// context have.
pub fn exhaustive_where_nothing_is_left<C: PatCx>(cx: &C)
    ensures { ExhaustiveWhereNothingIsLeft (C.is_value cx.now) }
{}

/// The ranges in the patterns of a match do not run backward, and their ends can be held.
pub fn matches_are_made<T: Copy>(m: &CheckedMatch<'_, T>)
    ensures { AreArmsMade (plain_match m.now).arms }
{}
