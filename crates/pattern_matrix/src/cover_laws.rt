//! What follows from being the witness list of a match, for every lawful context: each function has an empty body, and
//! its contract is a law.

ghost use Rattle.pattern_matrix.specs.CoverLaws.{ListsAreCovers, EmptyIsExhaustive, WitnessesAreOfType, WrappingKeepsFits};

use pat_context::PatCx;

/// The witness list of a well-typed match is an exact cover: the values that no arm covers, but for a bare unseen, are
/// those that fit a witness; no value fits two; each witness is fitted by a value of the scrutinee's that is no bare
/// unseen; and the list ascends.
pub fn witness_lists_are_covers<C: PatCx>(cx: &C)
    ensures { ListsAreCovers (C.is_type cx.now) (C.is_value cx.now) (C.context cx.now) }
{}

/// A well-typed match is exhaustive exactly where its witness list is empty.
pub fn empty_lists_are_exhaustive<C: PatCx>(cx: &C)
    ensures { EmptyIsExhaustive (C.is_type cx.now) (C.is_value cx.now) (C.context cx.now) }
{}

/// Each witness of a well-typed match is of the type of its scrutinee.
pub fn witnesses_are_of_the_type<C: PatCx>(cx: &C)
    ensures { WitnessesAreOfType (C.is_type cx.now) (C.is_value cx.now) (C.context cx.now) }
{}

/// Wrapping the first witnesses of a stack in a constructor keeps exactly which values fit: the new stack fits values
/// exactly where the constructor builds the first of them and the old stack fits its parts and the others.
pub fn wrapping_keeps_fits()
    ensures { WrappingKeepsFits }
{}
