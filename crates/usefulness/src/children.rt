// What is left of rows when a column is taken apart.
ghost use Rattle.std.specs.Prelude.{◌≡◌, [], Bool, false, length, map, IfOk, OnOk, IfSome};
ghost use Rattle.std.specs.List.{All, list_all, flat_map};
ghost use Rattle.std.specs.Option.{option_to_list};
ghost use Rattle.match_model.specs.Rows.{starts_wild};
ghost use Rattle.constructor_sets.specs.Columns.{plain_ctors};
ghost use Rattle.constructor_sets.specs.Present.{AreFound};
ghost use Rattle.pattern_matrix.specs.Halving.{AreLeafSpans, leaf_ctors};
ghost use Rattle.pattern_matrix.specs.Parts.{plain_spans};
ghost use Rattle.pattern_matrix.specs.Sparse.{columns_from};
ghost use Rattle.pattern_matrix.specs.Counting.{Question};
ghost use Rattle.pattern_matrix.specs.Searching.{IsFit, IsLookedAt, heads_in};
ghost use Rattle.usefulness.specs.Cutting.{IsCutPart, parts_left};
ghost use Rattle.usefulness.specs.Listing.{AreAllListed};
ghost use Rattle.usefulness.specs.Stack.{IsFresh, IsOpened, IsPending, opened_views, pending_views};
ghost use Rattle.usefulness.specs.States.{IsApart, IsEnterable, apart_leaves, apart_place, apart_view, piece_view, is_noted, scope_of};

use crate::frames::{Apart, Opened, Pending, Reached};
use crate::lone::enter_all;
use crate::wild::wild_child;
use constructor_sets::{PresentPieces, Span};
use no_memory::NoMemory;
use pat_context::PatCx;
use pattern_arena::CheckedArm;
use pattern_matrix::{Part, are_wild, into_leaf_spans, leaf_pieces};
use std::alloc::Global;

// The numbers below the count, ascending.
#[tactic(auto, using(crate::proofs::Numbered::more_numbers))]
fn numbers_below(alloc: Global, count: usize) -> Result<Vec<usize>, NoMemory>
    ensures { IfOk result (λ v. v.items ≡ columns_from 0 count) }
{
    let mut numbers = Vec::with_capacity(alloc, count)?;
    for i in 0..count {
        numbers.push(i)?;
    }
    Ok(numbers)
}

// All pieces, with all leaves.
fn all_parts<'a, T: Copy>(
    alloc: Global,
    a: &Apart<'a, T>,
    spans: &[Span],
    count: usize,
    missing: bool,
) -> Result<Vec<Part>, NoMemory>
    requires { length spans.now ≡ length a.now.leaves.items }
    ensures pieces { IfOk result (λ v. parts_left v.items ≡ columns_from 0 count) }
    ensures parts { IfOk result (λ v. (m : Question → Bool) → All (IsCutPart m missing a.now spans.now) v.items) }
{
    let mut parts = Vec::new(alloc);
    if count > 0 {
        let leaves = numbers_below(alloc, spans.len())?;
        parts.push(Part {
            first: 0,
            end: count,
            leaves,
        })?;
        Ok(parts)
    } else {
        Ok(parts)
    }
}

// The pieces that were found at the column, all of which are still to be entered.
fn open_pieces<'a, T: Copy>(
    alloc: Global,
    arms: &'a [CheckedArm<'a, T>],
    a: Apart<'a, T>,
    found: PresentPieces<'a>,
    spans: Vec<Span>,
) -> Result<Pending<'a, T>, NoMemory>
    requires { length spans.items ≡ length a.leaves.items }
    ensures { IfOk result (λ p. IsFresh a.entry found.entry spans.items p) }
{
    let parts = all_parts(alloc, &a, &spans, found.ctors.len(), found.missing)?;
    Ok(Pending {
        arms,
        apart: a,
        pieces: found.ctors,
        missing: found.missing,
        spans,
        parts,
    })
}

// What is left of the pieces that were found at the column: all of them, or nothing where of each one row alone mattered.
fn left_pieces<'a, C: PatCx>(
    alloc: Global,
    cx: &C,
    reached: &mut Reached<'a, C::Ty>,
    a: Apart<'a, C::Ty>,
    found: PresentPieces<'a>,
    spans: Vec<Span>,
) -> Result<Option<Pending<'a, C::Ty>>, NoMemory>
    requires apart { IsApart (scope_of reached.old) a }
    requires ty { C.is_type cx.now a.taken.column.ty }
    requires pieces { All (IsEnterable (C.is_value cx.now) (C.context cx.now) a) (plain_ctors found.ctors.items) }
    requires spans { AreLeafSpans (plain_ctors found.ctors.items) (apart_leaves a) (plain_spans spans.items) }
    ensures scope { OnOk result (scope_of reached.new ≡ scope_of reached.old) }
    ensures good { IfOk result (λ o. IfSome o (λ p. IsPending (C.is_type cx.now) (C.is_value cx.now) (C.context cx.now) (scope_of reached.old) (is_noted reached.new) p)) }
    ensures listed { IfOk result (λ o. AreAllListed (C.is_value cx.now) (is_noted reached.old) (is_noted reached.new)
        (map (piece_view (C.context cx.now) a.entry found.entry.missing) (plain_ctors found.entry.ctors.items)) (flat_map (pending_views (C.context cx.now)) (option_to_list o))) }
{
    if enter_all(cx, reached, &a, &found.ctors, &spans, found.missing)? {
        return Ok(None);
    }
    let pieces = open_pieces(alloc, reached.arms, a, found, spans)?;
    Ok(Some(pieces))
}

// What is left of the pieces that were found at the column, and where one is missing of values in no head.
fn split_column<'a, C: PatCx>(
    alloc: Global,
    cx: &C,
    reached: &mut Reached<'a, C::Ty>,
    a: Apart<'a, C::Ty>,
    found: PresentPieces<'a>,
    spans: Vec<Span>,
) -> Result<Opened<'a, C::Ty>, NoMemory>
    requires apart { IsApart (scope_of reached.old) a }
    requires fit { IsFit (C.is_type cx.now) (C.is_value cx.now) (C.context cx.now) (apart_view a) }
    requires sharp { list_all starts_wild (heads_in (apart_view a).rows) ≡ false }
    requires some { (leaf_ctors (apart_leaves a) ≡ []) → ⊥ }
    requires found { AreFound (C.is_value cx.now) (C.context cx.now) (apart_place a) (leaf_ctors (apart_leaves a)) (plain_ctors found.ctors.items) found.missing (plain_ctors found.gaps.items) }
    requires spans { AreLeafSpans (plain_ctors found.ctors.items) (apart_leaves a) (plain_spans spans.items) }
    ensures scope { OnOk result (scope_of reached.new ≡ scope_of reached.old) }
    ensures good { IfOk result (λ o. IsOpened (C.is_type cx.now) (C.is_value cx.now) (C.context cx.now) (scope_of reached.old) (is_noted reached.new) o) }
    ensures looked { IfOk result (λ o. IsLookedAt (C.is_type cx.now) (C.is_value cx.now) (C.context cx.now) (is_noted reached.old) (is_noted reached.new) (apart_view a.entry) (opened_views (C.context cx.now) o)) }
{
    let count = found.ctors.len();
    if found.missing {
        let wild = wild_child(alloc, cx, reached, &a)?;
        let pieces = left_pieces(alloc, cx, reached, a, found, spans)?;
        Ok(Opened {
            pieces,
            wild,
            count,
        })
    } else {
        let pieces = left_pieces(alloc, cx, reached, a, found, spans)?;
        Ok(Opened {
            pieces,
            wild: None,
            count,
        })
    }
}

// What is left of rows that are all wild at the column.
fn dropped_column<'a, C: PatCx>(
    alloc: Global,
    cx: &C,
    reached: &mut Reached<'a, C::Ty>,
    a: &Apart<'a, C::Ty>,
) -> Result<Opened<'a, C::Ty>, NoMemory>
    requires apart { IsApart (scope_of reached.old) a.now }
    requires fit { IsFit (C.is_type cx.now) (C.is_value cx.now) (C.context cx.now) (apart_view a.now) }
    requires sharp { list_all starts_wild (heads_in (apart_view a.now).rows) ≡ false }
    requires none { leaf_ctors (apart_leaves a.now) ≡ [] }
    ensures scope { OnOk result (scope_of reached.new ≡ scope_of reached.old) }
    ensures good { IfOk result (λ o. IsOpened (C.is_type cx.now) (C.is_value cx.now) (C.context cx.now) (scope_of reached.old) (is_noted reached.new) o) }
    ensures looked { IfOk result (λ o. IsLookedAt (C.is_type cx.now) (C.is_value cx.now) (C.context cx.now) (is_noted reached.old) (is_noted reached.new) (apart_view a.now) (opened_views (C.context cx.now) o)) }
{
    let wild = wild_child(alloc, cx, reached, a)?;
    Ok(Opened {
        pieces: None,
        wild,
        count: 0,
    })
}

// What is left of the rows.
pub(crate) fn children<'a, C: PatCx>(
    alloc: Global,
    cx: &C,
    reached: &mut Reached<'a, C::Ty>,
    a: Apart<'a, C::Ty>,
) -> Result<Opened<'a, C::Ty>, NoMemory>
    requires apart { IsApart (scope_of reached.old) a }
    requires fit { IsFit (C.is_type cx.now) (C.is_value cx.now) (C.context cx.now) (apart_view a) }
    requires sharp { list_all starts_wild (heads_in (apart_view a).rows) ≡ false }
    ensures scope { OnOk result (scope_of reached.new ≡ scope_of reached.old) }
    ensures good { IfOk result (λ o. IsOpened (C.is_type cx.now) (C.is_value cx.now) (C.context cx.now) (scope_of reached.old) (is_noted reached.new) o) }
    ensures looked { IfOk result (λ o. IsLookedAt (C.is_type cx.now) (C.is_value cx.now) (C.context cx.now) (is_noted reached.old) (is_noted reached.new) (apart_view a.entry) (opened_views (C.context cx.now) o)) }
{
    if are_wild(&a.leaves) {
        return dropped_column(alloc, cx, reached, &a);
    }
    let found = leaf_pieces(alloc, cx, &a.taken.column, &a.leaves)?;
    let PresentPieces {
        ctors,
        missing,
        gaps,
        spans,
    } = found;
    // From here on the spans are told by leaf, beside what was found: none stand in it.
    let spans = into_leaf_spans(alloc, &ctors, &a.leaves, spans)?;
    let found = PresentPieces {
        ctors,
        missing,
        gaps,
        spans: Vec::new(alloc),
    };
    split_column(alloc, cx, reached, a, found, spans)
}
