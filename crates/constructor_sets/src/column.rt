// What the heads of a column have, and what they leave out.
ghost use Rattle.std.specs.Prelude.{◌≡◌, ◌++◌, ◌||◌, ◌∷◌, [], true, IsTrue, IfOk, OnOk, map};
ghost use Rattle.std.specs.List.{All, list_any, filter_map};
ghost use Rattle.match_model.specs.Constructors.{has_piece};
ghost use Rattle.pat_context.specs.Views.{plain_ctor, plain_set, is_sure};
ghost use Rattle.constructor_sets.specs.Columns.{plain_ctors, plain_flagged, IsSetSplit};
ghost use Rattle.constructor_sets.specs.Serving.{IsServing};
ghost use Rattle.constructor_sets.specs.Spans.{plain_span};
ghost use Rattle.constructor_sets.specs.Present.{is_sharp_head, present_piece, is_missing, gap_of, AreFound};
ghost use Rattle.constructor_sets.specs.Present.{AreFoundOf, ArePresent, AreKept};

use crate::numbers::found_numbers;
use crate::set_pieces::set_pieces;
use crate::spans::spans_by_set;
use crate::split::piece_state;
use crate::texts::present_texts;
use crate::variants::present_variants;
use crate::{PieceState, PresentPieces};
use no_memory::NoMemory;
use pat_context::{Ctor, CtorSet, PatCx, Validity};
use std::alloc::Global;

/// The pieces of a column that its heads have, for each head which of them it has, and what the heads leave out, at a
/// place of the validity. The pieces are those of `split_column`, but a variant that no head has costs nothing: the
/// work is n log n in the heads, and in the lengths of rows that they tell apart.
///
/// The type is one of the context's, and each head is a constructor of the type's set that a pattern can have; a
/// wildcard is no head. The only error is want of memory.
pub fn present<'a, C: PatCx>(
    alloc: Global,
    cx: &C,
    ty: C::Ty,
    validity: Validity,
    heads: &[Ctor<'a>],
) -> Result<PresentPieces<'a>, NoMemory>
    requires ty { C.is_type cx.now ty }
    requires heads { All (λ h. IsTrue (is_sharp_head ((C.context cx.now).set_of ty) h)) (plain_ctors heads.now) }
    ensures { IfOk result (λ p. ArePresent (C.is_value cx.now) (C.context cx.now)
        (record { type = ty; sure = is_sure validity }) (plain_ctors heads.now)
        (plain_ctors p.ctors.items) p.missing (plain_ctors p.gaps.items) (map plain_span p.spans.items)) }
{
    match cx.set(ty) {
        CtorSet::Variants { count, later } => present_variants(
            alloc, cx, ty, validity, count, later, heads,
        ),
        CtorSet::Texts => present_texts(alloc, cx, ty, validity, heads),
        set => present_pieces(alloc, cx, ty, validity, set, heads),
    }
}

// The same by the pieces of the set.
fn present_pieces<'a, C: PatCx>(
    alloc: Global,
    cx: &C,
    ty: C::Ty,
    validity: Validity,
    set: CtorSet,
    heads: &[Ctor<'a>],
) -> Result<PresentPieces<'a>, NoMemory>
    requires ty { C.is_type cx.now ty }
    requires set { plain_set set ≡ (C.context cx.now).set_of ty }
    requires heads { All (λ h. IsTrue (is_sharp_head ((C.context cx.now).set_of ty) h)) (plain_ctors heads.now) }
    ensures { IfOk result (λ p. ArePresent (C.is_value cx.now) (C.context cx.now)
        (record { type = ty; sure = is_sure validity }) (plain_ctors heads.now)
        (plain_ctors p.ctors.items) p.missing (plain_ctors p.gaps.items) (map plain_span p.spans.items)) }
{
    let found = found_by_set(alloc, cx, ty, validity, heads)?;
    let spans = spans_by_set(alloc, set, &found.ctors, heads)?;
    Ok(PresentPieces {
        ctors: found.ctors,
        missing: found.missing,
        gaps: found.gaps,
        spans,
    })
}

// What heads have, and what they leave out.
#[derive(Drop)]
pub(crate) struct Found<'a> {
    // The pieces that have a value and that some head has.
    pub(crate) ctors: Vec<Ctor<'a>>,
    // Whether some piece that has a value is in no head.
    pub(crate) missing: bool,
    // The missing ranges and lengths.
    pub(crate) gaps: Vec<Ctor<'a>>,
}

// What the heads have, and what they leave out.
fn found_by_set<'a, C: PatCx>(
    alloc: Global,
    cx: &C,
    ty: C::Ty,
    validity: Validity,
    heads: &[Ctor<'a>],
) -> Result<Found<'a>, NoMemory>
    requires ty { C.is_type cx.now ty }
    requires heads { All (λ h. IsTrue (is_sharp_head ((C.context cx.now).set_of ty) h)) (plain_ctors heads.now) }
    ensures { IfOk result (λ f. AreFound (C.is_value cx.now) (C.context cx.now)
        (record { type = ty; sure = is_sure validity }) (plain_ctors heads.now)
        (plain_ctors f.ctors.items) f.missing (plain_ctors f.gaps.items)) }
{
    match cx.set(ty) {
        CtorSet::Numbers { first, second } => {
            found_numbers(alloc, cx, ty, validity, &first, &second, heads)
        }
        set => {
            let pieces = set_pieces(alloc, &set, heads)?;
            found_pieces(alloc, cx, ty, validity, &set, heads, &pieces)
        }
    }
}

// The same by the pieces of the set.
pub(crate) fn found_pieces<'a, C: PatCx>(
    alloc: Global,
    cx: &C,
    ty: C::Ty,
    validity: Validity,
    set: &CtorSet,
    heads: &[Ctor<'a>],
    pieces: &[(Ctor<'a>, bool)],
) -> Result<Found<'a>, NoMemory>
    requires ty { C.is_type cx.now ty }
    requires set { plain_set set.now ≡ (C.context cx.now).set_of ty }
    requires heads { All (λ h. IsTrue (is_sharp_head ((C.context cx.now).set_of ty) h)) (plain_ctors heads.now) }
    requires pieces { IsSetSplit (plain_set set.now) (plain_ctors heads.now) (plain_flagged pieces.now) }
    ensures found { IfOk result (λ f. AreFound (C.is_value cx.now) (C.context cx.now)
        (record { type = ty; sure = is_sure validity }) (plain_ctors heads.now)
        (plain_ctors f.ctors.items) f.missing (plain_ctors f.gaps.items)) }
    ensures kept { IfOk result (λ f. AreKept pieces.now (plain_ctors f.ctors.items)) }
{
    by_states(alloc, cx, ty, validity, set, heads, pieces)
}

// The pieces that are present, whether some is missing, and the missing ranges and lengths. None of the heads is a
// wildcard.
fn by_states<'a, C: PatCx>(
    alloc: Global,
    cx: &C,
    ty: C::Ty,
    validity: Validity,
    set: &CtorSet,
    heads: &[Ctor<'a>],
    pieces: &[(Ctor<'a>, bool)],
) -> Result<Found<'a>, NoMemory>
    requires ty { C.is_type cx.now ty }
    requires set { plain_set set.now ≡ (C.context cx.now).set_of ty }
    requires serving { All (λ p. IsServing (plain_set set.now) (plain_ctor p.0)) pieces.now }
    requires flagged { All (λ p. p.1 ≡ list_any (λ h. has_piece h (plain_ctor p.0)) (plain_ctors heads.now)) pieces.now }
    ensures { IfOk result (λ f. AreFoundOf (C.is_value cx.now) (record { type = ty; sure = is_sure validity })
        (plain_ctors heads.now) pieces.now (plain_ctors f.ctors.items) f.missing (plain_ctors f.gaps.items)) }
{
    let mut found = Found {
        ctors: Vec::with_capacity(alloc, pieces.len())?,
        missing: false,
        gaps: Vec::new(alloc),
    };
    for (ctor, present) in pieces {
        let state = piece_state(cx, ty, validity, set, ctor, *present);
        add_piece(&mut found, ctor, state)?;
    }
    Ok(found)
}

// Adds what is found of one piece more.
pub(crate) fn add_piece<'a>(
    found: &mut Found<'a>,
    ctor: &Ctor<'a>,
    state: PieceState,
) -> Result<(), NoMemory>
    ensures present { OnOk result (plain_ctors found.new.ctors.items ≡ plain_ctors found.old.ctors.items
        ++ filter_map present_piece ((plain_ctor ctor.now, state) ∷ [])) }
    ensures missing { OnOk result (found.new.missing ≡ (found.old.missing || is_missing (plain_ctor ctor.now, state))) }
    ensures gaps { OnOk result (plain_ctors found.new.gaps.items ≡ plain_ctors found.old.gaps.items
        ++ filter_map gap_of ((plain_ctor ctor.now, state) ∷ [])) }
{
    match state {
        PieceState::Present => found.ctors.push(*ctor)?,
        PieceState::Missing => add_missing(found, ctor)?,
        PieceState::Empty => (),
    }
    Ok(())
}

// Adds a missing piece.
fn add_missing<'a>(found: &mut Found<'a>, ctor: &Ctor<'a>) -> Result<(), NoMemory>
    ensures present { OnOk result (found.new.ctors ≡ found.old.ctors) }
    ensures missing { OnOk result (found.new.missing ≡ true) }
    ensures gaps { OnOk result (plain_ctors found.new.gaps.items ≡ plain_ctors found.old.gaps.items
        ++ filter_map gap_of ((plain_ctor ctor.now, PieceState.Missing) ∷ [])) }
{
    found.missing = true;
    match ctor {
        Ctor::Numbers(_) => found.gaps.push(*ctor)?,
        Ctor::Row(_) => found.gaps.push(*ctor)?,
        _ => (),
    }
    Ok(())
}
