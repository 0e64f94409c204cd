// The split of a column.
ghost use Rattle.std.specs.Prelude.{◌≡◌, ◌||◌, IsTrue, IfOk, map, true};
ghost use Rattle.std.specs.List.{All, list_any};
ghost use Rattle.match_model.specs.Constructors.{RowSet, RowCtor};
ghost use Rattle.slice_split.specs.Shapes.{plain_shape};
ghost use Rattle.pat_context.specs.Views.{plain_ctor, plain_set, is_sure};
ghost use Rattle.constructor_sets.specs.Columns.{is_head, writes, plain_ctors, plain_piece, IsColumnSplit};
ghost use Rattle.constructor_sets.specs.Serving.{IsServing, IsValueAnswer, IsFoundState, AreFoundStates};

use crate::heads::{has_wild, least_length};
use crate::set_pieces::set_pieces;
use crate::{Piece, PieceState, Split};
use no_memory::NoMemory;
use pat_context::{Ctor, CtorSet, PatCx, Validity, has_value, part_type, variant_has_value};
use slice_split::Shape;
use std::alloc::Global;

/// The pieces into which the constructors of a column cut its type, in the order of constructors, each with its state
/// at a place of the validity. Which pieces there are is our own choice, after the documentation of
/// `rustc_pattern_analysis` (constructor splitting).
///
/// The type is one of the context's, and each head of the column is a wildcard or a constructor of the type's set that
/// a pattern can have. The only error is want of memory.
pub fn split_column<'a, C: PatCx>(
    alloc: Global,
    cx: &C,
    ty: C::Ty,
    validity: Validity,
    column: &[Ctor<'a>],
) -> Result<Split<'a>, NoMemory>
    requires ty { C.is_type cx.now ty }
    requires column { All (λ h. IsTrue (is_head ((C.context cx.now).set_of ty) h)) (plain_ctors column.now) }
    ensures { IfOk result (λ s. IsColumnSplit (C.is_value cx.now) (C.context cx.now)
        (record { type = ty; sure = is_sure validity }) (plain_ctors column.now) (map plain_piece s.pieces.items)) }
{
    let set = cx.set(ty);
    let found = set_pieces(alloc, &set, column)?;
    let pieces = with_states(alloc, cx, ty, validity, &set, column, &found)?;
    Ok(Split { pieces })
}

// The pieces with their states.
fn with_states<'a, C: PatCx>(
    alloc: Global,
    cx: &C,
    ty: C::Ty,
    validity: Validity,
    set: &CtorSet,
    column: &[Ctor<'a>],
    found: &[(Ctor<'a>, bool)],
) -> Result<Vec<Piece<'a>>, NoMemory>
    requires ty { C.is_type cx.now ty }
    requires set { plain_set set.now ≡ (C.context cx.now).set_of ty }
    requires serving { All (λ p. IsServing (plain_set set.now) (plain_ctor p.0)) found.now }
    requires flagged { All (λ p. p.1 ≡ list_any (writes (plain_ctor p.0)) (plain_ctors column.now)) found.now }
    ensures ctors { IfOk result (λ v. map (λ p. plain_ctor p.ctor) v.items ≡ map (λ p. plain_ctor p.0) found.now) }
    ensures states { IfOk result (λ v. AreFoundStates (C.is_value cx.now)
        (record { type = ty; sure = is_sure validity }) (plain_ctors column.now) v.items) }
{
    let wild = has_wild(column);
    let mut pieces = Vec::with_capacity(alloc, found.len())?;
    for (ctor, written) in found {
        let present = either(wild, *written);
        let state = piece_state(cx, ty, validity, set, ctor, present);
        pieces.push(Piece { ctor: *ctor, state })?;
    }
    Ok(pieces)
}

// Tells whether one of the two holds.
fn either(first: bool, second: bool) -> bool
    ensures { result ≡ (first || second) }
{
    first || second
}

// The state of a piece.
pub(crate) fn piece_state<C: PatCx>(
    cx: &C,
    ty: C::Ty,
    validity: Validity,
    set: &CtorSet,
    ctor: &Ctor,
    present: bool,
) -> PieceState
    requires ty { C.is_type cx.now ty }
    requires set { plain_set set.now ≡ (C.context cx.now).set_of ty }
    requires serving { IsServing (plain_set set.now) (plain_ctor ctor.now) }
    ensures { IsFoundState (C.is_value cx.now) (record { type = ty; sure = is_sure validity })
        (plain_ctor ctor.now) present result }
{
    if piece_has_value(cx, ty, validity, set, ctor) {
        if present {
            PieceState::Present
        } else {
            PieceState::Missing
        }
    } else {
        PieceState::Empty
    }
}

// Tells whether a value of the type, at a place of the validity, is built by the piece.
fn piece_has_value<C: PatCx>(
    cx: &C,
    ty: C::Ty,
    validity: Validity,
    set: &CtorSet,
    ctor: &Ctor,
) -> bool
    requires ty { C.is_type cx.now ty }
    requires set { plain_set set.now ≡ (C.context cx.now).set_of ty }
    requires serving { IsServing (plain_set set.now) (plain_ctor ctor.now) }
    ensures { IsValueAnswer (C.is_value cx.now) (record { type = ty; sure = is_sure validity })
        (plain_ctor ctor.now) result }
{
    match validity {
        Validity::Unsure => true,
        Validity::Sure => sure_piece_has_value(cx, ty, set, ctor),
    }
}

// Tells whether a value of the type, at a sure place, is built by the piece.
fn sure_piece_has_value<C: PatCx>(cx: &C, ty: C::Ty, set: &CtorSet, ctor: &Ctor) -> bool
    requires ty { C.is_type cx.now ty }
    requires set { plain_set set.now ≡ (C.context cx.now).set_of ty }
    requires serving { IsServing (plain_set set.now) (plain_ctor ctor.now) }
    ensures { IsValueAnswer (C.is_value cx.now) (record { type = ty; sure = true }) (plain_ctor ctor.now) result }
{
    match ctor {
        Ctor::Single => has_value(cx, ty, Validity::Sure),
        Ctor::Variant(k) => variant_has_value(cx, ty, *k),
        Ctor::Row(shape) => match set {
            CtorSet::Rows { len: None } => row_has_value(cx, ty, ctor, *shape),
            _ => has_value(cx, ty, Validity::Sure),
        },
        _ => true,
    }
}

// Tells whether a row of the shape is a value of the type, which has rows of every length, at a sure place.
fn row_has_value<C: PatCx>(cx: &C, ty: C::Ty, ctor: &Ctor, shape: Shape) -> bool
    requires ty { C.is_type cx.now ty }
    requires set { (C.context cx.now).set_of ty ≡ RowSet None }
    requires ctor { plain_ctor ctor.now ≡ RowCtor (plain_shape shape) }
    requires serving { IsServing (RowSet None) (plain_ctor ctor.now) }
    ensures { IsValueAnswer (C.is_value cx.now) (record { type = ty; sure = true }) (plain_ctor ctor.now) result }
{
    if least_length(shape) == 0 {
        true
    } else {
        let item = part_type(cx, ctor, ty, 0);
        has_value(cx, item, Validity::Sure)
    }
}
