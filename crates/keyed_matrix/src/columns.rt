// The columns of a matrix.
ghost use Rattle.std.specs.Prelude.{◌≡◌, ◌<◌, ◌+◌, ◌^◌, ◌++◌, ◌∷◌, [], length, IsTrue, IfOk, OnOk};
ghost use Rattle.match_model.specs.Constructors.{LongerShape, RowCtor, belongs};
ghost use Rattle.match_model.specs.Matrices.{part_columns, part_step, column_at, open_of};
ghost use Rattle.match_model.specs.Rows.{part_open};
ghost use Rattle.match_model.specs.Steps.{replaced_at};
ghost use Rattle.pat_context.specs.Laws.{HasFewItems};
ghost use Rattle.pat_context.specs.Views.{plain_ctor, plain_step, plain_place};
ghost use Rattle.keyed_matrix.specs.Columns.{IsStep};
ghost use Rattle.keyed_matrix.specs.Views.{plain_column, plain_columns};

use crate::KeyedColumn;
use bumpalo::Bump;
use no_memory::NoMemory;
use pat_context::{Ctor, PatCx, Step, count_parts, part_type};
use slice_split::Shape;
use std::alloc::Global;

/// The columns without the column with this number, from 0, which is one of them. The only error is want of memory.
pub fn dropped_columns<'a, T: Copy>(
    alloc: Global,
    columns: &[KeyedColumn<'a, T>],
    i: usize,
) -> Result<Vec<KeyedColumn<'a, T>>, NoMemory>
    requires { i < length columns.now }
    ensures { IfOk result (λ v. plain_columns v.items ≡ replaced_at i (plain_columns columns.now) []) }
{
    replaced_columns(alloc, columns, i, &[])
}

/// The columns with those of the parts of a piece of this column in place of the column with the number, from 0, which
/// is one of them; the places of the parts are put into the arena.
///
/// The column's type is one of the context's, the piece is of the type's set, and a row has at most 8,589,934,592 items
/// at its ends. The only error is want of memory.
pub fn piece_columns<'a, C: PatCx>(
    alloc: Global,
    arena: &'a Bump<Global>,
    cx: &C,
    columns: &[KeyedColumn<'a, C::Ty>],
    i: usize,
    column: &KeyedColumn<'a, C::Ty>,
    piece: &Ctor,
) -> Result<Vec<KeyedColumn<'a, C::Ty>>, NoMemory>
    requires within { i < length columns.now }
    requires ty { C.is_type cx.now column.now.ty }
    requires belongs { IsTrue (belongs ((C.context cx.now).set_of column.now.ty) (plain_ctor piece.now)) }
    requires held { HasFewItems (plain_ctor piece.now) }
    ensures { IfOk result (λ v. plain_columns v.items ≡ replaced_at i (plain_columns columns.now)
        (part_columns (C.context cx.now) (plain_column column.now) (plain_ctor piece.now))) }
{
    let parts = part_columns(alloc, arena, cx, column, piece)?;
    replaced_columns(alloc, columns, i, &parts)
}

// The columns with these in place of the column with the number.
fn replaced_columns<'a, T: Copy>(
    alloc: Global,
    columns: &[KeyedColumn<'a, T>],
    i: usize,
    new: &[KeyedColumn<'a, T>],
) -> Result<Vec<KeyedColumn<'a, T>>, NoMemory>
    requires { i < length columns.now }
    ensures { IfOk result (λ v. plain_columns v.items
        ≡ replaced_at i (plain_columns columns.now) (plain_columns new.now)) }
{
    let room = columns.len().saturating_add(new.len());
    let mut all = Vec::with_capacity(alloc, room)?;
    all.extend_from_slice(&columns[..i])?;
    all.extend_from_slice(new)?;
    all.extend_from_slice(&columns[i + 1..])?;
    Ok(all)
}

// The columns of the parts of the piece.
#[tactic(auto, using(crate::proofs::Parts::more_columns))]
fn part_columns<'a, C: PatCx>(
    alloc: Global,
    arena: &'a Bump<Global>,
    cx: &C,
    column: &KeyedColumn<'a, C::Ty>,
    piece: &Ctor,
) -> Result<Vec<KeyedColumn<'a, C::Ty>>, NoMemory>
    requires ty { C.is_type cx.now column.now.ty }
    requires belongs { IsTrue (belongs ((C.context cx.now).set_of column.now.ty) (plain_ctor piece.now)) }
    requires held { HasFewItems (plain_ctor piece.now) }
    ensures { IfOk result (λ v. plain_columns v.items
        ≡ part_columns (C.context cx.now) (plain_column column.now) (plain_ctor piece.now)) }
{
    let count = count_parts(cx, piece, column.ty);
    let mut steps = Vec::with_capacity(alloc, column.place.len().saturating_add(1))?;
    steps.extend_from_slice(column.place)?;
    let mut all = Vec::with_capacity(alloc, count)?;
    for k in 0..count {
        let part = part_column(arena, cx, column, &mut steps, piece, k)?;
        all.push(part)?;
    }
    Ok(all)
}

// The column of the part with the number. The steps are those of the column's place, before and after.
fn part_column<'a, C: PatCx>(
    arena: &'a Bump<Global>,
    cx: &C,
    column: &KeyedColumn<'a, C::Ty>,
    steps: &mut Vec<Step>,
    piece: &Ctor,
    k: usize,
) -> Result<KeyedColumn<'a, C::Ty>, NoMemory>
    requires ty { C.is_type cx.now column.now.ty }
    requires belongs { IsTrue (belongs ((C.context cx.now).set_of column.now.ty) (plain_ctor piece.now)) }
    requires held { HasFewItems (plain_ctor piece.now) }
    requires below { k < (C.context cx.now).arity (plain_ctor piece.now) column.now.ty }
    requires steps { steps.old.items ≡ column.now.place.now }
    ensures same { OnOk result (steps.new.items ≡ steps.old.items) }
    ensures column { IfOk result (λ c. plain_column c
        ≡ column_at (plain_place column.now.place.now ++ part_step (plain_ctor piece.now) k ∷ [])
        (part_open (C.context cx.now) (open_of (plain_column column.now)) (plain_ctor piece.now) k)) }
{
    let step = step_to(piece, k);
    let place = place_inside(arena, steps, step)?;
    Ok(KeyedColumn {
        place,
        ty: part_type(cx, piece, column.ty, k),
        validity: column.validity.inside(piece),
    })
}

// The place one step inside that of the steps, put into the arena. The steps are the same afterwards.
fn place_inside<'a>(
    arena: &'a Bump<Global>,
    steps: &mut Vec<Step>,
    step: Step,
) -> Result<&'a [Step], NoMemory>
    ensures same { OnOk result (steps.new.items ≡ steps.old.items) }
    ensures place { IfOk result (λ p. plain_place p.now ≡ plain_place steps.old.items ++ plain_step step ∷ []) }
{
    steps.push(step)?;
    let placed = arena.try_alloc_slice_copy(steps)?;
    let _last = steps.pop();
    Ok(placed)
}

// The step to the part of the piece with the number.
fn step_to(piece: &Ctor, k: usize) -> Step
    requires held { HasFewItems (plain_ctor piece.now) }
    requires fits { IsStep (plain_ctor piece.now) k }
    ensures { plain_step result ≡ part_step (plain_ctor piece.now) k }
{
    match piece {
        Ctor::Point => Step::Through,
        Ctor::Variant(j) => Step::Field {
            variant: *j,
            part: k as u32,
        },
        Ctor::Row(Shape::Fixed(_)) => Step::Front(k as u64),
        Ctor::Row(Shape::Longer { front, back }) => end_step(*front, *back, k as u64),
        _ => Step::Field {
            variant: 0,
            part: k as u32,
        },
    }
}

// The step to the item with the number, of those at the ends of a row.
fn end_step(front: u64, back: u64, k: u64) -> Step
    requires few { front + back < 2 ^ 64 }
    requires below { k < front + back }
    ensures { plain_step result ≡ part_step (RowCtor (LongerShape front back)) k }
{
    if k < front {
        Step::Front(k)
    } else {
        Step::Back(front + back - k)
    }
}
