// The steps of a matrix at a column, after each of which the rows are in order. Rows that a step keeps are in order
// still; only rows whose or-patterns are taken apart are sorted.
ghost use Rattle.std.specs.Prelude.{◌<◌, ℕ, List, length, IfOk};
ghost use Rattle.std.specs.List.{All};
ghost use Rattle.match_model.specs.Places.{MStep};
ghost use Rattle.match_model.specs.Steps.{specialise_head, rows_at};
ghost use Rattle.pat_context.specs.Views.{plain_ctor};
ghost use Rattle.keyed_matrix.specs.Deciding.{table_decides};
ghost use Rattle.keyed_matrix.specs.Views.{plain_rows};
ghost use Rattle.decision_tree.specs.Cuts.{listed_at};
ghost use Rattle.decision_tree.specs.Fronts.{IsFront};
ghost use Rattle.decision_tree.specs.Matrices.{matrix_rows, IsGoodMatrix, IsReadyMatrix, IsPieceAt, ArePieceRows};
ghost use Rattle.decision_tree.specs.Matrices.{IsExpanded, IsDropped, IsEntered};

use crate::frames::Matrix;
use crate::having::listed_rows;
use bumpalo::Bump;
use keyed_matrix::{
    Decisions, KeyedRow, are_apart, dropped_columns, dropped_rows, in_order, into_dropped_rows,
    into_expanded_rows, into_piece_rows, piece_columns, piece_rows,
};
use no_memory::NoMemory;
use pat_context::{Ctor, PatCx, count_parts};
use std::alloc::Global;

// The rows with the or-patterns of the column taken apart.
pub(crate) fn expanded<'a, C: PatCx>(
    alloc: Global,
    cx: &C,
    decisions: &Decisions,
    m: Matrix<'a, C::Ty>,
    i: usize,
) -> Result<Matrix<'a, C::Ty>, NoMemory>
    requires within { i < length m.columns.items }
    requires good { IsGoodMatrix (C.is_type cx.now) (C.context cx.now) (table_decides decisions.now) m }
    ensures expanded { IfOk result (λ e. IsExpanded (table_decides decisions.now) i m.entry e) }
    ensures ready { IfOk result (λ e. IsReadyMatrix (C.is_type cx.now) (C.context cx.now)
        (table_decides decisions.now) i e) }
{
    if are_apart(&m.rows, i) {
        return Ok(m);
    }
    let Matrix { columns, rows } = m;
    let place = columns[i].place;
    let rows = into_expanded_rows(alloc, rows, i, place)?;
    let rows = in_order(alloc, decisions, rows)?;
    Ok(Matrix { columns, rows })
}

// The rows that are wild at the column, over the other columns.
pub(crate) fn dropped<'a, C: PatCx>(
    alloc: Global,
    cx: &C,
    decisions: &Decisions,
    m: &Matrix<'a, C::Ty>,
    i: usize,
) -> Result<Matrix<'a, C::Ty>, NoMemory>
    requires within { i < length m.now.columns.items }
    requires ready { IsReadyMatrix (C.is_type cx.now) (C.context cx.now) (table_decides decisions.now) i m.now }
    ensures dropped { IfOk result (λ e. IsDropped (table_decides decisions.now) i m.now e) }
    ensures good { IfOk result (λ e. IsGoodMatrix (C.is_type cx.now) (C.context cx.now)
        (table_decides decisions.now) e) }
{
    let rows = dropped_rows(alloc, &m.rows, i, m.columns[i].place)?;
    let columns = dropped_columns(alloc, &m.columns, i)?;
    Ok(Matrix { columns, rows })
}

// The same, of a matrix that nothing else needs: its rows are taken over.
pub(crate) fn into_dropped<'a, C: PatCx>(
    alloc: Global,
    cx: &C,
    decisions: &Decisions,
    m: Matrix<'a, C::Ty>,
    i: usize,
) -> Result<Matrix<'a, C::Ty>, NoMemory>
    requires within { i < length m.columns.items }
    requires ready { IsReadyMatrix (C.is_type cx.now) (C.context cx.now) (table_decides decisions.now) i m }
    ensures dropped { IfOk result (λ e. IsDropped (table_decides decisions.now) i m.entry e) }
    ensures good { IfOk result (λ e. IsGoodMatrix (C.is_type cx.now) (C.context cx.now)
        (table_decides decisions.now) e) }
{
    let Matrix { columns, rows } = m;
    let place = columns[i].place;
    let rows = into_dropped_rows(alloc, rows, i, place)?;
    let columns = dropped_columns(alloc, &columns, i)?;
    Ok(Matrix { columns, rows })
}

// The rows of the piece, over the columns of its parts and the others.
pub(crate) fn entered<'a, C: PatCx>(
    alloc: Global,
    arena: &'a Bump<Global>,
    cx: &C,
    decisions: &Decisions,
    m: &Matrix<'a, C::Ty>,
    i: usize,
    piece: &Ctor,
) -> Result<Matrix<'a, C::Ty>, NoMemory>
    requires within { i < length m.now.columns.items }
    requires ready { IsReadyMatrix (C.is_type cx.now) (C.context cx.now) (table_decides decisions.now) i m.now }
    requires piece { IsPieceAt (C.context cx.now) i m.now (plain_ctor piece.now) }
    ensures entered { IfOk result (λ e. IsEntered (C.context cx.now) (table_decides decisions.now) i
        m.now (plain_ctor piece.now) e) }
    ensures good { IfOk result (λ e. IsGoodMatrix (C.is_type cx.now) (C.context cx.now)
        (table_decides decisions.now) e) }
{
    let column = &m.columns[i];
    let count = count_parts(cx, piece, column.ty);
    let rows = piece_rows(alloc, &m.rows, i, column.place, piece, count)?;
    over_parts(alloc, arena, cx, decisions, m, i, piece, rows)
}

// The same, of a matrix that nothing else needs: its rows are taken over.
pub(crate) fn into_entered<'a, C: PatCx>(
    alloc: Global,
    arena: &'a Bump<Global>,
    cx: &C,
    decisions: &Decisions,
    m: Matrix<'a, C::Ty>,
    i: usize,
    piece: &Ctor,
) -> Result<Matrix<'a, C::Ty>, NoMemory>
    requires within { i < length m.columns.items }
    requires ready { IsReadyMatrix (C.is_type cx.now) (C.context cx.now) (table_decides decisions.now) i m }
    requires piece { IsPieceAt (C.context cx.now) i m (plain_ctor piece.now) }
    ensures entered { IfOk result (λ e. IsEntered (C.context cx.now) (table_decides decisions.now) i
        m.entry (plain_ctor piece.now) e) }
    ensures good { IfOk result (λ e. IsGoodMatrix (C.is_type cx.now) (C.context cx.now)
        (table_decides decisions.now) e) }
{
    let Matrix { columns, rows } = m;
    let column = &columns[i];
    let count = count_parts(cx, piece, column.ty);
    let rows = into_piece_rows(alloc, rows, i, column.place, piece, count)?;
    let columns = piece_columns(alloc, arena, cx, &columns, i, column, piece)?;
    Ok(Matrix { columns, rows })
}

// The same, of the rows with these numbers alone. Either each row that has the piece is among them, or of these rows the first
// alone is, and it is taken, so that no rule looks at the others.
pub(crate) fn entered_among<'a, C: PatCx>(
    alloc: Global,
    arena: &'a Bump<Global>,
    cx: &C,
    decisions: &Decisions,
    m: &Matrix<'a, C::Ty>,
    i: usize,
    piece: &Ctor,
    numbers: &[usize],
) -> Result<Matrix<'a, C::Ty>, NoMemory>
    requires within { i < length m.now.columns.items }
    requires ready { IsReadyMatrix (C.is_type cx.now) (C.context cx.now) (table_decides decisions.now) i m.now }
    requires piece { IsPieceAt (C.context cx.now) i m.now (plain_ctor piece.now) }
    requires numbers { All (λ k. k < length m.now.rows.items) numbers.now }
    requires whole { (n : ℕ) (place : List MStep) →
        IsFront (listed_at (specialise_head (plain_ctor piece.now) n) place i (matrix_rows m.now) numbers.now)
        (rows_at (specialise_head (plain_ctor piece.now) n) place i (matrix_rows m.now)) }
    ensures entered { IfOk result (λ e. IsEntered (C.context cx.now) (table_decides decisions.now) i
        m.now (plain_ctor piece.now) e) }
    ensures good { IfOk result (λ e. IsGoodMatrix (C.is_type cx.now) (C.context cx.now)
        (table_decides decisions.now) e) }
{
    let column = &m.columns[i];
    let count = count_parts(cx, piece, column.ty);
    let rows = listed_rows(alloc, &m.rows, numbers, i, column.place, piece, count)?;
    over_parts(alloc, arena, cx, decisions, m, i, piece, rows)
}

// These rows of the piece, over the columns of its parts and the others.
fn over_parts<'a, C: PatCx>(
    alloc: Global,
    arena: &'a Bump<Global>,
    cx: &C,
    decisions: &Decisions,
    m: &Matrix<'a, C::Ty>,
    i: usize,
    piece: &Ctor,
    rows: Vec<KeyedRow<'a, C::Ty>>,
) -> Result<Matrix<'a, C::Ty>, NoMemory>
    requires within { i < length m.now.columns.items }
    requires ready { IsReadyMatrix (C.is_type cx.now) (C.context cx.now) (table_decides decisions.now) i m.now }
    requires piece { IsPieceAt (C.context cx.now) i m.now (plain_ctor piece.now) }
    requires rows { ArePieceRows (C.context cx.now) i m.now (plain_ctor piece.now) (plain_rows rows.items) }
    ensures entered { IfOk result (λ e. IsEntered (C.context cx.now) (table_decides decisions.now) i
        m.now (plain_ctor piece.now) e) }
    ensures good { IfOk result (λ e. IsGoodMatrix (C.is_type cx.now) (C.context cx.now)
        (table_decides decisions.now) e) }
{
    let column = &m.columns[i];
    let columns = piece_columns(alloc, arena, cx, &m.columns, i, column, piece)?;
    Ok(Matrix { columns, rows })
}
