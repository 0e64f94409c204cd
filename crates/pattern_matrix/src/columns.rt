// The columns of a piece's parts.
ghost use Rattle.std.specs.Prelude.{◌≡◌, ◌<◌, ◌++◌, IsTrue, IfOk, OnOk};
ghost use Rattle.match_model.specs.Constructors.{belongs};
ghost use Rattle.match_model.specs.Rows.{part_open, parts_open};
ghost use Rattle.pat_context.specs.Laws.{HasFewItems};
ghost use Rattle.pat_context.specs.Views.{plain_ctor};
ghost use Rattle.pattern_matrix.specs.Columns.{plain_column, plain_columns};

use crate::Column;
use no_memory::NoMemory;
use pat_context::{Ctor, PatCx, count_parts, part_type};

// The column of the part with the number.
fn part_column<C: PatCx>(cx: &C, column: &Column<C::Ty>, piece: &Ctor, i: usize) -> Column<C::Ty>
    requires ty { C.is_type cx.now column.now.ty }
    requires belongs { IsTrue (belongs ((C.context cx.now).set_of column.now.ty) (plain_ctor piece.now)) }
    requires below { i < (C.context cx.now).arity (plain_ctor piece.now) column.now.ty }
    ensures { plain_column result ≡ part_open (C.context cx.now) (plain_column column.now) (plain_ctor piece.now) i }
{
    Column {
        ty: part_type(cx, piece, column.ty, i),
        validity: column.validity.inside(piece),
    }
}

/// Opens the columns of the parts of a piece of the column, behind all that are open, and gives their number.
///
/// The column's type is one of the context's, the piece is of the type's set, and a row has at most 8,589,934,592 items
/// at its ends. The only error is want of memory; some of the columns may then be open.
#[tactic(auto, using(crate::proofs::PartColumns::more_columns))]
pub fn open_columns<C: PatCx>(
    cx: &C,
    columns: &mut Vec<Column<C::Ty>>,
    column: &Column<C::Ty>,
    piece: &Ctor,
) -> Result<usize, NoMemory>
    requires ty { C.is_type cx.now column.now.ty }
    requires belongs { IsTrue (belongs ((C.context cx.now).set_of column.now.ty) (plain_ctor piece.now)) }
    requires held { HasFewItems (plain_ctor piece.now) }
    ensures opened { OnOk result (plain_columns columns.new.items ≡ plain_columns columns.old.items
        ++ parts_open (C.context cx.now) (plain_column column.now) (plain_ctor piece.now)) }
    ensures count { IfOk result (λ n. n ≡ (C.context cx.now).arity (plain_ctor piece.now) column.now.ty) }
{
    let count = count_parts(cx, piece, column.ty);
    for i in 0..count {
        let part = part_column(cx, column, piece, i);
        columns.push(part)?;
    }
    Ok(count)
}
