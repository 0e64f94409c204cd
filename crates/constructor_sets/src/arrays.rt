// The piece of arrays, which have one length.
ghost use Rattle.std.specs.Prelude.{◌≡◌, ◌+◌, ◌||◌, cond, nat_le, IsTrue, IfOk, Some};
ghost use Rattle.std.specs.List.{All, list_any};
ghost use Rattle.match_model.specs.Constructors.{RowSet, RowCtor, FixedShape, LongerShape};
ghost use Rattle.match_model.specs.Pieces.{is_fixed, longest_front, longest_back};
ghost use Rattle.slice_split.specs.Shapes.{plain_shape};
ghost use Rattle.constructor_sets.specs.Columns.{is_head, plain_ctors, plain_flagged, IsSetSplit};

use crate::heads::is_written;
use no_memory::NoMemory;
use pat_context::Ctor;
use slice_split::Shape;
use std::alloc::Global;

// The piece of arrays of the length, with whether a head of the column that is no wildcard has it.
pub(crate) fn array<'a>(
    alloc: Global,
    len: u64,
    column: &[Ctor<'a>],
) -> Result<Vec<(Ctor<'a>, bool)>, NoMemory>
    ensures { IfOk result (λ v. IsSetSplit (RowSet (Some len)) (plain_ctors column.now) (plain_flagged v.items)) }
{
    let mut pieces = Vec::new(alloc);
    let piece = Ctor::Row(array_shape(len, named_ends(column)));
    let present = is_written(column, &piece);
    pieces.push((piece, present))?;
    Ok(pieces)
}

// What the rows of a column name: whether one says the length, and the longest front and the longest back of the others.
#[derive(Clone, Copy)]
struct Named {
    fixed: bool,
    front: u64,
    back: u64,
}

// Reads it off the column.
fn named_ends(column: &[Ctor]) -> Named
    ensures fixed { result.fixed ≡ list_any is_fixed (plain_ctors column.now) }
    ensures front { result.front ≡ longest_front (plain_ctors column.now) }
    ensures back { result.back ≡ longest_back (plain_ctors column.now) }
{
    let mut fixed = false;
    let mut longest_front = 0;
    let mut longest_back = 0;
    for head in column {
        match *head {
            Ctor::Row(Shape::Fixed(_)) => fixed = true,
            Ctor::Row(Shape::Longer { front, back }) => {
                longest_front = longest_front.max(front);
                longest_back = longest_back.max(back);
            }
            _ => (),
        }
    }
    Named {
        fixed,
        front: longest_front,
        back: longest_back,
    }
}

// The shape of the piece: by its ends where no head says the length and the ends do not meet.
fn array_shape(len: u64, named: Named) -> Shape
    ensures { RowCtor (plain_shape result) ≡ cond (named.fixed || nat_le len (named.front + named.back))
        (RowCtor (FixedShape len)) (RowCtor (LongerShape named.front named.back)) }
{
    if named.fixed || len as u128 <= named.front as u128 + named.back as u128 {
        Shape::Fixed(len)
    } else {
        Shape::Longer {
            front: named.front,
            back: named.back,
        }
    }
}
