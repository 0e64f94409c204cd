// The pieces of a place that are gone through.
ghost use Rattle.std.specs.Prelude.{◌≡◌, map, true, false, IsTrue, IfOk};
ghost use Rattle.std.specs.List.{All, filter_map};
ghost use Rattle.match_model.specs.Pieces.{text_of};
ghost use Rattle.constructor_sets.specs.Columns.{plain_ctors, plain_piece, IsColumnSplit};
ghost use Rattle.constructor_sets.specs.Present.{is_sharp_head};
ghost use Rattle.pattern_matrix.specs.Columns.{plain_column};
ghost use Rattle.pattern_matrix.specs.Halving.{leaf_ctors};
ghost use Rattle.pattern_matrix.specs.Views.{plain_leaves};
ghost use Rattle.witnesses.specs.Views.{plain_names};
ghost use Rattle.witness_search.specs.Found.{as_present};

use constructor_sets::{Piece, PieceState};
use no_memory::NoMemory;
use pat_context::{Ctor, PatCx};
use pattern_matrix::{Column, Leaf, split_leaves};
use std::alloc::Global;

// The texts that the pieces name.
pub(crate) fn named_texts<'a>(alloc: Global, pieces: &[Piece<'a>]) -> Result<Vec<&'a str>, NoMemory>
    ensures { IfOk result (λ v. plain_names v.items ≡ filter_map text_of (map (λ p. p.0) (map plain_piece pieces.now))) }
{
    let mut all = Vec::new(alloc);
    for piece in pieces {
        if let Ctor::Text(text) = piece.ctor {
            all.push(text)?;
        }
    }
    Ok(all)
}

// The constructors as pieces that heads have.
fn present_only<'a>(alloc: Global, ctors: &[Ctor<'a>]) -> Result<Vec<Piece<'a>>, NoMemory>
    ensures { IfOk result (λ v. map plain_piece v.items ≡ as_present (plain_ctors ctors.now)) }
{
    let mut pieces = Vec::with_capacity(alloc, ctors.len())?;
    for ctor in ctors {
        pieces.push(Piece {
            ctor: *ctor,
            state: PieceState::Present,
        })?;
    }
    Ok(pieces)
}

// The pieces that heads have, or else all pieces of the column.
pub(crate) fn listed_pieces<'a, C: PatCx>(
    alloc: Global,
    cx: &C,
    column: &Column<C::Ty>,
    leaves: &[Leaf<'a, C::Ty>],
    ctors: &[Ctor<'a>],
    present: bool,
) -> Result<Vec<Piece<'a>>, NoMemory>
    requires ty { C.is_type cx.now column.now.ty }
    requires heads { All (λ h. IsTrue (is_sharp_head ((C.context cx.now).set_of column.now.ty) h)) (leaf_ctors (plain_leaves leaves.now)) }
    ensures present { IfOk result (λ v. present ≡ true → map plain_piece v.items ≡ as_present (plain_ctors ctors.now)) }
    ensures split { IfOk result (λ v. present ≡ false → IsColumnSplit (C.is_value cx.now) (C.context cx.now) (plain_column column.now)
        (leaf_ctors (plain_leaves leaves.now)) (map plain_piece v.items)) }
{
    if present {
        let pieces = present_only(alloc, ctors)?;
        Ok(pieces)
    } else {
        let pieces = split_leaves(alloc, cx, column, leaves)?;
        Ok(pieces)
    }
}
