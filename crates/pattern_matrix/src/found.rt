// The pieces of a column by what stands in its leaves.
ghost use Rattle.std.specs.Prelude.{◌≡◌, ◌<◌, [], map, length, true, false, IsTrue, IfOk, Some, slice_get};
ghost use Rattle.std.specs.List.{All, list_all};
ghost use Rattle.match_model.specs.Rows.{is_wild};
ghost use Rattle.constructor_sets.specs.Columns.{plain_ctors, plain_piece, IsColumnSplit};
ghost use Rattle.constructor_sets.specs.Present.{ArePresent, is_sharp_head};
ghost use Rattle.constructor_sets.specs.Spans.{plain_span};
ghost use Rattle.pattern_matrix.specs.Columns.{plain_column};
ghost use Rattle.pattern_matrix.specs.Halving.{leaf_ctors};
ghost use Rattle.pattern_matrix.specs.Parts.{plain_spans};
ghost use Rattle.pattern_matrix.specs.Views.{plain_leaves};

use crate::distinct::{MANY, distinct_ctors};
use crate::opening::is_wild_leaf;
use crate::spans::leaf_ctors;
use crate::{Column, Leaf};
use constructor_sets::{Piece, PresentPieces, Span, present, split_column};
use no_memory::NoMemory;
use pat_context::PatCx;
use std::alloc::Global;

/// Tells whether all leaves are wildcards, so that none has a constructor.
pub fn are_wild<'a, T: Copy>(leaves: &[Leaf<'a, T>]) -> bool
    ensures none { result ≡ true → leaf_ctors (plain_leaves leaves.now) ≡ [] }
    ensures some { result ≡ false → 0 < length (leaf_ctors (plain_leaves leaves.now)) }
{
    all_wild(leaves)
}

// The same, by the leaves.
fn all_wild<'a, T: Copy>(leaves: &[Leaf<'a, T>]) -> bool
    ensures { result ≡ list_all (λ l. is_wild l.head) (plain_leaves leaves.now) }
{
    for leaf in leaves {
        if !is_wild_leaf(leaf.head) {
            return false;
        }
    }
    true
}

// The spans with these numbers.
fn spans_at(alloc: Global, spans: &[Span], numbers: &[u32]) -> Result<Vec<Span>, NoMemory>
    requires { All (λ k. k < length spans.now) numbers.now }
    ensures { IfOk result (λ v. map Some (plain_spans v.items) ≡ map (slice_get (plain_spans spans.now)) numbers.now) }
{
    let mut all = Vec::with_capacity(alloc, numbers.len())?;
    for k in numbers {
        all.push(spans[*k as usize])?;
    }
    Ok(all)
}

/// What is found of the constructors of the leaves, as `present` finds it of a list of them: the pieces that they have, for
/// each of them which of these it has, and what they leave out. Among very many leaves a constructor that stands near the
/// same one costs no more than its span.
///
/// The column's type is one of the context's, and each constructor of a leaf is one of the type's set that a pattern can
/// have. The only error is want of memory.
pub fn leaf_pieces<'a, C: PatCx>(
    alloc: Global,
    cx: &C,
    column: &Column<C::Ty>,
    leaves: &[Leaf<'a, C::Ty>],
) -> Result<PresentPieces<'a>, NoMemory>
    requires ty { C.is_type cx.now column.now.ty }
    requires heads { All (λ h. IsTrue (is_sharp_head ((C.context cx.now).set_of column.now.ty) h)) (leaf_ctors (plain_leaves leaves.now)) }
    ensures { IfOk result (λ p. ArePresent (C.is_value cx.now) (C.context cx.now) (plain_column column.now) (leaf_ctors (plain_leaves leaves.now))
        (plain_ctors p.ctors.items) p.missing (plain_ctors p.gaps.items) (map plain_span p.spans.items)) }
{
    if leaves.len() < MANY {
        pieces_of_few(alloc, cx, column, leaves)
    } else {
        pieces_of_many(alloc, cx, column, leaves)
    }
}

// The same, by a list of all constructors.
fn pieces_of_few<'a, C: PatCx>(
    alloc: Global,
    cx: &C,
    column: &Column<C::Ty>,
    leaves: &[Leaf<'a, C::Ty>],
) -> Result<PresentPieces<'a>, NoMemory>
    requires ty { C.is_type cx.now column.now.ty }
    requires heads { All (λ h. IsTrue (is_sharp_head ((C.context cx.now).set_of column.now.ty) h)) (leaf_ctors (plain_leaves leaves.now)) }
    ensures { IfOk result (λ p. ArePresent (C.is_value cx.now) (C.context cx.now) (plain_column column.now) (leaf_ctors (plain_leaves leaves.now))
        (plain_ctors p.ctors.items) p.missing (plain_ctors p.gaps.items) (map plain_span p.spans.items)) }
{
    let heads = leaf_ctors(alloc, leaves)?;
    present(alloc, cx, column.ty, column.validity, &heads)
}

// The same, by a list from which a constructor that stands near the same one is left out.
fn pieces_of_many<'a, C: PatCx>(
    alloc: Global,
    cx: &C,
    column: &Column<C::Ty>,
    leaves: &[Leaf<'a, C::Ty>],
) -> Result<PresentPieces<'a>, NoMemory>
    requires ty { C.is_type cx.now column.now.ty }
    requires heads { All (λ h. IsTrue (is_sharp_head ((C.context cx.now).set_of column.now.ty) h)) (leaf_ctors (plain_leaves leaves.now)) }
    ensures { IfOk result (λ p. ArePresent (C.is_value cx.now) (C.context cx.now) (plain_column column.now) (leaf_ctors (plain_leaves leaves.now))
        (plain_ctors p.ctors.items) p.missing (plain_ctors p.gaps.items) (map plain_span p.spans.items)) }
{
    let heads = distinct_ctors(alloc, leaves)?;
    let found = present(alloc, cx, column.ty, column.validity, &heads.ctors)?;
    let spans = spans_at(alloc, &found.spans, &heads.numbers)?;
    Ok(PresentPieces {
        ctors: found.ctors,
        missing: found.missing,
        gaps: found.gaps,
        spans,
    })
}

/// The pieces into which the constructors of the leaves cut the column, as `split_column` finds them of a list of these.
///
/// The same is required as of `leaf_pieces`. The only error is want of memory.
pub fn split_leaves<'a, C: PatCx>(
    alloc: Global,
    cx: &C,
    column: &Column<C::Ty>,
    leaves: &[Leaf<'a, C::Ty>],
) -> Result<Vec<Piece<'a>>, NoMemory>
    requires ty { C.is_type cx.now column.now.ty }
    requires heads { All (λ h. IsTrue (is_sharp_head ((C.context cx.now).set_of column.now.ty) h)) (leaf_ctors (plain_leaves leaves.now)) }
    ensures { IfOk result (λ v. IsColumnSplit (C.is_value cx.now) (C.context cx.now) (plain_column column.now) (leaf_ctors (plain_leaves leaves.now))
        (map plain_piece v.items)) }
{
    let heads = distinct_ctors(alloc, leaves)?;
    let split = split_column(alloc, cx, column.ty, column.validity, &heads.ctors)?;
    Ok(split.pieces)
}
