// Which rows have which pieces of a column.
ghost use Rattle.std.specs.Prelude.{◌≡◌, ◌<◌, ℕ, List, length, map, IfOk};
ghost use Rattle.std.specs.List.{All};
ghost use Rattle.match_model.specs.Lowering.{ctors_at};
ghost use Rattle.match_model.specs.Steps.{specialise_head};
ghost use Rattle.pat_context.specs.Views.{plain_ctor, plain_place};
ghost use Rattle.constructor_sets.specs.Columns.{plain_ctors};
ghost use Rattle.constructor_sets.specs.Spans.{plain_span, AreSpans};
ghost use Rattle.pattern_matrix.specs.Halving.{AreLeafSpans};
ghost use Rattle.pattern_matrix.specs.Parts.{plain_spans};
ghost use Rattle.pattern_matrix.specs.Views.{plain_leaf, plain_leaves};
ghost use Rattle.keyed_matrix.specs.Steps.{AreLonger};
ghost use Rattle.keyed_matrix.specs.Views.{plain_row, plain_rows};
ghost use Rattle.decision_tree.specs.Cuts.{column_leaf, column_leaves, mirrored, listed_at};

use constructor_sets::Span;
use keyed_matrix::{KeyedRow, add_piece_row, head_at};
use no_memory::NoMemory;
use pat_context::{Ctor, Step};
use pattern_matrix::{Chosen, Leaf, leaf_spans};
use std::alloc::Global;

// The head of the row in the column, as a leaf.
fn column_leaf<'a, T: Copy>(row: &KeyedRow<'a, T>, i: usize) -> Leaf<'a, T>
    requires { i < length (plain_row row.now).heads }
    ensures { plain_leaf result ≡ column_leaf i (plain_row row.now) }
{
    Leaf {
        row: 0,
        head: head_at(row, i),
        chosen: Chosen::Nothing,
    }
}

// The heads of the rows in the column, as leaves.
fn column_leaves<'a, T: Copy>(
    alloc: Global,
    rows: &[KeyedRow<'a, T>],
    i: usize,
) -> Result<Vec<Leaf<'a, T>>, NoMemory>
    requires { AreLonger i (plain_rows rows.now) }
    ensures { IfOk result (λ v. plain_leaves v.items ≡ column_leaves i (plain_rows rows.now)) }
{
    let mut leaves = Vec::with_capacity(alloc, rows.len())?;
    for row in rows {
        leaves.push(column_leaf(row, i))?;
    }
    Ok(leaves)
}

// The span, where pieces are counted from the last of so many to the first.
fn mirrored(span: &Span, count: usize) -> Span
    ensures { plain_span result ≡ mirrored count (plain_span span.now) }
{
    Span {
        first: count.saturating_sub(span.end),
        end: count.saturating_sub(span.first),
    }
}

// For each row which of the pieces it has, where the spans tell it of those whose head is no wildcard; in the spans that are
// given back the pieces are counted from the last to the first.
pub(crate) fn row_spans<'a, T: Copy>(
    alloc: Global,
    rows: &[KeyedRow<'a, T>],
    i: usize,
    pieces: &[Ctor<'a>],
    spans: &[Span],
) -> Result<Vec<Span>, NoMemory>
    requires longer { AreLonger i (plain_rows rows.now) }
    requires spans { AreSpans (plain_ctors pieces.now) (ctors_at i (plain_rows rows.now)) (plain_spans spans.now) }
    ensures { IfOk result (λ v. (forward : List (ℕ × ℕ))
        × AreLeafSpans (plain_ctors pieces.now) (column_leaves i (plain_rows rows.now)) forward
        × (plain_spans v.items ≡ map (mirrored (length (plain_ctors pieces.now))) forward)) }
{
    let leaves = column_leaves(alloc, rows, i)?;
    let found = leaf_spans(alloc, pieces, &leaves, spans)?;
    let all = mirrored_all(alloc, &found, pieces.len())?;
    Ok(all)
}

// The spans, where pieces are counted from the last of so many to the first.
fn mirrored_all(alloc: Global, spans: &[Span], count: usize) -> Result<Vec<Span>, NoMemory>
    ensures { IfOk result (λ v. plain_spans v.items ≡ map (mirrored count) (plain_spans spans.now)) }
{
    let mut all = Vec::with_capacity(alloc, spans.len())?;
    for span in spans {
        all.push(mirrored(span, count))?;
    }
    Ok(all)
}

// The rows of a piece of so many parts, of the rows with these numbers.
pub(crate) fn listed_rows<'a, T: Copy>(
    alloc: Global,
    rows: &[KeyedRow<'a, T>],
    numbers: &[usize],
    i: usize,
    place: &'a [Step],
    piece: &Ctor,
    count: usize,
) -> Result<Vec<KeyedRow<'a, T>>, NoMemory>
    requires longer { AreLonger i (plain_rows rows.now) }
    requires within { All (λ k. k < length rows.now) numbers.now }
    ensures { IfOk result (λ v. plain_rows v.items ≡ listed_at (specialise_head (plain_ctor piece.now) count)
        (plain_place place.now) i (plain_rows rows.now) numbers.now) }
{
    let mut all = Vec::with_capacity(alloc, numbers.len())?;
    for k in numbers {
        add_piece_row(alloc, &mut all, &rows[*k], i, place, piece, count)?;
    }
    Ok(all)
}
