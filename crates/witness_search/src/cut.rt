// The first open place cut into pieces.
ghost use Rattle.std.specs.Prelude.{◌≡◌, [], map, true, false, IfOk, OnOk};
ghost use Rattle.std.specs.List.{All};
ghost use Rattle.match_model.specs.WitnessList.{Witnesses};
ghost use Rattle.pat_context.specs.Views.{plain_ctor};
ghost use Rattle.constructor_sets.specs.Columns.{plain_ctors};
ghost use Rattle.constructor_sets.specs.Present.{ArePresent};
ghost use Rattle.constructor_sets.specs.Spans.{plain_span};
ghost use Rattle.pattern_matrix.specs.Columns.{plain_column};
ghost use Rattle.pattern_matrix.specs.Halving.{AreLeafSpans, leaf_ctors};
ghost use Rattle.pattern_matrix.specs.Parts.{IsFull, pieces_left, plain_spans};
ghost use Rattle.pattern_matrix.specs.Views.{plain_leaves};
ghost use Rattle.witnesses.specs.Views.{plain_stack};
ghost use Rattle.witness_search.specs.Bares.{wild_rests};
ghost use Rattle.witness_search.specs.Cuts.{IsCut, IsNext, IsLeft};
ghost use Rattle.witness_search.specs.Found.{ArePieceLeaves};
ghost use Rattle.witness_search.specs.Opened.{places_of};
ghost use Rattle.witness_search.specs.Wells.{apart_heads, IsTakenApart};

use crate::apart::Apart;
use crate::opened::Opened;
use crate::pieces::{listed_pieces, named_texts};
use constructor_sets::{Piece, PresentPieces, Span};
use no_memory::NoMemory;
use pat_context::{Ctor, PatCx};
use pattern_matrix::{Leaf, Part, into_leaf_spans, next_piece};
use std::alloc::Global;
use witnesses::Stack;

// The pieces of an open place.
#[derive(Drop)]
pub(crate) struct Cut<'a> {
    // Those that have a value and that some head has, in the order of constructors.
    pub(crate) ctors: Vec<Ctor<'a>>,
    // Which of them each leaf has.
    pub(crate) spans: Vec<Span>,
    // Those that are gone through: all, or the above alone where the others have no witnesses.
    pub(crate) pieces: Vec<Piece<'a>>,
    // The texts that these name.
    pub(crate) names: Vec<&'a str>,
    // Stacks for the other places, of the rows that are wild at this one; none where no piece is missing.
    pub(crate) behind: Vec<Stack>,
}

// Cuts the place into pieces, where these are present.
pub(crate) fn cut_pieces<'a, C: PatCx>(
    alloc: Global,
    cx: &C,
    e: &Apart<'a, C::Ty>,
    others: &Vec<Opened<C::Ty>>,
    found: PresentPieces<'a>,
    behind: Vec<Stack>,
) -> Result<Cut<'a>, NoMemory>
    requires apart { IsTakenApart (C.is_type cx.now) (C.context cx.now) others.now.items e.now }
    requires found { ArePresent (C.is_value cx.now) (C.context cx.now) (plain_column e.now.place.column) (leaf_ctors (plain_leaves e.now.leaves.items))
        (plain_ctors found.ctors.items) found.missing (plain_ctors found.gaps.items) (map plain_span found.spans.items) }
    requires missing { found.missing ≡ true → Witnesses (C.context cx.now) (C.is_value cx.now) (places_of others.now.items) (wild_rests (apart_heads others.now.items e.now)) (map plain_stack behind.items) }
    requires none { found.missing ≡ false → behind.items ≡ [] }
    ensures { IfOk result (λ c. IsCut (C.context cx.now) (C.is_value cx.now) others.now.items e.now c) }
{
    let none = behind.is_empty();
    let pieces = listed_pieces(alloc, cx, &e.place.column, &e.leaves, &found.ctors, none)?;
    let names = named_texts(alloc, &pieces)?;
    let PresentPieces { ctors, spans, .. } = found;
    let spans = into_leaf_spans(alloc, &ctors, &e.leaves, spans)?;
    Ok(Cut {
        ctors,
        spans,
        pieces,
        names,
        behind,
    })
}

// The leaves of the next piece that heads have, by their numbers.
pub(crate) fn leaves_of_next<'a, T: Copy>(
    alloc: Global,
    todo: &mut Vec<Part>,
    cut: &Cut<'a>,
    leaves: &[Leaf<'a, T>],
    ctor: &Ctor<'a>,
) -> Result<Vec<usize>, NoMemory>
    requires spans { AreLeafSpans (plain_ctors cut.now.ctors.items) (plain_leaves leaves.now) (plain_spans cut.now.spans.items) }
    requires left { IsNext (plain_ctors cut.now.ctors.items) (pieces_left todo.old.items) (plain_ctor ctor.now) }
    requires full { All (IsFull cut.now.spans.items) todo.old.items }
    ensures leaves { IfOk result (λ v. ArePieceLeaves (plain_ctor ctor.now) (plain_leaves leaves.now) v.items) }
    ensures left { OnOk result (IsLeft (pieces_left todo.old.items) (pieces_left todo.new.items)) }
    ensures full { OnOk result (All (IsFull cut.now.spans.items) todo.new.items) }
{
    let next = next_piece(alloc, todo, &cut.spans)?;
    match next {
        Some(piece) => Ok(piece.leaves),
        None => unreachable!(),
    }
}
