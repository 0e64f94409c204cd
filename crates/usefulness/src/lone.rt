// Pieces of a column with few leaves of which one row alone matters, since it lists no head and has no guard. What it
// answers is marked at once, so nothing is left to look at.
ghost use Rattle.std.specs.Prelude.{◌≡◌, ◌<◌, ◌++◌, [], ◌&&◌, ◌||◌, true, false, length, map, Some, slice_get, IfOk, OnOk, IfSome};
ghost use Rattle.std.specs.List.{All};
ghost use Rattle.match_model.specs.Constructors.{MCtor};
ghost use Rattle.constructor_sets.specs.Columns.{plain_ctors};
ghost use Rattle.constructor_sets.specs.Spans.{plain_span};
ghost use Rattle.pattern_matrix.specs.ChosenLists.{kept_chosen};
ghost use Rattle.pattern_matrix.specs.Counting.{Question};
ghost use Rattle.pattern_matrix.specs.Halving.{AreLeafSpans, span_has};
ghost use Rattle.pattern_matrix.specs.Parts.{plain_spans};
ghost use Rattle.pattern_matrix.specs.Views.{plain_leaf};
ghost use Rattle.usefulness.specs.Cutting.{is_wanted_at, IsFirstWith};
ghost use Rattle.usefulness.specs.Listing.{AreAllListed, IsListedAs};
ghost use Rattle.usefulness.specs.Marking.{is_answer};
ghost use Rattle.usefulness.specs.States.{plain_asked, IsApart, IsEnterable, apart_leaves, piece_view, is_noted, scope_of};

use crate::cutting::{is_alternative, is_last, is_wanted};
use crate::frames::{Apart, Asked, Reached};
use constructor_sets::Span;
use no_memory::NoMemory;
use pat_context::{Ctor, PatCx};
use pattern_matrix::Leaf;

// In a column of so few leaves the first one that has a piece is looked for.
const FEW: usize = 8;

// Tells whether the span has the piece.
fn has(span: &Span, piece: usize) -> bool
    ensures { result ≡ span_has piece (Some (plain_span span.now)) }
{
    span.first <= piece && piece < span.end
}

// The number of the first span that has the piece.
fn first_with(spans: &[Span], piece: usize) -> Option<usize>
    ensures within { IfSome result (λ k. k < length spans.now) }
    ensures first { IfSome result (λ k. IsFirstWith (plain_spans spans.now) piece k) }
{
    for (i, span) in spans.iter().enumerate() {
        if has(span, piece) {
            return Some(i);
        }
    }
    None
}

// Marks what the leaf's row answers, where something new is looked for in it.
fn note_leaf<'a, T: Copy>(
    reached: &mut Reached<'a, T>,
    asked: &Asked<'a, T>,
    leaf: &Leaf<'a, T>,
    missing: bool,
) -> Result<(), NoMemory>
    requires { asked.now.row.arm < (scope_of reached.old).arms }
    ensures scope { scope_of reached.new ≡ scope_of reached.old }
    ensures noted { OnOk result ((q : Question) → is_noted reached.new q ≡ (is_noted reached.old q
        || (is_wanted_at missing (plain_asked asked.now) (plain_leaf leaf.now) && is_answer asked.now.row.arm (kept_chosen asked.now.row.chosen ++ kept_chosen leaf.now.chosen) q))) }
{
    if is_wanted(asked, leaf, missing) {
        let arm = asked.row.arm;
        reached.marks.mark(arm, asked.row.chosen.as_slice())?;
        if is_alternative(leaf) {
            reached.marks.mark(arm, leaf.chosen.as_slice())?;
        }
    }
    Ok(())
}

// Enters the piece with the number, where the row of the first leaf that has it stops all values there: what that answers is
// marked, and nothing is left. Tells whether it does.
fn enter_lone<'a, C: PatCx>(
    cx: &C,
    reached: &mut Reached<'a, C::Ty>,
    a: &Apart<'a, C::Ty>,
    pieces: &[Ctor<'a>],
    spans: &[Span],
    number: usize,
    missing: bool,
) -> Result<bool, NoMemory>
    requires apart { IsApart (scope_of reached.old) a.now }
    requires pieces { All (IsEnterable (C.is_value cx.now) (C.context cx.now) a.now) (plain_ctors pieces.now) }
    requires spans { AreLeafSpans (plain_ctors pieces.now) (apart_leaves a.now) (plain_spans spans.now) }
    ensures scope { scope_of reached.new ≡ scope_of reached.old }
    ensures none { IfOk result (λ b. b ≡ false → reached.new ≡ reached.old) }
    ensures listed { IfOk result (λ b. b ≡ true → (piece : MCtor) → slice_get (plain_ctors pieces.now) number ≡ Some piece
        → IsListedAs (C.is_value cx.now) (is_noted reached.old) (is_noted reached.new) (piece_view (C.context cx.now) a.now missing piece) []) }
{
    match first_with(spans, number) {
        None => Ok(false),
        Some(k) => {
            let leaf = &a.leaves[k];
            let asked = &a.rows[leaf.row];
            if !is_last(asked, leaf, a.taken.number) {
                return Ok(false);
            }
            note_leaf(reached, asked, leaf, missing)?;
            Ok(true)
        }
    }
}

// Enters the pieces, where the column has few leaves, one by one as long as one row alone matters. Tells whether nothing is
// left of any piece; else all of them are still to be entered.
pub(crate) fn enter_all<'a, C: PatCx>(
    cx: &C,
    reached: &mut Reached<'a, C::Ty>,
    a: &Apart<'a, C::Ty>,
    pieces: &[Ctor<'a>],
    spans: &[Span],
    missing: bool,
) -> Result<bool, NoMemory>
    requires apart { IsApart (scope_of reached.old) a.now }
    requires pieces { All (IsEnterable (C.is_value cx.now) (C.context cx.now) a.now) (plain_ctors pieces.now) }
    requires spans { AreLeafSpans (plain_ctors pieces.now) (apart_leaves a.now) (plain_spans spans.now) }
    ensures scope { OnOk result (scope_of reached.new ≡ scope_of reached.old) }
    ensures all { IfOk result (λ b. b ≡ true → AreAllListed (C.is_value cx.now) (is_noted reached.old) (is_noted reached.new)
        (map (piece_view (C.context cx.now) a.now missing) (plain_ctors pieces.now)) []) }
    ensures left { IfOk result (λ b. b ≡ false → AreAllListed (C.is_value cx.now) (is_noted reached.old) (is_noted reached.new)
        (map (piece_view (C.context cx.now) a.now missing) (plain_ctors pieces.now)) (map (piece_view (C.context cx.now) a.now missing) (plain_ctors pieces.now))) }
{
    if spans.len() > FEW {
        return Ok(false);
    }
    for i in 0..pieces.len() {
        let lone = enter_lone(cx, reached, a, pieces, spans, i, missing)?;
        if !lone {
            return Ok(false);
        }
    }
    Ok(true)
}
