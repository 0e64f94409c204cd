// The leaves that matter of each piece of a column, found by halving the range of pieces. On the way there each half is
// rid of leaves that bring nothing new in any of its pieces, and of those behind one that stops all values in all of
// them.
ghost use Rattle.std.specs.Prelude.{◌≡◌, ◌<◌, ◌+◌, ◌++◌, ◌∷◌, ◌&&◌, ◌||◌, not, nat_eq, nat_le, nat_lt, [], List, ℕ, true, false, length, Some, slice_get, IfOk, OnOk, IfSome, IfNone};
ghost use Rattle.std.specs.List.{All, list_all};
ghost use Rattle.constructor_sets.specs.Spans.{plain_span};
ghost use Rattle.pattern_arena.specs.Trees.{placed_subs};
ghost use Rattle.pattern_matrix.specs.Sparse.{leaves_listed, without};
ghost use Rattle.usefulness.specs.Done.{are_marked, choices_within};
ghost use Rattle.pattern_matrix.specs.ChosenLists.{kept_chosen};
ghost use Rattle.pattern_matrix.specs.Halving.{span_has, span_meets, leaves_with};
ghost use Rattle.pattern_matrix.specs.Parts.{plain_spans, pieces_in};
ghost use Rattle.pattern_matrix.specs.Views.{plain_heads, plain_row, plain_leaf, plain_pattern};
ghost use Rattle.usefulness.specs.Marking.{is_marked};
ghost use Rattle.usefulness.specs.States.{plain_asked, IsApart, apart_leaves, is_noted, scope_of};
ghost use Rattle.usefulness.specs.Cutting.{writes_parts, is_bare_at, is_wanted_at, is_marked_at, is_idle_at, is_last_at, is_settled_head, is_over_at, AreEnough, IsCutPart, IsCutSoFar, EndsWhole, IsOver, IsTrimmed, IsCutWhole, IsHalved, parts_left, cut_work, IsCutOff};

use crate::Marks;
use crate::done::{are_marked, is_settled};
use crate::frames::{Apart, Asked, Reached};
use constructor_sets::Span;
use no_memory::NoMemory;
use pattern_arena::DePat;
use pattern_matrix::{Head, Leaf, Marked, Part, PieceLeaves, Row, is_wild_leaf};
use std::alloc::Global;

// Tells whether the pattern has patterns below it.
fn has_parts<'a, T: Copy>(p: &'a DePat<'a, T>) -> bool
    ensures { result ≡ nat_lt 0 (length (placed_subs p.now)) }
{
    p.form.subs.len() > 0
}

// Tells whether the head writes some part.
fn writes_parts<'a, T: Copy>(head: Option<&'a DePat<'a, T>>) -> bool
    ensures { result ≡ writes_parts (plain_pattern head.entry) }
{
    match head {
        None => false,
        Some(p) => has_parts(p),
    }
}

// Tells whether all heads of the row stand at the column.
fn stands_alone<'a, T: Copy>(heads: &[Head<'a, T>], column: usize) -> bool
    ensures { result ≡ list_all (λ h. nat_eq h.0 column) (plain_heads heads.now) }
{
    for head in heads {
        if head.column != column {
            return false;
        }
    }
    true
}

// Tells whether the row lists no head, whatever piece is entered.
fn is_bare<'a, T: Copy>(row: &Row<'a, T>, leaf: &Leaf<'a, T>, column: usize) -> bool
    ensures { result ≡ is_bare_at column (plain_row row.now) (plain_leaf leaf.now) }
{
    !writes_parts(leaf.head) && stands_alone(row.heads.as_slice(), column)
}

// Tells whether something new is looked for in the leaf's row.
pub(crate) fn is_wanted<'a, T: Copy>(
    asked: &Asked<'a, T>,
    leaf: &Leaf<'a, T>,
    missing: bool,
) -> bool
    ensures { result ≡ is_wanted_at missing (plain_asked asked.now) (plain_leaf leaf.now) }
{
    let wild = is_wild_leaf(leaf.head);
    asked.wanted && !(missing && wild)
}

// Tells whether the row's arm is marked, and what was chosen for it and for the leaf.
fn is_marked<'a, T: Copy>(marks: &Marks, row: &Row<'a, T>, leaf: &Leaf<'a, T>) -> bool
    ensures { result ≡ is_marked_at (is_marked marks.now) (plain_row row.now) (plain_leaf leaf.now) }
{
    marks.has_arm(row.arm)
        && are_marked(marks, row.arm, row.chosen.as_slice())
        && are_marked(marks, row.arm, leaf.chosen.as_slice())
}

// Tells whether the leaf brings nothing new in any piece, and stops nothing.
fn is_idle<'a, T: Copy>(
    marks: &Marks,
    asked: &Asked<'a, T>,
    leaf: &Leaf<'a, T>,
    column: usize,
    missing: bool,
) -> bool
    ensures { result ≡ is_idle_at (is_marked marks.now) missing column (plain_asked asked.now) (plain_leaf leaf.now) }
{
    asked.row.guarded
        && is_bare(&asked.row, leaf, column)
        && (!is_wanted(asked, leaf, missing) || is_marked(marks, &asked.row, leaf))
}

// Tells whether the leaf stops all values in each piece that it has.
pub(crate) fn is_last<'a, T: Copy>(asked: &Asked<'a, T>, leaf: &Leaf<'a, T>, column: usize) -> bool
    ensures { result ≡ is_last_at column (plain_asked asked.now) (plain_leaf leaf.now) }
{
    !asked.row.guarded && is_bare(&asked.row, leaf, column)
}

// Tells whether the span has a piece from the first to before the end.
fn meets(span: &Span, first: usize, end: usize) -> bool
    ensures { result ≡ span_meets first end (Some (plain_span span.now)) }
{
    span.first < end && first < span.end
}

// Tells whether the span has all pieces from the first to before the end.
pub(crate) fn covers(span: &Span, first: usize, end: usize) -> bool
    ensures { result ≡ (nat_le span.now.first first && nat_le end span.now.end) }
{
    span.first <= first && end <= span.end
}

// Tells whether the leaf is of the row with the number, writes no part, and has all pieces of the part.
fn is_whole<'a, T: Copy>(leaf: &Leaf<'a, T>, span: &Span, part: &Part, row: usize) -> bool
    ensures { result ≡ (nat_eq leaf.now.row row && (not (writes_parts (plain_leaf leaf.now).head) && (nat_le span.now.first part.now.first && nat_le part.now.end span.now.end))) }
{
    leaf.row == row && !writes_parts(leaf.head) && covers(span, part.first, part.end)
}

// Tells whether the leaf is one of several alternatives of its row.
pub(crate) fn is_alternative<'a, T: Copy>(leaf: &Leaf<'a, T>) -> bool
    ensures { result ≡ nat_lt 0 (length (kept_chosen leaf.now.chosen)) }
{
    leaf.chosen.len() > 0
}

// Tells whether the leaf of the row comes again: the row has no guard, and the leaf that was kept last takes whatever this
// one takes in the part, since it is of the same row, writes no part, and has all pieces of the part.
fn is_repeated<'a, T: Copy>(
    a: &Apart<'a, T>,
    spans: &[Span],
    part: &Part,
    asked: &Asked<'a, T>,
    leaf: &Leaf<'a, T>,
    kept: &[usize],
) -> bool
    requires spans { length spans.now ≡ length a.now.leaves.items }
    requires within { All (λ k. k < length spans.now) kept.now }
    ensures guarded { result ≡ true → asked.now.row.guarded ≡ false }
    ensures whole { result ≡ true → EndsWhole a.now spans.now part.now.first part.now.end leaf.now.row kept.now }
{
    if !is_alternative(leaf) {
        return false;
    }
    if asked.row.guarded || kept.is_empty() {
        return false;
    }
    let last = kept[kept.len() - 1];
    is_whole(&a.leaves[last], &spans[last], part, leaf.row)
}

// Keeps the leaf with the number, where it has a piece of the part, is not idle and does not come again. Tells whether it
// stops all values in each piece of the part.
fn cut_one<'a, T: Copy>(
    reached: &Reached<'a, T>,
    a: &Apart<'a, T>,
    spans: &[Span],
    part: &Part,
    number: usize,
    missing: bool,
    kept: &mut Vec<usize>,
) -> Result<bool, NoMemory>
    requires apart { IsApart (scope_of reached.now) a.now }
    requires spans { length spans.now ≡ length a.now.leaves.items }
    requires within { number < length spans.now }
    requires kept { All (λ k. k < length spans.now) kept.old.items }
    ensures more { IfOk result (λ last. last ≡ false → (seen : List ℕ) → IsCutSoFar (is_noted reached.now) missing a.now spans.now part.now.first part.now.end seen kept.old.items
        → IsCutSoFar (is_noted reached.now) missing a.now spans.now part.now.first part.now.end (seen ++ number ∷ []) kept.new.items) }
    ensures last { IfOk result (λ last. last ≡ true → (seen rest : List ℕ) → IsCutSoFar (is_noted reached.now) missing a.now spans.now part.now.first part.now.end seen kept.old.items
        → IsCutSoFar (is_noted reached.now) missing a.now spans.now part.now.first part.now.end (seen ++ number ∷ rest) kept.new.items) }
{
    let span = &spans[number];
    if !meets(span, part.first, part.end) {
        return Ok(false);
    }
    let leaf = &a.leaves[number];
    let asked = &a.rows[leaf.row];
    if is_idle(&reached.marks, asked, leaf, a.taken.number, missing) {
        return Ok(false);
    }
    if is_repeated(a, spans, part, asked, leaf, kept.as_slice()) {
        return Ok(false);
    }
    kept.push(number)?;
    if !covers(span, part.first, part.end) {
        return Ok(false);
    }
    Ok(is_last(asked, leaf, a.taken.number))
}

// Of the part's leaves those that are enough for each of its pieces.
fn cut<'a, T: Copy>(
    alloc: Global,
    reached: &Reached<'a, T>,
    a: &Apart<'a, T>,
    spans: &[Span],
    part: &Part,
    missing: bool,
) -> Result<Vec<usize>, NoMemory>
    requires apart { IsApart (scope_of reached.now) a.now }
    requires spans { length spans.now ≡ length a.now.leaves.items }
    requires within { All (λ k. k < length spans.now) part.now.leaves.items }
    ensures { IfOk result (λ v. IsCutSoFar (is_noted reached.now) missing a.now spans.now part.now.first part.now.end part.now.leaves.items v.items) }
{
    let mut kept = Vec::with_capacity(alloc, part.leaves.len())?;
    for k in &part.leaves {
        let last = cut_one(reached, a, spans, part, *k, missing, &mut kept)?;
        if last {
            return Ok(kept);
        }
    }
    Ok(kept)
}

// Tells whether all alternatives in the head are marked for the arm.
fn is_settled_head<'a, T: Copy>(marks: &Marks, arm: u32, head: Option<&'a DePat<'a, T>>) -> bool
    ensures { result ≡ is_settled_head (is_marked marks.now) arm (plain_pattern head.entry) }
{
    match head {
        None => true,
        Some(p) => is_settled(marks, arm, p),
    }
}

// Tells whether all alternatives in the heads but those at the column are marked for the arm.
fn are_settled_beside<'a, T: Copy>(
    marks: &Marks,
    arm: u32,
    heads: &[Head<'a, T>],
    column: usize,
) -> bool
    ensures { result ≡ list_all (λ h. are_marked (is_marked marks.now) arm (choices_within h.1)) (without column (plain_heads heads.now)) }
{
    for head in heads {
        if head.column != column && !is_settled(marks, arm, head.pat) {
            return false;
        }
    }
    true
}

// Tells whether the leaf, at the column with the number, brings nothing new in any piece.
fn is_over<'a, T: Copy>(
    marks: &Marks,
    asked: &Asked<'a, T>,
    leaf: &Leaf<'a, T>,
    column: usize,
    missing: bool,
) -> bool
    ensures { result ≡ is_over_at (is_marked marks.now) missing column (plain_asked asked.now) (plain_leaf leaf.now) }
{
    !is_wanted(asked, leaf, missing)
        || (is_marked(marks, &asked.row, leaf)
            && is_settled_head(marks, asked.row.arm, leaf.head)
            && are_settled_beside(marks, asked.row.arm, asked.row.heads.as_slice(), column))
}

// Tells whether the leaf with the number brings nothing new in any piece.
fn is_over_leaf<'a, T: Copy>(
    reached: &Reached<'a, T>,
    a: &Apart<'a, T>,
    number: usize,
    missing: bool,
) -> bool
    requires apart { IsApart (scope_of reached.now) a.now }
    requires within { number < length a.now.leaves.items }
    ensures { result ≡ true → IsOver (is_noted reached.now) missing a.now number }
{
    let leaf = &a.leaves[number];
    is_over(
        &reached.marks,
        &a.rows[leaf.row],
        leaf,
        a.taken.number,
        missing,
    )
}

// Leaves out numbers from the end whose leaves bring nothing new: nothing behind the last one that does matters.
fn trim<'a, T: Copy>(
    reached: &Reached<'a, T>,
    a: &Apart<'a, T>,
    missing: bool,
    kept: &mut Vec<usize>,
) -> Result<(), NoMemory>
    requires apart { IsApart (scope_of reached.now) a.now }
    requires within { All (λ k. k < length a.now.leaves.items) kept.old.items }
    ensures { OnOk result (IsTrimmed (is_noted reached.now) missing a.now kept.old.items kept.new.items) }
{
    while let Some(number) = kept.pop() {
        if !is_over_leaf(reached, a, number, missing) {
            kept.push(number)?;
            return Ok(());
        }
    }
    Ok(())
}

// Of the part's leaves those that are enough for each of its pieces, none behind the last one that brings something new.
fn cut_whole<'a, T: Copy>(
    alloc: Global,
    reached: &Reached<'a, T>,
    a: &Apart<'a, T>,
    spans: &[Span],
    part: &Part,
    missing: bool,
) -> Result<Vec<usize>, NoMemory>
    requires apart { IsApart (scope_of reached.now) a.now }
    requires spans { length spans.now ≡ length a.now.leaves.items }
    requires part { IsCutPart (is_noted reached.now) missing a.now spans.now part.now }
    ensures { IfOk result (λ v. IsCutWhole (is_noted reached.now) missing a.now spans.now part.now.first part.now.end v.items) }
{
    let mut kept = cut(alloc, reached, a, spans, part, missing)?;
    trim(reached, a, missing, &mut kept)?;
    Ok(kept)
}

// Adds both halves of the range of pieces, each with these leaves. The second one is looked at first.
fn add_halves(
    alloc: Global,
    todo: &mut Vec<Part>,
    first: usize,
    end: usize,
    leaves: Vec<usize>,
) -> Result<(), NoMemory>
    requires several { first + 1 < end }
    ensures { OnOk result (IsHalved first end leaves.items todo.old.items todo.new.items) }
{
    let middle = first + (end - first) / 2;
    let others = Vec::from_slice(alloc, &leaves)?;
    todo.push(Part {
        first,
        end: middle,
        leaves: others,
    })?;
    todo.push(Part {
        first: middle,
        end,
        leaves,
    })?;
    Ok(())
}

// The piece of the part with its leaves, where it has but one. Else both halves are added to what is left to do. Nothing is
// done where nothing new comes of any piece.
fn cut_part<'a, T: Copy>(
    alloc: Global,
    todo: &mut Vec<Part>,
    reached: &Reached<'a, T>,
    a: &Apart<'a, T>,
    spans: &[Span],
    part: Part,
    missing: bool,
) -> Result<Option<PieceLeaves>, NoMemory>
    requires apart { IsApart (scope_of reached.now) a.now }
    requires spans { length spans.now ≡ length a.now.leaves.items }
    requires part { IsCutPart (is_noted reached.now) missing a.now spans.now part }
    ensures cut { IfOk result (λ o. IsCutOff (is_noted reached.now) missing a.now spans.now (parts_left todo.old.items ++ pieces_in part) (parts_left todo.new.items) o) }
    ensures have { IfOk result (λ o. IfSome o (λ p. All (λ k. span_has p.piece (slice_get (plain_spans spans.now) k) ≡ true) p.leaves.items)) }
    ensures enough { IfOk result (λ o. IfSome o (λ p. AreEnough (is_noted reached.now) missing a.now (leaves_listed (apart_leaves a.now) (leaves_with (plain_spans spans.now) p.piece)) (leaves_listed (apart_leaves a.now) p.leaves.items))) }
    ensures others { OnOk result (All (IsCutPart (is_noted reached.now) missing a.now spans.now) todo.old.items → All (IsCutPart (is_noted reached.now) missing a.now spans.now) todo.new.items) }
    ensures less { OnOk result (cut_work todo.new.items < cut_work (todo.old.items ++ part ∷ [])) }
{
    let first = part.first;
    let end = part.end;
    let leaves = cut_whole(alloc, reached, a, spans, &part, missing)?;
    if leaves.is_empty() {
        return Ok(None);
    }
    drop(part);
    if first + 1 < end {
        add_halves(alloc, todo, first, end, leaves)?;
        return Ok(None);
    }
    Ok(Some(PieceLeaves {
        piece: first,
        leaves,
    }))
}

// The last piece of what is left to do of which something new may come, with numbers of leaves that are enough for it;
// nothing where there is none.
pub(crate) fn next_cut<'a, T: Copy>(
    alloc: Global,
    todo: &mut Vec<Part>,
    reached: &Reached<'a, T>,
    a: &Apart<'a, T>,
    spans: &[Span],
    missing: bool,
) -> Result<Option<PieceLeaves>, NoMemory>
    requires apart { IsApart (scope_of reached.now) a.now }
    requires spans { length spans.now ≡ length a.now.leaves.items }
    requires parts { All (IsCutPart (is_noted reached.now) missing a.now spans.now) todo.old.items }
    ensures cut { IfOk result (λ o. IsCutOff (is_noted reached.now) missing a.now spans.now (parts_left todo.old.items) (parts_left todo.new.items) o) }
    ensures none { IfOk result (λ o. IfNone o (parts_left todo.new.items ≡ [])) }
    ensures have { IfOk result (λ o. IfSome o (λ p. All (λ k. span_has p.piece (slice_get (plain_spans spans.now) k) ≡ true) p.leaves.items)) }
    ensures enough { IfOk result (λ o. IfSome o (λ p. AreEnough (is_noted reached.now) missing a.now (leaves_listed (apart_leaves a.now) (leaves_with (plain_spans spans.now) p.piece)) (leaves_listed (apart_leaves a.now) p.leaves.items))) }
    ensures parts { OnOk result (All (IsCutPart (is_noted reached.now) missing a.now spans.now) todo.new.items) }
{
    while let Some(part) = todo.pop() {
        let found = cut_part(alloc, todo, reached, a, spans, part, missing)?;
        match found {
            None => (),
            Some(next) => return Ok(Some(next)),
        }
    }
    Ok(None)
}
