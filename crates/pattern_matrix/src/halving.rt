// The leaves of each piece, found by halving the range of pieces.
ghost use Rattle.std.specs.Prelude.{◌≡◌, ◌<◌, ◌+◌, ◌-◌, ◌++◌, ◌∷◌, [], length, slice_get, Some, None, IfOk, OnOk, IfSome, IfNone};
ghost use Rattle.std.specs.List.{All};
ghost use Rattle.pattern_matrix.specs.Sparse.{columns_from};
ghost use Rattle.pattern_matrix.specs.Halving.{span_meets, one_meeting, meeting, leaves_with};
ghost use Rattle.constructor_sets.specs.Spans.{plain_span};
ghost use Rattle.pattern_matrix.specs.Parts.{plain_spans, IsFull, pieces_in, pieces_left};

use constructor_sets::Span;
use no_memory::NoMemory;
use std::alloc::Global;

/// A range of pieces of a column, by their numbers from `first` to before `end`, and the numbers of leaves among which
/// are all that have one of these pieces, or as many of them as a search needs, ascending.
#[derive(Drop)]
pub struct Part {
    pub first: usize,
    pub end: usize,
    pub leaves: Vec<usize>,
}

/// A piece of a column by its number, and the numbers of all leaves that have it, or of as many as a search needs, ascending.
#[derive(Drop)]
pub struct PieceLeaves {
    pub piece: usize,
    pub leaves: Vec<usize>,
}

// Tells whether the span has a piece from the first to before the end.
fn meets(span: &Span, first: usize, end: usize) -> bool
    ensures { result ≡ span_meets first end (Some (plain_span span.now)) }
{
    span.first < end && first < span.end
}

// Adds the number, if its span meets the range.
fn add_meeting(
    met: &mut Vec<usize>,
    number: usize,
    span: &Span,
    first: usize,
    end: usize,
) -> Result<(), NoMemory>
    ensures { OnOk result (met.new.items ≡ met.old.items ++ one_meeting first end number (plain_span span.now)) }
{
    if meets(span, first, end) {
        met.push(number)?;
    }
    Ok(())
}

/// Of these numbers of leaves those whose span has a piece from the first to before the end, in the same order. The
/// only error is want of memory.
pub fn meeting(
    alloc: Global,
    numbers: &[usize],
    spans: &[Span],
    first: usize,
    end: usize,
) -> Result<Vec<usize>, NoMemory>
    requires { All (λ k. k < length spans.now) numbers.now }
    ensures { IfOk result (λ v. v.items ≡ meeting (plain_spans spans.now) first end numbers.now) }
{
    let mut met = Vec::with_capacity(alloc, numbers.len())?;
    for k in numbers {
        add_meeting(&mut met, *k, &spans[*k], first, end)?;
    }
    Ok(met)
}

// Tells whether the span with the number has a piece from the first to before the end.
fn is_met(spans: &[Span], number: usize, first: usize, end: usize) -> bool
    ensures { result ≡ span_meets first end (slice_get (plain_spans spans.now) number) }
{
    match spans.get(number) {
        None => false,
        Some(span) => meets(span, first, end),
    }
}

// Leaves those numbers whose span has a piece from the first to before the end.
fn keep_meeting(numbers: &mut Vec<usize>, spans: &[Span], first: usize, end: usize)
    ensures { numbers.new.items ≡ meeting (plain_spans spans.now) first end numbers.old.items }
{
    numbers.retain(
        |k: &usize| -> bool
            ensures { result ≡ span_meets first end (slice_get (plain_spans spans.entry.now) k.now) }
        { is_met(spans, *k, first, end) },
    );
}

// The first half of the part; the other half is added to what is left to do. Both have only leaves that meet the part.
fn halved(alloc: Global, todo: &mut Vec<Part>, part: Part, spans: &[Span]) -> Result<Part, NoMemory>
    requires full { IsFull spans.now part }
    requires several { part.first + 1 < part.end }
    ensures full { IfOk result (λ p. IsFull spans.now p) }
    ensures pieces { IfOk result (λ p. pieces_in p ++ pieces_left todo.new.items ≡ pieces_in part ++ pieces_left todo.old.items) }
    ensures others { OnOk result (All (IsFull spans.now) todo.old.items → All (IsFull spans.now) todo.new.items) }
    ensures less { IfOk result (λ p. p.end - p.first < part.end - part.first) }
{
    let first = part.first;
    let end = part.end;
    let mut leaves = part.leaves;
    keep_meeting(&mut leaves, spans, first, end);
    let middle = first + (end - first) / 2;
    let others = Vec::from_slice(alloc, &leaves)?;
    todo.push(Part {
        first: middle,
        end,
        leaves: others,
    })?;
    Ok(Part {
        first,
        end: middle,
        leaves,
    })
}

// The one piece of the part with its leaves.
fn only_piece(part: Part, spans: &[Span]) -> PieceLeaves
    requires full { IsFull spans.now part }
    requires one { part.first + 1 ≡ part.end }
    ensures piece { result.piece ≡ part.first }
    ensures leaves { result.leaves.items ≡ leaves_with (plain_spans spans.now) result.piece }
{
    let piece = part.first;
    let end = part.end;
    let mut leaves = part.leaves;
    keep_meeting(&mut leaves, spans, piece, end);
    PieceLeaves { piece, leaves }
}

// The first piece of the part with its leaves; what else the part has is added to what is left to do.
#[tactic(auto, using(crate::proofs::Halves::one_parts))]
fn narrowed(
    alloc: Global,
    todo: &mut Vec<Part>,
    part: Part,
    spans: &[Span],
) -> Result<PieceLeaves, NoMemory>
    requires { IsFull spans.now part }
    ensures pieces { IfOk result (λ p. pieces_in part ++ pieces_left todo.old.items ≡ p.piece ∷ pieces_left todo.new.items) }
    ensures leaves { IfOk result (λ p. p.leaves.items ≡ leaves_with (plain_spans spans.now) p.piece) }
    ensures full { OnOk result (All (IsFull spans.now) todo.old.items → All (IsFull spans.now) todo.new.items) }
{
    if part.first + 1 < part.end {
        let left = halved(alloc, todo, part, spans)?;
        let found = narrowed(alloc, todo, left, spans)?;
        Ok(found)
    } else {
        let found = only_piece(part, spans);
        Ok(found)
    }
}

/// The next piece of what is left to do, with all leaves that have it; nothing where nothing is left. The pieces come in
/// ascending order.
///
/// Each part has all leaves of its pieces, as `all_parts` and this call make them; after want of memory a piece may be
/// left out. Each leaf is looked at for each range that it meets: over all calls once for each piece that it has, and
/// for each halving on the way there.
pub fn next_piece(
    alloc: Global,
    todo: &mut Vec<Part>,
    spans: &[Span],
) -> Result<Option<PieceLeaves>, NoMemory>
    requires { All (IsFull spans.now) todo.old.items }
    ensures none { IfOk result (λ o. IfNone o (pieces_left todo.old.items ≡ [])) }
    ensures piece { IfOk result (λ o. IfSome o (λ p. pieces_left todo.old.items ≡ p.piece ∷ pieces_left todo.new.items)) }
    ensures leaves { IfOk result (λ o. IfSome o (λ p. p.leaves.items ≡ leaves_with (plain_spans spans.now) p.piece)) }
    ensures full { OnOk result (All (IsFull spans.now) todo.new.items) }
{
    match todo.pop() {
        None => Ok(None),
        Some(part) => {
            let found = narrowed(alloc, todo, part, spans)?;
            Ok(Some(found))
        }
    }
}

/// All that is to do for so many pieces: one part with all leaves. The only error is want of memory.
pub fn all_parts(alloc: Global, spans: &[Span], count: usize) -> Result<Vec<Part>, NoMemory>
    ensures pieces { IfOk result (λ v. pieces_left v.items ≡ columns_from 0 count) }
    ensures full { IfOk result (λ v. All (IsFull spans.now) v.items) }
{
    let mut todo = Vec::new(alloc);
    if count > 0 {
        let leaves = numbers_below(alloc, spans.len())?;
        todo.push(Part {
            first: 0,
            end: count,
            leaves,
        })?;
        Ok(todo)
    } else {
        Ok(todo)
    }
}

// The numbers below the count, ascending.
#[tactic(auto, using(crate::proofs::Halves::more_numbers))]
fn numbers_below(alloc: Global, count: usize) -> Result<Vec<usize>, NoMemory>
    ensures { IfOk result (λ v. v.items ≡ columns_from 0 count) }
{
    let mut numbers = Vec::with_capacity(alloc, count)?;
    for i in 0..count {
        numbers.push(i)?;
    }
    Ok(numbers)
}
