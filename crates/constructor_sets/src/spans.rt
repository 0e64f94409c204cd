// Which of the pieces in a list the heads of their column have.
ghost use Rattle.std.specs.Prelude.{◌≡◌, ◌≤◌, ◌||◌, ℕ, IsTrue, IfOk, IfSome, Some, length, map, true, false};
ghost use Rattle.std.specs.List.{All, AllPairs};
ghost use Rattle.match_model.specs.Constructors.{has_piece, FlagCtor, RowSet};
ghost use Rattle.match_model.specs.WellTyped.{is_written};
ghost use Rattle.pat_context.specs.Views.{plain_ctor, plain_set};
ghost use Rattle.constructor_sets.specs.Columns.{plain_ctors};
ghost use Rattle.constructor_sets.specs.Spans.{starts_before, Precedes, plain_span, IsSpan, AreSpans, is_up_to_head};
ghost use Rattle.constructor_sets.specs.Spans.{HoldsBelow, FailsAt, IsFirst, IsEnd, AreHadByAll};

use crate::Span;
use crate::guide::Guide;
use crate::heads::{has_piece, starts_before};
use crate::hints::Hints;
use crate::known::spans_by_length;
use no_memory::NoMemory;
use pat_context::{Ctor, CtorSet};
use std::alloc::Global;

// For each head of a column of the set which of the pieces it has.
pub(crate) fn spans_by_set(
    alloc: Global,
    set: CtorSet,
    pieces: &[Ctor],
    heads: &[Ctor],
) -> Result<Vec<Span>, NoMemory>
    requires rising { AllPairs Precedes (plain_ctors pieces.now) }
    requires heads { All (λ h. IsTrue (is_written (plain_ctor h))) heads.now }
    requires arrays { (n : ℕ) → plain_set set ≡ RowSet (Some n)
        → AreHadByAll (plain_ctors pieces.now) (plain_ctors heads.now) }
    ensures { IfOk result (λ v. AreSpans (plain_ctors pieces.now) (plain_ctors heads.now) (map plain_span v.items)) }
{
    match set {
        CtorSet::Rows { len } => row_spans(alloc, len, pieces, heads),
        _ => spans_of(alloc, pieces, heads),
    }
}

// The same for rows of one length, or of every length.
fn row_spans(
    alloc: Global,
    len: Option<u64>,
    pieces: &[Ctor],
    heads: &[Ctor],
) -> Result<Vec<Span>, NoMemory>
    requires rising { AllPairs Precedes (plain_ctors pieces.now) }
    requires heads { All (λ h. IsTrue (is_written (plain_ctor h))) heads.now }
    requires arrays { (n : ℕ) → len ≡ Some n → AreHadByAll (plain_ctors pieces.now) (plain_ctors heads.now) }
    ensures { IfOk result (λ v. AreSpans (plain_ctors pieces.now) (plain_ctors heads.now) (map plain_span v.items)) }
{
    match len {
        Some(_) => spans_of_all(alloc, pieces, heads),
        None => spans_by_length(alloc, pieces, heads),
    }
}

// The same, where each head has each of the pieces.
fn spans_of_all(alloc: Global, pieces: &[Ctor], heads: &[Ctor]) -> Result<Vec<Span>, NoMemory>
    requires all { AreHadByAll (plain_ctors pieces.now) (plain_ctors heads.now) }
    ensures { IfOk result (λ v. AreSpans (plain_ctors pieces.now) (plain_ctors heads.now) (map plain_span v.items)) }
{
    let whole = Span {
        first: 0,
        end: pieces.len(),
    };
    let spans = vec![in alloc; whole; heads.len()]?;
    Ok(spans)
}

// The same for a set of any kind.
pub(crate) fn spans_of(
    alloc: Global,
    pieces: &[Ctor],
    heads: &[Ctor],
) -> Result<Vec<Span>, NoMemory>
    requires rising { AllPairs Precedes (plain_ctors pieces.now) }
    requires heads { All (λ h. IsTrue (is_written (plain_ctor h))) heads.now }
    ensures { IfOk result (λ v. AreSpans (plain_ctors pieces.now) (plain_ctors heads.now) (map plain_span v.items)) }
{
    if pieces.len() <= 1 {
        return spans_of_one(alloc, pieces, heads);
    }
    match heads.first() {
        Some(Ctor::Flag(_)) => flag_spans(alloc, pieces, heads),
        _ => spans_in_turn(alloc, pieces, heads),
    }
}

// The same, where there is one piece at most.
pub(crate) fn spans_of_one(
    alloc: Global,
    pieces: &[Ctor],
    heads: &[Ctor],
) -> Result<Vec<Span>, NoMemory>
    requires one { length pieces.now ≤ 1 }
    ensures { IfOk result (λ v. AreSpans (plain_ctors pieces.now) (plain_ctors heads.now) (map plain_span v.items)) }
{
    let mut spans = Vec::with_capacity(alloc, heads.len())?;
    for head in heads {
        let span = span_of_one(pieces, head);
        spans.push(span)?;
    }
    Ok(spans)
}

// Whether the head has the piece, if there is one.
fn span_of_one(pieces: &[Ctor], head: &Ctor) -> Span
    requires one { length pieces.now ≤ 1 }
    ensures { IsSpan (plain_ctors pieces.now) (plain_ctor head.now) (plain_span result) }
{
    if pieces.is_empty() {
        Span { first: 0, end: 0 }
    } else if has_piece(head, &pieces[0]) {
        Span { first: 0, end: 1 }
    } else {
        Span { first: 0, end: 0 }
    }
}

// The same, each looked for where a head like it was found, beside the two before, and where a guide tells.
fn spans_in_turn(alloc: Global, pieces: &[Ctor], heads: &[Ctor]) -> Result<Vec<Span>, NoMemory>
    requires rising { AllPairs Precedes (plain_ctors pieces.now) }
    requires heads { All (λ h. IsTrue (is_written (plain_ctor h))) heads.now }
    ensures { IfOk result (λ v. AreSpans (plain_ctors pieces.now) (plain_ctors heads.now) (map plain_span v.items)) }
{
    let mut spans = Vec::with_capacity(alloc, heads.len())?;
    let mut hints = Hints::with_room(alloc, heads.len())?;
    let guide = Guide::new(alloc, pieces)?;
    let mut near = Span { first: 0, end: 0 };
    let mut old = near;
    for head in heads {
        let like = hints.span(head);
        let span = guided_span(pieces, head, &guide, like, near, old);
        spans.push(span)?;
        hints.keep(head, span);
        old = near;
        near = span;
    }
    Ok(spans)
}

// The same, where the heads are flags: there are two spans.
fn flag_spans(alloc: Global, pieces: &[Ctor], heads: &[Ctor]) -> Result<Vec<Span>, NoMemory>
    requires rising { AllPairs Precedes (plain_ctors pieces.now) }
    requires heads { All (λ h. IsTrue (is_written (plain_ctor h))) heads.now }
    ensures { IfOk result (λ v. AreSpans (plain_ctors pieces.now) (plain_ctors heads.now) (map plain_span v.items)) }
{
    let mut spans = Vec::with_capacity(alloc, heads.len())?;
    let none = Span { first: 0, end: 0 };
    let of_false = span_of(pieces, &Ctor::Flag(false), none, none, none);
    let of_true = span_of(pieces, &Ctor::Flag(true), of_false, none, none);
    for head in heads {
        let span = flag_span(pieces, head, of_false, of_true);
        spans.push(span)?;
    }
    Ok(spans)
}

// Which of the pieces the head has, where it is known of the two flags.
fn flag_span(pieces: &[Ctor], head: &Ctor, of_false: Span, of_true: Span) -> Span
    requires rising { AllPairs Precedes (plain_ctors pieces.now) }
    requires head { IsTrue (is_written (plain_ctor head.now)) }
    requires of_false { IsSpan (plain_ctors pieces.now) (FlagCtor false) (plain_span of_false) }
    requires of_true { IsSpan (plain_ctors pieces.now) (FlagCtor true) (plain_span of_true) }
    ensures { IsSpan (plain_ctors pieces.now) (plain_ctor head.now) (plain_span result) }
{
    match *head {
        Ctor::Flag(false) => of_false,
        Ctor::Flag(true) => of_true,
        _ => span_of(pieces, head, of_false, of_true, of_true),
    }
}

// Which of the pieces the head has. Heads often have the ends of one before, or stand in order, or come from two sides in
// turn, so it is looked for at the span of a head `like` it and beside the spans of the two heads before.
pub(crate) fn span_of(pieces: &[Ctor], head: &Ctor, like: Span, near: Span, old: Span) -> Span
    requires rising { AllPairs Precedes (plain_ctors pieces.now) }
    requires head { IsTrue (is_written (plain_ctor head.now)) }
    ensures { IsSpan (plain_ctors pieces.now) (plain_ctor head.now) (plain_span result) }
{
    let first = first_of(pieces, head, like.first, near.first, old.first);
    let end = end_of(pieces, head, first, like.end, near.end, old.end);
    Span { first, end }
}

// The same, looked for where the guide tells before it is looked for among all.
fn guided_span(
    pieces: &[Ctor],
    head: &Ctor,
    guide: &Guide,
    like: Span,
    near: Span,
    old: Span,
) -> Span
    requires rising { AllPairs Precedes (plain_ctors pieces.now) }
    requires head { IsTrue (is_written (plain_ctor head.now)) }
    ensures { IsSpan (plain_ctors pieces.now) (plain_ctor head.now) (plain_span result) }
{
    let first = guided_first(pieces, head, guide, like.first, near.first, old.first);
    let end = guided_end(pieces, head, guide, first, like.end, near.end, old.end);
    Span { first, end }
}

// How many of the pieces begin before all that the head has, looked for where the guide tells before it is looked for
// among all.
fn guided_first(
    pieces: &[Ctor],
    head: &Ctor,
    guide: &Guide,
    like: usize,
    near: usize,
    old: usize,
) -> usize
    requires rising { AllPairs Precedes (plain_ctors pieces.now) }
    ensures { IsFirst (plain_ctor head.now) pieces.now result }
{
    match near_first(pieces, head, like, near, old) {
        Some(first) => first,
        None => first_within(pieces, head, guide.firsts(head)),
    }
}

// How many of the pieces lie before what the head has or are of it, looked for in the same way.
fn guided_end(
    pieces: &[Ctor],
    head: &Ctor,
    guide: &Guide,
    first: usize,
    like: usize,
    near: usize,
    old: usize,
) -> usize
    requires rising { AllPairs Precedes (plain_ctors pieces.now) }
    requires head { IsTrue (is_written (plain_ctor head.now)) }
    requires first { IsFirst (plain_ctor head.now) pieces.now first }
    ensures { IsEnd (plain_ctor head.now) pieces.now result }
{
    match near_end(pieces, head, first, like, near, old) {
        Some(end) => end,
        None => end_within(pieces, head, first, guide.ends(head)),
    }
}

// How many of the pieces begin before all that the head has; it may be `like`, or close to `near` or `old`.
fn first_of(pieces: &[Ctor], head: &Ctor, like: usize, near: usize, old: usize) -> usize
    requires rising { AllPairs Precedes (plain_ctors pieces.now) }
    ensures { IsFirst (plain_ctor head.now) pieces.now result }
{
    match near_first(pieces, head, like, near, old) {
        Some(first) => first,
        None => search_first(pieces, head),
    }
}

// The same, if it is `like`, or close to `near` or `old`.
fn near_first(pieces: &[Ctor], head: &Ctor, like: usize, near: usize, old: usize) -> Option<usize>
    requires rising { AllPairs Precedes (plain_ctors pieces.now) }
    ensures { IfSome result (λ n. IsFirst (plain_ctor head.now) pieces.now n) }
{
    match first_at(pieces, head, like) {
        Some(first) => Some(first),
        None => match first_beside(pieces, head, near) {
            Some(first) => Some(first),
            None => first_beside(pieces, head, old),
        },
    }
}

// The same, looked for between two counts before it is looked for among all.
fn first_within(pieces: &[Ctor], head: &Ctor, counts: Span) -> usize
    requires rising { AllPairs Precedes (plain_ctors pieces.now) }
    ensures { IsFirst (plain_ctor head.now) pieces.now result }
{
    match first_at(pieces, head, likely_first(pieces, head, counts)) {
        Some(first) => first,
        None => search_first(pieces, head),
    }
}

// A count that is likely, between two counts: it is to be tested.
fn likely_first(pieces: &[Ctor], head: &Ctor, counts: Span) -> usize {
    if counts.first <= counts.end && counts.end <= pieces.len() {
        let few = &pieces[counts.first..counts.end];
        counts.first + few.partition_point(|piece: &Ctor| -> bool { starts_before(piece, head) })
    } else {
        counts.first
    }
}

// The same, if it is close to `near`.
fn first_beside(pieces: &[Ctor], head: &Ctor, near: usize) -> Option<usize>
    requires rising { AllPairs Precedes (plain_ctors pieces.now) }
    ensures { IfSome result (λ n. IsFirst (plain_ctor head.now) pieces.now n) }
{
    if is_first(pieces, head, near) {
        Some(near)
    } else if near < pieces.len() && starts_below(pieces, head, near) {
        first_at(pieces, head, near + 1)
    } else {
        first_at(pieces, head, near.saturating_sub(1))
    }
}

// The same, if it is so many.
fn first_at(pieces: &[Ctor], head: &Ctor, count: usize) -> Option<usize>
    requires rising { AllPairs Precedes (plain_ctors pieces.now) }
    ensures { IfSome result (λ n. IsFirst (plain_ctor head.now) pieces.now n) }
{
    if is_first(pieces, head, count) {
        Some(count)
    } else {
        None
    }
}

// Tells whether so many of the pieces begin before all that the head has, by the pieces on both sides.
fn is_first(pieces: &[Ctor], head: &Ctor, count: usize) -> bool
    requires rising { AllPairs Precedes (plain_ctors pieces.now) }
    ensures { IsTrue result → IsFirst (plain_ctor head.now) pieces.now count }
{
    if count <= pieces.len() {
        starts_below(pieces, head, count) && stops_at(pieces, head, count)
    } else {
        false
    }
}

// Tells whether the piece below the place, if there is one, begins before all that the head has.
fn starts_below(pieces: &[Ctor], head: &Ctor, place: usize) -> bool
    requires { place ≤ length pieces.now }
    ensures { IsTrue result → HoldsBelow (λ x. starts_before (plain_ctor x) (plain_ctor head.now)) pieces.now place }
{
    if place == 0 {
        true
    } else {
        starts_before(&pieces[place - 1], head)
    }
}

// Tells whether the piece at the place, if there is one, does not begin before all that the head has.
fn stops_at(pieces: &[Ctor], head: &Ctor, place: usize) -> bool
    requires { place ≤ length pieces.now }
    ensures { IsTrue result → FailsAt (λ x. starts_before (plain_ctor x) (plain_ctor head.now)) pieces.now place }
{
    if place == pieces.len() {
        true
    } else {
        !starts_before(&pieces[place], head)
    }
}

// The same by halving.
fn search_first(pieces: &[Ctor], head: &Ctor) -> usize
    requires rising { AllPairs Precedes (plain_ctors pieces.now) }
    ensures { IsFirst (plain_ctor head.now) pieces.now result }
{
    pieces.partition_point(
        |piece: &Ctor| -> bool
            ensures { result ≡ starts_before (plain_ctor piece.now) (plain_ctor head.entry.now) }
        { starts_before(piece, head) },
    )
}

// How many of the pieces lie before what the head has or are of it; it may be `like`, or one more than `first`, or close
// to `near` or `old`.
fn end_of(pieces: &[Ctor], head: &Ctor, first: usize, like: usize, near: usize, old: usize) -> usize
    requires rising { AllPairs Precedes (plain_ctors pieces.now) }
    requires head { IsTrue (is_written (plain_ctor head.now)) }
    requires first { IsFirst (plain_ctor head.now) pieces.now first }
    ensures { IsEnd (plain_ctor head.now) pieces.now result }
{
    match near_end(pieces, head, first, like, near, old) {
        Some(end) => end,
        None => search_end(pieces, head),
    }
}

// The same, if it is `like`, or one more than `first`, or close to `near` or `old`.
fn near_end(
    pieces: &[Ctor],
    head: &Ctor,
    first: usize,
    like: usize,
    near: usize,
    old: usize,
) -> Option<usize>
    requires rising { AllPairs Precedes (plain_ctors pieces.now) }
    requires head { IsTrue (is_written (plain_ctor head.now)) }
    requires first { IsFirst (plain_ctor head.now) pieces.now first }
    ensures { IfSome result (λ n. IsEnd (plain_ctor head.now) pieces.now n) }
{
    match end_at(pieces, head, first, like) {
        Some(end) => Some(end),
        None => match end_at(pieces, head, first, first.saturating_add(1)) {
            Some(end) => Some(end),
            None => match end_beside(pieces, head, first, near) {
                Some(end) => Some(end),
                None => end_beside(pieces, head, first, old),
            },
        },
    }
}

// The same, looked for between two counts before it is looked for among all.
fn end_within(pieces: &[Ctor], head: &Ctor, first: usize, counts: Span) -> usize
    requires rising { AllPairs Precedes (plain_ctors pieces.now) }
    requires head { IsTrue (is_written (plain_ctor head.now)) }
    requires first { IsFirst (plain_ctor head.now) pieces.now first }
    ensures { IsEnd (plain_ctor head.now) pieces.now result }
{
    match end_at(pieces, head, first, likely_end(pieces, head, counts)) {
        Some(end) => end,
        None => search_end(pieces, head),
    }
}

// A count that is likely, between two counts: it is to be tested.
fn likely_end(pieces: &[Ctor], head: &Ctor, counts: Span) -> usize {
    if counts.first <= counts.end && counts.end <= pieces.len() {
        let few = &pieces[counts.first..counts.end];
        counts.first + few.partition_point(|piece: &Ctor| -> bool { is_up_to(piece, head) })
    } else {
        counts.first
    }
}

// The same, if it is close to `near`.
fn end_beside(pieces: &[Ctor], head: &Ctor, first: usize, near: usize) -> Option<usize>
    requires rising { AllPairs Precedes (plain_ctors pieces.now) }
    requires head { IsTrue (is_written (plain_ctor head.now)) }
    requires first { IsFirst (plain_ctor head.now) pieces.now first }
    ensures { IfSome result (λ n. IsEnd (plain_ctor head.now) pieces.now n) }
{
    if is_end(pieces, head, first, near) {
        Some(near)
    } else if near < pieces.len() && has_piece(head, &pieces[near]) {
        end_at(pieces, head, first, near + 1)
    } else {
        end_at(pieces, head, first, near.saturating_sub(1))
    }
}

// The same, if it is so many.
fn end_at(pieces: &[Ctor], head: &Ctor, first: usize, count: usize) -> Option<usize>
    requires rising { AllPairs Precedes (plain_ctors pieces.now) }
    requires head { IsTrue (is_written (plain_ctor head.now)) }
    requires first { IsFirst (plain_ctor head.now) pieces.now first }
    ensures { IfSome result (λ n. IsEnd (plain_ctor head.now) pieces.now n) }
{
    if is_end(pieces, head, first, count) {
        Some(count)
    } else {
        None
    }
}

// Tells whether so many of the pieces lie before what the head has or are of it, by the pieces on both sides. The first
// of them that does not lie before is known, so it is enough to ask which of the two the head has.
fn is_end(pieces: &[Ctor], head: &Ctor, first: usize, count: usize) -> bool
    requires rising { AllPairs Precedes (plain_ctors pieces.now) }
    requires head { IsTrue (is_written (plain_ctor head.now)) }
    requires first { IsFirst (plain_ctor head.now) pieces.now first }
    ensures { IsTrue result → IsEnd (plain_ctor head.now) pieces.now count }
{
    if first <= count && count <= pieces.len() {
        goes_below(pieces, head, first, count) && ends_at(pieces, head, first, count)
    } else {
        false
    }
}

// Tells whether the piece below the place, if there is one, lies before what the head has or is of it.
fn goes_below(pieces: &[Ctor], head: &Ctor, first: usize, place: usize) -> bool
    requires first { IsFirst (plain_ctor head.now) pieces.now first }
    requires from { first ≤ place }
    requires within { place ≤ length pieces.now }
    ensures { IsTrue result → HoldsBelow (λ x. is_up_to_head (plain_ctor head.now) (plain_ctor x)) pieces.now place }
{
    if place == first {
        true
    } else {
        has_piece(head, &pieces[place - 1])
    }
}

// Tells whether the piece at the place, if there is one, lies behind what the head has.
fn ends_at(pieces: &[Ctor], head: &Ctor, first: usize, place: usize) -> bool
    requires first { IsFirst (plain_ctor head.now) pieces.now first }
    requires from { first ≤ place }
    requires within { place ≤ length pieces.now }
    ensures { IsTrue result → FailsAt (λ x. is_up_to_head (plain_ctor head.now) (plain_ctor x)) pieces.now place }
{
    if place == pieces.len() {
        true
    } else {
        !has_piece(head, &pieces[place])
    }
}

// The same by halving.
fn search_end(pieces: &[Ctor], head: &Ctor) -> usize
    requires rising { AllPairs Precedes (plain_ctors pieces.now) }
    requires head { IsTrue (is_written (plain_ctor head.now)) }
    ensures { IsEnd (plain_ctor head.now) pieces.now result }
{
    pieces.partition_point(
        |piece: &Ctor| -> bool
            ensures { result ≡ is_up_to_head (plain_ctor head.entry.now) (plain_ctor piece.now) }
        { is_up_to(piece, head) },
    )
}

// Tells whether the piece lies before what the head has, or the head has it.
fn is_up_to(piece: &Ctor, head: &Ctor) -> bool
    ensures { result ≡ is_up_to_head (plain_ctor head.now) (plain_ctor piece.now) }
{
    starts_before(piece, head) || has_piece(head, piece)
}
