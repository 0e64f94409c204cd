// The spans that are known of the rows of a column, by the least length of a row. What rows have depends on nothing
// else than on this length and on whether they have all longer ones, so each is looked for once.
ghost use Rattle.std.specs.Prelude.{◌≡◌, ℕ, None, Some, set, slice_index_or, IsTrue, IfOk, map};
ghost use Rattle.std.specs.List.{All, AllPairs};
ghost use Rattle.match_model.specs.Constructors.{MCtor};
ghost use Rattle.match_model.specs.WellTyped.{is_written};
ghost use Rattle.pat_context.specs.Views.{plain_ctor};
ghost use Rattle.constructor_sets.specs.Columns.{plain_ctors};
ghost use Rattle.constructor_sets.specs.Known.{known_of, Keeps, AreKnown};
ghost use Rattle.constructor_sets.specs.RowLengths.{IsShortRow};
ghost use Rattle.constructor_sets.specs.Spans.{Precedes, plain_span, IsSpan, AreSpans};

use crate::Span;
use crate::spans::span_of;
use no_memory::NoMemory;
use pat_context::Ctor;
use slice_split::Shape;
use std::alloc::Global;

// How many lengths are kept at most.
const MOST: usize = 4096;

// How many heads are worth a table.
const MANY: usize = 64;

// For each length the span that was found.
#[derive(Drop)]
pub(crate) struct Known {
    // Of the rows of this length alone.
    pub(crate) fixed: Vec<Option<Span>>,
    // Of the rows of this length and of all longer ones.
    pub(crate) longer: Vec<Option<Span>>,
}

impl Known {
    // Nothing is known. Where the column has few heads, nothing is kept.
    fn with_room(alloc: Global, heads: usize) -> Result<Known, NoMemory>
        ensures { IfOk result (λ k. (h : MCtor) → known_of k h ≡ None) }
    {
        let room = if heads < MANY { 0 } else { heads.min(MOST) };
        let fixed = nothing(alloc, room)?;
        let longer = nothing(alloc, room)?;
        Ok(Known { fixed, longer })
    }

    // What is known of the head.
    fn span(&self, head: &Ctor) -> Option<Span>
        requires { IsShortRow (plain_ctor head.now) }
        ensures { result ≡ known_of self.now (plain_ctor head.now) }
    {
        match *head {
            Ctor::Row(Shape::Fixed(len)) => kept(&self.fixed, len as usize),
            Ctor::Row(Shape::Longer { front, back }) => {
                kept(&self.longer, (front + back) as usize)
            }
            _ => None,
        }
    }

    // Keeps what was found of the head.
    fn keep(&mut self, head: &Ctor, span: Span)
        requires { IsShortRow (plain_ctor head.now) }
        ensures { Keeps (plain_ctor head.now) span self.old self.new }
    {
        match *head {
            Ctor::Row(Shape::Fixed(len)) => keep(&mut self.fixed, len as usize, span),
            Ctor::Row(Shape::Longer { front, back }) => {
                keep(&mut self.longer, (front + back) as usize, span)
            }
            _ => (),
        }
    }
}

// A table in which nothing is kept.
fn nothing(alloc: Global, room: usize) -> Result<Vec<Option<Span>>, NoMemory>
    ensures { IfOk result (λ v. (n : ℕ) → slice_index_or v.items n None ≡ None) }
{
    let mut table = Vec::with_capacity(alloc, room)?;
    for _ in 0..room {
        table.push(None)?;
    }
    Ok(table)
}

// What is kept for the length.
fn kept(table: &[Option<Span>], len: usize) -> Option<Span>
    ensures { result ≡ slice_index_or table.now len None }
{
    if len < table.len() { table[len] } else { None }
}

// Keeps a span for the length, if there is room.
fn keep(table: &mut [Option<Span>], len: usize, span: Span)
    ensures { table.new ≡ set table.old len (Some span) }
{
    if len < table.len() {
        table[len] = Some(span);
    }
}

// For each row of a column which of the pieces it has.
pub(crate) fn spans_by_length(
    alloc: Global,
    pieces: &[Ctor],
    heads: &[Ctor],
) -> Result<Vec<Span>, NoMemory>
    requires rising { AllPairs Precedes (plain_ctors pieces.now) }
    requires heads { All (λ h. IsTrue (is_written (plain_ctor h))) heads.now }
    ensures { IfOk result (λ v. AreSpans (plain_ctors pieces.now) (plain_ctors heads.now) (map plain_span v.items)) }
{
    let mut spans = Vec::with_capacity(alloc, heads.len())?;
    let mut known = Known::with_room(alloc, heads.len())?;
    let mut near = Span { first: 0, end: 0 };
    let mut old = near;
    for head in heads {
        let span = known_or_found(&mut known, pieces, head, near, old);
        spans.push(span)?;
        old = near;
        near = span;
    }
    Ok(spans)
}

// Which of the pieces the head has. If it is not known, it is looked for beside the spans of the two heads before.
fn known_or_found(known: &mut Known, pieces: &[Ctor], head: &Ctor, near: Span, old: Span) -> Span
    requires rising { AllPairs Precedes (plain_ctors pieces.now) }
    requires head { IsTrue (is_written (plain_ctor head.now)) }
    requires known { AreKnown (plain_ctors pieces.now) known.old }
    ensures span { IsSpan (plain_ctors pieces.now) (plain_ctor head.now) (plain_span result) }
    ensures known { AreKnown (plain_ctors pieces.now) known.new }
{
    match known.span(head) {
        Some(span) => span,
        None => {
            let span = span_of(pieces, head, near, near, old);
            known.keep(head, span);
            span
        }
    }
}
