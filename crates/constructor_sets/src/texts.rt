// What the heads of a column of texts have. The texts are put in order once, each beside its first bytes as a number, so
// that most of the order is told without a look at the texts; which piece a head has is counted in the same order.
ghost use Rattle.std.specs.Prelude.{◌≡◌, ◌<◌, ◌≤◌, ◌++◌, [], ◌∷◌, false, true, IsTrue, IfOk, OnOk};
ghost use Rattle.std.specs.Prelude.{length, map, set, slice_index_or, option_copied};
ghost use Rattle.std.specs.List.{All, AllPairs, filter_map};
ghost use Rattle.std.specs.List.Sorted.{IsPermutation, IsSorted};
ghost use Rattle.std.specs.Str.{IsUtf8};
ghost use Rattle.match_model.specs.Constructors.{TextSet, TextCtor, OtherTextCtor};
ghost use Rattle.match_model.specs.Pieces.{text_of, AreNamed};
ghost use Rattle.match_model.specs.WellTyped.{is_written};
ghost use Rattle.pat_context.specs.Views.{plain_ctor, is_sure};
ghost use Rattle.constructor_sets.specs.Columns.{is_head, plain_ctors, plain_flagged, IsSetSplit};
ghost use Rattle.constructor_sets.specs.Present.{is_sharp_head, ArePresent};
ghost use Rattle.constructor_sets.specs.Spans.{Precedes, plain_span, IsSpan, AreSpans, AreKnownSpans};
ghost use Rattle.constructor_sets.specs.Texts.{entry_cmp, entry_texts, with_text, last_span, first_number, continues};
ghost use Rattle.constructor_sets.specs.Texts.{last_of, is_each_text, is_other_text, IsEntry, AreNumbered, AreBytes};

use crate::column::found_pieces;
use crate::spans::{span_of, spans_of};
use crate::{PresentPieces, Span};
use no_memory::NoMemory;
use pat_context::{Ctor, CtorSet, PatCx, Validity};
use std::alloc::Global;

// How many bytes of a text are told by its number.
const FIRST: usize = 8;

// The span of a head of which no text is known.
const UNKNOWN: Span = Span {
    first: usize::MAX,
    end: 0,
};

// A text of a column.
#[derive(Clone, Copy)]
#[derive_where(PartialEq, Eq, PartialOrd, Ord)]
pub(crate) struct Entry<'a> {
    // Its first bytes as a number, so that entries are in the order of their texts.
    pub(crate) begin: u64,
    // The text.
    pub(crate) text: &'a str,
    // Which of the heads it is; entries of one text are one.
    #[derive_where(skip(EqHashOrd))]
    pub(crate) place: usize,
}

// The texts of a column, each once, and which of them the heads are.
#[derive(Drop)]
struct Told<'a> {
    // The first entry of each text; the texts ascend.
    named: Vec<Entry<'a>>,
    // For each head that is a text its number among them.
    known: Vec<Span>,
}

// What the heads of a column of texts have, and which pieces each head has.
pub(crate) fn present_texts<'a, C: PatCx>(
    alloc: Global,
    cx: &C,
    ty: C::Ty,
    validity: Validity,
    heads: &[Ctor<'a>],
) -> Result<PresentPieces<'a>, NoMemory>
    requires ty { C.is_type cx.now ty }
    requires set { (C.context cx.now).set_of ty ≡ TextSet }
    requires heads { All (λ h. IsTrue (is_sharp_head TextSet h)) (plain_ctors heads.now) }
    ensures { IfOk result (λ p. ArePresent (C.is_value cx.now) (C.context cx.now)
        (record { type = ty; sure = is_sure validity }) (plain_ctors heads.now)
        (plain_ctors p.ctors.items) p.missing (plain_ctors p.gaps.items) (map plain_span p.spans.items)) }
{
    let told = told_texts(alloc, heads)?;
    let pieces = text_pieces(alloc, &told.named)?;
    let found = found_pieces(alloc, cx, ty, validity, &CtorSet::Texts, heads, &pieces)?;
    let spans = text_spans(alloc, &found.ctors, heads, &told)?;
    Ok(PresentPieces {
        ctors: found.ctors,
        missing: found.missing,
        gaps: found.gaps,
        spans,
    })
}

// The pieces of texts.
pub(crate) fn texts<'a>(
    alloc: Global,
    column: &[Ctor<'a>],
) -> Result<Vec<(Ctor<'a>, bool)>, NoMemory>
    requires { All (λ h. IsTrue (is_head TextSet h)) (plain_ctors column.now) }
    ensures { IfOk result (λ v. IsSetSplit TextSet (plain_ctors column.now) (plain_flagged v.items)) }
{
    let told = told_texts(alloc, column)?;
    text_pieces(alloc, &told.named)
}

// A piece for each text, and one for all others.
fn text_pieces<'a>(alloc: Global, named: &[Entry<'a>]) -> Result<Vec<(Ctor<'a>, bool)>, NoMemory>
    ensures { IfOk result (λ v. plain_flagged v.items
        ≡ map (λ t. (TextCtor t, true)) (entry_texts named.now) ++ (OtherTextCtor, false) ∷ []) }
{
    let mut pieces = Vec::with_capacity(alloc, named.len() + 1)?;
    for entry in named {
        pieces.push((Ctor::Text(entry.text), true))?;
    }
    pieces.push((Ctor::OtherText, false))?;
    Ok(pieces)
}

// The texts of a column, each once, and which of them the heads are.
fn told_texts<'a>(alloc: Global, heads: &[Ctor<'a>]) -> Result<Told<'a>, NoMemory>
    ensures named { IfOk result (λ t. AreNamed (filter_map text_of (plain_ctors heads.now)) (entry_texts t.named.items)) }
    ensures known { IfOk result (λ t. AreNumbered heads.now (entry_texts t.named.items) t.known.items) }
{
    let order = text_order(alloc, heads)?;
    let mut told = Told {
        named: Vec::with_capacity(alloc, order.len())?,
        known: vec![in alloc; UNKNOWN; heads.len()]?,
    };
    for entry in &order {
        tell(&mut told, entry)?;
    }
    Ok(told)
}

// Adds the text of an entry, where it is not the last one, and keeps its number.
fn tell<'a>(told: &mut Told<'a>, entry: &Entry<'a>) -> Result<(), NoMemory>
    requires { entry.now.place < length told.old.known.items }
    ensures named { OnOk result (told.new.named.items ≡ with_text told.old.named.items entry.now) }
    ensures known { OnOk result (told.new.known.items
        ≡ set told.old.known.items entry.now.place (last_span (length told.new.named.items))) }
{
    if !is_last(&told.named, entry) {
        told.named.push(*entry)?;
    }
    let end = told.named.len();
    told.known[entry.place] = Span {
        first: end.saturating_sub(1),
        end,
    };
    Ok(())
}

// Tells whether the last entry has the text of the next one.
fn is_last(named: &[Entry], next: &Entry) -> bool
    ensures { result ≡ continues (last_of named.now) next.now }
{
    match named.last() {
        Some(last) => next == last,
        None => false,
    }
}

// The entries of the texts of a column, in order.
fn text_order<'a>(alloc: Global, heads: &[Ctor<'a>]) -> Result<Vec<Entry<'a>>, NoMemory>
    ensures same { IfOk result (λ v. IsPermutation (filter_map text_of (plain_ctors heads.now)) (entry_texts v.items)) }
    ensures each { IfOk result (λ v. All (λ e. IsEntry heads.now e) v.items) }
    ensures sorted { IfOk result (λ v. IsSorted entry_cmp v.items) }
{
    let mut entries = entries_of(alloc, heads)?;
    entries.sort()?;
    Ok(entries)
}

// The entries of the texts of a column, head by head.
fn entries_of<'a>(alloc: Global, heads: &[Ctor<'a>]) -> Result<Vec<Entry<'a>>, NoMemory>
    ensures same { IfOk result (λ v. entry_texts v.items ≡ filter_map text_of (plain_ctors heads.now)) }
    ensures each { IfOk result (λ v. All (λ e. IsEntry heads.now e) v.items) }
{
    let mut entries = Vec::with_capacity(alloc, heads.len())?;
    for (place, head) in heads.iter().enumerate() {
        if let Ctor::Text(text) = *head {
            entries.push(entry_of(text, place))?;
        }
    }
    Ok(entries)
}

// The entry of a text, which is the head at the place.
fn entry_of<'a>(text: &'a str, place: usize) -> Entry<'a>
    ensures text { result.text.now ≡ text.now }
    ensures utf8 { IsUtf8 result.text.now }
    ensures begin { result.begin ≡ first_number 8 text.now }
    ensures bytes { AreBytes text.now }
    ensures place { result.place ≡ place }
{
    Entry {
        begin: first_bytes(text.as_bytes()),
        text,
        place,
    }
}

// The first bytes as a number, of which the first byte counts most; a shorter text is followed by zeros.
fn first_bytes(bytes: &[u8]) -> u64
    ensures number { result ≡ first_number 8 bytes.now }
    ensures bytes { AreBytes bytes.now }
{
    let mut begin = 0;
    for place in 0..FIRST {
        begin = begin * 256 + byte_at(bytes, place);
    }
    begin
}

// The byte at the place, or 0 behind the last one.
fn byte_at(bytes: &[u8], place: usize) -> u64
    ensures byte { result ≡ slice_index_or bytes.now place 0 }
    ensures less { result < 256 }
{
    match bytes.get(place) {
        Some(byte) => *byte as u64,
        None => 0,
    }
}

// For each head which of the pieces it has. Where each text has its piece, the number of the text tells it.
fn text_spans(
    alloc: Global,
    pieces: &[Ctor],
    heads: &[Ctor],
    told: &Told,
) -> Result<Vec<Span>, NoMemory>
    requires rising { AllPairs Precedes (plain_ctors pieces.now) }
    requires heads { All (λ h. IsTrue (is_written (plain_ctor h))) heads.now }
    requires known { AreNumbered heads.now (entry_texts told.now.named.items) told.now.known.items }
    requires pieces { IsTrue (is_each_text (length told.now.named.items) pieces.now) →
        plain_ctors pieces.now ≡ map TextCtor (entry_texts told.now.named.items) }
    ensures { IfOk result (λ v. AreSpans (plain_ctors pieces.now) (plain_ctors heads.now) (map plain_span v.items)) }
{
    if is_each_found(pieces, told.named.len()) {
        all_spans(alloc, pieces, heads, &told.known)
    } else {
        spans_of(alloc, pieces, heads)
    }
}

// Tells whether the pieces that are found are as many as the texts, and the last one is not that of all others.
fn is_each_found(pieces: &[Ctor], count: usize) -> bool
    ensures { result ≡ is_each_text count pieces.now }
{
    pieces.len() == count && !is_other(pieces.last())
}

// Tells whether the piece is that of all texts that are not named.
fn is_other(piece: Option<&Ctor>) -> bool
    ensures { result ≡ is_other_text (option_copied piece.entry) }
{
    match piece {
        Some(Ctor::OtherText) => true,
        _ => false,
    }
}

// The spans of all heads: those that are known, and the others looked for.
fn all_spans(
    alloc: Global,
    pieces: &[Ctor],
    heads: &[Ctor],
    known: &[Span],
) -> Result<Vec<Span>, NoMemory>
    requires rising { AllPairs Precedes (plain_ctors pieces.now) }
    requires heads { All (λ h. IsTrue (is_written (plain_ctor h))) heads.now }
    requires len { length known.now ≡ length heads.now }
    requires known { AreKnownSpans (plain_ctors pieces.now) heads.now known.now }
    ensures { IfOk result (λ v. AreSpans (plain_ctors pieces.now) (plain_ctors heads.now) (map plain_span v.items)) }
{
    let mut spans = Vec::with_capacity(alloc, heads.len())?;
    for (place, head) in heads.iter().enumerate() {
        let span = known_or_searched(pieces, head, known[place]);
        spans.push(span)?;
    }
    Ok(spans)
}

// The span, if it is known, and else that of the head.
fn known_or_searched(pieces: &[Ctor], head: &Ctor, known: Span) -> Span
    requires rising { AllPairs Precedes (plain_ctors pieces.now) }
    requires head { IsTrue (is_written (plain_ctor head.now)) }
    requires known { known.first ≤ known.end → IsSpan (plain_ctors pieces.now) (plain_ctor head.now) (plain_span known) }
    ensures { IsSpan (plain_ctors pieces.now) (plain_ctor head.now) (plain_span result) }
{
    if known.first <= known.end {
        known
    } else {
        span_of(pieces, head, known, known, known)
    }
}
