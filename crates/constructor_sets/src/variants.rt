// The variants that the heads of a column have, by their numbers: those that are missing are not listed.
ghost use Rattle.std.specs.Prelude.{◌≡◌, ◌<◌, ◌≤◌, ◌^◌, ◌&&◌, ◌||◌, ℕ, not, nat_eq, nat_lt, length, slice_index_or};
ghost use Rattle.std.specs.Prelude.{false, IsTrue, IfOk, map};
ghost use Rattle.std.specs.List.{All, AllPairs, list_any, filter, filter_map};
ghost use Rattle.match_model.specs.Constructors.{VariantSet, VariantCtor};
ghost use Rattle.match_model.specs.Pieces.{each_below};
ghost use Rattle.pat_context.specs.Views.{plain_ctor, is_sure};
ghost use Rattle.constructor_sets.specs.Columns.{plain_ctors};
ghost use Rattle.constructor_sets.specs.Present.{is_sharp_head, ArePresent};
ghost use Rattle.constructor_sets.specs.Spans.{plain_span, IsSpan, AreSpans};
ghost use Rattle.constructor_sets.specs.Numbered.{variant_of, is_valued, is_listed, is_left_out, AreOnce, AreNumbers};

use crate::{PresentPieces, Span};
use no_memory::NoMemory;
use pat_context::{Ctor, PatCx, Validity};
use std::alloc::Global;

// How many heads are worth a table.
const MANY: usize = 64;

// How many numbers a table may have for each head.
const SPARSE: usize = 8;

// What the heads of a column of variants have, whether they leave one out, and which of them each head has.
pub(crate) fn present_variants<'a, C: PatCx>(
    alloc: Global,
    cx: &C,
    ty: C::Ty,
    validity: Validity,
    count: u32,
    later: bool,
    heads: &[Ctor<'a>],
) -> Result<PresentPieces<'a>, NoMemory>
    requires ty { C.is_type cx.now ty }
    requires set { (C.context cx.now).set_of ty ≡ VariantSet count later }
    requires heads { All (λ h. IsTrue (is_sharp_head (VariantSet count later) h)) (plain_ctors heads.now) }
    ensures { IfOk result (λ p. ArePresent (C.is_value cx.now) (C.context cx.now)
        (record { type = ty; sure = is_sure validity }) (plain_ctors heads.now)
        (plain_ctors p.ctors.items) p.missing (plain_ctors p.gaps.items) (map plain_span p.spans.items)) }
{
    let numbers = variant_numbers(alloc, heads)?;
    let missing = is_missing(cx, ty, validity, count, later, &numbers);
    let valued = valued_numbers(alloc, cx, ty, validity, count, later, numbers)?;
    let spans = variant_spans(alloc, &valued, heads)?;
    let ctors = variants_of(alloc, &valued)?;
    let gaps = Vec::new(alloc);
    Ok(PresentPieces {
        ctors,
        missing,
        gaps,
        spans,
    })
}

// The numbers of the variants in the column, ascending, each once.
fn variant_numbers(alloc: Global, heads: &[Ctor]) -> Result<Vec<u32>, NoMemory>
    ensures { IfOk result (λ v. AreNumbers (plain_ctors heads.now) v.items) }
{
    let numbers = numbers_of(alloc, heads)?;
    let end = end_of(&numbers);
    if is_worth_a_table(end, heads.len()) {
        marked_numbers(alloc, end, &numbers)
    } else {
        sorted_numbers(numbers)
    }
}

// Tells whether a table of so many numbers is worth its walk, where there are so many heads.
fn is_worth_a_table(end: usize, heads: usize) -> bool {
    MANY <= heads && end / SPARSE <= heads
}

// The numbers ascending, each once.
fn sorted_numbers(mut numbers: Vec<u32>) -> Result<Vec<u32>, NoMemory>
    ensures { IfOk result (λ v. AreOnce numbers.items v.items) }
{
    numbers.sort()?;
    numbers.dedup();
    Ok(numbers)
}

// The same, where all are below `end`: they are marked in a table, which is walked once.
fn marked_numbers(alloc: Global, end: usize, numbers: &[u32]) -> Result<Vec<u32>, NoMemory>
    requires few { end ≤ 2 ^ 32 }
    requires below { All (λ k. k < end) numbers.now }
    ensures { IfOk result (λ v. AreOnce numbers.now v.items) }
{
    let marks = marks_of(alloc, end, numbers)?;
    marked_places(alloc, numbers.len(), &marks)
}

// The places of the marks, of which there are at most so many.
fn marked_places(alloc: Global, most: usize, marks: &[bool]) -> Result<Vec<u32>, NoMemory>
    requires { length marks.now ≤ 2 ^ 32 }
    ensures { IfOk result (λ v. v.items ≡ filter (λ k. slice_index_or marks.now k false)
        (each_below (λ k. k) (length marks.now))) }
{
    let mut marked = Vec::with_capacity(alloc, most.min(marks.len()))?;
    for (place, is_there) in marks.iter().enumerate() {
        if *is_there {
            marked.push(place as u32)?;
        }
    }
    Ok(marked)
}

// A mark for each number.
fn marks_of(alloc: Global, end: usize, numbers: &[u32]) -> Result<Vec<bool>, NoMemory>
    requires { All (λ k. k < end) numbers.now }
    ensures len { IfOk result (λ v. length v.items ≡ end) }
    ensures marks { IfOk result (λ v. (n : ℕ) → slice_index_or v.items n false ≡ is_listed numbers.now n) }
{
    let mut marks = vec![in alloc; false; end]?;
    for k in numbers {
        marks[*k as usize] = true;
    }
    Ok(marks)
}

// One more than the greatest number.
fn end_of(numbers: &[u32]) -> usize
    ensures few { result ≤ 2 ^ 32 }
    ensures below { All (λ k. k < result) numbers.now }
{
    let mut end = 0;
    for k in numbers {
        end = end.max(*k as usize + 1);
    }
    end
}

// The numbers of the variants in the column.
fn numbers_of(alloc: Global, heads: &[Ctor]) -> Result<Vec<u32>, NoMemory>
    ensures { IfOk result (λ v. v.items ≡ filter_map variant_of (plain_ctors heads.now)) }
{
    let mut numbers = Vec::with_capacity(alloc, heads.len())?;
    for head in heads {
        if let Ctor::Variant(k) = *head {
            numbers.push(k)?;
        }
    }
    Ok(numbers)
}

// Those of the numbers whose variants have a value, mostly all of them.
fn valued_numbers<C: PatCx>(
    alloc: Global,
    cx: &C,
    ty: C::Ty,
    validity: Validity,
    count: u32,
    later: bool,
    numbers: Vec<u32>,
) -> Result<Vec<u32>, NoMemory>
    requires ty { C.is_type cx.now ty }
    requires set { (C.context cx.now).set_of ty ≡ VariantSet count later }
    requires numbers { All (λ k. k < count) numbers.items }
    ensures { IfOk result (λ v. v.items ≡ filter (is_valued
        (C.variant_empty_of cx.now ty) (is_sure validity)) numbers.items) }
{
    if are_valued(cx, ty, validity, count, later, &numbers) {
        Ok(numbers)
    } else {
        only_valued(alloc, cx, ty, validity, count, later, &numbers)
    }
}

// Tells whether all variants with these numbers have a value.
fn are_valued<C: PatCx>(
    cx: &C,
    ty: C::Ty,
    validity: Validity,
    count: u32,
    later: bool,
    numbers: &[u32],
) -> bool
    requires ty { C.is_type cx.now ty }
    requires set { (C.context cx.now).set_of ty ≡ VariantSet count later }
    requires numbers { All (λ k. k < count) numbers.now }
    ensures { IsTrue result → All (λ k. IsTrue (is_valued
        (C.variant_empty_of cx.now ty) (is_sure validity) k)) numbers.now }
{
    for k in numbers {
        if !is_valued(cx, ty, validity, count, later, *k) {
            return false;
        }
    }
    true
}

// Those of the numbers whose variants have a value, in a list of their own.
fn only_valued<C: PatCx>(
    alloc: Global,
    cx: &C,
    ty: C::Ty,
    validity: Validity,
    count: u32,
    later: bool,
    numbers: &[u32],
) -> Result<Vec<u32>, NoMemory>
    requires ty { C.is_type cx.now ty }
    requires set { (C.context cx.now).set_of ty ≡ VariantSet count later }
    requires numbers { All (λ k. k < count) numbers.now }
    ensures { IfOk result (λ v. v.items ≡ filter (is_valued
        (C.variant_empty_of cx.now ty) (is_sure validity)) numbers.now) }
{
    let mut valued = Vec::with_capacity(alloc, numbers.len())?;
    for k in numbers {
        if is_valued(cx, ty, validity, count, later, *k) {
            valued.push(*k)?;
        }
    }
    Ok(valued)
}

// The variants with these numbers.
fn variants_of<'a>(alloc: Global, numbers: &[u32]) -> Result<Vec<Ctor<'a>>, NoMemory>
    ensures { IfOk result (λ v. plain_ctors v.items ≡ map VariantCtor numbers.now) }
{
    let mut variants = Vec::with_capacity(alloc, numbers.len())?;
    for k in numbers {
        variants.push(Ctor::Variant(*k))?;
    }
    Ok(variants)
}

// For each head which of the variants with these numbers it has.
fn variant_spans(alloc: Global, numbers: &[u32], heads: &[Ctor]) -> Result<Vec<Span>, NoMemory>
    requires { AllPairs (λ j k. j < k) numbers.now }
    ensures { IfOk result (λ v. AreSpans (map VariantCtor numbers.now) (plain_ctors heads.now)
        (map plain_span v.items)) }
{
    let mut spans = Vec::with_capacity(alloc, heads.len())?;
    for head in heads {
        let span = variant_span(numbers, head);
        spans.push(span)?;
    }
    Ok(spans)
}

// Which of the variants the head has.
fn variant_span(numbers: &[u32], head: &Ctor) -> Span
    requires { AllPairs (λ j k. j < k) numbers.now }
    ensures { IsSpan (map VariantCtor numbers.now) (plain_ctor head.now) (plain_span result) }
{
    match *head {
        Ctor::Variant(k) => number_span(numbers, k),
        Ctor::Wild => Span {
            first: 0,
            end: numbers.len(),
        },
        _ => Span { first: 0, end: 0 },
    }
}

// Where the number stands among these. A column mostly names all variants from its first one on, so it is looked for
// first where it stands then.
fn number_span(numbers: &[u32], k: u32) -> Span
    requires { AllPairs (λ j k. j < k) numbers.now }
    ensures { IsSpan (map VariantCtor numbers.now) (VariantCtor k) (plain_span result) }
{
    let place = likely_place(numbers, k);
    if stands_at(numbers, place, k) {
        Span {
            first: place,
            end: place + 1,
        }
    } else {
        searched_span(numbers, k)
    }
}

// Where the number stands if these are all from the first of them on.
fn likely_place(numbers: &[u32], k: u32) -> usize {
    match numbers.first() {
        Some(first) => k.saturating_sub(*first) as usize,
        None => 0,
    }
}

// Where the number stands among these, by halving.
fn searched_span(numbers: &[u32], k: u32) -> Span
    requires { AllPairs (λ j k. j < k) numbers.now }
    ensures { IsSpan (map VariantCtor numbers.now) (VariantCtor k) (plain_span result) }
{
    match numbers.binary_search(&k) {
        Ok(place) => Span {
            first: place,
            end: place + 1,
        },
        Err(place) => Span {
            first: place,
            end: place,
        },
    }
}

// Tells whether there are later variants, or some variant has a value and its number is not among these.
fn is_missing<C: PatCx>(
    cx: &C,
    ty: C::Ty,
    validity: Validity,
    count: u32,
    later: bool,
    numbers: &[u32],
) -> bool
    requires ty { C.is_type cx.now ty }
    requires set { (C.context cx.now).set_of ty ≡ VariantSet count later }
    requires ascending { AllPairs (λ j k. j < k) numbers.now }
    ensures { result ≡ (later || list_any (is_left_out (C.variant_empty_of cx.now ty)
        (is_sure validity) numbers.now) (each_below (λ k. k) count)) }
{
    later || leaves_out(cx, ty, validity, count, later, numbers)
}

// Tells whether some variant has a value, and its number is not among these.
fn leaves_out<C: PatCx>(
    cx: &C,
    ty: C::Ty,
    validity: Validity,
    count: u32,
    later: bool,
    numbers: &[u32],
) -> bool
    requires ty { C.is_type cx.now ty }
    requires set { (C.context cx.now).set_of ty ≡ VariantSet count later }
    requires ascending { AllPairs (λ j k. j < k) numbers.now }
    ensures { result ≡ list_any (is_left_out (C.variant_empty_of cx.now ty) (is_sure validity) numbers.now)
        (each_below (λ k. k) count) }
{
    let mut place = 0;
    for k in 0..count {
        if stands_at(numbers, place, k) {
            place += 1;
        } else if is_valued(cx, ty, validity, count, later, k) {
            return true;
        }
    }
    false
}

// Tells whether the number stands at the place.
fn stands_at(numbers: &[u32], place: usize, k: u32) -> bool
    ensures { result ≡ (nat_lt place (length numbers.now) && nat_eq (slice_index_or numbers.now place 0) k) }
{
    if place < numbers.len() {
        numbers[place] == k
    } else {
        false
    }
}

// Tells whether the variant has a value at a place of the validity.
fn is_valued<C: PatCx>(
    cx: &C,
    ty: C::Ty,
    validity: Validity,
    count: u32,
    later: bool,
    k: u32,
) -> bool
    requires ty { C.is_type cx.now ty }
    requires set { (C.context cx.now).set_of ty ≡ VariantSet count later }
    requires below { k < count }
    ensures { result ≡ is_valued (C.variant_empty_of cx.now ty) (is_sure validity) k }
{
    match validity {
        Validity::Unsure => true,
        Validity::Sure => !cx.variant_empty(ty, k),
    }
}
