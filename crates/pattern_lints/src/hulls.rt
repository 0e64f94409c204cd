// The numbers of texts and of or-patterns, made once for each.
//
// A text has a number of all its scalar values. An or-pattern has the least range with the numbers of each alternative.
// Many ranges can stand beside one of them, so these numbers are noted by the patterns' uids.
ghost use Rattle.std.specs.Prelude.{◌≡◌, ◌≤◌, [], ℤ, pos, map, int_le, Some, IsTrue, IfOk, IfSome, OnOk, chars};
ghost use Rattle.match_model.specs.Constructors.{OrCtor};
ghost use Rattle.match_model.specs.Numbers.{MRange, Free, closed, is_from, is_up_to};
ghost use Rattle.pat_context.specs.Views.{plain_ctor};
ghost use Rattle.pattern_arena.specs.Trees.{tree, placed_ctor, plain_arm};
ghost use Rattle.range_split.specs.Numbers.{num_value};
ghost use Rattle.range_split.specs.Ends.{plain_end};
ghost use Rattle.range_split.specs.Ranges.{plain_range};
ghost use Rattle.pattern_lints.specs.Beside.{text_number, own_range, LiesBelow};
ghost use Rattle.pattern_lints.specs.Hulls.{is_kept, AreKnown, AreKnownIn, HasNoted, IsKnown, IsOnlyPart};
ghost use Rattle.pattern_lints.specs.Hulls.{IsWithin, SubsAreKnown, Widens, noted, noted_or_all};
ghost use Rattle.pattern_lints.specs.Meeting.{pattern_size};

use crate::places::is_or;
use indexmap::IndexMap;
use no_memory::NoMemory;
use pat_context::Ctor;
use pattern_arena::{CheckedArm, DePat};
use range_split::{End, Num, Range};
use slice_split::Shape;
use std::alloc::Global;

// The numbers of texts and or-patterns, by uid.
#[derive(Drop)]
pub(crate) struct Hulls {
    of: IndexMap<u64, Range>,
}

/// The range of all numbers.
pub(crate) fn all_numbers() -> Range
    ensures { plain_range result ≡ record { low = Free; high = Free } }
{
    Range::between(&End::Free, &End::Free)
}

/// The range of one number.
pub(crate) fn one_number(number: u128) -> Range
    ensures { plain_range result ≡ closed (pos number) (pos number) }
{
    let at = End::At(Num::new(false, number));
    Range::between(&at, &at)
}

// The scalar value of the character.
fn scalar_value(c: char) -> u128
    ensures { result ≡ c }
{
    u128::from(u32::from(c))
}

// A number of the text, of 64 bits: its scalar values are digits, in a base that spreads them.
fn text_number(text: &str) -> u128
    ensures { result ≡ text_number (chars text.now) }
{
    let mut number: u128 = 0;
    for c in text.chars() {
        number = (number * 1_099_511_628_211 + scalar_value(c)) % 18_446_744_073_709_551_616;
    }
    number
}

// The numbers of the values that the constructor builds.
fn own_numbers(ctor: &Ctor) -> Range
    ensures { plain_range result ≡ own_range (plain_ctor ctor.now) }
{
    match *ctor {
        Ctor::Numbers(range) => range,
        Ctor::Variant(variant) => one_number(variant as u128),
        Ctor::Flag(flag) => { if flag { one_number(1) } else { one_number(0) } }
        Ctor::Row(Shape::Fixed(len)) => one_number(len as u128),
        Ctor::Text(text) => one_number(text_number(text)),
        _ => all_numbers(),
    }
}

// The lesser of two numbers.
fn lesser(one: &Num, other: &Num) -> Num
    ensures first { IsTrue (int_le (num_value result) (num_value one.now)) }
    ensures second { IsTrue (int_le (num_value result) (num_value other.now)) }
{
    if one.is_at_most(other) { *one } else { *other }
}

// The greater of two numbers.
fn greater(one: &Num, other: &Num) -> Num
    ensures first { IsTrue (int_le (num_value one.now) (num_value result)) }
    ensures second { IsTrue (int_le (num_value other.now) (num_value result)) }
{
    if one.is_at_most(other) { *other } else { *one }
}

// The lower of two low ends.
fn lower(one: &End, other: &End) -> End
    ensures first { (x : ℤ) → IsTrue (is_from (plain_end one.now) x) → IsTrue (is_from (plain_end result) x) }
    ensures second { (x : ℤ) → IsTrue (is_from (plain_end other.now) x) → IsTrue (is_from (plain_end result) x) }
{
    let End::At(first) = one else {
        return End::Free;
    };
    let End::At(second) = other else {
        return End::Free;
    };
    End::At(lesser(first, second))
}

// The higher of two high ends.
fn higher(one: &End, other: &End) -> End
    ensures first { (x : ℤ) → IsTrue (is_up_to (plain_end one.now) x) → IsTrue (is_up_to (plain_end result) x) }
    ensures second { (x : ℤ) → IsTrue (is_up_to (plain_end other.now) x) → IsTrue (is_up_to (plain_end result) x) }
{
    let End::At(first) = one else {
        return End::Free;
    };
    let End::At(second) = other else {
        return End::Free;
    };
    End::At(greater(first, second))
}

// The least range that has the numbers of both.
fn hull(one: &Range, other: &Range) -> Range
    ensures first { IsWithin (plain_range one.now) (plain_range result) }
    ensures second { IsWithin (plain_range other.now) (plain_range result) }
{
    let low = lower(&one.low(), &other.low());
    let high = higher(&one.high(), &other.high());
    match Range::new(low, high) {
        Some(range) => range,
        None => all_numbers(),
    }
}

// Tells whether the numbers of such a pattern are noted.
fn is_kept(ctor: &Ctor) -> bool
    ensures { result ≡ is_kept (plain_ctor ctor.now) }
{
    match ctor {
        Ctor::Text(_) | Ctor::Or => true,
        _ => false,
    }
}

// The numbers that are noted for the uid; all, where none are.
fn noted_numbers(hulls: &Hulls, uid: u64) -> Range
    ensures { plain_range result ≡ noted_or_all hulls.now uid }
{
    match hulls.of.get(&uid) {
        Some(numbers) => *numbers,
        None => all_numbers(),
    }
}

/// The numbers of the values that the pattern matches. It takes no memory.
pub(crate) fn numbers_of<'a, T: Copy>(hulls: &Hulls, p: &DePat<'a, T>) -> Range
    ensures { AreKnown hulls.now (tree p.entry.now) → LiesBelow (tree p.entry.now) [] (plain_range result) }
{
    if is_kept(&p.form.ctor) {
        noted_numbers(hulls, p.uid)
    } else {
        own_numbers(&p.form.ctor)
    }
}

// The numbers of the values that the alternatives match.
fn alternative_numbers<'a, T: Copy>(hulls: &Hulls, p: &DePat<'a, T>) -> Range
    requires or { placed_ctor p.now ≡ OrCtor }
    requires known { SubsAreKnown hulls.now p.now }
    ensures { LiesBelow (tree p.entry.now) [] (plain_range result) }
{
    let Some(first) = p.form.subs.first() else {
        return all_numbers();
    };
    let mut numbers = numbers_of(hulls, first);
    for q in p.form.subs {
        let own = numbers_of(hulls, q);
        numbers = hull(&numbers, &own);
    }
    numbers
}

// The numbers of all alternatives of an or-pattern, or the pattern's own.
fn numbers_once<'a, T: Copy>(hulls: &Hulls, p: &DePat<'a, T>) -> Range
    requires { SubsAreKnown hulls.now p.now }
    ensures { LiesBelow (tree p.entry.now) [] (plain_range result) }
{
    if is_or(&p.form.ctor) {
        alternative_numbers(hulls, p)
    } else {
        own_numbers(&p.form.ctor)
    }
}

// The numbers, and those that are noted for the uid already.
fn widened(hulls: &Hulls, uid: u64, numbers: Range) -> Range
    ensures first { (r : MRange) → noted hulls.now uid ≡ Some r → IsWithin r (plain_range result) }
    ensures second { IsWithin (plain_range numbers) (plain_range result) }
{
    match hulls.of.get(&uid) {
        Some(before) => hull(before, &numbers),
        None => numbers,
    }
}

// Notes the numbers for the uid, besides those that are noted for it already.
fn note(hulls: &mut Hulls, uid: u64, numbers: Range) -> Result<(), NoMemory>
    ensures widens { OnOk result (Widens hulls.old hulls.new) }
    ensures noted { OnOk result (HasNoted hulls.new uid (plain_range numbers)) }
{
    let all = widened(hulls, uid, numbers);
    hulls.of.insert(uid, all)?;
    Ok(())
}

// Notes the numbers of the pattern itself, where it is a text or an or-pattern.
fn note_own<'a, T: Copy>(hulls: &mut Hulls, p: &DePat<'a, T>) -> Result<(), NoMemory>
    requires { SubsAreKnown hulls.old p.now }
    ensures widens { OnOk result (Widens hulls.old hulls.new) }
    ensures known { OnOk result (IsKnown hulls.new (tree p.entry.now)) }
{
    if !is_kept(&p.form.ctor) {
        return Ok(());
    }
    let numbers = numbers_once(hulls, p);
    note(hulls, p.uid, numbers)?;
    Ok(())
}

// The pattern below, where it is the only part.
fn only_part<'a, T: Copy>(p: &DePat<'a, T>) -> Option<&'a DePat<'a, T>>
    ensures { IfSome result (λ q. IsOnlyPart p.entry.now q.now) }
{
    if p.form.subs.len() != 1 {
        return None;
    }
    if is_kept(&p.form.ctor) {
        return None;
    }
    let only = p.sub(0);
    Some(only)
}

// The first pattern further in that has not one part alone, as behind references.
fn behind_only_parts<'a, T: Copy>(p: &DePat<'a, T>) -> DePat<'a, T>
    ensures known { (h : Hulls) → AreKnown h (tree result) → AreKnown h (tree p.entry.now) }
    ensures size { pattern_size (tree result) ≤ pattern_size (tree p.entry.now) }
{
    let mut here = *p;
    while let Some(sub) = only_part(&here) {
        here = *sub;
    }
    here
}

// Notes the numbers of the texts and or-patterns in the pattern.
#[cycle(noting)]
fn note_in<'a, T: Copy>(hulls: &mut Hulls, p: &DePat<'a, T>) -> Result<(), NoMemory>
    ensures widens { OnOk result (Widens hulls.old hulls.new) }
    ensures known { OnOk result (AreKnown hulls.new (tree p.entry.now)) }
{
    let here = behind_only_parts(p);
    note_parts(hulls, &here)?;
    Ok(())
}

// Notes them part by part.
#[cycle(noting)]
fn note_parts<'a, T: Copy>(hulls: &mut Hulls, p: &DePat<'a, T>) -> Result<(), NoMemory>
    ensures widens { OnOk result (Widens hulls.old hulls.new) }
    ensures known { OnOk result (AreKnown hulls.new (tree p.entry.now)) }
{
    for q in p.form.subs {
        note_in(hulls, q)?;
    }
    note_own(hulls, p)?;
    Ok(())
}

// No numbers yet.
pub(crate) fn no_hulls(alloc: Global) -> Hulls {
    Hulls {
        of: IndexMap::new(alloc),
    }
}

/// The numbers of the texts and or-patterns in the arms. The only error is want of memory.
pub(crate) fn find_hulls<'a, T: Copy>(
    alloc: Global,
    arms: &'a [CheckedArm<'a, T>],
) -> Result<Hulls, NoMemory>
    ensures { IfOk result (λ h. AreKnownIn h (map plain_arm arms.entry.now)) }
{
    let mut hulls = no_hulls(alloc);
    for arm in arms {
        note_in(&mut hulls, &arm.pat)?;
    }
    Ok(hulls)
}
