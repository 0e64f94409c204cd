// Several columns as one: behind the number in the first stand digits that are mixed of those in others.
//
// Rows of many parts may differ in no single one, as those of even and odd parity do. So the numbers in the columns
// of a group are mixed into one digit: rows with the same numbers there have the same digit, and others seldom. Where
// a row has no single number in a column of a group, any digit is possible. So whatever the groups are, rows that the
// first column tells apart stay apart.
ghost use Rattle.std.specs.Prelude.{◌≡◌, ◌<◌, ◌≤◌, ℕ, ℤ, pos, List, IsTrue, IfSome};
ghost use Rattle.match_model.specs.Numbers.{in_range, is_from, is_up_to};
ghost use Rattle.match_model.specs.Values.{MValue};
ghost use Rattle.pattern_arena.specs.Trees.{tree};
ghost use Rattle.range_split.specs.Ends.{plain_end};
ghost use Rattle.range_split.specs.Ranges.{plain_range};
ghost use Rattle.range_split.specs.Numbers.{num_value};
ghost use Rattle.pattern_lints.specs.Hulls.{AreKnown};
ghost use Rattle.pattern_lints.specs.Mixing.{mix, mixed_with, with_digit, last_digit, with_digits_of};
ghost use Rattle.pattern_lints.specs.Mixing.{first_number, number_of, LiesAt};

use crate::beside::{Column, numbers_beside};
use crate::hulls::{Hulls, all_numbers, one_number};
use pattern_arena::DePat;
use range_split::{End, Num, Range};

// Columns whose numbers are mixed into one digit.
#[derive(Drop)]
pub(crate) struct Group {
    pub(crate) columns: Vec<Column>,
}

// Columns that are taken together.
#[derive(Drop)]
pub(crate) struct Columns {
    // The column by whose number rows are told apart first. Without one, all have the number 0.
    pub(crate) first: Option<Column>,
    // Each gives one more digit.
    pub(crate) groups: Vec<Group>,
}

// The number of the range, where it has one alone.
fn only_number(range: &Range) -> Option<Num>
    ensures { IfSome result (λ n. (x : ℤ) → IsTrue (in_range (plain_range range.now) x) → x ≡ num_value n) }
{
    if !range.is_single() {
        return None;
    }
    match range.low() {
        End::At(number) => Some(number),
        End::Free => None,
    }
}

// A number of both, below the greatest prime of 64 bits.
fn mix(one: &Num, other: &Num) -> u128
    ensures { result ≡ mix (num_value one.now) (num_value other.now) }
{
    let first = one.size % 18_446_744_073_709_551_557;
    let second = other.size % 18_446_744_073_709_551_557;
    (first * 1_099_511_628_211 + second) % 18_446_744_073_709_551_557
}

// The numbers that are mixed of one of the first and one of the second.
fn mixed_numbers(one: &Range, other: &Range) -> Range
    ensures { (x y : ℤ) → IsTrue (in_range (plain_range one.now) x) → IsTrue (in_range (plain_range other.now) y)
        → IsTrue (in_range (plain_range result) (pos (mix x y))) }
{
    let Some(first) = only_number(one) else {
        return all_numbers();
    };
    let Some(second) = only_number(other) else {
        return all_numbers();
    };
    one_number(mix(&first, &second))
}

// The numbers that are mixed of the given ones and those in the columns.
fn mixed_with<'a, T: Copy>(
    hulls: &Hulls,
    p: &'a DePat<'a, T>,
    path: &[usize],
    first: Range,
    others: &[Column],
) -> Range
    ensures { AreKnown hulls.now (tree p.entry.now) → (n : List ℕ → MValue → ℤ)
        → LiesAt (tree p.entry.now) path.now n (plain_range first)
        → LiesAt (tree p.entry.now) path.now (λ position v. mixed_with (n position v) others.now position v)
        (plain_range result) }
{
    let mut numbers = first;
    for column in others {
        let more = numbers_beside(hulls, p, path, column.depth, &column.steps);
        numbers = mixed_numbers(&numbers, &more);
    }
    numbers
}

// The least and the greatest last digit of the numbers, in base 2^16; any digit, where there are several numbers.
fn last_digits(numbers: &Range) -> (u128, u128)
    ensures digits { (x : ℤ) → IsTrue (in_range (plain_range numbers.now) x)
        → (result.0 ≤ last_digit x) × (last_digit x ≤ result.1) }
    ensures least { result.0 < 65536 }
    ensures greatest { result.1 < 65536 }
{
    match only_number(numbers) {
        Some(number) => {
            let digit = number.size % 65_536;
            (digit, digit)
        }
        None => (0, 65_535),
    }
}

// The number with one more digit, if 128 bits can hold it.
fn with_digit(number: &Num, digit: u128) -> Option<Num>
    requires { digit < 65536 }
    ensures { IfSome result (λ n. num_value n ≡ with_digit (num_value number.now) digit) }
{
    if number.size >= 5_192_296_858_534_827_628_530_496_329_220_096 {
        return None;
    }
    let size = number.size * 65_536;
    if number.negative {
        Some(Num::new(true, size - digit))
    } else {
        Some(Num::new(false, size + digit))
    }
}

// The end with one more digit; a free one, if 128 bits cannot hold it.
fn end_with(end: &End, digit: u128) -> End
    requires { digit < 65536 }
    ensures low { (x : ℤ) (d : ℕ) → IsTrue (is_from (plain_end end.now) x) → digit ≤ d
        → IsTrue (is_from (plain_end result) (with_digit x d)) }
    ensures high { (x : ℤ) (d : ℕ) → IsTrue (is_up_to (plain_end end.now) x) → d ≤ digit
        → IsTrue (is_up_to (plain_end result) (with_digit x d)) }
{
    match end {
        End::Free => End::Free,
        End::At(number) => match with_digit(number, digit) {
            Some(longer) => End::At(longer),
            None => End::Free,
        },
    }
}

// The numbers, each with the last digit of one of the further numbers behind it.
fn numbers_with(numbers: &Range, further: &Range) -> Range
    ensures { (x y : ℤ) → IsTrue (in_range (plain_range numbers.now) x) → IsTrue (in_range (plain_range further.now) y)
        → IsTrue (in_range (plain_range result) (with_digit x (last_digit y))) }
{
    let (least, greatest) = last_digits(further);
    let low = end_with(&numbers.low(), least);
    let high = end_with(&numbers.high(), greatest);
    match Range::new(low, high) {
        Some(range) => range,
        None => all_numbers(),
    }
}

// The numbers with one more digit for each group.
fn with_groups<'a, T: Copy>(
    hulls: &Hulls,
    p: &'a DePat<'a, T>,
    path: &[usize],
    first: Range,
    groups: &[Group],
) -> Range
    ensures { AreKnown hulls.now (tree p.entry.now) → (n : List ℕ → MValue → ℤ)
        → LiesAt (tree p.entry.now) path.now n (plain_range first)
        → LiesAt (tree p.entry.now) path.now (λ position v. with_digits_of (n position v) groups.now position v)
        (plain_range result) }
{
    let mut numbers = first;
    for group in groups {
        let further = mixed_with(hulls, p, path, one_number(0), &group.columns);
        numbers = numbers_with(&numbers, &further);
    }
    numbers
}

// The number in the first column, or 0 where there is none.
fn first_numbers<'a, T: Copy>(
    hulls: &Hulls,
    p: &'a DePat<'a, T>,
    path: &[usize],
    first: &Option<Column>,
) -> Range
    ensures { AreKnown hulls.now (tree p.entry.now)
        → LiesAt (tree p.entry.now) path.now (first_number first.now) (plain_range result) }
{
    match first {
        Some(column) => numbers_beside(hulls, p, path, column.depth, &column.steps),
        None => one_number(0),
    }
}

/// The number in the columns, in the values that the pattern matches along the path to a range. It takes no memory.
pub(crate) fn numbers_in<'a, T: Copy>(
    hulls: &Hulls,
    p: &'a DePat<'a, T>,
    path: &[usize],
    columns: &Columns,
) -> Range
    ensures { AreKnown hulls.now (tree p.entry.now)
        → LiesAt (tree p.entry.now) path.now (number_of columns.now) (plain_range result) }
{
    let first = first_numbers(hulls, p, path, &columns.first);
    with_groups(hulls, p, path, first, &columns.groups)
}
