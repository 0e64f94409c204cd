// What the patterns of a row say beside a range: between which numbers lies the number of a part of the value.
//
// Two ranges that end and begin at one number cannot meet where their rows differ in another part, as `(0, 0..=5)` and
// `(1, 5..=9)` do. A column is such a part, and the number of a value there is its own, or that of its variant.
ghost use Rattle.std.specs.Prelude.{◌≡◌, ◌∷◌, ℤ, slice_get, Some, IsTrue, IfSome, int_le};
ghost use Rattle.match_model.specs.Numbers.{in_range};
ghost use Rattle.match_model.specs.ArenaPatterns.{subs_of};
ghost use Rattle.pat_context.specs.Views.{plain_ctor};
ghost use Rattle.pattern_arena.specs.Trees.{tree};
ghost use Rattle.range_split.specs.Ranges.{plain_range};
ghost use Rattle.range_split.specs.Numbers.{num_value};
ghost use Rattle.range_split.specs.Ends.{plain_end};
ghost use Rattle.pattern_lints.specs.Meeting.{plain_head};
ghost use Rattle.pattern_lints.specs.Beside.{stands_first, held_of, low_held, high_held};
ghost use Rattle.pattern_lints.specs.Beside.{MatchesPart, LiesBelow, LiesBeside};
ghost use Rattle.pattern_lints.specs.Hulls.{AreKnown};

use crate::hulls::{Hulls, all_numbers, numbers_of};
use crate::places::{is_or, nth};
use pat_context::Ctor;
use pattern_arena::DePat;
use range_split::{End, Num, Range};
use slice_split::Shape;

// A column beside ranges.
#[derive(Drop)]
pub(crate) struct Column {
    // How many steps of a range's position lead to where the column's own steps begin.
    pub(crate) depth: usize,
    // The numbers of the parts that lead to the column.
    pub(crate) steps: Vec<usize>,
}

/// Tells whether the pattern with the number below the constructor stands at the part with that number, in every value.
pub(crate) fn stands_first(ctor: &Ctor, i: usize) -> bool
    ensures { result ≡ stands_first (plain_ctor ctor.now) i }
{
    match *ctor {
        Ctor::Single | Ctor::Point | Ctor::Variant(_) => true,
        Ctor::Row(Shape::Fixed(_)) => true,
        Ctor::Row(Shape::Longer { front, .. }) => (i as u64) < front,
        _ => false,
    }
}

// The pattern for the part with the number, where each value that is matched has that part.
fn part_pattern<'a, T: Copy>(p: &'a DePat<'a, T>, i: usize) -> Option<&'a DePat<'a, T>>
    ensures matches { MatchesPart (tree p.entry.now) i (plain_head result) }
    ensures sub { IfSome result (λ q. slice_get (subs_of (tree p.entry.now)) i ≡ Some (tree q.now)) }
{
    if stands_first(&p.form.ctor, i) {
        nth(p, i)
    } else {
        None
    }
}

// The numbers of the part to which the steps lead, in the values that the pattern matches.
fn numbers_below<'a, T: Copy>(hulls: &Hulls, p: &'a DePat<'a, T>, steps: &[usize]) -> Range
    ensures { AreKnown hulls.now (tree p.entry.now) → LiesBelow (tree p.entry.now) steps.now (plain_range result) }
{
    match steps.split_first() {
        None => numbers_of(hulls, p),
        Some((i, rest)) => match part_pattern(p, *i) {
            None => all_numbers(),
            Some(sub) => numbers_below(hulls, sub, rest),
        },
    }
}

// The same, where the values are matched along a path that goes on at the pattern with the number `i` below.
fn numbers_at_step<'a, T: Copy>(
    hulls: &Hulls,
    p: &'a DePat<'a, T>,
    i: usize,
    rest: &[usize],
    steps: &[usize],
) -> Range
    ensures { AreKnown hulls.now (tree p.entry.now)
        → LiesBeside (tree p.entry.now) (i ∷ rest.now) 0 steps.now (plain_range result) }
{
    match steps.split_first() {
        Some((j, behind)) => {
            if i == *j || !stands_first(&p.form.ctor, *j) {
                return all_numbers();
            }
            match nth(p, *j) {
                None => all_numbers(),
                Some(sub) => numbers_below(hulls, sub, behind),
            }
        }
        None => all_numbers(),
    }
}

/// The numbers of a part beside a range, in the values that the pattern matches along the path to the range. The steps
/// lead to the part, from so many steps along the range's position. It takes no memory.
pub(crate) fn numbers_beside<'a, T: Copy>(
    hulls: &Hulls,
    p: &'a DePat<'a, T>,
    path: &[usize],
    depth: usize,
    steps: &[usize],
) -> Range
    ensures { AreKnown hulls.now (tree p.entry.now)
        → LiesBeside (tree p.entry.now) path.now depth steps.now (plain_range result) }
{
    let Some((i, rest)) = path.split_first() else {
        return all_numbers();
    };
    let Some(sub) = nth(p, *i) else {
        return all_numbers();
    };
    if is_or(&p.form.ctor) {
        numbers_beside(hulls, sub, rest, depth, steps)
    } else if depth > 0 {
        numbers_beside(hulls, sub, rest, depth - 1, steps)
    } else {
        numbers_at_step(hulls, p, *i, rest, steps)
    }
}

// The number of a low end; of a free one the least that is held.
fn low_number(low: &End) -> Num
    ensures { num_value result ≡ low_held (plain_end low.now) }
{
    match low {
        End::Free => Num::new(true, u128::MAX),
        End::At(number) => *number,
    }
}

// The number of a high end; of a free one the greatest that is held.
fn high_number(high: &End) -> Num
    ensures { num_value result ≡ high_held (plain_end high.now) }
{
    match high {
        End::Free => Num::new(false, u128::MAX),
        End::At(number) => *number,
    }
}

/// The least and the greatest number of the range, as far as they can be held. It takes no memory.
pub(crate) fn bounds(range: &Range) -> (Num, Num)
    ensures { (x : ℤ) → IsTrue (in_range (plain_range range.now) x)
        → IsTrue (int_le (num_value result.0) (held_of x)) × IsTrue (int_le (held_of x) (num_value result.1)) }
{
    (low_number(&range.low()), high_number(&range.high()))
}
