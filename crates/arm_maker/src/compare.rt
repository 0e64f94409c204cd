// Which of two lists of numbers is first.
ghost use Rattle.std.specs.Prelude.{◌≡◌};
ghost use Rattle.std.specs.Ordering.{int_cmp};
ghost use Rattle.range_split.specs.Numbers.{num_value};
ghost use Rattle.arm_maker.specs.Turns.{key_cmp};

use range_split::Num;
use std::cmp::Ordering;

// Which of two numbers is less.
fn compare_numbers(first: &Num, second: &Num) -> Ordering
    ensures { result ≡ int_cmp (num_value first.now) (num_value second.now) }
{
    if !second.is_at_most(first) {
        return Ordering::Less;
    }
    if first.is_at_most(second) {
        return Ordering::Equal;
    }
    Ordering::Greater
}

// Which of two lists is first: by the first numbers that differ; a list stands before those that go on from it.
pub(crate) fn compare_keys(first: &[Num], second: &[Num]) -> Ordering
    ensures { result ≡ key_cmp first.now second.now }
{
    for i in 0..first.len() {
        if i >= second.len() {
            return Ordering::Greater;
        }
        match compare_numbers(&first[i], &second[i]) {
            Ordering::Less => return Ordering::Less,
            Ordering::Greater => return Ordering::Greater,
            Ordering::Equal => {}
        }
    }
    if first.len() < second.len() {
        Ordering::Less
    } else {
        Ordering::Equal
    }
}
