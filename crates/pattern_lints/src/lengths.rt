// The lengths of rows to try for two patterns.
ghost use Rattle.std.specs.Prelude.{◌≡◌, ◌+◌, ◌≤◌, ◌^◌, None, Some};
ghost use Rattle.pat_context.specs.Views.{plain_set, plain_ctor};
ghost use Rattle.pattern_arena.specs.Trees.{tree};
ghost use Rattle.pattern_lints.specs.Meeting.{plain_head};
ghost use Rattle.pattern_lints.specs.Lengths.{head_least, is_longer, leaves_room, greatest_alone, slice_lengths};
ghost use Rattle.pattern_lints.specs.Lengths.{tried_lengths};

use crate::places::{back_of, front_of};
use pat_context::{Ctor, CtorSet};
use pattern_arena::DePat;
use slice_split::Shape;

/// The first length to try, and how many to try from it on. It takes no memory.
pub(crate) fn lengths<'a, T: Copy>(
    set: &CtorSet,
    p: &'a DePat<'a, T>,
    q: Option<&'a DePat<'a, T>>,
    spot: Option<(usize, usize)>,
) -> (u64, u64)
    requires first { head_least (Some (tree p.now)) ≤ 2 ^ 33 }
    requires second { head_least (plain_head q) ≤ 2 ^ 33 }
    ensures first { result.0 ≡ (tried_lengths (plain_set set.now) spot (Some (tree p.entry.now))
        (plain_head q.entry)).0 }
    ensures count { result.1 ≡ (tried_lengths (plain_set set.now) spot (Some (tree p.entry.now))
        (plain_head q.entry)).1 }
    ensures held { result.0 + result.1 ≤ 2 ^ 64 }
{
    match *set {
        CtorSet::Rows { len: Some(n) } => one_length(n),
        _ => {
            let alone = is_greatest_alone(p, q, spot);
            written_lengths(Some(p), q, alone)
        }
    }
}

// The one length of an array.
fn one_length(n: u64) -> (u64, u64)
    ensures first { result.0 ≡ n }
    ensures count { result.1 ≡ 1 }
    ensures held { result.0 + result.1 ≤ 2 ^ 64 }
{
    (n, 1)
}

// Whether only the greatest length is tried: both go on to longer rows, and no two patterns below are to stand at one
// part. Then rows of the greatest length are matched wherever shorter ones are. What stands at one item of them stood
// at one item of the shorter ones too.
fn is_greatest_alone<'a, T: Copy>(
    p: &'a DePat<'a, T>,
    q: Option<&'a DePat<'a, T>>,
    spot: Option<(usize, usize)>,
) -> bool
    ensures { result ≡ greatest_alone spot (Some (tree p.entry.now)) (plain_head q.entry) }
{
    match spot {
        None => is_longer(&p.form.ctor) && has_room(q),
        Some(_) => false,
    }
}

// Whether there is no pattern, or it is a row with a rest.
fn has_room<'a, T: Copy>(q: Option<&'a DePat<'a, T>>) -> bool
    ensures { result ≡ leaves_room (plain_head q.entry) }
{
    match q {
        None => true,
        Some(q) => is_longer(&q.form.ctor),
    }
}

// Whether the constructor is a row with a rest.
fn is_longer(ctor: &Ctor) -> bool
    ensures { result ≡ is_longer (plain_ctor ctor.now) }
{
    match *ctor {
        Ctor::Row(Shape::Longer { .. }) => true,
        _ => false,
    }
}

// The greatest length, of which each item is written by one of the two, or all from the least common one up to it.
fn written_lengths<'a, T: Copy>(
    p: Option<&'a DePat<'a, T>>,
    q: Option<&'a DePat<'a, T>>,
    alone: bool,
) -> (u64, u64)
    requires first { head_least (plain_head p) ≤ 2 ^ 33 }
    requires second { head_least (plain_head q) ≤ 2 ^ 33 }
    ensures first { result.0 ≡ (slice_lengths alone (plain_head p.entry) (plain_head q.entry)).0 }
    ensures count { result.1 ≡ (slice_lengths alone (plain_head p.entry) (plain_head q.entry)).1 }
    ensures held { result.0 + result.1 ≤ 2 ^ 64 }
{
    let (first, second) = (front_of(p), front_of(q));
    let (last, other) = (back_of(p), back_of(q));
    let low = (first + last).max(second + other);
    let high = first.max(second) + last.max(other);
    if alone {
        (high, 1)
    } else {
        (low, high - low + 1)
    }
}
