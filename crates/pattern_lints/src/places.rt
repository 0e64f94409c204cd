// The patterns for the parts of a value, and the parts where patterns stand.
ghost use Rattle.std.specs.Prelude.{◌≡◌, ◌<◌, ◌+◌, length, slice_get, Some};
ghost use Rattle.match_model.specs.ArenaPatterns.{subs_of};
ghost use Rattle.match_model.specs.Constructors.{LongerShape, RowCtor, OrCtor};
ghost use Rattle.pat_context.specs.Parts.{Tells};
ghost use Rattle.pat_context.specs.Views.{plain_ctor};
ghost use Rattle.pattern_arena.specs.Trees.{tree, placed_ctor, placed_subs};
ghost use Rattle.pattern_lints.specs.Meeting.{plain_head, head_by, part_head, place_of, head_front, head_back, Fits};
ghost use Rattle.pattern_lints.specs.Meeting.{HeadFits, Stands, Skipped, spot_part, head_ctor, IsWritten, IsAlike};
ghost use Rattle.pattern_lints.specs.Meeting.{front_by, back_by, IsAlikeHead};
ghost use Rattle.pattern_lints.specs.Lengths.{IsSpotOf, SpotIsBelow};

use constructor_sets::has_piece;
use pat_context::Ctor;
use pattern_arena::DePat;
use slice_split::Shape;

/// The pattern below with the number, where there is one.
pub(crate) fn nth<'a, T: Copy>(p: &'a DePat<'a, T>, i: usize) -> Option<&'a DePat<'a, T>>
    ensures { plain_head result ≡ slice_get (subs_of (tree p.entry.now)) i }
{
    if i < p.form.subs.len() {
        Some(p.sub(i))
    } else {
        None
    }
}

// The pattern for a part, below a row with a rest.
fn nth_beside<'a, T: Copy>(
    p: &'a DePat<'a, T>,
    front: u64,
    back: u64,
    n: u64,
    k: u64,
) -> Option<&'a DePat<'a, T>>
    requires count { length (placed_subs p.now) ≡ front + back }
    requires below { k < n }
    ensures { plain_head result ≡ head_by (RowCtor (LongerShape front back)) (subs_of (tree p.entry.now)) n k }
{
    if k < front {
        nth(p, k as usize)
    } else if back < n - k {
        None
    } else {
        nth(p, p.form.subs.len() - (n - k) as usize)
    }
}

// Of a value with `n` parts, the pattern for the part with the number `k`, below the pattern.
fn sub_for<'a, T: Copy>(p: &'a DePat<'a, T>, n: u64, k: u64) -> Option<&'a DePat<'a, T>>
    requires fits { Fits (placed_ctor p.now) (length (placed_subs p.now)) n }
    requires below { k < n }
    ensures { plain_head result ≡ head_by (placed_ctor p.entry.now) (subs_of (tree p.entry.now)) n k }
{
    match p.form.ctor {
        Ctor::Row(Shape::Longer { front, back }) => nth_beside(p, front, back, n, k),
        _ => nth(p, k as usize),
    }
}

/// Of a value with `n` parts, the pattern for the part with the number `k`.
pub(crate) fn part_of<'a, T: Copy>(
    p: Option<&'a DePat<'a, T>>,
    n: u64,
    k: u64,
) -> Option<&'a DePat<'a, T>>
    requires fits { HeadFits (plain_head p) n }
    requires below { k < n }
    ensures { plain_head result ≡ part_head (plain_head p.entry) n k }
{
    match p {
        None => None,
        Some(p) => sub_for(p, n, k),
    }
}

/// Of a value with `n` parts, the number of the part where the pattern with the number `i` stands.
pub(crate) fn place_in(ctor: &Ctor, count: usize, n: u64, i: usize) -> u64
    requires fits { Fits (plain_ctor ctor.now) count n }
    requires below { i < count }
    ensures { result ≡ place_of (plain_ctor ctor.now) n i }
{
    match *ctor {
        Ctor::Row(Shape::Longer { front, .. }) => {
            if (i as u64) < front {
                i as u64
            } else {
                n - (count - i) as u64
            }
        }
        _ => i as u64,
    }
}

// How many patterns stand at the front below the pattern.
fn front_below<'a, T: Copy>(p: &'a DePat<'a, T>) -> u64
    ensures { result ≡ front_by (placed_ctor p.entry.now) (length (placed_subs p.entry.now)) }
{
    match p.form.ctor {
        Ctor::Row(Shape::Longer { front, .. }) => front,
        _ => p.form.subs.len() as u64,
    }
}

// How many patterns stand at the back below the pattern.
fn back_below<'a, T: Copy>(p: &'a DePat<'a, T>) -> u64
    ensures { result ≡ back_by (placed_ctor p.entry.now) }
{
    match p.form.ctor {
        Ctor::Row(Shape::Longer { back, .. }) => back,
        _ => 0,
    }
}

/// How many patterns stand at the front.
pub(crate) fn front_of<'a, T: Copy>(p: Option<&'a DePat<'a, T>>) -> u64
    ensures { result ≡ head_front (plain_head p.entry) }
{
    match p {
        None => 0,
        Some(p) => front_below(p),
    }
}

/// How many patterns stand at the back.
pub(crate) fn back_of<'a, T: Copy>(p: Option<&'a DePat<'a, T>>) -> u64
    ensures { result ≡ head_back (plain_head p.entry) }
{
    match p {
        None => 0,
        Some(p) => back_below(p),
    }
}

/// So many parts at the front and so many at the back are all that one of the two patterns writes.
pub(crate) fn ends<'a, T: Copy>(
    p: Option<&'a DePat<'a, T>>,
    q: Option<&'a DePat<'a, T>>,
    n: u64,
) -> (u64, u64)
    ensures { IsWritten (plain_head p.entry) (plain_head q.entry) n result.0 result.1 }
{
    let front = front_of(p).max(front_of(q)).min(n);
    let back = back_of(p).max(back_of(q)).min(n - front);
    (front, back)
}

/// Tells whether the part is left out.
pub(crate) fn skips(but: Option<u64>, k: u64) -> bool
    ensures { Tells result (Skipped but k) }
{
    match but {
        None => false,
        Some(part) => k == part,
    }
}

/// Tells whether two patterns below stand at one part, where there are two.
pub(crate) fn stands<'a, T: Copy>(
    p: &'a DePat<'a, T>,
    q: Option<&'a DePat<'a, T>>,
    spot: Option<(usize, usize)>,
    n: u64,
) -> bool
    requires first { Fits (placed_ctor p.now) (length (placed_subs p.now)) n }
    requires second { HeadFits (plain_head q) n }
    requires within { IsSpotOf (Some (tree p.now)) (plain_head q) spot }
    ensures { Tells result (Stands (placed_ctor p.entry.now) (head_ctor (plain_head q.entry)) n spot) }
{
    match (spot, q) {
        (Some((i, j)), Some(q)) => {
            place_in(&p.form.ctor, p.form.subs.len(), n, i)
                == place_in(&q.form.ctor, q.form.subs.len(), n, j)
        }
        _ => true,
    }
}

/// The part where the first of two patterns below stands, where there are two.
pub(crate) fn part_left_out<'a, T: Copy>(
    p: &'a DePat<'a, T>,
    spot: Option<(usize, usize)>,
    n: u64,
) -> Option<u64>
    requires first { Fits (placed_ctor p.now) (length (placed_subs p.now)) n }
    requires within { SpotIsBelow spot (length (placed_subs p.now)) }
    ensures { result ≡ spot_part (placed_ctor p.entry.now) n spot }
{
    match spot {
        None => None,
        Some((i, _)) => Some(place_in(&p.form.ctor, p.form.subs.len(), n, i)),
    }
}

// Tells whether the constructors share an elementary one, as far as they can be told apart without the lengths of rows.
fn are_alike(c: &Ctor, d: &Ctor) -> bool
    ensures { Tells result (IsAlike (plain_ctor c.now) (plain_ctor d.now)) }
{
    match (c, d) {
        (Ctor::Numbers(r), Ctor::Numbers(s)) => r.meets(s),
        (Ctor::Row(_), Ctor::Row(_)) => true,
        _ => has_piece(c, d),
    }
}

/// Tells whether there is no second pattern, or its constructor shares an elementary one with this one.
pub(crate) fn is_alike<'a, T: Copy>(c: &Ctor, q: Option<&'a DePat<'a, T>>) -> bool
    ensures { Tells result (IsAlikeHead (plain_ctor c.now) (plain_head q.entry)) }
{
    match q {
        None => true,
        Some(q) => are_alike(c, &q.form.ctor),
    }
}

/// Tells whether the constructor is an or-pattern.
pub(crate) fn is_or(ctor: &Ctor) -> bool
    ensures { Tells result (plain_ctor ctor.now ≡ OrCtor) }
{
    match ctor {
        Ctor::Or => true,
        _ => false,
    }
}
