// Whether some value is matched by two patterns.
//
// A pattern that is no wildcard and no or-pattern is matched by its parts: two such have a common value where, for some
// constructor that both have, the patterns for each part have one. Rows are tried length by length.
ghost use Rattle.std.specs.Prelude.{◌≡◌, ◌<◌, ◌≤◌, ◌+◌, ◌^◌, ◌&&◌, true, Some, None, IsTrue};
ghost use Rattle.match_model.specs.Values.{MValue};
ghost use Rattle.match_model.specs.Constructors.{MShape, RowCtor, OrCtor, OneLength, is_of_set, belongs, has_piece};
ghost use Rattle.match_model.specs.Constructors.{sure_inside};
ghost use Rattle.match_model.specs.WellTyped.{IsTyped, IsHeadTyped};
ghost use Rattle.pat_context.specs.Parts.{Tells};
ghost use Rattle.pat_context.specs.Views.{plain_ctor, is_sure};
ghost use Rattle.pattern_arena.specs.Trees.{tree, placed_ctor};
ghost use Rattle.pattern_lints.specs.Meeting.{plain_head, head_ctor, IsSharp, Common, PartMeets, AllMeet, Skipped};
ghost use Rattle.pattern_lints.specs.Meeting.{IsPatternAt, IsPiece, PieceMeets, PiecesMeet, RowsMeet};
ghost use Rattle.pattern_lints.specs.Lengths.{IsSharpHead, IsSpotOf};

use crate::lengths::lengths;
use crate::places::{ends, is_alike, part_left_out, part_of, skips, stands};
use constructor_sets::has_piece;
use pat_context::{Ctor, PatCx, Validity, has_value, part_type};
use pattern_arena::DePat;
use slice_split::Shape;

/// Tells whether some value of the type, at a place of the validity, is matched by both patterns. No pattern at all
/// matches every value. It takes no memory.
#[cycle(meets)]
pub(crate) fn meets<'a, C: PatCx>(
    cx: &C,
    ty: C::Ty,
    validity: Validity,
    p: Option<&'a DePat<'a, C::Ty>>,
    q: Option<&'a DePat<'a, C::Ty>>,
) -> bool
    requires ty { C.is_type cx.now ty }
    requires first { IsHeadTyped (C.context cx.now) ty (plain_head p) }
    requires second { IsHeadTyped (C.context cx.now) ty (plain_head q) }
    ensures { Tells result (Common (C.is_value cx.now) ty (is_sure validity) (plain_head p.entry)
        (plain_head q.entry)) }
{
    match p {
        Some(p) => one_meets(cx, ty, validity, p, q),
        None => lone_meets(cx, ty, validity, q),
    }
}

// Tells whether some value of the type is matched.
#[cycle(meets)]
fn lone_meets<'a, C: PatCx>(
    cx: &C,
    ty: C::Ty,
    validity: Validity,
    q: Option<&'a DePat<'a, C::Ty>>,
) -> bool
    requires ty { C.is_type cx.now ty }
    requires second { IsHeadTyped (C.context cx.now) ty (plain_head q) }
    ensures { Tells result (Common (C.is_value cx.now) ty (is_sure validity) None (plain_head q.entry)) }
{
    match q {
        Some(q) => one_meets(cx, ty, validity, q, None),
        None => has_value(cx, ty, validity),
    }
}

// Tells whether some value is matched by both, by the first one's constructor.
#[cycle(meets)]
fn one_meets<'a, C: PatCx>(
    cx: &C,
    ty: C::Ty,
    validity: Validity,
    p: &'a DePat<'a, C::Ty>,
    q: Option<&'a DePat<'a, C::Ty>>,
) -> bool
    requires ty { C.is_type cx.now ty }
    requires first { IsTyped (C.context cx.now) ty (tree p.now) }
    requires second { IsHeadTyped (C.context cx.now) ty (plain_head q) }
    ensures { Tells result (Common (C.is_value cx.now) ty (is_sure validity) (Some (tree p.entry.now))
        (plain_head q.entry)) }
{
    match p.form.ctor {
        Ctor::Wild => lone_meets(cx, ty, validity, q),
        Ctor::Or => any_meets(cx, ty, validity, p, q),
        _ => sharp_meets(cx, ty, validity, p, q),
    }
}

// Tells whether some value is matched by an alternative and by the other pattern.
#[cycle(meets)]
fn any_meets<'a, C: PatCx>(
    cx: &C,
    ty: C::Ty,
    validity: Validity,
    p: &'a DePat<'a, C::Ty>,
    q: Option<&'a DePat<'a, C::Ty>>,
) -> bool
    requires ty { C.is_type cx.now ty }
    requires or { placed_ctor p.now ≡ OrCtor }
    requires first { IsTyped (C.context cx.now) ty (tree p.now) }
    requires second { IsHeadTyped (C.context cx.now) ty (plain_head q) }
    ensures { Tells result (Common (C.is_value cx.now) ty (is_sure validity) (Some (tree p.entry.now))
        (plain_head q.entry)) }
{
    for s in p.form.subs {
        if one_meets(cx, ty, validity, s, q) {
            return true;
        }
    }
    false
}

// The same of a pattern that is no wildcard and no or-pattern.
#[cycle(meets)]
fn sharp_meets<'a, C: PatCx>(
    cx: &C,
    ty: C::Ty,
    validity: Validity,
    p: &'a DePat<'a, C::Ty>,
    q: Option<&'a DePat<'a, C::Ty>>,
) -> bool
    requires ty { C.is_type cx.now ty }
    requires sharp { IsSharp (placed_ctor p.now) }
    requires first { IsTyped (C.context cx.now) ty (tree p.now) }
    requires second { IsHeadTyped (C.context cx.now) ty (plain_head q) }
    ensures { Tells result (Common (C.is_value cx.now) ty (is_sure validity) (Some (tree p.entry.now))
        (plain_head q.entry)) }
{
    match q {
        Some(q) => pair_meets(cx, ty, validity, p, q),
        None => pieces_meet(cx, ty, validity, p, None, None),
    }
}

// The same of two patterns, by the second one's constructor.
#[cycle(meets)]
fn pair_meets<'a, C: PatCx>(
    cx: &C,
    ty: C::Ty,
    validity: Validity,
    p: &'a DePat<'a, C::Ty>,
    q: &'a DePat<'a, C::Ty>,
) -> bool
    requires ty { C.is_type cx.now ty }
    requires sharp { IsSharp (placed_ctor p.now) }
    requires first { IsTyped (C.context cx.now) ty (tree p.now) }
    requires second { IsTyped (C.context cx.now) ty (tree q.now) }
    ensures { Tells result (Common (C.is_value cx.now) ty (is_sure validity) (Some (tree p.entry.now)) (Some
        (tree q.entry.now))) }
{
    match q.form.ctor {
        Ctor::Wild => pieces_meet(cx, ty, validity, p, None, None),
        Ctor::Or => any_meets(cx, ty, validity, q, Some(p)),
        _ => pieces_meet(cx, ty, validity, p, Some(q), None),
    }
}

/// Tells whether some constructor of the type does: both patterns have it, and with it the two patterns below with
/// these numbers stand at one part. For each other part some value is matched by both patterns there. It takes no
/// memory.
#[cycle(meets)]
pub(crate) fn pieces_meet<'a, C: PatCx>(
    cx: &C,
    ty: C::Ty,
    validity: Validity,
    p: &'a DePat<'a, C::Ty>,
    q: Option<&'a DePat<'a, C::Ty>>,
    spot: Option<(usize, usize)>,
) -> bool
    requires ty { C.is_type cx.now ty }
    requires sharp { IsSharp (placed_ctor p.now) }
    requires also_sharp { IsSharpHead (plain_head q) }
    requires first { IsTyped (C.context cx.now) ty (tree p.now) }
    requires second { IsHeadTyped (C.context cx.now) ty (plain_head q) }
    requires within { IsSpotOf (Some (tree p.now)) (plain_head q) spot }
    ensures { Tells result (PiecesMeet (C.is_value cx.now) (C.context cx.now) ty (is_sure validity) (Some
        (tree p.entry.now)) (plain_head q.entry) spot) }
{
    if !is_alike(&p.form.ctor, q) {
        return false;
    }
    match p.form.ctor {
        Ctor::Row(_) => rows_meet(cx, ty, validity, p, q, spot),
        Ctor::Single | Ctor::Point | Ctor::Variant(_) => {
            piece_meets(
                cx,
                ty,
                validity,
                &p.form.ctor,
                p,
                q,
                spot,
                p.form.subs.len() as u64,
            )
        }
        _ => true,
    }
}

// The same for rows, length by length.
#[cycle(meets)]
fn rows_meet<'a, C: PatCx>(
    cx: &C,
    ty: C::Ty,
    validity: Validity,
    p: &'a DePat<'a, C::Ty>,
    q: Option<&'a DePat<'a, C::Ty>>,
    spot: Option<(usize, usize)>,
) -> bool
    requires ty { C.is_type cx.now ty }
    requires row { (r : MShape) × (placed_ctor p.now ≡ RowCtor r) }
    requires also_sharp { IsSharpHead (plain_head q) }
    requires first { IsTyped (C.context cx.now) ty (tree p.now) }
    requires second { IsHeadTyped (C.context cx.now) ty (plain_head q) }
    requires within { IsSpotOf (Some (tree p.now)) (plain_head q) spot }
    ensures { Tells result (PiecesMeet (C.is_value cx.now) (C.context cx.now) ty (is_sure validity) (Some
        (tree p.entry.now)) (plain_head q.entry) spot) }
{
    let set = cx.set(ty);
    let (low, count) = lengths(&set, p, q, spot);
    for i in 0..count {
        if row_meets(cx, ty, validity, p, q, spot, low + i) {
            return true;
        }
    }
    false
}

// The same for rows of one length.
#[cycle(meets)]
fn row_meets<'a, C: PatCx>(
    cx: &C,
    ty: C::Ty,
    validity: Validity,
    p: &'a DePat<'a, C::Ty>,
    q: Option<&'a DePat<'a, C::Ty>>,
    spot: Option<(usize, usize)>,
    n: u64,
) -> bool
    requires ty { C.is_type cx.now ty }
    requires row { (r : MShape) × (placed_ctor p.now ≡ RowCtor r) }
    requires also_sharp { IsSharpHead (plain_head q) }
    requires first { IsTyped (C.context cx.now) ty (tree p.now) }
    requires second { IsHeadTyped (C.context cx.now) ty (plain_head q) }
    requires within { IsSpotOf (Some (tree p.now)) (plain_head q) spot }
    requires allowed { is_of_set ((C.context cx.now).set_of ty) (OneLength n) ≡ true }
    ensures { Tells result (RowsMeet (C.is_value cx.now) (C.context cx.now) ty (is_sure validity) (Some
        (tree p.entry.now)) (plain_head q.entry) spot n) }
{
    let row = Ctor::Row(Shape::Fixed(n));
    if !have_piece(p, q, &row) {
        return false;
    }
    piece_meets(cx, ty, validity, &row, p, q, spot, n)
}

// Tells whether both patterns have all of the piece.
fn have_piece<'a, T: Copy>(p: &'a DePat<'a, T>, q: Option<&'a DePat<'a, T>>, piece: &Ctor) -> bool
    ensures { result ≡ (has_piece (placed_ctor p.entry.now) (plain_ctor piece.now) && has_piece (head_ctor
        (plain_head q.entry)) (plain_ctor piece.now)) }
{
    has_piece(&p.form.ctor, piece)
        && match q {
            None => true,
            Some(q) => has_piece(&q.form.ctor, piece),
        }
}

// Tells whether with a constructor that both have the two patterns below stand at one part. At each other part some
// value is matched by both.
#[cycle(meets)]
fn piece_meets<'a, C: PatCx>(
    cx: &C,
    ty: C::Ty,
    validity: Validity,
    c: &Ctor,
    p: &'a DePat<'a, C::Ty>,
    q: Option<&'a DePat<'a, C::Ty>>,
    spot: Option<(usize, usize)>,
    n: u64,
) -> bool
    requires ty { C.is_type cx.now ty }
    requires sharp { IsSharp (placed_ctor p.now) }
    requires also_sharp { IsSharpHead (plain_head q) }
    requires first { IsTyped (C.context cx.now) ty (tree p.now) }
    requires second { IsHeadTyped (C.context cx.now) ty (plain_head q) }
    requires within { IsSpotOf (Some (tree p.now)) (plain_head q) spot }
    requires piece { IsPiece (C.context cx.now) ty (plain_ctor c.now) n (Some (tree p.now)) (plain_head q) }
    ensures { Tells result (PieceMeets (C.is_value cx.now) (C.context cx.now) ty (is_sure validity)
        (plain_ctor c.now) n (Some (tree p.entry.now)) (plain_head q.entry) spot) }
{
    if !stands(p, q, spot, n) {
        return false;
    }
    let but = part_left_out(p, spot, n);
    parts_meet(cx, ty, validity, c, p, q, n, but)
}

// Tells whether at each part but one some value is matched by both.
#[cycle(meets)]
fn parts_meet<'a, C: PatCx>(
    cx: &C,
    ty: C::Ty,
    validity: Validity,
    c: &Ctor,
    p: &'a DePat<'a, C::Ty>,
    q: Option<&'a DePat<'a, C::Ty>>,
    n: u64,
    but: Option<u64>,
) -> bool
    requires ty { C.is_type cx.now ty }
    requires sharp { IsSharp (placed_ctor p.now) }
    requires also_sharp { IsSharpHead (plain_head q) }
    requires first { IsTyped (C.context cx.now) ty (tree p.now) }
    requires second { IsHeadTyped (C.context cx.now) ty (plain_head q) }
    requires piece { IsPiece (C.context cx.now) ty (plain_ctor c.now) n (Some (tree p.now)) (plain_head q) }
    requires left { IsPatternAt (Some (tree p.now)) n but }
    ensures { Tells result (AllMeet (C.is_value cx.now) (C.context cx.now) ty (is_sure validity)
        (plain_ctor c.now) n (Skipped but) (Some (tree p.entry.now)) (plain_head q.entry)) }
{
    let (front, back) = ends(Some(p), q, n);
    let gap = n - front - back;
    if !middle_has_value(cx, ty, validity, c, front, gap) {
        return false;
    }
    for i in 0..front + back {
        let k = written_part(i, front, gap);
        if !part_meets(cx, ty, validity, c, p, q, n, k, but) {
            return false;
        }
    }
    true
}

// The part with the number `i` among those that are written, where so many stand at the front, and behind them a gap.
fn written_part(i: u64, front: u64, gap: u64) -> u64
    requires { i + gap < 2 ^ 64 }
    ensures before { i < front → result ≡ i }
    ensures behind { front ≤ i → result ≡ i + gap }
{
    if i < front { i } else { i + gap }
}

// Tells whether the first part behind the front has a value, where there is a gap.
fn middle_has_value<C: PatCx>(
    cx: &C,
    ty: C::Ty,
    validity: Validity,
    c: &Ctor,
    front: u64,
    gap: u64,
) -> bool
    requires ty { C.is_type cx.now ty }
    requires belongs { 0 < gap → IsTrue (belongs ((C.context cx.now).set_of ty) (plain_ctor c.now)) }
    requires below { 0 < gap → front < (C.context cx.now).arity (plain_ctor c.now) ty }
    ensures { Tells result (0 < gap → (u : MValue) × C.is_value cx.now ((C.context cx.now).sub
        (plain_ctor c.now) ty front) (sure_inside (plain_ctor c.now) (is_sure validity)) u) }
{
    if gap > 0 {
        part_has_value(cx, ty, validity, c, front)
    } else {
        true
    }
}

// Tells whether the part has a value.
fn part_has_value<C: PatCx>(cx: &C, ty: C::Ty, validity: Validity, c: &Ctor, k: u64) -> bool
    requires ty { C.is_type cx.now ty }
    requires belongs { IsTrue (belongs ((C.context cx.now).set_of ty) (plain_ctor c.now)) }
    requires below { k < (C.context cx.now).arity (plain_ctor c.now) ty }
    ensures { Tells result ((u : MValue) × C.is_value cx.now ((C.context cx.now).sub (plain_ctor c.now) ty k)
        (sure_inside (plain_ctor c.now) (is_sure validity)) u) }
{
    has_value(cx, part_type(cx, c, ty, k as usize), validity.inside(c))
}

// Tells whether at the part, unless it is left out, some value is matched by both.
#[cycle(meets)]
fn part_meets<'a, C: PatCx>(
    cx: &C,
    ty: C::Ty,
    validity: Validity,
    c: &Ctor,
    p: &'a DePat<'a, C::Ty>,
    q: Option<&'a DePat<'a, C::Ty>>,
    n: u64,
    k: u64,
    but: Option<u64>,
) -> bool
    requires ty { C.is_type cx.now ty }
    requires sharp { IsSharp (placed_ctor p.now) }
    requires also_sharp { IsSharpHead (plain_head q) }
    requires first { IsTyped (C.context cx.now) ty (tree p.now) }
    requires second { IsHeadTyped (C.context cx.now) ty (plain_head q) }
    requires piece { IsPiece (C.context cx.now) ty (plain_ctor c.now) n (Some (tree p.now)) (plain_head q) }
    requires below { k < n }
    ensures { Tells result (PartMeets (C.is_value cx.now) (C.context cx.now) ty (is_sure validity)
        (plain_ctor c.now) n (Skipped but) (Some (tree p.entry.now)) (plain_head q.entry) k) }
{
    if skips(but, k) {
        return true;
    }
    let part = part_type(cx, c, ty, k as usize);
    meets(
        cx,
        part,
        validity.inside(c),
        part_of(Some(p), n, k),
        part_of(q, n, k),
    )
}
