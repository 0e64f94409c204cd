// Whether some value is matched by two patterns through the patterns on two paths, at one position.
ghost use Rattle.std.specs.Prelude.{◌≡◌, ◌≢◌, ◌∷◌};
ghost use Rattle.match_model.specs.Constructors.{OrCtor};
ghost use Rattle.match_model.specs.WellTyped.{IsTyped};
ghost use Rattle.pat_context.specs.Parts.{Tells};
ghost use Rattle.pat_context.specs.Views.{is_sure};
ghost use Rattle.pattern_arena.specs.Trees.{tree, placed_ctor};
ghost use Rattle.pattern_lints.specs.Along.{Touching, MeetTogether};
ghost use Rattle.pattern_lints.specs.Meeting.{IsSharp};

use crate::meeting::pieces_meet;
use crate::places::is_or;
use pat_context::{PatCx, Validity, part_type};
use pattern_arena::DePat;

/// Tells whether some value of the type is matched by both patterns along their paths, at one position. The value
/// stands at a place of the validity. At the position it has the one number that the ranges at the ends of the paths
/// share. It takes no memory.
#[cycle(along)]
pub(crate) fn along<'a, C: PatCx>(
    cx: &C,
    ty: C::Ty,
    validity: Validity,
    p: &'a DePat<'a, C::Ty>,
    path: &[usize],
    q: &'a DePat<'a, C::Ty>,
    other: &[usize],
) -> bool
    requires ty { C.is_type cx.now ty }
    requires first { IsTyped (C.context cx.now) ty (tree p.now) }
    requires second { IsTyped (C.context cx.now) ty (tree q.now) }
    requires touch { Touching (tree p.now) path.now (tree q.now) other.now }
    ensures { Tells result (MeetTogether (C.is_value cx.now) ty (is_sure validity) (tree p.entry.now) path.now
        (tree q.entry.now) other.now) }
{
    if is_or(&p.form.ctor) {
        first_along(cx, ty, validity, p, path, q, other)
    } else if is_or(&q.form.ctor) {
        second_along(cx, ty, validity, p, path, q, other)
    } else {
        both_along(cx, ty, validity, p, path, q, other)
    }
}

// Through an alternative of the first pattern.
#[cycle(along)]
fn first_along<'a, C: PatCx>(
    cx: &C,
    ty: C::Ty,
    validity: Validity,
    p: &'a DePat<'a, C::Ty>,
    path: &[usize],
    q: &'a DePat<'a, C::Ty>,
    other: &[usize],
) -> bool
    requires ty { C.is_type cx.now ty }
    requires or { placed_ctor p.now ≡ OrCtor }
    requires first { IsTyped (C.context cx.now) ty (tree p.now) }
    requires second { IsTyped (C.context cx.now) ty (tree q.now) }
    requires touch { Touching (tree p.now) path.now (tree q.now) other.now }
    ensures { Tells result (MeetTogether (C.is_value cx.now) ty (is_sure validity) (tree p.entry.now) path.now
        (tree q.entry.now) other.now) }
{
    match path.split_first() {
        Some((i, rest)) => along(cx, ty, validity, p.sub(*i), rest, q, other),
        None => false,
    }
}

// Through an alternative of the second pattern.
#[cycle(along)]
fn second_along<'a, C: PatCx>(
    cx: &C,
    ty: C::Ty,
    validity: Validity,
    p: &'a DePat<'a, C::Ty>,
    path: &[usize],
    q: &'a DePat<'a, C::Ty>,
    other: &[usize],
) -> bool
    requires ty { C.is_type cx.now ty }
    requires or { placed_ctor q.now ≡ OrCtor }
    requires first { IsTyped (C.context cx.now) ty (tree p.now) }
    requires second { IsTyped (C.context cx.now) ty (tree q.now) }
    requires touch { Touching (tree p.now) path.now (tree q.now) other.now }
    ensures { Tells result (MeetTogether (C.is_value cx.now) ty (is_sure validity) (tree p.entry.now) path.now
        (tree q.entry.now) other.now) }
{
    match other.split_first() {
        Some((j, behind)) => along(cx, ty, validity, p, path, q.sub(*j), behind),
        None => false,
    }
}

// Through parts of both, or at the ends of both paths.
#[cycle(along)]
fn both_along<'a, C: PatCx>(
    cx: &C,
    ty: C::Ty,
    validity: Validity,
    p: &'a DePat<'a, C::Ty>,
    path: &[usize],
    q: &'a DePat<'a, C::Ty>,
    other: &[usize],
) -> bool
    requires ty { C.is_type cx.now ty }
    requires sharp { placed_ctor p.now ≢ OrCtor }
    requires also_sharp { placed_ctor q.now ≢ OrCtor }
    requires first { IsTyped (C.context cx.now) ty (tree p.now) }
    requires second { IsTyped (C.context cx.now) ty (tree q.now) }
    requires touch { Touching (tree p.now) path.now (tree q.now) other.now }
    ensures { Tells result (MeetTogether (C.is_value cx.now) ty (is_sure validity) (tree p.entry.now) path.now
        (tree q.entry.now) other.now) }
{
    match path.split_first() {
        Some((i, rest)) => match other.split_first() {
            Some((j, behind)) => parts_along(cx, ty, validity, p, *i, rest, q, *j, behind),
            None => false,
        },
        None => other.is_empty(),
    }
}

// Through parts of both.
#[cycle(along)]
fn parts_along<'a, C: PatCx>(
    cx: &C,
    ty: C::Ty,
    validity: Validity,
    p: &'a DePat<'a, C::Ty>,
    i: usize,
    rest: &[usize],
    q: &'a DePat<'a, C::Ty>,
    j: usize,
    behind: &[usize],
) -> bool
    requires ty { C.is_type cx.now ty }
    requires sharp { IsSharp (placed_ctor p.now) }
    requires also_sharp { IsSharp (placed_ctor q.now) }
    requires first { IsTyped (C.context cx.now) ty (tree p.now) }
    requires second { IsTyped (C.context cx.now) ty (tree q.now) }
    requires touch { Touching (tree p.now) (i ∷ rest.now) (tree q.now) (j ∷ behind.now) }
    ensures { Tells result (MeetTogether (C.is_value cx.now) ty (is_sure validity) (tree p.entry.now) (i ∷ rest.now)
        (tree q.entry.now) (j ∷ behind.now)) }
{
    if !pieces_meet(cx, ty, validity, p, Some(q), Some((i, j))) {
        return false;
    }
    let part = part_type(cx, &p.form.ctor, ty, i);
    along(
        cx,
        part,
        validity.inside(&p.form.ctor),
        p.sub(i),
        rest,
        q.sub(j),
        behind,
    )
}
