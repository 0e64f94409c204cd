// The search for what is reached.
ghost use Rattle.std.specs.Prelude.{◌≡◌, ◌<◌, ◌+◌, ◌^◌, ◌++◌, ◌∷◌, [], cond, length, map, Some, IfOk, IfSome, OnOk, true, false};
ghost use Rattle.std.specs.List.{Contains};
ghost use Rattle.match_model.specs.Rows.{is_wild};
ghost use Rattle.match_model.specs.Values.{MValue};
ghost use Rattle.match_model.specs.WellTyped.{IsWellTyped};
ghost use Rattle.pat_context.specs.Views.{is_sure};
ghost use Rattle.pattern_arena.specs.Trees.{plain_arm, plain_match, tree};
ghost use Rattle.pattern_matrix.specs.Counting.{Question};
ghost use Rattle.pattern_matrix.specs.Searching.{Submatrix, work, IsFit, IsSearch, first_submatrix};
ghost use Rattle.pattern_matrix.specs.Starting.{starting_row, starting_rows};
ghost use Rattle.pattern_matrix.specs.HeadLists.{kept_heads};
ghost use Rattle.pattern_matrix.specs.Views.{plain_heads};
ghost use Rattle.pattern_matrix.specs.SearchLaws.{IsReached};
ghost use Rattle.usefulness.specs.Children.{bare_sub};
ghost use Rattle.usefulness.specs.Marking.{is_marked};
ghost use Rattle.usefulness.specs.Scope.{scope_for};
ghost use Rattle.usefulness.specs.Memo.{memo_of, no_memo};
ghost use Rattle.usefulness.specs.Stack.{IsGoing, IsTodo, todo_view, todo_views};
ghost use Rattle.usefulness.specs.Starting.{asked_from, wanted_all};
ghost use Rattle.usefulness.specs.States.{child_views, is_noted, plain_asked, scope_of, IsGood, IsListed};
ghost use Rattle.usefulness.specs.Told.{IsPinned};

use crate::Marks;
use crate::frames::{Asked, Frame, Listing, OpenColumn, Opened, Reached, Todo};
use crate::listing::{finish, list_row, room_listed};
use crate::look::look_at;
use crate::pending::{add_opened, next_rows};
use crate::told::{Told, keep_count, none_told};
use no_memory::NoMemory;
use pat_context::{Ctor, PatCx, has_value};
use pattern_arena::laws::matches_are_made;
use pattern_arena::{CheckedArm, CheckedMatch, DePat};
use pattern_matrix::{Chosen, Column, Head, Heads, Row};
use std::alloc::Global;

// The pattern as the head of the first column, which has the number 0; none for a wildcard.
fn starting_heads<'a, T: Copy>(pat: &'a DePat<'a, T>) -> Heads<'a, T>
    ensures { plain_heads (kept_heads result) ≡ cond (is_wild (Some (tree pat.entry.now))) [] ((0, tree pat.entry.now) ∷ []) }
{
    match pat.form.ctor {
        Ctor::Wild => Heads::Bare,
        _ => Heads::One(Head { column: 0, pat }),
    }
}

// The row of the arm with the number, which is wanted.
fn arm_row<'a, T: Copy>(number: u32, arm: &'a CheckedArm<'a, T>) -> Asked<'a, T>
    ensures { plain_asked result ≡ (record { row = starting_row number (plain_arm arm.entry.now); wanted = true }) }
{
    let row = Row {
        heads: starting_heads(&arm.pat),
        arm: number,
        guarded: arm.guarded,
        chosen: Chosen::Nothing,
    };
    Asked { row, wanted: true }
}

// The rows of the arms, listed one by one.
fn arm_listing<'a, T: Copy>(
    alloc: Global,
    reached: &mut Reached<'a, T>,
    arms: &'a [CheckedArm<'a, T>],
) -> Result<Listing<'a, T>, NoMemory>
    requires scope { scope_of reached.old ≡ scope_for (map plain_arm arms.now) }
    requires few { length arms.now < 2 ^ 32 }
    ensures { IfOk result (λ l. IsListed (scope_for (map plain_arm arms.entry.now)) (is_noted reached.old) reached.new (0 ∷ [])
        (wanted_all (starting_rows 0 (map plain_arm arms.entry.now))) l) }
{
    let mut listing = room_listed(alloc, arms.len() + 1)?;
    for (i, arm) in arms.iter().enumerate() {
        let asked = arm_row(i as u32, arm);
        list_row(reached, &mut listing, asked)?;
    }
    Ok(listing)
}

// The rows of the arms and the one behind them, listed.
fn first_listing<'a, T: Copy>(
    alloc: Global,
    reached: &mut Reached<'a, T>,
    m: &CheckedMatch<'a, T>,
) -> Result<Listing<'a, T>, NoMemory>
    requires scope { scope_of reached.old ≡ scope_for (plain_match m.now).arms }
    requires few { length m.now.arms.now < 2 ^ 32 }
    ensures { IfOk result (λ l. IsListed (scope_for (plain_match m.now).arms) (is_noted reached.old) reached.new (0 ∷ []) (asked_from (plain_match m.now).arms) l) }
{
    let mut listing = arm_listing(alloc, reached, m.arms)?;
    let behind = Row {
        heads: Heads::Bare,
        arm: m.arms.len() as u32,
        guarded: false,
        chosen: Chosen::Nothing,
    };
    list_row(
        reached,
        &mut listing,
        Asked {
            row: behind,
            wanted: true,
        },
    )?;
    Ok(listing)
}

// The rows that are looked at first, where there are any.
fn first_frame<'a, C: PatCx>(
    alloc: Global,
    cx: &C,
    reached: &mut Reached<'a, C::Ty>,
    m: &CheckedMatch<'a, C::Ty>,
) -> Result<Option<Frame<'a, C::Ty>>, NoMemory>
    requires typed { IsWellTyped (C.is_type cx.now) (C.context cx.now) (plain_match m.now) }
    requires value { (v : MValue) × C.is_value cx.now m.now.ty (is_sure m.now.validity) v }
    requires scope { scope_of reached.old ≡ scope_for (plain_match m.now).arms }
    requires few { length m.now.arms.now < 2 ^ 32 }
    requires none { (q : Question) → is_noted reached.old q ≡ false }
    ensures scope { OnOk result (scope_of reached.new ≡ scope_for (plain_match m.now).arms) }
    ensures good { IfOk result (λ o. IfSome o (λ f. IsGood (scope_for (plain_match m.now).arms) f)) }
    ensures search { IfOk result (λ o. IsSearch (C.is_type cx.now) (C.is_value cx.now) (C.context cx.now) (bare_sub (first_submatrix (plain_match m.now))) (is_noted reached.new) (child_views o) []) }
{
    matches_are_made(m);
    let listing = first_listing(alloc, reached, m)?;
    let mut columns = Vec::with_capacity(alloc, 1)?;
    columns.push(OpenColumn {
        number: 0,
        column: Column {
            ty: m.ty,
            validity: m.validity,
        },
    })?;
    Ok(finish(listing, columns, 1))
}

// How many submatrices are left, at most: one for each piece that was found, also where it was entered at once, and one of the
// values in no head, where rows of these are left.
fn count_of<'a, T: Copy>(opened: &Opened<'a, T>) -> usize {
    match &opened.wild {
        None => opened.count,
        Some(_frame) => opened.count.saturating_add(1),
    }
}

// Takes a step: the entry, which was taken from the end of the stack, is looked at, or one of its pieces, and what is left
// of it is put there.
fn step<'a, C: PatCx>(
    alloc: Global,
    cx: &C,
    reached: &mut Reached<'a, C::Ty>,
    told: &mut Told,
    todo: &mut Vec<Todo<'a, C::Ty>>,
    entry: Todo<'a, C::Ty>,
) -> Result<(), NoMemory>
    requires good { IsTodo (C.is_type cx.now) (C.is_value cx.now) (C.context cx.now) (scope_of reached.old) (is_noted reached.old) entry }
    requires fit { (s : Submatrix C.Ty) → Contains (todo_view (C.context cx.now) entry) s → IsFit (C.is_type cx.now) (C.is_value cx.now) (C.context cx.now) s }
    requires pinned { IsPinned (scope_of reached.old) }
    ensures going { OnOk result ((first : Submatrix C.Ty) → IsGoing (C.is_type cx.now) (C.is_value cx.now) (C.context cx.now) first (scope_of reached.old) reached.old (memo_of told.old) (todo.old.items ++ entry.entry ∷ [])
        → IsGoing (C.is_type cx.now) (C.is_value cx.now) (C.context cx.now) first (scope_of reached.old) reached.new (memo_of told.new) todo.new.items) }
    ensures less { OnOk result (work (2 ^ 65) (todo_views (C.context cx.now) todo.new.items) < work (2 ^ 65) (todo_views (C.context cx.now) (todo.old.items ++ entry.entry ∷ []))) }
{
    match next_rows(alloc, cx, reached, todo, entry)? {
        None => Ok(()),
        Some(frame) => {
            let opened = look_at(alloc, cx, reached, told, frame)?;
            keep_count(told, count_of(&opened));
            add_opened(todo, opened)
        }
    }
}

// Takes the first step of a search: what is left of it stands on the stack.
fn first_step<'a, C: PatCx>(
    alloc: Global,
    cx: &C,
    reached: &mut Reached<'a, C::Ty>,
    told: &mut Told,
    m: &CheckedMatch<'a, C::Ty>,
) -> Result<Vec<Todo<'a, C::Ty>>, NoMemory>
    requires typed { IsWellTyped (C.is_type cx.now) (C.context cx.now) (plain_match m.now) }
    requires value { (v : MValue) × C.is_value cx.now m.now.ty (is_sure m.now.validity) v }
    requires scope { scope_of reached.old ≡ scope_for (plain_match m.now).arms }
    requires few { length m.now.arms.now < 2 ^ 32 }
    requires none { (q : Question) → is_noted reached.old q ≡ false }
    requires untold { memo_of told.old ≡ no_memo }
    ensures { IfOk result (λ v. IsGoing (C.is_type cx.now) (C.is_value cx.now) (C.context cx.now) (bare_sub (first_submatrix (plain_match m.now)))
        (scope_for (plain_match m.now).arms) reached.new (memo_of told.new) v.items) }
{
    let mut todo = Vec::new(alloc);
    match first_frame(alloc, cx, reached, m)? {
        None => Ok(todo),
        Some(frame) => {
            step(alloc, cx, reached, told, &mut todo, Todo::Rows(frame))?;
            Ok(todo)
        }
    }
}

// Searches until nothing is to be looked at any more.
fn search<'a, C: PatCx>(
    alloc: Global,
    cx: &C,
    m: &CheckedMatch<'a, C::Ty>,
    marks: Marks,
) -> Result<Marks, NoMemory>
    requires typed { IsWellTyped (C.is_type cx.now) (C.context cx.now) (plain_match m.now) }
    requires value { (v : MValue) × C.is_value cx.now m.now.ty (is_sure m.now.validity) v }
    requires arms { length marks.arms.items ≡ length m.now.arms.now + 1 }
    requires few { length m.now.arms.now < 2 ^ 32 }
    requires none { (q : Question) → is_marked marks q ≡ false }
    ensures { IfOk result (λ marks. IsReached (C.is_value cx.now) (plain_match m.now) (is_marked marks)) }
{
    let mut reached = Reached {
        arms: m.arms,
        marks,
    };
    let mut told = none_told(alloc);
    let mut todo = first_step(alloc, cx, &mut reached, &mut told, m)?;
    while let Some(entry) = todo.pop() {
        step(alloc, cx, &mut reached, &mut told, &mut todo, entry)?;
    }
    Ok(reached.marks)
}

/// Finds which arms and alternatives of the match some value of the scrutinee comes to, and whether some value is covered
/// by no arm.
///
/// The match is well typed and has fewer than 2^32 arms. Where the scrutinee has no value nothing is reached. The only
/// error is want of memory.
pub fn reach<'a, C: PatCx>(
    alloc: Global,
    cx: &C,
    m: &CheckedMatch<'a, C::Ty>,
) -> Result<Marks, NoMemory>
    requires typed { IsWellTyped (C.is_type cx.now) (C.context cx.now) (plain_match m.now) }
    requires few { length m.now.arms.now < 2 ^ 32 }
    ensures { IfOk result (λ marks. IsReached (C.is_value cx.now) (plain_match m.now) (is_marked marks)) }
{
    let marks = Marks::none(alloc, m.arms.len() + 1)?;
    let some = has_value(cx, m.ty, m.validity);
    if some {
        search(alloc, cx, m, marks)
    } else {
        Ok(marks)
    }
}
