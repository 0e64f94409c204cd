// The search for values that come to the row behind all others, which none of these takes.
ghost use Rattle.std.specs.Prelude.{◌≡◌, ◌<◌, ◌^◌, ◌++◌, ◌∷◌, [], false, map, IfOk, IfSome, OnOk};
ghost use Rattle.std.specs.List.{Contains};
ghost use Rattle.pattern_arena.specs.Trees.{plain_arm};
ghost use Rattle.pattern_matrix.specs.Counting.{Question};
ghost use Rattle.pattern_matrix.specs.HeadLists.{kept_heads};
ghost use Rattle.pattern_matrix.specs.Views.{plain_heads};
ghost use Rattle.pattern_matrix.specs.Searching.{Submatrix, work, IsFit};
ghost use Rattle.usefulness.specs.Behind.{is_behind, last_asked, row_asked, rows_asked, search_arms, IsAsked, IsLooked, IsOpen, IsStepped, Passes};
ghost use Rattle.usefulness.specs.Covering.{asking_columns, asking_rows, behind, covered_arms, scope_asked, AreCovered, IsAsking, IsKnown};
ghost use Rattle.usefulness.specs.Frames.{sub_view};
ghost use Rattle.usefulness.specs.Stack.{todo_view, todo_views, IsTodo};
ghost use Rattle.usefulness.specs.States.{child_views, frame_view, is_noted, plain_asked, scope_of, IsGood};

use crate::Marks;
use crate::asking::Asking;
use crate::begun::Begun;
use crate::compact::compact;
use crate::covered::Covered;
use crate::frames::{Asked, Frame, Reached, Todo};
use crate::listing::{finish, list_row, room_listed};
use crate::look::split;
use crate::pending::{add_opened, add_rows, next_rows};
use crate::telling::tell;
use crate::told::is_told;
use no_memory::NoMemory;
use pat_context::PatCx;
use pattern_arena::CheckedArm;
use pattern_matrix::{Chosen, Heads, Marked, Row};
use std::alloc::Global;

// The number of the row behind all others, which have the number 0.
const BEHIND: u32 = 1;

// A search: what was found so far, what is still to be looked at, and what was begun and has not ended.
#[derive(Drop)]
pub(crate) struct Search<'a, T: Copy> {
    pub(crate) reached: Reached<'a, T>,
    pub(crate) todo: Vec<Todo<'a, T>>,
    pub(crate) begun: Vec<Begun>,
}

// Tells whether some value is known to come to the row behind.
pub(crate) fn is_behind<'a, T: Copy>(search: &Search<'a, T>) -> bool
    ensures { result ≡ is_behind search.now }
{
    search.reached.marks.has_arm(BEHIND)
}

// A row of these heads, in which nothing is looked for.
fn row_asked<'a, T: Copy>(heads: Heads<'a, T>) -> Asked<'a, T>
    ensures { plain_asked result ≡ row_asked (plain_heads (kept_heads heads.entry)) }
{
    Asked {
        row: Row {
            heads,
            arm: 0,
            guarded: false,
            chosen: Chosen::Nothing,
        },
        wanted: false,
    }
}

// The row behind all others.
fn last_asked<'a, T: Copy>() -> Asked<'a, T>
    ensures { plain_asked result ≡ last_asked }
{
    Asked {
        row: Row {
            heads: Heads::Bare,
            arm: BEHIND,
            guarded: false,
            chosen: Chosen::Nothing,
        },
        wanted: true,
    }
}

// The rows that are looked at first, where there are any: those that are asked for, and the one behind.
fn first_frame<'a, C: PatCx>(
    alloc: Global,
    cx: &C,
    reached: &mut Reached<'a, C::Ty>,
    asking: Asking<'a, C::Ty>,
) -> Result<Option<Frame<'a, C::Ty>>, NoMemory>
    requires scope { scope_of reached.old ≡ scope_asked (map plain_arm reached.old.arms.now) }
    requires none { (q : Question) → is_noted reached.old q ≡ false }
    requires asking { IsAsking (C.is_type cx.now) (C.is_value cx.now) (C.context cx.now) (map plain_arm reached.old.arms.now) asking.next (asking_columns asking) (asking_rows asking) }
    ensures scope { OnOk result (scope_of reached.new ≡ scope_asked (map plain_arm reached.old.arms.now)) }
    ensures good { IfOk result (λ o. IfSome o (λ f. IsGood (scope_asked (map plain_arm reached.old.arms.now)) f)) }
    ensures fit { IfOk result (λ o. (n : Submatrix C.Ty) → Contains (child_views o) n → IsFit (C.is_type cx.now) (C.is_value cx.now) (C.context cx.now) n) }
    ensures passes { IfOk result (λ o. Passes (C.is_value cx.now) (is_noted reached.new behind) (sub_view (asking_columns asking.entry) (rows_asked (asking_rows asking.entry)) ∷ []) (child_views o)) }
{
    let Asking {
        columns,
        next,
        rows,
    } = asking;
    let mut listing = room_listed(alloc, rows.len() + 1)?;
    for heads in rows {
        list_row(reached, &mut listing, row_asked(heads))?;
    }
    list_row(reached, &mut listing, last_asked())?;
    Ok(finish(listing, columns, next))
}

// A search that begins with the rows that are asked for.
pub(crate) fn begin<'a, C: PatCx>(
    alloc: Global,
    cx: &C,
    arms: &'a [CheckedArm<'a, C::Ty>],
    asking: Asking<'a, C::Ty>,
) -> Result<Search<'a, C::Ty>, NoMemory>
    requires asking { IsAsking (C.is_type cx.now) (C.is_value cx.now) (C.context cx.now) (map plain_arm arms.now) asking.next (asking_columns asking) (asking_rows asking) }
    ensures asked { IfOk result (λ s. IsAsked (C.is_type cx.now) (C.is_value cx.now) (C.context cx.now) (map plain_arm arms.entry.now) (sub_view (asking_columns asking.entry) (rows_asked (asking_rows asking.entry))) s) }
    ensures none { IfOk result (λ s. s.begun.items ≡ []) }
{
    let marks = Marks::none(alloc, 2)?;
    let mut reached = Reached { arms, marks };
    let first = first_frame(alloc, cx, &mut reached, asking)?;
    let mut todo = Vec::new(alloc);
    add_rows(&mut todo, first)?;
    let begun = Vec::new(alloc);
    Ok(Search {
        reached,
        todo,
        begun,
    })
}

// Looks at rows of which nothing is known, by one of their columns.
fn look_new<'a, C: PatCx>(
    alloc: Global,
    cx: &C,
    search: &mut Search<'a, C::Ty>,
    rest: Frame<'a, C::Ty>,
    words: Vec<u64>,
) -> Result<(), NoMemory>
    requires known { scope_of search.old.reached ≡ scope_asked (search_arms search.old) }
    requires unmarked { is_behind search.old ≡ false }
    requires good { IsGood (scope_asked (search_arms search.old)) rest }
    requires fit { IsFit (C.is_type cx.now) (C.is_value cx.now) (C.context cx.now) (frame_view rest) }
    requires words { IsKnown (C.is_type cx.now) (C.is_value cx.now) (C.context cx.now) (search_arms search.old) (λ s. s ≡ frame_view rest) words.items }
    ensures { OnOk result (IsLooked (C.is_type cx.now) (C.is_value cx.now) (C.context cx.now) (search_arms search.old) search.old search.new (frame_view rest.entry)) }
{
    let below = search.todo.len();
    search.begun.push(Begun { below, words })?;
    let opened = split(alloc, cx, &mut search.reached, rest)?;
    add_opened(&mut search.todo, opened)
}

// Looks at the rows, unless it is known whether they cover all values.
fn look<'a, C: PatCx>(
    alloc: Global,
    cx: &C,
    covered: &Covered<'a, C::Ty>,
    search: &mut Search<'a, C::Ty>,
    frame: Frame<'a, C::Ty>,
) -> Result<(), NoMemory>
    requires covered { AreCovered (C.is_type cx.now) (C.is_value cx.now) (C.context cx.now) covered.now }
    requires known { scope_of search.old.reached ≡ scope_asked (covered_arms covered.now) }
    requires unmarked { is_behind search.old ≡ false }
    requires good { IsGood (scope_asked (covered_arms covered.now)) frame }
    requires fit { IsFit (C.is_type cx.now) (C.is_value cx.now) (C.context cx.now) (frame_view frame) }
    ensures { OnOk result (IsLooked (C.is_type cx.now) (C.is_value cx.now) (C.context cx.now) (covered_arms covered.now) search.old search.new (frame_view frame.entry)) }
{
    let rest = compact(alloc, frame)?;
    let words = tell(alloc, &rest)?;
    if is_told(&covered.full, &words) {
        return Ok(());
    }
    if is_told(&covered.left, &words) {
        return search.reached.marks.mark(BEHIND, &[]);
    }
    look_new(alloc, cx, search, rest, words)
}

// Takes a step: the entry, which was taken from the end of the stack, is looked at, or one of its pieces, and what is left of
// it is put there.
pub(crate) fn step<'a, C: PatCx>(
    alloc: Global,
    cx: &C,
    covered: &Covered<'a, C::Ty>,
    search: &mut Search<'a, C::Ty>,
    entry: Todo<'a, C::Ty>,
) -> Result<(), NoMemory>
    requires covered { AreCovered (C.is_type cx.now) (C.is_value cx.now) (C.context cx.now) covered.now }
    requires known { scope_of search.old.reached ≡ scope_asked (covered_arms covered.now) }
    requires unmarked { is_behind search.old ≡ false }
    requires good { IsTodo (C.is_type cx.now) (C.is_value cx.now) (C.context cx.now) (scope_asked (covered_arms covered.now)) (is_noted search.old.reached) entry }
    requires fit { (s : Submatrix C.Ty) → Contains (todo_view (C.context cx.now) entry) s → IsFit (C.is_type cx.now) (C.is_value cx.now) (C.context cx.now) s }
    ensures stepped { OnOk result (IsStepped (C.is_type cx.now) (C.is_value cx.now) (C.context cx.now) (covered_arms covered.now) search.old search.new (todo_view (C.context cx.now) entry.entry)) }
    ensures less { OnOk result (work (2 ^ 65) (todo_views (C.context cx.now) search.new.todo.items) < work (2 ^ 65) (todo_views (C.context cx.now) (search.old.todo.items ++ entry.entry ∷ []))) }
{
    match next_rows(alloc, cx, &mut search.reached, &mut search.todo, entry)? {
        None => Ok(()),
        Some(frame) => {
            if is_behind(search) {
                Ok(())
            } else {
                look(alloc, cx, covered, search, frame)
            }
        }
    }
}
