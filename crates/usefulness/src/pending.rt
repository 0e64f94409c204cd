// Pieces of columns, which are entered one by one.
ghost use Rattle.std.specs.Prelude.{◌≡◌, ◌<◌, ◌++◌, true, length, map, IfOk, OnOk, IfSome};
ghost use Rattle.std.specs.List.{Contains, flat_map};
ghost use Rattle.std.specs.Option.{option_to_list};
ghost use Rattle.pattern_matrix.specs.Searching.{Submatrix, IsFit};
ghost use Rattle.usefulness.specs.declared.frames.Todo.TheVariants.{Rows};
ghost use Rattle.usefulness.specs.Stack.{IsPending, IsEntered, IsPut, IsTaken, IsTodo, more_of, opened_todo, pending_views, todo_view};
ghost use Rattle.usefulness.specs.States.{child_views, IsGood, is_noted, scope_of};

use crate::cutting::{covers, next_cut};
use crate::entering::piece_child;
use crate::frames::{Frame, Opened, Pending, Reached, Todo};
use constructor_sets::Span;
use no_memory::NoMemory;
use pat_context::PatCx;
use pattern_matrix::Part;
use std::alloc::Global;

// What is left of the last of the column's pieces of which something new may come, which is taken from these.
pub(crate) fn next_child<'a, C: PatCx>(
    alloc: Global,
    cx: &C,
    reached: &mut Reached<'a, C::Ty>,
    p: &mut Pending<'a, C::Ty>,
) -> Result<Option<Frame<'a, C::Ty>>, NoMemory>
    requires some { 0 < length p.old.parts.items }
    requires pending { IsPending (C.is_type cx.now) (C.is_value cx.now) (C.context cx.now) (scope_of reached.old) (is_noted reached.old) p.old }
    ensures scope { OnOk result (scope_of reached.new ≡ scope_of reached.old) }
    ensures good { IfOk result (λ o. IfSome o (λ f. IsGood (scope_of reached.old) f)) }
    ensures pending { OnOk result (IsPending (C.is_type cx.now) (C.is_value cx.now) (C.context cx.now) (scope_of reached.old) (is_noted reached.new) p.new) }
    ensures next { IfOk result (λ o. IsEntered (C.is_value cx.now) (is_noted reached.old) (is_noted reached.new) (pending_views (C.context cx.now) p.old) (pending_views (C.context cx.now) p.new) (child_views o)) }
{
    match next_cut(alloc, &mut p.parts, reached, &p.apart, &p.spans, p.missing)? {
        None => Ok(None),
        Some(next) => piece_child(
            alloc,
            cx,
            reached,
            &p.apart,
            &p.pieces[next.piece],
            &next.leaves,
            p.missing,
        ),
    }
}

// Adds the column, where something is left of it.
#[inline(always)]
fn add_pending<'a, T: Copy>(todo: &mut Vec<Todo<'a, T>>, p: Pending<'a, T>) -> Result<(), NoMemory>
    ensures { OnOk result (todo.new.items ≡ todo.old.items ++ more_of p.entry) }
{
    if p.parts.is_empty() {
        Ok(())
    } else {
        match todo.push(Todo::Pieces(p)) {
            Ok(()) => Ok(()),
            Err(_full) => Err(NoMemory),
        }
    }
}

// Adds the column, where there is one of which something is left.
fn add_some<'a, T: Copy>(
    todo: &mut Vec<Todo<'a, T>>,
    pieces: Option<Pending<'a, T>>,
) -> Result<(), NoMemory>
    ensures { OnOk result (todo.new.items ≡ todo.old.items ++ flat_map more_of (option_to_list pieces.entry)) }
{
    match pieces {
        None => Ok(()),
        Some(p) => add_pending(todo, p),
    }
}

// Adds the rows, where there are any.
pub(crate) fn add_rows<'a, T: Copy>(
    todo: &mut Vec<Todo<'a, T>>,
    rows: Option<Frame<'a, T>>,
) -> Result<(), NoMemory>
    ensures { OnOk result (todo.new.items ≡ todo.old.items ++ map Rows (option_to_list rows.entry)) }
{
    match rows {
        None => Ok(()),
        Some(frame) => match todo.push(Todo::Rows(frame)) {
            Ok(()) => Ok(()),
            Err(_full) => Err(NoMemory),
        },
    }
}

// Adds what is left of rows: their pieces below the rows of values in no head, which are looked at first.
pub(crate) fn add_opened<'a, T: Copy>(
    todo: &mut Vec<Todo<'a, T>>,
    opened: Opened<'a, T>,
) -> Result<(), NoMemory>
    ensures { OnOk result (todo.new.items ≡ todo.old.items ++ opened_todo opened.entry) }
{
    let Opened { pieces, wild, .. } = opened;
    add_some(todo, pieces)?;
    add_rows(todo, wild)
}

// How many of the spans have all pieces of the part.
fn count_covering(spans: &[Span], part: &Part) -> usize {
    let mut count = 0usize;
    for span in spans {
        if covers(span, part.first, part.end) {
            count = count.saturating_add(1);
        }
    }
    count
}

// Tells whether the part is one piece, which less than half of the leaves with these spans have.
fn is_small(spans: &[Span], part: &Part) -> bool {
    part.end.saturating_sub(part.first) == 1 && count_covering(spans, part) < spans.len() / 2
}

// Tells whether one piece alone is left, which less than half of the leaves have.
fn is_small_rest<'a, T: Copy>(p: &Pending<'a, T>) -> bool
    ensures { result ≡ true → 0 < length p.now.parts.items }
{
    if p.parts.len() == 1 {
        is_small(&p.spans, &p.parts[0])
    } else {
        false
    }
}

// Adds what is left of the column. Where that is one piece, and its rows are few beside those that the column keeps, it is
// entered at once, and the column goes.
fn add_rest<'a, C: PatCx>(
    alloc: Global,
    cx: &C,
    reached: &mut Reached<'a, C::Ty>,
    todo: &mut Vec<Todo<'a, C::Ty>>,
    p: Pending<'a, C::Ty>,
) -> Result<(), NoMemory>
    requires { IsPending (C.is_type cx.now) (C.is_value cx.now) (C.context cx.now) (scope_of reached.old) (is_noted reached.old) p }
    ensures scope { OnOk result (scope_of reached.new ≡ scope_of reached.old) }
    ensures put { OnOk result (IsPut (C.is_type cx.now) (C.is_value cx.now) (C.context cx.now) (scope_of reached.old) (is_noted reached.old) (is_noted reached.new) (pending_views (C.context cx.now) p.entry) todo.old.items todo.new.items) }
{
    if is_small_rest(&p) {
        let mut p = p;
        let child = next_child(alloc, cx, reached, &mut p)?;
        add_pending(todo, p)?;
        add_rows(todo, child)
    } else {
        add_pending(todo, p)
    }
}

// The rows that are looked at next: the entry that was taken from the end of the stack, or what is left of one of its pieces by
// what is marked now. What else is left of it is back.
pub(crate) fn next_rows<'a, C: PatCx>(
    alloc: Global,
    cx: &C,
    reached: &mut Reached<'a, C::Ty>,
    todo: &mut Vec<Todo<'a, C::Ty>>,
    entry: Todo<'a, C::Ty>,
) -> Result<Option<Frame<'a, C::Ty>>, NoMemory>
    requires good { IsTodo (C.is_type cx.now) (C.is_value cx.now) (C.context cx.now) (scope_of reached.old) (is_noted reached.old) entry }
    requires fit { (s : Submatrix C.Ty) → Contains (todo_view (C.context cx.now) entry) s → IsFit (C.is_type cx.now) (C.is_value cx.now) (C.context cx.now) s }
    ensures scope { OnOk result (scope_of reached.new ≡ scope_of reached.old) }
    ensures good { IfOk result (λ o. IfSome o (λ f. IsGood (scope_of reached.old) f)) }
    ensures taken { IfOk result (λ o. IsTaken (C.is_type cx.now) (C.is_value cx.now) (C.context cx.now) (scope_of reached.old) (is_noted reached.old) (is_noted reached.new) entry.entry todo.old.items todo.new.items (child_views o)) }
{
    match entry {
        Todo::Rows(frame) => Ok(Some(frame)),
        Todo::Pieces(p) => {
            let mut p = p;
            let child = next_child(alloc, cx, reached, &mut p)?;
            add_rest(alloc, cx, reached, todo, p)?;
            Ok(child)
        }
    }
}
