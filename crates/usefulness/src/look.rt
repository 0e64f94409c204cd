// A submatrix that is looked at.
ghost use Rattle.std.specs.Prelude.{◌≡◌, ◌<◌, ◌∷◌, true, length, IfOk, OnOk, None, Some, slice_get};
ghost use Rattle.std.specs.List.{Contains};
ghost use Rattle.pattern_matrix.specs.Spreading.{all_apart};
ghost use Rattle.pattern_matrix.specs.Views.{plain_leaves};
ghost use Rattle.pattern_matrix.specs.Counting.{Question};
ghost use Rattle.pattern_matrix.specs.Searching.{IsFit, IsLookedAt, moved};
ghost use Rattle.usefulness.specs.Frames.{numbers, rows_of};
ghost use Rattle.usefulness.specs.Told.{IsPinned, AreLighter, IsStep};
ghost use Rattle.usefulness.specs.Memo.{memo_of};
ghost use Rattle.usefulness.specs.Stack.{IsOpened, opened_views};
ghost use Rattle.usefulness.specs.States.{plain_open, plain_opens, plain_askeds, frame_view, IsGood, is_noted, scope_of};

use crate::children::children;
use crate::choice::choose;
use crate::chosen::unmarked_chosen;
use crate::compact::compact;
use crate::frames::{Apart, Asked, Frame, Listing, OpenColumn, Opened, Reached};
use crate::listing::{finish, list_row, room_listed};
use crate::telling::tell;
use crate::told::{Told, are_told, is_untold, note_all};
use no_memory::NoMemory;
use pat_context::PatCx;
use pattern_matrix::{Leaf, add_leaves};
use std::alloc::Global;

// Where the column with the number stands among the open ones.
fn place_of<T: Copy>(columns: &[OpenColumn<T>], number: usize) -> usize
    requires { Contains (numbers (plain_opens columns.now)) number }
    ensures within { result < length columns.now }
    ensures number { slice_get (numbers (plain_opens columns.now)) result ≡ Some number }
{
    for (i, column) in columns.iter().enumerate() {
        if column.number == number {
            return i;
        }
    }
    0
}

// What stands in the rows at the column, in order.
fn asked_leaves<'a, T: Copy>(
    alloc: Global,
    rows: &[Asked<'a, T>],
    column: usize,
) -> Result<Vec<Leaf<'a, T>>, NoMemory>
    ensures { IfOk result (λ v. plain_leaves v.items ≡ all_apart column 0 (rows_of (plain_askeds rows.now))) }
{
    let mut leaves = Vec::with_capacity(alloc, rows.len())?;
    for (i, asked) in rows.iter().enumerate() {
        add_leaves(alloc, &mut leaves, i, asked.row.heads.as_slice(), column)?;
    }
    Ok(leaves)
}

// The rows, with the column that stands at the place among the open ones taken from these.
fn take_column<'a, T: Copy>(
    alloc: Global,
    frame: Frame<'a, T>,
    place: usize,
) -> Result<Apart<'a, T>, NoMemory>
    requires within { place < length frame.columns.items }
    ensures rows { IfOk result (λ a. plain_askeds a.rows.items ≡ plain_askeds frame.entry.rows.items) }
    ensures moved { IfOk result (λ a. moved place (plain_opens frame.entry.columns.items) ≡ plain_open a.taken ∷ plain_opens a.others.items) }
    ensures next { IfOk result (λ a. a.next ≡ frame.entry.next) }
    ensures leaves { IfOk result (λ a. plain_leaves a.leaves.items ≡ all_apart a.taken.number 0 (rows_of (plain_askeds a.rows.items))) }
{
    let mut others = frame.columns;
    let taken = others.remove(place);
    let leaves = asked_leaves(alloc, &frame.rows, taken.number)?;
    Ok(Apart {
        taken,
        others,
        next: frame.next,
        rows: frame.rows,
        leaves,
    })
}

// What is left of the rows where one of their columns is taken apart.
pub(crate) fn split<'a, C: PatCx>(
    alloc: Global,
    cx: &C,
    reached: &mut Reached<'a, C::Ty>,
    frame: Frame<'a, C::Ty>,
) -> Result<Opened<'a, C::Ty>, NoMemory>
    requires good { IsGood (scope_of reached.old) frame }
    requires fit { IsFit (C.is_type cx.now) (C.is_value cx.now) (C.context cx.now) (frame_view frame) }
    ensures scope { OnOk result (scope_of reached.new ≡ scope_of reached.old) }
    ensures good { IfOk result (λ o. IsOpened (C.is_type cx.now) (C.is_value cx.now) (C.context cx.now) (scope_of reached.old) (is_noted reached.new) o) }
    ensures looked { IfOk result (λ o. IsLookedAt (C.is_type cx.now) (C.is_value cx.now) (C.context cx.now) (is_noted reached.old) (is_noted reached.new) (frame_view frame.entry) (opened_views (C.context cx.now) o)) }
{
    let number = choose(alloc, &frame)?;
    let place = place_of(&frame.columns, number);
    let a = take_column(alloc, frame, place)?;
    children(alloc, cx, reached, a)
}

// Nothing is left.
fn none_opened<'a, T: Copy>() -> Opened<'a, T>
    ensures pieces { result.pieces ≡ None }
    ensures wild { result.wild ≡ None }
{
    Opened {
        pieces: None,
        wild: None,
        count: 0,
    }
}

// Looks at the rows, unless what was noted tells that nothing new comes of them: what is left of them where one of their
// columns is taken apart.
fn look_once<'a, C: PatCx>(
    alloc: Global,
    cx: &C,
    reached: &mut Reached<'a, C::Ty>,
    told: &mut Told,
    frame: Frame<'a, C::Ty>,
) -> Result<Opened<'a, C::Ty>, NoMemory>
    requires good { IsGood (scope_of reached.old) frame }
    requires fit { IsFit (C.is_type cx.now) (C.is_value cx.now) (C.context cx.now) (frame_view frame) }
    requires pinned { IsPinned (scope_of reached.old) }
    ensures scope { OnOk result (scope_of reached.new ≡ scope_of reached.old) }
    ensures grow { OnOk result ((q : Question) → is_noted reached.old q ≡ true → is_noted reached.new q ≡ true) }
    ensures good { IfOk result (λ o. IsOpened (C.is_type cx.now) (C.is_value cx.now) (C.context cx.now) (scope_of reached.old) (is_noted reached.new) o) }
    ensures lighter { IfOk result (λ o. AreLighter (opened_views (C.context cx.now) o) (frame_view frame.entry)) }
    ensures stepped { IfOk result (λ o. IsStep (C.is_type cx.now) (C.is_value cx.now) (C.context cx.now) (scope_of reached.old) (is_noted reached.old) (is_noted reached.new)
        (frame_view frame.entry) (opened_views (C.context cx.now) o) (memo_of told.old) (memo_of told.new)) }
{
    let rest = compact(alloc, frame)?;
    let words = tell(alloc, &rest)?;
    let chosen = unmarked_chosen(alloc, &reached.marks, rest.rows.as_slice())?;
    if are_told(told, &words, chosen.as_slice()) {
        return Ok(none_opened());
    }
    let new = split(alloc, cx, reached, rest)?;
    note_all(told, words, chosen.as_slice())?;
    Ok(new)
}

// Looks at the rows: the first ones of a search without a look into the words that were noted.
pub(crate) fn look_at<'a, C: PatCx>(
    alloc: Global,
    cx: &C,
    reached: &mut Reached<'a, C::Ty>,
    told: &mut Told,
    frame: Frame<'a, C::Ty>,
) -> Result<Opened<'a, C::Ty>, NoMemory>
    requires good { IsGood (scope_of reached.old) frame }
    requires fit { IsFit (C.is_type cx.now) (C.is_value cx.now) (C.context cx.now) (frame_view frame) }
    requires pinned { IsPinned (scope_of reached.old) }
    ensures scope { OnOk result (scope_of reached.new ≡ scope_of reached.old) }
    ensures grow { OnOk result ((q : Question) → is_noted reached.old q ≡ true → is_noted reached.new q ≡ true) }
    ensures good { IfOk result (λ o. IsOpened (C.is_type cx.now) (C.is_value cx.now) (C.context cx.now) (scope_of reached.old) (is_noted reached.new) o) }
    ensures lighter { IfOk result (λ o. AreLighter (opened_views (C.context cx.now) o) (frame_view frame.entry)) }
    ensures stepped { IfOk result (λ o. IsStep (C.is_type cx.now) (C.is_value cx.now) (C.context cx.now) (scope_of reached.old) (is_noted reached.old) (is_noted reached.new)
        (frame_view frame.entry) (opened_views (C.context cx.now) o) (memo_of told.old) (memo_of told.new)) }
{
    if is_untold(told) {
        split(alloc, cx, reached, frame)
    } else {
        look_once(alloc, cx, reached, told, frame)
    }
}
