// The rows of a piece of a column.
ghost use Rattle.std.specs.Prelude.{◌≡◌, ◌<◌, ◌+◌, ◌^◌, ◌++◌, ◌∷◌, [], List, ℕ, Bool, true, length, filter, IsTrue, IfOk, OnOk, IfSome};
ghost use Rattle.std.specs.List.{All};
ghost use Rattle.match_model.specs.Constructors.{belongs};
ghost use Rattle.match_model.specs.Rows.{parts_open};
ghost use Rattle.pat_context.specs.Laws.{HasFewItems};
ghost use Rattle.pat_context.specs.Views.{plain_ctor};
ghost use Rattle.pattern_matrix.specs.Columns.{plain_columns};
ghost use Rattle.pattern_matrix.specs.Sparse.{columns_from, leaf_parts, leaves_listed, head_has, AreParts};
ghost use Rattle.pattern_matrix.specs.Views.{plain_leaf};
ghost use Rattle.pattern_matrix.specs.Counting.{Question};
ghost use Rattle.usefulness.specs.Scope.{Scope, IsKnown};
ghost use Rattle.usefulness.specs.Frames.{SparseAsked, IsRowIn, numbers, places};
ghost use Rattle.usefulness.specs.Children.{opened_at, opened};
ghost use Rattle.usefulness.specs.Cutting.{AreEnough};
ghost use Rattle.usefulness.specs.Listing.{IsListedAs};
ghost use Rattle.usefulness.specs.States.{plain_opens, plain_asked, child_views, IsGood, IsKept, IsListed, IsApart, IsEnterable, other_numbers, apart_rows, apart_leaves, apart_place, piece_view, is_noted, scope_of};

use crate::frames::{Apart, Asked, Frame, Listing, OpenColumn, Reached};
use crate::listing::{finish, list_row, room_listed};
use no_memory::NoMemory;
use pat_context::{Ctor, PatCx, count_parts};
use pattern_matrix::{Column, Leaf, is_wild_leaf, open_columns, opened_row};
use std::alloc::Global;

// The columns with numbers from the first on, and room for more behind them.
fn number_columns<T: Copy>(
    alloc: Global,
    columns: &[Column<T>],
    first: usize,
    room: usize,
) -> Result<Vec<OpenColumn<T>>, NoMemory>
    requires { first + length columns.now < 2 ^ 64 }
    ensures numbers { IfOk result (λ v. numbers (plain_opens v.items) ≡ columns_from first (length columns.now)) }
    ensures places { IfOk result (λ v. places (plain_opens v.items) ≡ plain_columns columns.now) }
{
    let mut numbered = Vec::with_capacity(alloc, columns.len().saturating_add(room))?;
    for (i, column) in columns.iter().enumerate() {
        numbered.push(OpenColumn {
            number: first + i,
            column: *column,
        })?;
    }
    Ok(numbered)
}

// The columns of the piece's parts, numbered behind all that were opened.
fn part_columns<'a, C: PatCx>(
    alloc: Global,
    cx: &C,
    a: &Apart<'a, C::Ty>,
    piece: &Ctor,
) -> Result<Vec<OpenColumn<C::Ty>>, NoMemory>
    requires ty { C.is_type cx.now a.now.taken.column.ty }
    requires belongs { IsTrue (belongs ((C.context cx.now).set_of a.now.taken.column.ty) (plain_ctor piece.now)) }
    requires held { HasFewItems (plain_ctor piece.now) }
    ensures count { IfOk result (λ v. length v.items ≡ (C.context cx.now).arity (plain_ctor piece.now) a.now.taken.column.ty) }
    ensures numbers { IfOk result (λ v. numbers (plain_opens v.items) ≡ columns_from a.now.next ((C.context cx.now).arity (plain_ctor piece.now) a.now.taken.column.ty)) }
    ensures places { IfOk result (λ v. places (plain_opens v.items) ≡ parts_open (C.context cx.now) (apart_place a.now) (plain_ctor piece.now)) }
    ensures fits { OnOk result (a.now.next + (C.context cx.now).arity (plain_ctor piece.now) a.now.taken.column.ty < 2 ^ 64) }
{
    let mut columns = Vec::new(alloc);
    open_columns(cx, &mut columns, &a.taken.column, piece)?;
    match a.next.checked_add(columns.len()) {
        None => Err(NoMemory),
        Some(_end) => number_columns(alloc, &columns, a.next, a.others.len()),
    }
}

// The row of the leaf with the heads of so many parts in place of its head at the column.
#[inline(always)]
fn piece_row<'a, T: Copy>(
    alloc: Global,
    a: &Apart<'a, T>,
    leaf: &Leaf<'a, T>,
    count: usize,
    missing: bool,
) -> Result<Asked<'a, T>, NoMemory>
    requires within { leaf.now.row < length a.now.rows.items }
    requires fits { a.now.next + count < 2 ^ 64 }
    requires parts { length (leaf_parts count (plain_leaf leaf.now).head) ≡ count }
    ensures at { IfOk result (λ x. opened_at missing a.now.taken.number a.now.next count (apart_rows a.now) (plain_leaf leaf.now) ≡ plain_asked x ∷ []) }
    ensures row { IfOk result (λ x. (scope : Scope T) (columns : List ℕ) → IsKnown scope (plain_leaf leaf.now).head
        → All (IsRowIn scope (a.now.taken.number ∷ columns)) (apart_rows a.now)
        → IsRowIn scope (columns_from a.now.next count ++ columns) (plain_asked x)) }
{
    let asked = &a.rows[leaf.row];
    let row = opened_row(alloc, &asked.row, leaf, a.taken.number, a.next, count)?;
    let wild = is_wild_leaf(leaf.head);
    Ok(Asked {
        row,
        wanted: asked.wanted && !(missing && wild),
    })
}

// Lists the row of the leaf, opened so. Behind a row that stops all values none is opened.
#[inline(always)]
fn list_opened<'a, T: Copy>(
    alloc: Global,
    reached: &mut Reached<'a, T>,
    listing: &mut Listing<'a, T>,
    a: &Apart<'a, T>,
    leaf: &Leaf<'a, T>,
    count: usize,
    missing: bool,
) -> Result<(), NoMemory>
    requires within { leaf.now.row < length a.now.rows.items }
    requires fits { a.now.next + count < 2 ^ 64 }
    requires parts { length (leaf_parts count (plain_leaf leaf.now).head) ≡ count }
    requires known { IsKnown (scope_of reached.old) (plain_leaf leaf.now).head }
    requires apart { IsApart (scope_of reached.old) a.now }
    requires kept { IsKept listing.old }
    ensures { OnOk result ((old : Question → Bool) (through : List (SparseAsked T))
        → IsListed (scope_of reached.old) old reached.old (columns_from a.now.next count ++ other_numbers a.now) through listing.old
        → IsListed (scope_of reached.old) old reached.new (columns_from a.now.next count ++ other_numbers a.now)
        (through ++ opened_at missing a.now.taken.number a.now.next count (apart_rows a.now) (plain_leaf leaf.now)) listing.new) }
{
    if listing.closed {
        return Ok(());
    }
    let row = piece_row(alloc, a, leaf, count, missing)?;
    list_row(reached, listing, row)
}

// The rows of the leaves with these numbers, opened and listed.
fn opened_listing<'a, T: Copy>(
    alloc: Global,
    reached: &mut Reached<'a, T>,
    a: &Apart<'a, T>,
    leaves: &[usize],
    count: usize,
    missing: bool,
) -> Result<Listing<'a, T>, NoMemory>
    requires fits { a.now.next + count < 2 ^ 64 }
    requires within { All (λ k. k < length a.now.leaves.items) leaves.now }
    requires parts { All (AreParts count (apart_leaves a.now)) leaves.now }
    requires apart { IsApart (scope_of reached.old) a.now }
    ensures { IfOk result (λ l. IsListed (scope_of reached.old) (is_noted reached.old) reached.new (columns_from a.now.next count ++ other_numbers a.now)
        (opened missing a.now.taken.number a.now.next count (apart_rows a.now) (leaves_listed (apart_leaves a.now) leaves.now)) l) }
{
    let mut listing = room_listed(alloc, leaves.len())?;
    for k in leaves {
        list_opened(
            alloc,
            reached,
            &mut listing,
            a,
            &a.leaves[*k],
            count,
            missing,
        )?;
    }
    Ok(listing)
}

// The number behind so many columns from the next one on.
fn number_behind(next: usize, count: usize) -> Result<usize, NoMemory>
    ensures number { IfOk result (λ n. n ≡ next + count) }
    ensures fits { OnOk result (next + count < 2 ^ 64) }
{
    match next.checked_add(count) {
        None => Err(NoMemory),
        Some(number) => Ok(number),
    }
}

// What is left where the value at the column is of the piece: the rows of leaves that are enough, which have these numbers.
// Columns are opened only where some row is left.
pub(crate) fn piece_child<'a, C: PatCx>(
    alloc: Global,
    cx: &C,
    reached: &mut Reached<'a, C::Ty>,
    a: &Apart<'a, C::Ty>,
    piece: &Ctor,
    leaves: &[usize],
    missing: bool,
) -> Result<Option<Frame<'a, C::Ty>>, NoMemory>
    requires apart { IsApart (scope_of reached.old) a.now }
    requires ty { C.is_type cx.now a.now.taken.column.ty }
    requires piece { IsEnterable (C.is_value cx.now) (C.context cx.now) a.now (plain_ctor piece.now) }
    requires within { All (λ k. k < length a.now.leaves.items) leaves.now }
    requires have { All (λ l. head_has (plain_ctor piece.now) l.head ≡ true) (leaves_listed (apart_leaves a.now) leaves.now) }
    requires enough { AreEnough (is_noted reached.old) missing a.now (filter (λ l. head_has (plain_ctor piece.now) l.head) (apart_leaves a.now)) (leaves_listed (apart_leaves a.now) leaves.now) }
    ensures scope { OnOk result (scope_of reached.new ≡ scope_of reached.old) }
    ensures good { IfOk result (λ o. IfSome o (λ f. IsGood (scope_of reached.old) f)) }
    ensures listed { IfOk result (λ o. IsListedAs (C.is_value cx.now) (is_noted reached.old) (is_noted reached.new)
        (piece_view (C.context cx.now) a.now missing (plain_ctor piece.now)) (child_views o)) }
{
    let count = count_parts(cx, piece, a.taken.column.ty);
    let end = number_behind(a.next, count)?;
    let listing = opened_listing(alloc, reached, a, leaves, count, missing)?;
    if listing.end == 0 {
        return Ok(None);
    }
    let mut columns = part_columns(alloc, cx, a, piece)?;
    columns.extend_from_slice(&a.others)?;
    Ok(finish(listing, columns, end))
}
