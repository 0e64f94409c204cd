// The rows of values that no head at a column has.
ghost use Rattle.std.specs.Prelude.{◌≡◌, ◌<◌, ◌++◌, ◌∷◌, [], List, ℕ, Bool, true, length, IfOk, OnOk, IfSome};
ghost use Rattle.std.specs.List.{All};
ghost use Rattle.match_model.specs.Values.{MValue};
ghost use Rattle.match_model.specs.Rows.{is_wild};
ghost use Rattle.pat_context.specs.Parts.{AreValues};
ghost use Rattle.pattern_matrix.specs.Views.{plain_leaf};
ghost use Rattle.pattern_matrix.specs.Counting.{Question};
ghost use Rattle.usefulness.specs.Scope.{Scope};
ghost use Rattle.usefulness.specs.Frames.{SparseAsked, IsRowIn};
ghost use Rattle.usefulness.specs.Children.{dropped_at, dropped};
ghost use Rattle.usefulness.specs.Listing.{IsListedAs};
ghost use Rattle.usefulness.specs.States.{plain_asked, child_views, IsGood, IsKept, IsListed, IsApart, other_numbers, other_places, apart_rows, apart_leaves, wild_view, is_noted, scope_of};

use crate::frames::{Apart, Asked, Frame, Listing, Reached};
use crate::listing::{finish, list_row, room_listed};
use no_memory::NoMemory;
use pat_context::PatCx;
use pattern_matrix::{Leaf, dropped_row, is_wild_leaf};
use std::alloc::Global;

// The row of the leaf, which is a wildcard, without its head at the column.
#[inline(always)]
fn wild_row<'a, T: Copy>(
    alloc: Global,
    a: &Apart<'a, T>,
    leaf: &Leaf<'a, T>,
) -> Result<Asked<'a, T>, NoMemory>
    requires within { leaf.now.row < length a.now.rows.items }
    requires wild { is_wild (plain_leaf leaf.now).head ≡ true }
    ensures at { IfOk result (λ x. dropped_at a.now.taken.number (apart_rows a.now) (plain_leaf leaf.now) ≡ plain_asked x ∷ []) }
    ensures row { IfOk result (λ x. (scope : Scope T) (columns : List ℕ) → All (IsRowIn scope (a.now.taken.number ∷ columns)) (apart_rows a.now) → IsRowIn scope columns (plain_asked x)) }
{
    let asked = &a.rows[leaf.row];
    let row = dropped_row(alloc, &asked.row, leaf, a.taken.number)?;
    Ok(Asked {
        row,
        wanted: asked.wanted,
    })
}

// Lists the row of the leaf, where that is a wildcard.
#[inline(always)]
fn list_wild<'a, T: Copy>(
    alloc: Global,
    reached: &mut Reached<'a, T>,
    listing: &mut Listing<'a, T>,
    a: &Apart<'a, T>,
    leaf: &Leaf<'a, T>,
) -> Result<(), NoMemory>
    requires within { leaf.now.row < length a.now.rows.items }
    requires apart { IsApart (scope_of reached.old) a.now }
    requires kept { IsKept listing.old }
    ensures { OnOk result ((old : Question → Bool) (through : List (SparseAsked T))
        → IsListed (scope_of reached.old) old reached.old (other_numbers a.now) through listing.old
        → IsListed (scope_of reached.old) old reached.new (other_numbers a.now) (through ++ dropped_at a.now.taken.number (apart_rows a.now) (plain_leaf leaf.now)) listing.new) }
{
    if is_wild_leaf(leaf.head) {
        let row = wild_row(alloc, a, leaf)?;
        list_row(reached, listing, row)
    } else {
        Ok(())
    }
}

// How many of the leaves are wildcards.
fn count_wild<'a, T: Copy>(leaves: &[Leaf<'a, T>]) -> usize {
    let mut count = 0usize;
    for leaf in leaves {
        if is_wild_leaf(leaf.head) {
            count = count.saturating_add(1);
        }
    }
    count
}

// The rows of the leaves that are wildcards, listed.
fn wild_listing<'a, T: Copy>(
    alloc: Global,
    reached: &mut Reached<'a, T>,
    a: &Apart<'a, T>,
) -> Result<Listing<'a, T>, NoMemory>
    requires apart { IsApart (scope_of reached.old) a.now }
    ensures { IfOk result (λ l. IsListed (scope_of reached.old) (is_noted reached.old) reached.new (other_numbers a.now)
        (dropped a.now.taken.number (apart_rows a.now) (apart_leaves a.now)) l) }
{
    let mut listing = room_listed(alloc, count_wild(&a.leaves))?;
    for leaf in &a.leaves {
        list_wild(alloc, reached, &mut listing, a, leaf)?;
    }
    Ok(listing)
}

// What is left where the value at the column is in no head: the rows that are wild there. Columns are copied only where
// some row is left.
pub(crate) fn wild_child<'a, C: PatCx>(
    alloc: Global,
    cx: &C,
    reached: &mut Reached<'a, C::Ty>,
    a: &Apart<'a, C::Ty>,
) -> Result<Option<Frame<'a, C::Ty>>, NoMemory>
    requires apart { IsApart (scope_of reached.old) a.now }
    ensures scope { OnOk result (scope_of reached.new ≡ scope_of reached.old) }
    ensures good { IfOk result (λ o. IfSome o (λ f. IsGood (scope_of reached.old) f)) }
    ensures listed { IfOk result (λ o. ((vs : List MValue) × AreValues (C.is_value cx.now) (other_places a.now) vs)
        → IsListedAs (C.is_value cx.now) (is_noted reached.old) (is_noted reached.new)
        (wild_view a.now)
        (child_views o)) }
{
    let listing = wild_listing(alloc, reached, a)?;
    if listing.end == 0 {
        return Ok(None);
    }
    let columns = Vec::from_slice(alloc, &a.others)?;
    Ok(finish(listing, columns, a.next))
}
