// Rows that are listed one by one: what is reached is marked, and what brings nothing new and stops nothing is left out.
ghost use Rattle.std.specs.Prelude.{◌≡◌, ◌<◌, ◌&&◌, ◌++◌, ◌∷◌, [], List, ℕ, Bool, true, false, take, IfOk, OnOk, IfSome};
ghost use Rattle.std.specs.List.{All};
ghost use Rattle.pattern_matrix.specs.Counting.{Question};
ghost use Rattle.usefulness.specs.Scope.{Scope};
ghost use Rattle.usefulness.specs.Frames.{SparseAsked, IsRowIn, AreOpen, numbers, has_heads, subs_of};
ghost use Rattle.usefulness.specs.Listing.{IsListing, IsWantedAs};
ghost use Rattle.usefulness.specs.States.{plain_asked, plain_askeds, plain_opens, child_views, IsGood, IsKept, IsListed, is_noted, scope_of};

use crate::done::is_wanted;
use crate::frames::{Asked, Frame, Listing, OpenColumn, Reached};
use no_memory::NoMemory;
use std::alloc::Global;

// Room for so few rows is taken only once one is kept: often none is.
const FEW: usize = 4;

// No rows yet, and room for so many.
pub(crate) fn room_listed<'a, T: Copy>(
    alloc: Global,
    room: usize,
) -> Result<Listing<'a, T>, NoMemory>
    ensures rows { IfOk result (λ l. plain_askeds l.rows.items ≡ []) }
    ensures closed { IfOk result (λ l. l.closed ≡ false) }
    ensures kept { IfOk result (λ l. IsKept l) }
{
    let at_once = if room > FEW { room } else { 0 };
    Ok(Listing {
        rows: Vec::with_capacity(alloc, at_once)?,
        end: 0,
        closed: false,
    })
}

// Marks what the row answers, before which none was kept. It lists no head.
#[inline(always)]
fn note<'a, T: Copy>(
    reached: &mut Reached<'a, T>,
    listing: &mut Listing<'a, T>,
    asked: &Asked<'a, T>,
) -> Result<(), NoMemory>
    requires arm { asked.now.row.arm < (scope_of reached.old).arms }
    requires bare { has_heads (plain_asked asked.now).row.heads ≡ false }
    requires none { plain_askeds listing.old.rows.items ≡ [] }
    requires more { listing.old.closed ≡ false }
    ensures scope { scope_of reached.new ≡ scope_of reached.old }
    ensures rows { listing.new.rows ≡ listing.old.rows }
    ensures end { listing.new.end ≡ listing.old.end }
    ensures listed { OnOk result ((old : Question → Bool) (columns : List ℕ) (through : List (SparseAsked T))
        → IsListing old (is_noted reached.old) columns through (plain_askeds listing.old.rows.items) listing.old.closed
        → IsListing old (is_noted reached.new) columns (through ++ plain_asked asked.now ∷ []) (plain_askeds listing.new.rows.items) listing.new.closed) }
{
    listing.closed = !asked.row.guarded;
    if asked.wanted {
        reached
            .marks
            .mark(asked.row.arm, asked.row.chosen.as_slice())?;
    }
    Ok(())
}

// Keeps the row, which lists a head where it is the first one. It stands for one that was wanted where it is, and is wanted no
// more only where nothing new is wanted of that.
#[inline(always)]
fn keep<'a, T: Copy>(listing: &mut Listing<'a, T>, asked: Asked<'a, T>) -> Result<(), NoMemory>
    requires kept { IsKept listing.old }
    requires start { plain_askeds listing.old.rows.items ≡ [] → has_heads (plain_asked asked).row.heads ≡ true }
    requires more { listing.old.closed ≡ false }
    ensures rows { OnOk result (plain_askeds listing.new.rows.items ≡ plain_askeds listing.old.rows.items ++ plain_asked asked.entry ∷ []) }
    ensures kept { OnOk result (IsKept listing.new) }
    ensures listed { OnOk result ((old now : Question → Bool) (columns : List ℕ) (through : List (SparseAsked T)) (x : SparseAsked T)
        → x.row ≡ (plain_asked asked.entry).row → IsWantedAs now columns x asked.entry.wanted
        → IsListing old now columns through (plain_askeds listing.old.rows.items) listing.old.closed
        → IsListing old now columns (through ++ x ∷ []) (plain_askeds listing.new.rows.items) listing.new.closed) }
{
    let wanted = asked.wanted;
    let closed = asked.row.heads.is_empty() && !asked.row.guarded;
    listing.rows.push(asked)?;
    if wanted {
        listing.end = listing.rows.len();
    }
    listing.closed = closed;
    Ok(())
}

// Lists one row more.
#[inline(always)]
pub(crate) fn list_row<'a, T: Copy>(
    reached: &mut Reached<'a, T>,
    listing: &mut Listing<'a, T>,
    asked: Asked<'a, T>,
) -> Result<(), NoMemory>
    requires arm { asked.row.arm < (scope_of reached.old).arms }
    requires kept { IsKept listing.old }
    ensures { OnOk result ((scope : Scope T) (old : Question → Bool) (columns : List ℕ) (through : List (SparseAsked T))
        → IsListed scope old reached.old columns through listing.old → IsRowIn scope columns (plain_asked asked.entry)
        → IsListed scope old reached.new columns (through ++ plain_asked asked.entry ∷ []) listing.new) }
{
    if listing.closed {
        return Ok(());
    }
    if asked.row.heads.is_empty() && listing.rows.is_empty() {
        note(reached, listing, &asked)
    } else {
        let wanted = is_wanted(&reached.marks, &asked);
        if asked.row.guarded && !wanted {
            Ok(())
        } else {
            let row = asked.row;
            keep(listing, Asked { row, wanted })
        }
    }
}

// What is to be looked at of the rows, over these columns: those up to the last wanted one, where there is any.
pub(crate) fn finish<'a, T: Copy>(
    listing: Listing<'a, T>,
    columns: Vec<OpenColumn<T>>,
    next: usize,
) -> Option<Frame<'a, T>>
    requires kept { IsKept listing }
    ensures good { IfSome result (λ f. (scope : Scope T) → AreOpen next (numbers (plain_opens columns.items)) → All (IsRowIn scope (numbers (plain_opens columns.items))) (plain_askeds listing.entry.rows.items) → IsGood scope f) }
    ensures views { child_views result ≡ subs_of (plain_opens columns.items) (take listing.entry.end (plain_askeds listing.entry.rows.items)) }
{
    let mut listing = listing;
    let end = listing.end;
    listing.rows.truncate(end);
    if listing.rows.is_empty() {
        None
    } else {
        Some(Frame {
            columns,
            next,
            rows: listing.rows,
        })
    }
}
