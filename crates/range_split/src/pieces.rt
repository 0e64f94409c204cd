// The pieces into which a column cuts a range of numbers.
ghost use Rattle.std.specs.Prelude.{◌≡◌, IfOk};
ghost use Rattle.std.specs.List.{All};
ghost use Rattle.range_split.specs.Ends.{plain_end};
ghost use Rattle.range_split.specs.Ranges.{plain_range};
ghost use Rattle.range_split.specs.Splits.{plain_ranges, plain_pieces, HasRoomBelow, HasRoomAbove, IsSplit};
ghost use Rattle.range_split.specs.Cuts.{plain_cuts};
ghost use Rattle.range_split.specs.Walks.{pieces_from, AreInOrder, AreCuts};

use crate::{Cuts, Range, Walk};
use no_memory::NoMemory;
use std::alloc::Global;

/// The pieces into which the ranges of a column cut the numbers of `whole`, ascending, each with whether some range of
/// the column has it. Which pieces there are is our own choice, after the documentation of `rustc_pattern_analysis`
/// (constructor splitting): a cut stands where a range begins and behind where one ends.
///
/// Where `whole` is free below, no range of the column begins at -(2^128 - 1), and where it is free above, none ends at
/// 2^128 - 1: the number on the other side of the cut could not be held. The only error is want of memory.
pub fn split(
    alloc: Global,
    whole: &Range,
    columns: &[Range],
) -> Result<Vec<(Range, bool)>, NoMemory>
    requires below { All (λ r. HasRoomBelow (plain_range whole.now) (plain_range r)) columns.now }
    requires above { All (λ r. HasRoomAbove (plain_range whole.now) (plain_range r)) columns.now }
    ensures { IfOk result (λ v. IsSplit (plain_range whole.now) (plain_ranges columns.now) (plain_pieces v.items)) }
{
    let cuts = sorted_cuts(alloc, whole, columns)?;
    pieces_between(alloc, whole, &cuts)
}

// The cuts that the ranges of the column make inside the whole, ascending.
fn sorted_cuts(alloc: Global, whole: &Range, columns: &[Range]) -> Result<Cuts, NoMemory>
    requires below { All (λ r. HasRoomBelow (plain_range whole.now) (plain_range r)) columns.now }
    requires above { All (λ r. HasRoomAbove (plain_range whole.now) (plain_range r)) columns.now }
    ensures { IfOk result (λ c. AreCuts (plain_range whole.now) (plain_ranges columns.now) c.begun (plain_cuts c.places.items)) }
{
    let mut cuts = Cuts::with_capacity(alloc, columns.len())?;
    for column in columns {
        cuts.add(whole, column)?;
    }
    cuts.sort()?;
    Ok(cuts)
}

// The pieces between ascending cuts.
fn pieces_between(alloc: Global, whole: &Range, cuts: &Cuts) -> Result<Vec<(Range, bool)>, NoMemory>
    requires { AreInOrder (plain_range whole.now) cuts.now.begun (plain_cuts cuts.now.places.items) }
    ensures { IfOk result (λ v. plain_pieces v.items ≡ pieces_from (plain_range whole.now).low (plain_range whole.now).high
        cuts.now.begun 0 (plain_cuts cuts.now.places.items)) }
{
    let mut pieces = Vec::with_capacity(alloc, cuts.places.len())?;
    let mut walk = Walk::new(whole, cuts.begun);
    for cut in &cuts.places {
        match walk.pass(cut) {
            Some(piece) => pieces.push(piece)?,
            None => (),
        }
    }
    pieces.push(walk.last(&whole.high()))?;
    Ok(pieces)
}
