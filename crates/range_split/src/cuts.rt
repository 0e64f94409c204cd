// The cuts of a column, gathered range by range.
ghost use Rattle.std.specs.Prelude.{◌≡◌, option_map};
ghost use Rattle.std.specs.Option.{option_to_list};
ghost use Rattle.range_split.specs.Ranges.{plain_range};
ghost use Rattle.range_split.specs.Splits.{HasRoomBelow, HasRoomAbove};
ghost use Rattle.range_split.specs.Cuts.{plain_cut, begin_cut, end_cut, has_start};

use crate::cut::Cut;
use crate::ends::{is_at, is_low_within};
use crate::range::ascend;
use crate::{End, Range};
use no_memory::NoMemory;
use std::alloc::Global;

/// The cuts that the ranges of a column make inside a whole, and how many of the ranges have its first numbers.
#[derive(Drop)]
pub struct Cuts {
    pub places: Vec<Cut>,
    pub begun: u128,
}

impl Cuts {
    ghost use Rattle.std.specs.Prelude.{◌≡◌, ◌++◌, ◌+◌, ◌<◌, ◌^◌, [], IsTrue, IfOk, OnOk};
    ghost use Rattle.std.specs.List.{All};
    ghost use Rattle.std.specs.List.Sorted.{IsPermutation};
    ghost use Rattle.match_model.specs.Numbers.{MEnd, is_from};
    ghost use Rattle.range_split.specs.Ranges.{plain_range};
    ghost use Rattle.range_split.specs.Splits.{HasRoomBelow, HasRoomAbove};
    ghost use Rattle.range_split.specs.Cuts.{plain_cuts, cuts_by, has_start, Rise};
    ghost use Rattle.range_split.specs.Walks.{bit};

    /// No cuts yet, with room for those of so many ranges.
    pub fn with_capacity(alloc: Global, ranges: usize) -> Result<Cuts, NoMemory>
        ensures places { IfOk result (λ c. c.places.items ≡ []) }
        ensures begun { IfOk result (λ c. c.begun ≡ 0) }
    {
        let places = Vec::with_capacity(alloc, ranges.saturating_mul(2))?;
        Ok(Cuts { places, begun: 0 })
    }

    /// Adds the cuts that one range more makes inside the whole.
    pub fn add(&mut self, whole: &Range, range: &Range) -> Result<(), NoMemory>
        requires below { HasRoomBelow (plain_range whole.now) (plain_range range.now) }
        requires above { HasRoomAbove (plain_range whole.now) (plain_range range.now) }
        requires few { self.old.begun < 2 ^ 65 }
        ensures places { OnOk result (plain_cuts self.new.places.items ≡ plain_cuts self.old.places.items
            ++ cuts_by (plain_range whole.now) (plain_range range.now)) }
        ensures begun { OnOk result (self.new.begun ≡ self.old.begun
            + bit (has_start (plain_range whole.now) (plain_range range.now))) }
    {
        if starts(whole, range) {
            self.begun += 1;
        }
        if let Some(cut) = cut_before(whole, range) {
            self.places.push(cut)?;
        }
        if let Some(cut) = cut_behind(whole, range) {
            self.places.push(cut)?;
        }
        Ok(())
    }

    /// Puts the cuts in order.
    pub fn sort(&mut self) -> Result<(), NoMemory>
        ensures same { OnOk result
            (IsPermutation (plain_cuts self.old.places.items) (plain_cuts self.new.places.items)) }
        ensures rising { OnOk result ((low : MEnd) → All (λ c. IsTrue (is_from low c.0)) (plain_cuts self.old.places.items)
            → Rise low (plain_cuts self.new.places.items)) }
        ensures begun { OnOk result (self.new.begun ≡ self.old.begun) }
    {
        self.places.sort_by_key(|cut| cut.key())?;
        Ok(())
    }
}

// Tells whether a range of the column has the first numbers of the whole.
fn starts(whole: &Range, column: &Range) -> bool
    ensures { result ≡ has_start (plain_range whole.now) (plain_range column.now) }
{
    is_low_within(&column.low(), &whole.low()) && ascend(&whole.low(), &column.high())
}

// The cut before a range of the column, where it begins inside the whole.
fn cut_before(whole: &Range, column: &Range) -> Option<Cut>
    requires { HasRoomBelow (plain_range whole.now) (plain_range column.now) }
    ensures { option_to_list (option_map plain_cut result)
        ≡ begin_cut (plain_range whole.now) (plain_range column.now).low }
{
    match column.low() {
        End::Free => None,
        End::At(first) => {
            if whole.contains(&first) && !is_at(&whole.low(), &first) {
                Some(Cut::before(&first, true))
            } else {
                None
            }
        }
    }
}

// The cut behind a range of the column, where it ends inside the whole.
fn cut_behind(whole: &Range, column: &Range) -> Option<Cut>
    requires { HasRoomAbove (plain_range whole.now) (plain_range column.now) }
    ensures { option_to_list (option_map plain_cut result)
        ≡ end_cut (plain_range whole.now) (plain_range column.now).high }
{
    match column.high() {
        End::Free => None,
        End::At(last) => {
            if whole.contains(&last) && !is_at(&whole.high(), &last) {
                let first = last.next();
                Some(Cut::before(&first, false))
            } else {
                None
            }
        }
    }
}
