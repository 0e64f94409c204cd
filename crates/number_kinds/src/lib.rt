//! The numbers of `char` and of the integer types, as ranges, and what a pattern may write of them.
//!
//! A type of numbers has one range of them, `char` two: its scalar values leave out the surrogates. Without a width
//! `usize` and `isize` have no end, but their literals fit 64 bits ([`is_literal_of`]). A written range may leave an
//! end out or leave the high end itself out; [`written_range`] brings it to a range with both its ends in it, over the
//! hole of `char` too, and [`has_no_number`] tells which ranges are empty.
#![tactic(auto)]

mod kinds;
mod literals;

pub use kinds::{NumberKind, char_numbers, has_number, kind_numbers};
pub use literals::{has_no_number, is_literal_of, literal_width, written_range};
