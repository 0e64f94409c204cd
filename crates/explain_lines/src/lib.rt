//! Lines and columns of a text's bytes, and the part of a line that is shown around a place.
//!
//! A place is a byte offset. Its line is counted from 1 by the line feeds before it, its column from 1 by the characters
//! between the last of them and the place (`specs/Lines.antt`). [`checkpoints`] goes over the text once; from then on
//! [`spot_of`] tells the line and column of any place from the nearest checkpoint before it, so that many places of a long
//! text, or of a long line, cost no more than one pass and a few bytes each. [`shown_from`] and [`shown_to`] cut a line around
//! a place, so that a long line is never shown whole.
//!
//! Texts are bytes, of any kind: a byte that continues a character of UTF-8 begins none, and each other one does.
#![tactic(auto)]

mod spots;
mod windows;

pub use spots::{Spot, begins_character, checkpoints, spot_of};
pub use windows::{shown_from, shown_to};
