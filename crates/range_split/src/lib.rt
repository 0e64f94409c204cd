//! Ranges of whole numbers: how the range patterns of a column cut the numbers of a type into pieces.
//!
//! A range (`Range`) has both its ends in it, or is free on a side. The ranges that stand in a column tell some numbers
//! apart and others not: where a range begins, or behind where one ends, the numbers are cut. Between two cuts no range
//! of the column begins or ends, so each range has all of such a piece or nothing of it.
//!
//! `split` sorts the cuts once and walks them in order. It counts how many ranges have begun and how many have ended,
//! so it knows of each piece whether some range has it without trying every range. `laws` says what follows from its
//! contract. A caller that wants no list of the pieces gathers the cuts itself (`Cuts`) and walks over them (`Walk`).
//!
//! Numbers (`Num`) go from -(2^128 - 1) to 2^128 - 1, so that the literals of every integer type and their neighbours
//! can be held.
#![tactic(auto)]

mod cut;
mod cuts;
mod end;
mod ends;
pub mod laws;
mod num;
mod pieces;
mod range;
mod size;
mod walk;

pub use cut::Cut;
pub use cuts::Cuts;
pub use end::End;
pub use num::Num;
pub use pieces::split;
pub use range::{EndKind, Range};
pub use size::Size;
pub use walk::Walk;
