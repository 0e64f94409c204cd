//! Which arms and alternatives of a match are reached, and whether rows over open columns cover all values.
#![tactic(auto)]

mod asking;
mod begun;
mod behind;
mod children;
mod choice;
mod chosen;
mod compact;
mod covered;
mod cutting;
mod done;
mod entering;
mod frames;
mod listing;
mod lone;
mod look;
mod marks;
mod pending;
mod search;
mod telling;
mod told;
mod wild;

pub use asking::Asking;
pub use covered::{Covered, is_covered, none_covered};
pub use marks::{Alternative, Marks};
pub use search::reach;
