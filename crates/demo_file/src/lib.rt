//! A source file of any size from a number, to try the checker on.
//!
//! Item `i` of the file is an enum `Ei` and a function `fi` that matches on it; `specs/Generated.antt` says their
//! lines. What is to be found changes with the item's number: in each other function something is missing, in each third
//! one the last arm is unreachable, and in all of them two ranges have just the number 100 in common. So what a checker
//! should report of the file is known beforehand.
#![tactic(auto)]

mod enums;
mod functions;
mod source;

pub use source::demo_source;
