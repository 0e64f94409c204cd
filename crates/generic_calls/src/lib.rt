//! Calls that show what a proof from bounds does not: that a generic function has a type that keeps its bounds, and
//! that a `requires` can be met.
//!
//! A generic function is proved once, from its bounds alone, so each is called here at a type, unless a proved
//! function of another crate calls it at one. A function with a `requires` is called here, unless a proved function
//! of another crate calls it. `laws` has the laws, `matches` what takes matches apart, `runs` the walks through a
//! tree, `rows` all else. Nothing stands on this crate, and `tests/calls/list` tells whether a function is missing.
#![tactic(auto)]

pub mod laws;
pub mod matches;
mod patterns;
pub mod rows;
pub mod runs;
