//! The first match: which arm of a match takes a value, where its guards give these answers.
//!
//! Arms are tried in order (Rust Reference, Match expressions). A pattern may match a value in several ways, since
//! several alternatives of an or-pattern may. A guard is asked once for each way, and where it refuses the next way is
//! tried (Rust Reference, Match guards). So [`select`] makes the ways of one arm after the other, each with the names
//! that it binds (`ways`), and asks the guard on them in order (`selecting`).
//!
//! A pattern of n places with two alternatives each may have 2^n ways, of which the first alone are asked. Of an arm
//! without a guard that is one way. Of an arm with a guard it is one for each answer up to the first that takes the arm.
//! Where no answer takes it, the last of the ways is that whose answer is missing. The first `most` combinations of two
//! lists are those of the first `most` of each, so lists of ways are cut at each level.
//!
//! No decision tree is made. `tree_laws` says that the tree of a match means what is selected here.
#![tactic(auto)]

mod held;
mod names;
mod parts;
mod selecting;
mod ways;

pub use held::{Ending, Held, HeldArm, Selection};
pub use selecting::select;
