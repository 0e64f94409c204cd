//! Following decision trees.
//!
//! A walk begins at the first node of a tree. A switch goes on along the first case that has the part at its place, or
//! else along its last case; a guard takes the next answer, and goes on where that refuses. So `follow` ends at a node
//! that takes an arm, where no arm is left, or at a guard without an answer; `asked` gives the nodes whose guards got
//! one, and `bindings` what the names of a node's arm hold of the value.
//!
//! What a walk is stands in `match_model` (`EndsIn`). A tree and a value may be deep: each function is a loop over
//! nodes, cases, names or steps, and none calls itself.
#![tactic(auto)]

mod arms;
mod cases;
mod held;
pub mod laws;
mod part;
mod run;
mod turn;

pub use arms::arm_at;
pub use held::{Held, bindings};
pub use run::{Outcome, asked, follow};
