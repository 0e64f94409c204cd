//! Decision trees as a report shows them: JSON, with the names of variants.
//!
//! A tree's nodes tell variants by their numbers (`tree_eval::Tree`). Here a case tells its variant by its name
//! ([`NamedNode`]), so that nothing else is needed to write it; places and bindings are those of the tree. [`push_tree`]
//! adds the nodes to a report, in their order, so that a node's number is its index. Nothing is copied: each place is
//! written step by step.
//!
//! What is written is stated in `specs/`: `Places` says how a place is written, `Reported` which JSON a node has.
#![tactic(auto)]

mod named;
mod node;
mod place;

pub use named::{NamedBranch, NamedCase, NamedNode};
pub use node::push_tree;
