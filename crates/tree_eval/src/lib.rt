//! Values, decision trees, and the table in which equal subtrees become one node.
//!
//! A tree (`Tree`) is a list of nodes: switches over the part at a place, guards that are asked, arms that are taken.
//! What a tree means for a value (`Value`) is said by `match_model`; here is only what holds it.
//!
//! Whoever makes a tree makes it from the last node to the first, and puts each node into a table (`NodeTable`) when
//! the nodes where it goes on are there. An equal node is there once. At the end the table becomes a tree: the last
//! node that was new is the root.
#![tactic(auto)]

pub mod laws;
mod numbers;
mod table;
mod tree;
mod value;

pub use table::NodeTable;
pub use tree::{Bind, Case, Node, Tree};
pub use value::Value;
