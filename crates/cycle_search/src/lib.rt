//! Cycles of a directed graph: which is the least node that reaches itself?
//!
//! A node is a number, and `edges[i]` are the nodes to which the edges of node `i` go. `first_on_cycle` finds the answer in
//! a time that is linear in nodes and edges.
//!
//! First each node is given the number of its strongly connected component, by a depth-first search (Tarjan, Depth-first
//! search and linear graph algorithms, 1972), so that no edge goes to a greater number. That no edge does is then looked up
//! for each edge, so the answer does not rest on the search. A node whose edges all go to lesser numbers is on no cycle:
//! along a way the numbers never rise, and at its first step they fall. Any other node has an edge into its own component,
//! and a search that starts at the node comes back to it.
#![tactic(auto)]

mod components;
mod cycle;
pub mod laws;
mod way;

pub use cycle::{first_group_on_cycle, first_on_cycle};
