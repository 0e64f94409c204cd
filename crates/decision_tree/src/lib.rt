//! The decision tree of a match.
//!
//! The rows of the arms are lowered by rules: a first row of wildcards and names is taken, or asks its guard; else the place
//! with the fewest branches is looked at, its or-patterns are expanded, and each piece of the column that has a value is
//! entered (Maranget 2008). Equal subtrees are one node. `tree_laws` says what such a tree does.
//!
//! A path is as long as there are places to look at, so rows that wait for the trees of others stand in a list on the heap.
#![tactic(auto)]

mod binds;
mod branches;
mod cutting;
mod digests;
mod frames;
mod having;
mod idle;
mod known;
mod leaves;
mod lone;
mod lowering;
mod pieces;
mod repeated;
mod steps;
mod tells;
mod thin;
mod top;
mod wild;

pub use top::lower;
