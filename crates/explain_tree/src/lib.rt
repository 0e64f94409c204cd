//! The decision tree of a function, as a report shows it, as a graph in Graphviz's language.
//!
//! A report with trees has a list of nodes for each function that is judged (docs/report.md, "Decision trees").
//! `specs/Nodes.antt` says which JSON is which node, `specs/Labels.antt` what is shown of it and how that stands in a
//! string, and `specs/Graphs.antt` which statements it has: one for each node, so that a node at which several others go
//! on is drawn once, and one for each way on. A guard that is asked has one more node, for its arm, which is taken where
//! the guard holds. Arms are shown with the line on which their pattern ends (`specs/Places.antt`).
#![tactic(auto)]

mod graph;
mod items;
mod labels;
mod lines;
mod nodes;
mod pictures;
mod reading;

pub use pictures::{Fault, picture};
