//! Witnesses as a report shows them: as Rust writes patterns, and as trees in JSON; and as the patterns of arms to add.
//!
//! The engine's witnesses tell variants and fields by their numbers. Here they have names and types
//! ([`NamedWitness`]), so that nothing else is needed to write them. [`push_witness`] adds one to a report in both forms,
//! [`push_witnesses`] a whole list, [`push_overlap`] two range patterns that have one number in common. [`arm_text`] gives
//! the pattern of an arm that takes what a witness shows. Each form is written from left to right, level by level, so that
//! nothing is copied once for each level above it.
//!
//! What is written is stated in `specs/`: `Texts` says how Rust writes a witness, with `Literals` and `Ranges` for
//! literals and ranges and `Arms` for ranges of arms, and `Reported` which JSON a report has. The calls write exactly the
//! text of that.
#![tactic(auto)]

mod arms;
mod literals;
mod named;
mod names;
mod pattern;
mod quoting;
mod ranges;
mod report;
mod tree;

pub use arms::arm_text;
pub use named::{FormName, NamedField, NamedWitness};
pub use names::form_name;
pub use quoting::{push_comma, push_quoted};
pub use report::{push_overlap, push_witness, push_witnesses};
pub use tree::{push_flag, push_one_text, push_range};
