//! The findings of a report as JSON, in the form of rustc's diagnostics.
//!
//! Editors and cargo read what rustc writes with `--error-format=json`: one object a line for each finding, with its
//! spans by bytes and by lines and columns, its notes as children, and its text (`specs/Diagnostics.antt`,
//! `specs/Spans.antt`). [`explain`] writes the findings that `explain_text` finds, each once and in the same order
//! (`specs/Texts.antt`). Arms to add are a replacement that editors can put in (`specs/Replacements.antt`).
#![tactic(auto)]

mod diagnostics;
mod explaining;
mod lines;
mod replacements;
mod spans;
mod values;

pub use explaining::explain;
