//! The findings of a report, as data and as text for people beside the lines of their source.
//!
//! A finding is a match that is not exhaustive, an arm or alternative that no value reaches, two ranges that overlap, or a
//! rule that is broken. The report gives them function by function. Each gets its place in the source by the source's
//! tokens (`specs/Findings.antt`), its title and label (`specs/Messages.antt`) and its notes (`specs/Notes.antt`).
//! [`report_diagnostics`] gives them as data, every finding once, in the order of their places (`specs/Diagnosing.antt`).
//! [`explain`] gives a text of them, plain or with colours (`specs/Texts.antt`): with their lines (`specs/Frames.antt`)
//! and a last line with counts, or in one line each.
//!
//! Nothing is taken on trust: JSON that is no report, and a place that is not in the source, are told as faults.
#![tactic(auto)]

mod describing;
mod diagnosing;
mod diagnostics;
mod explaining;
mod findings;
mod frames;
mod messages;
mod note_texts;
mod notes;
mod order;
mod shown;
mod source;
mod styles;
mod texts;

pub use diagnosing::{Fault, report_diagnostics};
pub use diagnostics::{Diagnostic, Note, NoteLevel};
pub use explaining::{Explained, Form, Manner, explain};
pub use source::{Source, mark_length};
pub use texts::push_diagnostic;
