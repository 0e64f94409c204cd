//! The output of the checker as JSON: compact, the keys of an object ascending, one line feed at the end.
//!
//! A report has an entry for each function: what is reported of it, its refusal, or the arms to add to it. It is written
//! piece by piece into one text, so that no entry lies in memory as a whole beside it. Each text is the text that
//! `serde_json` gives for the value that `specs/Report.antt` states, byte for byte: `report_text` for the entries that
//! were added, in their order, and `refusal_text` for a refusal that stands alone. Witnesses are written by `witness_text`,
//! decision trees by `tree_text`. What a match does with one value (`OutcomeText`) and the counts of a generated file
//! (`Summary`) have outputs of their own, which `specs/Outcomes.antt` and `specs/Summaries.antt` state.
#![tactic(auto)]

mod entry;
mod outcome;
mod refusal;
mod report;
mod rules;
mod summary;

pub use outcome::{AskedText, EndingText, HeldText, OutcomeText, outcome_bytes};
pub use refusal::{Refusal, refusal_bytes};
pub use report::{FnReport, ReportText};
pub use rules::rule_name;
pub use summary::{Summary, demo_bytes};
