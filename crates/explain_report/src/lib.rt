//! Reads the JSON of a report into plain records.
//!
//! A report is what the checker writes of a source: the functions with what was found of each, or the rule by which the
//! file is refused. `specs/Reading.antt` says of each JSON value which record it is, if any; [`report_of`] gives exactly
//! that one, or says that the value is no report. [`read_arms`] does the same for the report of `arms` (`specs/Arms.antt`). Keys that a report does not have are passed over. The records borrow
//! their texts from the JSON value, which [`value_of`] reads from a text, passing over what stands deeper than a report
//! is asked.
#![tactic(auto)]

mod arms;
mod fields;
mod judged;
mod lists;
mod records;
mod report;
mod skim;

pub use arms::read_arms;
pub use fields::{items_at, text_at};
pub use records::{Function, Judged, Overlap, ReadFault, Refused, Report, Unreached, Verdict};
pub use report::report_of;
pub use skim::value_of;
