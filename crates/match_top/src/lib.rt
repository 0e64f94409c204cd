//! The top call of the match checker: from the words of a command line to the bytes that are written.
//!
//! `run` reads the words, takes the file that they name from a source of files, makes the whole answer in memory and
//! only then writes it to a sink. Its contract says when each status comes and which bytes were written, for every
//! source and every sink: the relation `Answers` between what is asked, the bytes of a file, the text and the status is all
//! that it knows of matches. The way of a file through the modules: `words` and `option_words` (what is asked), `reading` (the bytes),
//! `answering` (tokens, items and their faults; text and status), then a way of its own, and `writing`
//! (the sink).
//! Words that name no file, but a number (`demo_words`), ask for the counts in the report on a generated file.
//! For a report: `reporting` (the entries of the functions; the arms to add come from `arm_maker`), `judging` (the match of
//! a function, the engine's verdict on it, and which of its ranges overlap), `trees` (its decision tree, where it is asked
//! for). For the outcome of one value: `evaluating` (the function, its first fault, the value), `finding` (the function by its name), `telling` (the values of names as they are shown); what
//! the arms of its match do with the value is told by `first_match`. `refusals` has what both refuse.
//! `report` (in `embedding`) has the same answers for a source that lies in memory.
//! `laws` says that a file has one answer, and that no function is left out of a report.
#![tactic(auto)]

mod answering;
mod demo_words;
mod embedding;
mod evaluating;
mod finding;
mod judging;
mod laws;
mod option_words;
mod reading;
mod refusals;
mod reporting;
mod source;
mod statuses;
mod telling;
mod top;
mod trees;
mod words;
mod writing;

pub use answering::Answer;
pub use demo_file::demo_source;
pub use embedding::report;
pub use laws::{check_is_without_trees, one_answer, one_entry, one_first_fault, some_report};
pub use option_words::Options;
pub use statuses::Status;
pub use top::run;
pub use words::{Command, Evaluation, Question, Request};
