//! Laws of patterns that break no rule: what an engine gets of them keeps what they mean, and what it finds of them is found
//! of the arms as they are written.
//!
//! `Spelled` and `ShownMatches` of `pattern_rules` say what is asked of an arm and of a match, `specs/` what is kept and
//! found. `laws` says that it holds, and `overlap_laws` says it of overlapping ranges.
#![tactic(auto)]

pub mod laws;
pub mod overlap_laws;
