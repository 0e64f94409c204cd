//! Patterns as the engine has them, in an arena.
//!
//! A pattern of the source is written for people: a name goes through references on its own, `..` stands for fields, a
//! range has types behind it. The engine wants it plain: a pattern (`DePat`) is a number, an offset and a form, and a form
//! (`Form`) is a constructor with its type, one pattern for each of its parts, and the names that are bound (`Bound`).
//! References are written out, and an or-pattern is a constructor of its own, whose patterns below are its alternatives.
//!
//! Patterns hold their forms by reference, and forms the patterns below, so that they are copied and taken apart without
//! want of memory, and patterns that are alike may share a form.
//! All of one match stand in one arena (`bumpalo`), where a `Placer` puts them, and go together when it is reset. The
//! borrow rules see to it that no pattern is used after that.
//!
//! Contracts see a pattern as the plain tree `tree` of it, a match as `plain_match`. What it means that such a match is
//! exhaustive or an arm reachable, which arm a value takes and which ranges overlap is what the definitions of
//! `match_model` say of the arms' ways (`specs/Meaning.antt`).
//!
//! The notion of such a pattern is that of the documentation of `rustc_pattern_analysis` (deconstructed patterns).
#![tactic(auto)]

pub mod laws;
mod matches;
mod pattern;
mod placer;

pub use matches::{CheckedArm, CheckedMatch};
pub use pattern::{Bound, DePat, Form, Part};
pub use placer::Placer;
