//! In edition 2024 a pattern that breaks no rule has one reading of its binding modes.
//!
//! `match_model` has two readings of a `&` and a `mut` that stand where the binding mode is no move. Here is that none
//! stands there in a function that breaks no rule in edition 2024, so that the two agree; nothing stands on it.
#![tactic(auto)]

pub mod laws;
