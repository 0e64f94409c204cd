//! What a step of a matrix at any column keeps, in every lawful context.
//!
//! Expanding the or-patterns of a column, specialising by one of its pieces and going on with the default rows keep a
//! matrix well formed, keep what there is to try of it on each value, and catch what is there. `specs/Engine.antt` has the
//! record of all that the theorem on trees asks, `proofs/Lawful.antt` proves it of each context that keeps its laws.
//! Nothing runs here.
#![tactic(auto)]

/// Stands for the calls to come.
pub fn nothing_runs_here() {}
