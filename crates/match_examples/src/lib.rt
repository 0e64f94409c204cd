//! Worked examples of matching: values of types, ways, reachable arms, witnesses and witness lists of small matches, by the
//! definitions alone. Nothing stands on this crate, and nothing runs here.
#![tactic(auto)]

/// Stands for the examples, which are in `proofs/`.
pub fn nothing_runs_here() {}
