//! Laws on names: what the normal form of an identifier is. They rest on Unicode's tables, and nothing stands on them.
#![tactic(auto)]

pub mod laws;
