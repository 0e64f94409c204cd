//! Values that are written are read as the same values.
//!
//! `witness_names` writes a value with the names of its type, and `value_text` says which value of a type is written.
//! Here is that the two agree; nothing stands on it.
#![tactic(auto)]

pub mod laws;
