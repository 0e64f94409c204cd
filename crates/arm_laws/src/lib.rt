//! Laws on the arms that a match lacks. `arm_maker` writes a pattern for each witness. Here is that each text spells
//! one pattern of the grammar, that a function with arms of these patterns behind its own breaks no rule and is
//! exhaustive, and that a value comes to each of them. `verdict_laws` ends with that law; the others lead to it.
#![tactic(auto)]

pub mod laws;
pub mod takes_laws;
pub mod verdict_laws;
