//! The first broken rule of a function's patterns.
//!
//! `names` tells what paths and bare names stand for, over a table of types, and `fields` the fields of what was found;
//! `types` has the tests of types and the place behind all references. `own_fault` gives the least rule that one node
//! breaks by itself: `literal_faults`, `name_faults` and `form_faults` have its forms. `walk` goes over a pattern in
//! reading order, with the names that are bound before each node (`bound`), and `function` over the arms. Where no node
//! breaks a rule by itself, `alternatives` goes over them once more for the rule on what alternatives bind, with the
//! types and modes of the names (`held`).
//!
//! `specs/NodeForms.antt` says what is told of one node, `specs/Walks.antt` what is told of a pattern, and
//! `specs/BoundSets.antt` what is told of what a pattern binds, by the definitions of `pattern_rules`.
#![tactic(auto)]

mod alternatives;
mod bound;
mod counts;
pub mod fault;
pub mod fields;
mod form_faults;
pub mod function;
mod held;
mod literal_faults;
mod name_faults;
pub mod names;
pub mod own_fault;
pub mod types;
pub mod walk;
