//! The least model of Horn clauses: which atoms hold where each clause says that an atom, its head, holds as soon as all
//! atoms of its body do.
//!
//! An atom is a number. The least model is the least set of atoms that is closed under the clauses: what can be derived
//! from clauses with an empty body, step by step, and nothing else. `Clause` is a clause and `least_model` finds the
//! model in a time that is linear in the length of the clauses (Dowling and Gallier, Linear-time algorithms for testing
//! the satisfiability of propositional Horn formulae, 1984).
//!
//! Each clause waits at one atom of its body at a time, the first that is not known to hold. When that atom comes to
//! hold the clause goes on from there, and where it comes to the end of its body its head holds. So each atom of each
//! body is looked at a bounded number of times. `laws` says what follows from the definition.
#![tactic(auto)]

mod clause;
pub mod laws;
mod model;
mod propagation;

pub use clause::Clause;
pub use model::least_model;
