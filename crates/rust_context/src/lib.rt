//! The types of a Rust file, as the engine asks for them.
//!
//! The engine decides a `match` over any language that answers the five questions of `PatCx` and keeps its laws.
//! [`RustCx`] answers them from the table of a file's types: which constructors a type has, how many parts a
//! constructor has and of which types, and which types and variants have no value at a sure place.
//!
//! A type is its number in the table (`TyId`). What is told of a number is told of the type that it stands for, by the
//! plain definitions of Rust's types (`table_context`, `TableValue`), and the laws hold for every table, at every width
//! of `usize` and `isize`.
//!
//! `numbers` has the numbers of `char` and of the integer types as ranges, `kinds` the constructors of each kind of type,
//! and `laws` says what a caller sees of the context.
#![tactic(auto)]

mod context;
mod kinds;
pub mod laws;
mod numbers;

pub use context::RustCx;
