//! Witnesses, decision trees and values with the names of the types of a file.
//!
//! The engine tells variants and fields by their numbers, and knows no types' names. [`name_witness`] gives a witness
//! of a type of a table (`type_table::TypeTable`) its names: of a struct its own, of a declared variant its enum's and its
//! own, of a brace form's parts those of their fields. [`Paths`] says how a variant of `Option` or `Result` is named: in
//! a report by its own name, in an arm to add behind its enum's. Numbers become characters or numbers of an integer type,
//! and references get their mutability. [`name_witnesses`] does so for a list. [`name_tree`] gives the variants of a
//! decision tree their names, each by the type at the place of its switch. [`name_value`] gives a value of a type its
//! names, as the value is written (`value_syntax::WrittenValue`).
//!
//! Which names a witness gets is stated in `specs/Named`, which a tree in `specs/NamedTrees`, which a value in
//! `specs/NamedValues`, over what a program declares alone. `numbers` has ranges, `types` what a type is made of, `forms`
//! how structs and variants are written and their names, and `naming` goes down the witness. `places` has the types at
//! places, `trees` goes over the nodes of a tree, and `values` goes down the value.
#![tactic(auto)]

mod forms;
mod naming;
mod numbers;
mod paths;
mod places;
mod trees;
mod types;
mod values;

pub use naming::{name_witness, name_witnesses};
pub use paths::Paths;
pub use trees::name_tree;
pub use values::name_value;
