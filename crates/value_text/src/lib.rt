//! Values of the types of a file, as their texts tell them.
//!
//! A text spells a written value whose names are not looked up (`value_syntax`). Here it becomes a value of a type of a
//! table (`tree_eval::Value`), or is refused. The expected type decides: a number is one of that type, and a path names a
//! variant of that enum, so nothing is imported. [`read_value`] does both steps.
//!
//! `specs/Meanings.antt` says which value of a type a written value is, over what a program declares alone;
//! `specs/Names.antt` says what paths name, and `specs/Reading.antt` which value a text is read as and when it is refused.
//! `laws` has what follows: what is read is always a value of the type, and a text is read as one value at most.
//!
//! `types` asks what a type is, `names` finds variants and their forms, `leaves` has the values without parts, `order`
//! puts the values of named fields in the order of declaration, and `meaning` goes down the written value.
#![tactic(auto)]

pub mod laws;
mod leaves;
mod meaning;
mod names;
mod order;
mod reading;
mod types;

pub use reading::{ValueFault, read_value};
