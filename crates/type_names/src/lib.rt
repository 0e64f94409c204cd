//! What the names of a file mean, and which items break a rule on names, attributes or written types.
//!
//! [`Names`] is made once for a file: its enums and structs by name, and the variants of each enum by name, the first
//! of a name counting. By it a name means an item of the file or a built-in type ([`Meaning`]), and `E::V` names a
//! variant ([`enum_of`], [`Names::variant`]).
//!
//! [`Finder`] finds what a path in a pattern means ([`Target`]), by maps that are made once; `specs/Finding.antt` says
//! what is found.
//!
//! [`first_name_twice`] finds the first item that breaks rule 10, and [`first_fault`] the first that breaks a rule that
//! an item breaks by itself ([`ItemRule`]); [`some_fault`] says whether some item breaks one of these. Each rule is a
//! test in `specs/`: `specs/NameRules.antt`, `specs/TypeRules.antt` and `specs/Attributes.antt`; `specs/Written.antt`
//! says which type a written type stands for, and what a file declares.
#![tactic(auto)]

mod attributes;
mod finding;
mod imports;
mod item_rules;
mod meanings;
mod name_rules;
mod names;
mod targets;
mod type_rules;

pub use attributes::is_marked;
pub use finding::Finder;
pub use imports::{enum_of, form_kind, variant_form};
pub use item_rules::{ItemRule, first_fault, some_fault};
pub use meanings::{Base, FormKind, Meaning, Opaque, Owner, built_in, int_kind};
pub use name_rules::{field_name, first_name_twice};
pub use names::Names;
pub use targets::Target;
pub use type_rules::{TypeRule, argument_count, arguments_sized, is_length};
