//! The types that a file names, each once, and what its items declare.
//!
//! A type is a node of a set (`nodes`): a head, as `Tuple` or `Slice`, and the numbers of the nodes of its parts, which
//! stand before it. So a type is in the set once, and two numbers are equal exactly where their types are
//! ([`TypeTable::equal_types_have_one_number`]). `written` puts a written type into the set, `entries` what the items
//! declare, `draft` has both with the names of the file, and `table` is a draft of a file that breaks no rule. `laws` has
//! what follows of it.
//!
//! What a table says is told by plain definitions: `table_type` is the type that a number stands for, and
//! `table_program` is what the file declares, as types of the model that the other crates share. The readers (`kinds`,
//! `fields`, `readers`) answer by these. `table_context` is the context of the types of a table, by their numbers
//! ([`TypeTable::context_is_lawful`]). What a table keeps (`specs/Whole.antt`) stands in the table itself.
//!
//! `values` tells of each type whether it has a value, by the least model of Horn clauses over the nodes. A declared
//! type asks what the variants of its item do. By these values `emptiness` tells which types and variants are empty.
//! `known` asks whether tuples, variants and fields are fewer than 2^32.
//!
//! `edges` has the types as a graph, whose edges go to what a type has by value; by its cycles `cyclic` finds the first
//! item that contains itself, and `endless` finds the first without a finite value. `faults` finds the first item that
//! breaks a rule, with the least rule that it breaks, from the first item that breaks each rule. `build` makes the
//! table or gives that fault.
//!
//! `finding` tells what a path or a bare name in a pattern finds, and the form of it; `lookups` finds variants and fields
//! by name.
#![tactic(auto)]

mod build;
mod cyclic;
mod draft;
mod edges;
mod emptiness;
mod endless;
mod entries;
mod faults;
mod fields;
mod finding;
mod kinds;
mod known;
mod laws;
mod lookups;
mod nodes;
mod readers;
mod table;
mod values;
mod written;

pub use faults::DeclFault;
pub use finding::Found;
pub use kinds::TyKind;
pub use table::{TyId, TypeTable};
pub use type_names::{FormKind, Owner};
