//! Reads the items of a source from its tokens.
//!
//! The grammar stands in `docs/grammar.md` and, as relations with a case for each form, in
//! `specs/DeclarationGrammar.antt`, `specs/RunGrammar.antt`, `specs/ArmGrammar.antt`,
//! `specs/FunctionGrammar.antt`, `specs/ItemGrammar.antt` and `specs/FileGrammar.antt`. Each says what tokens
//! begin with and what stands behind it; types, patterns and attributes are those of `decl_syntax`, which
//! also says how tokens are counted. Beside each stands a reading from left to right (`specs/*Reading.antt`),
//! which the code follows and laws join to the grammar.
//!
//! [`parse`] gives the file that tokens spell, or the first fault: how many items stand before it, and the byte at
//! which what stands there begins, which is no item, or one with more than 256 fields in a form, parts in a tuple type,
//! or items or fields in one list of a pattern. The laws of `laws.rt` say that any tokens spell one file or have one
//! fault.
#![tactic(auto)]

mod arms;
mod declarations;
mod fields;
mod file;
mod functions;
mod items;
mod laws;
mod names;
mod params;
mod parts;
mod runs;
mod widths;

pub use file::{ParseFault, parse};
pub use functions::one_function;
pub use laws::{file_or_fault, one_fault, one_file, some_answer};
pub use runs::one_run;
