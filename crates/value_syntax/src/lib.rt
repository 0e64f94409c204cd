//! Values as they are written: read from a text, and written as one.
//!
//! A value is spelled by tokens much as a pattern is, without wildcards and ranges, and with `?later`, `?opaque` and
//! `?unseen` for values that Rust has no literal for. Names are not looked up here: which value of which type a
//! [`WrittenValue`] is, if any, is told where types are known.
//!
//! `specs/Grammar.antt` is the grammar, a relation with a case for each form, over tokens in which `&&` is two `&`;
//! `IsWritten` says that a text spells a value within 64 levels, one for each node. [`read_written`] gives the value
//! that a text spells, or says that there is none; a text never spells two (`laws.rt`). [`push_written`] writes a
//! value, as `specs/Texts.antt` says, in the manner of witnesses.
#![tactic(auto)]

mod laws;
mod literals;
mod reading;
mod value;
mod writing;

pub use laws::{one_written, reads_back, written_or_not};
pub use reading::read_written;
pub use value::{ReadFault, WrittenField, WrittenPath, WrittenValue};
pub use writing::push_written;
