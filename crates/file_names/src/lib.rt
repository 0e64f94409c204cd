//! Laws on the names of a file: those of its items, variants, fields and functions are identifiers.
//!
//! The lexer takes an identifier in NFC and puts it into a token. The parser puts the text of a name token into an
//! item. So a name of an item is the NFC of an identifier, and that is an identifier (`name_laws`).
#![tactic(auto)]

pub mod laws;
