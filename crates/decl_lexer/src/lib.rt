//! Cuts a source text into tokens.
//!
//! A rest of a text begins with one *piece*: a run of whitespace, a comment or a token, or with one
//! fault. `specs/Pieces.antt` says which, a case for each kind of piece, in the words of the Rust
//! Reference's chapter "Lexical structure". A source *lexes* where it is pieces from its start to its
//! end; else its fault is the one behind the pieces that come before it (`specs/Lexing.antt`).
//!
//! [`lex`] gives all tokens or the first fault. The [`Tokens`] take 16 bytes each, with their texts in
//! lists beside them, and [`Rest::split_first`] shows them one after the other. [`name_form`] gives
//! the form in which names are compared, [`word_of`] the keyword that a text is. The laws of `laws.rt`
//! say that a source has one list of tokens or one fault.
#![tactic(auto)]

mod characters;
mod escapes;
mod gaps;
mod laws;
mod lexing;
mod marks;
mod names;
mod numbers;
mod pieces;
mod plain;
mod read;
mod recent;
mod stored;
mod text;
mod texts;
mod token;
mod words;
mod written;

pub use laws::{
    comments_nest, faults_are_known, one_fault, one_token_list, tokens_in_order, tokens_or_fault,
};
pub use lexing::{lex, name_form};
pub use marks::Mark;
pub use stored::{Rest, Tokens};
pub use token::{IntToken, LexFault, Name, Token, TokenKind};
pub use words::{Word, word_of};
pub use written::push_name;
