//! Tokens as readers see them, and why a source has none.
ghost use Rattle.std.specs.Prelude.{◌≡◌};

use crate::marks::Mark;
use crate::words::Word;
use no_memory::NoMemory;
use std::rc::RcStr;

/// The text of a name. All names of a source with one text share it, and a copy takes no memory of its own.
pub type Name = RcStr;

/// A token and its place: the byte offsets in the file where it begins and where it ends, both below 2^32.
/// `from` is below `to`, and the byte at `to` is the first one behind it.
#[derive(Clone, Copy)]
pub struct Token<'a> {
    pub kind: TokenKind<'a>,
    pub from: u64,
    pub to: u64,
}

/// An integer literal. `value` is `None` from 2^128 on, `suffix` is as written, or empty, and `decimal` says that no base
/// stands before the digits.
#[derive(Debug, Drop)]
pub struct IntToken {
    pub value: Option<u128>,
    pub suffix: String,
    pub decimal: bool,
}

/// What a token is. Its texts stand in the lists of its source's `Tokens`.
///
/// Source: the Rust Reference, "Tokens".
#[derive(Clone, Copy)]
pub enum TokenKind<'a> {
    /// An identifier: its text in NFC, without its `r#`, and whether it had one.
    Name { text: &'a Name, raw: bool },
    Word(Word),
    Mark(Mark),
    /// A lifetime or a raw lifetime.
    Lifetime,
    /// A decimal integer below 2^64 without a suffix.
    Small(u64),
    /// Any other integer.
    Int(&'a IntToken),
    Float,
    Char(char),
    Byte(u8),
    /// A text, with a line feed for each CR LF and with its escapes read.
    Str(&'a String),
    ByteStr,
    CStr,
}

/// Why a source has no tokens: the first rule that it breaks and the byte offset there, or memory.
///
/// Rule 1: the bytes are not UTF-8 from there on. Rule 2: no token begins there. Rule 3: a block
/// comment is not closed. Rule 4: a text is not closed. Rule 5: no escape begins at this backslash.
/// The numbers are our own choice.
#[derive(Debug, Drop)]
pub enum LexFault {
    Rule { rule: u32, at: u64 },
    NoMemory,
}

impl From<NoMemory> for LexFault {
    ghost use Rattle.decl_lexer.specs.declared.token.LexFault.TheVariants as faults;

    ghost from_gives = { λ _ e. e ≡ faults.NoMemory };

    fn from(_e: NoMemory) -> Self {
        LexFault::NoMemory
    }
}
