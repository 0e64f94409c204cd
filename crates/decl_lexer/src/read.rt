//! A token as it is read. A name in ASCII is lent from the source, and every other text is its own.
use crate::marks::Mark;
use crate::token::IntToken;
use crate::words::Word;

/// A plain token: one of the commonest kinds, which is read and kept without a value for any other.
#[derive(Clone, Copy, Debug)]
pub enum PlainKind<'a> {
    Mark(Mark),
    Word(Word),
    /// A name in ASCII, as it stands in the source.
    Name(&'a str),
    /// A decimal integer below 2^32 without a suffix.
    Small(u32),
}

/// A plain token, and its place: the byte offsets in the file where it begins and where it ends.
#[derive(Clone, Copy, Debug)]
pub struct PlainToken<'a> {
    pub kind: PlainKind<'a>,
    pub from: u64,
    pub to: u64,
}

/// A token that was read, and its place: the byte offsets in the file where it begins and where it ends.
#[derive(Debug, Drop)]
pub struct ReadToken<'a> {
    pub kind: ReadKind<'a>,
    pub from: u64,
    pub to: u64,
}

/// What a token is that was read. An integer stands behind a box, since it is much larger than the others.
#[derive(Debug, Drop)]
pub enum ReadKind<'a> {
    /// An identifier in ASCII, as it stands in the source without its `r#`, and whether it had one.
    Plain { text: &'a str, raw: bool },
    /// An identifier: its text in NFC, without its `r#`, and whether it had one.
    Name { text: String, raw: bool },
    Word(Word),
    Mark(Mark),
    Lifetime,
    /// A decimal integer below 2^64 without a suffix.
    Small(u64),
    /// Any other integer.
    Int(Box<IntToken>),
    Float,
    Char(char),
    Byte(u8),
    Str(String),
    ByteStr,
    CStr,
}
