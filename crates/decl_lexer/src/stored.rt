//! Tokens as they are kept: 16 bytes each, with their texts in lists beside them.
ghost use Rattle.std.specs.Prelude.{◌≡◌, ◌≤◌, ◌++◌, ◌∷◌, [], length, slice_get, option_map, IfOk, OnOk, MatchOption};
ghost use Rattle.std.specs.Rc.{rc_str_bytes};
ghost use Rattle.decl_lexer.specs.Views.{read_view, plain_view, lexeme_view, token_view, read_token_view, plain_token_view};
ghost use Rattle.decl_lexer.specs.Begins.{mark_of, keyword_of, name_of};
ghost use Rattle.decl_lexer.specs.Stored.{lexeme_in, Grew, Grows, IsEntry, Shows, IsWhole, tokens_view, rest_view, first_is, first_as, mark_and_end, name_entry, large_entry, integer_entry, text_entry};

use crate::marks::Mark;
use crate::read::{PlainKind, PlainToken, ReadKind, ReadToken};
use crate::recent::{Recent, place_of};
use crate::token::{IntToken, Name, Token, TokenKind};
use crate::words::Word;
use indexmap::IndexSet;
use no_memory::NoMemory;
use std::alloc::Global;

/// What a token is: its payload in four bytes, or the number of its entry in a list.
#[derive(Clone, Copy, Debug)]
enum StoredKind {
    Name(u32),
    RawName(u32),
    Word(Word),
    Mark(Mark),
    Lifetime,
    Small(u32),
    Large(u32),
    Int(u32),
    Float,
    Char(char),
    Byte(u8),
    Str(u32),
    ByteStr,
    CStr,
}

/// A token with its place, in 16 bytes.
#[derive(Clone, Copy, Debug)]
struct Stored {
    kind: StoredKind,
    from: u32,
    to: u32,
}

/// What the tokens of a source stand for that takes more than four bytes: the texts of names, each once, decimal integers
/// from 2^32 on without a suffix, all other integers, and texts.
#[derive(Drop)]
struct Lists {
    names: IndexSet<Name>,
    large: Vec<u64>,
    integers: Vec<Box<IntToken>>,
    texts: Vec<String>,
}

/// The tokens of a source, in their order. Each takes 16 bytes, and the text of a name is kept once.
#[derive(Drop)]
pub struct Tokens {
    stored: Vec<Stored>,
    lists: Lists,
}

/// The tokens of a source from one of them on.
#[derive(Clone, Copy)]
pub struct Rest<'a> {
    stored: &'a [Stored],
    lists: &'a Lists,
}

/// The mark that a kept token is.
fn mark_of(kind: StoredKind) -> Option<Mark>
    ensures { (lists : Lists) → mark_of (lexeme_in lists kind) ≡ result }
{
    match kind {
        StoredKind::Mark(mark) => Some(mark),
        _ => None,
    }
}

/// The keyword that a kept token is.
fn keyword_of(kind: StoredKind) -> Option<Word>
    ensures { (lists : Lists) → keyword_of (lexeme_in lists kind) ≡ result }
{
    match kind {
        StoredKind::Word(word) => Some(word),
        _ => None,
    }
}

/// The number in 32 bits; from 2^32 on it counts as want of memory.
fn narrow(number: u64) -> Result<u32, NoMemory>
    ensures { IfOk result (λ n. n ≡ number) }
{
    if number <= u32::MAX as u64 {
        Ok(number as u32)
    } else {
        Err(NoMemory)
    }
}

/// Appends the entry, and gives its number.
fn put<T: Drop>(list: &mut Vec<T>, entry: T) -> Result<u32, NoMemory>
    ensures list { OnOk result (list.new.items ≡ list.old.items ++ entry ∷ []) }
    ensures number { IfOk result (λ n. n ≡ length list.old.items) }
{
    let number = narrow(list.len() as u64)?;
    list.push(entry)?;
    Ok(number)
}

/// The place of the text among the names, to which it is added where it is new.
fn place_name(alloc: Global, names: &mut IndexSet<Name>, text: &str) -> Result<usize, NoMemory>
    ensures grew { OnOk result (Grew names.old.keys names.new.keys) }
    ensures entry { IfOk result (λ n. IsEntry text.now (slice_get names.new.keys n)) }
{
    if let Some((at, _known)) = names.get_full(text) {
        return Ok(at);
    }
    let shared = Name::from_str(alloc, text)?;
    let (at, _new) = names.insert_full(shared)?;
    Ok(at)
}

/// The number of the text among the names, to which it is added where it is new.
fn put_name(alloc: Global, names: &mut IndexSet<Name>, text: &str) -> Result<u32, NoMemory>
    ensures grew { OnOk result (Grew names.old.keys names.new.keys) }
    ensures entry { IfOk result (λ n. IsEntry text.now (slice_get names.new.keys n)) }
{
    let at = place_name(alloc, names, text)?;
    let number = narrow(at as u64)?;
    Ok(number)
}

/// The same, where the place of the name is asked first at which one like it was found of late.
fn put_recent(
    alloc: Global,
    recent: &mut Recent,
    names: &mut IndexSet<Name>,
    text: &str,
) -> Result<u32, NoMemory>
    ensures grew { OnOk result (Grew names.old.keys names.new.keys) }
    ensures entry { IfOk result (λ n. IsEntry text.now (slice_get names.new.keys n)) }
{
    let place = place_of(text);
    let number = recent.number(place);
    if let Some(name) = names.get_index(number as usize) {
        if name.as_str() == text {
            return Ok(number);
        }
    }
    let number = put_name(alloc, names, text)?;
    recent.put(place, number);
    Ok(number)
}

impl Lists {
    /// No entries.
    fn new(alloc: Global) -> Lists {
        Lists {
            names: IndexSet::new(alloc),
            large: Vec::new(alloc),
            integers: Vec::new(alloc),
            texts: Vec::new(alloc),
        }
    }

    /// Keeps what a token is that was read; its text goes into a list.
    fn keep(&mut self, alloc: Global, kind: ReadKind<'_>) -> Result<StoredKind, NoMemory>
        ensures grows { OnOk result (Grows self.old self.new) }
        ensures shows { IfOk result (λ k. Shows self.new k (read_view kind.entry)) }
    {
        match kind {
            ReadKind::Plain { text, raw: false } => {
                Ok(StoredKind::Name(put_name(alloc, &mut self.names, text)?))
            }
            ReadKind::Plain { text, raw: true } => {
                Ok(StoredKind::RawName(put_name(alloc, &mut self.names, text)?))
            }
            ReadKind::Name { text, raw: false } => {
                Ok(StoredKind::Name(put_name(alloc, &mut self.names, text.as_str())?))
            }
            ReadKind::Name { text, raw: true } => {
                Ok(StoredKind::RawName(put_name(alloc, &mut self.names, text.as_str())?))
            }
            ReadKind::Small(number) => match narrow(number) {
                Ok(small) => Ok(StoredKind::Small(small)),
                Err(_) => Ok(StoredKind::Large(put(&mut self.large, number)?)),
            },
            ReadKind::Int(integer) => Ok(StoredKind::Int(put(&mut self.integers, integer)?)),
            ReadKind::Str(text) => Ok(StoredKind::Str(put(&mut self.texts, text)?)),
            ReadKind::Word(word) => Ok(StoredKind::Word(word)),
            ReadKind::Mark(mark) => Ok(StoredKind::Mark(mark)),
            ReadKind::Lifetime => Ok(StoredKind::Lifetime),
            ReadKind::Float => Ok(StoredKind::Float),
            ReadKind::Char(c) => Ok(StoredKind::Char(c)),
            ReadKind::Byte(byte) => Ok(StoredKind::Byte(byte)),
            ReadKind::ByteStr => Ok(StoredKind::ByteStr),
            ReadKind::CStr => Ok(StoredKind::CStr),
        }
    }

    /// Keeps what a plain token is.
    #[inline(always)]
    fn keep_plain(
        &mut self,
        alloc: Global,
        recent: &mut Recent,
        kind: PlainKind<'_>,
    ) -> Result<StoredKind, NoMemory>
        ensures grows { OnOk result (Grows self.old self.new) }
        ensures shows { IfOk result (λ k. Shows self.new k (plain_view kind.entry)) }
    {
        match kind {
            PlainKind::Mark(mark) => Ok(StoredKind::Mark(mark)),
            PlainKind::Word(word) => Ok(StoredKind::Word(word)),
            PlainKind::Small(number) => Ok(StoredKind::Small(number)),
            PlainKind::Name(text) => {
                let number = put_recent(alloc, recent, &mut self.names, text)?;
                Ok(StoredKind::Name(number))
            }
        }
    }

    /// What a kept token is. A number without an entry, which no token has, shows a lifetime.
    fn kind(&self, kind: StoredKind) -> TokenKind<'_>
        ensures { lexeme_view result ≡ lexeme_in self.now kind }
    {
        match kind {
            StoredKind::Name(number) => self.name(number, false),
            StoredKind::RawName(number) => self.name(number, true),
            StoredKind::Word(word) => TokenKind::Word(word),
            StoredKind::Mark(mark) => TokenKind::Mark(mark),
            StoredKind::Lifetime => TokenKind::Lifetime,
            StoredKind::Small(number) => TokenKind::Small(number as u64),
            StoredKind::Large(number) => self.large(number),
            StoredKind::Int(number) => self.integer(number),
            StoredKind::Float => TokenKind::Float,
            StoredKind::Char(c) => TokenKind::Char(c),
            StoredKind::Byte(byte) => TokenKind::Byte(byte),
            StoredKind::Str(number) => self.text(number),
            StoredKind::ByteStr => TokenKind::ByteStr,
            StoredKind::CStr => TokenKind::CStr,
        }
    }

    /// The name with this number.
    fn name(&self, number: u32, raw: bool) -> TokenKind<'_>
        ensures { lexeme_view result ≡ name_entry raw (slice_get self.now.names.keys number) }
    {
        match self.names.get_index(number as usize) {
            Some(text) => TokenKind::Name { text, raw },
            None => TokenKind::Lifetime,
        }
    }

    /// The text of the name that a kept token is.
    fn name_of(&self, kind: StoredKind) -> Option<&Name>
        ensures { option_map (λ s. rc_str_bytes s.now) result ≡ name_of (lexeme_in self.now kind) }
    {
        match kind {
            StoredKind::Name(number) | StoredKind::RawName(number) => {
                self.names.get_index(number as usize)
            }
            _ => None,
        }
    }

    /// The decimal integer with this number.
    fn large(&self, number: u32) -> TokenKind<'_>
        ensures { lexeme_view result ≡ large_entry (slice_get self.now.large.items number) }
    {
        match self.large.get(number as usize) {
            Some(value) => TokenKind::Small(*value),
            None => TokenKind::Lifetime,
        }
    }

    /// The integer with this number.
    fn integer(&self, number: u32) -> TokenKind<'_>
        ensures { lexeme_view result ≡ integer_entry (slice_get self.now.integers.items number) }
    {
        match self.integers.get(number as usize) {
            Some(integer) => TokenKind::Int(integer),
            None => TokenKind::Lifetime,
        }
    }

    /// The text with this number.
    fn text(&self, number: u32) -> TokenKind<'_>
        ensures { lexeme_view result ≡ text_entry (slice_get self.now.texts.items number) }
    {
        match self.texts.get(number as usize) {
            Some(text) => TokenKind::Str(text),
            None => TokenKind::Lifetime,
        }
    }
}

impl Tokens {
    /// No tokens.
    pub(crate) fn new(alloc: Global) -> Tokens
        ensures view { tokens_view result ≡ [] }
        ensures whole { IsWhole result }
    {
        Tokens {
            stored: Vec::new(alloc),
            lists: Lists::new(alloc),
        }
    }

    /// Appends a token that was read. Places and entries from 2^32 on are want of memory.
    pub(crate) fn push(&mut self, alloc: Global, token: ReadToken<'_>) -> Result<(), NoMemory>
        requires { IsWhole self.old }
        ensures view { OnOk result (tokens_view self.new ≡ tokens_view self.old ++ read_token_view token.entry ∷ []) }
        ensures whole { OnOk result (IsWhole self.new) }
    {
        let from = narrow(token.from)?;
        let to = narrow(token.to)?;
        let kind = self.lists.keep(alloc, token.kind)?;
        self.stored.push(Stored { kind, from, to })?;
        Ok(())
    }

    /// Appends a plain token. Places and entries from 2^32 on are want of memory.
    #[inline(always)]
    pub(crate) fn push_plain(
        &mut self,
        alloc: Global,
        recent: &mut Recent,
        token: PlainToken<'_>,
    ) -> Result<(), NoMemory>
        requires whole { IsWhole self.old }
        requires order { token.from ≤ token.to }
        ensures view { OnOk result (tokens_view self.new ≡ tokens_view self.old ++ plain_token_view token.entry ∷ []) }
        ensures whole { OnOk result (IsWhole self.new) }
    {
        let to = narrow(token.to)?;
        let from = token.from as u32;
        let kind = self.lists.keep_plain(alloc, recent, token.kind)?;
        self.stored.push(Stored { kind, from, to })?;
        Ok(())
    }

    /// How many tokens there are.
    pub fn len(&self) -> usize
        ensures { result ≡ length (tokens_view self.now) }
    {
        self.stored.len()
    }

    /// All of the tokens.
    pub fn rest(&self) -> Rest<'_>
        ensures { rest_view result ≡ tokens_view self.now }
    {
        Rest {
            stored: &self.stored,
            lists: &self.lists,
        }
    }
}

impl<'a> Rest<'a> {
    /// The first of the tokens, and those behind it.
    pub fn split_first(self) -> Option<(Token<'a>, Rest<'a>)>
        ensures { MatchOption result (rest_view self.entry ≡ [])
            (λ p. rest_view self.entry ≡ token_view p.0 ∷ rest_view p.1) }
    {
        let (first, stored) = self.stored.split_first()?;
        let kind = self.lists.kind(first.kind);
        let (from, to) = (first.from as u64, first.to as u64);
        let rest = Rest {
            stored,
            lists: self.lists,
        };
        Some((Token { kind, from, to }, rest))
    }

    /// The mark that the first of the tokens is.
    pub fn mark(self) -> Option<Mark>
        ensures { result ≡ first_is mark_of (rest_view self.entry) }
    {
        let first = self.stored.first()?;
        mark_of(first.kind)
    }

    /// The mark that the first of the tokens is, the byte at which that token ends, and the tokens behind it.
    pub fn split_mark(self) -> Option<(Option<Mark>, u64, Rest<'a>)>
        ensures { option_map (λ p. ((p.0, p.1), rest_view p.2)) result
            ≡ first_as mark_and_end (rest_view self.entry) }
    {
        let (first, stored) = self.stored.split_first()?;
        let mark = mark_of(first.kind);
        let to = first.to as u64;
        let rest = Rest {
            stored,
            lists: self.lists,
        };
        Some((mark, to, rest))
    }

    /// The keyword that the first of the tokens is, and the tokens behind it.
    pub fn split_word(self) -> Option<(Word, Rest<'a>)>
        ensures { option_map (λ p. (p.0, rest_view p.1)) result
            ≡ first_as (λ t. keyword_of t.lexeme) (rest_view self.entry) }
    {
        let (first, stored) = self.stored.split_first()?;
        let word = keyword_of(first.kind)?;
        let rest = Rest {
            stored,
            lists: self.lists,
        };
        Some((word, rest))
    }

    /// The text of the name that the first of the tokens is, and the tokens behind it.
    pub fn split_name(self) -> Option<(&'a Name, Rest<'a>)>
        ensures { option_map (λ p. (rc_str_bytes p.0.now, rest_view p.1)) result
            ≡ first_as (λ t. name_of t.lexeme) (rest_view self.entry) }
    {
        let (first, stored) = self.stored.split_first()?;
        let text = self.lists.name_of(first.kind)?;
        let rest = Rest {
            stored,
            lists: self.lists,
        };
        Some((text, rest))
    }

    /// The byte at which the first of the tokens begins.
    pub fn from(self) -> Option<u64>
        ensures { result ≡ option_map (λ t. t.from) (slice_get (rest_view self.entry) 0) }
    {
        let first = self.stored.first()?;
        Some(first.from as u64)
    }
}
