//! The trees of patterns as they are written.
use decl_lexer::Name;

/// A path as it is written. It is plain where each part is a name; `crate`, `self`, `super` and `Self` are none.
#[derive(Debug, Drop)]
pub struct Path {
    pub names: Vec<Name>,
    pub plain: bool,
}

/// An integer as it is written: `size` is `None` from 2^128 on, `suffix` may be empty.
#[derive(Debug, Drop)]
pub struct IntLit {
    pub negative: bool,
    pub size: Option<u128>,
    pub suffix: String,
}

/// A literal or the end of a range.
#[derive(Debug, Drop)]
pub enum Lit {
    Flag(bool),
    Char(char),
    Byte(u8),
    /// An integer below 2^64, written in decimal and without a suffix.
    Small { negative: bool, size: u64 },
    /// Any other integer.
    Int(Box<IntLit>),
    Str(String),
    /// A float, a byte string, a C string, or a path as the end of a range.
    Other,
}

/// The ends of a range, and whether the high one is within.
#[derive(Debug, Drop)]
pub struct RangePat {
    pub low: Option<Lit>,
    pub high: Option<Lit>,
    pub closed: bool,
}

/// An attribute at byte `from`, with the first name in its brackets, or an empty word.
#[derive(Debug, Drop)]
pub struct Attr {
    pub from: u64,
    pub word: Name,
}

/// A pattern, and the byte offset of its first token; a leading `|` does not count.
#[cycle(pattern)]
#[derive(Debug, Drop)]
pub struct Pat {
    pub from: u64,
    pub kind: PatKind,
}

/// A field of a brace pattern; one that is written short has a binding as its pattern.
#[cycle(pattern)]
#[derive(Debug, Drop)]
pub struct FieldPat {
    pub name: Name,
    /// Whether it was written without a label (`x`, `ref mut x`), so that its name is a binding and is not looked up.
    pub short: bool,
    pub attrs: Vec<Attr>,
    pub pat: Pat,
}

/// The forms of a pattern. What is large stands behind a box, so that a pattern takes 64 bytes.
#[cycle(pattern)]
#[derive(Debug, Drop)]
pub enum PatKind {
    Wild,
    /// `..` as an item of a list, or behind `@` in a slice.
    Rest,
    Lit(Lit),
    /// A name alone, which may be a path or a binding.
    Name(Name),
    /// A binding by `ref`, `mut` or `@`, or a field's shorthand.
    Bind {
        name: Name,
        by_ref: bool,
        mutable: bool,
        sub: Option<Box<Pat>>,
    },
    Path(Path),
    TupleForm {
        path: Box<Path>,
        items: Vec<Pat>,
    },
    Brace {
        path: Box<Path>,
        fields: Vec<FieldPat>,
        rest: bool,
    },
    Tuple(Vec<Pat>),
    Group(Box<Pat>),
    Slice(Vec<Pat>),
    Point {
        mutable: bool,
        inner: Box<Pat>,
    },
    Range(Box<RangePat>),
    /// Two alternatives or more.
    Or(Vec<Pat>),
}
