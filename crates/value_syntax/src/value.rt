//! Values as they are written.

/// The name of a struct or variant as it is written, alone or behind the name of an enum. Its texts are in NFC and
/// without `r#`.
#[derive(Debug, Drop)]
pub struct WrittenPath {
    pub owner: Option<String>,
    pub name: String,
}

/// A value as its text spells it; names are not looked up. Round brackets around one value leave no trace. One that
/// `read_written` gives is at most 64 levels deep; what writes or drops a value goes down level by level.
#[cycle(written)]
#[derive(Debug, Drop)]
pub enum WrittenValue {
    Flag(bool),
    Char(char),
    /// A byte literal, `b'x'`.
    Byte(u8),
    /// An integer: its sign, its size, and its suffix as written, or empty. `-0` is negative.
    Int {
        negative: bool,
        size: u128,
        suffix: String,
    },
    /// A reference to a text, `"a"`.
    Str(String),
    /// A text itself, `*"a"`.
    Text(String),
    /// A value of a type whose values are not looked into, `?opaque`.
    Opaque,
    /// A variant that is not declared yet, `?later`.
    Later,
    /// A value of a type that has no constructors, `?unseen`.
    Unseen,
    /// A reference to what is inside.
    Point {
        mutable: bool,
        inner: Box<WrittenValue>,
    },
    Tuple(Vec<WrittenValue>),
    /// The items of an array or a slice.
    Row(Vec<WrittenValue>),
    /// A name without brackets.
    UnitForm(WrittenPath),
    /// A name with parts in round brackets, of which there may be none.
    TupleForm {
        path: WrittenPath,
        parts: Vec<WrittenValue>,
    },
    /// A name with fields in curly brackets, in the order in which they are written; one may be written twice.
    BraceForm {
        path: WrittenPath,
        fields: Vec<WrittenField>,
    },
}

/// A field by its name, in NFC and without `r#`, and its value.
#[cycle(written)]
#[derive(Debug, Drop)]
pub struct WrittenField {
    pub name: String,
    pub value: WrittenValue,
}

/// Why no value was read: the text spells none, or memory ran out.
#[derive(Debug, Drop)]
pub enum ReadFault {
    Syntax,
    NoMemory,
}
