// Witnesses with their names.
use match_model::IntKind;
use range_split::Range;

// For whom a witness is written.
#[derive(Clone, Copy)]
pub enum Style {
    // For a reader: a range as it is.
    Shown,
    // For a compiler, as the pattern of an arm: several numbers stand in parentheses, and where they lie beyond every
    // literal, the nearest literal is taken in.
    Arm,
}

/// The name of a form, without `r#`.
#[derive(Clone, Copy, Debug, PartialEq, Eq)]
pub enum FormName<'a> {
    /// A struct, or a variant of `Option` or `Result`, by its own name.
    Plain(&'a str),
    /// A variant by the names of its enum and of itself.
    Variant { owner: &'a str, variant: &'a str },
}

/// What values that no arm takes look like, with all names that a report shows. It is as deep as the patterns of its
/// match, 64 levels at most in a source file, each behind sixty references at most. Its texts and what drops it go down
/// level by level, and through references that follow one another in loops.
#[cycle(named)]
#[derive(Debug)]
pub enum NamedWitness<'a> {
    /// Any value.
    Any,
    /// The one flag.
    Flag(bool),
    /// The numbers of the range, of this integer type.
    Ints {
        kind: IntKind,
        range: Range,
    },
    /// The characters from one to the other, both within; an end that is `None` is free.
    Chars {
        low: Option<char>,
        high: Option<char>,
    },
    /// The one text.
    Text(&'a str),
    /// Every text but these.
    Else(Vec<&'a str>),
    /// A tuple, with a witness for each part.
    Tuple(Vec<NamedWitness<'a>>),
    /// A struct or variant that is written without brackets.
    UnitForm(FormName<'a>),
    /// A struct or variant with a list of parts.
    TupleForm {
        name: FormName<'a>,
        parts: Vec<NamedWitness<'a>>,
    },
    /// A struct or variant with named fields, in the order in which they are declared.
    BraceForm {
        name: FormName<'a>,
        fields: Vec<NamedField<'a>>,
    },
    /// A reference, with a witness for what it points to.
    Point {
        mutable: bool,
        inner: Box<NamedWitness<'a>>,
    },
    /// A row by its first and last items. With `longer` any more may stand between them; without it `back` is empty.
    Row {
        front: Vec<NamedWitness<'a>>,
        longer: bool,
        back: Vec<NamedWitness<'a>>,
    },
    /// A variant that is not declared yet.
    Later,
}

impl<'a> Drop for NamedWitness<'a> {
    // A loop over references, so that many of them take no stack.
    #[cycle(named)]
    fn drop(mut self) {
        loop {
            match self {
                NamedWitness::Point { mutable: _, inner } => self = Box::into_inner(inner),
                NamedWitness::Tuple(_) => return,
                NamedWitness::TupleForm { name: _, parts: _ } => return,
                NamedWitness::BraceForm { name: _, fields: _ } => return,
                NamedWitness::Row {
                    front: _,
                    longer: _,
                    back: _,
                } => return,
                NamedWitness::Any => return,
                NamedWitness::Flag(_) => return,
                NamedWitness::Ints { kind: _, range: _ } => return,
                NamedWitness::Chars { low: _, high: _ } => return,
                NamedWitness::Text(_) => return,
                NamedWitness::Else(_) => return,
                NamedWitness::UnitForm(_) => return,
                NamedWitness::Later => return,
            }
        }
    }
}

/// A field by its name, without `r#`.
#[cycle(named)]
#[derive(Debug, Drop)]
pub struct NamedField<'a> {
    pub name: &'a str,
    pub witness: NamedWitness<'a>,
}
