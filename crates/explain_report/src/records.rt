// The records of a report.
ghost use Rattle.std.specs.Prelude.{◌≡◌};

use std::alloc::{AllocError, AllocFailed};

/// Why a JSON value could not be read as a report.
#[derive(Clone, Copy, Debug, PartialEq, Eq)]
pub enum ReadFault {
    /// It is no report.
    NoReport,
    /// Memory was wanted and refused.
    NoMemory,
}

impl From<AllocError> for ReadFault {
    ghost use Rattle.explain_report.specs.declared.records.ReadFault.TheVariants.{NoMemory};

    ghost from_gives = { λ _ e. e ≡ NoMemory };

    fn from(_: AllocError) -> ReadFault {
        ReadFault::NoMemory
    }
}

impl<T: Drop> From<AllocFailed<T>> for ReadFault {
    ghost use Rattle.explain_report.specs.declared.records.ReadFault.TheVariants.{NoMemory};

    ghost from_gives = { λ _ e. e ≡ NoMemory };

    fn from(_: AllocFailed<T>) -> ReadFault {
        ReadFault::NoMemory
    }
}

/// A broken rule, and where, as far as the rule has a place.
#[derive(Clone, Copy, Debug, PartialEq, Eq)]
pub struct Refused<'a> {
    /// The rule's number.
    pub rule: u64,
    /// The rule's name.
    pub name: &'a str,
    /// The item, counted from 0 in the file.
    pub item: Option<u64>,
    /// The arm, counted from 0 in the match.
    pub arm: Option<u64>,
    /// A byte offset in the file.
    pub at: Option<u64>,
}

/// An arm or an alternative to which no value comes.
#[derive(Clone, Copy, Debug, PartialEq, Eq)]
pub struct Unreached {
    /// The arm, counted from 0.
    pub arm: u64,
    /// The byte offset of the arm's pattern or of the alternative.
    pub at: u64,
    /// Whether it is the whole arm.
    pub whole: bool,
}

/// Two ranges that have exactly one number in common.
#[derive(Clone, Copy, Debug, PartialEq, Eq)]
pub struct Overlap<'a> {
    /// The byte offset of the range that stands first.
    pub at: u64,
    /// The byte offset of the other one.
    pub with: u64,
    /// The number, in decimal digits; a character is its scalar value.
    pub value: &'a str,
}

/// What is found of a match that breaks no rule.
#[derive(Debug, Drop)]
pub struct Judged<'a> {
    /// Whether every value meets an arm when all guards refuse.
    pub exhaustive: bool,
    /// The ranges that overlap.
    pub overlaps: Vec<Overlap<'a>>,
    /// The arms and alternatives to which no value comes.
    pub unreachable: Vec<Unreached>,
    /// What is missing, as Rust writes patterns.
    pub witnesses: Vec<&'a str>,
}

/// What a report says of a function.
#[derive(Debug, Drop)]
pub enum Verdict<'a> {
    /// It is judged.
    Judged(Judged<'a>),
    /// It breaks a rule.
    Refused(Refused<'a>),
}

/// A function of the file.
#[derive(Debug, Drop)]
pub struct Function<'a> {
    /// Its name, without `r#`.
    pub name: &'a str,
    /// What is said of it.
    pub verdict: Verdict<'a>,
}

/// A report.
#[derive(Debug, Drop)]
pub enum Report<'a> {
    /// The functions of the file, in its order.
    Functions(Vec<Function<'a>>),
    /// The file is refused as a whole.
    Refused(Refused<'a>),
}
