// What is found of a match.
use crate::Witness;
use range_split::Num;

/// What is found of a match: whether each value is taken, what is left out, and what is never taken.
#[derive(Debug, Drop)]
pub struct Judgement {
    /// Whether some arm without a guard takes each value that the scrutinee can have.
    pub exhaustive: bool,
    /// What the values look like that no arm without a guard takes, ascending. It is empty exactly where `exhaustive`
    /// holds.
    pub witnesses: Vec<Witness>,
    /// The arms and alternatives that no value comes to, in the order in which they are read.
    pub unreachable: Vec<Unreachable>,
}

/// An arm or an alternative that no value comes to.
#[derive(Clone, Copy, Debug, PartialEq, Eq)]
pub struct Unreachable {
    /// The number of the arm, from 0.
    pub arm: u32,
    /// The byte offset in the file at which the arm's pattern, or the alternative, begins.
    pub at: u64,
    /// The number that the arm's pattern, or the alternative, has in its match.
    pub uid: u64,
    /// Whether no value comes to the whole arm.
    pub whole: bool,
}

/// Two range patterns that have exactly one number in common.
#[derive(Clone, Copy, Debug, PartialEq, Eq)]
pub struct Overlap {
    /// The byte offset in the file at which the earlier range begins.
    pub first: u64,
    /// The byte offset in the file at which the later range begins.
    pub second: u64,
    /// The number.
    pub value: Num,
}
