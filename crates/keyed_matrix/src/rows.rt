// Rows and columns.
use pat_context::{Step, Validity};
use pattern_arena::{Bound, DePat};
use smallvec::SmallVec;

/// A name that a row has caught, and the place of the column where it was caught.
#[derive(Clone, Copy)]
pub struct Caught<'a> {
    pub bound: Bound<'a>,
    pub place: &'a [Step],
}

/// An open column: the place that it looks at, the type of the values there, and whether the place is sure to hold a
/// valid one.
#[derive(Clone, Copy)]
pub struct KeyedColumn<'a, T: Copy> {
    pub place: &'a [Step],
    pub ty: T,
    pub validity: Validity,
}

/// A run: heads that stand side by side in a row.
#[derive(Clone, Copy)]
pub enum HeadRun<'a, T: Copy> {
    /// So many wildcards that no pattern wrote.
    Wilds(usize),
    /// A pattern.
    Written(&'a DePat<'a, T>),
}

/// A row of a matrix.
#[derive(Drop)]
pub struct KeyedRow<'a, T: Copy> {
    /// The heads as runs, which together are one for each column, in order.
    pub heads: Vec<HeadRun<'a, T>>,
    /// The number of the arm, from 0.
    pub arm: u32,
    /// Whether the arm has a guard.
    pub guarded: bool,
    /// The uids of the alternatives that were chosen on the way to the row.
    pub chosen: SmallVec<u64, 2>,
    /// The names that were caught on the way to the row.
    pub caught: Vec<Caught<'a>>,
}
