// Matrices, and what waits for the trees of others.
use crate::known::KnownMatrix;
use constructor_sets::Span;
use keyed_matrix::{KeyedColumn, KeyedRow};
use pat_context::{Ctor, Step};
use pattern_matrix::Part;
use tree_eval::{Bind, Case};

// Rows over open columns.
#[derive(Drop)]
pub(crate) struct Matrix<'a, T: Copy> {
    pub(crate) columns: Vec<KeyedColumn<'a, T>>,
    pub(crate) rows: Vec<KeyedRow<'a, T>>,
}

// A column that is looked at: the rows have no or-pattern there.
#[derive(Drop)]
pub(crate) struct Looked<'a, T: Copy> {
    pub(crate) matrix: Matrix<'a, T>,
    // The number of the column.
    pub(crate) column: usize,
    // The pieces that have a value and stand in a row, in order; those that are done are taken off the end.
    pub(crate) pieces: Vec<Ctor<'a>>,
    // For each row which of the pieces it has, by their numbers from 0, counted from the last piece to the first.
    pub(crate) spans: Vec<Span>,
    // The pieces that are not done, by these numbers, with rows that are enough for them.
    pub(crate) todo: Vec<Part>,
    // The cases that are done with the indices of their trees, the last case first.
    pub(crate) cases: Vec<(Case, u64)>,
}

// What waits for the tree of other rows.
#[derive(Drop)]
pub(crate) enum Frame<'a, T: Copy> {
    // The guard of an arm waits for the tree of the rows behind it.
    Guard {
        arm: u32,
        binds: Vec<Bind>,
    },
    // A switch waits for the tree of a case; others may be to come.
    Switch {
        looked: Looked<'a, T>,
        case: Case,
    },
    // A switch at the place waits for the tree of its last case; the others are done with the indices of their trees, the
    // last one first.
    Last {
        place: &'a [Step],
        cases: Vec<(Case, u64)>,
        case: Case,
    },
    // A switch at the place waits for the tree of its last case, that of all others; its one other case is to come.
    Others {
        place: &'a [Step],
        case: Case,
        matrix: Matrix<'a, T>,
    },
    // The tree is known from then on, by what tells its rows.
    Note {
        matrix: KnownMatrix<'a>,
    },
}

// What is done next.
#[derive(Drop)]
pub(crate) enum Turn<'a, T: Copy> {
    // Lower the rows.
    Lower(Matrix<'a, T>),
    // Go on where the tree with the index was waited for.
    Finished(u64),
    // Nothing waits any more: the tree with the index is that of the first rows.
    Done(u64),
}
