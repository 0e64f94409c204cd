// What is still to be looked at, and what is made of it.
use crate::Marks;
use constructor_sets::Span;
use pat_context::Ctor;
use pattern_arena::CheckedArm;
use pattern_matrix::{Column, Leaf, Part, Row};

// What was found of a match so far.
#[derive(Drop)]
pub(crate) struct Reached<'a, T: Copy> {
    pub(crate) arms: &'a [CheckedArm<'a, T>],
    pub(crate) marks: Marks,
}

// An open column, and the number by which rows name it.
#[derive(Clone, Copy)]
pub(crate) struct OpenColumn<T: Copy> {
    pub(crate) number: usize,
    pub(crate) column: Column<T>,
}

// A row, and whether something new is looked for in it; a row that is not wanted still stops values.
#[derive(Drop)]
pub(crate) struct Asked<'a, T: Copy> {
    pub(crate) row: Row<'a, T>,
    pub(crate) wanted: bool,
}

// Rows over open columns.
#[derive(Drop)]
pub(crate) struct Frame<'a, T: Copy> {
    pub(crate) columns: Vec<OpenColumn<T>>,
    // The number of the column that is opened next; those of all open ones are less.
    pub(crate) next: usize,
    pub(crate) rows: Vec<Asked<'a, T>>,
}

// The rows of a submatrix that matter, as they are listed.
#[derive(Drop)]
pub(crate) struct Listing<'a, T: Copy> {
    pub(crate) rows: Vec<Asked<'a, T>>,
    // Behind the last row that is wanted.
    pub(crate) end: usize,
    // Whether a row was listed that stops all values.
    pub(crate) closed: bool,
}

// Rows over open columns, one of which is taken apart.
#[derive(Drop)]
pub(crate) struct Apart<'a, T: Copy> {
    pub(crate) taken: OpenColumn<T>,
    pub(crate) others: Vec<OpenColumn<T>>,
    pub(crate) next: usize,
    pub(crate) rows: Vec<Asked<'a, T>>,
    // What stands in the rows at the column.
    pub(crate) leaves: Vec<Leaf<'a, T>>,
}

// A column that was taken apart, some of whose pieces are still to be entered.
#[derive(Drop)]
pub(crate) struct Pending<'a, T: Copy> {
    // The arms whose patterns the rows list. Nothing reads them: they tell that types live as long as patterns, since the
    // column's type stands beside these here.
    pub(crate) arms: &'a [CheckedArm<'a, T>],
    pub(crate) apart: Apart<'a, T>,
    // The pieces that heads have.
    pub(crate) pieces: Vec<Ctor<'a>>,
    // Whether some piece is in no head.
    pub(crate) missing: bool,
    // For each leaf which of the pieces it has.
    pub(crate) spans: Vec<Span>,
    // The pieces that are left, the last of which is entered next.
    pub(crate) parts: Vec<Part>,
}

// What is still to be looked at.
#[derive(Drop)]
pub(crate) enum Todo<'a, T: Copy> {
    Rows(Frame<'a, T>),
    Pieces(Pending<'a, T>),
}

// What is left of rows one of whose columns was taken apart: its pieces, and the rows of values that no head has.
#[derive(Drop)]
pub(crate) struct Opened<'a, T: Copy> {
    pub(crate) pieces: Option<Pending<'a, T>>,
    pub(crate) wild: Option<Frame<'a, T>>,
    // How many pieces were found, with those that were entered at once.
    pub(crate) count: usize,
}
