// What the search does next, and what waits for the stacks that it finds.
use crate::apart::Apart;
use crate::cut::Cut;
use crate::opened::Opened;
use constructor_sets::PresentPieces;
use pat_context::Ctor;
use pattern_matrix::{Leaf, Part, Row};
use witnesses::Stack;

// A place, and its pieces, gone through one after the other.
#[derive(Drop)]
pub(crate) struct Walk<'a, T: Copy> {
    pub(crate) e: Apart<'a, T>,
    pub(crate) cut: Cut<'a>,
    // Which leaves those of the pieces have that heads have and that are still to come.
    pub(crate) todo: Vec<Part>,
    // How many pieces were gone through.
    pub(crate) done: usize,
    // The stacks of these.
    pub(crate) all: Vec<Stack>,
}

// The pieces of a place, one of which is searched.
#[derive(Drop)]
pub(crate) struct Within<'a> {
    pub(crate) cut: Cut<'a>,
    // As with `Walk`, gone through up to this piece.
    pub(crate) todo: Vec<Part>,
    pub(crate) done: usize,
    pub(crate) all: Vec<Stack>,
    // The piece, and how many parts it has.
    pub(crate) ctor: Ctor<'a>,
    pub(crate) count: usize,
    // How many places were open beside that of the piece.
    pub(crate) before: usize,
}

// Which rows are searched for a place.
#[derive(Drop)]
pub(crate) enum Stage<'a> {
    // All rows are wild there: these, over the other places.
    Wild,
    // Some piece is missing there: those that are wild there, over the other places.
    Missing(PresentPieces<'a>),
    // Those of a piece, over the places of its parts and the others.
    Piece(Within<'a>),
}

// A place that waits for the stacks of rows that are searched.
#[derive(Drop)]
pub(crate) struct Frame<'a, T: Copy> {
    // The place and its rows, as with `Apart`; without rows where all are wild. Beside references to patterns over `T` a list of
    // frames can hold a place only behind a pointer of its own.
    pub(crate) rows: Vec<Row<'a, T>>,
    pub(crate) place: Box<Opened<T>>,
    pub(crate) next: usize,
    pub(crate) leaves: Vec<Leaf<'a, T>>,
    pub(crate) stage: Stage<'a>,
}

// What is done next.
#[derive(Drop)]
pub(crate) enum Turn<'a, T: Copy> {
    // Rows over the open places are searched; the next place that is opened has the number.
    Look(Vec<Row<'a, T>>, usize),
    // The search goes on with the pieces of a place.
    Go(Walk<'a, T>),
    // The stacks of the rows that were searched.
    Found(Vec<Stack>),
    // The stacks of all: nothing waits any more.
    Done(Vec<Stack>),
}
