// Rows, and what stands in them at one column.
use crate::{Chosen, Heads};
use pat_context::Validity;
use pattern_arena::DePat;

/// A head of a row: a pattern of the arena, and the number of the column where it stands, from 0.
#[derive(Clone, Copy)]
pub struct Head<'a, T: Copy> {
    pub column: usize,
    pub pat: &'a DePat<'a, T>,
}

/// A row of a matrix. At a column where it lists no head it has a wildcard.
#[derive(Drop)]
pub struct Row<'a, T: Copy> {
    /// The heads that are no wildcards.
    pub heads: Heads<'a, T>,
    /// The number of the arm, from 0.
    pub arm: u32,
    /// Whether the arm has a guard.
    pub guarded: bool,
    /// The uids of the alternatives that were chosen on the way to the row.
    pub chosen: Chosen,
}

/// What stands in a row at one column once or-patterns are taken apart.
#[derive(Drop)]
pub struct Leaf<'a, T: Copy> {
    /// The number of the row in its matrix, from 0.
    pub row: usize,
    /// The pattern, which is no or-pattern; none where a wildcard stands.
    pub head: Option<&'a DePat<'a, T>>,
    /// The uids of the alternatives that were chosen on the way to it, besides those of the row.
    pub chosen: Chosen,
}

/// An open column: the type of the values there, and whether the place is sure to hold a valid one. Columns are known
/// by their numbers in the list of all that were opened and not closed, from 0.
#[derive(Clone, Copy)]
pub struct Column<T: Copy> {
    pub ty: T,
    pub validity: Validity,
}
