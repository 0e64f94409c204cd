//! The lengths of rows: how the slice patterns of a column cut all lengths into pieces.
//!
//! A slice pattern has one length (`[a, b]`) or every length from some length on (`[a, .., b]`): its `Shape`. The
//! shapes that stand in a column tell some lengths apart and others not. From the greatest of their lengths on they
//! tell nothing apart any more, so finitely many pieces are enough: each shorter length by itself, and one piece for
//! all the others. That last piece keeps as many items at the back as any pattern names, so that every pattern that
//! has the piece finds its items in it. A row of an array has one length, and so one piece.
//!
//! `Shape::covers` tells whether a shape has a length, and `split_lengths` gives the pieces with a flag for each: is
//! there a shape in the column that has the piece? `laws` says what follows from its contract.
#![tactic(auto)]

pub mod laws;
mod shape;
mod split;

pub use shape::Shape;
pub use split::split_lengths;
