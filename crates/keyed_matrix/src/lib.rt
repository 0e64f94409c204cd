//! Rows that may be looked at at any column, and the steps that take them apart, for decision trees.
//!
//! A row has a head for each open column, in order: a pattern, or none where a wildcard stands that no pattern wrote. A
//! step at a column puts something in place of the row's one head there (`Replacement` of `match_model`): an or-pattern
//! its alternatives (`expanded_rows`), a pattern of a piece the patterns of its parts (`piece_rows`), a wildcard
//! nothing (`dropped_rows`). After a step `in_order` puts the rows in the order in which their arms and alternatives are
//! tried, as a table of what alternatives decide tells (`decisions_of`). Names are caught with the place of the column at which they were met.
//!
//! Contracts see rows and columns as those of `match_model` (`plain_rows`, `plain_columns`), and each step is the very
//! step of the definitions (`rows_at`).
//!
//! The notions are those of Maranget 2008 (rows, specialisation, default matrices).
#![tactic(auto)]

mod by_column;
mod choices;
mod columns;
mod decisions;
mod first;
mod heads;
mod keys;
mod looking;
mod order;
mod replacing;
mod rows;
mod steps;
mod taken_apart;

pub use by_column::column_ctors;
pub use columns::{dropped_columns, piece_columns};
pub use decisions::{Decisions, decisions_of};
pub use first::{first_column, first_rows};
pub use heads::{add_wilds, head_at, replaced_heads, size_of};
pub use keys::Decided;
pub use looking::{are_wild, ctors_at};
pub use order::in_order;
pub use rows::{Caught, HeadRun, KeyedColumn, KeyedRow};
pub use steps::{
    add_piece_row, dropped_rows, expanded_rows, into_dropped_rows, into_expanded_rows,
    into_piece_rows, piece_rows,
};
pub use taken_apart::are_apart;
