//! Matrices: rows of patterns over columns, the steps that take a column apart, and what searches over rows find.
//!
//! The code has rows and steps (`Row`, `first_rows`, `piece_rows`, `wild_rows` and what they are made of). Laws are functions with empty
//! bodies: `laws` joins rows and steps to the definitions' matrices, `cover_laws` says that the witness list of a match is an exact
//! cover, and `reach_laws` how a search may go that marks what is reached, and what its marks tell.
#![tactic(auto)]

mod chosen;
mod columns;
pub mod cover_laws;
mod distinct;
mod first;
mod found;
mod halving;
mod heads;
pub mod laws;
mod leaves;
mod marked;
mod opening;
pub mod reach_laws;
mod rows;
mod spans;
mod without;

pub use chosen::Chosen;
pub use columns::open_columns;
pub use first::first_rows;
pub use found::{are_wild, leaf_pieces, split_leaves};
pub use halving::{Part, PieceLeaves, all_parts, meeting, next_piece};
pub use heads::{HeadPart, Heads};
pub use leaves::{add_leaves, leaves_at};
pub use marked::Marked;
pub use opening::{dropped_row, is_wild_leaf, opened_row, piece_rows, wild_rows};
pub use rows::{Column, Head, Leaf, Row};
pub use spans::{into_leaf_spans, leaf_ctors, leaf_spans};
