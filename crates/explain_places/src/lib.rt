//! Where things stand in a source, by the tokens of the checker's own lexer.
//!
//! A report names places by bytes: where an item, an arm's pattern, an alternative or a range begins. People want to
//! see all of it. [`source_pieces`] gives the tokens of a source, each with how many brackets are open around it
//! (`specs/Pieces.antt`). [`function_bodies`] finds what the match of each function is on and where it ends, and
//! [`arm_arrows`] where the patterns of arms end (`specs/Bodies.antt`). [`pattern_at`], [`token_at`], [`pair_at`],
//! [`name_at`] and [`binding_at`] tell from where to where that stands which begins at a byte (`specs/Spans.antt`). A
//! byte at which no token begins has no place.
#![tactic(auto)]

mod bodies;
mod pieces;
mod spans;

pub use bodies::{Body, End, arm_arrows, function_bodies};
pub use pieces::{Class, Piece, source_pieces};
pub use spans::{Place, Span, binding_at, name_at, pair_at, pattern_at, token_at};
