//! What is found of a match: its witness list, what of it is unreachable, and both from marks of what is reached.
#![tactic(auto)]

mod apart;
mod asking;
mod covered;
mod cut;
mod frames;
mod judge;
mod opened;
mod pieces;
mod rows;
mod search;
mod stacks;
mod top;
mod unreachable;

pub use judge::judge_by;
pub use top::witness_list;
pub use unreachable::unreachable_list;
