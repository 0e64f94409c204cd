//! The arms that a match lacks, as an editor adds them.
//!
//! [`arm_texts`] gives a pattern for each witness of what a match leaves out. Where a pattern can say what the
//! witness shows, it takes just that. Else it takes more: a witness without a name is `_`, and numbers beyond every
//! literal of `usize` or `isize` are a range from or to the nearest literal. An arm takes no value that an earlier
//! arm takes, so the order counts. The texts stand in the order of witnesses, but a range below every literal of
//! `isize` comes behind all other numbers of its place.
//!
//! The work has three steps. `sizes` says whether the pattern of each witness is within the limits of the grammar: 64
//! levels, and 256 parts in a list. Where one is not, no text is made. `keys` then gives each witness a list of
//! numbers, and `order` sorts the witnesses by these lists, which `compare` compares. At last `arms` writes the
//! patterns, one after the other.
//!
//! The crate `witness_names` says which names a pattern has (`named_by`), and `witness_text` how it is written
//! (`arm_text`). `specs/Order` and `specs/Sizes` state the order and the limits, `specs/Arms` the whole answer.
#![tactic(auto)]

mod arms;
mod compare;
mod keys;
mod order;
mod sizes;

pub use arms::{ArmFault, arm_texts};
