//! Which members lists have: whether one stands twice, whether all of a list are among another, whether two lists have
//! the same ones.
//!
//! Each call puts a list into a set by hashing, so its time grows as the lists do. `members` has lists of any kind of
//! key, `names` lists of texts, which are compared by their bytes. `specs/Members.antt` says what is told.
#![tactic(auto)]

mod members;
mod names;

pub use members::{are_among, have_same_members, repeats};
pub use names::{names_are_among, names_repeat};
