//! Range patterns of a match that overlap in exactly one number.
//!
//! Two range patterns overlap where they have exactly one number in common, as `0..=5` and `5..=9`, and some value
//! meets them together. Both of their arms' patterns match that value, and the two ranges stand at one position,
//! where it has that number. This is the documentation of the lint on overlapping range endpoints; the exact
//! condition is our own choice.
//!
//! `overlaps` does not try each two ranges. It notes at which place of the values each range stands, and sorts the
//! ends. So it finds the pairs at one place of which one ends where the other begins. Columns beside the ranges keep
//! most of those apart that never meet. For each pair that is left, one walk down both patterns decides whether some
//! value meets them together.
#![tactic(auto)]

mod along;
mod beside;
mod columns;
mod ends;
mod found;
mod hulls;
mod lengths;
mod list;
mod meeting;
mod mixing;
mod pairs;
mod places;
mod spots;
mod trials;

pub use list::overlaps;
