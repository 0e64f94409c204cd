//! Rows in the order of what they decided, for trees that look at any column next.
//!
//! A row of a match knows which alternatives were chosen on the way to it; the or-patterns of an arm have numbers, so what
//! it decided is a key, and rows are in the order of their keys. Proved here: a step at any column keeps rows parted, so
//! that the first row of wildcards has the first way; and it keeps what there is to try. Nothing runs here: the lemmas
//! are in `proofs/`, and the calls below have the laws that stand by themselves.
#![tactic(auto)]

ghost use Rattle.keyed_rows.specs.Laws.{WaysAscend, ArmsAreNumbered};

/// The ways of a pattern whose or-patterns are numbered in preorder come in the order of what they decide.
pub fn ways_ascend<T>()
    ensures { WaysAscend T }
{}

/// Where no two patterns of a match have one uid, the uids of alternatives tell what each decides: in every arm the
/// or-patterns are numbered in preorder.
pub fn arms_are_numbered<T>()
    ensures { ArmsAreNumbered T }
{}
