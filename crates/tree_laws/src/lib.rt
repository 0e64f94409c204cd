//! The theorem on decision trees, over definitions alone.
//!
//! A tree of a match is made from its rows by rules, of which one leaves open which place is looked at next; its equal
//! subtrees are one node. In every context that keeps its laws, and for every well-typed match, such a tree does with each
//! value what the match does, looks at no place twice, and has no dead node and no dead case, whatever places are chosen
//! (Maranget 2008). The tree that is printed looks at a place with the fewest branches next, and there is one such tree.
//!
//! Nothing runs here: each function has an empty body, and its contract is a law. For a choice of places that no test
//! tells, the same stands as the lemma `good-tree` in `proofs/Matches.antt`.
#![tactic(auto)]

ghost use Rattle.tree_laws.specs.Laws.{TreesAreGood, MatchTreesAreGood, TreesAreOfType, MatchTreesAreOfType, MatchTreeIsOne};

use pat_context::PatCx;

/// The nodes of a tree of a well-typed match, whichever place is looked at next, mean what the match selects, with its
/// bindings and what its guards are asked; they are defined on each value of the domain, look at no place twice, have no
/// dead node and no dead case, go on at greater numbers, and no two are equal. The ranges of the match's patterns are
/// those that a program can hold.
pub fn trees_are_good<C: PatCx>(cx: &C)
    ensures any { TreesAreGood (C.is_type cx.now) (C.is_value cx.now) (C.context cx.now) }
    ensures printed { MatchTreesAreGood (C.is_type cx.now) (C.is_value cx.now) (C.context cx.now) }
{}

/// The places and cases of a tree of a well-typed match, whichever place is looked at next, are of the match's type.
pub fn trees_are_of_the_type<C: PatCx>(cx: &C)
    ensures any { TreesAreOfType (C.is_type cx.now) (C.is_value cx.now) (C.context cx.now) }
    ensures printed { MatchTreesAreOfType (C.is_type cx.now) (C.is_value cx.now) (C.context cx.now) }
{}

/// A match has one tree that is printed.
pub fn match_tree_is_one<C: PatCx>(cx: &C)
    ensures { MatchTreeIsOne (C.is_value cx.now) (C.context cx.now) }
{}
