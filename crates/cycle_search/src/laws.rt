//! What follows from the definitions: each function has an empty body, and its contract is a law.

ghost use Rattle.cycle_search.specs.Laws.{WaysAreJoined, FirstIsOne};

/// A way to a node and a way on from it are a way.
pub fn ways_are_joined()
    ensures { WaysAreJoined }
{}

/// There is one least node that reaches itself at most.
pub fn first_is_one()
    ensures { FirstIsOne }
{}
