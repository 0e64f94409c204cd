//! What runs tell of a tree: each function has an empty body, and its contract is a law.

ghost use Rattle.tree_runs.specs.Laws.{RunsEndAsTheTreeMeans, RunsAskAsTheTreeMeans};

/// What a tree means for a value and answers is what a run tells of it: how it ends, with the bindings of its node, and
/// the guards that are asked, with those of theirs.
pub fn runs_tell_the_meaning()
    ensures end { RunsEndAsTheTreeMeans }
    ensures asked { RunsAskAsTheTreeMeans }
{}
