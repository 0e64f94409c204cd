// The decision tree of a match.
ghost use Rattle.std.specs.Prelude.{◌≡◌, ◌<◌, ◌^◌, ◌∷◌, [], length, IfOk};
ghost use Rattle.match_model.specs.Values.{MValue};
ghost use Rattle.match_model.specs.ArenaWays.{InMatchDomain};
ghost use Rattle.match_model.specs.MatchTree.{IsMatchTree};
ghost use Rattle.match_model.specs.Trees.{VoidNode};
ghost use Rattle.match_model.specs.WellTyped.{IsWellTyped};
ghost use Rattle.pattern_arena.specs.Trees.{plain_match};
ghost use Rattle.tree_eval.specs.Nodes.{tree_nodes};
ghost use Rattle.decision_tree.specs.Waiting.{Tells, IsBare};

use crate::lowering::lower_match;
use bumpalo::Bump;
use keyed_matrix::decisions_of;
use no_memory::NoMemory;
use pat_context::{CtorSet, PatCx, Validity, has_value};
use pattern_arena::CheckedMatch;
use std::alloc::Global;
use tree_eval::{NodeTable, Tree};

// Tells whether the domain of the match, which has a value, has only a bare unseen.
fn is_bare<'a, C: PatCx>(cx: &C, m: &CheckedMatch<'a, C::Ty>) -> bool
    requires ty { C.is_type cx.now m.now.ty }
    requires value { (v : MValue) × InMatchDomain (C.is_value cx.now) (plain_match m.now) v }
    ensures { Tells result (IsBare (C.is_value cx.now) (plain_match m.now)) }
{
    match (cx.set(m.ty), m.validity) {
        (CtorSet::Nothing, Validity::Unsure) => true,
        _ => false,
    }
}

// The tree of a match whose domain is empty.
fn empty_tree(alloc: Global) -> Result<Tree, NoMemory>
    ensures { IfOk result (λ t. tree_nodes t ≡ VoidNode ∷ []) }
{
    let mut table = NodeTable::new(alloc);
    table.void()?;
    let tree = table.into_tree()?;
    Ok(tree)
}

// The tree of a match whose domain has a value.
fn lowered<'a, C: PatCx>(
    alloc: Global,
    arena: &'a Bump<Global>,
    cx: &C,
    m: &CheckedMatch<'a, C::Ty>,
) -> Result<Tree, NoMemory>
    requires typed { IsWellTyped (C.is_type cx.now) (C.context cx.now) (plain_match m.now) }
    requires few { length m.now.arms.now < 2 ^ 32 }
    requires value { (v : MValue) × InMatchDomain (C.is_value cx.now) (plain_match m.now) v }
    ensures { IfOk result (λ t. IsMatchTree (C.context cx.now) (C.is_value cx.now) (plain_match m.now) (tree_nodes t)) }
{
    let decisions = decisions_of(alloc, m)?;
    let mut table = NodeTable::new(alloc);
    let bare = is_bare(cx, m);
    lower_match(alloc, arena, cx, &decisions, bare, &mut table, m)?;
    let tree = table.into_tree()?;
    Ok(tree)
}

/// The decision tree of the match: of the places that may be looked at next it looks at the leftmost with the fewest
/// branches, and equal subtrees are one node.
///
/// The match is well typed and has fewer than 2^32 arms. The places that the work goes through are put into the arena. The
/// only error is want of memory.
pub fn lower<'a, C: PatCx>(
    alloc: Global,
    arena: &'a Bump<Global>,
    cx: &C,
    m: &CheckedMatch<'a, C::Ty>,
) -> Result<Tree, NoMemory>
    requires typed { IsWellTyped (C.is_type cx.now) (C.context cx.now) (plain_match m.now) }
    requires few { length m.now.arms.now < 2 ^ 32 }
    ensures { IfOk result (λ t. IsMatchTree (C.context cx.now) (C.is_value cx.now) (plain_match m.now) (tree_nodes t)) }
{
    let some = has_value(cx, m.ty, m.validity);
    if some {
        lowered(alloc, arena, cx, m)
    } else {
        empty_tree(alloc)
    }
}
