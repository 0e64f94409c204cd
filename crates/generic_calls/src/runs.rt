//! Walks through a tree with one guard.
ghost use Rattle.std.specs.Prelude.{◌≡◌, IfOk};
ghost use Rattle.tree_eval.specs.Nodes.{tree_nodes};
ghost use Rattle.generic_calls.specs.OneGuard.{asked_by, end_by, one_guard};

use no_memory::NoMemory;
use std::alloc::Global;
use tree_eval::{Node, Tree, Value};
use tree_runs::{Outcome, asked, follow};

// The guard of arm 0, which binds nothing, and then a miss.
fn one_guard(alloc: Global) -> Result<Tree, NoMemory>
    ensures { IfOk result (λ t. tree_nodes t ≡ one_guard) }
{
    let mut nodes = Vec::new(alloc);
    nodes.push(Node::Ask {
        arm: 0,
        binds: Vec::new(alloc),
        no: 1,
    })?;
    nodes.push(Node::Miss)?;
    Ok(Tree { nodes })
}

/// How the walk through the tree ends, whatever the value: at node 0 where the first answer is true, at the miss where
/// it is false, and short of an answer where there is none. The only error is want of memory.
pub fn end_at_one_guard(alloc: Global, value: &Value, answers: &[bool]) -> Result<Outcome, NoMemory>
    ensures { IfOk result (λ o. o ≡ end_by answers.now) }
{
    let tree = one_guard(alloc)?;
    Ok(follow(&tree, value, answers))
}

/// The nodes whose guards get an answer on that walk: node 0 where there is an answer. The only error is want of
/// memory.
pub fn asked_at_one_guard(
    alloc: Global,
    value: &Value,
    answers: &[bool],
) -> Result<Vec<u64>, NoMemory>
    ensures { IfOk result (λ ns. ns.items ≡ asked_by answers.now) }
{
    let tree = one_guard(alloc)?;
    let nodes = asked(alloc, &tree, value, answers)?;
    Ok(nodes)
}
