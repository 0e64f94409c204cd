// The arms of nodes.
ghost use Rattle.std.specs.Prelude.{◌≡◌, Some, slice_get};
ghost use Rattle.tree_eval.specs.Nodes.{plain_node, tree_nodes};
ghost use Rattle.tree_runs.specs.Held.{arm_at};

use tree_eval::{Node, Tree};

/// The arm, counted from 0, whose guard the node asks or that it takes; `None` for a node without an arm, and for a
/// number that no node has. It takes no memory.
pub fn arm_at(tree: &Tree, node: u64) -> Option<u32>
    ensures { result ≡ arm_at (slice_get (tree_nodes tree.now) node) }
{
    if node < tree.nodes.len() as u64 {
        arm_of(&tree.nodes[node as usize])
    } else {
        None
    }
}

// The arm of the node.
fn arm_of(node: &Node) -> Option<u32>
    ensures { result ≡ arm_at (Some (plain_node node.now)) }
{
    match node {
        Node::Ask { arm, .. } => Some(*arm),
        Node::Take { arm, .. } => Some(*arm),
        _ => None,
    }
}
