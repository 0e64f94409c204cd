// The numbers of nodes.
ghost use Rattle.std.specs.Prelude.{◌≡◌, map};
ghost use Rattle.tree_sharing.specs.Table.{renumbered, renumbered_branch};
ghost use Rattle.tree_eval.specs.Nodes.{plain_branch, plain_node};
ghost use Rattle.tree_eval.specs.Tables.{GoesBelow, AreBelow};

use crate::{Case, Node};

// The node with indices counted from the last of so many nodes.
pub(crate) fn from_last(count: u64, node: Node) -> Node
    requires { GoesBelow count (plain_node node) }
    ensures { plain_node result ≡ renumbered count (plain_node node) }
{
    match node {
        Node::Switch { place, cases } => Node::Switch {
            place,
            cases: cases_from_last(count, cases),
        },
        Node::Ask { arm, binds, no } => Node::Ask {
            arm,
            binds,
            no: count - 1 - no,
        },
        other => other,
    }
}

// The cases with indices counted from the last of so many nodes.
fn cases_from_last(count: u64, mut cases: Vec<(Case, u64)>) -> Vec<(Case, u64)>
    requires { AreBelow count (map plain_branch cases.items) }
    ensures { map plain_branch result.items ≡ map (renumbered_branch count) (map plain_branch cases.items) }
{
    for case in cases.iter_mut() {
        case.1 = count - 1 - case.1;
    }
    cases
}
