// The nodes of a decision tree.
ghost use Rattle.std.specs.Prelude.{◌≡◌, map, length};
ghost use Rattle.std.specs.List.{list_all};
ghost use Rattle.explain_tree.specs.Nodes.{branch_view, node_view, is_branch_inside, is_node_inside};

/// What parts a case of a switch has.
#[derive(Clone, Copy)]
pub(crate) enum Case<'a> {
    /// A variant, by its name.
    Variant(&'a str),
    /// A truth value.
    Flag(bool),
    /// The numbers of a range, with the ends that it has.
    Span {
        low: Option<&'a str>,
        high: Option<&'a str>,
    },
    /// A text.
    Text(&'a str),
    /// Rows of so many items.
    Length(u64),
    /// Rows of so many items or more: some that are counted from the front, and some from the back.
    Longer {
        front: u64,
        back: u64,
    },
    /// Every part that no other case has.
    Else,
}

/// A case, and the number of the node where it goes on.
#[derive(Clone, Copy)]
pub(crate) struct Branch<'a> {
    pub case: Case<'a>,
    pub next: u64,
}

/// A node. Arms are numbers counted from 0.
#[derive(Drop)]
pub(crate) enum Node<'a> {
    /// Looks at a place.
    Switch {
        place: &'a str,
        branches: Vec<Branch<'a>>,
    },
    /// Asks the guard of an arm, and goes on at a node where it refuses.
    Ask {
        arm: u64,
        refused: u64,
    },
    /// Takes an arm.
    Take {
        arm: u64,
    },
    /// No arm takes the value.
    Miss,
    /// There is no value.
    Void,
}

// Whether each branch goes on at one of so many nodes.
fn are_branches_inside(count: usize, branches: &[Branch<'_>]) -> bool
    ensures { result ≡ list_all (is_branch_inside count) (map branch_view branches.now) }
{
    for branch in branches {
        if branch.next >= count as u64 {
            return false;
        }
    }
    true
}

// Whether a node goes on at nodes of so many alone.
fn is_node_inside(count: usize, node: &Node<'_>) -> bool
    ensures { result ≡ is_node_inside count (node_view node.now) }
{
    match node {
        Node::Switch { branches, .. } => are_branches_inside(count, branches.as_slice()),
        Node::Ask { refused, .. } => *refused < count as u64,
        Node::Take { .. } | Node::Miss | Node::Void => true,
    }
}

// Whether each node does.
fn are_inside(count: usize, nodes: &[Node<'_>]) -> bool
    ensures { result ≡ list_all (is_node_inside count) (map node_view nodes.now) }
{
    for node in nodes {
        if !is_node_inside(count, node) {
            return false;
        }
    }
    true
}

/// Whether the nodes go on at each other alone.
pub(crate) fn is_closed(nodes: &[Node<'_>]) -> bool
    ensures { result ≡ list_all (is_node_inside (length (map node_view nodes.now))) (map node_view nodes.now) }
{
    are_inside(nodes.len(), nodes)
}
