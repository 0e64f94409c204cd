// The table of the nodes of a tree that is made.
ghost use Rattle.tree_eval.specs.Tables.{IsWhole, IsWhole-prop, finished_nodes};

use crate::numbers::from_last;
use crate::{Bind, Case, Node, Tree};
use indexmap::IndexSet;
use no_memory::NoMemory;
use pat_context::Place;
use std::alloc::Global;

/// The nodes of a tree that is made, each once. A node goes on at nodes that were put before it, by their indices in
/// the order of putting; so contracts see the trees that the nodes stand for (`table_trees`), the last one first.
#[derive(Drop)]
pub struct NodeTable {
    alloc: Global,
    nodes: IndexSet<Node>,
    ghost whole: { IsWhole (finished_nodes nodes.keys) } by { IsWhole-prop (finished_nodes nodes.keys) },
}

impl NodeTable {
    ghost use Rattle.std.specs.Prelude.{◌≡◌, ◌<◌, ◌≤◌, [], map, length, IfOk, OnErr};
    ghost use Rattle.match_model.specs.DecisionTrees.{MTree, TakeTree, MissTree, VoidTree};
    ghost use Rattle.match_model.specs.SharedTrees.{Walks, IsShared};
    ghost use Rattle.pat_context.specs.Places.{steps_of};
    ghost use Rattle.pat_context.specs.Views.{plain_place};
    ghost use Rattle.tree_eval.specs.Nodes.{plain_bind, plain_branch, plain_node, tree_nodes};
    ghost use Rattle.tree_eval.specs.Tables.{node_tree, GoesBelow, AreBelow};
    ghost use Rattle.tree_eval.specs.Tables.{IsPutTree, IsFinished, FinishesSwitch, FinishesAsk};
    ghost use Rattle.tree_eval.specs.Trees.{table_trees};

    /// The table without a node. It takes no memory.
    pub fn new(alloc: Global) -> NodeTable
        ensures { table_trees result ≡ [] }
    {
        NodeTable {
            alloc,
            nodes: IndexSet::new(alloc),
        }
    }

    /// Puts the node that takes the arm, and gives its index. The only error is want of memory, and then the table is
    /// as before.
    pub fn take(&mut self, arm: u32, binds: Vec<Bind>) -> Result<u64, NoMemory>
        ensures finished { IfOk result (λ i. IsFinished (table_trees self.old)
            (TakeTree arm (map plain_bind binds.items)) i (table_trees self.new)) }
        ensures kept { OnErr result (table_trees self.new ≡ table_trees self.old) }
        ensures grows { length (table_trees self.old) ≤ length (table_trees self.new) }
    {
        self.put(Node::Take { arm, binds })
    }

    /// Puts the node of values that no arm takes, and gives its index. The only error is want of memory, and then the
    /// table is as before.
    pub fn miss(&mut self) -> Result<u64, NoMemory>
        ensures finished { IfOk result (λ i. IsFinished (table_trees self.old) MissTree i (table_trees self.new)) }
        ensures kept { OnErr result (table_trees self.new ≡ table_trees self.old) }
        ensures grows { length (table_trees self.old) ≤ length (table_trees self.new) }
    {
        self.put(Node::Miss)
    }

    /// Puts the node of a place where no value is, and gives its index. The only error is want of memory, and then the
    /// table is as before.
    pub fn void(&mut self) -> Result<u64, NoMemory>
        ensures finished { IfOk result (λ i. IsFinished (table_trees self.old) VoidTree i (table_trees self.new)) }
        ensures kept { OnErr result (table_trees self.new ≡ table_trees self.old) }
        ensures grows { length (table_trees self.old) ≤ length (table_trees self.new) }
    {
        self.put(Node::Void)
    }

    /// Puts the node that asks the guard of the arm and goes on at the node with the index `no` where it refuses; gives
    /// its index. The only error is want of memory, and then the table is as before.
    pub fn ask(&mut self, arm: u32, binds: Vec<Bind>, no: u64) -> Result<u64, NoMemory>
        requires { no < length (table_trees self.old) }
        ensures finished { IfOk result (λ i. FinishesAsk (table_trees self.old) arm (map plain_bind binds.items) no i
            (table_trees self.new)) }
        ensures kept { OnErr result (table_trees self.new ≡ table_trees self.old) }
        ensures below { IfOk result (λ i. i < length (table_trees self.new)) }
        ensures grows { length (table_trees self.old) ≤ length (table_trees self.new) }
    {
        self.put(Node::Ask { arm, binds, no })
    }

    /// Puts the node that looks at the place and goes on at the nodes of its cases, by their indices; gives its index.
    /// The only error is want of memory, and then the table is as before.
    pub fn switch(&mut self, place: Place, cases: Vec<(Case, u64)>) -> Result<u64, NoMemory>
        requires { AreBelow (length (table_trees self.old)) (map plain_branch cases.items) }
        ensures finished { IfOk result (λ i. FinishesSwitch (table_trees self.old) (plain_place (steps_of place))
            (map plain_branch cases.items) i (table_trees self.new)) }
        ensures kept { OnErr result (table_trees self.new ≡ table_trees self.old) }
        ensures below { IfOk result (λ i. i < length (table_trees self.new)) }
        ensures grows { length (table_trees self.old) ≤ length (table_trees self.new) }
    {
        self.put(Node::Switch { place, cases })
    }

    // Puts the node, whose successors are there, and gives its index.
    fn put(&mut self, node: Node) -> Result<u64, NoMemory>
        requires { GoesBelow (length (table_trees self.old)) (plain_node node) }
        ensures put { IfOk result (λ i. IsPutTree (table_trees self.old) (node_tree (table_trees self.old)
            (plain_node node)) i (table_trees self.new)) }
        ensures kept { OnErr result (table_trees self.new ≡ table_trees self.old) }
        ensures below { IfOk result (λ i. i < length (table_trees self.new)) }
        ensures grows { length (table_trees self.old) ≤ length (table_trees self.new) }
    {
        let (at, _new) = self.nodes.insert_full(node)?;
        Ok(at as u64)
    }

    /// The nodes as a tree, whose root is the last node that was new. The only error is want of memory.
    pub fn into_tree(self) -> Result<Tree, NoMemory>
        ensures { IfOk result (λ t. (root : MTree) → Walks [] root (table_trees self)
            → IsShared root (tree_nodes t)) }
    {
        let mut left = self.nodes;
        let count = left.len();
        let mut nodes = Vec::with_capacity(self.alloc, count)?;
        while let Some(node) = left.pop() {
            nodes.push(from_last(count as u64, node))?;
        }
        Ok(Tree { nodes })
    }
}
