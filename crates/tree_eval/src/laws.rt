//! What holds of every table of nodes: each function has an empty body, and its contract is a law.

ghost use Rattle.tree_sharing.specs.Table.{IsBuilt};
ghost use Rattle.tree_eval.specs.Trees.{table_trees};

use crate::NodeTable;

/// Each tree of a table goes on with trees that were finished before it.
pub fn tables_are_built(table: &NodeTable)
    ensures { IsBuilt (table_trees table.now) }
{}
