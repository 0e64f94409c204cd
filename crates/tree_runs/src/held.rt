// What the names at a node hold.
ghost use Rattle.std.specs.Prelude.{◌≡◌, ◌≤◌, ◌∷◌, ◌++◌, IfOk, OnOk, drop, length, map, slice_get, take};
ghost use Rattle.std.specs.Ordering.{is_lt};
ghost use Rattle.std.specs.String.{string_bytes};
ghost use Rattle.match_model.specs.Texts.{compare_texts};
ghost use Rattle.match_model.specs.Trees.{bindings_in};
ghost use Rattle.match_model.specs.Ways.{Binding, bind_into};
ghost use Rattle.tree_eval.specs.Nodes.{plain_bind, plain_node, tree_nodes};
ghost use Rattle.tree_eval.specs.Views.{plain_value};
ghost use Rattle.tree_runs.specs.Held.{binds_at, held_backward, plain_held, with_bind};

use crate::part::{part_at, to_value};
use match_model::Mode;
use no_memory::NoMemory;
use std::alloc::Global;
use std::cmp::Ordering;
use tree_eval::{Bind, Node, Tree, Value};

/// A name that an arm binds, with what it is bound to.
#[derive(Debug, Drop)]
pub struct Held {
    /// The name.
    pub name: String,
    pub mode: Mode,
    /// The part of the value, or the row of items, that the name is bound to.
    pub value: Value,
}

/// What the names of a node's arm are bound to in the value, ascending by name. A name whose place is not there, which
/// a tree that is defined on the value has nowhere on its walk, is left out; a node without an arm has no names, and
/// neither has a number that no node has. The only error is want of memory.
pub fn bindings(alloc: Global, tree: &Tree, node: u64, value: &Value) -> Result<Vec<Held>, NoMemory>
    ensures { IfOk result (λ hs. map plain_held hs.items
        ≡ bindings_in (plain_value value.now) (binds_at (slice_get (tree_nodes tree.now) node))) }
{
    let mut all = all_backward(alloc, binds_at(tree, node), value)?;
    all.reverse();
    Ok(all)
}

// The names that the arm of a node binds.
fn binds_at(tree: &Tree, number: u64) -> &[Bind]
    ensures { map plain_bind result.now ≡ binds_at (slice_get (tree_nodes tree.now) number) }
{
    if number < tree.nodes.len() as u64 {
        binds_of(&tree.nodes[number as usize])
    } else {
        &[]
    }
}

// The names that the arm of the node binds.
fn binds_of(node: &Node) -> &[Bind]
    ensures { map plain_bind result.now ≡ binds_at (Some (plain_node node.now)) }
{
    match node {
        Node::Ask { binds, .. } => binds,
        Node::Take { binds, .. } => binds,
        _ => &[],
    }
}

// What the names are bound to, the last one first.
fn all_backward(alloc: Global, binds: &[Bind], value: &Value) -> Result<Vec<Held>, NoMemory>
    ensures { IfOk result (λ hs. held_backward hs.items
        ≡ bindings_in (plain_value value.now) (map plain_bind binds.now)) }
{
    let mut all = Vec::new(alloc);
    let mut left = binds.len();
    while left > 0 {
        left -= 1;
        add_bind(alloc, &mut all, &binds[left], value)?;
    }
    Ok(all)
}

// Adds what the name is bound to, where its place is there.
fn add_bind(alloc: Global, all: &mut Vec<Held>, bind: &Bind, value: &Value) -> Result<(), NoMemory>
    ensures { OnOk result (held_backward all.new.items
        ≡ with_bind (plain_value value.now) (plain_bind bind.now) (held_backward all.old.items)) }
{
    match part_at(value, bind.place.steps()) {
        None => Ok(()),
        Some(part) => {
            let name = String::from_str(alloc, bind.name.as_str())?;
            let value = to_value(alloc, part)?;
            let mode = bind.mode;
            put(all, Held { name, mode, value })
        }
    }
}

// Puts the name in its place among names that descend.
fn put(all: &mut Vec<Held>, held: Held) -> Result<(), NoMemory>
    ensures { OnOk result (held_backward all.new.items
        ≡ bind_into (plain_held held) (held_backward all.old.items)) }
{
    let at = place_for(all, held.name.as_str());
    all.insert(at, held)?;
    Ok(())
}

// The index before which a name goes among names that descend: behind the last one that is not less.
fn place_for(all: &[Held], name: &str) -> usize
    ensures within { result ≤ length all.now }
    ensures place { (b : Binding) → b.name ≡ name.now → bind_into b (held_backward all.now)
        ≡ held_backward (drop result all.now) ++ b ∷ held_backward (take result all.now) }
{
    let mut at = all.len();
    while at > 0 {
        if !is_less(all[at - 1].name.as_str(), name) {
            return at;
        }
        at -= 1;
    }
    at
}

// Tells whether the first name is less, byte by byte.
fn is_less(first: &str, second: &str) -> bool
    ensures { result ≡ is_lt (compare_texts first.now second.now) }
{
    match first.cmp(second) {
        Ordering::Less => true,
        _ => false,
    }
}
