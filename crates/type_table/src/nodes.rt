//! Types, each once: a node has its parts as the numbers of earlier nodes.
ghost use Rattle.std.specs.Prelude.{◌≡◌, true, length, slice_get, IfOk, OnOk, Some};
ghost use Rattle.type_table.specs.Keeping.{KeepsWith};
ghost use Rattle.type_table.specs.Nodes.{AreNodes, are_below, fits_head, Extends, types_in, node_type};
ghost use Rattle.std.specs.Hash as fed;

use indexmap::IndexSet;
use no_memory::NoMemory;
use type_names::{Base, Opaque, Owner};

/// What a type is made of its parts.
#[derive(Clone, Copy, Debug, PartialEq, Eq, Hash)]
pub(crate) enum Head {
    Base(Base),
    Opaque(Opaque),
    Tuple,
    Point(bool),
    Slice,
    Array(u64),
    Named(Owner),
}

/// A type: its head, and the numbers of its parts' nodes.
#[derive(Debug, PartialEq, Eq, Hash, Drop)]
pub(crate) struct Node {
    pub(crate) head: Head,
    pub(crate) parts: Vec<usize>,
}

/// The number of the node, which is added where it is new.
pub(crate) fn intern(nodes: &mut IndexSet<Node>, node: Node) -> Result<usize, NoMemory>
    requires are { AreNodes nodes.old.keys }
    requires below { are_below node.parts.items (length nodes.old.keys) ≡ true }
    requires fits { fits_head node.head (length node.parts.items) ≡ true }
    ensures extends { OnOk result (Extends nodes.old.keys nodes.new.keys) }
    ensures are { OnOk result (AreNodes nodes.new.keys) }
    ensures declared { OnOk result (KeepsWith node.head nodes.old.keys nodes.new.keys) }
    ensures type_is { IfOk result (λ i. slice_get (types_in nodes.new.keys) i
        ≡ Some (node_type (types_in nodes.old.keys) node)) }
{
    let (at, _new) = nodes.insert_full(node)?;
    Ok(at)
}
