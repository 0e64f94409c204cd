//! Which types a type has by value, as a graph over items and nodes.
ghost use Rattle.std.specs.Prelude.{◌≡◌, ◌<◌, ◌+◌, ◌^◌, ◌++◌, true, map, length, IfOk, OnOk};
ghost use Rattle.std.specs.List.{All, list_all};
ghost use Rattle.cycle_search.specs.Graphs.{plain_graph};
ghost use Rattle.type_table.specs.Nodes.{AreNodes};
ghost use Rattle.type_table.specs.Entries.{entry_below, variant_below};
ghost use Rattle.type_table.specs.Edges.{node_atoms, item_edges, edges_of, variant_edges, variants_edges, entry_edges};

use crate::entries::{Entry, FieldEntry, VariantEntry};
use crate::nodes::{Head, Node};
use no_memory::NoMemory;
use std::alloc::{AllocError, Global};
use type_names::{FormKind, Owner};

/// Of each item, and behind them of each node, where its edges go.
pub(crate) fn all_edges(
    alloc: Global,
    nodes: &[Node],
    items: &[Entry],
) -> Result<Vec<Vec<u32>>, NoMemory>
    requires are { AreNodes nodes.now }
    requires below { list_all (entry_below (length nodes.now)) items.now ≡ true }
    requires few { length items.now + length nodes.now < 2 ^ 32 }
    ensures { IfOk result (λ v. plain_graph v.items
        ≡ map (entry_edges (length items.now)) items.now ++ map (edges_of (length items.now)) nodes.now) }
{
    let mut edges = Vec::new(alloc);
    let count = items.len() as u32;
    add_entry_edges(alloc, &mut edges, count, nodes.len(), items)?;
    add_node_edges(alloc, &mut edges, count, nodes)?;
    Ok(edges)
}

// Adds where the items go.
fn add_entry_edges(
    alloc: Global,
    edges: &mut Vec<Vec<u32>>,
    count: u32,
    size: usize,
    items: &[Entry],
) -> Result<(), AllocError>
    requires below { list_all (entry_below size) items.now ≡ true }
    requires few { count + size < 2 ^ 32 }
    ensures { OnOk result (plain_graph edges.new.items
        ≡ plain_graph edges.old.items ++ map (entry_edges count) items.now) }
{
    for item in items {
        let targets = entry_edges(alloc, count, size, item)?;
        edges.push(targets)?;
    }
    Ok(())
}

// Adds where the nodes go.
fn add_node_edges(
    alloc: Global,
    edges: &mut Vec<Vec<u32>>,
    count: u32,
    nodes: &[Node],
) -> Result<(), AllocError>
    requires are { AreNodes nodes.now }
    requires few { count + length nodes.now < 2 ^ 32 }
    ensures { OnOk result (plain_graph edges.new.items
        ≡ plain_graph edges.old.items ++ map (edges_of count) nodes.now) }
{
    for node in nodes {
        let targets = node_edges(alloc, count, node)?;
        edges.push(targets)?;
    }
    Ok(())
}

// Where an item goes: to its fields.
fn entry_edges(
    alloc: Global,
    count: u32,
    size: usize,
    entry: &Entry,
) -> Result<Vec<u32>, AllocError>
    requires below { entry_below size entry.now ≡ true }
    requires few { count + size < 2 ^ 32 }
    ensures { IfOk result (λ v. v.items ≡ entry_edges count entry.now) }
{
    match entry {
        Entry::Struct { variant, .. } => variant_edges(alloc, count, size, variant),
        Entry::Enum { variants, .. } => variants_edges(alloc, count, size, variants),
        Entry::Function { .. } => Ok(Vec::new(alloc)),
        Entry::Import => Ok(Vec::new(alloc)),
    }
}

// The fields of all variants.
fn variants_edges(
    alloc: Global,
    count: u32,
    size: usize,
    variants: &[VariantEntry],
) -> Result<Vec<u32>, AllocError>
    requires below { list_all (variant_below size) variants.now ≡ true }
    requires few { count + size < 2 ^ 32 }
    ensures { IfOk result (λ v. v.items ≡ variants_edges count variants.now) }
{
    let mut all = Vec::new(alloc);
    for variant in variants {
        let fields = variant_edges(alloc, count, size, variant)?;
        all.extend_from_slice(&fields)?;
    }
    Ok(all)
}

// The fields of a variant.
fn variant_edges(
    alloc: Global,
    count: u32,
    size: usize,
    variant: &VariantEntry,
) -> Result<Vec<u32>, AllocError>
    requires below { variant_below size variant.now ≡ true }
    requires few { count + size < 2 ^ 32 }
    ensures { IfOk result (λ v. v.items ≡ variant_edges count variant.now) }
{
    match variant.form {
        FormKind::Unit => Ok(Vec::new(alloc)),
        FormKind::Tuple => field_edges(alloc, count, &variant.fields),
        FormKind::Brace => field_edges(alloc, count, &variant.fields),
    }
}

// The types of fields.
fn field_edges(alloc: Global, count: u32, fields: &[FieldEntry]) -> Result<Vec<u32>, AllocError>
    requires { All (λ f. count + f.ty < 2 ^ 32) fields.now }
    ensures { IfOk result (λ v. v.items ≡ node_atoms count (map (λ f. f.ty) fields.now)) }
{
    let mut all = Vec::new(alloc);
    for field in fields {
        all.push(count + field.ty as u32)?;
    }
    Ok(all)
}

// Where a node goes: to its parts, or to its item.
fn node_edges(alloc: Global, count: u32, node: &Node) -> Result<Vec<u32>, AllocError>
    requires { All (λ p. count + p < 2 ^ 32) node.now.parts.items }
    ensures { IfOk result (λ v. v.items ≡ edges_of count node.now) }
{
    match node.head {
        Head::Base(_) => Ok(Vec::new(alloc)),
        Head::Opaque(_) => Ok(Vec::new(alloc)),
        Head::Tuple => part_edges(alloc, count, &node.parts),
        Head::Point(_) => Ok(Vec::new(alloc)),
        Head::Slice => Ok(Vec::new(alloc)),
        Head::Array(_) => part_edges(alloc, count, &node.parts),
        Head::Named(Owner::Item(item)) => item_edges(alloc, count, item),
        Head::Named(Owner::Option) => part_edges(alloc, count, &node.parts),
        Head::Named(Owner::Result) => part_edges(alloc, count, &node.parts),
    }
}

// The item, if there is one.
fn item_edges(alloc: Global, count: u32, item: u64) -> Result<Vec<u32>, AllocError>
    ensures { IfOk result (λ v. v.items ≡ item_edges count item) }
{
    let mut all = Vec::new(alloc);
    if item < count as u64 {
        all.push(item as u32)?;
    }
    Ok(all)
}

// The nodes.
fn part_edges(alloc: Global, count: u32, parts: &[usize]) -> Result<Vec<u32>, AllocError>
    requires { All (λ p. count + p < 2 ^ 32) parts.now }
    ensures { IfOk result (λ v. v.items ≡ node_atoms count parts.now) }
{
    let mut all = Vec::new(alloc);
    for part in parts {
        all.push(count + *part as u32)?;
    }
    Ok(all)
}
