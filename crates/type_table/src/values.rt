//! Which types have values, by Horn clauses over the nodes: the node `n` is the atom `n`. A declared type asks what the
//! variants of its item do.
ghost use Rattle.std.specs.Prelude.{◌≡◌, ◌<◌, ◌^◌, ◌++◌, ◌∷◌, [], true, map, length, slice_get, IfOk, OnOk};
ghost use Rattle.std.specs.List.{All, list_all, list_any};
ghost use Rattle.type_table.specs.Nodes.{AreNodes};
ghost use Rattle.type_table.specs.Entries.{entry_below, variant_below};
ghost use Rattle.type_table.specs.Possible.{TellsValues};
ghost use Rattle.type_table.specs.Bodies.{each_alone, outright, bodies_of, item_bodies};
ghost use Rattle.type_table.specs.Bodies.{asks_nothing, variant_body, entry_bodies, said, said_from, clause_pair};

use crate::entries::{Entry, FieldEntry, VariantEntry};
use crate::nodes::{Head, Node};
use horn_clauses::{Clause, least_model};
use no_memory::NoMemory;
use std::alloc::{AllocError, Global};
use type_names::{Base, FormKind, Owner};

/// Of each node, whether its type has a value at such a place. More than 2,147,483,647 types are refused as want of
/// memory: the clauses number the atoms by a `u32`.
pub(crate) fn counted_values(
    alloc: Global,
    sure: bool,
    nodes: &[Node],
    items: &[Entry],
) -> Result<Vec<bool>, NoMemory>
    requires are { AreNodes nodes.now }
    requires below { list_all (entry_below (length nodes.now)) items.now ≡ true }
    ensures { IfOk result (λ v. TellsValues sure nodes.now items.now v.items) }
{
    if nodes.len() > 2_147_483_647 {
        return Err(NoMemory);
    }
    node_values(alloc, sure, nodes, items)
}

// Of each node, whether its type has a value at such a place.
fn node_values(
    alloc: Global,
    sure: bool,
    nodes: &[Node],
    items: &[Entry],
) -> Result<Vec<bool>, NoMemory>
    requires are { AreNodes nodes.now }
    requires below { list_all (entry_below (length nodes.now)) items.now ≡ true }
    requires few { length nodes.now < 2 ^ 32 }
    ensures { IfOk result (λ v. TellsValues sure nodes.now items.now v.items) }
{
    let mut clauses = Vec::with_capacity(alloc, clause_room(nodes, items))?;
    add_nodes(alloc, &mut clauses, sure, nodes, items)?;
    least_model(alloc, nodes.len() as u32, &clauses)
}

// The room with which the list of clauses begins: as many as there are at most, so that it does not grow by doubling.
fn clause_room(nodes: &[Node], items: &[Entry]) -> usize {
    let mut room = 0usize;
    for node in nodes {
        room = room.saturating_add(node_room(node, items));
    }
    room
}

// At most how many clauses a node has.
fn node_room(node: &Node, items: &[Entry]) -> usize {
    match node.head {
        Head::Named(Owner::Item(item)) => item_room(items, item as usize),
        Head::Named(Owner::Result) => node.parts.len(),
        _ => 1,
    }
}

// At most how many clauses a type of the item with this number has.
fn item_room(items: &[Entry], item: usize) -> usize {
    match items.get(item) {
        Some(entry) => entry_room(entry),
        None => 0,
    }
}

// At most how many clauses a type of an item has.
fn entry_room(entry: &Entry) -> usize {
    match entry {
        Entry::Struct { .. } => 1,
        Entry::Enum { variants, .. } => enum_room(variants),
        Entry::Function { .. } => 0,
        Entry::Import => 0,
    }
}

// At most how many clauses an enum has.
fn enum_room(variants: &[VariantEntry]) -> usize {
    if some_asks_nothing(variants) {
        1
    } else {
        variants.len().max(1)
    }
}

// Adds the clauses of the nodes.
fn add_nodes(
    alloc: Global,
    clauses: &mut Vec<Clause>,
    sure: bool,
    nodes: &[Node],
    items: &[Entry],
) -> Result<(), AllocError>
    requires are { AreNodes nodes.now }
    requires below { list_all (entry_below (length nodes.now)) items.now ≡ true }
    requires few { length nodes.now < 2 ^ 32 }
    ensures { OnOk result (map clause_pair clauses.new.items
        ≡ map clause_pair clauses.old.items ++ said_from (bodies_of sure items.now) 0 nodes.now) }
{
    for (i, node) in nodes.iter().enumerate() {
        add_node(alloc, clauses, sure, items, i as u32, node)?;
    }
    Ok(())
}

// Adds the clauses of a node.
fn add_node(
    alloc: Global,
    clauses: &mut Vec<Clause>,
    sure: bool,
    items: &[Entry],
    head: u32,
    node: &Node,
) -> Result<(), AllocError>
    requires below { list_all (entry_below (2 ^ 32)) items.now ≡ true }
    requires parts { All (λ p. p < 2 ^ 32) node.now.parts.items }
    ensures { OnOk result (map clause_pair clauses.new.items
        ≡ map clause_pair clauses.old.items ++ said head (bodies_of sure items.now node.now)) }
{
    match node.head {
        Head::Base(Base::Never) => {
            if sure {
                Ok(())
            } else {
                add_fact(alloc, clauses, head)
            }
        }
        Head::Base(_) => add_fact(alloc, clauses, head),
        Head::Opaque(_) => add_fact(alloc, clauses, head),
        Head::Tuple => add_all(alloc, clauses, head, &node.parts),
        Head::Point(_) => {
            if sure {
                add_fact(alloc, clauses, head)
            } else {
                add_all(alloc, clauses, head, &node.parts)
            }
        }
        Head::Slice => add_fact(alloc, clauses, head),
        Head::Array(n) => {
            if n == 0 {
                add_fact(alloc, clauses, head)
            } else {
                add_all(alloc, clauses, head, &node.parts)
            }
        }
        Head::Named(Owner::Item(item)) => add_item(
            alloc,
            clauses,
            sure,
            items,
            head,
            item as usize,
        ),
        Head::Named(Owner::Option) => add_fact(alloc, clauses, head),
        Head::Named(Owner::Result) => add_each(alloc, clauses, head, &node.parts),
    }
}

// Adds the clauses of a type of the item with this number, if there is one.
fn add_item(
    alloc: Global,
    clauses: &mut Vec<Clause>,
    sure: bool,
    items: &[Entry],
    head: u32,
    item: usize,
) -> Result<(), AllocError>
    requires below { list_all (entry_below (2 ^ 32)) items.now ≡ true }
    ensures { OnOk result (map clause_pair clauses.new.items
        ≡ map clause_pair clauses.old.items ++ said head (item_bodies sure (slice_get items.now item))) }
{
    match items.get(item) {
        Some(entry) => add_entry(alloc, clauses, sure, head, entry),
        None => Ok(()),
    }
}

// Adds the clauses of a type of an item.
fn add_entry(
    alloc: Global,
    clauses: &mut Vec<Clause>,
    sure: bool,
    head: u32,
    entry: &Entry,
) -> Result<(), AllocError>
    requires below { entry_below (2 ^ 32) entry.now ≡ true }
    ensures { OnOk result (map clause_pair clauses.new.items
        ≡ map clause_pair clauses.old.items ++ said head (entry_bodies sure entry.now)) }
{
    match entry {
        Entry::Struct { variant, .. } => {
            let body = variant_atoms(alloc, variant)?;
            clauses.push(Clause { head, body })?;
            Ok(())
        }
        Entry::Enum {
            later,
            variants,
            ..
        } => {
            if *later || (!sure && variants.is_empty()) || some_asks_nothing(variants) {
                add_fact(alloc, clauses, head)
            } else {
                add_variants(alloc, clauses, head, variants)
            }
        }
        Entry::Function { .. } => Ok(()),
        Entry::Import => Ok(()),
    }
}

// Adds a clause for each variant.
fn add_variants(
    alloc: Global,
    clauses: &mut Vec<Clause>,
    head: u32,
    variants: &[VariantEntry],
) -> Result<(), AllocError>
    requires below { list_all (variant_below (2 ^ 32)) variants.now ≡ true }
    ensures { OnOk result (map clause_pair clauses.new.items
        ≡ map clause_pair clauses.old.items ++ said head (map variant_body variants.now)) }
{
    for variant in variants {
        let body = variant_atoms(alloc, variant)?;
        clauses.push(Clause { head, body })?;
    }
    Ok(())
}

// Whether one of the variants has no fields: then an enum has a value, whatever the others ask.
fn some_asks_nothing(variants: &[VariantEntry]) -> bool
    ensures { result ≡ list_any asks_nothing (map variant_body variants.now) }
{
    for variant in variants {
        if has_no_fields(variant) {
            return true;
        }
    }
    false
}

// Whether a variant has no fields.
fn has_no_fields(variant: &VariantEntry) -> bool
    ensures { result ≡ asks_nothing (variant_body variant.now) }
{
    match variant.form {
        FormKind::Unit => true,
        FormKind::Tuple => variant.fields.is_empty(),
        FormKind::Brace => variant.fields.is_empty(),
    }
}

// The atoms of the fields of a variant.
fn variant_atoms(alloc: Global, variant: &VariantEntry) -> Result<Vec<u32>, AllocError>
    requires below { variant_below (2 ^ 32) variant.now ≡ true }
    ensures { IfOk result (λ v. v.items ≡ variant_body variant.now) }
{
    match variant.form {
        FormKind::Unit => Ok(Vec::new(alloc)),
        FormKind::Tuple => field_atoms(alloc, &variant.fields),
        FormKind::Brace => field_atoms(alloc, &variant.fields),
    }
}

// The atoms of the types of fields.
fn field_atoms(alloc: Global, fields: &[FieldEntry]) -> Result<Vec<u32>, AllocError>
    requires { All (λ f. f.ty < 2 ^ 32) fields.now }
    ensures { IfOk result (λ v. v.items ≡ map (λ f. f.ty) fields.now) }
{
    let mut all = Vec::new(alloc);
    for field in fields {
        all.push(field.ty as u32)?;
    }
    Ok(all)
}

// Adds that the head holds.
fn add_fact(alloc: Global, clauses: &mut Vec<Clause>, head: u32) -> Result<(), AllocError>
    ensures { OnOk result (map clause_pair clauses.new.items
        ≡ map clause_pair clauses.old.items ++ said head outright) }
{
    let body = Vec::new(alloc);
    clauses.push(Clause { head, body })?;
    Ok(())
}

// Adds that the head holds where all of the nodes do.
fn add_all(
    alloc: Global,
    clauses: &mut Vec<Clause>,
    head: u32,
    parts: &[usize],
) -> Result<(), AllocError>
    requires { All (λ p. p < 2 ^ 32) parts.now }
    ensures { OnOk result (map clause_pair clauses.new.items
        ≡ map clause_pair clauses.old.items ++ said head (parts.now ∷ [])) }
{
    let mut body = Vec::new(alloc);
    for part in parts {
        body.push(*part as u32)?;
    }
    clauses.push(Clause { head, body })?;
    Ok(())
}

// Adds that the head holds where one of the nodes does.
fn add_each(
    alloc: Global,
    clauses: &mut Vec<Clause>,
    head: u32,
    parts: &[usize],
) -> Result<(), AllocError>
    requires { All (λ p. p < 2 ^ 32) parts.now }
    ensures { OnOk result (map clause_pair clauses.new.items
        ≡ map clause_pair clauses.old.items ++ said head (each_alone parts.now)) }
{
    for part in parts {
        let mut body = Vec::new(alloc);
        body.push(*part as u32)?;
        clauses.push(Clause { head, body })?;
    }
    Ok(())
}
