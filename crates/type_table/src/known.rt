//! Whether tuples, variants and fields are fewer than 2^32, so that their numbers are `u32`.
ghost use Rattle.std.specs.Prelude.{◌≡◌, ◌↔◌, true, IsTrue};
ghost use Rattle.std.specs.List.{All};
ghost use Rattle.type_table.specs.Known.{HasFewParts, HasFewFields, IsFew};

use crate::entries::{Entry, VariantEntry};
use crate::nodes::{Head, Node};

/// Whether each tuple has fewer than 2^32 parts, each enum as few variants, and each variant as few fields.
pub(crate) fn are_few(nodes: &[Node], items: &[Entry]) -> bool
    ensures nodes { result ≡ true → All HasFewParts nodes.now }
    ensures items { result ≡ true → All IsFew items.now }
{
    nodes_are_few(nodes) && items_are_few(items)
}

// Whether each tuple has fewer than 2^32 parts.
fn nodes_are_few(nodes: &[Node]) -> bool
    ensures { IsTrue result ↔ All HasFewParts nodes.now }
{
    for node in nodes {
        if !has_few_parts(node) {
            return false;
        }
    }
    true
}

// Whether the node, if it is a tuple, has fewer than 2^32 parts.
fn has_few_parts(node: &Node) -> bool
    ensures { IsTrue result ↔ HasFewParts node.now }
{
    match node.head {
        Head::Base(_) => true,
        Head::Opaque(_) => true,
        Head::Tuple => node.parts.len() < 4_294_967_296,
        Head::Point(_) => true,
        Head::Slice => true,
        Head::Array(_) => true,
        Head::Named(_) => true,
    }
}

// Whether all items have fewer than 2^32 variants, each with fewer than 2^32 fields.
fn items_are_few(items: &[Entry]) -> bool
    ensures { IsTrue result ↔ All IsFew items.now }
{
    for item in items {
        if !is_few(item) {
            return false;
        }
    }
    true
}

// Whether the item has fewer than 2^32 variants, each with fewer than 2^32 fields.
fn is_few(entry: &Entry) -> bool
    ensures { IsTrue result ↔ IsFew entry.now }
{
    match entry {
        Entry::Struct { variant, .. } => has_few_fields(variant),
        Entry::Enum { variants, .. } => variants.len() < 4_294_967_296
            && variants_are_few(variants),
        Entry::Function { .. } => true,
        Entry::Import => true,
    }
}

// Whether each of the variants has fewer than 2^32 fields.
fn variants_are_few(variants: &[VariantEntry]) -> bool
    ensures { IsTrue result ↔ All HasFewFields variants.now }
{
    for variant in variants {
        if !has_few_fields(variant) {
            return false;
        }
    }
    true
}

// Whether the variant has fewer than 2^32 fields.
fn has_few_fields(variant: &VariantEntry) -> bool
    ensures { IsTrue result ↔ HasFewFields variant.now }
{
    variant.fields.len() < 4_294_967_296
}
