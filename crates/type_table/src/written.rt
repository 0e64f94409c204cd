//! Written types as nodes.
ghost use Rattle.std.specs.Prelude.{◌≡◌, ◌<◌, [], ◌∷◌, true, map, length, slice_get, IfOk, OnOk, Some, option_map};
ghost use Rattle.match_model.specs.Types.{types_list, types_of as types_of_list};
ghost use Rattle.decl_syntax.specs.Types.{type_view, types_from};
ghost use Rattle.type_names.specs.Written.{type_of, types_of, broken_type, slice_type, array_type, named_type};
ghost use Rattle.type_names.specs.Views.{means_in, meaning_view};
ghost use Rattle.type_table.specs.Keeping.{Keeps, KeepsWith, KeepsMeant, KeepsNamed};
ghost use Rattle.type_table.specs.Nodes.{AreNodes, Extends, types_in, type_at, head_type, fits_head, are_below};
ghost use Rattle.type_table.specs.Readings.{array_length, head_of};

use crate::nodes::{Head, Node, intern};
use decl_syntax::Ty;
use indexmap::IndexSet;
use no_memory::NoMemory;
use std::alloc::Global;
use type_names::{Base, Meaning, Names, Opaque, Owner, argument_count, arguments_sized, is_length};

/// The number of the node of a written type, where a size is needed or is not. One that breaks a rule is opaque.
#[cycle(written)]
pub(crate) fn type_id(
    alloc: Global,
    names: &Names,
    nodes: &mut IndexSet<Node>,
    sized: bool,
    ty: &Ty,
) -> Result<usize, NoMemory>
    requires { AreNodes nodes.old.keys }
    ensures extends { OnOk result (Extends nodes.old.keys nodes.new.keys) }
    ensures are { OnOk result (AreNodes nodes.new.keys) }
    ensures declared { OnOk result (KeepsNamed names.now nodes.old.keys nodes.new.keys) }
    ensures type_is { IfOk result (λ i. slice_get (types_in nodes.new.keys) i
        ≡ Some (type_of (means_in names.now) sized (type_view ty.now))) }
{
    match ty {
        Ty::Never => leaf(alloc, nodes, Head::Base(Base::Never)),
        Ty::Tuple(parts) => {
            let ids = type_ids(alloc, names, nodes, true, parts)?;
            intern_all(nodes, Head::Tuple, ids)
        }
        Ty::Point { mutable, inner } => {
            let id = type_id(alloc, names, nodes, false, inner)?;
            intern_one(alloc, nodes, Head::Point(*mutable), id)
        }
        Ty::Slice(item) => {
            let id = type_id(alloc, names, nodes, true, item)?;
            slice_id(alloc, nodes, sized, id)
        }
        Ty::Array { item, size } => {
            let id = type_id(alloc, names, nodes, true, item)?;
            array_id(alloc, nodes, id, size.len, &size.suffix)
        }
        Ty::Named { name, args } => {
            let ids = type_ids(alloc, names, nodes, arguments_sized(names, name), args)?;
            named_id(alloc, nodes, sized, names.meaning(name), ids)
        }
    }
}

// The numbers of the nodes of written types.
#[cycle(written)]
fn type_ids(
    alloc: Global,
    names: &Names,
    nodes: &mut IndexSet<Node>,
    sized: bool,
    types: &[Ty],
) -> Result<Vec<usize>, NoMemory>
    requires { AreNodes nodes.old.keys }
    ensures extends { OnOk result (Extends nodes.old.keys nodes.new.keys) }
    ensures are { OnOk result (AreNodes nodes.new.keys) }
    ensures declared { OnOk result (KeepsNamed names.now nodes.old.keys nodes.new.keys) }
    ensures types_are { IfOk result (λ ids. map (slice_get (types_in nodes.new.keys)) ids.items
        ≡ map Some (types_list (types_of (means_in names.now) sized (types_from (map type_view types.now))))) }
{
    let mut ids = Vec::new(alloc);
    for ty in types {
        let id = type_id(alloc, names, nodes, sized, ty)?;
        ids.push(id)?;
    }
    Ok(ids)
}

/// A type without parts.
pub(crate) fn leaf(alloc: Global, nodes: &mut IndexSet<Node>, head: Head) -> Result<usize, NoMemory>
    requires are { AreNodes nodes.old.keys }
    requires fits { fits_head head 0 ≡ true }
    ensures extends { OnOk result (Extends nodes.old.keys nodes.new.keys) }
    ensures are { OnOk result (AreNodes nodes.new.keys) }
    ensures declared { OnOk result (KeepsWith head nodes.old.keys nodes.new.keys) }
    ensures type_is { IfOk result (λ i. slice_get (types_in nodes.new.keys) i ≡ Some (head_type head [])) }
{
    let parts = Vec::new(alloc);
    intern(nodes, Node { head, parts })
}

// A type with one part.
fn intern_one(
    alloc: Global,
    nodes: &mut IndexSet<Node>,
    head: Head,
    id: usize,
) -> Result<usize, NoMemory>
    requires are { AreNodes nodes.old.keys }
    requires below { id < length nodes.old.keys }
    requires fits { fits_head head 1 ≡ true }
    ensures extends { OnOk result (Extends nodes.old.keys nodes.new.keys) }
    ensures are { OnOk result (AreNodes nodes.new.keys) }
    ensures declared { OnOk result (KeepsWith head nodes.old.keys nodes.new.keys) }
    ensures type_is { IfOk result (λ i. slice_get (types_in nodes.new.keys) i
        ≡ Some (head_type head (type_at (types_in nodes.old.keys) id ∷ []))) }
{
    let mut parts = Vec::new(alloc);
    parts.push(id)?;
    intern(nodes, Node { head, parts })
}

// A type with these parts.
fn intern_all(nodes: &mut IndexSet<Node>, head: Head, ids: Vec<usize>) -> Result<usize, NoMemory>
    requires are { AreNodes nodes.old.keys }
    requires below { are_below ids.items (length nodes.old.keys) ≡ true }
    requires fits { fits_head head (length ids.items) ≡ true }
    ensures extends { OnOk result (Extends nodes.old.keys nodes.new.keys) }
    ensures are { OnOk result (AreNodes nodes.new.keys) }
    ensures declared { OnOk result (KeepsWith head nodes.old.keys nodes.new.keys) }
    ensures type_is { IfOk result (λ i. slice_get (types_in nodes.new.keys) i
        ≡ Some (head_type head (map (type_at (types_in nodes.old.keys)) ids.items))) }
{
    intern(nodes, Node { head, parts: ids })
}

// The opaque type in the place of one that breaks a rule.
fn broken_id(alloc: Global, nodes: &mut IndexSet<Node>) -> Result<usize, NoMemory>
    requires { AreNodes nodes.old.keys }
    ensures extends { OnOk result (Extends nodes.old.keys nodes.new.keys) }
    ensures are { OnOk result (AreNodes nodes.new.keys) }
    ensures declared { OnOk result (Keeps nodes.old.keys nodes.new.keys) }
    ensures type_is { IfOk result (λ i. slice_get (types_in nodes.new.keys) i ≡ Some broken_type) }
{
    leaf(alloc, nodes, Head::Opaque(Opaque::Text))
}

// The slice of these items, only where no size is needed.
fn slice_id(
    alloc: Global,
    nodes: &mut IndexSet<Node>,
    sized: bool,
    id: usize,
) -> Result<usize, NoMemory>
    requires are { AreNodes nodes.old.keys }
    requires below { id < length nodes.old.keys }
    ensures extends { OnOk result (Extends nodes.old.keys nodes.new.keys) }
    ensures are { OnOk result (AreNodes nodes.new.keys) }
    ensures declared { OnOk result (Keeps nodes.old.keys nodes.new.keys) }
    ensures type_is { IfOk result (λ i. slice_get (types_in nodes.new.keys) i
        ≡ Some (slice_type sized (type_at (types_in nodes.old.keys) id))) }
{
    if sized {
        broken_id(alloc, nodes)
    } else {
        intern_one(alloc, nodes, Head::Slice, id)
    }
}

// The array of these items.
fn array_id(
    alloc: Global,
    nodes: &mut IndexSet<Node>,
    id: usize,
    len: Option<u128>,
    suffix: &str,
) -> Result<usize, NoMemory>
    requires are { AreNodes nodes.old.keys }
    requires below { id < length nodes.old.keys }
    ensures extends { OnOk result (Extends nodes.old.keys nodes.new.keys) }
    ensures are { OnOk result (AreNodes nodes.new.keys) }
    ensures declared { OnOk result (Keeps nodes.old.keys nodes.new.keys) }
    ensures type_is { IfOk result (λ i. slice_get (types_in nodes.new.keys) i
        ≡ Some (array_type (type_at (types_in nodes.old.keys) id) len suffix.now)) }
{
    match array_length(len, suffix) {
        Some(n) => intern_one(alloc, nodes, Head::Array(n), id),
        None => broken_id(alloc, nodes),
    }
}

// The length of an array, if it is one.
fn array_length(len: Option<u128>, suffix: &str) -> Option<u64>
    ensures { result ≡ array_length len suffix.now }
{
    match len {
        Some(n) if n <= 4_294_967_295 && is_length(len, suffix) => Some(n as u64),
        _ => None,
    }
}

// The type of a name with this meaning and these arguments, if their number is right.
fn named_id(
    alloc: Global,
    nodes: &mut IndexSet<Node>,
    sized: bool,
    meaning: Option<Meaning>,
    ids: Vec<usize>,
) -> Result<usize, NoMemory>
    requires are { AreNodes nodes.old.keys }
    requires below { are_below ids.items (length nodes.old.keys) ≡ true }
    ensures extends { OnOk result (Extends nodes.old.keys nodes.new.keys) }
    ensures are { OnOk result (AreNodes nodes.new.keys) }
    ensures declared { OnOk result (KeepsMeant meaning nodes.old.keys nodes.new.keys) }
    ensures type_is { IfOk result (λ i. slice_get (types_in nodes.new.keys) i
        ≡ Some (named_type sized (option_map meaning_view meaning)
        (types_of_list (map (type_at (types_in nodes.old.keys)) ids.items)))) }
{
    let Some(meaning) = meaning else {
        return broken_id(alloc, nodes);
    };
    if ids.len() != argument_count(meaning) {
        return broken_id(alloc, nodes);
    }
    match head_of(sized, meaning) {
        Some(head) => intern_all(nodes, head, ids),
        None => broken_id(alloc, nodes),
    }
}

// The head of the types that a name with this meaning has; `str` only where no size is needed.
fn head_of(sized: bool, meaning: Meaning) -> Option<Head>
    ensures { result ≡ head_of sized meaning }
{
    match meaning {
        Meaning::Item(i) => Some(Head::Named(Owner::Item(i as u64))),
        Meaning::Base(Base::Str) if sized => None,
        Meaning::Base(b) => Some(Head::Base(b)),
        Meaning::Opaque(o) => Some(Head::Opaque(o)),
        Meaning::Option => Some(Head::Named(Owner::Option)),
        Meaning::Result => Some(Head::Named(Owner::Result)),
    }
}
