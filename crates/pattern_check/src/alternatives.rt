//! The first or-pattern whose alternatives do not all bind the same.
ghost use Rattle.std.specs.Prelude.{◌≡◌, true, false, None, ℕ, List, map, IfOk, OnOk};
ghost use Rattle.decl_syntax.specs.Patterns.{Or, pattern_view, shape_view, patterns_from, field_view, fields_from};
ghost use Rattle.decl_syntax.specs.Widths.{pattern_count};
ghost use Rattle.type_table.specs.Lookups.{field_names as names_of_variant};
ghost use Rattle.type_table.specs.Tables.{IsOf, table_program, table_type, fields_of_type, type_variant};
ghost use Rattle.pattern_rules.specs.Settings.{Setting, Place as AnyPlace, place, rest_type};
ghost use Rattle.pattern_rules.specs.Nodes.{Standing, AsItem, nodes};
ghost use Rattle.pattern_rules.specs.Nodes.{part_nodes, field_nodes, item_nodes, is_rest};
ghost use Rattle.pattern_rules.specs.NodeRules.{is_tuple};
ghost use Rattle.pattern_check.specs.Checking.{IsOfFile, IsSettingOf};
ghost use Rattle.pattern_check.specs.NodeForms.{pick};
ghost use Rattle.pattern_check.specs.Walks.{fault_at, earlier, types_of_parts};
ghost use Rattle.pattern_check.specs.BoundSets.{bounds_view, AreHeld, BoundsAre, BoundsWithin, Told, IsFirst};

use crate::fault::NodeFault;
use crate::fields::part;
use crate::held::{Bound, add_all, bind_alike, bind_own};
use crate::names::{found_number, path_found};
use crate::types::{Place, bottom, inner};
use crate::walk::{field_type, part_behind, pointed};
use decl_syntax::{FieldPat, Pat, PatKind};
use indexmap::IndexSet;
use no_memory::NoMemory;
use pattern_rules::lists::is_rest;
use std::alloc::Global;
use type_table::TypeTable;

/// The first or-pattern of a pattern whose alternatives do not all bind the same names with the same types and modes,
/// where no node breaks a rule by itself. What the pattern binds is added to the set. The only error is want of memory.
#[cycle(gather)]
pub(crate) fn gather<'a>(
    alloc: Global,
    table: &TypeTable,
    pat: &'a Pat,
    here: Place,
    bounds: &mut IndexSet<Bound<'a>>,
) -> Result<Option<NodeFault>, NoMemory>
    requires file { IsOfFile table.now }
    requires of { IsOf table.now here.ty }
    requires held { AreHeld table.now bounds.old.keys }
    ensures held { OnOk result (AreHeld table.now bounds.new.keys) }
    ensures told { IfOk result (λ r. (standing : Standing) → BoundsAre table.now (bounds_view table.now bounds.old.keys)
        (bounds_view table.now bounds.new.keys) (λ s before.
        nodes s standing before (place (table_type table.now here.ty) here.mode) (pattern_view pat.now)) r) }
{
    bind_own(table, &pat.kind, here, 0, bounds)?;
    gather_within(alloc, table, pat.from, &pat.kind, here, bounds)
}

// The same of a node of this form and those below it, but that what the node itself binds is not added.
#[cycle(gather)]
fn gather_within<'a>(
    alloc: Global,
    table: &TypeTable,
    from: u64,
    kind: &'a PatKind,
    here: Place,
    bounds: &mut IndexSet<Bound<'a>>,
) -> Result<Option<NodeFault>, NoMemory>
    requires file { IsOfFile table.now }
    requires of { IsOf table.now here.ty }
    requires held { AreHeld table.now bounds.old.keys }
    ensures held { OnOk result (AreHeld table.now bounds.new.keys) }
    ensures told { IfOk result (BoundsWithin table.now (bounds_view table.now bounds.old.keys)
        (bounds_view table.now bounds.new.keys) from (shape_view kind.now)
        (place (table_type table.now here.ty) here.mode)) }
{
    match kind {
        PatKind::Wild => Ok(None),
        PatKind::Rest => Ok(None),
        PatKind::Lit(_) => Ok(None),
        PatKind::Range(_) => Ok(None),
        PatKind::Name(_) => Ok(None),
        PatKind::Path(_) => Ok(None),
        PatKind::Bind { sub, .. } => match sub {
            Some(sub) => gather(alloc, table, sub, here, bounds),
            None => Ok(None),
        },
        PatKind::TupleForm { path, items } => {
            table.types_are_sound();
            let variant = found_number(table, &path_found(table, path));
            gather_parts(alloc, table, items, bottom(table, here), variant, bounds)
        }
        PatKind::Brace { path, fields, .. } => {
            table.types_are_sound();
            let variant = found_number(table, &path_found(table, path));
            gather_fields(alloc, table, fields, bottom(table, here), variant, bounds)
        }
        PatKind::Tuple(items) => gather_parts(alloc, table, items, bottom(table, here), 0, bounds),
        PatKind::Group(sub) => gather(alloc, table, sub, here, bounds),
        PatKind::Slice(items) => gather_items(alloc, table, items, bottom(table, here), bounds),
        PatKind::Point { inner: sub, .. } => {
            gather(alloc, table, sub, pointed(table, here), bounds)
        }
        PatKind::Or(all) => gather_alternatives(alloc, table, from, all, here, bounds),
    }
}

// The same of the items of a tuple or tuple form, whose parts are those of the variant.
#[cycle(gather)]
fn gather_parts<'a>(
    alloc: Global,
    table: &TypeTable,
    items: &'a Vec<Pat>,
    here: Place,
    variant: u32,
    bounds: &mut IndexSet<Bound<'a>>,
) -> Result<Option<NodeFault>, NoMemory>
    requires file { IsOfFile table.now }
    requires of { IsOf table.now here.ty }
    requires held { AreHeld table.now bounds.old.keys }
    ensures held { OnOk result (AreHeld table.now bounds.new.keys) }
    ensures told { IfOk result (BoundsAre table.now (bounds_view table.now bounds.old.keys)
        (bounds_view table.now bounds.new.keys) (λ s before. part_nodes s before
        (types_of_parts (table_program table.now) (table_type table.now here.ty) variant) here.mode
        (fields_of_type (table_program table.now) (table_type table.now here.ty) variant) 0
        (patterns_from (map pattern_view items.now.items)))) }
{
    let parts = table.fields(here.ty, variant) as usize;
    let mut left = items.len();
    let mut number = 0;
    let mut found = None;
    for item in items {
        left -= 1;
        let there = Place {
            ty: part(table, here.ty, variant, number),
            mode: here.mode,
        };
        let next = gather(alloc, table, item, there, bounds)?;
        found = earlier(found, next);
        number = part_behind(parts, number, left, item);
    }
    Ok(found)
}

// The first of the two that is there.
fn earlier(first: Option<NodeFault>, second: Option<NodeFault>) -> Option<NodeFault>
    ensures { result ≡ earlier first second }
{
    match first {
        Some(fault) => Some(fault),
        None => second,
    }
}

// The same of the fields of a brace pattern, whose form is that of the variant.
#[cycle(gather)]
fn gather_fields<'a>(
    alloc: Global,
    table: &TypeTable,
    fields: &'a Vec<FieldPat>,
    here: Place,
    variant: u32,
    bounds: &mut IndexSet<Bound<'a>>,
) -> Result<Option<NodeFault>, NoMemory>
    requires file { IsOfFile table.now }
    requires of { IsOf table.now here.ty }
    requires held { AreHeld table.now bounds.old.keys }
    ensures held { OnOk result (AreHeld table.now bounds.new.keys) }
    ensures told { is_tuple (table_type table.now here.ty) ≡ false → IfOk result (BoundsAre table.now
        (bounds_view table.now bounds.old.keys) (bounds_view table.now bounds.new.keys) (λ s before.
        field_nodes s before
        (types_of_parts (table_program table.now) (table_type table.now here.ty) variant) here.mode
        (names_of_variant (type_variant (table_program table.now) (table_type table.now here.ty) variant))
        (fields_from (map field_view fields.now.items)))) }
{
    let mut found = None;
    for field in fields {
        let there = Place {
            ty: field_type(table, here.ty, variant, &field.name),
            mode: here.mode,
        };
        let next = gather(alloc, table, &field.pat, there, bounds)?;
        found = earlier(found, next);
    }
    Ok(found)
}

// The same of the items of a slice pattern.
#[cycle(gather)]
fn gather_items<'a>(
    alloc: Global,
    table: &TypeTable,
    items: &'a Vec<Pat>,
    here: Place,
    bounds: &mut IndexSet<Bound<'a>>,
) -> Result<Option<NodeFault>, NoMemory>
    requires file { IsOfFile table.now }
    requires of { IsOf table.now here.ty }
    requires held { AreHeld table.now bounds.old.keys }
    ensures held { OnOk result (AreHeld table.now bounds.new.keys) }
    ensures told { IfOk result (BoundsAre table.now (bounds_view table.now bounds.old.keys)
        (bounds_view table.now bounds.new.keys) (λ s before. item_nodes s before (table_type table.now here.ty)
        (pattern_count (patterns_from (map pattern_view items.now.items))) here.mode
        (patterns_from (map pattern_view items.now.items)))) }
{
    let there = Place {
        ty: inner(table, here.ty),
        mode: here.mode,
    };
    let mut found = None;
    for item in items {
        if is_rest(item) {
            bind_rest(table, item, here, items.len(), bounds)?;
        } else {
            let next = gather(alloc, table, item, there, bounds)?;
            found = earlier(found, next);
        }
    }
    Ok(found)
}

// Adds what a rest among so many items binds.
fn bind_rest<'a>(
    table: &TypeTable,
    item: &'a Pat,
    here: Place,
    count: usize,
    bounds: &mut IndexSet<Bound<'a>>,
) -> Result<(), NoMemory>
    requires file { IsOfFile table.now }
    requires of { IsOf table.now here.ty }
    requires held { AreHeld table.now bounds.old.keys }
    ensures held { OnOk result (AreHeld table.now bounds.new.keys) }
    ensures told { OnOk result ((s : Setting) (before : List (List ℕ)) → IsSettingOf table.now s →
        is_rest (pattern_view item.now) ≡ true → Told s (bounds_view table.now bounds.old.keys)
        (bounds_view table.now bounds.new.keys) None (nodes s AsItem before
        (place (rest_type (table_type table.now here.ty) count) here.mode) (pattern_view item.now))) }
{
    let taken = (count as u64).saturating_sub(1);
    bind_own(table, &item.kind, here, taken, bounds)
}

// The same of an or-pattern with these alternatives.
#[cycle(gather)]
fn gather_alternatives<'a>(
    alloc: Global,
    table: &TypeTable,
    from: u64,
    all: &'a Vec<Pat>,
    here: Place,
    bounds: &mut IndexSet<Bound<'a>>,
) -> Result<Option<NodeFault>, NoMemory>
    requires file { IsOfFile table.now }
    requires of { IsOf table.now here.ty }
    requires held { AreHeld table.now bounds.old.keys }
    ensures held { OnOk result (AreHeld table.now bounds.new.keys) }
    ensures told { IfOk result (BoundsWithin table.now (bounds_view table.now bounds.old.keys)
        (bounds_view table.now bounds.new.keys) from (Or (patterns_from (map pattern_view all.now.items)))
        (place (table_type table.now here.ty) here.mode)) }
{
    let mut first = IndexSet::new(alloc);
    let mut found = None;
    let mut seen = false;
    let mut differ = false;
    for alternative in all {
        let mut own = IndexSet::new(alloc);
        let next = gather(alloc, table, alternative, here, &mut own)?;
        found = earlier(found, next);
        add_all(table, bounds, own.as_slice())?;
        let other = differs(alloc, table, seen, &mut first, own.as_slice())?;
        differ = differ || other;
        seen = true;
    }
    Ok(earlier(differ_fault(from, differ), found))
}

// Whether an alternative binds otherwise than the first one. Where none was seen yet it is the first one itself, and
// what it binds is noted.
fn differs<'a>(
    alloc: Global,
    table: &TypeTable,
    seen: bool,
    first: &mut IndexSet<Bound<'a>>,
    own: &[Bound<'a>],
) -> Result<bool, NoMemory>
    requires first { AreHeld table.now first.old.keys }
    requires own { AreHeld table.now own.now }
    ensures held { OnOk result (AreHeld table.now first.new.keys) }
    ensures is { IfOk result (IsFirst seen (bounds_view table.now first.old.keys) (bounds_view table.now first.new.keys)
        (bounds_view table.now own.now)) }
{
    if seen {
        let alike = bind_alike(alloc, table, first.as_slice(), own)?;
        return Ok(!alike);
    }
    add_all(table, first, own)?;
    Ok(false)
}

// The fault of an or-pattern whose alternatives do not all bind the same.
fn differ_fault(from: u64, differ: bool) -> Option<NodeFault>
    ensures { result ≡ fault_at from (pick differ 31 None) }
{
    if differ {
        Some(NodeFault { rule: 31, at: from })
    } else {
        None
    }
}
