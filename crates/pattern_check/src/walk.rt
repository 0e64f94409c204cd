//! The first node of a pattern that breaks a rule.
ghost use Rattle.std.specs.Prelude.{◌≡◌, false, ◌<◌, ◌^◌, ◌-◌, ◌≤◌, ℕ, suc, map, if◌then◌else◌, IfOk};
ghost use Rattle.decl_syntax.specs.Patterns.{pattern_view, shape_view, patterns_from, field_view, fields_from};
ghost use Rattle.decl_syntax.specs.Widths.{pattern_count};
ghost use Rattle.match_model.specs.RustTypes.{inner_type};
ghost use Rattle.match_model.specs.declared.Mode.TheVariants.{Move};
ghost use Rattle.type_table.specs.Lookups.{field_names as names_of_variant};
ghost use Rattle.type_table.specs.Tables.{IsOf, table_program, table_type, fields_of_type, type_variant};
ghost use Rattle.pattern_rules.specs.Settings.{place};
ghost use Rattle.pattern_rules.specs.Nodes.{nodes, part_nodes, field_nodes, item_nodes, alternative_nodes};
ghost use Rattle.pattern_rules.specs.Nodes.{names_bound, names_of_all, names_of_fields, is_rest, field_standing};
ghost use Rattle.pattern_rules.specs.Namings.{field_number};
ghost use Rattle.pattern_rules.specs.NodeRules.{is_tuple};
ghost use Rattle.pattern_check.specs.Checking.{IsOfFile};
ghost use Rattle.pattern_check.specs.NodeForms.{standing_view};
ghost use Rattle.pattern_check.specs.Walks.{text_at, FirstIs, FirstWithin, NamesAre, inner_names, types_of_parts};

use crate::bound::{bind_own, put_back, set_aside};
use crate::fault::NodeFault;
use crate::fields::part;
use crate::names::{found_number, path_found};
use crate::own_fault::{Standing, least_broken};
use crate::types::{Place, bottom, inner};
use decl_syntax::{FieldPat, Pat, PatKind};
use indexmap::IndexSet;
use match_model::Mode;
use no_memory::NoMemory;
use pattern_rules::Edition;
use pattern_rules::lists::is_rest;
use std::alloc::Global;
use type_table::{TyId, TypeTable};

/// The first node of a pattern that breaks a rule by itself, rule 31 left out, with its least rule. `names` are bound
/// before it, and where no rule is broken those of the pattern are added. The only error is want of memory.
#[cycle(walk)]
pub fn walk_pattern<'a>(
    alloc: Global,
    table: &TypeTable,
    edition: Edition,
    pat: &'a Pat,
    standing: Standing,
    here: Place,
    names: &mut IndexSet<&'a str>,
) -> Result<Option<NodeFault>, NoMemory>
    requires file { IsOfFile table.now }
    requires of { IsOf table.now here.ty }
    ensures fault { IfOk result (FirstIs table.now edition (map text_at names.old.keys) (λ s before.
        nodes s (standing_view standing) before (place (table_type table.now here.ty) here.mode)
        (pattern_view pat.now))) }
    ensures names { IfOk result (NamesAre table.now (map text_at names.old.keys) (map text_at names.new.keys)
        (λ s. names_bound s (pattern_view pat.now))) }
{
    let twice = bind_own(table, &pat.kind, names)?;
    if let Some(rule) = least_broken(alloc, table, edition, &pat.kind, standing, here, twice)? {
        return Ok(Some(NodeFault { rule, at: pat.from }));
    }
    walk_within(alloc, table, edition, &pat.kind, here, names)
}

// The same of the nodes below one of this form, which breaks no rule by itself.
#[cycle(walk)]
fn walk_within<'a>(
    alloc: Global,
    table: &TypeTable,
    edition: Edition,
    kind: &'a PatKind,
    here: Place,
    names: &mut IndexSet<&'a str>,
) -> Result<Option<NodeFault>, NoMemory>
    requires file { IsOfFile table.now }
    requires of { IsOf table.now here.ty }
    ensures fault { IfOk result (FirstWithin table.now edition (map text_at names.old.keys)
        (shape_view kind.now) (table_type table.now here.ty) here.mode) }
    ensures names { IfOk result (NamesAre table.now (map text_at names.old.keys) (map text_at names.new.keys)
        (λ s. inner_names s (shape_view kind.now))) }
{
    match kind {
        PatKind::Wild => Ok(None),
        PatKind::Rest => Ok(None),
        PatKind::Lit(_) => Ok(None),
        PatKind::Range(_) => Ok(None),
        PatKind::Name(_) => Ok(None),
        PatKind::Path(_) => Ok(None),
        PatKind::Bind { sub, .. } => match sub {
            Some(sub) => walk_pattern(alloc, table, edition, sub, Standing::Elsewhere, here, names),
            None => Ok(None),
        },
        PatKind::TupleForm { path, items } => {
            table.types_are_sound();
            let variant = found_number(table, &path_found(table, path));
            walk_parts(
                alloc,
                table,
                edition,
                items,
                bottom(table, here),
                variant,
                names,
            )
        }
        PatKind::Brace { path, fields, .. } => {
            table.types_are_sound();
            let variant = found_number(table, &path_found(table, path));
            walk_fields(
                alloc,
                table,
                edition,
                fields,
                bottom(table, here),
                variant,
                names,
            )
        }
        PatKind::Tuple(items) => walk_parts(
            alloc,
            table,
            edition,
            items,
            bottom(table, here),
            0,
            names,
        ),
        PatKind::Group(sub) => walk_pattern(
            alloc,
            table,
            edition,
            sub,
            Standing::Elsewhere,
            here,
            names,
        ),
        PatKind::Slice(items) => walk_items(
            alloc,
            table,
            edition,
            items,
            bottom(table, here),
            names,
        ),
        PatKind::Point { inner: sub, .. } => walk_pattern(
            alloc,
            table,
            edition,
            sub,
            Standing::Elsewhere,
            pointed(table, here),
            names,
        ),
        PatKind::Or(all) => walk_alternatives(alloc, table, edition, all, here, names),
    }
}

/// The place behind a written `&`.
pub(crate) fn pointed(table: &TypeTable, here: Place) -> Place
    requires { IsOf table.now here.ty }
    ensures of { IsOf table.now result.ty }
    ensures ty { table_type table.now result.ty ≡ inner_type (table_type table.now here.ty) }
    ensures mode { result.mode ≡ Move }
{
    Place {
        ty: inner(table, here.ty),
        mode: Mode::Move,
    }
}

// The same of the items of a tuple or tuple form, whose parts are those of the variant.
#[cycle(walk)]
fn walk_parts<'a>(
    alloc: Global,
    table: &TypeTable,
    edition: Edition,
    items: &'a Vec<Pat>,
    here: Place,
    variant: u32,
    names: &mut IndexSet<&'a str>,
) -> Result<Option<NodeFault>, NoMemory>
    requires file { IsOfFile table.now }
    requires of { IsOf table.now here.ty }
    ensures fault { IfOk result (FirstIs table.now edition (map text_at names.old.keys) (λ s before. part_nodes s before
        (types_of_parts (table_program table.now) (table_type table.now here.ty) variant) here.mode
        (fields_of_type (table_program table.now) (table_type table.now here.ty) variant) 0
        (patterns_from (map pattern_view items.now.items)))) }
    ensures names { IfOk result (NamesAre table.now (map text_at names.old.keys) (map text_at names.new.keys)
        (λ s. names_of_all s (patterns_from (map pattern_view items.now.items)))) }
{
    let parts = table.fields(here.ty, variant) as usize;
    let mut left = items.len();
    let mut number = 0;
    for item in items {
        left -= 1;
        let there = Place {
            ty: part(table, here.ty, variant, number),
            mode: here.mode,
        };
        let fault = walk_pattern(
            alloc,
            table,
            edition,
            item,
            Standing::Elsewhere,
            there,
            names,
        )?;
        if fault.is_some() {
            return Ok(fault);
        }
        number = part_behind(parts, number, left, item);
    }
    Ok(None)
}

/// Which part the item behind this one is: behind a rest the items count from the last part.
pub(crate) fn part_behind(parts: usize, number: usize, left: usize, item: &Pat) -> usize
    requires { number < 2 ^ 64 - 1 }
    ensures is { result ≡ (if is_rest (pattern_view item.now) then parts - left else suc number) }
    ensures below { (k : ℕ) → number < k → parts ≤ k → result ≤ k }
{
    if is_rest(item) {
        parts.saturating_sub(left)
    } else {
        number + 1
    }
}

// The same of the fields of a brace pattern, whose form is that of the variant.
#[cycle(walk)]
fn walk_fields<'a>(
    alloc: Global,
    table: &TypeTable,
    edition: Edition,
    fields: &'a Vec<FieldPat>,
    here: Place,
    variant: u32,
    names: &mut IndexSet<&'a str>,
) -> Result<Option<NodeFault>, NoMemory>
    requires file { IsOfFile table.now }
    requires of { IsOf table.now here.ty }
    ensures fault { is_tuple (table_type table.now here.ty) ≡ false →
        IfOk result (FirstIs table.now edition (map text_at names.old.keys) (λ s before. field_nodes s before
        (types_of_parts (table_program table.now) (table_type table.now here.ty) variant) here.mode
        (names_of_variant (type_variant (table_program table.now) (table_type table.now here.ty) variant))
        (fields_from (map field_view fields.now.items)))) }
    ensures names { IfOk result (NamesAre table.now (map text_at names.old.keys) (map text_at names.new.keys)
        (λ s. names_of_fields s (fields_from (map field_view fields.now.items)))) }
{
    for field in fields {
        let there = Place {
            ty: field_type(table, here.ty, variant, &field.name),
            mode: here.mode,
        };
        let fault = walk_pattern(
            alloc,
            table,
            edition,
            &field.pat,
            field_standing(field.short),
            there,
            names,
        )?;
        if fault.is_some() {
            return Ok(fault);
        }
    }
    Ok(None)
}

/// The type of the field of this name; where there is none it is the type itself.
pub(crate) fn field_type(table: &TypeTable, ty: TyId, variant: u32, name: &str) -> TyId
    requires { IsOf table.now ty }
    ensures of { IsOf table.now result }
    ensures is { is_tuple (table_type table.now ty) ≡ false → table_type table.now result
        ≡ types_of_parts (table_program table.now) (table_type table.now ty) variant (field_number
        (names_of_variant (type_variant (table_program table.now) (table_type table.now ty) variant)) name.now) }
{
    match table.field_named(ty, variant, name) {
        Some(i) => part(table, ty, variant, i as usize),
        None => ty,
    }
}

// Where a field stands that is written short or with its label.
fn field_standing(short: bool) -> Standing
    ensures { standing_view result ≡ field_standing short }
{
    if short {
        Standing::AsName
    } else {
        Standing::Elsewhere
    }
}

// The same of the items of a slice pattern.
#[cycle(walk)]
fn walk_items<'a>(
    alloc: Global,
    table: &TypeTable,
    edition: Edition,
    items: &'a Vec<Pat>,
    here: Place,
    names: &mut IndexSet<&'a str>,
) -> Result<Option<NodeFault>, NoMemory>
    requires file { IsOfFile table.now }
    requires of { IsOf table.now here.ty }
    ensures fault { IfOk result (FirstIs table.now edition (map text_at names.old.keys) (λ s before. item_nodes s before
        (table_type table.now here.ty) (pattern_count (patterns_from (map pattern_view items.now.items))) here.mode
        (patterns_from (map pattern_view items.now.items)))) }
    ensures names { IfOk result (NamesAre table.now (map text_at names.old.keys) (map text_at names.new.keys)
        (λ s. names_of_all s (patterns_from (map pattern_view items.now.items)))) }
{
    let there = Place {
        ty: inner(table, here.ty),
        mode: here.mode,
    };
    for item in items {
        let fault = walk_pattern(alloc, table, edition, item, Standing::AsItem, there, names)?;
        if fault.is_some() {
            return Ok(fault);
        }
    }
    Ok(None)
}

// The same of alternatives, none of which has the names of another one before it.
#[cycle(walk)]
fn walk_alternatives<'a>(
    alloc: Global,
    table: &TypeTable,
    edition: Edition,
    all: &'a Vec<Pat>,
    here: Place,
    names: &mut IndexSet<&'a str>,
) -> Result<Option<NodeFault>, NoMemory>
    requires file { IsOfFile table.now }
    requires of { IsOf table.now here.ty }
    ensures fault { IfOk result (FirstIs table.now edition (map text_at names.old.keys) (λ s before. alternative_nodes s
        before (place (table_type table.now here.ty) here.mode) (patterns_from (map pattern_view all.now.items)))) }
    ensures names { IfOk result (NamesAre table.now (map text_at names.old.keys) (map text_at names.new.keys)
        (λ s. names_of_all s (patterns_from (map pattern_view all.now.items)))) }
{
    let count = names.len();
    let mut aside = Vec::new(alloc);
    for alternative in all {
        let fault = walk_pattern(
            alloc,
            table,
            edition,
            alternative,
            Standing::Elsewhere,
            here,
            names,
        )?;
        if fault.is_some() {
            return Ok(fault);
        }
        set_aside(names, count, &mut aside)?;
    }
    put_back(names, &aside)?;
    Ok(None)
}
