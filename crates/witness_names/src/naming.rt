// Witnesses with their names.
ghost use Rattle.std.specs.Prelude.{◌≡◌, ◌≤◌, true, map, IfOk};
ghost use Rattle.match_model.specs.Declarations.{node_types};
ghost use Rattle.match_model.specs.RustTypes.{inner_type};
ghost use Rattle.match_model.specs.Witness.{NodeOf, witnesses_of};
ghost use Rattle.type_table.specs.Tables.{IsOf, table_program, table_type};
ghost use Rattle.witnesses.specs.Views.{plain_witness, plain_strings};
ghost use Rattle.witness_text.specs.Trees.{witness_view, texts_view, field_view};
ghost use Rattle.witness_names.specs.Named.{IsOfFile, named_by, parts_by, items_by, row_tree, types_there};
ghost use Rattle.witness_names.specs.Lookups.{fields_there, front_of, back_of};
ghost use Rattle.witness_names.specs.Points.{named_behind, point_kinds, put_behind};
ghost use Rattle.witnesses.specs.Points.{begins_with_point};
ghost use Rattle.witnesses.specs.declared.witness.Witness.{size-Witness};

use crate::Paths;
use crate::forms::form_of;
use crate::numbers::name_numbers;
use crate::types::{inner, is_tuple, pointed};
use no_memory::NoMemory;
use std::alloc::Global;
use type_table::{FormKind, TyId, TyKind, TypeTable};
use witness_text::{NamedField, NamedWitness};
use witnesses::Witness;

/// The witnesses of this type of the table with their names, in their order, as [`name_witness`] names one.
pub fn name_witnesses<'t>(
    alloc: Global,
    paths: Paths,
    table: &'t TypeTable,
    ty: TyId,
    witnesses: &'t [Witness],
) -> Result<Vec<NamedWitness<'t>>, NoMemory>
    requires of { IsOf table.now ty }
    requires file { IsOfFile table.now }
    ensures { IfOk result (λ v. map witness_view v.items
        ≡ map (λ w. named_by paths (table_program table.now) (table_type table.now ty) (plain_witness w))
        witnesses.now) }
{
    let mut all = Vec::with_capacity(alloc, witnesses.len())?;
    for witness in witnesses {
        let named = name_witness(alloc, paths, table, ty, witness)?;
        all.push(named)?;
    }
    Ok(all)
}

// Whether each reference that the witness of this type begins with is mutable.
fn point_kinds(
    alloc: Global,
    table: &TypeTable,
    ty: TyId,
    witness: &Witness,
) -> Result<Vec<bool>, NoMemory>
    requires { IsOf table.now ty }
    ensures { IfOk result (λ v. v.items ≡ point_kinds (plain_witness witness.now) (table_type table.now ty)) }
{
    let mut kinds = Vec::new(alloc);
    let mut behind = ty;
    let mut here = witness;
    while let Witness::Point(inner) = here {
        let Some((mutable, next)) = pointed(table, behind) else {
            return Ok(kinds);
        };
        kinds.push(mutable)?;
        behind = next;
        here = inner;
    }
    Ok(kinds)
}

// What stands behind the references that the witness of this type begins with, and its type.
fn behind_points<'t>(table: &TypeTable, ty: TyId, witness: &'t Witness) -> (TyId, &'t Witness)
    requires { IsOf table.now ty }
    ensures of { IsOf table.now result.0 }
    ensures named { (paths : Paths)
        → named_by paths (table_program table.now) (table_type table.now result.0) (plain_witness result.1.now)
        ≡ named_behind paths (table_program table.now) (plain_witness witness.now) (table_type table.now ty) }
    ensures size { size-Witness result.1.now ≤ size-Witness witness.now }
{
    let mut behind = ty;
    let mut here = witness;
    while let Witness::Point(inner) = here {
        let Some((_mutable, next)) = pointed(table, behind) else {
            return (behind, here);
        };
        behind = next;
        here = inner;
    }
    (behind, here)
}

// The witness with these references around it, the first one outside.
fn put_behind<'t>(
    alloc: Global,
    kinds: Vec<bool>,
    last: NamedWitness<'t>,
) -> Result<NamedWitness<'t>, NoMemory>
    ensures { IfOk result (λ n. witness_view n ≡ put_behind kinds.items (witness_view last.entry)) }
{
    let mut kinds = kinds;
    let mut all = last;
    while let Some(mutable) = kinds.pop() {
        all = NamedWitness::Point {
            mutable,
            inner: Box::new(alloc, all)?,
        };
    }
    Ok(all)
}

/// The witness of this type of the table with its names, those of `Option` and `Result` as `paths` says. Its texts are
/// those of the witness and of the table. It goes down level by level, and through references that follow one another in
/// loops. The only error is want of memory.
#[cycle(naming)]
pub fn name_witness<'t>(
    alloc: Global,
    paths: Paths,
    table: &'t TypeTable,
    ty: TyId,
    witness: &'t Witness,
) -> Result<NamedWitness<'t>, NoMemory>
    requires of { IsOf table.now ty }
    requires file { IsOfFile table.now }
    ensures { IfOk result (λ n. witness_view n
        ≡ named_by paths (table_program table.now) (table_type table.now ty) (plain_witness witness.now)) }
{
    match witness {
        Witness::Any => Ok(NamedWitness::Any),
        Witness::Flag(flag) => Ok(NamedWitness::Flag(*flag)),
        Witness::Span(range) => Ok(name_numbers(table, ty, range)),
        Witness::Text(text) => Ok(NamedWitness::Text(text.as_str())),
        Witness::Else(texts) => Ok(NamedWitness::Else(all_texts(alloc, texts)?)),
        Witness::Node { variant, parts } => name_node(alloc, paths, table, ty, *variant, parts),
        Witness::Point(_) => name_points(alloc, paths, table, ty, witness),
        Witness::Row { longer, .. } => {
            let front = name_front(alloc, paths, table, ty, witness)?;
            let back = name_back(alloc, paths, table, ty, witness)?;
            Ok(row(table, ty, front, *longer, back))
        }
        Witness::Later => Ok(NamedWitness::Later),
    }
}

// A witness of this type that begins with a reference, with its names.
#[cycle(naming)]
fn name_points<'t>(
    alloc: Global,
    paths: Paths,
    table: &'t TypeTable,
    ty: TyId,
    witness: &'t Witness,
) -> Result<NamedWitness<'t>, NoMemory>
    requires of { IsOf table.now ty }
    requires file { IsOfFile table.now }
    requires point { begins_with_point (plain_witness witness.now) ≡ true }
    ensures { IfOk result (λ n. witness_view n
        ≡ named_by paths (table_program table.now) (table_type table.now ty) (plain_witness witness.now)) }
{
    let Witness::Point(inner) = witness else {
        unreachable!();
    };
    let Some((_mutable, next)) = pointed(table, ty) else {
        return Ok(NamedWitness::Any);
    };
    let kinds = point_kinds(alloc, table, ty, witness)?;
    let (behind, here) = behind_points(table, next, inner);
    let last = name_witness(alloc, paths, table, behind, here)?;
    let all = put_behind(alloc, kinds, last)?;
    Ok(all)
}

// The node of this variant, a tuple's being 0, with the names of its form and its parts.
#[cycle(naming)]
fn name_node<'t>(
    alloc: Global,
    paths: Paths,
    table: &'t TypeTable,
    ty: TyId,
    variant: u32,
    parts: &'t [Witness],
) -> Result<NamedWitness<'t>, NoMemory>
    requires of { IsOf table.now ty }
    requires file { IsOfFile table.now }
    ensures { IfOk result (λ n. witness_view n ≡ named_by paths (table_program table.now) (table_type table.now ty)
        (NodeOf variant (witnesses_of (map plain_witness parts.now)))) }
{
    if variant == 0 && is_tuple(table, ty) {
        let parts = name_parts(alloc, paths, table, ty, variant, parts)?;
        return Ok(NamedWitness::Tuple(parts));
    }
    match form_of(paths, table, ty, variant) {
        None => Ok(NamedWitness::Any),
        Some((FormKind::Unit, name)) => Ok(NamedWitness::UnitForm(name)),
        Some((FormKind::Tuple, name)) => {
            let parts = name_parts(alloc, paths, table, ty, variant, parts)?;
            Ok(NamedWitness::TupleForm { name, parts })
        }
        Some((FormKind::Brace, name)) => {
            let fields = name_fields(alloc, paths, table, ty, variant, parts)?;
            Ok(NamedWitness::BraceForm { name, fields })
        }
    }
}

// The parts of a variant, a tuple's being 0, each of its own type.
#[cycle(naming)]
fn name_parts<'t>(
    alloc: Global,
    paths: Paths,
    table: &'t TypeTable,
    ty: TyId,
    variant: u32,
    parts: &'t [Witness],
) -> Result<Vec<NamedWitness<'t>>, NoMemory>
    requires of { IsOf table.now ty }
    requires file { IsOfFile table.now }
    ensures { IfOk result (λ v. map witness_view v.items ≡ parts_by paths (table_program table.now)
        (types_there (node_types (table_program table.now) (table_type table.now ty) variant))
        (witnesses_of (map plain_witness parts.now))) }
{
    let count = table.fields(ty, variant);
    let mut named = Vec::with_capacity(alloc, parts.len())?;
    let mut i = 0;
    for part in parts {
        if i < count {
            let place = table.field(ty, variant, i);
            let witness = name_witness(alloc, paths, table, place, part)?;
            named.push(witness)?;
            i += 1;
        }
    }
    Ok(named)
}

// The fields of a variant of brace form, each with its name and of its own type.
#[cycle(naming)]
fn name_fields<'t>(
    alloc: Global,
    paths: Paths,
    table: &'t TypeTable,
    ty: TyId,
    variant: u32,
    parts: &'t [Witness],
) -> Result<Vec<NamedField<'t>>, NoMemory>
    requires of { IsOf table.now ty }
    requires file { IsOfFile table.now }
    ensures { IfOk result (λ v. map field_view v.items
        ≡ fields_there paths (table_program table.now) (table_type table.now ty) variant (witnesses_of
        (map plain_witness parts.now))) }
{
    let count = table.fields(ty, variant);
    let mut fields = Vec::with_capacity(alloc, parts.len())?;
    let mut i = 0;
    for part in parts {
        if i < count {
            let Some(name) = table.field_name(ty, variant, i) else {
                return Ok(fields);
            };
            let place = table.field(ty, variant, i);
            let witness = name_witness(alloc, paths, table, place, part)?;
            fields.push(NamedField { name, witness })?;
            i += 1;
        }
    }
    Ok(fields)
}

// The first items of a row.
#[cycle(naming)]
fn name_front<'t>(
    alloc: Global,
    paths: Paths,
    table: &'t TypeTable,
    ty: TyId,
    witness: &'t Witness,
) -> Result<Vec<NamedWitness<'t>>, NoMemory>
    requires of { IsOf table.now ty }
    requires file { IsOfFile table.now }
    ensures { IfOk result (λ v. map witness_view v.items ≡ items_by paths (table_program table.now)
        (inner_type (table_type table.now ty)) (front_of (plain_witness witness.now))) }
{
    match witness {
        Witness::Row { front, .. } => name_items(alloc, paths, table, ty, front),
        _ => Ok(Vec::new(alloc)),
    }
}

// The last items of a row.
#[cycle(naming)]
fn name_back<'t>(
    alloc: Global,
    paths: Paths,
    table: &'t TypeTable,
    ty: TyId,
    witness: &'t Witness,
) -> Result<Vec<NamedWitness<'t>>, NoMemory>
    requires of { IsOf table.now ty }
    requires file { IsOfFile table.now }
    ensures { IfOk result (λ v. map witness_view v.items ≡ items_by paths (table_program table.now)
        (inner_type (table_type table.now ty)) (back_of (plain_witness witness.now))) }
{
    match witness {
        Witness::Row { back, .. } => name_items(alloc, paths, table, ty, back),
        _ => Ok(Vec::new(alloc)),
    }
}

// The items of a row of this type.
#[cycle(naming)]
fn name_items<'t>(
    alloc: Global,
    paths: Paths,
    table: &'t TypeTable,
    ty: TyId,
    items: &'t [Witness],
) -> Result<Vec<NamedWitness<'t>>, NoMemory>
    requires of { IsOf table.now ty }
    requires file { IsOfFile table.now }
    ensures { IfOk result (λ v. map witness_view v.items ≡ items_by paths (table_program table.now)
        (inner_type (table_type table.now ty)) (witnesses_of (map plain_witness items.now))) }
{
    let item = inner(table, ty);
    let mut all = Vec::with_capacity(alloc, items.len())?;
    for witness in items {
        let named = name_witness(alloc, paths, table, item, witness)?;
        all.push(named)?;
    }
    Ok(all)
}

// A row of this type by its first and last items.
fn row<'t>(
    table: &TypeTable,
    ty: TyId,
    front: Vec<NamedWitness<'t>>,
    longer: bool,
    back: Vec<NamedWitness<'t>>,
) -> NamedWitness<'t>
    requires { IsOf table.now ty }
    ensures { witness_view result ≡ row_tree (table_type table.now ty) (map witness_view front.entry.items) longer
        (map witness_view back.entry.items) }
{
    match table.kind(ty) {
        TyKind::Slice(_) | TyKind::Array(_, _) => NamedWitness::Row {
            front,
            longer,
            back,
        },
        _ => NamedWitness::Any,
    }
}

// The texts.
fn all_texts<'t>(alloc: Global, texts: &'t [String]) -> Result<Vec<&'t str>, NoMemory>
    ensures { IfOk result (λ v. texts_view v.items ≡ plain_strings texts.now) }
{
    let mut all = Vec::with_capacity(alloc, texts.len())?;
    for text in texts {
        all.push(text.as_str())?;
    }
    Ok(all)
}
