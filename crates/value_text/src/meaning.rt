// Which value of a type a written value is.
ghost use Rattle.std.specs.Prelude.{◌≡◌, Bool, option_map, IfOk};
ghost use Rattle.tree_eval.specs.Views.{plain_value};
ghost use Rattle.type_table.specs.Tables.{IsOf, table_program, table_type};
ghost use Rattle.value_syntax.specs.Trees.{WrittenPoint, WrittenTuple, WrittenRow, WrittenUnitForm};
ghost use Rattle.value_syntax.specs.Trees.{WrittenTupleForm, WrittenBraceForm};
ghost use Rattle.value_syntax.specs.Trees.{written_view, path_view, values_view, fields_view};
ghost use Rattle.value_text.specs.Names.{IsOfFile};
ghost use Rattle.value_text.specs.Meanings.{meant, meant_parts, meant_items, meant_fields, node, row};
ghost use Rattle.value_text.specs.Lookups.{parts_there, fields_there, plain_values, plain_numbered, IsBrace};

use crate::leaves::{
    byte, character, flag, integer, later, refer, text, text_behind, thing, unseen,
};
use crate::names::{brace_named, field_found, tuple_named, unit_named};
use crate::order::in_order;
use crate::types::{behind, is_tuple, item_of};
use no_memory::NoMemory;
use std::alloc::Global;
use tree_eval::Value;
use type_table::{TyId, TypeTable};
use value_syntax::{WrittenField, WrittenPath, WrittenValue};

// The value of the type that the written value is, if it is one. It goes down level by level.
#[cycle(meaning)]
pub(crate) fn mean(
    alloc: Global,
    table: &TypeTable,
    ty: TyId,
    sure: bool,
    written: &WrittenValue,
) -> Result<Option<Value>, NoMemory>
    requires of { IsOf table.now ty }
    requires file { IsOfFile table.now }
    ensures { IfOk result (λ o. option_map plain_value o
        ≡ meant (table_program table.now) sure (table_type table.now ty) (written_view written.now)) }
{
    match written {
        WrittenValue::Flag(b) => Ok(flag(table, ty, *b)),
        WrittenValue::Char(c) => Ok(character(table, ty, *c)),
        WrittenValue::Byte(b) => Ok(byte(table, ty, *b)),
        WrittenValue::Int {
            negative,
            size,
            suffix,
        } => Ok(integer(table, ty, *negative, *size, suffix)),
        WrittenValue::Str(shown) => text_behind(alloc, table, ty, shown),
        WrittenValue::Text(shown) => text(alloc, table, ty, shown),
        WrittenValue::Opaque => Ok(thing(table, ty)),
        WrittenValue::Later => Ok(later(table, ty)),
        WrittenValue::Unseen => Ok(unseen(table, ty, sure)),
        WrittenValue::Point { mutable, inner } => mean_point(alloc, table, ty, *mutable, inner),
        WrittenValue::Tuple(parts) => mean_tuple(alloc, table, ty, sure, parts),
        WrittenValue::Row(items) => mean_row(alloc, table, ty, sure, items),
        WrittenValue::UnitForm(path) => Ok(mean_unit(alloc, table, ty, path)),
        WrittenValue::TupleForm { path, parts } => mean_tuple_form(
            alloc, table, ty, sure, path, parts,
        ),
        WrittenValue::BraceForm { path, fields } => mean_brace_form(
            alloc, table, ty, sure, path, fields,
        ),
    }
}

// A reference.
#[cycle(meaning)]
fn mean_point(
    alloc: Global,
    table: &TypeTable,
    ty: TyId,
    mutable: bool,
    inner: &WrittenValue,
) -> Result<Option<Value>, NoMemory>
    requires of { IsOf table.now ty }
    requires file { IsOfFile table.now }
    ensures { IfOk result (λ o. (sure : Bool) → option_map plain_value o ≡ meant (table_program table.now) sure
        (table_type table.now ty) (WrittenPoint mutable (written_view inner.now))) }
{
    let Some(place) = behind(table, ty, mutable) else {
        return Ok(None);
    };
    let value = mean(alloc, table, place, false, inner)?;
    refer(alloc, mutable, value)
}

// A tuple.
#[cycle(meaning)]
fn mean_tuple(
    alloc: Global,
    table: &TypeTable,
    ty: TyId,
    sure: bool,
    parts: &[WrittenValue],
) -> Result<Option<Value>, NoMemory>
    requires of { IsOf table.now ty }
    requires file { IsOfFile table.now }
    ensures { IfOk result (λ o. option_map plain_value o ≡ meant (table_program table.now) sure
        (table_type table.now ty) (WrittenTuple (values_view parts.now))) }
{
    if !is_tuple(table, ty) {
        return Ok(None);
    }
    let values = mean_parts(alloc, table, ty, 0, sure, parts)?;
    Ok(node(0, values))
}

// A slice or an array.
#[cycle(meaning)]
fn mean_row(
    alloc: Global,
    table: &TypeTable,
    ty: TyId,
    sure: bool,
    items: &[WrittenValue],
) -> Result<Option<Value>, NoMemory>
    requires of { IsOf table.now ty }
    requires file { IsOfFile table.now }
    ensures { IfOk result (λ o. option_map plain_value o ≡ meant (table_program table.now) sure
        (table_type table.now ty) (WrittenRow (values_view items.now))) }
{
    let Some(item) = item_of(table, ty, items.len()) else {
        return Ok(None);
    };
    let values = mean_items(alloc, table, item, sure, items)?;
    Ok(row(values))
}

// A struct or variant with a list of parts.
#[cycle(meaning)]
fn mean_tuple_form(
    alloc: Global,
    table: &TypeTable,
    ty: TyId,
    sure: bool,
    path: &WrittenPath,
    parts: &[WrittenValue],
) -> Result<Option<Value>, NoMemory>
    requires of { IsOf table.now ty }
    requires file { IsOfFile table.now }
    ensures { IfOk result (λ o. option_map plain_value o ≡ meant (table_program table.now) sure
        (table_type table.now ty) (WrittenTupleForm (path_view path.now) (values_view parts.now))) }
{
    let Some(variant) = tuple_named(table, ty, path) else {
        return Ok(None);
    };
    let values = mean_parts(alloc, table, ty, variant, sure, parts)?;
    Ok(node(variant, values))
}

// A struct or variant with named fields.
#[cycle(meaning)]
fn mean_brace_form(
    alloc: Global,
    table: &TypeTable,
    ty: TyId,
    sure: bool,
    path: &WrittenPath,
    fields: &[WrittenField],
) -> Result<Option<Value>, NoMemory>
    requires of { IsOf table.now ty }
    requires file { IsOfFile table.now }
    ensures { IfOk result (λ o. option_map plain_value o ≡ meant (table_program table.now) sure
        (table_type table.now ty) (WrittenBraceForm (path_view path.now) (fields_view fields.now))) }
{
    let Some(variant) = brace_named(table, ty, path) else {
        return Ok(None);
    };
    let Some(given) = mean_fields(alloc, table, ty, variant, sure, fields)? else {
        return Ok(None);
    };
    let count = table.fields(ty, variant) as usize;
    let values = in_order(alloc, count, given)?;
    Ok(node(variant, values))
}

// The parts of a variant of the type, a tuple's being 0, each of its own type.
#[cycle(meaning)]
fn mean_parts(
    alloc: Global,
    table: &TypeTable,
    ty: TyId,
    variant: u32,
    sure: bool,
    parts: &[WrittenValue],
) -> Result<Option<Vec<Value>>, NoMemory>
    requires of { IsOf table.now ty }
    requires file { IsOfFile table.now }
    ensures { IfOk result (λ o. option_map (λ v. plain_values v.items) o ≡ meant_parts (table_program table.now) sure
        (parts_there (table_program table.now) (table_type table.now ty) variant) (values_view parts.now)) }
{
    let count = table.fields(ty, variant);
    if parts.len() != count as usize {
        return Ok(None);
    }
    let mut values = Vec::with_capacity(alloc, parts.len())?;
    let mut i = 0;
    for part in parts {
        let place = table.field(ty, variant, i);
        let Some(value) = mean(alloc, table, place, sure, part)? else {
            return Ok(None);
        };
        values.push(value)?;
        i += 1;
    }
    Ok(Some(values))
}

// Items, all of one type.
#[cycle(meaning)]
fn mean_items(
    alloc: Global,
    table: &TypeTable,
    item: TyId,
    sure: bool,
    items: &[WrittenValue],
) -> Result<Option<Vec<Value>>, NoMemory>
    requires of { IsOf table.now item }
    requires file { IsOfFile table.now }
    ensures { IfOk result (λ o. option_map (λ v. plain_values v.items) o ≡ meant_items (table_program table.now) sure
        (table_type table.now item) (values_view items.now)) }
{
    let mut values = Vec::with_capacity(alloc, items.len())?;
    for written in items {
        let Some(value) = mean(alloc, table, item, sure, written)? else {
            return Ok(None);
        };
        values.push(value)?;
    }
    Ok(Some(values))
}

// The values of written fields, in the order in which they are written, each with the number of its field.
#[cycle(meaning)]
fn mean_fields(
    alloc: Global,
    table: &TypeTable,
    ty: TyId,
    variant: u32,
    sure: bool,
    fields: &[WrittenField],
) -> Result<Option<Vec<(u32, Value)>>, NoMemory>
    requires of { IsOf table.now ty }
    requires file { IsOfFile table.now }
    requires brace { IsBrace (table_program table.now) (table_type table.now ty) variant }
    ensures { IfOk result (λ o. option_map (λ v. plain_numbered v.items) o ≡ meant_fields (table_program table.now)
        sure (fields_there (table_program table.now) (table_type table.now ty) variant) (fields_view fields.now)) }
{
    let mut given = Vec::with_capacity(alloc, fields.len())?;
    for field in fields {
        let Some((i, place)) = field_found(table, ty, variant, &field.name) else {
            return Ok(None);
        };
        let Some(value) = mean(alloc, table, place, sure, &field.value)? else {
            return Ok(None);
        };
        given.push((i, value))?;
    }
    Ok(Some(given))
}

// A struct or variant without brackets.
fn mean_unit(alloc: Global, table: &TypeTable, ty: TyId, path: &WrittenPath) -> Option<Value>
    requires of { IsOf table.now ty }
    requires file { IsOfFile table.now }
    ensures { (sure : Bool) → option_map plain_value result ≡ meant (table_program table.now) sure
        (table_type table.now ty) (WrittenUnitForm (path_view path.now)) }
{
    let variant = unit_named(table, ty, path)?;
    Some(Value::Node {
        variant,
        parts: Vec::new(alloc),
    })
}

// A tuple, struct or variant of the parts that may be there.
fn node(variant: u32, parts: Option<Vec<Value>>) -> Option<Value>
    ensures { option_map plain_value result
        ≡ option_map (node variant) (option_map (λ v. plain_values v.items) parts) }
{
    match parts {
        Some(parts) => Some(Value::Node { variant, parts }),
        None => None,
    }
}

// A slice or array of the items that may be there.
fn row(items: Option<Vec<Value>>) -> Option<Value>
    ensures { option_map plain_value result ≡ option_map row (option_map (λ v. plain_values v.items) items) }
{
    match items {
        Some(items) => Some(Value::Row(items)),
        None => None,
    }
}
