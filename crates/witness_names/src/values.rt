// Values with the names by which they are written.
ghost use Rattle.std.specs.Prelude.{◌≡◌, map, chars, encode_utf8_all, string_bytes, IfOk};
ghost use Rattle.match_model.specs.Declarations.{node_types};
ghost use Rattle.match_model.specs.RustTypes.{inner_type};
ghost use Rattle.match_model.specs.Values.{Node, values_of};
ghost use Rattle.range_split.specs.Numbers.{num_value};
ghost use Rattle.tree_eval.specs.Views.{plain_value};
ghost use Rattle.type_table.specs.Tables.{IsOf, table_program, table_type};
ghost use Rattle.value_syntax.specs.Trees.{path_view, written_view, field_view};
ghost use Rattle.witness_text.specs.Trees.{name_view};
ghost use Rattle.witness_names.specs.Named.{IsOfFile, types_there};
ghost use Rattle.witness_names.specs.Lookups.{written_there};
ghost use Rattle.witness_names.specs.NamedValues.{written_integer, written_number, written_point};
ghost use Rattle.witness_names.specs.NamedValues.{written_value, written_parts, written_items};

use crate::Paths;
use crate::forms::form_of;
use crate::numbers::character;
use crate::types::{inner, is_tuple};
use no_memory::NoMemory;
use range_split::Num;
use std::alloc::Global;
use tree_eval::Value;
use type_table::{FormKind, TyId, TyKind, TypeTable};
use value_syntax::{WrittenField, WrittenPath, WrittenValue};
use witness_text::FormName;

/// The value of this type of the table as it is written, with its names: characters as such, other numbers without a
/// suffix, a shared reference to a text as the text's literal, fields in the order in which they are declared. What is
/// not of the type is written all the same. It goes down level by level, and a value that was read from a text has 64
/// levels at most. The only error is want of memory.
#[cycle(values)]
pub fn name_value(
    alloc: Global,
    table: &TypeTable,
    ty: TyId,
    value: &Value,
) -> Result<WrittenValue, NoMemory>
    requires of { IsOf table.now ty }
    requires file { IsOfFile table.now }
    ensures { IfOk result (λ w. written_view w
        ≡ written_value (table_program table.now) (table_type table.now ty) (plain_value value.now)) }
{
    match value {
        Value::Flag(flag) => Ok(WrittenValue::Flag(*flag)),
        Value::Num(number) => Ok(name_number(alloc, table, ty, number)),
        Value::Text(text) => Ok(WrittenValue::Text(copy_text(alloc, text.as_str())?)),
        Value::Node { variant, parts } => name_node(alloc, table, ty, *variant, parts),
        Value::Point {
            mutable,
            inner: behind,
        } => {
            let named = name_value(alloc, table, inner(table, ty), behind)?;
            refer(alloc, *mutable, named)
        }
        Value::Row(items) => Ok(WrittenValue::Row(name_items(alloc, table, ty, items)?)),
        Value::Thing => Ok(WrittenValue::Opaque),
        Value::Later => Ok(WrittenValue::Later),
        Value::Unseen => Ok(WrittenValue::Unseen),
    }
}

// The node of this variant, a tuple's being 0, with the names of its form and its parts.
#[cycle(values)]
fn name_node(
    alloc: Global,
    table: &TypeTable,
    ty: TyId,
    variant: u32,
    parts: &[Value],
) -> Result<WrittenValue, NoMemory>
    requires of { IsOf table.now ty }
    requires file { IsOfFile table.now }
    ensures { IfOk result (λ w. written_view w ≡ written_value (table_program table.now) (table_type table.now ty)
        (Node variant (values_of (map plain_value parts.now)))) }
{
    if variant == 0 && is_tuple(table, ty) {
        let parts = name_parts(alloc, table, ty, variant, parts)?;
        return Ok(WrittenValue::Tuple(parts));
    }
    match form_of(Paths::Short, table, ty, variant) {
        None => Ok(WrittenValue::Unseen),
        Some((FormKind::Unit, name)) => Ok(WrittenValue::UnitForm(path_of(alloc, name)?)),
        Some((FormKind::Tuple, name)) => {
            let path = path_of(alloc, name)?;
            let parts = name_parts(alloc, table, ty, variant, parts)?;
            Ok(WrittenValue::TupleForm { path, parts })
        }
        Some((FormKind::Brace, name)) => {
            let path = path_of(alloc, name)?;
            let fields = name_fields(alloc, table, ty, variant, parts)?;
            Ok(WrittenValue::BraceForm { path, fields })
        }
    }
}

// The parts of a variant, a tuple's being 0, each of its own type.
#[cycle(values)]
fn name_parts(
    alloc: Global,
    table: &TypeTable,
    ty: TyId,
    variant: u32,
    parts: &[Value],
) -> Result<Vec<WrittenValue>, NoMemory>
    requires of { IsOf table.now ty }
    requires file { IsOfFile table.now }
    ensures { IfOk result (λ v. map written_view v.items ≡ written_parts (table_program table.now)
        (types_there (node_types (table_program table.now) (table_type table.now ty) variant))
        (values_of (map plain_value parts.now))) }
{
    let count = table.fields(ty, variant);
    let mut named = Vec::with_capacity(alloc, parts.len())?;
    let mut i = 0;
    for part in parts {
        if i < count {
            let place = table.field(ty, variant, i);
            let value = name_value(alloc, table, place, part)?;
            named.push(value)?;
            i += 1;
        }
    }
    Ok(named)
}

// The fields of a variant of brace form, each with its name and of its own type.
#[cycle(values)]
fn name_fields(
    alloc: Global,
    table: &TypeTable,
    ty: TyId,
    variant: u32,
    parts: &[Value],
) -> Result<Vec<WrittenField>, NoMemory>
    requires of { IsOf table.now ty }
    requires file { IsOfFile table.now }
    ensures { IfOk result (λ v. map field_view v.items ≡ written_there (table_program table.now)
        (table_type table.now ty) variant (values_of (map plain_value parts.now))) }
{
    let count = table.fields(ty, variant);
    let mut fields = Vec::with_capacity(alloc, parts.len())?;
    let mut i = 0;
    for part in parts {
        if i < count {
            let Some(name) = table.field_name(ty, variant, i) else {
                return Ok(fields);
            };
            let name = String::from_str(alloc, name)?;
            let place = table.field(ty, variant, i);
            let value = name_value(alloc, table, place, part)?;
            fields.push(WrittenField { name, value })?;
            i += 1;
        }
    }
    Ok(fields)
}

// The items of a row of this type.
#[cycle(values)]
fn name_items(
    alloc: Global,
    table: &TypeTable,
    ty: TyId,
    items: &[Value],
) -> Result<Vec<WrittenValue>, NoMemory>
    requires of { IsOf table.now ty }
    requires file { IsOfFile table.now }
    ensures { IfOk result (λ v. map written_view v.items ≡ written_items (table_program table.now)
        (inner_type (table_type table.now ty)) (values_of (map plain_value items.now))) }
{
    let item = inner(table, ty);
    let mut all = Vec::with_capacity(alloc, items.len())?;
    for value in items {
        let named = name_value(alloc, table, item, value)?;
        all.push(named)?;
    }
    Ok(all)
}

// A reference to what is written so; a shared one to a text is the literal alone.
fn refer(alloc: Global, mutable: bool, inner: WrittenValue) -> Result<WrittenValue, NoMemory>
    ensures { IfOk result (λ w. written_view w ≡ written_point mutable (written_view inner)) }
{
    match (mutable, inner) {
        (false, WrittenValue::Text(text)) => Ok(WrittenValue::Str(text)),
        (mutable, inner) => Ok(WrittenValue::Point {
            mutable,
            inner: Box::new(alloc, inner)?,
        }),
    }
}

// A number of the type: a character, or an integer without a suffix.
fn name_number(alloc: Global, table: &TypeTable, ty: TyId, number: &Num) -> WrittenValue
    requires { IsOf table.now ty }
    ensures { written_view result ≡ written_number (table_type table.now ty) (num_value number.now) }
{
    match table.kind(ty) {
        TyKind::Char => match character(number) {
            Some(c) => WrittenValue::Char(c),
            None => integer(alloc, number),
        },
        _ => integer(alloc, number),
    }
}

// The number as an integer without a suffix.
fn integer(alloc: Global, number: &Num) -> WrittenValue
    ensures { written_view result ≡ written_integer (num_value number.now) }
{
    WrittenValue::Int {
        negative: number.negative,
        size: number.size,
        suffix: String::new(alloc),
    }
}

// The text again.
fn copy_text(alloc: Global, text: &str) -> Result<String, NoMemory>
    ensures { IfOk result (λ t. string_bytes t ≡ encode_utf8_all (chars text.now)) }
{
    let copy = String::from_str(alloc, text)?;
    Ok(copy)
}

// The name of a form, by itself.
fn path_of(alloc: Global, name: FormName) -> Result<WrittenPath, NoMemory>
    ensures { IfOk result (λ p. path_view p ≡ name_view name.entry) }
{
    match name {
        FormName::Plain(name) => Ok(WrittenPath {
            owner: None,
            name: String::from_str(alloc, name)?,
        }),
        FormName::Variant { owner, variant } => Ok(WrittenPath {
            owner: Some(String::from_str(alloc, owner)?),
            name: String::from_str(alloc, variant)?,
        }),
    }
}
