// Values without parts.
ghost use Rattle.std.specs.Prelude.{◌≡◌, pos, Bool, true, false, chars, option_map, IfOk};
ghost use Rattle.match_model.specs.declared.IntKind.TheVariants.{U8 as ByteKind};
ghost use Rattle.match_model.specs.Values.{Flag, Num as MNum, Text, Point, Thing, Later, Unseen};
ghost use Rattle.number_kinds.specs.Kinds.{kind_type};
ghost use Rattle.pattern_rules.specs.Literals.{is_char, is_kind, has_suffix_type};
ghost use Rattle.range_split.specs.Numbers.{signed};
ghost use Rattle.tree_eval.specs.Views.{plain_value};
ghost use Rattle.type_table.specs.Tables.{IsOf, table_program, table_type};
ghost use Rattle.value_text.specs.Meanings.{if_value, literal_of};

use crate::types::{
    behind, is_bool, is_constructorless, is_marked, is_opaque, is_str, number_kind,
};
use match_model::IntKind;
use no_memory::NoMemory;
use number_kinds::{NumberKind, has_number};
use range_split::Num;
use std::alloc::Global;
use tree_eval::Value;
use type_names::int_kind;
use type_table::{TyId, TypeTable};

// A flag.
pub(crate) fn flag(table: &TypeTable, ty: TyId, flag: bool) -> Option<Value>
    requires { IsOf table.now ty }
    ensures { (sure : Bool) → option_map plain_value result
        ≡ if_value (table_program table.now) sure (table_type table.now ty) (Flag flag) }
{
    if is_bool(table, ty) {
        Some(Value::Flag(flag))
    } else {
        None
    }
}

// A character.
pub(crate) fn character(table: &TypeTable, ty: TyId, c: char) -> Option<Value>
    requires { IsOf table.now ty }
    ensures { (sure : Bool) → option_map plain_value result ≡ literal_of (is_char (table_type table.now ty))
        (table_program table.now) sure (table_type table.now ty) (MNum (pos c)) }
{
    match number_kind(table, ty) {
        Some(NumberKind::Char) => {
            let code = u32::from(c);
            number(table, ty, NumberKind::Char, false, u128::from(code))
        }
        Some(NumberKind::Int(_)) => None,
        None => None,
    }
}

// A byte.
pub(crate) fn byte(table: &TypeTable, ty: TyId, byte: u8) -> Option<Value>
    requires { IsOf table.now ty }
    ensures { (sure : Bool) → option_map plain_value result ≡ literal_of (is_kind ByteKind (table_type table.now ty))
        (table_program table.now) sure (table_type table.now ty) (MNum (pos byte)) }
{
    match number_kind(table, ty) {
        Some(NumberKind::Char) => None,
        Some(NumberKind::Int(kind)) => {
            if IntKind::U8 == kind {
                number(table, ty, NumberKind::Int(kind), false, u128::from(byte))
            } else {
                None
            }
        }
        None => None,
    }
}

// An integer with a suffix, which may be empty.
pub(crate) fn integer(
    table: &TypeTable,
    ty: TyId,
    negative: bool,
    size: u128,
    suffix: &str,
) -> Option<Value>
    requires { IsOf table.now ty }
    ensures { (sure : Bool) → option_map plain_value result
        ≡ literal_of (has_suffix_type suffix.now (table_type table.now ty))
        (table_program table.now) sure (table_type table.now ty) (MNum (signed negative size)) }
{
    match number_kind(table, ty) {
        Some(NumberKind::Char) => None,
        Some(NumberKind::Int(kind)) => {
            if suffix_fits(suffix, kind) {
                number(table, ty, NumberKind::Int(kind), negative, size)
            } else {
                None
            }
        }
        None => None,
    }
}

// Whether there is no suffix, or it names the integer type.
fn suffix_fits(suffix: &str, kind: IntKind) -> bool
    ensures { result ≡ has_suffix_type suffix.now (kind_type (NumberKind.Int kind)) }
{
    if suffix.is_empty() {
        return true;
    }
    match int_kind(suffix) {
        Some(named) => named == kind,
        None => false,
    }
}

// The number, if it is one of the type.
fn number(
    table: &TypeTable,
    ty: TyId,
    kind: NumberKind,
    negative: bool,
    size: u128,
) -> Option<Value>
    requires { table_type table.now ty ≡ kind_type kind }
    ensures { (sure : Bool) → option_map plain_value result
        ≡ if_value (table_program table.now) sure (table_type table.now ty) (MNum (signed negative size)) }
{
    let number = Num::new(negative, size);
    if has_number(table.width(), kind, &number) {
        Some(Value::Num(number))
    } else {
        None
    }
}

// A reference to a text.
pub(crate) fn text_behind(
    alloc: Global,
    table: &TypeTable,
    ty: TyId,
    text: &str,
) -> Result<Option<Value>, NoMemory>
    requires { IsOf table.now ty }
    ensures { (sure : Bool) → IfOk result (λ o. option_map plain_value o
        ≡ if_value (table_program table.now) sure (table_type table.now ty) (Point false (Text (chars text.now)))) }
{
    let Some(inner) = behind(table, ty, false) else {
        return Ok(None);
    };
    let value = self::text(alloc, table, inner, text)?;
    let new = refer(alloc, false, value)?;
    Ok(new)
}

// A reference to the value that may be there.
pub(crate) fn refer(
    alloc: Global,
    mutable: bool,
    value: Option<Value>,
) -> Result<Option<Value>, NoMemory>
    ensures { IfOk result (λ o. option_map plain_value o
        ≡ option_map (Point mutable) (option_map plain_value value)) }
{
    match value {
        Some(value) => Ok(Some(Value::Point {
            mutable,
            inner: Box::new(alloc, value)?,
        })),
        None => Ok(None),
    }
}

// A text.
pub(crate) fn text(
    alloc: Global,
    table: &TypeTable,
    ty: TyId,
    text: &str,
) -> Result<Option<Value>, NoMemory>
    requires { IsOf table.now ty }
    ensures { (sure : Bool) → IfOk result (λ o. option_map plain_value o
        ≡ if_value (table_program table.now) sure (table_type table.now ty) (Text (chars text.now))) }
{
    if is_str(table, ty) {
        Ok(Some(Value::Text(String::from_str(alloc, text)?)))
    } else {
        Ok(None)
    }
}

// A value that is not looked into.
pub(crate) fn thing(table: &TypeTable, ty: TyId) -> Option<Value>
    requires { IsOf table.now ty }
    ensures { (sure : Bool) → option_map plain_value result
        ≡ if_value (table_program table.now) sure (table_type table.now ty) Thing }
{
    if is_opaque(table, ty) {
        Some(Value::Thing)
    } else {
        None
    }
}

// A variant that is not declared yet.
pub(crate) fn later(table: &TypeTable, ty: TyId) -> Option<Value>
    requires { IsOf table.now ty }
    ensures { (sure : Bool) → option_map plain_value result
        ≡ if_value (table_program table.now) sure (table_type table.now ty) Later }
{
    if is_marked(table, ty) {
        Some(Value::Later)
    } else {
        None
    }
}

// What stands at a place of a type without constructors, where no valid value need be.
pub(crate) fn unseen(table: &TypeTable, ty: TyId, sure: bool) -> Option<Value>
    requires { IsOf table.now ty }
    ensures { option_map plain_value result
        ≡ if_value (table_program table.now) sure (table_type table.now ty) Unseen }
{
    if !sure && is_constructorless(table, ty) {
        Some(Value::Unseen)
    } else {
        None
    }
}
