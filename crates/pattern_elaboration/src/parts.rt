//! The types of the parts of a tuple, struct or variant, and which part an item or field is.
ghost use Rattle.std.specs.Prelude.{◌≡◌, false, ◌<◌, ◌^◌, ◌+◌, ◌-◌, ◌≤◌, ℕ, suc, if◌then◌else◌};
ghost use Rattle.decl_syntax.specs.Patterns.{pattern_view};
ghost use Rattle.match_model.specs.Declarations.{node_types};
ghost use Rattle.match_model.specs.RustTypes.{part_type};
ghost use Rattle.type_table.specs.Lookups.{field_names as names_of_variant};
ghost use Rattle.type_table.specs.Tables.{IsOf, table_program, table_type, type_variant};
ghost use Rattle.pattern_rules.specs.Namings.{field_number};
ghost use Rattle.pattern_rules.specs.Nodes.{is_rest};
ghost use Rattle.pattern_rules.specs.NodeRules.{is_tuple};
ghost use Rattle.pattern_elaboration.specs.Walking.{item_types, item_count};

use crate::types::row_of;
use decl_syntax::Pat;
use pattern_rules::lists::is_rest;
use type_table::{TyId, TypeTable};

/// The type of a part of a tuple, or of a field of a variant; where there is no such part it is the type itself.
pub fn part(table: &TypeTable, ty: TyId, variant: u32, i: usize) -> TyId
    requires { IsOf table.now ty }
    ensures of { IsOf table.now result }
    ensures is { table_type table.now result ≡ part_type (table_type table.now ty)
        (node_types (table_program table.now) (table_type table.now ty) variant) i }
{
    if i < table.fields(ty, variant) as usize {
        table.field(ty, variant, i as u32)
    } else {
        ty
    }
}

/// Which part the item behind this one is: behind a rest the items count from the last part.
pub fn part_behind(parts: usize, number: usize, left: usize, item: &Pat) -> usize
    requires { number < 2 ^ 64 - 1 }
    ensures is { result ≡ (if is_rest (pattern_view item.now) then parts - left else suc number) }
    ensures below { (k : ℕ) → number < k → parts ≤ k → result ≤ k }
{
    if is_rest(item) {
        parts.saturating_sub(left)
    } else {
        number + 1
    }
}

/// The number of the field of this name that a variant has, counted from 0; where there is none, how many it has. Its
/// time grows as the fields do.
pub fn field_number(table: &TypeTable, ty: TyId, variant: u32, name: &str) -> usize
    requires { IsOf table.now ty }
    ensures { is_tuple (table_type table.now ty) ≡ false → result
        ≡ field_number (names_of_variant (type_variant (table_program table.now) (table_type table.now ty) variant))
        name.now }
{
    match table.field_named(ty, variant, name) {
        Some(i) => i as usize,
        None => table.fields(ty, variant) as usize,
    }
}

/// The type of an item of a slice or array, or of a part of a tuple; where there is no such part it is the type itself.
pub fn item_type(table: &TypeTable, ty: TyId, i: usize) -> TyId
    requires { IsOf table.now ty }
    ensures of { IsOf table.now result }
    ensures is { table_type table.now result ≡ item_types (table_program table.now) (table_type table.now ty) i }
{
    match row_of(table, ty) {
        Some((item, _)) => item,
        None => part(table, ty, 0, i),
    }
}

/// The number of parts from which the items behind a rest count: those of a tuple, or for a slice or array the items
/// that are written.
pub fn item_count(table: &TypeTable, ty: TyId, items: usize) -> usize
    requires { IsOf table.now ty }
    ensures is { result ≡ item_count (table_program table.now) (table_type table.now ty) items }
    ensures few { result ≤ items + 2 ^ 32 }
{
    match row_of(table, ty) {
        Some(_) => items,
        None => table.fields(ty, 0) as usize,
    }
}
