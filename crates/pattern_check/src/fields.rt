//! The fields of what a path in a pattern finds, where the type is that struct or enum.
ghost use Rattle.std.specs.Prelude.{◌≡◌, false, map, string_bytes, option_map, position, IfOk};
ghost use Rattle.std.specs.Fmt.{decimal};
ghost use Rattle.std.specs.Str.{bytes_eq};
ghost use Rattle.type_names.specs.Finding.{FoundTree};
ghost use Rattle.type_table.specs.Paths.{FoundIs};
ghost use Rattle.type_table.specs.Lookups.{name_or_number, field_names as variant_names};
ghost use Rattle.type_table.specs.Tables.{IsOf, table_program, table_type, type_variant};
ghost use Rattle.pattern_rules.specs.Settings.{Setting};
ghost use Rattle.pattern_rules.specs.Namings.{field_names, fields_found};
ghost use Rattle.pattern_rules.specs.NodeRules.{is_tuple};
ghost use Rattle.match_model.specs.Declarations.{node_types};
ghost use Rattle.match_model.specs.RustTypes.{part_type};
ghost use Rattle.pattern_check.specs.Checking.{IsSettingOf, IsMet};

use crate::names::found_number;
use itoa::Buffer;
use no_memory::NoMemory;
use std::alloc::Global;
use type_table::{Found, TyId, TypeTable};

/// How many fields it has.
pub fn field_count(table: &TypeTable, found: &Found, ty: TyId) -> u32
    requires { IsOf table.now ty }
    ensures { (s : Setting) (told : FoundTree) → IsSettingOf table.now s → FoundIs table.now told found.now →
        IsMet s told (table_type table.now ty) → result ≡ fields_found s.items told }
{
    table.types_are_sound();
    table.fields(ty, found_number(table, found))
}

/// The number of the field of this name, counted from 0. Its time grows as the fields do.
pub fn field_number(table: &TypeTable, found: &Found, ty: TyId, name: &str) -> Option<u32>
    requires { IsOf table.now ty }
    ensures { (s : Setting) (told : FoundTree) → IsSettingOf table.now s → FoundIs table.now told found.now →
        IsMet s told (table_type table.now ty)
        → result ≡ position (λ n. bytes_eq name.now n) (field_names s.items told) }
{
    table.types_are_sound();
    table.field_named(ty, found_number(table, found), name)
}

/// The names of the fields of a variant of the type, in order of declaration; those of a tuple form are `0`, `1` and so
/// on. The only error is want of memory.
pub fn variant_names(
    alloc: Global,
    table: &TypeTable,
    ty: TyId,
    variant: u32,
) -> Result<Vec<String>, NoMemory>
    requires of { IsOf table.now ty }
    requires named { is_tuple (table_type table.now ty) ≡ false }
    ensures { IfOk result (λ v. map string_bytes v.items
        ≡ variant_names (type_variant (table_program table.now) (table_type table.now ty) variant)) }
{
    let mut names = Vec::new(alloc);
    for i in 0..table.fields(ty, variant) {
        names.push(name_or_number(alloc, table.field_name(ty, variant, i), i)?)?;
    }
    Ok(names)
}

// The name, or where there is none the number.
fn name_or_number(alloc: Global, name: Option<&str>, number: u32) -> Result<String, NoMemory>
    ensures { IfOk result (λ s. string_bytes s ≡ name_or_number (option_map (λ n. n.now) name.entry) number) }
{
    match name {
        Some(name) => Ok(String::from_str(alloc, name)?),
        None => number_name(alloc, number),
    }
}

// The number as it is written in decimal.
fn number_name(alloc: Global, number: u32) -> Result<String, NoMemory>
    ensures { IfOk result (λ s. string_bytes s ≡ decimal number) }
{
    let mut buffer = Buffer::new();
    Ok(String::from_str(alloc, buffer.format(number))?)
}

/// The type of a part of a tuple, or of a field of a variant; where there is no such part it is the type itself.
pub fn part(table: &TypeTable, ty: TyId, variant: u32, i: usize) -> TyId
    requires { IsOf table.now ty }
    ensures of { IsOf table.now result }
    ensures is { table_type table.now result ≡ part_type (table_type table.now ty)
        (node_types (table_program table.now) (table_type table.now ty) variant) i }
{
    if i < table.fields(ty, variant) as usize {
        table.field(ty, variant, i as u32)
    } else {
        ty
    }
}
