// The forms of structs and variants, with their names.
ghost use Rattle.std.specs.Prelude.{◌≡◌, false, Some, option_map, IsSome};
ghost use Rattle.type_table.specs.Tables.{IsOf, table_program, table_type, type_variant, is_struct_type};
ghost use Rattle.witness_text.specs.Trees.{name_view};
ghost use Rattle.type_names.specs.Views.{owner_view};
ghost use Rattle.type_table.specs.Readers.{enum_owner, type_owner};
ghost use Rattle.witness_names.specs.Lookups.{built_in_owner, form_view, form_there, name_there, IsDeclaredStruct};
ghost use Rattle.witness_names.specs.Named.{IsOfFile, built_in_name, name_by};

use crate::Paths;
use type_table::{FormKind, Found, Owner, TyId, TyKind, TypeTable};
use witness_text::FormName;

// The form of the type's variant with this number, counted from 0, if there is one; a struct has the variant 0. The
// name is as `paths` says.
pub(crate) fn form_of<'t>(
    paths: Paths,
    table: &'t TypeTable,
    ty: TyId,
    variant: u32,
) -> Option<(FormKind, FormName<'t>)>
    requires of { IsOf table.now ty }
    requires file { IsOfFile table.now }
    ensures { option_map form_view result
        ≡ form_there paths (table_program table.now) (table_type table.now ty) variant }
{
    match table.kind(ty) {
        TyKind::Struct(_) => struct_form(paths, table, ty, variant),
        TyKind::Enum { count, .. } => {
            if variant < count {
                enum_form(paths, table, ty, variant)
            } else {
                None
            }
        }
        _ => None,
    }
}

// The name by which a report shows the type's variant with this number, counted from 0, if there is one; a struct has
// the variant 0.
pub(crate) fn name_of<'t>(table: &'t TypeTable, ty: TyId, variant: u32) -> Option<FormName<'t>>
    requires of { IsOf table.now ty }
    requires file { IsOfFile table.now }
    ensures { option_map name_view result
        ≡ name_there (table_program table.now) (table_type table.now ty) variant }
{
    match form_of(Paths::Short, table, ty, variant) {
        Some((_, name)) => Some(name),
        None => None,
    }
}

// The form of a struct, whose variant is 0.
fn struct_form<'t>(
    paths: Paths,
    table: &'t TypeTable,
    ty: TyId,
    variant: u32,
) -> Option<(FormKind, FormName<'t>)>
    requires of { IsOf table.now ty }
    requires file { IsOfFile table.now }
    requires is { IsDeclaredStruct (table_program table.now) (table_type table.now ty) }
    ensures { option_map form_view result
        ≡ form_there paths (table_program table.now) (table_type table.now ty) variant }
{
    if variant != 0 {
        return None;
    }
    let kind = table.form(&Found::Struct(ty))?;
    Some((kind, FormName::Plain(table.variant_name(ty, 0))))
}

// The form of the enum's variant with this number.
fn enum_form<'t>(
    paths: Paths,
    table: &'t TypeTable,
    ty: TyId,
    variant: u32,
) -> Option<(FormKind, FormName<'t>)>
    requires of { IsOf table.now ty }
    requires file { IsOfFile table.now }
    requires is { is_struct_type (table_program table.now) (table_type table.now ty) ≡ false }
    requires there { IsSome (type_variant (table_program table.now) (table_type table.now ty) variant) }
    ensures { option_map form_view result
        ≡ form_there paths (table_program table.now) (table_type table.now ty) variant }
{
    let owner = table.owner(ty)?;
    let kind = table.form(&Found::Variant { owner, variant })?;
    Some((kind, variant_name(paths, table, ty, owner, variant)))
}

// The name of the variant with this number of this enum: behind the enum's name, where an item declares it.
fn variant_name<'t>(
    paths: Paths,
    table: &'t TypeTable,
    ty: TyId,
    owner: Owner,
    number: u32,
) -> FormName<'t>
    requires of { IsOf table.now ty }
    requires is { is_struct_type (table_program table.now) (table_type table.now ty) ≡ false }
    requires there { IsSome (type_variant (table_program table.now) (table_type table.now ty) number) }
    requires owned { Some (owner_view owner) ≡ enum_owner (table_program table.now) (type_owner (table_type table.now ty)) }
    ensures { option_map (λ v. name_by paths (table_program table.now) (table_type table.now ty) v.name)
        (type_variant (table_program table.now) (table_type table.now ty) number) ≡ Some (name_view result) }
{
    let variant = table.variant_name(ty, number);
    match table.owner_name(ty) {
        Some(owner) => FormName::Variant { owner, variant },
        None => built_in_name(paths, owner, variant),
    }
}

// The name of a variant of `Option` or `Result`: alone, or behind its enum's.
fn built_in_name<'t>(paths: Paths, owner: Owner, variant: &'t str) -> FormName<'t>
    ensures { name_view result ≡ built_in_name paths (built_in_owner (owner_view owner)) variant.now }
{
    match paths {
        Paths::Short => FormName::Plain(variant),
        Paths::Whole => FormName::Variant {
            owner: built_in_owner(owner),
            variant,
        },
    }
}

// The name of an enum that every program has.
fn built_in_owner(owner: Owner) -> &'static str
    ensures { result.now ≡ built_in_owner (owner_view owner) }
{
    match owner {
        Owner::Result => "Result",
        _ => "Option",
    }
}
