// The structs and variants that paths name at a type, and how they are declared.
ghost use Rattle.std.specs.Prelude.{◌≡◌, false, option_map, IfSome, IsSome};
ghost use Rattle.match_model.specs.Declarations.{variants_of};
ghost use Rattle.type_names.specs.Meanings.{is_name};
ghost use Rattle.type_table.specs.Lookups.{variant_named};
ghost use Rattle.type_table.specs.Tables.{IsOf, table_program, table_type, type_variant, is_struct_type};
ghost use Rattle.value_syntax.specs.Trees.{path_view};
ghost use Rattle.value_text.specs.Names.{IsOfFile, enum_name, path_number, form_named, field_found};
ghost use Rattle.value_text.specs.Names.{unit_of, tuple_of, brace_of};
ghost use Rattle.value_text.specs.Lookups.{kind_there, kind_numbered, if_unit, if_tuple, if_brace};
ghost use Rattle.value_text.specs.Lookups.{parts_there, fields_there, IsBrace, IsDeclaredStruct};

use type_table::{FormKind, Found, Owner, TyId, TyKind, TypeTable};
use value_syntax::WrittenPath;

// The number of the struct or variant of the type that a path names, where it is declared without brackets; that of a
// struct is 0.
pub(crate) fn unit_named(table: &TypeTable, ty: TyId, path: &WrittenPath) -> Option<u32>
    requires of { IsOf table.now ty }
    requires file { IsOfFile table.now }
    ensures { result
        ≡ unit_of (form_named (table_program table.now) (table_type table.now ty) (path_view path.now)) }
{
    if_unit(kind_named(table, ty, path))
}

// The same, where it is declared with a list of parts.
pub(crate) fn tuple_named(table: &TypeTable, ty: TyId, path: &WrittenPath) -> Option<u32>
    requires of { IsOf table.now ty }
    requires file { IsOfFile table.now }
    ensures { option_map (λ k. (k, parts_there (table_program table.now) (table_type table.now ty) k)) result
        ≡ tuple_of (form_named (table_program table.now) (table_type table.now ty) (path_view path.now)) }
{
    if_tuple(kind_named(table, ty, path))
}

// The same, where it is declared with named fields.
pub(crate) fn brace_named(table: &TypeTable, ty: TyId, path: &WrittenPath) -> Option<u32>
    requires of { IsOf table.now ty }
    requires file { IsOfFile table.now }
    ensures fields { option_map (λ k. (k, fields_there (table_program table.now) (table_type table.now ty) k)) result
        ≡ brace_of (form_named (table_program table.now) (table_type table.now ty) (path_view path.now)) }
    ensures brace { IfSome result (IsBrace (table_program table.now) (table_type table.now ty)) }
{
    if_brace(kind_named(table, ty, path))
}

// The number and type of the first field of this name of a variant that is declared with named fields.
pub(crate) fn field_found(
    table: &TypeTable,
    ty: TyId,
    variant: u32,
    name: &str,
) -> Option<(u32, TyId)>
    requires of { IsOf table.now ty }
    requires brace { IsBrace (table_program table.now) (table_type table.now ty) variant }
    ensures of { IfSome result (λ f. IsOf table.now f.1) }
    ensures is { option_map (λ f. (f.0, table_type table.now f.1)) result
        ≡ field_found (fields_there (table_program table.now) (table_type table.now ty) variant) name.now }
{
    let i = table.field_named(ty, variant, name)?;
    Some((i, table.field(ty, variant, i)))
}

// The number, where it is declared without brackets.
fn if_unit(found: Option<(u32, FormKind)>) -> Option<u32>
    ensures { result ≡ if_unit found }
{
    match found {
        Some((k, FormKind::Unit)) => Some(k),
        Some((_, FormKind::Tuple)) => None,
        Some((_, FormKind::Brace)) => None,
        None => None,
    }
}

// The number, where it is declared with a list of parts.
fn if_tuple(found: Option<(u32, FormKind)>) -> Option<u32>
    ensures { result ≡ if_tuple found }
{
    match found {
        Some((_, FormKind::Unit)) => None,
        Some((k, FormKind::Tuple)) => Some(k),
        Some((_, FormKind::Brace)) => None,
        None => None,
    }
}

// The number, where it is declared with named fields.
fn if_brace(found: Option<(u32, FormKind)>) -> Option<u32>
    ensures { result ≡ if_brace found }
{
    match found {
        Some((_, FormKind::Unit)) => None,
        Some((_, FormKind::Tuple)) => None,
        Some((k, FormKind::Brace)) => Some(k),
        None => None,
    }
}

// The struct or variant of the type that a path names: its number, and how it is declared.
fn kind_named(table: &TypeTable, ty: TyId, path: &WrittenPath) -> Option<(u32, FormKind)>
    requires of { IsOf table.now ty }
    requires file { IsOfFile table.now }
    ensures { result ≡ kind_numbered (table_program table.now) (table_type table.now ty)
        (path_number (table_program table.now) (table_type table.now ty) (path_view path.now)) }
{
    let variant = path_number(table, ty, path)?;
    let kind = kind_of(table, ty, variant)?;
    Some((variant, kind))
}

// The number of the struct or variant of the type that a path names.
fn path_number(table: &TypeTable, ty: TyId, path: &WrittenPath) -> Option<u32>
    requires of { IsOf table.now ty }
    requires file { IsOfFile table.now }
    ensures { result
        ≡ path_number (table_program table.now) (table_type table.now ty) (path_view path.now) }
{
    match &path.owner {
        None => first_variant(table, ty, &path.name),
        Some(owner) => {
            if is_enum_named(table, ty, owner) {
                first_variant(table, ty, &path.name)
            } else {
                None
            }
        }
    }
}

// Whether the type is an enum of this name.
fn is_enum_named(table: &TypeTable, ty: TyId, name: &str) -> bool
    requires of { IsOf table.now ty }
    ensures { result ≡ is_name name.now (enum_name (table_program table.now) (table_type table.now ty)) }
{
    match table.owner(ty) {
        Some(Owner::Item(_)) => match table.owner_name(ty) {
            Some(other) => name == other,
            None => false,
        },
        Some(Owner::Option) => name == "Option",
        Some(Owner::Result) => name == "Result",
        None => false,
    }
}

// The number of the first variant of this name.
fn first_variant(table: &TypeTable, ty: TyId, name: &str) -> Option<u32>
    requires of { IsOf table.now ty }
    requires file { IsOfFile table.now }
    ensures { result ≡ variant_named (variants_of (table_program table.now) (table_type table.now ty)) name.now }
{
    table.variant_named(ty, name)
}

// How the type's variant with this number is declared, if there is one; a struct has the variant 0.
fn kind_of(table: &TypeTable, ty: TyId, variant: u32) -> Option<FormKind>
    requires of { IsOf table.now ty }
    requires file { IsOfFile table.now }
    ensures { result ≡ kind_there (type_variant (table_program table.now) (table_type table.now ty) variant) }
{
    match table.kind(ty) {
        TyKind::Struct(_) => {
            if variant == 0 {
                struct_kind(table, ty)
            } else {
                None
            }
        }
        TyKind::Enum { count, .. } => {
            if variant < count {
                variant_kind(table, ty, variant)
            } else {
                None
            }
        }
        _ => None,
    }
}

// How a struct is declared.
fn struct_kind(table: &TypeTable, ty: TyId) -> Option<FormKind>
    requires of { IsOf table.now ty }
    requires file { IsOfFile table.now }
    requires is { IsDeclaredStruct (table_program table.now) (table_type table.now ty) }
    ensures { result ≡ kind_there (type_variant (table_program table.now) (table_type table.now ty) 0) }
{
    table.form(&Found::Struct(ty))
}

// How the enum's variant with this number is declared.
fn variant_kind(table: &TypeTable, ty: TyId, variant: u32) -> Option<FormKind>
    requires of { IsOf table.now ty }
    requires file { IsOfFile table.now }
    requires is { is_struct_type (table_program table.now) (table_type table.now ty) ≡ false }
    requires there { IsSome (type_variant (table_program table.now) (table_type table.now ty) variant) }
    ensures { result ≡ kind_there (type_variant (table_program table.now) (table_type table.now ty) variant) }
{
    let owner = table.owner(ty)?;
    table.form(&Found::Variant { owner, variant })
}
