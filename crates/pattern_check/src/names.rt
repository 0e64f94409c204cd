//! What the paths and bare names of patterns stand for, by a table of types.
ghost use Rattle.std.specs.Prelude.{◌≡◌, option_map};
ghost use Rattle.decl_syntax.specs.Patterns.{path_view, shape_view};
ghost use Rattle.type_names.specs.Finding.{FoundTree, is_found, path_finds, name_finds, same_owner};
ghost use Rattle.type_names.specs.Views.{owner_view};
ghost use Rattle.type_table.specs.Paths.{FoundIs, FoundOf};
ghost use Rattle.type_table.specs.Tables.{IsOf, table_type};
ghost use Rattle.pattern_rules.specs.Settings.{Setting};
ghost use Rattle.pattern_rules.specs.Namings.{is_short, is_path_name, name_form, found_if, found_by, is_twice};
ghost use Rattle.pattern_rules.specs.Namings.{found_number, meets};
ghost use Rattle.type_table.specs.Readers.{type_owner};
ghost use Rattle.pattern_check.specs.Checking.{IsOfFile, IsSettingOf, is_owned};

use decl_syntax::{PatKind, Path};
use pattern_rules::paths::is_short;
use type_table::{FormKind, Found, Owner, TyId, TypeTable};

/// What a path finds, if it is one or two plain names; else nothing.
pub fn path_found(table: &TypeTable, path: &Path) -> Found
    requires { IsOfFile table.now }
    ensures of { FoundOf table.now result }
    ensures is { (s : Setting) → IsSettingOf table.now s →
        FoundIs table.now (found_if (is_short (path_view path.now)) (path_finds s.items (path_view path.now))) result }
{
    if is_short(path) {
        table.find(path)
    } else {
        Found::Nothing
    }
}

/// The form of what a bare name finds.
pub fn name_form(table: &TypeTable, name: &str) -> Option<FormKind>
    requires { IsOfFile table.now }
    ensures { (s : Setting) → IsSettingOf table.now s → result ≡ name_form s name.now }
{
    let found = table.find_name(name);
    table.form(&found)
}

/// Whether a bare name is a path: it finds a unit struct or a unit variant.
pub fn is_path_name(table: &TypeTable, name: &str) -> bool
    requires { IsOfFile table.now }
    ensures { (s : Setting) → IsSettingOf table.now s → result ≡ is_path_name s name.now }
{
    match name_form(table, name) {
        Some(FormKind::Unit) => true,
        Some(FormKind::Tuple) => false,
        Some(FormKind::Brace) => false,
        None => false,
    }
}

/// What a bare name that is a path finds; nothing where the name binds.
pub fn name_found(table: &TypeTable, name: &str) -> Found
    requires { IsOfFile table.now }
    ensures of { FoundOf table.now result }
    ensures is { (s : Setting) → IsSettingOf table.now s →
        FoundIs table.now (found_if (is_path_name s name.now) (name_finds s.items name.now)) result }
{
    if is_path_name(table, name) {
        table.find_name(name)
    } else {
        Found::Nothing
    }
}

/// The struct or variant that a pattern names, if it names one.
pub fn found_by(table: &TypeTable, kind: &PatKind) -> Found
    requires { IsOfFile table.now }
    ensures of { FoundOf table.now result }
    ensures is { (s : Setting) → IsSettingOf table.now s →
        FoundIs table.now (found_by s (shape_view kind.now)) result }
{
    match kind {
        PatKind::Name(name) => name_found(table, name),
        PatKind::Path(path) => path_found(table, path),
        PatKind::TupleForm { path, .. } => path_found(table, path),
        PatKind::Brace { path, .. } => path_found(table, path),
        PatKind::Wild | PatKind::Rest | PatKind::Lit(_) | PatKind::Range(_) => Found::Nothing,
        PatKind::Bind { sub, .. } => match sub {
            Some(_) => Found::Nothing,
            None => Found::Nothing,
        },
        PatKind::Tuple(_) | PatKind::Group(_) | PatKind::Slice(_) => Found::Nothing,
        PatKind::Point { .. } | PatKind::Or(_) => Found::Nothing,
    }
}

/// Whether a struct or a variant was found.
pub fn is_found(table: &TypeTable, found: &Found) -> bool
    ensures { (told : FoundTree) → FoundIs table.now told found.now → result ≡ is_found told }
{
    match found {
        Found::Nothing => false,
        Found::Twice => false,
        Found::Struct(_) => true,
        Found::Variant { .. } => true,
    }
}

/// Whether two different variants were found.
pub fn is_twice(table: &TypeTable, found: &Found) -> bool
    ensures { (told : FoundTree) → FoundIs table.now told found.now → result ≡ is_twice told }
{
    match found {
        Found::Nothing => false,
        Found::Twice => true,
        Found::Struct(_) => false,
        Found::Variant { .. } => false,
    }
}

/// The number of the variant that was found; a struct has the variant 0.
pub fn found_number(table: &TypeTable, found: &Found) -> u32
    ensures { (told : FoundTree) → FoundIs table.now told found.now → result ≡ found_number told }
{
    match found {
        Found::Nothing => 0,
        Found::Twice => 0,
        Found::Struct(_) => 0,
        Found::Variant { variant, .. } => *variant,
    }
}

/// Whether what was found is the struct, or a variant of the enum, that the type is.
pub fn meets(table: &TypeTable, found: &Found, ty: TyId) -> bool
    requires found { FoundOf table.now found.now }
    requires of { IsOf table.now ty }
    ensures { (told : FoundTree) → FoundIs table.now told found.now → result ≡ meets told (table_type table.now ty) }
{
    let Some(owner) = declared_by(table, ty) else {
        return false;
    };
    match *found {
        Found::Nothing => false,
        Found::Twice => false,
        Found::Struct(own) => is_owner(table, own, owner),
        Found::Variant { owner: other, .. } => same_owner(other, owner),
    }
}

// Whether the owner declares the type.
fn is_owner(table: &TypeTable, ty: TyId, owner: Owner) -> bool
    requires { IsOf table.now ty }
    ensures { result ≡ is_owned (type_owner (table_type table.now ty)) (owner_view owner) }
{
    match declared_by(table, ty) {
        Some(other) => same_owner(other, owner),
        None => false,
    }
}

// Who declares a named type.
fn declared_by(table: &TypeTable, ty: TyId) -> Option<Owner>
    requires { IsOf table.now ty }
    ensures { option_map owner_view result ≡ type_owner (table_type table.now ty) }
{
    table.types_are_sound();
    match table.item(ty) {
        Some(item) => Some(Owner::Item(item)),
        None => table.owner(ty),
    }
}

// Whether the two are one.
fn same_owner(one: Owner, other: Owner) -> bool
    ensures { result ≡ same_owner (owner_view one) (owner_view other) }
{
    match one {
        Owner::Item(i) => match other {
            Owner::Item(j) => i == j,
            Owner::Option => false,
            Owner::Result => false,
        },
        Owner::Option => match other {
            Owner::Item(_) => false,
            Owner::Option => true,
            Owner::Result => false,
        },
        Owner::Result => match other {
            Owner::Item(_) => false,
            Owner::Option => false,
            Owner::Result => true,
        },
    }
}
