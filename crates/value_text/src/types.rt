// What a type of a table is.
ghost use Rattle.std.specs.Prelude.{◌≡◌, IfSome, option_map};
ghost use Rattle.match_model.specs.Declarations.{is_marked, is_constructorless};
ghost use Rattle.match_model.specs.Typing.{is_bool, is_str, is_opaque, type_behind, item_type};
ghost use Rattle.type_table.specs.Tables.{IsOf, table_program, table_type};
ghost use Rattle.value_text.specs.Lookups.{is_tuple, number_kind};

use number_kinds::NumberKind;
use type_table::{TyId, TyKind, TypeTable};

// Whether the type is `bool`.
pub(crate) fn is_bool(table: &TypeTable, ty: TyId) -> bool
    requires { IsOf table.now ty }
    ensures { result ≡ is_bool (table_type table.now ty) }
{
    match table.kind(ty) {
        TyKind::Bool => true,
        _ => false,
    }
}

// Whether the type is `str`.
pub(crate) fn is_str(table: &TypeTable, ty: TyId) -> bool
    requires { IsOf table.now ty }
    ensures { result ≡ is_str (table_type table.now ty) }
{
    match table.kind(ty) {
        TyKind::Str => true,
        _ => false,
    }
}

// Whether the type is an opaque one.
pub(crate) fn is_opaque(table: &TypeTable, ty: TyId) -> bool
    requires { IsOf table.now ty }
    ensures { result ≡ is_opaque (table_type table.now ty) }
{
    match table.kind(ty) {
        TyKind::Opaque => true,
        _ => false,
    }
}

// Whether the type is a tuple.
pub(crate) fn is_tuple(table: &TypeTable, ty: TyId) -> bool
    requires { IsOf table.now ty }
    ensures { result ≡ is_tuple (table_type table.now ty) }
{
    match table.kind(ty) {
        TyKind::Tuple(_) => true,
        _ => false,
    }
}

// Whether the type is an enum that may get more variants later.
pub(crate) fn is_marked(table: &TypeTable, ty: TyId) -> bool
    requires { IsOf table.now ty }
    ensures { result ≡ is_marked (table_program table.now) (table_type table.now ty) }
{
    match table.kind(ty) {
        TyKind::Enum { later, .. } => later,
        _ => false,
    }
}

// Whether the type has no constructors.
pub(crate) fn is_constructorless(table: &TypeTable, ty: TyId) -> bool
    requires { IsOf table.now ty }
    ensures { result ≡ is_constructorless (table_program table.now) (table_type table.now ty) }
{
    table.types_are_sound();
    match table.kind(ty) {
        TyKind::Never => true,
        TyKind::Enum { count, later } => count == 0 && !later,
        _ => false,
    }
}

// The kind of numbers that the type has.
pub(crate) fn number_kind(table: &TypeTable, ty: TyId) -> Option<NumberKind>
    requires { IsOf table.now ty }
    ensures { result ≡ number_kind (table_type table.now ty) }
{
    match table.kind(ty) {
        TyKind::Char => Some(NumberKind::Char),
        TyKind::Int(kind) => Some(NumberKind::Int(kind)),
        _ => None,
    }
}

// The type behind a reference of this mutability.
pub(crate) fn behind(table: &TypeTable, ty: TyId, mutable: bool) -> Option<TyId>
    requires { IsOf table.now ty }
    ensures of { IfSome result (IsOf table.now) }
    ensures is { option_map (table_type table.now) result ≡ type_behind (table_type table.now ty) mutable }
{
    match table.kind(ty) {
        TyKind::Point {
            mutable: other,
            inner,
        } => { if other == mutable { Some(inner) } else { None } }
        _ => None,
    }
}

// The type of the items of a row of this length.
pub(crate) fn item_of(table: &TypeTable, ty: TyId, len: usize) -> Option<TyId>
    requires { IsOf table.now ty }
    ensures of { IfSome result (IsOf table.now) }
    ensures is { option_map (table_type table.now) result ≡ item_type (table_type table.now ty) len }
{
    match table.kind(ty) {
        TyKind::Slice(item) => Some(item),
        TyKind::Array(item, n) => { if len as u64 == n { Some(item) } else { None } }
        _ => None,
    }
}
