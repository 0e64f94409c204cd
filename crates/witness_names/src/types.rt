// What types are made of.
ghost use Rattle.std.specs.Prelude.{◌≡◌, IfSome, option_map};
ghost use Rattle.match_model.specs.RustTypes.{inner_type};
ghost use Rattle.type_table.specs.Tables.{IsOf, table_type};
ghost use Rattle.witness_names.specs.Lookups.{is_tuple, pointed, pointed_view};

use type_table::{TyId, TyKind, TypeTable};

// Whether the type is a tuple.
pub(crate) fn is_tuple(table: &TypeTable, ty: TyId) -> bool
    requires { IsOf table.now ty }
    ensures { result ≡ is_tuple (table_type table.now ty) }
{
    match table.kind(ty) {
        TyKind::Tuple(_) => true,
        _ => false,
    }
}

// The mutability of a reference, and the type behind it; every other type has none.
pub(crate) fn pointed(table: &TypeTable, ty: TyId) -> Option<(bool, TyId)>
    requires { IsOf table.now ty }
    ensures of { IfSome result (λ p. IsOf table.now p.1) }
    ensures is { option_map (pointed_view table.now) result ≡ pointed (table_type table.now ty) }
{
    match table.kind(ty) {
        TyKind::Point { mutable, inner } => Some((mutable, inner)),
        _ => None,
    }
}

// The type behind a reference, or of the items of a slice or array; of every other type the type itself.
pub(crate) fn inner(table: &TypeTable, ty: TyId) -> TyId
    requires { IsOf table.now ty }
    ensures of { IsOf table.now result }
    ensures is { table_type table.now result ≡ inner_type (table_type table.now ty) }
{
    match table.kind(ty) {
        TyKind::Point { inner, .. } => inner,
        TyKind::Slice(item) => item,
        TyKind::Array(item, _) => item,
        _ => ty,
    }
}
