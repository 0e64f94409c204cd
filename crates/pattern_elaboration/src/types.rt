//! What kind a type of a table is of, and the place behind all references.
ghost use Rattle.std.specs.Prelude.{◌≡◌, IfSome, option_map};
ghost use Rattle.match_model.specs.RustTypes.{inner_type};
ghost use Rattle.type_table.specs.Tables.{IsOf, table_type};
ghost use Rattle.pattern_rules.specs.Settings.{bottom_type, bottom_mode};
ghost use Rattle.pattern_elaboration.specs.TypeTests.{point_of, number_kind, row_of};
ghost use Rattle.pattern_elaboration.specs.TypeTests.{kind_point, kind_number, kind_row};

use match_model::Mode;
use number_kinds::NumberKind;
use pattern_rules::modes::mode_behind;
use type_table::{TyId, TyKind, TypeTable};

/// Where a pattern stands: the type there, and the binding mode.
#[derive(Clone, Copy, Debug)]
pub struct Place {
    pub ty: TyId,
    pub mode: Mode,
}

/// The place behind all references.
pub fn bottom(table: &TypeTable, place: Place) -> Place
    requires { IsOf table.now place.ty }
    ensures of { IsOf table.now result.ty }
    ensures ty { table_type table.now result.ty ≡ bottom_type (table_type table.now place.ty) }
    ensures mode { result.mode ≡ bottom_mode (table_type table.now place.ty) place.mode }
{
    let mut here = place;
    while let Some((mutable, inner)) = point_of(table, here.ty) {
        here = Place {
            ty: inner,
            mode: mode_behind(mutable, here.mode),
        };
    }
    here
}

/// The kind of reference that a type is, with the type behind it.
pub fn point_of(table: &TypeTable, ty: TyId) -> Option<(bool, TyId)>
    requires { IsOf table.now ty }
    ensures of { IfSome result (λ p. IsOf table.now p.1) }
    ensures is { option_map (λ p. (p.0, table_type table.now p.1)) result ≡ point_of (table_type table.now ty) }
{
    kind_point(table.kind(ty))
}

fn kind_point(kind: TyKind) -> Option<(bool, TyId)>
    ensures { result ≡ kind_point kind }
{
    match kind {
        TyKind::Point { mutable, inner } => Some((mutable, inner)),
        TyKind::Bool | TyKind::Char | TyKind::Int(_) | TyKind::Str | TyKind::Never => None,
        TyKind::Opaque | TyKind::Tuple(_) | TyKind::Slice(_) | TyKind::Array(_, _) => None,
        TyKind::Struct(_) | TyKind::Enum { .. } => None,
    }
}

/// The kind of numbers that a type has.
pub fn number_kind(table: &TypeTable, ty: TyId) -> Option<NumberKind>
    requires { IsOf table.now ty }
    ensures { result ≡ number_kind (table_type table.now ty) }
{
    kind_number(table.kind(ty))
}

fn kind_number(kind: TyKind) -> Option<NumberKind>
    ensures { result ≡ kind_number kind }
{
    match kind {
        TyKind::Char => Some(NumberKind::Char),
        TyKind::Int(kind) => Some(NumberKind::Int(kind)),
        TyKind::Point { .. } | TyKind::Bool | TyKind::Str | TyKind::Never => None,
        TyKind::Opaque | TyKind::Tuple(_) | TyKind::Slice(_) | TyKind::Array(_, _) => None,
        TyKind::Struct(_) | TyKind::Enum { .. } => None,
    }
}

/// The type of the items of a slice or array, with the length of an array.
pub fn row_of(table: &TypeTable, ty: TyId) -> Option<(TyId, Option<u64>)>
    requires { IsOf table.now ty }
    ensures of { IfSome result (λ p. IsOf table.now p.0) }
    ensures is { option_map (λ p. (table_type table.now p.0, p.1)) result ≡ row_of (table_type table.now ty) }
{
    kind_row(table.kind(ty))
}

fn kind_row(kind: TyKind) -> Option<(TyId, Option<u64>)>
    ensures { result ≡ kind_row kind }
{
    match kind {
        TyKind::Slice(item) => Some((item, None)),
        TyKind::Array(item, len) => Some((item, Some(len))),
        TyKind::Point { .. } | TyKind::Bool | TyKind::Char | TyKind::Int(_) => None,
        TyKind::Str | TyKind::Never | TyKind::Opaque | TyKind::Tuple(_) => None,
        TyKind::Struct(_) | TyKind::Enum { .. } => None,
    }
}

/// The type behind all references.
pub fn bottom_type(table: &TypeTable, ty: TyId) -> TyId
    requires { IsOf table.now ty }
    ensures of { IsOf table.now result }
    ensures is { table_type table.now result ≡ bottom_type (table_type table.now ty) }
{
    let place = Place {
        ty,
        mode: Mode::Move,
    };
    bottom(table, place).ty
}

/// The type behind a reference, or of the items of a slice or array; of every other type the type itself.
pub fn inner(table: &TypeTable, ty: TyId) -> TyId
    requires { IsOf table.now ty }
    ensures of { IsOf table.now result }
    ensures is { table_type table.now result ≡ inner_type (table_type table.now ty) }
{
    if let Some((_, inner)) = point_of(table, ty) {
        return inner;
    }
    match row_of(table, ty) {
        Some((item, _)) => item,
        None => ty,
    }
}
