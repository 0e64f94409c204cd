//! What kind a type of a table is of, and the place behind all references.
ghost use Rattle.std.specs.Prelude.{◌≡◌, IfSome, option_map};
ghost use Rattle.match_model.specs.RustTypes.{inner_type};
ghost use Rattle.match_model.specs.Typing.{is_bool, is_str};
ghost use Rattle.type_table.specs.Tables.{IsOf, table_type};
ghost use Rattle.pattern_rules.specs.Settings.{bottom_type, bottom_mode};
ghost use Rattle.pattern_rules.specs.NodeRules.{is_tuple, is_point};
ghost use Rattle.pattern_rules.specs.Literals.{is_shared_text};
ghost use Rattle.pattern_check.specs.TypeTests.{point_of, number_kind, row_of};
ghost use Rattle.pattern_check.specs.TypeTests.{kind_point, kind_number, kind_row};
ghost use Rattle.pattern_check.specs.TypeTests.{kind_is_bool, kind_is_str, kind_is_tuple};

use match_model::Mode;
use number_kinds::NumberKind;
use pattern_rules::modes::mode_behind;
use type_table::{TyId, TyKind, TypeTable};

/// Where a pattern stands: the type there, and the binding mode.
#[derive(Clone, Copy, Debug)]
pub struct Place {
    pub ty: TyId,
    pub mode: Mode,
}

/// The place behind all references.
pub fn bottom(table: &TypeTable, place: Place) -> Place
    requires { IsOf table.now place.ty }
    ensures of { IsOf table.now result.ty }
    ensures ty { table_type table.now result.ty ≡ bottom_type (table_type table.now place.ty) }
    ensures mode { result.mode ≡ bottom_mode (table_type table.now place.ty) place.mode }
{
    let mut here = place;
    while let Some((mutable, inner)) = point_of(table, here.ty) {
        here = Place {
            ty: inner,
            mode: mode_behind(mutable, here.mode),
        };
    }
    here
}

/// The kind of reference that a type is, with the type behind it.
pub fn point_of(table: &TypeTable, ty: TyId) -> Option<(bool, TyId)>
    requires { IsOf table.now ty }
    ensures of { IfSome result (λ p. IsOf table.now p.1) }
    ensures is { option_map (λ p. (p.0, table_type table.now p.1)) result ≡ point_of (table_type table.now ty) }
{
    kind_point(table.kind(ty))
}

fn kind_point(kind: TyKind) -> Option<(bool, TyId)>
    ensures { result ≡ kind_point kind }
{
    match kind {
        TyKind::Point { mutable, inner } => Some((mutable, inner)),
        TyKind::Bool | TyKind::Char | TyKind::Int(_) | TyKind::Str | TyKind::Never => None,
        TyKind::Opaque | TyKind::Tuple(_) | TyKind::Slice(_) | TyKind::Array(_, _) => None,
        TyKind::Struct(_) | TyKind::Enum { .. } => None,
    }
}

/// The kind of numbers that a type has.
pub fn number_kind(table: &TypeTable, ty: TyId) -> Option<NumberKind>
    requires { IsOf table.now ty }
    ensures { result ≡ number_kind (table_type table.now ty) }
{
    kind_number(table.kind(ty))
}

fn kind_number(kind: TyKind) -> Option<NumberKind>
    ensures { result ≡ kind_number kind }
{
    match kind {
        TyKind::Char => Some(NumberKind::Char),
        TyKind::Int(kind) => Some(NumberKind::Int(kind)),
        TyKind::Point { .. } | TyKind::Bool | TyKind::Str | TyKind::Never => None,
        TyKind::Opaque | TyKind::Tuple(_) | TyKind::Slice(_) | TyKind::Array(_, _) => None,
        TyKind::Struct(_) | TyKind::Enum { .. } => None,
    }
}

/// The type of the items of a slice or array, with the length of an array.
pub fn row_of(table: &TypeTable, ty: TyId) -> Option<(TyId, Option<u64>)>
    requires { IsOf table.now ty }
    ensures of { IfSome result (λ p. IsOf table.now p.0) }
    ensures is { option_map (λ p. (table_type table.now p.0, p.1)) result ≡ row_of (table_type table.now ty) }
{
    kind_row(table.kind(ty))
}

fn kind_row(kind: TyKind) -> Option<(TyId, Option<u64>)>
    ensures { result ≡ kind_row kind }
{
    match kind {
        TyKind::Slice(item) => Some((item, None)),
        TyKind::Array(item, len) => Some((item, Some(len))),
        TyKind::Point { .. } | TyKind::Bool | TyKind::Char | TyKind::Int(_) => None,
        TyKind::Str | TyKind::Never | TyKind::Opaque | TyKind::Tuple(_) => None,
        TyKind::Struct(_) | TyKind::Enum { .. } => None,
    }
}

/// Whether a type is `bool`.
pub fn is_bool(table: &TypeTable, ty: TyId) -> bool
    requires { IsOf table.now ty }
    ensures { result ≡ is_bool (table_type table.now ty) }
{
    kind_is_bool(table.kind(ty))
}

fn kind_is_bool(kind: TyKind) -> bool
    ensures { result ≡ kind_is_bool kind }
{
    match kind {
        TyKind::Bool => true,
        TyKind::Point { .. } | TyKind::Char | TyKind::Int(_) | TyKind::Str => false,
        TyKind::Never | TyKind::Opaque | TyKind::Tuple(_) | TyKind::Slice(_) => false,
        TyKind::Array(_, _) | TyKind::Struct(_) | TyKind::Enum { .. } => false,
    }
}

/// Whether a type is `str`.
pub fn is_str(table: &TypeTable, ty: TyId) -> bool
    requires { IsOf table.now ty }
    ensures { result ≡ is_str (table_type table.now ty) }
{
    kind_is_str(table.kind(ty))
}

fn kind_is_str(kind: TyKind) -> bool
    ensures { result ≡ kind_is_str kind }
{
    match kind {
        TyKind::Str => true,
        TyKind::Point { .. } | TyKind::Bool | TyKind::Char | TyKind::Int(_) => false,
        TyKind::Never | TyKind::Opaque | TyKind::Tuple(_) | TyKind::Slice(_) => false,
        TyKind::Array(_, _) | TyKind::Struct(_) | TyKind::Enum { .. } => false,
    }
}

/// Whether a type is a tuple.
pub fn is_tuple(table: &TypeTable, ty: TyId) -> bool
    requires { IsOf table.now ty }
    ensures { result ≡ is_tuple (table_type table.now ty) }
{
    kind_is_tuple(table.kind(ty))
}

fn kind_is_tuple(kind: TyKind) -> bool
    ensures { result ≡ kind_is_tuple kind }
{
    match kind {
        TyKind::Tuple(_) => true,
        TyKind::Point { .. } | TyKind::Bool | TyKind::Char | TyKind::Int(_) => false,
        TyKind::Str | TyKind::Never | TyKind::Opaque | TyKind::Slice(_) => false,
        TyKind::Array(_, _) | TyKind::Struct(_) | TyKind::Enum { .. } => false,
    }
}

/// Whether a type is a reference of this kind.
pub fn is_point(table: &TypeTable, mutable: bool, ty: TyId) -> bool
    requires { IsOf table.now ty }
    ensures { result ≡ is_point mutable (table_type table.now ty) }
{
    match point_of(table, ty) {
        Some((other, _)) => mutable == other,
        None => false,
    }
}

/// Whether a type is `&str`.
pub fn is_shared_text(table: &TypeTable, ty: TyId) -> bool
    requires { IsOf table.now ty }
    ensures { result ≡ is_shared_text (table_type table.now ty) }
{
    match point_of(table, ty) {
        Some((mutable, inner)) => !mutable && is_str(table, inner),
        None => false,
    }
}

/// The type behind all references.
pub fn bottom_type(table: &TypeTable, ty: TyId) -> TyId
    requires { IsOf table.now ty }
    ensures of { IsOf table.now result }
    ensures is { table_type table.now result ≡ bottom_type (table_type table.now ty) }
{
    let place = Place {
        ty,
        mode: Mode::Move,
    };
    bottom(table, place).ty
}

/// The type behind a reference, or of the items of a slice or array; of every other type the type itself.
pub fn inner(table: &TypeTable, ty: TyId) -> TyId
    requires { IsOf table.now ty }
    ensures of { IsOf table.now result }
    ensures is { table_type table.now result ≡ inner_type (table_type table.now ty) }
{
    if let Some((_, inner)) = point_of(table, ty) {
        return inner;
    }
    match row_of(table, ty) {
        Some((item, _)) => item,
        None => ty,
    }
}
