// The rules that literals and ranges break.
ghost use Rattle.std.specs.Prelude.{◌≡◌, ◌&&◌, ◌||◌, Bool, option_map};
ghost use Rattle.match_model.specs.declared.Mode.{Mode as AnyMode};
ghost use Rattle.decl_syntax.specs.Patterns.{lit_view};
ghost use Rattle.decl_syntax.specs.Patterns as patterns;
ghost use Rattle.number_kinds.specs.Kinds.{kind_type};
ghost use Rattle.type_table.specs.Tables.{IsOf, table_type};
ghost use Rattle.pattern_rules.specs.declared.Edition.{Edition as AnyEdition};
ghost use Rattle.pattern_rules.specs.Settings.{Setting};
ghost use Rattle.pattern_rules.specs.Nodes.{Standing as AnyStanding};
ghost use Rattle.pattern_rules.specs.NodeRules.{literal_fits};
ghost use Rattle.pattern_rules.specs.Literals.{has_type, is_outside, is_empty_at, end_has_type, end_outside};
ghost use Rattle.pattern_check.specs.Checking.{IsSettingOf};
ghost use Rattle.pattern_check.specs.NodeForms.{OwnFaultIs, standing_view, open_item, range_rules};
ghost use Rattle.pattern_check.specs.TypeTests.{is_flag};

use crate::own_fault::{Standing, pick};
use crate::types::{bottom_type, is_bool, is_shared_text, number_kind};
use decl_syntax::{Lit, RangePat};
use match_model::Width;
use number_kinds::{NumberKind, has_no_number};
use pattern_rules::literals::{
    end_has_type, end_number, end_outside, end_refused, has_type, is_outside, is_refused,
};
use type_table::{TyId, TypeTable};

/// The least rule that a literal breaks.
pub(crate) fn literal_fault(table: &TypeTable, lit: &Lit, ty: TyId) -> Option<u32>
    requires { IsOf table.now ty }
    ensures { (edition : AnyEdition) (standing : AnyStanding) (m : AnyMode) (twice : Bool) →
        OwnFaultIs table.now edition (patterns.Literal (lit_view lit.now))
        standing (table_type table.now ty) m twice result }
{
    if is_refused(lit) {
        return Some(35);
    }
    let met = bottom_type(table, ty);
    let outside = pick(number_outside(table, lit, met), 28, None);
    pick(!literal_fits(table, lit, ty, met), 22, outside)
}

// Whether a literal has the type: a string the type here, any other the type behind all references.
fn literal_fits(table: &TypeTable, lit: &Lit, here: TyId, met: TyId) -> bool
    requires here { IsOf table.now here }
    requires met { IsOf table.now met }
    ensures { result ≡ literal_fits (lit_view lit.now) (table_type table.now here) (table_type table.now met) }
{
    match lit {
        Lit::Str(_) => is_shared_text(table, here),
        Lit::Flag(_) | Lit::Char(_) | Lit::Byte(_) | Lit::Small { .. } | Lit::Int(_) | Lit::Other =>
            literal_has_type(table, lit, met),
    }
}

// Whether a literal that is no string has the type.
fn literal_has_type(table: &TypeTable, lit: &Lit, ty: TyId) -> bool
    requires { IsOf table.now ty }
    ensures { result ≡ has_type (lit_view lit.now) (table_type table.now ty) }
{
    match number_kind(table, ty) {
        Some(kind) => has_type(lit, kind),
        None => is_flag(lit) && is_bool(table, ty),
    }
}

// Whether a literal is `true` or `false`.
fn is_flag(lit: &Lit) -> bool
    ensures { result ≡ is_flag (lit_view lit.now) }
{
    match lit {
        Lit::Flag(_) => true,
        Lit::Char(_) | Lit::Byte(_) | Lit::Small { .. } => false,
        Lit::Int(_) | Lit::Str(_) | Lit::Other => false,
    }
}

// Whether an integer literal is no number of the integer type.
fn number_outside(table: &TypeTable, lit: &Lit, ty: TyId) -> bool
    requires { IsOf table.now ty }
    ensures { (s : Setting) → IsSettingOf table.now s
        → result ≡ is_outside s.width (table_type table.now ty) (lit_view lit.now) }
{
    match number_kind(table, ty) {
        Some(kind) => is_outside(table.width(), kind, lit),
        None => false,
    }
}

/// The least rule that a range breaks.
pub(crate) fn range_fault(
    table: &TypeTable,
    range: &RangePat,
    standing: Standing,
    ty: TyId,
) -> Option<u32>
    requires { IsOf table.now ty }
    ensures { (edition : AnyEdition) (m : AnyMode) (twice : Bool) →
        OwnFaultIs table.now edition (patterns.Range (option_map lit_view range.now.low)
        (option_map lit_view range.now.high) range.now.closed)
        (standing_view standing) (table_type table.now ty) m twice result }
{
    let is_open = is_open_item(standing, range);
    if end_refused(&range.low) {
        return pick(is_open, 33, Some(35));
    }
    if end_refused(&range.high) {
        return pick(is_open, 33, Some(35));
    }
    let met = bottom_type(table, ty);
    match number_kind(table, met) {
        Some(kind) => number_range_fault(table.width(), kind, range, is_open),
        None => Some(22),
    }
}

// Whether the range is open above and an item of a slice pattern.
fn is_open_item(standing: Standing, range: &RangePat) -> bool
    ensures { result ≡ open_item (standing_view standing)
        (option_map lit_view range.now.low) (option_map lit_view range.now.high) }
{
    match standing {
        Standing::AsItem => range.low.is_some() && range.high.is_none(),
        Standing::AsName => false,
        Standing::Elsewhere => false,
    }
}

// The least rule that a range over these numbers breaks.
fn number_range_fault(
    width: Width,
    kind: NumberKind,
    range: &RangePat,
    is_open: bool,
) -> Option<u32>
    ensures { result ≡ range_rules width (kind_type kind) (option_map lit_view range.now.low)
        (option_map lit_view range.now.high) range.now.closed is_open }
{
    let last = pick(is_open, 33, None);
    let empty = pick(is_empty(width, kind, range), 29, last);
    let outside = pick(ends_outside(width, kind, range), 28, empty);
    pick(!ends_fit(kind, range), 22, outside)
}

// Whether both ends have the type.
fn ends_fit(kind: NumberKind, range: &RangePat) -> bool
    ensures { result ≡ (end_has_type (option_map lit_view range.now.low) (kind_type kind)
        && end_has_type (option_map lit_view range.now.high) (kind_type kind)) }
{
    end_has_type(&range.low, kind) && end_has_type(&range.high, kind)
}

// Whether an end is no number of the type.
fn ends_outside(width: Width, kind: NumberKind, range: &RangePat) -> bool
    ensures { result ≡ (end_outside width (kind_type kind) (option_map lit_view range.now.low)
        || end_outside width (kind_type kind) (option_map lit_view range.now.high)) }
{
    end_outside(width, kind, &range.low) || end_outside(width, kind, &range.high)
}

// Whether the range has no number of the type.
fn is_empty(width: Width, kind: NumberKind, range: &RangePat) -> bool
    ensures { result ≡ is_empty_at width (kind_type kind) (option_map lit_view range.now.low)
        (option_map lit_view range.now.high) range.now.closed }
{
    has_no_number(
        width,
        kind,
        end_number(&range.low),
        range.closed,
        end_number(&range.high),
    )
}
