// The types at places.
ghost use Rattle.std.specs.Prelude.{◌≡◌, IfSome, option_map};
ghost use Rattle.match_model.specs.OfType.{type_at_place};
ghost use Rattle.match_model.specs.Places.{BackStep};
ghost use Rattle.match_model.specs.RustTypes.{rust_context};
ghost use Rattle.pat_context.specs.Views.{plain_place, plain_step};
ghost use Rattle.type_table.specs.Tables.{IsOf, table_program, table_type, field_type};
ghost use Rattle.witness_names.specs.Lookups.{pointed, behind_step, item_behind};

use crate::types::pointed;
use pat_context::Step;
use type_table::{TyId, TyKind, TypeTable};

// The type at a place, each step to which enters a part.
pub(crate) fn type_at(table: &TypeTable, ty: TyId, steps: &[Step]) -> Option<TyId>
    requires of { IsOf table.now ty }
    ensures of { IfSome result (IsOf table.now) }
    ensures is { option_map (table_type table.now) result ≡ type_at_place
        (rust_context (table_program table.now)) (table_type table.now ty) (plain_place steps.now) }
{
    let mut at = ty;
    for step in steps {
        at = type_behind(table, at, step)?;
    }
    Some(at)
}

// The type behind a step that enters a part.
fn type_behind(table: &TypeTable, ty: TyId, step: &Step) -> Option<TyId>
    requires of { IsOf table.now ty }
    ensures of { IfSome result (IsOf table.now) }
    ensures is { option_map (table_type table.now) result
        ≡ behind_step (table_program table.now) (table_type table.now ty) (plain_step step.now) }
{
    match step {
        Step::Through => referred(table, ty),
        Step::Field { variant, part } => part_type(table, ty, *variant, *part),
        Step::Front(i) => item_type(table, ty, *i),
        Step::Back(i) => item_from_back(table, ty, *i),
        Step::Middle { .. } => None,
    }
}

// The type of an item by its number from the back, from 1.
fn item_from_back(table: &TypeTable, ty: TyId, number: u64) -> Option<TyId>
    requires of { IsOf table.now ty }
    ensures of { IfSome result (IsOf table.now) }
    ensures is { option_map (table_type table.now) result
        ≡ behind_step (table_program table.now) (table_type table.now ty) (BackStep number) }
{
    if number == 0 {
        None
    } else {
        item_type(table, ty, number - 1)
    }
}

// The type behind a reference.
fn referred(table: &TypeTable, ty: TyId) -> Option<TyId>
    requires of { IsOf table.now ty }
    ensures of { IfSome result (IsOf table.now) }
    ensures is { option_map (table_type table.now) result
        ≡ option_map (λ p. p.1) (pointed (table_type table.now ty)) }
{
    let (_, inner) = pointed(table, ty)?;
    Some(inner)
}

// The type of a part of a tuple or struct, whose variant is 0, or of a variant.
fn part_type(table: &TypeTable, ty: TyId, variant: u32, part: u32) -> Option<TyId>
    requires of { IsOf table.now ty }
    ensures of { IfSome result (IsOf table.now) }
    ensures is { option_map (table_type table.now) result
        ≡ field_type (table_program table.now) (table_type table.now ty) variant part }
{
    if part < table.fields(ty, variant) {
        Some(table.field(ty, variant, part))
    } else {
        None
    }
}

// The type of the items of a slice, or of an array that has an item behind so many.
fn item_type(table: &TypeTable, ty: TyId, others: u64) -> Option<TyId>
    requires of { IsOf table.now ty }
    ensures of { IfSome result (IsOf table.now) }
    ensures is { option_map (table_type table.now) result ≡ item_behind (table_type table.now ty) others }
{
    match table.kind(ty) {
        TyKind::Slice(item) => Some(item),
        TyKind::Array(item, len) => { if others < len { Some(item) } else { None } }
        _ => None,
    }
}
