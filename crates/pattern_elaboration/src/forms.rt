//! Structs, variants, tuples and rows behind the references of a type.
ghost use Rattle.std.specs.Prelude.{◌≡◌, ◌+◌, ◌≤◌, ℕ, true, [], ◌∷◌, ◌++◌, length, map, IfOk, if◌then◌else◌};
ghost use Rattle.match_model.specs.Lists.{Every};
ghost use Rattle.match_model.specs.Constructors.{SingleCtor};
ghost use Rattle.match_model.specs.RustTypes.{rust_arity};
ghost use Rattle.decl_syntax.specs.Patterns.{pattern_view, patterns_from};
ghost use Rattle.type_table.specs.Tables.{IsOf, table_program, table_type};
ghost use Rattle.pattern_rules.specs.Builders.{form, list_of};
ghost use Rattle.pattern_rules.specs.Nodes.{is_rest, shape_of};
ghost use Rattle.pattern_rules.specs.NodeRules.{is_row, is_tuple};
ghost use Rattle.pattern_rules.specs.Resolved.{rest_in, rest_of};
ghost use Rattle.pattern_elaboration.specs.Given.{trees, given, field_trees, given_fields};
ghost use Rattle.pattern_elaboration.specs.Rests.{RestIs, fixed};
ghost use Rattle.pattern_elaboration.specs.Numbered.{AreMade};
ghost use Rattle.pattern_elaboration.specs.Placed.{wrapped};
ghost use Rattle.pattern_elaboration.specs.Walking.{plain, MadeHere};
ghost use Rattle.pattern_elaboration.specs.Written.{built_there};

use crate::fields::form_over;
use crate::placing::FormPlacer;
use crate::references::{Peeled, wrap};
use crate::rows::{Rest, row_over, tuple_over};
use decl_syntax::{Pat, PatKind};
use match_model::Mode;
use no_memory::NoMemory;
use pattern_arena::DePat;
use pattern_rules::lists::is_rest;
use pattern_rules::modes::written_mode;
use std::alloc::Global;
use type_table::{TyId, TypeTable};

/// A struct or variant over its written fields, behind the references that were peeled. The only error is want of
/// memory.
pub fn form_behind<'a>(
    alloc: Global,
    table: &TypeTable,
    placer: &FormPlacer<'a>,
    next: &mut u64,
    peeled: Peeled,
    variant: u32,
    fields: &[(usize, DePat<'a, TyId>)],
) -> Result<DePat<'a, TyId>, NoMemory>
    requires of { IsOf table.now peeled.place.ty }
    requires levels { Every (IsOf table.now) peeled.levels.items }
    ensures shown { IfOk result (λ p. plain table.now p ≡ wrapped (map (table_type table.now) peeled.levels.items)
        (form (table_program table.now) variant (built_there (given_fields (table_type table.now) fields.now))
        (table_type table.now peeled.place.ty))) }
    ensures made { (from : ℕ) → AreMade (IsOf table.now) from next.old (field_trees fields.now)
        → IfOk result (MadeHere table.now from next.new) }
{
    let form = form_over(alloc, table, placer, next, peeled.place.ty, variant, fields)?;
    let made = wrap(placer, next, peeled.levels, form)?;
    Ok(made)
}

/// The items of a list up to its rest, and those behind it.
#[derive(Drop)]
pub struct Listed<'a> {
    pub front: Vec<DePat<'a, TyId>>,
    pub back: Vec<DePat<'a, TyId>>,
}

/// A tuple of these items, behind the references that were peeled. The only error is want of memory.
pub fn tuple_behind<'a>(
    alloc: Global,
    table: &TypeTable,
    placer: &FormPlacer<'a>,
    next: &mut u64,
    peeled: Peeled,
    items: &[Pat],
    front: &[DePat<'a, TyId>],
    back: &[DePat<'a, TyId>],
) -> Result<DePat<'a, TyId>, NoMemory>
    requires of { IsOf table.now peeled.place.ty }
    requires levels { Every (IsOf table.now) peeled.levels.items }
    ensures shown { is_tuple (table_type table.now peeled.place.ty) ≡ true →
        length front.now + length back.now
        ≤ rust_arity (table_program table.now) SingleCtor (table_type table.now peeled.place.ty) →
        IfOk result (λ p. plain table.now p ≡ wrapped (map (table_type table.now) peeled.levels.items)
        (list_of (table_program table.now) (fixed (given (table_type table.now) front.now))
        (rest_of (patterns_from (map pattern_view items.now))) (fixed (given (table_type table.now) back.now))
        (table_type table.now peeled.place.ty) peeled.place.mode)) }
    ensures made { (from : ℕ) → AreMade (IsOf table.now) from next.old (trees front.now ++ trees back.now)
        → IfOk result (MadeHere table.now from next.new) }
{
    let rest = list_rest(placer, items, peeled.place.mode)?;
    let list = tuple_over(
        alloc,
        table,
        placer,
        next,
        peeled.place.ty,
        front,
        rest,
        back,
    )?;
    let made = wrap(placer, next, peeled.levels, list)?;
    Ok(made)
}

/// A row of these items, behind the references that were peeled. The only error is want of memory.
pub fn row_behind<'a>(
    alloc: Global,
    table: &TypeTable,
    placer: &FormPlacer<'a>,
    next: &mut u64,
    peeled: Peeled,
    items: &[Pat],
    front: &[DePat<'a, TyId>],
    back: &[DePat<'a, TyId>],
) -> Result<DePat<'a, TyId>, NoMemory>
    requires of { IsOf table.now peeled.place.ty }
    requires levels { Every (IsOf table.now) peeled.levels.items }
    ensures shown { is_row (table_type table.now peeled.place.ty) ≡ true →
        IfOk result (λ p. plain table.now p ≡ wrapped (map (table_type table.now) peeled.levels.items)
        (list_of (table_program table.now) (fixed (given (table_type table.now) front.now))
        (rest_of (patterns_from (map pattern_view items.now))) (fixed (given (table_type table.now) back.now))
        (table_type table.now peeled.place.ty) peeled.place.mode)) }
    ensures made { (from : ℕ) → AreMade (IsOf table.now) from next.old (trees front.now ++ trees back.now)
        → IfOk result (MadeHere table.now from next.new) }
{
    let rest = list_rest(placer, items, peeled.place.mode)?;
    let list = row_over(alloc, placer, next, peeled.place.ty, front, rest, back)?;
    let made = wrap(placer, next, peeled.levels, list)?;
    Ok(made)
}

// The first rest of a list, where this binding mode holds.
fn list_rest<'a>(placer: &FormPlacer<'a>, items: &[Pat], mode: Mode) -> Result<Rest<'a>, NoMemory>
    ensures { IfOk result (λ r. RestIs r (rest_of (patterns_from (map pattern_view items.now))) mode) }
{
    for item in items {
        if is_rest(item) {
            return item_rest(placer, item, mode);
        }
    }
    Ok(Rest::Absent)
}

// The rest that an item is.
fn item_rest<'a>(placer: &FormPlacer<'a>, item: &Pat, mode: Mode) -> Result<Rest<'a>, NoMemory>
    requires { is_rest (pattern_view item.now) ≡ true }
    ensures { IfOk result (λ r. RestIs r (rest_in (shape_of (pattern_view item.now))) mode) }
{
    match &item.kind {
        PatKind::Rest => Ok(Rest::Unnamed),
        PatKind::Bind {
            name,
            by_ref,
            mutable,
            ..
        } => {
            let name = placer.arena.place_text(name)?;
            let mode = written_mode(*by_ref, *mutable, mode);
            Ok(Rest::Named { name, mode })
        }
        _ => Ok(Rest::Absent),
    }
}

/// Puts a pattern behind the others up to the rest, or behind it. The only error is want of memory.
pub fn put<'a>(
    listed: &mut Listed<'a>,
    behind: bool,
    pattern: DePat<'a, TyId>,
) -> Result<(), NoMemory>
    ensures front { IfOk result (λ r. listed.new.front.items
        ≡ (if behind then listed.old.front.items else listed.old.front.items ++ pattern.entry ∷ [])) }
    ensures back { IfOk result (λ r. listed.new.back.items
        ≡ (if behind then listed.old.back.items ++ pattern.entry ∷ [] else listed.old.back.items)) }
{
    if behind {
        listed.back.push(pattern)?;
    } else {
        listed.front.push(pattern)?;
    }
    Ok(())
}

/// Puts a field behind the others. The only error is want of memory.
pub fn put_field<'a>(
    fields: &mut Vec<(usize, DePat<'a, TyId>)>,
    number: usize,
    pattern: DePat<'a, TyId>,
) -> Result<(), NoMemory>
    ensures { IfOk result (λ r. fields.new.items ≡ fields.old.items ++ (number, pattern.entry) ∷ []) }
{
    fields.push((number, pattern))?;
    Ok(())
}
