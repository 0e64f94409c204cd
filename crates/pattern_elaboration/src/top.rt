//! The match of a function, arm by arm.
ghost use Rattle.std.specs.Prelude.{◌≡◌, ℕ, Some, IsSomeAnd, IfSome, map, slice_get, IfOk};
ghost use Rattle.std.specs.List.{Contains};
ghost use Rattle.match_model.specs.Lists.{Each};
ghost use Rattle.decl_syntax.specs.Functions.{function_view};
ghost use Rattle.decl_syntax.specs.Items.{ItemTree, ArmTree, arm_view};
ghost use Rattle.type_table.specs.Tables.{IsOf, table_type};
ghost use Rattle.pattern_arena.specs.Trees.{plain_arm, plain_match};
ghost use Rattle.pattern_rules.specs.Settings.{Setting};
ghost use Rattle.pattern_rules.specs.Faults.{function_of, BreaksNone};
ghost use Rattle.pattern_rules.specs.ShownMatches.{IsSoundArm, IsShownMatch};
ghost use Rattle.pattern_elaboration.specs.Checking.{IsOfFile, IsSettingOf};
ghost use Rattle.pattern_elaboration.specs.Numbered.{AreMade};
ghost use Rattle.pattern_elaboration.specs.Arms.{IsArmShown, IsArmMade, arm_trees, IsMatchMade, validity_by};

use crate::build::standing_as;
use crate::placing::FormPlacer;
use crate::types::Place;
use crate::walk::elaborate_pattern;
use decl_syntax::{Arm, FnItem};
use match_model::Mode;
use no_memory::NoMemory;
use pat_context::Validity;
use pattern_arena::{CheckedArm, CheckedMatch, Placer};
use std::alloc::Global;
use type_table::{TyId, TypeTable};

/// The match of a function that breaks no rule, for the engine; none where the item with this number, from 0, has no
/// scrutinee with a type. The only error is want of memory.
pub fn elaborate<'a>(
    alloc: Global,
    table: &TypeTable,
    placer: &Placer<'a>,
    item: u64,
    function: &FnItem,
) -> Result<Option<CheckedMatch<'a, TyId>>, NoMemory>
    requires { IsOfFile table.now }
    ensures shown { (s : Setting) (i : ItemTree) → IsSettingOf table.now s
        → slice_get s.items item ≡ Some i → function_of i.kind ≡ Some (function_view function.now)
        → BreaksNone s (function_view function.now)
        → ((a : ArmTree) → Contains (function_view function.now).arms a → IsSoundArm s (function_view function.now) a)
        → IfOk result (λ r. IsSomeAnd r (λ m.
        IsShownMatch (table_type table.now) s (function_view function.now) (plain_match m))) }
    ensures made { IfOk result (λ r. IfSome r (λ m. IsMatchMade table.now (plain_match m))) }
{
    let Some((ty, _)) = table.scrutinee(item) else {
        return Ok(None);
    };
    let placer = FormPlacer::new(*placer);
    let arms = checked_arms(alloc, table, &placer, &function.arms, ty)?;
    let validity = validity_by(function.deref.is_some());
    Ok(Some(CheckedMatch { ty, validity, arms }))
}

// Whether the place of the scrutinee is sure to hold a valid value: what is behind a reference is not.
fn validity_by(is_behind: bool) -> Validity
    ensures { result ≡ validity_by is_behind }
{
    if is_behind {
        Validity::Unsure
    } else {
        Validity::Sure
    }
}

// The arms, whose patterns stand at this type. They are made where they stay, in the arena.
fn checked_arms<'a>(
    alloc: Global,
    table: &TypeTable,
    placer: &FormPlacer<'a>,
    arms: &[Arm],
    ty: TyId,
) -> Result<&'a [CheckedArm<'a, TyId>], NoMemory>
    requires file { IsOfFile table.now }
    requires of { IsOf table.now ty }
    ensures shown { IfOk result (λ v. Each (IsArmShown table.now (table_type table.now ty))
        (map arm_view arms.now) (map plain_arm v.now)) }
    ensures made { IfOk result (λ v. (to : ℕ) × AreMade (IsOf table.now) 0 to (arm_trees v.now)) }
{
    let mut checked = placer.arena.list_with_room(arms.len())?;
    let mut next = 0;
    for arm in arms {
        let made = checked_arm(alloc, table, placer, &mut next, arm, ty)?;
        checked.push(made)?;
    }
    Ok(placer.arena.place_list(checked))
}

// An arm, whose pattern stands at this type.
fn checked_arm<'a>(
    alloc: Global,
    table: &TypeTable,
    placer: &FormPlacer<'a>,
    next: &mut u64,
    arm: &Arm,
    ty: TyId,
) -> Result<CheckedArm<'a, TyId>, NoMemory>
    requires file { IsOfFile table.now }
    requires of { IsOf table.now ty }
    ensures shown { IfOk result (λ d. IsArmShown table.now (table_type table.now ty) (arm_view arm.now) (plain_arm d)) }
    ensures made { IfOk result (λ d. IsArmMade table.now next.old next.new (plain_arm d)) }
{
    let here = Place {
        ty,
        mode: Mode::Move,
    };
    let pattern = elaborate_pattern(alloc, table, placer, next, &arm.pat, here)?;
    let pat = standing_as(placer, next, &arm.pat, pattern)?;
    Ok(CheckedArm {
        pat,
        guarded: arm.guarded,
    })
}
