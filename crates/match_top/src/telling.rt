// What a match does with a value, as it is shown: each value is written at the type that its name has in the arm.
ghost use Rattle.std.specs.Prelude.{◌≡◌, IfOk, map, string_bytes};
ghost use Rattle.first_match.specs.Selections.{arm_view, ending_view as selected_ending, plain_held, selection_view};
ghost use Rattle.pattern_arena.specs.Trees.{plain_match};
ghost use Rattle.tree_eval.specs.Views.{plain_value};
ghost use Rattle.type_table.specs.Tables.{IsOf, table_program, table_type};
ghost use Rattle.value_syntax.specs.Texts.{written_text};
ghost use Rattle.verdict_json.specs.OutcomeTrees.{asked_view, ending_view, held_view, outcome_view};
ghost use Rattle.witness_names.specs.Named.{IsOfFile};
ghost use Rattle.witness_names.specs.NamedValues.{written_value};
ghost use Rattle.match_top.specs.Telling.{AreNumbered, AreTypesIn, type_noted, told_binding};
ghost use Rattle.match_top.specs.Telling.{told_bindings, told_asked, told_ending, told_outcome};

use bound_types::BoundTypes;
use first_match::{Ending, Held, HeldArm, Selection};
use no_memory::NoMemory;
use pattern_arena::CheckedMatch;
use std::alloc::Global;
use tree_eval::Value;
use type_table::{TyId, TypeTable};
use value_syntax::push_written;
use verdict_json::{AskedText, EndingText, HeldText, OutcomeText};
use witness_names::name_value;

// The types of the names in the arm with this number, where there is such an arm.
#[derive(Drop)]
struct ArmTypes {
    arm: u32,
    types: Option<BoundTypes<TyId>>,
}

/// What is shown of what a match does with a value. The types of the table are those of the match.
pub(crate) fn told<'a>(
    alloc: Global,
    table: &TypeTable,
    m: &CheckedMatch<'a, TyId>,
    selection: &Selection,
) -> Result<OutcomeText, NoMemory>
    requires file { IsOfFile table.now }
    requires numbered { AreNumbered table.now (plain_match m.now) }
    ensures { IfOk result (λ o. outcome_view o
        ≡ told_outcome table.now (plain_match m.now) (selection_view selection.now)) }
{
    let asked = told_asked(alloc, table, m, &selection.asked)?;
    let ending = told_ending(alloc, table, m, &selection.ending)?;
    Ok(OutcomeText { asked, ending })
}

// The guards that got an answer. The types of an arm's names are kept while the arm stays the same.
fn told_asked<'a>(
    alloc: Global,
    table: &TypeTable,
    m: &CheckedMatch<'a, TyId>,
    arms: &[HeldArm],
) -> Result<Vec<AskedText>, NoMemory>
    requires file { IsOfFile table.now }
    requires numbered { AreNumbered table.now (plain_match m.now) }
    ensures { IfOk result (λ v. map asked_view v.items
        ≡ map (told_asked table.now (plain_match m.now)) (map arm_view arms.now)) }
{
    let mut all = Vec::with_capacity(alloc, arms.len())?;
    let mut types = types_in(alloc, m, 0)?;
    for arm in arms {
        types = types_for(alloc, m, types, arm.arm)?;
        let bindings = told_bindings(alloc, table, m, &types, arm)?;
        all.push(AskedText {
            arm: arm.arm,
            bindings,
        })?;
    }
    Ok(all)
}

// How it ends.
fn told_ending<'a>(
    alloc: Global,
    table: &TypeTable,
    m: &CheckedMatch<'a, TyId>,
    ending: &Ending,
) -> Result<EndingText, NoMemory>
    requires file { IsOfFile table.now }
    requires numbered { AreNumbered table.now (plain_match m.now) }
    ensures { IfOk result (λ e. ending_view e
        ≡ told_ending table.now (plain_match m.now) (selected_ending ending.now)) }
{
    match ending {
        Ending::Took(arm) => {
            let types = types_in(alloc, m, arm.arm)?;
            let bindings = told_bindings(alloc, table, m, &types, arm)?;
            Ok(EndingText::Took {
                arm: arm.arm,
                bindings,
            })
        }
        Ending::Missed => Ok(EndingText::Missed),
        Ending::Short => Ok(EndingText::Short),
    }
}

// The names of an arm, with what they are bound to.
fn told_bindings<'a>(
    alloc: Global,
    table: &TypeTable,
    m: &CheckedMatch<'a, TyId>,
    types: &ArmTypes,
    arm: &HeldArm,
) -> Result<Vec<HeldText>, NoMemory>
    requires file { IsOfFile table.now }
    requires numbered { AreNumbered table.now (plain_match m.now) }
    requires types { AreTypesIn (plain_match m.now) arm.now.arm types.now.types }
    ensures { IfOk result (λ v. map held_view v.items
        ≡ told_bindings table.now (plain_match m.now) (arm_view arm.now)) }
{
    let mut all = Vec::with_capacity(alloc, arm.held.len())?;
    for held in &arm.held {
        let ty = type_among(&types.types, held.name.as_str(), m.ty);
        all.push(told_held(alloc, table, ty, held)?)?;
    }
    Ok(all)
}

// The types of the names in the arm with this number: those at hand, if they are, or else new ones.
fn types_for<'a>(
    alloc: Global,
    m: &CheckedMatch<'a, TyId>,
    types: ArmTypes,
    arm: u32,
) -> Result<ArmTypes, NoMemory>
    requires { AreTypesIn (plain_match m.now) types.arm types.types }
    ensures arm { IfOk result (λ t. t.arm ≡ arm) }
    ensures types { IfOk result (λ t. AreTypesIn (plain_match m.now) arm t.types) }
{
    if types.arm == arm {
        return Ok(types);
    }
    types_in(alloc, m, arm)
}

// The types of the names in the arm with this number.
fn types_in<'a>(alloc: Global, m: &CheckedMatch<'a, TyId>, arm: u32) -> Result<ArmTypes, NoMemory>
    ensures arm { IfOk result (λ t. t.arm ≡ arm) }
    ensures types { IfOk result (λ t. AreTypesIn (plain_match m.now) arm t.types) }
{
    let Some(found) = m.arms.get(arm as usize) else {
        return Ok(ArmTypes { arm, types: None });
    };
    let types = BoundTypes::new(alloc, &found.pat)?;
    Ok(ArmTypes {
        arm,
        types: Some(types),
    })
}

// The type of the name among these, or else the other.
fn type_among(types: &Option<BoundTypes<TyId>>, name: &str, other: TyId) -> TyId
    ensures { result ≡ type_noted other types.now name.now }
{
    let Some(types) = types else {
        return other;
    };
    match types.get(name) {
        Some(ty) => ty,
        None => other,
    }
}

// A name with what it is bound to, a value of this type.
fn told_held(alloc: Global, table: &TypeTable, ty: TyId, held: &Held) -> Result<HeldText, NoMemory>
    requires file { IsOfFile table.now }
    requires of { IsOf table.now ty }
    ensures { IfOk result (λ h. held_view h ≡ told_binding table.now ty (plain_held held.now)) }
{
    let name = String::from_str(alloc, held.name.as_str())?;
    let value = value_text(alloc, table, ty, &held.value)?;
    Ok(HeldText {
        name,
        mode: held.mode,
        value,
    })
}

// The text of a value of this type.
fn value_text(alloc: Global, table: &TypeTable, ty: TyId, value: &Value) -> Result<String, NoMemory>
    requires file { IsOfFile table.now }
    requires of { IsOf table.now ty }
    ensures { IfOk result (λ s. string_bytes s
        ≡ written_text (written_value (table_program table.now) (table_type table.now ty) (plain_value value.now))) }
{
    let written = name_value(alloc, table, ty, value)?;
    let mut text = String::new(alloc);
    push_written(&mut text, &written)?;
    Ok(text)
}
