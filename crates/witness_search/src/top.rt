// The witness list of a match.
ghost use Rattle.std.specs.Prelude.{◌≡◌, ◌≢◌, ◌∷◌, [], map, length, true, false, IfOk};
ghost use Rattle.std.specs.List.{All, flat_map};
ghost use Rattle.match_model.specs.Values.{MValue, Unseen};
ghost use Rattle.match_model.specs.WellTyped.{IsWellTyped};
ghost use Rattle.match_model.specs.WitnessList.{Witnesses, IsWitnessList, row_of};
ghost use Rattle.pat_context.specs.Views.{is_sure};
ghost use Rattle.pattern_arena.specs.Trees.{plain_match};
ghost use Rattle.witnesses.specs.Views.{plain_stack, plain_witness};

use crate::opened::Opened;
use crate::search::stacks_of;
use no_memory::NoMemory;
use pat_context::{CtorSet, PatCx, Validity, has_value};
use pattern_arena::CheckedMatch;
use pattern_arena::laws::matches_are_made;
use pattern_matrix::Column;
use std::alloc::Global;
use witnesses::{Stack, Witness};

// Tells whether the type has a value other than a bare unseen there.
fn is_seen<C: PatCx>(cx: &C, ty: C::Ty, validity: Validity) -> bool
    requires { C.is_type cx.now ty }
    ensures some { result ≡ true → (v : MValue) × C.is_value cx.now ty (is_sure validity) v × (v ≢ Unseen) }
    ensures none { result ≡ false → (v : MValue) → C.is_value cx.now ty (is_sure validity) v → v ≡ Unseen }
{
    match cx.set(ty) {
        CtorSet::Nothing => false,
        _ => has_value(cx, ty, validity),
    }
}

// The only witness of the stack.
fn only_one(mut stack: Stack) -> Witness
    requires { length (plain_stack stack) ≡ 1 }
    ensures { plain_stack stack ≡ plain_witness result ∷ [] }
{
    stack.pop()
}

// The only witness of each stack.
fn only_each(alloc: Global, stacks: Vec<Stack>) -> Result<Vec<Witness>, NoMemory>
    requires { All (λ s. length (plain_stack s) ≡ 1) stacks.items }
    ensures { IfOk result (λ v. map (λ w. w ∷ []) (map plain_witness v.items) ≡ map plain_stack stacks.items) }
{
    let mut all = Vec::with_capacity(alloc, stacks.len())?;
    for stack in stacks {
        let witness = only_one(stack);
        all.push(witness)?;
    }
    Ok(all)
}

// The stacks of one witness each that the match leaves.
fn stacks_of_match<'a, C: PatCx>(
    alloc: Global,
    cx: &C,
    m: &CheckedMatch<'a, C::Ty>,
) -> Result<Vec<Stack>, NoMemory>
    requires typed { IsWellTyped (C.is_type cx.now) (C.context cx.now) (plain_match m.now) }
    requires value { (v : MValue) × C.is_value cx.now m.now.ty (is_sure m.now.validity) v }
    ensures { IfOk result (λ v. Witnesses (C.context cx.now) (C.is_value cx.now) (record { type = m.now.ty; sure = is_sure m.now.validity } ∷ [])
        (flat_map row_of (plain_match m.now).arms) (map plain_stack v.items)) }
{
    matches_are_made(m);
    let mut opened = Vec::new(alloc);
    let column = Column {
        ty: m.ty,
        validity: m.validity,
    };
    opened.push(Opened { number: 0, column })?;
    let stacks = stacks_of(alloc, cx, opened, m.arms)?;
    Ok(stacks)
}

/// The witnesses of the match, in order: what the values look like that no arm without a guard takes. It is the list of
/// the definitions.
///
/// The match is well typed. The only error is want of memory.
pub fn witness_list<'a, C: PatCx>(
    alloc: Global,
    cx: &C,
    m: &CheckedMatch<'a, C::Ty>,
) -> Result<Vec<Witness>, NoMemory>
    requires { IsWellTyped (C.is_type cx.now) (C.context cx.now) (plain_match m.now) }
    ensures { IfOk result (λ v. IsWitnessList (C.context cx.now) (C.is_value cx.now) (plain_match m.now) (map plain_witness v.items)) }
{
    if is_seen(cx, m.ty, m.validity) {
        let stacks = stacks_of_match(alloc, cx, m)?;
        let all = only_each(alloc, stacks)?;
        Ok(all)
    } else {
        Ok(Vec::new(alloc))
    }
}
