// Lists of stacks.
ghost use Rattle.std.specs.Prelude.{◌≡◌, ◌∷◌, ◌++◌, [], map, IfOk, OnOk, replicate};
ghost use Rattle.match_model.specs.Witness.{AnyOf};
ghost use Rattle.match_model.specs.WitnessList.{wrapped};
ghost use Rattle.pat_context.specs.Views.{plain_ctor};
ghost use Rattle.witnesses.specs.Views.{plain_stack, plain_names};

use no_memory::NoMemory;
use pat_context::Ctor;
use std::alloc::Global;
use witnesses::{Stack, Witness};

// One stack, with anything at so many places.
pub(crate) fn one_of_any(alloc: Global, count: usize) -> Result<Vec<Stack>, NoMemory>
    ensures { IfOk result (λ v. map plain_stack v.items ≡ replicate count AnyOf ∷ []) }
{
    let stack = Stack::of_any(alloc, count)?;
    let mut all = Vec::new(alloc);
    all.push(stack)?;
    Ok(all)
}

// Adds the stacks.
pub(crate) fn add_stacks(all: &mut Vec<Stack>, found: Vec<Stack>) -> Result<(), NoMemory>
    ensures { OnOk result (map plain_stack all.new.items ≡ map plain_stack all.old.items ++ map plain_stack found.items) }
{
    for stack in found {
        all.push(stack)?;
    }
    Ok(())
}

// Puts anything on top, so many times.
pub(crate) fn push_anys(stack: &mut Stack, count: usize) -> Result<(), NoMemory>
    ensures { OnOk result (plain_stack stack.new ≡ replicate count AnyOf ++ plain_stack stack.old) }
{
    for _place in 0..count {
        stack.push(Witness::Any)?;
    }
    Ok(())
}

// The stack with anything on top, so many times.
fn with_anys_on(mut stack: Stack, count: usize) -> Result<Stack, NoMemory>
    ensures { IfOk result (λ s. plain_stack s ≡ replicate count AnyOf ++ plain_stack stack) }
{
    push_anys(&mut stack, count)?;
    Ok(stack)
}

// The stacks with anything on top, so many times.
pub(crate) fn with_anys(
    alloc: Global,
    found: Vec<Stack>,
    count: usize,
) -> Result<Vec<Stack>, NoMemory>
    ensures { IfOk result (λ v. map plain_stack v.items ≡ map (λ w. replicate count AnyOf ++ w) (map plain_stack found.items)) }
{
    let mut all = Vec::with_capacity(alloc, found.len())?;
    for stack in found {
        let new = with_anys_on(stack, count)?;
        all.push(new)?;
    }
    Ok(all)
}

// The stack wrapped in the constructor.
fn wrap_one(
    mut stack: Stack,
    ctor: &Ctor,
    arity: usize,
    named: &Vec<&str>,
) -> Result<Stack, NoMemory>
    ensures { IfOk result (λ s. plain_stack s ≡ wrapped (plain_ctor ctor.now) (plain_names named.now.items) arity (plain_stack stack)) }
{
    stack.wrap(ctor, arity, named)?;
    Ok(stack)
}

// The stacks wrapped in the constructor.
pub(crate) fn wrap_all(
    alloc: Global,
    found: Vec<Stack>,
    ctor: &Ctor,
    arity: usize,
    named: &Vec<&str>,
) -> Result<Vec<Stack>, NoMemory>
    ensures { IfOk result (λ v. map plain_stack v.items ≡ map (wrapped (plain_ctor ctor.now) (plain_names named.now.items) arity) (map plain_stack found.items)) }
{
    let mut all = Vec::with_capacity(alloc, found.len())?;
    for stack in found {
        let new = wrap_one(stack, ctor, arity, named)?;
        all.push(new)?;
    }
    Ok(all)
}

// A copy of the stack with anything at the parts of the constructor, wrapped in it.
fn wrapped_copy(
    stack: &Stack,
    ctor: &Ctor,
    arity: usize,
    named: &Vec<&str>,
) -> Result<Stack, NoMemory>
    ensures { IfOk result (λ s. plain_stack s ≡ wrapped (plain_ctor ctor.now) (plain_names named.now.items) arity (replicate arity AnyOf ++ plain_stack stack.now)) }
{
    let mut copy = stack.copy()?;
    push_anys(&mut copy, arity)?;
    wrap_one(copy, ctor, arity, named)
}

// Copies of the stacks with anything at the parts of the constructor, wrapped in it.
pub(crate) fn wrapped_copies(
    alloc: Global,
    stacks: &Vec<Stack>,
    ctor: &Ctor,
    arity: usize,
    named: &Vec<&str>,
) -> Result<Vec<Stack>, NoMemory>
    ensures { IfOk result (λ v. map plain_stack v.items ≡ map (wrapped (plain_ctor ctor.now) (plain_names named.now.items) arity)
        (map (λ w. replicate arity AnyOf ++ w) (map plain_stack stacks.now.items))) }
{
    let mut all = Vec::with_capacity(alloc, stacks.len())?;
    for stack in stacks {
        let new = wrapped_copy(stack, ctor, arity, named)?;
        all.push(new)?;
    }
    Ok(all)
}
