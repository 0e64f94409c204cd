// Things that are given numbers, put in the order of their numbers.
ghost use Rattle.std.specs.Prelude.{◌≡◌, length, option_map, IfOk, MatchOption, None, replicate};
ghost use Rattle.value_text.specs.Fields.{in_order, all_some};

use no_memory::NoMemory;
use std::alloc::Global;

// One thing for each of so many numbers, if each of these is given exactly once.
pub(crate) fn in_order<T: Drop>(
    alloc: Global,
    count: usize,
    given: Vec<(u32, T)>,
) -> Result<Option<Vec<T>>, NoMemory>
    ensures { IfOk result (λ o. option_map (λ v. v.items) o ≡ in_order 0 count given.items) }
{
    let slots = empty_slots(alloc, count)?;
    match fill(slots, given) {
        Some(slots) => all_there(alloc, slots),
        None => Ok(None),
    }
}

// So many empty slots.
fn empty_slots<T: Drop>(alloc: Global, count: usize) -> Result<Vec<Option<T>>, NoMemory>
    ensures { IfOk result (λ slots. slots.items ≡ replicate count None) }
{
    let mut slots = Vec::with_capacity(alloc, count)?;
    for _ in 0..count {
        slots.push(None)?;
    }
    Ok(slots)
}

// The slots with each thing in the slot of its number; none where a slot is to hold two. What is given a number past the
// last slot is dropped.
fn fill<T: Drop>(slots: Vec<Option<T>>, given: Vec<(u32, T)>) -> Option<Vec<Option<T>>>
    requires { slots.items ≡ replicate (length slots.items) None }
    ensures { MatchOption result
        (in_order 0 (length slots.items) given.items ≡ None)
        (λ s. in_order 0 (length slots.items) given.items ≡ all_some s.items) }
{
    let mut slots = slots;
    let mut given = given;
    while let Some((i, thing)) = given.pop() {
        let i = i as usize;
        if i < slots.len() {
            if slots[i].is_some() {
                return None;
            }
            slots[i] = Some(thing);
        }
    }
    Some(slots)
}

// What the slots hold, if none is empty.
fn all_there<T: Drop>(alloc: Global, slots: Vec<Option<T>>) -> Result<Option<Vec<T>>, NoMemory>
    ensures { IfOk result (λ o. option_map (λ v. v.items) o ≡ all_some slots.items) }
{
    let mut all = Vec::with_capacity(alloc, slots.len())?;
    for slot in slots {
        match slot {
            Some(thing) => all.push(thing)?,
            None => return Ok(None),
        }
    }
    Ok(Some(all))
}
