// The names that a way binds.
ghost use Rattle.std.specs.Prelude.{◌≡◌, ◌++◌, IfOk, OnOk, map, reverse};
ghost use Rattle.match_model.specs.Texts.{compare_texts};
ghost use Rattle.match_model.specs.Ways.{bindings_of_both};
ghost use Rattle.pattern_arena.specs.Trees.{plain_bound};
ghost use Rattle.tree_eval.specs.Views.{plain_value};
ghost use Rattle.first_match.specs.Names.{bound_to, plain_seen, names_held};
ghost use Rattle.first_match.specs.Selections.{arm_view, plain_held};

use crate::held::{Held, HeldArm};
use crate::parts::part_held;
use no_memory::NoMemory;
use pattern_arena::Bound;
use std::alloc::Global;
use std::cmp::Ordering;
use tree_eval::Value;

// A name of a pattern, with the value that the pattern meets.
#[derive(Clone, Copy)]
pub(crate) struct Seen<'a, 'v> {
    pub(crate) bound: &'a Bound<'a>,
    pub(crate) value: &'v Value,
}

// Adds the names of a pattern that meets the value.
pub(crate) fn add_names<'a, 'v>(
    seen: &mut Vec<Seen<'a, 'v>>,
    binds: &'a [Bound<'a>],
    value: &'v Value,
) -> Result<(), NoMemory>
    ensures { OnOk result (map plain_seen seen.new.items
        ≡ map plain_seen seen.old.items
        ++ map (bound_to (plain_value value.entry.now)) (map plain_bound binds.entry.now)) }
{
    for bound in binds {
        seen.push(Seen { bound, value })?;
    }
    Ok(())
}

// The names, and those of another way before them.
pub(crate) fn joined<'a, 'v>(
    mut way: Vec<Seen<'a, 'v>>,
    first: &[Seen<'a, 'v>],
) -> Result<Vec<Seen<'a, 'v>>, NoMemory>
    ensures { IfOk result (λ w. names_held w.items
        ≡ bindings_of_both (names_held first.now) (names_held way.entry.items)) }
{
    way.extend_from_slice(first)?;
    Ok(way)
}

// The same names again.
pub(crate) fn copy_names<'a, 'v>(
    alloc: Global,
    way: &[Seen<'a, 'v>],
) -> Result<Vec<Seen<'a, 'v>>, NoMemory>
    ensures { IfOk result (λ w. w.items ≡ way.now) }
{
    let copied = Vec::from_slice(alloc, way)?;
    Ok(copied)
}

// How the name of the one stands to that of the other.
fn compare<'a, 'v>(first: &Seen<'a, 'v>, second: &Seen<'a, 'v>) -> Ordering
    ensures { result ≡ compare_texts (plain_seen first.now).name (plain_seen second.now).name }
{
    first.bound.name.cmp(second.bound.name)
}

// The names ascending; of equal ones the last that was seen stands first.
fn in_order<'a, 'v>(alloc: Global, way: &[Seen<'a, 'v>]) -> Result<Vec<Seen<'a, 'v>>, NoMemory>
    ensures { IfOk result (λ w. map plain_seen w.items ≡ names_held way.now) }
{
    let mut all = copy_names(alloc, way)?;
    all.reverse();
    all.sort_by(|first, second| compare(first, second))?;
    Ok(all)
}

// A name with what it holds.
fn held_of(alloc: Global, seen: &Seen<'_, '_>) -> Result<Held, NoMemory>
    ensures { IfOk result (λ h. plain_held h ≡ plain_seen seen.now) }
{
    let name = String::from_str(alloc, seen.bound.name)?;
    let value = part_held(alloc, &seen.bound.part, seen.value)?;
    let mode = seen.bound.mode;
    Ok(Held { name, mode, value })
}

// The arm with what its names hold on the way.
pub(crate) fn held_arm(alloc: Global, arm: u32, way: &[Seen<'_, '_>]) -> Result<HeldArm, NoMemory>
    ensures { IfOk result (λ a. arm_view a ≡ record { arm = arm; bindings = names_held way.now }) }
{
    let names = in_order(alloc, way)?;
    let mut held = Vec::with_capacity(alloc, names.len())?;
    for seen in &names {
        held.push(held_of(alloc, seen)?)?;
    }
    Ok(HeldArm { arm, held })
}
