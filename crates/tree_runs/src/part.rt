// Parts of values that are lent.
ghost use Rattle.std.specs.Prelude.{◌≡◌, IfOk, map, option_map, slice_get};
ghost use Rattle.match_model.specs.Places.{found_if, step_into, part_at};
ghost use Rattle.pat_context.specs.Views.{plain_place, plain_step};
ghost use Rattle.tree_eval.specs.Views.{plain_value};
ghost use Rattle.tree_runs.specs.Parts.{plain_part, row_of, item_from_back, items_between};

use no_memory::NoMemory;
use pat_context::Step;
use std::alloc::Global;
use tree_eval::Value;

// A part of a value: a whole value in it, or items that stand side by side in a row.
#[derive(Clone, Copy)]
pub(crate) enum Part<'a> {
    Whole(&'a Value),
    Items(&'a [Value]),
}

// The part of the value at the place, where it is there.
pub(crate) fn part_at<'a>(value: &'a Value, steps: &[Step]) -> Option<Part<'a>>
    ensures { option_map plain_part result ≡ part_at (plain_place steps.now) (plain_value value.now) }
{
    let mut part = Part::Whole(value);
    for step in steps {
        part = step_into(part, step)?;
    }
    Some(part)
}

// The part behind one step.
fn step_into<'a>(part: Part<'a>, step: &Step) -> Option<Part<'a>>
    ensures { option_map plain_part result ≡ step_into (plain_step step.now) (plain_part part.entry) }
{
    match part {
        Part::Whole(value) => step_into_value(value, step),
        Part::Items(items) => step_into_row(items, step),
    }
}

// The part of a whole value behind one step.
fn step_into_value<'a>(value: &'a Value, step: &Step) -> Option<Part<'a>>
    ensures { option_map plain_part result ≡ step_into (plain_step step.now) (plain_value value.now) }
{
    match (value, step) {
        (Value::Point { inner, .. }, Step::Through) => Some(Part::Whole(inner)),
        (
            Value::Node { variant, parts },
            Step::Field {
                variant: named,
                part,
            },
        ) => { field_at(parts, *named == *variant, *part) }
        (Value::Row(items), _) => step_into_row(items, step),
        _ => None,
    }
}

// The part of a node with the number, where the node is of the variant.
fn field_at<'a>(parts: &'a [Value], of_variant: bool, part: u32) -> Option<Part<'a>>
    ensures { option_map plain_part result ≡ found_if of_variant (slice_get (map plain_value parts.now) part) }
{
    if of_variant {
        item_at(parts, u64::from(part))
    } else {
        None
    }
}

// The part of a row behind one step.
fn step_into_row<'a>(items: &'a [Value], step: &Step) -> Option<Part<'a>>
    ensures { option_map plain_part result ≡ step_into (plain_step step.now) (row_of items.now) }
{
    match *step {
        Step::Front(i) => item_at(items, i),
        Step::Back(i) => item_from_back(items, i),
        Step::Middle { front, back } => items_between(items, front, back),
        _ => None,
    }
}

// The item with the number, from 0.
fn item_at<'a>(items: &'a [Value], i: u64) -> Option<Part<'a>>
    ensures { option_map plain_part result ≡ slice_get (map plain_value items.now) i }
{
    if i < items.len() as u64 {
        Some(Part::Whole(&items[i as usize]))
    } else {
        None
    }
}

// The item with the number from the back, from 1.
fn item_from_back<'a>(items: &'a [Value], i: u64) -> Option<Part<'a>>
    ensures { option_map plain_part result ≡ item_from_back (map plain_value items.now) i }
{
    let count = items.len() as u64;
    if 0 < i && i <= count {
        item_at(items, count - i)
    } else {
        None
    }
}

// The items without so many at each end.
fn items_between<'a>(items: &'a [Value], front: u64, back: u64) -> Option<Part<'a>>
    ensures { option_map plain_part result ≡ items_between (map plain_value items.now) front back }
{
    let count = items.len() as u64;
    if front <= count && back <= count - front {
        Some(Part::Items(&items[front as usize..(count - back) as usize]))
    } else {
        None
    }
}

// The part as a value of its own.
pub(crate) fn to_value<'a>(alloc: Global, part: Part<'a>) -> Result<Value, NoMemory>
    ensures { IfOk result (λ v. plain_value v ≡ plain_part part.entry) }
{
    match part {
        Part::Whole(value) => value.copy(alloc),
        Part::Items(items) => Ok(Value::Row(copy_items(alloc, items)?)),
    }
}

// The same items again.
fn copy_items(alloc: Global, items: &[Value]) -> Result<Vec<Value>, NoMemory>
    ensures { IfOk result (λ v. map plain_value v.items ≡ map plain_value items.now) }
{
    let mut all = Vec::with_capacity(alloc, items.len())?;
    for item in items {
        all.push(item.copy(alloc)?)?;
    }
    Ok(all)
}
