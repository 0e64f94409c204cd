// Which columns tell the rows of the ranges of a place apart.
//
// Whichever columns are taken, the same overlaps are found: it says only how many pairs of ranges are asked. Columns
// are looked for only at places where more pairs touch than there are ranges. Some ranges of a place, spread over all
// of them, are compared. Their columns are tried.
use crate::beside::{Column, stands_first};
use crate::ends::RangeEnd;
use crate::found::FoundRange;
use crate::hulls::{Hulls, numbers_of};
use crate::mixing::Columns;
use crate::places::{is_or, nth};
use crate::trials::{
    Trial, best_columns, is_better, is_open, keep_best, no_columns, scatter, sort_steady_first,
    steady_columns, tell_each, told_by, untried,
};
use no_memory::NoMemory;
use pat_context::Ctor;
use pattern_arena::{CheckedArm, DePat};
use slice_split::Shape;
use std::alloc::Global;

// With fewer ranges at a place, each two that touch are asked.
const CROWD: usize = 16;

// So many ranges of a place are compared, or up to twice as many.
const COMPARED: usize = 24;

// So many columns of a place are tried.
const TRIED: usize = 64;

// So many patterns are looked at for columns of a place.
const LOOKED_AT: usize = 512;

// The ranges of a place.
#[derive(Drop)]
pub(crate) struct Crowd {
    count: usize,
    // How many pairs of them touch.
    pairs: usize,
    // Their indices, where a column is worth while.
    members: Vec<usize>,
}

// The columns that are tried, and the steps to the pattern that is looked at.
#[derive(Drop)]
struct Trying {
    alloc: Global,
    trials: Vec<Trial>,
    steps: Vec<usize>,
    // So many of the columns are those of earlier ranges.
    earlier: usize,
    // So many patterns with a column are still looked at.
    left: usize,
}

// The greatest number of a place.
fn greatest_place(found: &[FoundRange]) -> usize {
    let mut greatest = 0;
    for range in found {
        greatest = greatest.max(range.place);
    }
    greatest
}

// So many places without a range.
fn empty_crowds(alloc: Global, count: usize) -> Result<Vec<Crowd>, NoMemory> {
    let mut crowds = Vec::new(alloc);
    for _ in 0..count {
        crowds.push(Crowd {
            count: 0,
            pairs: 0,
            members: Vec::new(alloc),
        })?;
    }
    Ok(crowds)
}

// Counts the ranges of each place.
fn count_ranges(crowds: &mut [Crowd], found: &[FoundRange]) {
    for range in found {
        if let Some(crowd) = crowds.get_mut(range.place) {
            crowd.count = crowd.count.saturating_add(1);
        }
    }
}

// Tells whether the low end stands at a place before that of the high end, or there, at a smaller number.
fn is_passed(low: &RangeEnd, high: &RangeEnd) -> bool {
    low.place < high.place || low.place == high.place && !high.number.is_at_most(&low.number)
}

// Tells whether the two ends are one number at one place.
fn touch(one: &RangeEnd, other: &RangeEnd) -> bool {
    one.place == other.place && one.number == other.number
}

// The index of the first of the low ends from the index on that is not passed by the high end.
fn pass(lows: &[RangeEnd], from: usize, high: &RangeEnd) -> usize {
    for i in from..lows.len() {
        if !is_passed(&lows[i], high) {
            return i;
        }
    }
    lows.len()
}

// How many of the low ends from the index on touch the high end, up to the first that does not.
fn count_touching(lows: &[RangeEnd], from: usize, high: &RangeEnd) -> usize {
    let mut count: usize = 0;
    for i in from..lows.len() {
        if !touch(&lows[i], high) {
            return count;
        }
        count = count.saturating_add(1);
    }
    count
}

// Counts the pairs of each place that touch; the ends are sorted by place and number.
fn count_pairs(crowds: &mut [Crowd], highs: &[RangeEnd], lows: &[RangeEnd]) {
    let mut at = 0;
    let mut touching: usize = 0;
    let mut before: Option<&RangeEnd> = None;
    for high in highs {
        if !before.is_some_and(|end| touch(end, high)) {
            at = pass(lows, at, high);
            touching = count_touching(lows, at, high);
        }
        if let Some(crowd) = crowds.get_mut(high.place) {
            crowd.pairs = crowd.pairs.saturating_add(touching);
        }
        before = Some(high);
    }
}

// Tells whether a column is worth while at the place.
fn is_crowded(crowd: &Crowd) -> bool {
    crowd.count >= CROWD && crowd.pairs > crowd.count
}

// Tells whether a column is worth while at one of the places.
fn some_is_crowded(crowds: &[Crowd]) -> bool {
    for crowd in crowds {
        if is_crowded(crowd) {
            return true;
        }
    }
    false
}

// Adds each range to its place, where a column is worth while.
fn add_members(crowds: &mut [Crowd], found: &[FoundRange]) -> Result<(), NoMemory> {
    for index in 0..found.len() {
        if let Some(crowd) = crowds.get_mut(found[index].place)
            && is_crowded(crowd)
        {
            crowd.members.push(index)?;
        }
    }
    Ok(())
}

// The first one of so many, or another one of those up to the next step.
fn jump(turn: usize, step: usize, shift: usize) -> usize {
    if step == 0 {
        return turn;
    }
    let more = scatter(turn.saturating_add(shift)) % step;
    turn.saturating_mul(step).saturating_add(more)
}

// Some of the members: one of so many that follow each other, and each time another one of them, since rows often come
// by turns. Another shift gives others.
fn spread(alloc: Global, members: &[usize], shift: usize) -> Result<Vec<usize>, NoMemory> {
    let step = members.len() / COMPARED;
    let mut compared = Vec::new(alloc);
    for turn in 0..COMPARED.saturating_mul(2) {
        if let Some(index) = members.get(jump(turn, step, shift)) {
            compared.push(*index)?;
        }
    }
    Ok(compared)
}

// The members whose columns are tried: those that are compared, and as many others.
fn all_asked(alloc: Global, members: &[usize]) -> Result<Vec<usize>, NoMemory> {
    let mut asked = spread(alloc, members, 0)?;
    let others = spread(alloc, members, members.len())?;
    for index in &others {
        asked.push(*index)?;
    }
    Ok(asked)
}

// Tells whether the pattern has not all numbers.
fn has_own_numbers<'a, T: Copy>(hulls: &Hulls, p: &'a DePat<'a, T>) -> bool {
    match p.form.ctor {
        Ctor::Variant(_) | Ctor::Flag(_) | Ctor::Numbers(_) => true,
        Ctor::Text(_) | Ctor::Row(Shape::Fixed(_)) => true,
        Ctor::Or => !is_open(&numbers_of(hulls, p)),
        _ => false,
    }
}

// Tells whether an earlier range has the column at the steps too.
fn is_tried(trying: &Trying, depth: usize) -> bool {
    for i in 0..trying.earlier.min(trying.trials.len()) {
        let column = &trying.trials[i].column;
        if column.depth == depth && column.steps == trying.steps {
            return true;
        }
    }
    false
}

// Adds the column at the steps, if it is not tried already.
fn add_column(trying: &mut Trying, depth: usize) -> Result<(), NoMemory> {
    trying.left = trying.left.saturating_sub(1);
    if is_tried(trying, depth) {
        return Ok(());
    }
    let steps = Vec::from_slice(trying.alloc, &trying.steps)?;
    trying
        .trials
        .push(untried(trying.alloc, Column { depth, steps }))?;
    Ok(())
}

// Adds the columns of the pattern and of those below it.
fn add_columns<'a, T: Copy>(
    hulls: &Hulls,
    trying: &mut Trying,
    p: &'a DePat<'a, T>,
    depth: usize,
) -> Result<(), NoMemory> {
    if trying.left == 0 || trying.trials.len() >= TRIED {
        return Ok(());
    }
    if has_own_numbers(hulls, p) {
        add_column(trying, depth)?;
    }
    for j in 0..p.form.subs.len() {
        if stands_first(&p.form.ctor, j) {
            trying.steps.push(j)?;
            add_columns(hulls, trying, &p.form.subs[j], depth)?;
            trying.steps.pop();
        }
    }
    Ok(())
}

// Adds the columns below the pattern, but not those of the part with the number `i`.
fn add_others<'a, T: Copy>(
    hulls: &Hulls,
    trying: &mut Trying,
    p: &'a DePat<'a, T>,
    i: usize,
    depth: usize,
) -> Result<(), NoMemory> {
    for j in 0..p.form.subs.len() {
        if j != i && stands_first(&p.form.ctor, j) {
            trying.steps.push(j)?;
            add_columns(hulls, trying, &p.form.subs[j], depth)?;
            trying.steps.pop();
        }
    }
    Ok(())
}

// Adds the columns beside the path, the pattern being at the depth.
fn add_beside<'a, T: Copy>(
    hulls: &Hulls,
    trying: &mut Trying,
    p: &'a DePat<'a, T>,
    path: &[usize],
    depth: usize,
) -> Result<(), NoMemory> {
    let Some((i, rest)) = path.split_first() else {
        return Ok(());
    };
    let Some(sub) = nth(p, *i) else {
        return Ok(());
    };
    if is_or(&p.form.ctor) {
        return add_beside(hulls, trying, sub, rest, depth);
    }
    add_others(hulls, trying, p, *i, depth)?;
    add_beside(hulls, trying, sub, rest, depth.saturating_add(1))
}

// The columns beside the ranges with these indices, each once.
fn columns_beside<'a, T: Copy>(
    alloc: Global,
    arms: &'a [CheckedArm<'a, T>],
    found: &[FoundRange],
    hulls: &Hulls,
    asked: &[usize],
) -> Result<Vec<Trial>, NoMemory> {
    let mut trying = Trying {
        alloc,
        trials: Vec::new(alloc),
        steps: Vec::new(alloc),
        earlier: 0,
        left: LOOKED_AT,
    };
    for index in asked {
        if let Some(range) = found.get(*index)
            && let Some(arm) = arms.get(range.arm)
        {
            add_beside(hulls, &mut trying, &arm.pat, &range.path, 0)?;
            trying.earlier = trying.trials.len();
        }
    }
    Ok(trying.trials)
}

// The columns for a place with these ranges.
fn columns_for<'a, T: Copy>(
    alloc: Global,
    arms: &'a [CheckedArm<'a, T>],
    found: &[FoundRange],
    hulls: &Hulls,
    members: &[usize],
) -> Result<Columns, NoMemory> {
    let compared = spread(alloc, members, 0)?;
    let asked = all_asked(alloc, members)?;
    let mut trials = columns_beside(alloc, arms, found, hulls, &asked)?;
    keep_best(alloc, arms, found, hulls, &compared, &mut trials)?;
    tell_each(arms, found, hulls, members, &mut trials)?;
    sort_steady_first(&mut trials)?;
    let (own, known) = best_columns(alloc, &trials, members.len())?;
    let other = steady_columns(alloc, &trials, members.len())?;
    let by_own = told_by(alloc, arms, found, hulls, &own, &compared)?;
    let by_other = told_by(alloc, arms, found, hulls, &other, &compared)?;
    if is_better((by_other, members.len()), (by_own, known)) {
        Ok(other)
    } else {
        Ok(own)
    }
}

/// The ranges of each place, by its number; none at all where no place is worth a column. The ends are those of the
/// ranges, by place and number. The only error is want of memory.
pub(crate) fn find_crowds(
    alloc: Global,
    found: &[FoundRange],
    highs: &[RangeEnd],
    lows: &[RangeEnd],
) -> Result<Vec<Crowd>, NoMemory> {
    if found.len() < CROWD {
        return Ok(Vec::new(alloc));
    }
    let mut crowds = empty_crowds(alloc, greatest_place(found).saturating_add(1))?;
    count_ranges(&mut crowds, found);
    count_pairs(&mut crowds, highs, lows);
    if !some_is_crowded(&crowds) {
        return Ok(Vec::new(alloc));
    }
    add_members(&mut crowds, found)?;
    Ok(crowds)
}

/// The columns for each place, by its number. The only error is want of memory.
pub(crate) fn choose_columns<'a, T: Copy>(
    alloc: Global,
    arms: &'a [CheckedArm<'a, T>],
    found: &[FoundRange],
    hulls: &Hulls,
    crowds: &[Crowd],
) -> Result<Vec<Columns>, NoMemory> {
    let mut columns = Vec::new(alloc);
    for i in 0..crowds.len() {
        let chosen = if crowds[i].members.is_empty() {
            no_columns(alloc)
        } else {
            columns_for(alloc, arms, found, hulls, &crowds[i].members)?
        };
        columns.push(chosen)?;
    }
    Ok(columns)
}
