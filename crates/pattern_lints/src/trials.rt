// Which of the columns that are tried comes first, and which are mixed behind it.
//
// Some ranges of a place are compared, and the columns that tell them apart are taken. Then all ranges of the place are
// counted: how many have several numbers in a column, and how many have all numbers there, as a wildcard has. Of the
// others some are kept, spread over all of them. They say how many pairs the column tells apart.
use crate::beside::{Column, numbers_beside};
use crate::found::FoundRange;
use crate::hulls::Hulls;
use crate::mixing::{Columns, Group, numbers_in};
use no_memory::NoMemory;
use pattern_arena::CheckedArm;
use range_split::{End, Range};
use std::alloc::Global;

// So many columns of a place are counted.
const KEPT: usize = 32;

// Of so many ranges the numbers in a column are kept.
const SAMPLED: usize = 32;

// Where fewer of the compared ranges do not have all numbers in a column, they tell nothing of it.
const TOLD: usize = 3;

// A column that is tried, and what the ranges of its place have there.
#[derive(Drop)]
pub(crate) struct Trial {
    alloc: Global,
    pub(crate) column: Column,
    // What it tells of the compared ranges, or of those in the sample.
    told: Told,
    // How many ranges have all numbers there, and how many do not.
    open: usize,
    known: usize,
    // How many ranges have several numbers there.
    several: usize,
    // Whether a range has a number of more than 64 bits there.
    is_large: bool,
    // The numbers of some of the ranges that do not have all, about one of so many.
    sample: Vec<Sampled>,
    stride: usize,
}

// The numbers of a range, and how many others before it do not have all numbers.
#[derive(Clone, Copy)]
struct Sampled {
    turn: usize,
    numbers: Range,
}

// What some ranges are told by some columns.
#[derive(Clone, Copy)]
pub(crate) struct Told {
    // How many pairs have no common number.
    apart: usize,
    // How many ranges do not have all numbers.
    known: usize,
}

// One column by itself.
fn alone(alloc: Global, column: Column) -> Columns {
    Columns {
        first: Some(column),
        groups: Vec::new(alloc),
    }
}

/// No column: all rows have the same number.
pub(crate) fn no_columns(alloc: Global) -> Columns {
    Columns {
        first: None,
        groups: Vec::new(alloc),
    }
}

// The column, before any range was looked at.
pub(crate) fn untried(alloc: Global, column: Column) -> Trial {
    Trial {
        alloc,
        column,
        told: Told { apart: 0, known: 0 },
        open: 0,
        known: 0,
        several: 0,
        is_large: false,
        sample: Vec::new(alloc),
        stride: 1,
    }
}

// The same column once more.
fn copy_of(alloc: Global, column: &Column) -> Result<Column, NoMemory> {
    let steps = Vec::from_slice(alloc, &column.steps)?;
    Ok(Column {
        depth: column.depth,
        steps,
    })
}

// Tells whether the end is free.
fn is_free(end: &End) -> bool {
    match end {
        End::Free => true,
        End::At(_) => false,
    }
}

// Tells whether the end has more than 64 bits.
fn is_large(end: &End) -> bool {
    match end {
        End::Free => false,
        End::At(number) => number.size > 18_446_744_073_709_551_615,
    }
}

// Tells whether the range has all numbers.
pub(crate) fn is_open(numbers: &Range) -> bool {
    is_free(&numbers.low()) && is_free(&numbers.high())
}

/// A number of 32 bits for the turn: those of turns that follow each other are spread.
pub(crate) fn scatter(turn: usize) -> usize {
    let spread = (turn as u128 + 1) * 11_400_714_819_323_198_485 % 18_446_744_073_709_551_616;
    (spread / 4_294_967_296) as usize
}

// Tells whether the turn is one of those that are kept: about one of so many.
fn is_taken(turn: usize, stride: usize) -> bool {
    stride > 0 && scatter(turn) % stride == 0
}

// Leaves about every second one of the numbers in the sample.
fn thin_out(trial: &mut Trial) -> Result<(), NoMemory> {
    trial.stride = trial.stride.saturating_mul(2);
    let mut kept = Vec::new(trial.alloc);
    for one in &trial.sample {
        if is_taken(one.turn, trial.stride) {
            kept.push(*one)?;
        }
    }
    trial.sample = kept;
    Ok(())
}

// Counts the numbers that one range has in the column.
fn count(trial: &mut Trial, numbers: &Range) -> Result<(), NoMemory> {
    if !numbers.is_single() {
        trial.several = trial.several.saturating_add(1);
    }
    if is_large(&numbers.low()) || is_large(&numbers.high()) {
        trial.is_large = true;
    }
    if is_open(numbers) {
        trial.open = trial.open.saturating_add(1);
        return Ok(());
    }
    let turn = trial.known;
    trial.known = turn.saturating_add(1);
    if is_taken(turn, trial.stride) {
        trial.sample.push(Sampled {
            turn,
            numbers: *numbers,
        })?;
    }
    if trial.sample.len() > SAMPLED {
        thin_out(trial)?;
    }
    Ok(())
}

// Counts what the range with the index has in each column.
fn count_range<'a, T: Copy>(
    arms: &'a [CheckedArm<'a, T>],
    found: &[FoundRange],
    hulls: &Hulls,
    index: usize,
    trials: &mut [Trial],
) -> Result<(), NoMemory> {
    let Some(range) = found.get(index) else {
        return Ok(());
    };
    let Some(arm) = arms.get(range.arm) else {
        return Ok(());
    };
    for i in 0..trials.len() {
        let column = &trials[i].column;
        let numbers = numbers_beside(hulls, &arm.pat, &range.path, column.depth, &column.steps);
        count(&mut trials[i], &numbers)?;
    }
    Ok(())
}

// Counts what the ranges with these indices have in each column.
fn count_each<'a, T: Copy>(
    arms: &'a [CheckedArm<'a, T>],
    found: &[FoundRange],
    hulls: &Hulls,
    members: &[usize],
    trials: &mut [Trial],
) -> Result<(), NoMemory> {
    for index in members {
        count_range(arms, found, hulls, *index, trials)?;
    }
    Ok(())
}

// How many of the first ones of the sample have no number in common with those here.
fn count_before(sample: &[Sampled], end: usize, here: &Range) -> usize {
    let mut count: usize = 0;
    for i in 0..end.min(sample.len()) {
        if !sample[i].numbers.meets(here) {
            count = count.saturating_add(1);
        }
    }
    count
}

// Notes what the column tells of the sample.
fn tell(trial: &mut Trial) {
    let mut apart: usize = 0;
    for i in 0..trial.sample.len() {
        let here = &trial.sample[i].numbers;
        apart = apart.saturating_add(count_before(&trial.sample, i, here));
    }
    trial.told = Told {
        apart,
        known: trial.sample.len(),
    };
}

/// Counts what the ranges with these indices have in each column, and notes what it tells of them.
pub(crate) fn tell_each<'a, T: Copy>(
    arms: &'a [CheckedArm<'a, T>],
    found: &[FoundRange],
    hulls: &Hulls,
    members: &[usize],
    trials: &mut [Trial],
) -> Result<(), NoMemory> {
    count_each(arms, found, hulls, members, trials)?;
    for i in 0..trials.len() {
        tell(&mut trials[i]);
    }
    Ok(())
}

// The numbers of the range with the index in the columns.
fn numbers_at<'a, T: Copy>(
    arms: &'a [CheckedArm<'a, T>],
    found: &[FoundRange],
    hulls: &Hulls,
    columns: &Columns,
    index: usize,
) -> Option<Range> {
    let range = found.get(index)?;
    let arm = arms.get(range.arm)?;
    Some(numbers_in(hulls, &arm.pat, &range.path, columns))
}

// How many of the numbers have none in common with those here.
fn count_others(numbers: &[Range], here: &Range) -> usize {
    let mut count: usize = 0;
    for other in numbers {
        if !other.meets(here) {
            count = count.saturating_add(1);
        }
    }
    count
}

// What the columns tell of the compared ranges.
pub(crate) fn told_by<'a, T: Copy>(
    alloc: Global,
    arms: &'a [CheckedArm<'a, T>],
    found: &[FoundRange],
    hulls: &Hulls,
    columns: &Columns,
    compared: &[usize],
) -> Result<Told, NoMemory> {
    let mut numbers = Vec::with_capacity(alloc, compared.len())?;
    let mut told = Told { apart: 0, known: 0 };
    for index in compared {
        if let Some(here) = numbers_at(arms, found, hulls, columns, *index) {
            told.apart = told.apart.saturating_add(count_others(&numbers, &here));
            if !is_open(&here) {
                told.known = told.known.saturating_add(1);
            }
            numbers.push(here)?;
        }
    }
    Ok(told)
}

// About how many pairs of all ranges have no common number, of which the compared ones that do not have all numbers are
// a part.
fn weight_of(told: Told, known: usize) -> u128 {
    let compared = told.known as u128;
    if compared == 0 {
        return 0;
    }
    let all = known as u128;
    (told.apart as u128).saturating_mul(all).saturating_mul(all) / compared / compared
}

// Tells whether the column tells many of the compared ranges nothing.
fn is_idle(trial: &Trial) -> bool {
    trial.told.apart == 0 && trial.told.known >= TOLD
}

// How many of the columns are not idle.
fn count_busy(trials: &[Trial]) -> usize {
    let mut count: usize = 0;
    for trial in trials {
        if !is_idle(trial) {
            count = count.saturating_add(1);
        }
    }
    count
}

// Where the column stands: before others that tell fewer pairs apart, and behind all others if it is idle.
fn rank(trial: &Trial) -> (bool, usize) {
    (is_idle(trial), usize::MAX - trial.told.apart)
}

/// Compares the ranges in each column, and keeps those that tell most pairs apart.
pub(crate) fn keep_best<'a, T: Copy>(
    alloc: Global,
    arms: &'a [CheckedArm<'a, T>],
    found: &[FoundRange],
    hulls: &Hulls,
    compared: &[usize],
    trials: &mut Vec<Trial>,
) -> Result<(), NoMemory> {
    for i in 0..trials.len() {
        let column = alone(alloc, copy_of(alloc, &trials[i].column)?);
        let told = told_by(alloc, arms, found, hulls, &column, compared)?;
        trials[i].told = told;
    }
    trials.sort_by_key(|trial| rank(trial))?;
    let busy = count_busy(trials);
    trials.truncate(busy.min(KEPT));
    Ok(())
}

// The column that by itself tells most pairs apart, by its index.
fn best_alone(trials: &[Trial]) -> Option<usize> {
    let mut best = None;
    let mut most = 0;
    for i in 0..trials.len() {
        let weight = weight_of(trials[i].told, trials[i].known);
        if weight > most {
            most = weight;
            best = Some(i);
        }
    }
    best
}

// Tells whether each range of the place has one number in the column, of 64 bits at most.
fn is_steady(trial: &Trial) -> bool {
    trial.several == 0 && !trial.is_large
}

// The columns from one index on but for another one. They go on as long as at most so many ranges have several
// numbers in them, counted column by column. Behind them comes the column with the second part of the result.
fn next_group(
    alloc: Global,
    trials: &[Trial],
    but: Option<usize>,
    from: usize,
    most: usize,
) -> Result<(Group, usize), NoMemory> {
    let mut columns = Vec::new(alloc);
    let mut several: usize = 0;
    for i in from..trials.len() {
        if but != Some(i) {
            several = several.saturating_add(trials[i].several);
            if several > most {
                return Ok((Group { columns }, i));
            }
            columns.push(copy_of(alloc, &trials[i].column)?)?;
        }
    }
    Ok((Group { columns }, trials.len()))
}

// The groups that are mixed behind the column with the index, or behind none. In the columns of the first group each
// range has one number. In those of the next ones more and more ranges have several.
fn groups_behind(
    alloc: Global,
    trials: &[Trial],
    first: Option<usize>,
    count: usize,
) -> Result<Vec<Group>, NoMemory> {
    let mut groups = Vec::new(alloc);
    let mut from = 0;
    for most in &[0, count / 64, count / 8, count / 2] {
        let (group, next) = next_group(alloc, trials, first, from, *most)?;
        from = next;
        if !group.columns.is_empty() {
            groups.push(group)?;
        }
    }
    Ok(groups)
}

// All columns mixed, and none first.
fn all_mixed(alloc: Global, trials: &[Trial], count: usize) -> Result<Columns, NoMemory> {
    let groups = groups_behind(alloc, trials, None, count)?;
    Ok(Columns {
        first: None,
        groups,
    })
}

// The column with the index, and the groups that are mixed behind it. Behind numbers of more than 64 bits there is no
// room for any. So where each range has one such number, and there are other columns, the column is one of the mixed.
fn with_others(
    alloc: Global,
    trials: &[Trial],
    first: usize,
    count: usize,
) -> Result<Columns, NoMemory> {
    let Some(trial) = trials.get(first) else {
        return Ok(no_columns(alloc));
    };
    if trial.is_large && trial.several == 0 && trials.len() > 1 {
        return all_mixed(alloc, trials, count);
    }
    let mut columns = alone(alloc, copy_of(alloc, &trial.column)?);
    if !trial.is_large {
        columns.groups = groups_behind(alloc, trials, Some(first), count)?;
    }
    Ok(columns)
}

/// Tells whether the first columns tell more pairs of all ranges apart than the second ones.
pub(crate) fn is_better(first: (Told, usize), second: (Told, usize)) -> bool {
    weight_of(first.0, first.1) > weight_of(second.0, second.1)
}

// The first column in which each range has one number, by its index.
fn first_steady(trials: &[Trial]) -> Option<usize> {
    for i in 0..trials.len() {
        if is_steady(&trials[i]) {
            return Some(i);
        }
    }
    None
}

// How many ranges do not have all numbers in the column with the index.
fn count_known(trials: &[Trial], i: usize) -> usize {
    match trials.get(i) {
        Some(trial) => trial.known,
        None => 0,
    }
}

/// The column that by itself tells most pairs of all ranges apart, and those that are mixed behind it. There are so many
/// ranges. The second part of the result says how many of them do not have all numbers in the first column.
pub(crate) fn best_columns(
    alloc: Global,
    trials: &[Trial],
    count: usize,
) -> Result<(Columns, usize), NoMemory> {
    let Some(best) = best_alone(trials) else {
        return Ok((no_columns(alloc), count));
    };
    let columns = with_others(alloc, trials, best, count)?;
    Ok((columns, count_known(trials, best)))
}

/// A column in which each range has one number, and those that are mixed behind it. Where there is no such column, all
/// are mixed and none comes first.
pub(crate) fn steady_columns(
    alloc: Global,
    trials: &[Trial],
    count: usize,
) -> Result<Columns, NoMemory> {
    match first_steady(trials) {
        Some(first) => with_others(alloc, trials, first, count),
        None => all_mixed(alloc, trials, count),
    }
}

// Tells whether the column tells no pair of the ranges apart.
fn tells_none(trial: &Trial) -> bool {
    trial.told.apart == 0
}

// How many of the columns tell a pair of the ranges apart.
fn count_telling(trials: &[Trial]) -> usize {
    let mut count: usize = 0;
    for trial in trials {
        if !tells_none(trial) {
            count = count.saturating_add(1);
        }
    }
    count
}

/// Leaves the columns that tell pairs of the ranges apart, with those before others in which fewer ranges have several
/// numbers.
pub(crate) fn sort_steady_first(trials: &mut Vec<Trial>) -> Result<(), NoMemory> {
    trials.sort_by_key(|trial| (tells_none(trial), trial.several))?;
    let telling = count_telling(trials);
    trials.truncate(telling);
    Ok(())
}
