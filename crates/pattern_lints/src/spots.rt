// The search for ranges of more than one number in the arms of a match.
ghost use Rattle.std.specs.Prelude.{◌≡◌, ◌<◌, ◌≤◌, [], true, map, option_map, IfOk, IfSome, OnOk};
ghost use Rattle.pat_context.specs.Views.{plain_ctor};
ghost use Rattle.range_split.specs.Ranges.{plain_range};
ghost use Rattle.pattern_arena.specs.Trees.{tree, placed_ctor, plain_arm};
ghost use Rattle.pattern_lints.specs.Spots.{several_of, own_spot, spots_in, spot_below, step_in};
ghost use Rattle.pattern_lints.specs.Finding.{AreFoundIn, Enters, GoesIn, IsLone, Notes, Opens, Steps, range_view};
ghost use Rattle.pattern_lints.specs.Meeting.{pattern_size};

use crate::found::{Finding, FoundRange, PlaceStep};
use crate::places::is_or;
use indexmap::IndexSet;
use no_memory::NoMemory;
use pat_context::Ctor;
use pattern_arena::{CheckedArm, DePat};
use range_split::Range;
use std::alloc::Global;

// The range of the constructor, if it has one of more than one number.
fn several(ctor: &Ctor) -> Option<Range>
    ensures { option_map plain_range result ≡ several_of (plain_ctor ctor.now) }
{
    match ctor {
        Ctor::Numbers(range) => {
            if range.is_single() {
                None
            } else {
                Some(*range)
            }
        }
        _ => None,
    }
}

// The number of the step, which leads to a place.
fn number_of(finding: &mut Finding, step: PlaceStep) -> Result<usize, NoMemory>
    ensures { IfOk result (λ n. Steps finding.old finding.new step n) }
{
    let (index, _new) = finding.places.insert_full(step)?;
    let count = finding.places.len();
    prove!(index < count);
    Ok(index + 1)
}

// The variant and the part of the step to the part with the number `part` of a constructor.
fn step_to(ctor: &Ctor, part: usize) -> (u32, usize)
    ensures { record { variant = result.0; part = result.1 } ≡ step_in (plain_ctor ctor.now) part }
{
    match ctor {
        Ctor::Variant(variant) => (*variant, part),
        Ctor::Row(_) => (0, 0),
        _ => (0, part),
    }
}

// The number of the place at which the pattern with the number `i` below a constructor stands, where that one stands
// at the place `above`. Alternatives stand where their or-pattern does.
fn place_below(
    finding: &mut Finding,
    above: usize,
    ctor: &Ctor,
    i: usize,
) -> Result<usize, NoMemory>
    ensures { IfOk result (λ n. Opens finding.old finding.new above (plain_ctor ctor.now) i n) }
{
    if is_or(ctor) {
        return Ok(above);
    }
    let (variant, part) = step_to(ctor, i);
    let number = number_of(
        finding,
        PlaceStep {
            above,
            variant,
            part,
        },
    )?;
    Ok(number)
}

// Notes the range, where there is one, at the place.
fn note(finding: &mut Finding, place: usize, at: u64, range: Option<Range>) -> Result<(), NoMemory>
    ensures { OnOk result (Notes finding.old finding.new place (own_spot at (option_map plain_range range))) }
{
    if let Some(range) = range {
        let path = Vec::from_slice(finding.alloc, &finding.path)?;
        finding.found.push(FoundRange {
            arm: finding.arm,
            path,
            at,
            range,
            place,
        })?;
    }
    Ok(())
}

// Tells that the pattern has no range, without a look at what stands below it.
#[tactic(auto, using(crate::proofs::Walking::spots_none))]
fn has_none<'a, T: Copy>(p: &'a DePat<'a, T>) -> bool
    ensures { result ≡ true → spots_in (tree p.entry.now) ≡ [] }
{
    match several(&p.form.ctor) {
        Some(_) => false,
        None => p.form.subs.is_empty(),
    }
}

// The pattern below, where it is the only one and may have ranges, and the pattern has none of its own.
fn lone_part<'a, T: Copy>(p: &DePat<'a, T>) -> Option<&'a DePat<'a, T>>
    ensures { IfSome result (λ sub. IsLone p.entry.now sub.now) }
{
    if p.form.subs.len() != 1 {
        return None;
    }
    let lone = p.sub(0);
    match several(&p.form.ctor) {
        None if !has_none(lone) => Some(lone),
        _ => None,
    }
}

// Goes in to the first pattern below, and tells its place.
fn go_in<'a, T: Copy>(
    finding: &mut Finding,
    place: usize,
    p: &DePat<'a, T>,
) -> Result<usize, NoMemory>
    ensures { IfOk result (λ n. GoesIn finding.old finding.new place (placed_ctor p.entry.now) n) }
{
    let below = place_below(finding, place, &p.form.ctor, 0)?;
    finding.path.push(0)?;
    Ok(below)
}

// Goes in to the first pattern that has not one part alone, as behind references, and tells its place.
fn enter<'a, T: Copy>(
    finding: &mut Finding,
    place: usize,
    p: &DePat<'a, T>,
) -> Result<(usize, DePat<'a, T>), NoMemory>
    ensures finds { IfOk result (λ r. Enters finding.old finding.new place (spots_in (tree p.entry.now)) r.0
        (spots_in (tree r.1))) }
    ensures size { IfOk result (λ r. pattern_size (tree r.1) ≤ pattern_size (tree p.entry.now)) }
{
    let mut here = *p;
    let mut at = place;
    while let Some(sub) = lone_part(&here) {
        let below = go_in(finding, at, &here)?;
        at = below;
        here = *sub;
    }
    Ok((at, here))
}

// Finds the ranges in the pattern, which stands at the place. Parts that stand alone are gone through in a loop.
#[cycle(walking)]
fn find_in<'a, T: Copy>(
    finding: &mut Finding,
    place: usize,
    p: &'a DePat<'a, T>,
) -> Result<(), NoMemory>
    ensures { OnOk result (Notes finding.old finding.new place (spots_in (tree p.entry.now))) }
{
    let length = finding.path.len();
    let (at, here) = enter(finding, place, p)?;
    find_parts(finding, at, &here)?;
    finding.path.truncate(length);
    Ok(())
}

// Finds the ranges in the pattern, which stands at the place, part by part.
#[cycle(walking)]
fn find_parts<'a, T: Copy>(
    finding: &mut Finding,
    place: usize,
    p: &DePat<'a, T>,
) -> Result<(), NoMemory>
    ensures { OnOk result (Notes finding.old finding.new place (spots_in (tree p.entry.now))) }
{
    note(finding, place, p.at, several(&p.form.ctor))?;
    for i in 0..p.form.subs.len() {
        find_below(finding, place, &p.form.ctor, i, &p.form.subs[i])?;
    }
    Ok(())
}

// Finds the ranges in the pattern with the number `i` below a constructor, which stands at the place.
#[cycle(walking)]
fn find_below<'a, T: Copy>(
    finding: &mut Finding,
    place: usize,
    ctor: &Ctor,
    i: usize,
    sub: &'a DePat<'a, T>,
) -> Result<(), NoMemory>
    ensures { OnOk result (Notes finding.old finding.new place
        (map (spot_below (plain_ctor ctor.now) i) (spots_in (tree sub.entry.now)))) }
{
    if has_none(sub) {
        return Ok(());
    }
    let below = place_below(finding, place, ctor, i)?;
    finding.path.push(i)?;
    find_in(finding, below, sub)?;
    finding.path.pop();
    Ok(())
}

// Finds the ranges in the patterns of the arms.
pub(crate) fn find_ranges<'a, T: Copy>(
    alloc: Global,
    arms: &'a [CheckedArm<'a, T>],
) -> Result<Vec<FoundRange>, NoMemory>
    ensures { IfOk result (λ v. AreFoundIn (map plain_arm arms.entry.now) (map range_view v.items)) }
{
    let mut finding = Finding {
        alloc,
        found: Vec::new(alloc),
        places: IndexSet::new(alloc),
        arm: 0,
        path: Vec::new(alloc),
    };
    for j in 0..arms.len() {
        finding.arm = j;
        find_in(&mut finding, 0, &arms[j].pat)?;
    }
    Ok(finding.found)
}
