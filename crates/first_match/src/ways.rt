// The ways in which a pattern matches a value, each with the names that it binds.
ghost use Rattle.std.specs.Prelude.{◌≡◌, ◌≤◌, ◌<◌, ◌++◌, IfOk, OnOk, IfSome, [], ◌∷◌, length, map, take};
ghost use Rattle.match_model.specs.ArenaPatterns.{de_pats_of};
ghost use Rattle.match_model.specs.Ways.{bindings_of_both};
ghost use Rattle.pat_context.specs.Views.{plain_ctor};
ghost use Rattle.pattern_arena.specs.Trees.{tree};
ghost use Rattle.tree_eval.specs.Views.{plain_value};
ghost use Rattle.first_match.specs.Bound.{all_both, bound_in, bound_on, bound_ways, inner_ways, is_or, is_wild, weight};
ghost use Rattle.first_match.specs.Names.{names_held, plain_seen, put_all};
ghost use Rattle.first_match.specs.Parts.{plain_met};

use crate::names::{Seen, add_names, copy_names, joined};
use crate::parts::{Met, parts_met};
use no_memory::NoMemory;
use pat_context::Ctor;
use pattern_arena::DePat;
use std::alloc::Global;
use tree_eval::Value;

// A way: the names that it binds, from the last one on.
pub(crate) type Way<'a, 'v> = Vec<Seen<'a, 'v>>;

// A pattern and the value that it meets.
#[derive(Clone, Copy)]
struct Meeting<'a, 'v, T: Copy> {
    pattern: &'a DePat<'a, T>,
    value: &'v Value,
}

// Tells whether the constructor is a wildcard.
fn is_wild<'a>(ctor: &Ctor<'a>) -> bool
    ensures { result ≡ is_wild (plain_ctor ctor.now) }
{
    match ctor {
        Ctor::Wild => true,
        _ => false,
    }
}

// Tells whether the constructor is that of an or-pattern.
fn is_or<'a>(ctor: &Ctor<'a>) -> bool
    ensures { result ≡ is_or (plain_ctor ctor.now) }
{
    match ctor {
        Ctor::Or => true,
        _ => false,
    }
}

// The one way that binds nothing.
fn bare_way<'a, 'v>(alloc: Global) -> Result<Vec<Way<'a, 'v>>, NoMemory>
    ensures { IfOk result (λ ws. map (λ w. names_held w.items) ws.items ≡ [] ∷ []) }
{
    let mut all: Vec<Way<'a, 'v>> = Vec::new(alloc);
    let way: Way<'a, 'v> = Vec::new(alloc);
    all.push(way)?;
    Ok(all)
}

// Each of the ways, with these names before its own.
fn each_joined<'a, 'v>(
    alloc: Global,
    first: &[Seen<'a, 'v>],
    ways: Vec<Way<'a, 'v>>,
) -> Result<Vec<Way<'a, 'v>>, NoMemory>
    ensures { IfOk result (λ ws. map (λ w. names_held w.items) ws.items
        ≡ map (bindings_of_both (names_held first.now)) (map (λ w. names_held w.items) ways.entry.items)) }
{
    if first.is_empty() {
        return Ok(ways);
    }
    let mut all = Vec::with_capacity(alloc, ways.len())?;
    for way in ways {
        let new = joined(way, first)?;
        all.push(new)?;
    }
    Ok(all)
}

// Adds each of the ways with these names before its own, as long as there are fewer than so many.
fn add_joined<'a, 'v>(
    alloc: Global,
    all: &mut Vec<Way<'a, 'v>>,
    first: &[Seen<'a, 'v>],
    ways: &[Way<'a, 'v>],
    most: usize,
) -> Result<(), NoMemory>
    requires { length all.old.items ≤ most }
    ensures { OnOk result (map (λ w. names_held w.items) all.new.items
        ≡ take most (map (λ w. names_held w.items) all.old.items
        ++ map (bindings_of_both (names_held first.now)) (map (λ w. names_held w.items) ways.now))) }
{
    for way in ways {
        if all.len() >= most {
            return Ok(());
        }
        let copied = copy_names(alloc, way)?;
        let new = joined(copied, first)?;
        all.push(new)?;
    }
    Ok(())
}

// The first so many combinations of a way of the first and a way of the second, the first varying slowest.
fn some_combined<'a, 'v>(
    alloc: Global,
    firsts: &[Way<'a, 'v>],
    seconds: &[Way<'a, 'v>],
    most: usize,
) -> Result<Vec<Way<'a, 'v>>, NoMemory>
    ensures { IfOk result (λ ws. map (λ w. names_held w.items) ws.items
        ≡ take most (all_both (map (λ w. names_held w.items) firsts.now) (map (λ w. names_held w.items) seconds.now))) }
{
    let mut all = Vec::new(alloc);
    for first in firsts {
        if all.len() >= most {
            return Ok(all);
        }
        add_joined(alloc, &mut all, first, seconds, most)?;
    }
    Ok(all)
}

// The same, where there are at most so many of the second. A lone way of the first is put before each of them.
fn combined<'a, 'v>(
    alloc: Global,
    firsts: &[Way<'a, 'v>],
    seconds: Vec<Way<'a, 'v>>,
    most: usize,
) -> Result<Vec<Way<'a, 'v>>, NoMemory>
    requires { length seconds.items ≤ most }
    ensures { IfOk result (λ ws. map (λ w. names_held w.items) ws.items
        ≡ take most (all_both (map (λ w. names_held w.items) firsts.now)
        (map (λ w. names_held w.items) seconds.entry.items))) }
{
    if firsts.len() == 1 {
        return each_joined(alloc, &firsts[0], seconds);
    }
    some_combined(alloc, firsts, &seconds, most)
}

// Adds the ways.
fn add_ways<'a, 'v>(all: &mut Vec<Way<'a, 'v>>, more: Vec<Way<'a, 'v>>) -> Result<(), NoMemory>
    ensures { OnOk result (all.new.items ≡ all.old.items ++ more.entry.items) }
{
    for way in more {
        all.push(way)?;
    }
    Ok(())
}

// What stands behind one reference, where both are references.
fn behind_one<'a, 'v, T: Copy>(at: Meeting<'a, 'v, T>) -> Option<Meeting<'a, 'v, T>>
    ensures lighter { IfSome result (λ x. weight (tree x.pattern.now) < weight (tree at.entry.pattern.now)) }
    ensures ways { IfSome result (λ x. inner_ways (tree at.entry.pattern.now) (plain_value at.entry.value.now)
        ≡ bound_ways (tree x.pattern.now) (plain_value x.value.now)) }
{
    let subs = at.pattern.form.subs;
    match (&at.pattern.form.ctor, at.value) {
        (Ctor::Point, Value::Point { inner, .. }) => match subs.split_first() {
            Some((pattern, rest)) => {
                if rest.is_empty() {
                    Some(Meeting {
                        pattern,
                        value: &**inner,
                    })
                } else {
                    None
                }
            }
            None => None,
        },
        _ => None,
    }
}

// What stands behind the references that the pattern and the value begin with. The names on the way there are added.
fn behind_references<'a, 'v, T: Copy>(
    seen: &mut Vec<Seen<'a, 'v>>,
    p: &'a DePat<'a, T>,
    value: &'v Value,
) -> Result<Meeting<'a, 'v, T>, NoMemory>
    requires { seen.old.items ≡ [] }
    ensures lighter { IfOk result (λ x. weight (tree x.pattern.now) ≤ weight (tree p.entry.now)) }
    ensures ways { IfOk result (λ x. bound_ways (tree p.entry.now) (plain_value value.entry.now)
        ≡ map (put_all (map plain_seen seen.new.items)) (inner_ways (tree x.pattern.now) (plain_value x.value.now))) }
{
    let mut at = Meeting { pattern: p, value };
    'behind: loop {
        add_names(seen, at.pattern.form.binds, at.value)?;
        match behind_one(at) {
            Some(next) => at = next,
            None => return Ok(at),
        }
    }
}

// The first so many ways of the pattern on the value, in order. References are passed in a loop, since a pattern of 64
// levels may have thousands of them.
#[cycle(ways)]
pub(crate) fn ways_of<'a, 'v, T: Copy>(
    alloc: Global,
    p: &'a DePat<'a, T>,
    value: &'v Value,
    most: usize,
) -> Result<Vec<Way<'a, 'v>>, NoMemory>
    requires { 0 < most }
    ensures { IfOk result (λ ws. map (λ w. names_held w.items) ws.items
        ≡ take most (bound_ways (tree p.entry.now) (plain_value value.entry.now))) }
{
    let mut seen = Vec::new(alloc);
    let at = behind_references(&mut seen, p, value)?;
    let ways = ways_by_ctor(alloc, at.pattern, at.value, most)?;
    seen.reverse();
    each_joined(alloc, &seen, ways)
}

// The same without the pattern's own names.
#[cycle(ways)]
fn ways_by_ctor<'a, 'v, T: Copy>(
    alloc: Global,
    p: &'a DePat<'a, T>,
    value: &'v Value,
    most: usize,
) -> Result<Vec<Way<'a, 'v>>, NoMemory>
    requires { 0 < most }
    ensures { IfOk result (λ ws. map (λ w. names_held w.items) ws.items
        ≡ take most (inner_ways (tree p.entry.now) (plain_value value.entry.now))) }
{
    if is_wild(&p.form.ctor) {
        return bare_way(alloc);
    }
    if is_or(&p.form.ctor) {
        return ways_in(alloc, p.form.subs, value, most);
    }
    match parts_met(&p.form.ctor, value) {
        None => Ok(Vec::new(alloc)),
        Some(parts) => ways_on(alloc, p.form.subs, parts, most),
    }
}

// The first so many ways of the patterns, one after the other.
#[cycle(ways)]
fn ways_in<'a, 'v, T: Copy>(
    alloc: Global,
    patterns: &'a [DePat<'a, T>],
    value: &'v Value,
    most: usize,
) -> Result<Vec<Way<'a, 'v>>, NoMemory>
    ensures { IfOk result (λ ws. map (λ w. names_held w.items) ws.items
        ≡ take most (bound_in (de_pats_of (map tree patterns.entry.now)) (plain_value value.entry.now))) }
{
    let mut all = Vec::new(alloc);
    for pattern in patterns {
        if all.len() >= most {
            return Ok(all);
        }
        let more = ways_of(alloc, pattern, value, most - all.len())?;
        add_ways(&mut all, more)?;
    }
    Ok(all)
}

// The first so many combinations of one way for each part.
#[cycle(ways)]
fn ways_on<'a, 'v, T: Copy>(
    alloc: Global,
    patterns: &'a [DePat<'a, T>],
    parts: Met<'v>,
    most: usize,
) -> Result<Vec<Way<'a, 'v>>, NoMemory>
    requires { 0 < most }
    ensures { IfOk result (λ ws. map (λ w. names_held w.items) ws.items
        ≡ take most (bound_on (de_pats_of (map tree patterns.entry.now)) (plain_met parts.entry))) }
{
    if patterns.len() != parts.count() {
        return Ok(Vec::new(alloc));
    }
    let mut all = bare_way(alloc)?;
    let mut left = patterns.len();
    while left > 0 {
        left -= 1;
        let here = ways_of(alloc, &patterns[left], parts.part(left), most)?;
        let joint = combined(alloc, &here, all, most)?;
        all = joint;
    }
    Ok(all)
}
