// What of a match no value comes to.
ghost use Rattle.std.specs.Prelude.{◌≡◌, ◌≤◌, ◌^◌, ◌++◌, nat_lt, not, ◌&&◌, map, length, IfOk, OnOk};
ghost use Rattle.match_model.specs.ArenaUnreachable.{in_reading_order};
ghost use Rattle.match_model.specs.ArenaWays.{arena_alternatives, arena_arm, match_arms};
ghost use Rattle.match_model.specs.Rows.{is_or_ctor};
ghost use Rattle.pat_context.specs.Views.{plain_ctor};
ghost use Rattle.pattern_arena.specs.Trees.{tree, placed_ctor, placed_subs, plain_arm, plain_match};
ghost use Rattle.pattern_matrix.specs.Counting.{to_arm, through_alternative};
ghost use Rattle.pattern_matrix.specs.ReachLaws.{left_in, left_from};
ghost use Rattle.witness_search.specs.Entries.{plain_entries, left_of_one, left_of_arm, left_of_arms};

use no_memory::NoMemory;
use pat_context::Ctor;
use pattern_arena::{CheckedArm, CheckedMatch, DePat};
use pattern_matrix::Marked;
use std::alloc::Global;
use witnesses::Unreachable;

// Tells whether the constructor is an or-pattern.
fn is_or(ctor: &Ctor) -> bool
    ensures { result ≡ is_or_ctor (plain_ctor ctor.now) }
{
    match ctor {
        Ctor::Or => true,
        _ => false,
    }
}

// Tells whether the patterns below are alternatives of which one is chosen: those of an or-pattern with several. Most patterns
// have none below them, so that is asked first.
fn is_choice<'a, T: Copy>(p: &'a DePat<'a, T>) -> bool
    ensures { result ≡ (is_or_ctor (placed_ctor p.entry.now) && nat_lt 1 (length (placed_subs p.entry.now))) }
{
    p.form.subs.len() > 1 && is_or(&p.form.ctor)
}

// Tells whether the pattern is an alternative to which no value comes.
fn is_left<M: Marked>(marks: &M, arm: u32, uid: u64, chosen: bool) -> bool
    ensures { result ≡ (chosen && not (M.is_marked marks.now (through_alternative arm uid))) }
{
    chosen && !marks.has_alternative(arm, uid)
}

// Adds the alternatives in the pattern to which no value comes, none inside another.
#[cycle(walking)]
#[tactic(auto, using(crate::proofs::Walking::walks))]
fn add_left<'a, T: Copy, M: Marked>(
    marks: &M,
    found: &mut Vec<Unreachable>,
    arm: u32,
    p: &'a DePat<'a, T>,
) -> Result<(), NoMemory>
    ensures { OnOk result (plain_entries found.new.items ≡ plain_entries found.old.items
        ++ left_in (λ id. M.is_marked marks.now (through_alternative arm id)) arm (arena_alternatives (tree p.entry.now))) }
{
    let chosen = is_choice(p);
    for q in p.form.subs {
        add_one_left(marks, found, arm, chosen, q)?;
    }
    Ok(())
}

// Adds the pattern, if it is an alternative to which no value comes, else the alternatives in it to which none comes. Most
// patterns have none below them, which is told without a call.
#[cycle(walking)]
#[tactic(auto, using(crate::proofs::Walking::walks))]
fn add_one_left<'a, T: Copy, M: Marked>(
    marks: &M,
    found: &mut Vec<Unreachable>,
    arm: u32,
    chosen: bool,
    q: &'a DePat<'a, T>,
) -> Result<(), NoMemory>
    ensures { OnOk result (plain_entries found.new.items ≡ plain_entries found.old.items
        ++ left_of_one (λ id. M.is_marked marks.now (through_alternative arm id)) arm chosen (tree q.entry.now)) }
{
    if is_left(marks, arm, q.uid, chosen) {
        found.push(Unreachable {
            arm,
            at: q.at,
            uid: q.uid,
            whole: false,
        })?;
        Ok(())
    } else if q.form.subs.is_empty() {
        Ok(())
    } else {
        add_left(marks, found, arm, q)
    }
}

// Adds the arm, if no value comes to it, else its alternatives to which none comes.
fn add_arm<'a, T: Copy, M: Marked>(
    marks: &M,
    found: &mut Vec<Unreachable>,
    arm: u32,
    checked: &'a CheckedArm<'a, T>,
) -> Result<(), NoMemory>
    ensures { OnOk result (plain_entries found.new.items ≡ plain_entries found.old.items
        ++ left_of_arm (M.is_marked marks.now) arm (arena_arm (plain_arm checked.entry.now))) }
{
    if marks.has_arm(arm) {
        add_left(marks, found, arm, &checked.pat)
    } else {
        found.push(Unreachable {
            arm,
            at: checked.pat.at,
            uid: checked.pat.uid,
            whole: true,
        })?;
        Ok(())
    }
}

// What of the arms no value comes to, as it stands in them.
fn left_of_arms<'a, T: Copy, M: Marked>(
    alloc: Global,
    marks: &M,
    arms: &'a [CheckedArm<'a, T>],
) -> Result<Vec<Unreachable>, NoMemory>
    requires { length arms.now ≤ 2 ^ 32 }
    ensures { IfOk result (λ v. plain_entries v.items ≡ left_of_arms (M.is_marked marks.now) 0 (map arena_arm (map plain_arm arms.entry.now))) }
{
    let mut found = Vec::new(alloc);
    for i in 0..arms.len() {
        add_arm(marks, &mut found, i as u32, &arms[i])?;
    }
    Ok(found)
}

// The entries in reading order.
fn in_order(mut found: Vec<Unreachable>) -> Result<Vec<Unreachable>, NoMemory>
    ensures { IfOk result (λ v. plain_entries v.items ≡ in_reading_order (plain_entries found.items)) }
{
    found.sort_by_key(|e| (e.arm, e.at))?;
    Ok(found)
}

/// What of the match no value comes to, by the marks, in reading order: arms, and alternatives of arms to which some value
/// comes, none inside another.
///
/// There are at most 2^32 arms. The only error is want of memory.
pub fn unreachable_list<'a, T: Copy, M: Marked>(
    alloc: Global,
    m: &CheckedMatch<'a, T>,
    marks: &M,
) -> Result<Vec<Unreachable>, NoMemory>
    requires { length m.now.arms.now ≤ 2 ^ 32 }
    ensures { IfOk result (λ v. plain_entries v.items ≡ in_reading_order
        (left_from (λ j. M.is_marked marks.now (to_arm j)) (λ j id. M.is_marked marks.now (through_alternative j id)) 0 (match_arms (plain_match m.now)))) }
{
    let found = left_of_arms(alloc, marks, m.arms)?;
    let all = in_order(found)?;
    Ok(all)
}
