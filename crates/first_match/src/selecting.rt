// What a match does with a value, arm after arm.
ghost use Rattle.std.specs.Prelude.{◌≡◌, ◌≤◌, ◌<◌, ◌^◌, ◌++◌, Bool, true, false, IfOk, OnOk, List, length, map, drop};
ghost use Rattle.match_model.specs.ArenaWays.{arena_ways};
ghost use Rattle.match_model.specs.Select.{Asked, Try, select_from, try_of};
ghost use Rattle.pattern_arena.specs.Meaning.{select};
ghost use Rattle.pattern_arena.specs.Trees.{tree};
ghost use Rattle.tree_eval.specs.Views.{plain_value};
ghost use Rattle.first_match.specs.Asking.{after_asking, ended_or, tries_binding, ways_asked};
ghost use Rattle.first_match.specs.Names.{names_held};
ghost use Rattle.first_match.specs.Selections.{arm_view, selection_view};

use crate::held::{Ending, HeldArm, Selection};
use crate::names::held_arm;
use crate::ways::{Way, ways_of};
use no_memory::NoMemory;
use pattern_arena::{CheckedArm, CheckedMatch};
use std::alloc::Global;
use tree_eval::Value;

/// What the match does with the value, where its guards give these answers in the order in which they are asked: the
/// guards that got an answer, and the arm that is taken, or that none is, or that an answer is missing. Answers that no
/// guard takes are ignored. The only error is want of memory.
///
/// The arms are fewer than 2^32.
pub fn select<'a, T: Copy>(
    alloc: Global,
    m: &CheckedMatch<'a, T>,
    value: &Value,
    answers: &[bool],
) -> Result<Selection, NoMemory>
    requires few { length m.now.arms.now < 2 ^ 32 }
    ensures { IfOk result (λ x. selection_view x ≡ select m.now (plain_value value.now) answers.now) }
{
    let mut asked = Vec::new(alloc);
    let mut number = 0;
    for arm in m.arms {
        let ended = tried(alloc, number, arm, value, answers, &mut asked)?;
        match ended {
            Some(ending) => return Ok(Selection { asked, ending }),
            None => number += 1,
        }
    }
    let ending = Ending::Missed;
    Ok(Selection { asked, ending })
}

// Tries the arm with this number, where the guards so far got the first of the answers: how the match ends there, if it
// does. A guard of the arm that refuses is noted as well.
fn tried<'a, T: Copy>(
    alloc: Global,
    number: u32,
    arm: &'a CheckedArm<'a, T>,
    value: &Value,
    answers: &[bool],
    asked: &mut Vec<HeldArm>,
) -> Result<Option<Ending>, NoMemory>
    requires { length asked.old.items ≤ length answers.now }
    ensures within { OnOk result (length asked.new.items ≤ length answers.now) }
    ensures tries { IfOk result (λ ending. (rest : List Try) →
        ended_or ending (map arm_view asked.new.items) (select_from rest (drop (length asked.new.items) answers.now))
        ≡ after_asking (map arm_view asked.old.items) (select_from
        (map (try_of number arm.entry.now.guarded)
        (arena_ways (tree arm.entry.now.pat) (plain_value value.now)) ++ rest)
        (drop (length asked.old.items) answers.now))) }
{
    if !arm.guarded {
        let ways = ways_of(alloc, &arm.pat, value, 1)?;
        return first_taken(alloc, number, &ways);
    }
    let most = ways_asked(&answers[asked.len()..]);
    let ways = ways_of(alloc, &arm.pat, value, most)?;
    guards_asked(alloc, number, &ways, answers, asked)
}

// How many ways of an arm its guard may be asked on with these answers. The first answer that takes the arm ends them.
// Where none takes it, the way behind the last answer counts too.
fn ways_asked(answers: &[bool]) -> usize
    ensures count { result ≡ ways_asked answers.now }
    ensures some { 0 < result }
{
    let mut number = 1;
    for accepts in answers {
        if *accepts {
            return number;
        }
        number += 1;
    }
    number
}

// An arm without a guard is taken by the first of its ways.
fn first_taken(alloc: Global, number: u32, ways: &[Way<'_, '_>]) -> Result<Option<Ending>, NoMemory>
    ensures { IfOk result (λ ending. (asked : List Asked) → (answers : List Bool) → (rest : List Try) →
        ended_or ending asked (select_from rest answers) ≡ after_asking asked (select_from
        (tries_binding number false (map (λ w. names_held w.items) ways.now) ++ rest) answers)) }
{
    let Some(way) = ways.first() else {
        return Ok(None);
    };
    let arm = held_arm(alloc, number, way)?;
    Ok(Some(Ending::Took(arm)))
}

// The guard of an arm is asked on each of the ways, until an answer takes the arm or is missing.
fn guards_asked(
    alloc: Global,
    number: u32,
    ways: &[Way<'_, '_>],
    answers: &[bool],
    asked: &mut Vec<HeldArm>,
) -> Result<Option<Ending>, NoMemory>
    requires { length asked.old.items ≤ length answers.now }
    ensures within { OnOk result (length asked.new.items ≤ length answers.now) }
    ensures tries { IfOk result (λ ending. (rest : List Try) →
        ended_or ending (map arm_view asked.new.items) (select_from rest (drop (length asked.new.items) answers.now))
        ≡ after_asking (map arm_view asked.old.items) (select_from
        (tries_binding number true (map (λ w. names_held w.items) ways.now) ++ rest)
        (drop (length asked.old.items) answers.now))) }
{
    for way in ways {
        if asked.len() == answers.len() {
            return Ok(Some(Ending::Short));
        }
        let accepts = answers[asked.len()];
        let arm = held_arm(alloc, number, way)?;
        asked.push(arm)?;
        if accepts {
            let taken = held_arm(alloc, number, way)?;
            return Ok(Some(Ending::Took(taken)));
        }
    }
    Ok(None)
}
