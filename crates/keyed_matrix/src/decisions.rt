// What the alternatives of a match decide.
ghost use Rattle.std.specs.Prelude.{◌≡◌, ◌+◌, ◌∷◌, [], ℕ, map, cond, IfOk, OnOk};
ghost use Rattle.match_model.specs.ArenaPatterns.{de_pats_of};
ghost use Rattle.match_model.specs.Numbering.{or_count, is_choice, decisions_in, match_decisions, own_decision};
ghost use Rattle.pattern_arena.specs.Trees.{tree, placed_ctor, placed_subs, plain_match};
ghost use Rattle.keyed_matrix.specs.Deciding.{plain_decision, table_decides, in_table, AddsDecisions};

use crate::Decided;
use indexmap::IndexMap;
use no_memory::NoMemory;
use pat_context::Ctor;
use pattern_arena::{CheckedMatch, DePat};
use std::alloc::Global;

/// What each alternative of a match decides, by its uid.
#[derive(Drop)]
pub struct Decisions {
    of: IndexMap<u64, Decided>,
}

impl Decisions {
    /// What the alternative with the uid decides. It takes no memory.
    pub fn decided(&self, uid: u64) -> Decided
        ensures { plain_decision result ≡ table_decides self.now uid }
    {
        match self.of.get(&uid) {
            Some(decided) => *decided,
            None => Decided {
                number: 0,
                alternative: 0,
            },
        }
    }
}

// Notes what the alternative with the uid decides, where nothing is noted of it.
fn note(all: &mut Decisions, uid: u64, decided: Decided) -> Result<(), NoMemory>
    ensures { OnOk result (AddsDecisions (in_table all.old)
        (record { uid = uid; decision = plain_decision decided } ∷ []) (in_table all.new)) }
{
    if !all.of.contains_key(&uid) {
        all.of.insert(uid, decided)?;
    }
    Ok(())
}

// Tells whether the pattern is an or-pattern of two or more alternatives.
fn is_choice<'a, T: Copy>(p: &'a DePat<'a, T>) -> bool
    ensures { result ≡ is_choice (placed_ctor p.entry.now) (de_pats_of (map tree (placed_subs p.entry.now))) }
{
    match p.form.ctor {
        Ctor::Or => p.form.subs.len() > 1,
        _ => false,
    }
}

// The number of the or-pattern behind one with the number, where that is counted.
fn number_behind(number: u64, counted: bool) -> Result<u64, NoMemory>
    ensures { IfOk result (λ n. n ≡ cond counted 1 0 + number) }
{
    if !counted {
        return Ok(number);
    }
    match number.checked_add(1) {
        Some(next) => Ok(next),
        None => Err(NoMemory),
    }
}

// Notes what the pattern decides, where it is an alternative of the or-pattern with the number.
fn note_alternative(
    all: &mut Decisions,
    choice: bool,
    uid: u64,
    number: u64,
    alternative: u64,
) -> Result<(), NoMemory>
    ensures { OnOk result (AddsDecisions (in_table all.old) (own_decision choice uid number alternative)
        (in_table all.new)) }
{
    if choice {
        note(
            all,
            uid,
            Decided {
                number,
                alternative,
            },
        )
    } else {
        Ok(())
    }
}

// Notes what the alternatives in the pattern decide, where its first or-pattern has the number; gives the number of the
// first one behind it.
fn add_decisions<'a, T: Copy>(
    all: &mut Decisions,
    p: &'a DePat<'a, T>,
    number: u64,
) -> Result<u64, NoMemory>
    ensures next { IfOk result (λ n. n ≡ or_count (tree p.entry.now) + number) }
    ensures added { OnOk result (AddsDecisions (in_table all.old) (decisions_in number (tree p.entry.now))
        (in_table all.new)) }
{
    let choice = is_choice(p);
    let mut next = number_behind(number, choice)?;
    for (k, q) in p.form.subs.iter().enumerate() {
        note_alternative(all, choice, q.uid, number, k as u64)?;
        if !q.form.subs.is_empty() {
            next = add_decisions(all, q, next)?;
        }
    }
    Ok(next)
}

/// What each alternative of the match decides: in each arm the or-patterns of two or more alternatives are numbered in
/// preorder, and the alternatives of each in order, both from 0. The only error is want of memory; an arm with 2^64
/// or-patterns would want more than there is.
pub fn decisions_of<'a, T: Copy>(
    alloc: Global,
    m: &CheckedMatch<'a, T>,
) -> Result<Decisions, NoMemory>
    ensures { IfOk result (λ t. (uid : ℕ) → table_decides t uid ≡ match_decisions (plain_match m.now) uid) }
{
    let mut all = Decisions {
        of: IndexMap::new(alloc),
    };
    for arm in m.arms {
        add_decisions(&mut all, &arm.pat, 0)?;
    }
    Ok(all)
}
