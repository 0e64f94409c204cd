// What was decided of the or-patterns of an arm.
ghost use Rattle.std.specs.Prelude.{◌≡◌, ◌<◌, ℕ, true, map, IfOk, OnOk};
ghost use Rattle.match_model.specs.Lists.{Every};
ghost use Rattle.match_model.specs.Keys.{key_of};
ghost use Rattle.keyed_matrix.specs.KeyLists.{DoAscend, put_decision};
ghost use Rattle.keyed_matrix.specs.Deciding.{plain_decision, table_decides};

use crate::Decisions;
use no_memory::NoMemory;
use std::alloc::Global;

/// An or-pattern that was decided: its number in the arm, and the number of the alternative that was taken, both from 0.
#[derive(Clone, Copy, Debug, PartialEq, Eq, PartialOrd, Ord)]
pub struct Decided {
    pub number: u64,
    pub alternative: u64,
}

// Puts the decision into the ascending list, where nothing is decided of its or-pattern.
fn put_decision(key: &mut Vec<Decided>, decided: Decided) -> Result<(), NoMemory>
    ensures { OnOk result (map plain_decision key.new.items
        ≡ put_decision (plain_decision decided) (map plain_decision key.old.items)) }
{
    let count = key.len();
    for i in 0..count {
        if key[i].number == decided.number {
            return Ok(());
        }
        if decided.number < key[i].number {
            key.insert(i, decided)?;
            return Ok(());
        }
    }
    key.push(decided)?;
    Ok(())
}

// Tells whether the number is above those of all these decisions, which ascend.
fn is_above(key: &[Decided], number: u64) -> bool
    requires { DoAscend (map plain_decision key.now) }
    ensures { result ≡ true → Every (λ d. d.number < number) (map plain_decision key.now) }
{
    let count = key.len();
    if count == 0 {
        return true;
    }
    let last = &key[count - 1];
    last.number < number
}

// Puts the decision into the ascending list, where nothing is decided of its or-pattern. Most often it comes last.
fn add_decision(key: &mut Vec<Decided>, decided: Decided) -> Result<(), NoMemory>
    requires { DoAscend (map plain_decision key.old.items) }
    ensures { OnOk result (map plain_decision key.new.items
        ≡ put_decision (plain_decision decided) (map plain_decision key.old.items)) }
{
    if is_above(key, decided.number) {
        key.push(decided)?;
        Ok(())
    } else {
        put_decision(key, decided)
    }
}

// What the alternatives decided, ascending by the numbers of the or-patterns; the first decision of each counts.
pub(crate) fn key_of(
    alloc: Global,
    decisions: &Decisions,
    chosen: &[u64],
) -> Result<Vec<Decided>, NoMemory>
    ensures ascends { IfOk result (λ k. DoAscend (map plain_decision k.items)) }
    ensures key { IfOk result (λ k. (o : ℕ) → key_of (map plain_decision k.items) o
        ≡ key_of (map (table_decides decisions.now) chosen.now) o) }
{
    let mut key = Vec::with_capacity(alloc, chosen.len())?;
    for uid in chosen {
        add_decision(&mut key, decisions.decided(*uid))?;
    }
    Ok(key)
}
