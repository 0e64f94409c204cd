// Propagation: which atoms hold is carried on from clause to clause.
ghost use Rattle.std.specs.Prelude.{◌≡◌, ◌<◌, ◌≤◌, ℕ, OnOk, IfOk, length, slice_index};
ghost use Rattle.std.specs.List.{All};
ghost use Rattle.horn_clauses.specs.Marks.{IsWithin, IsHeld, AreSound};
ghost use Rattle.horn_clauses.specs.Waiting.{IsSound};

use crate::Clause;
use std::alloc::{AllocError, Global};

// What is known so far, and which clause waits for what.
#[derive(Drop)]
struct Propagation {
    // Of each atom whether it is known to hold.
    marks: Vec<bool>,
    // Of each clause how many atoms at the front of its body are known to hold.
    places: Vec<usize>,
    // Of each atom a clause that waits for it.
    first_waiting: Vec<Option<usize>>,
    // Of each clause another that waits for the same atom.
    next_waiting: Vec<Option<usize>>,
    // The atoms that came to hold and have not been passed on yet.
    fresh: Vec<u32>,
}

// Marks the atoms that hold, all of which can be derived.
pub fn propagate(alloc: Global, count: u32, clauses: &[Clause]) -> Result<Vec<bool>, AllocError>
    requires { All (IsWithin count) clauses.now }
    ensures len { IfOk result (λ v. length v.items ≡ count) }
    ensures sound { IfOk result (λ v. AreSound clauses.now v.items) }
{
    let mut state = Propagation {
        marks: vec![in alloc; false; count as usize]?,
        places: vec![in alloc; 0; clauses.len()]?,
        first_waiting: vec![in alloc; None; count as usize]?,
        next_waiting: vec![in alloc; None; clauses.len()]?,
        fresh: Vec::new(alloc),
    };
    for number in 0..clauses.len() {
        settle(&mut state, clauses, number)?;
    }
    // Each atom comes to hold once at most.
    'atoms: for _ in 0..count {
        match state.fresh.pop() {
            Some(atom) => pass_on(&mut state, clauses, atom)?,
            None => break 'atoms,
        }
    }
    Ok(state.marks)
}

// Goes on with the clauses that wait for an atom which came to hold.
fn pass_on(state: &mut Propagation, clauses: &[Clause], atom: u32) -> Result<(), AllocError>
    requires within { All (IsWithin (length state.old.marks.items)) clauses.now }
    requires sound { IsSound clauses.now state.old }
    requires atom { atom < length state.old.marks.items }
    ensures sound { OnOk result (IsSound clauses.now state.new) }
    ensures len { OnOk result (length state.new.marks.items ≡ length state.old.marks.items) }
{
    let mut waiting = state.first_waiting[atom as usize];
    state.first_waiting[atom as usize] = None;
    // Each clause waits for the atom once at most.
    'chain: for _ in 0..clauses.len() {
        match waiting {
            Some(number) => {
                waiting = state.next_waiting[number];
                settle(state, clauses, number)?;
            }
            None => break 'chain,
        }
    }
    Ok(())
}

// Goes on with a clause: it comes to wait for the first atom of its body that is not known to hold, or its head holds.
fn settle(state: &mut Propagation, clauses: &[Clause], number: usize) -> Result<(), AllocError>
    requires within { All (IsWithin (length state.old.marks.items)) clauses.now }
    requires sound { IsSound clauses.now state.old }
    requires number { number < length clauses.now }
    ensures sound { OnOk result (IsSound clauses.now state.new) }
    ensures len { OnOk result (length state.new.marks.items ≡ length state.old.marks.items) }
{
    let clause = &clauses[number];
    let place = held_until(&clause.body, &state.marks, state.places[number]);
    state.places[number] = place;
    if place < clause.body.len() {
        let atom = clause.body[place] as usize;
        state.next_waiting[number] = state.first_waiting[atom];
        state.first_waiting[atom] = Some(number);
    } else if !state.marks[clause.head as usize] {
        state.fresh.push(clause.head)?;
        state.marks[clause.head as usize] = true;
    }
    Ok(())
}

// The first place of a body, from this one on, whose atom is not marked, or the body's length.
fn held_until(body: &[u32], marks: &[bool], place: usize) -> usize
    requires { All (λ a. a < length marks.now) body.now }
    ensures { (k : ℕ) → place ≤ k → k < result → IsHeld marks.now (slice_index body.now k) }
{
    let mut at = place;
    while at < body.len() && marks[body[at] as usize] {
        at += 1;
    }
    at
}
