// The least model of Horn clauses.
ghost use Rattle.std.specs.Prelude.{◌≡◌, ◌<◌, ◌↔◌, IsTrue, IsNone, IfOk, length};
ghost use Rattle.std.specs.List.{All};
ghost use Rattle.std.specs.Option.{ForSome};
ghost use Rattle.horn_clauses.specs.Derivations.{IsLeastModel};
ghost use Rattle.horn_clauses.specs.Marks.{IsWithin, HoldsThroughout, IsClosed, IsOpenHead};

use crate::Clause;
use crate::propagation::propagate;
use no_memory::NoMemory;
use std::alloc::Global;

/// Which atoms hold in the least model of the clauses: a mark for each of the atoms from 0 to `count`, without `count`.
///
/// Each atom of each clause is below `count`. The only error is want of memory.
pub fn least_model(alloc: Global, count: u32, clauses: &[Clause]) -> Result<Vec<bool>, NoMemory>
    requires { All (IsWithin count) clauses.now }
    ensures { IfOk result (λ v. IsLeastModel count clauses.now v.items) }
{
    let mut marks = propagate(alloc, count, clauses)?;
    // All clauses are done with by now, so this asks once. That none was left out is seen here and nowhere else.
    while let Some(head) = open_head(clauses, &marks) {
        marks[head as usize] = true;
    }
    Ok(marks)
}

// The head of a clause whose body holds while its head does not.
fn open_head(clauses: &[Clause], marks: &[bool]) -> Option<u32>
    requires { All (IsWithin (length marks.now)) clauses.now }
    ensures found { ForSome result (IsOpenHead clauses.now marks.now) }
    ensures closed { IsNone result → IsClosed clauses.now marks.now }
{
    for clause in clauses {
        if !marks[clause.head as usize] && holds_throughout(&clause.body, marks) {
            return Some(clause.head);
        }
    }
    None
}

// Tells whether all atoms of a body are marked.
fn holds_throughout(body: &[u32], marks: &[bool]) -> bool
    requires { All (λ a. a < length marks.now) body.now }
    ensures { IsTrue result ↔ HoldsThroughout marks.now body.now }
{
    for atom in body {
        if !marks[*atom as usize] {
            return false;
        }
    }
    true
}
