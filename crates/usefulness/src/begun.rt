// Submatrices that are looked at, until all that is left of them was.
ghost use Rattle.std.specs.Prelude.{◌≡◌, ◌≤◌, ◌<◌, ◌⊎◌, ◌++◌, ◌∷◌, [], List, ℕ, true, false, OnOk};
ghost use Rattle.std.specs.List.{Contains};
ghost use Rattle.usefulness.specs.Behind.{AreEnded};
ghost use Rattle.usefulness.specs.Keys.{told_keys};

use crate::told::{Told, note_told};
use no_memory::NoMemory;

// The words of a submatrix that is looked at, and how many entries stand on the stack below what is left of it.
#[derive(Drop)]
pub(crate) struct Begun {
    pub(crate) below: usize,
    pub(crate) words: Vec<u64>,
}

// Tells whether the last of those that were begun has ended: nothing of it is left on the stack, which has so many entries.
fn has_ended(begun: &Vec<Begun>, left: usize) -> bool
    ensures ended { result ≡ true → (front : List Begun) (b : Begun) → begun.now.items ≡ front ++ b ∷ [] → left ≤ b.below }
    ensures goes { result ≡ false → (front : List Begun) (b : Begun) → begun.now.items ≡ front ++ b ∷ [] → b.below < left }
{
    let count = begun.len();
    count > 0 && begun[count - 1].below >= left
}

// Notes the words of those that have ended: these are no more.
pub(crate) fn note_ended(
    known: &mut Told,
    begun: &mut Vec<Begun>,
    left: usize,
) -> Result<(), NoMemory>
    ensures keys { (w : List ℕ) → Contains (told_keys known.new) w → Contains (told_keys known.old) w ⊎ ((b : Begun) × Contains begun.old.items b × (left ≤ b.below) × (w ≡ b.words.items)) }
    ensures ended { OnOk result (AreEnded left begun.old.items begun.new.items) }
{
    while has_ended(begun, left) {
        match begun.pop() {
            None => return Ok(()),
            Some(one) => note_told(known, one.words)?,
        }
    }
    Ok(())
}
