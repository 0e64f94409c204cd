// A source of files and a sink of bytes, by what they tell of their content and how often they failed.
ghost use Rattle.std.specs.Prelude.{◌≡◌, ℕ, ◌+◌, ◌-◌, ◌<◌, ◌≤◌, ◌^◌, List, Option, length, IsSome, IsOk, IfOk, OnOk, OnErr};
ghost use Rattle.std.specs.Io.{ReadsAtMost, WritesAtMost};
ghost use Rattle.std.specs.Io.KnownBytes.{ReadConsumes, WriteAppends};
ghost use Rattle.match_io.specs.Causes.{HasCause};
ghost use Rattle.match_io.specs.Counts.{next_count};
ghost use Rattle.match_io.specs.Told.{Tells};

/// A call on the outside failed. The count of faults of the object that was called rose in that call.
#[derive(Clone, Copy, Debug, PartialEq, Eq)]
pub struct Failed;

// Counts a fault, and is its answer.
pub(crate) fn fault(faults: &mut u64) -> Failed
    ensures counted { faults.new ≡ next_count faults.old }
    ensures later { faults.old ≤ faults.new }
{
    *faults = faults.saturating_add(1);
    Failed
}

/// Files by name, each read from its start to its end. An object reads one file at a time.
pub trait Files {
    /// How often a call has failed, from 0 to 2^64 - 1. The count never falls, and stays at its last value.
    ghost faults: { Self → ℕ };

    /// The bytes under a name, where they are told. Of a name that isn't there nothing is told.
    ghost holds: { Self → List ℕ → Option (List ℕ) };

    /// What is left of the file that was begun, where it is told. Before any `begin` nothing is left.
    ghost left: { Self → Option (List ℕ) };

    /// From here on no `read` fails, and no `begin` of a name whose bytes are told.
    ghost sure: { Self → Type 0 };

    /// Goes to the start of the file of that name. A failure changes neither what the files hold nor what is left.
    fn begin(&mut self, name: &str) -> Result<(), Failed>
        ensures holds { holds self.new ≡ holds self.old }
        ensures begun { OnOk result (Tells (holds self.old name.now) (left self.new)) }
        ensures kept { OnErr result (left self.new ≡ left self.old) }
        ensures cause { HasCause (faults self.old) (faults self.new) result }
        ensures still_sure { sure self.old → sure self.new }
        ensures found { sure self.old → IsSome (holds self.old name.now) → IsOk result };

    /// Reads the next bytes to the front of the slice, and answers how many. 0 of a nonempty slice is the end of
    /// the file. A failure changes neither what the files hold nor what is left.
    fn read(&mut self, into: &mut [u8]) -> Result<usize, Failed>
        ensures bound { ReadsAtMost result into.new }
        ensures holds { holds self.new ≡ holds self.old }
        ensures bytes { ReadConsumes (left self.old) (left self.new) result into.new }
        ensures kept { OnErr result (left self.new ≡ left self.old) }
        ensures cause { HasCause (faults self.old) (faults self.new) result }
        ensures still_sure { sure self.old → sure self.new }
        ensures answers { sure self.old → IsOk result };

    ghost counts: { (files : Self) → faults files < 2 ^ 64 };
}

/// A sink of bytes, which may take any part of a piece.
pub trait Sink {
    /// How often a write has failed, from 0 to 2^64 - 1. The count never falls, and stays at its last value.
    ghost faults: { Self → ℕ };

    /// The bytes that were taken so far, where they are told.
    ghost written: { Self → Option (List ℕ) };

    /// Takes the first bytes of the piece, at least one of a nonempty piece, and answers how many. An empty piece
    /// changes nothing that was written, and neither does a failure.
    fn write(&mut self, piece: &[u8]) -> Result<usize, Failed>
        ensures bound { WritesAtMost result piece.now }
        ensures some { 0 < length piece.now → IfOk result (λ n. 0 < n) }
        ensures bytes { WriteAppends (written self.old) (written self.new) result piece.now }
        ensures kept { OnErr result (written self.new ≡ written self.old) }
        ensures cause { HasCause (faults self.old) (faults self.new) result };

    ghost counts: { (sink : Self) → faults sink < 2 ^ 64 };
}
