// Files and a sink in memory, whose calls fail where a list says so.
ghost use Rattle.std.specs.Prelude.{◌≡◌, is_err, ◌+◌, ◌-◌, ◌^◌, ◌<◌, ◌≤◌, ◌++◌, ◌↔◌, ◌⊎◌, min, [], take, drop, length, IsTrue, IsErr, IsNone, IfOk, OnOk, OnErr, IsSome, IsOk, vec_len, vec_capacity};
ghost use Rattle.std.specs.Io.{ReadsAtMost, WritesAtMost};
ghost use Rattle.std.specs.Io.KnownBytes.{ReadConsumes, WriteAppends};
ghost use Rattle.match_io.specs.Causes.{HasCause};
ghost use Rattle.match_io.specs.Counts.{is_listed, next_count, faults_after};
ghost use Rattle.match_io.specs.Named.{held, place_of, file_from};

use crate::traits::fault;
use crate::{Failed, Files, Sink};
use no_memory::NoMemory;
use std::alloc::Global;

// Copies as many bytes as there are, fit and may be taken at once.
fn copy_front(from: &[u8], step: usize, into: &mut [u8]) -> usize
    ensures count { result ≡ min (min (length from.now) step) (length into.old) }
    ensures bytes { from.now ≡ take result into.new ++ drop result from.now }
{
    let count = from.len().min(step).min(into.len());
    into[..count].copy_from_slice(&from[..count]);
    count
}

// Counts a call, and tells whether it is to fail.
fn is_failing(calls: &mut u64, failing: &[u64]) -> bool
    ensures answer { result ≡ is_listed failing.now calls.old }
    ensures counted { calls.new ≡ next_count calls.old }
{
    *calls = calls.saturating_add(1);
    failing.contains(calls)
}

/// The same bytes under every name. No call fails: the count of faults is the constant 0.
#[derive(Drop)]
pub struct SureFiles {
    bytes: Vec<u8>,
    at: usize,
}

impl SureFiles {
    ghost use Rattle.match_io.specs.Memory.{sure_bytes, sure_left};

    /// Files of these bytes, none of them begun. It takes no memory.
    pub fn new(bytes: Vec<u8>) -> SureFiles
        ensures bytes { sure_bytes result ≡ bytes.items }
        ensures left { sure_left result ≡ [] }
    {
        let at = bytes.len();
        SureFiles { bytes, at }
    }
}

impl Files for SureFiles {
    ghost use Rattle.match_io.specs.Memory.{sure_bytes, sure_left};
    ghost use Rattle.std.specs.Prelude.{Some};
    ghost use Rattle.std.proofs.Common.{lit<};

    ghost faults = { λ _. 0 };

    ghost holds = { λ files _. Some (sure_bytes files) };

    ghost left = { λ files. Some (sure_left files) };

    ghost sure = { λ _. Unit {0} };

    ghost counts = { λ _. lit< tt };

    fn begin(&mut self, _name: &str) -> Result<(), Failed> {
        self.at = 0;
        Ok(())
    }

    fn read(&mut self, into: &mut [u8]) -> Result<usize, Failed>
        ensures bound { ReadsAtMost result into.new }
        ensures holds { sure_bytes self.new ≡ sure_bytes self.old }
        ensures bytes { ReadConsumes (Some (sure_left self.old)) (Some (sure_left self.new)) result into.new }
        ensures kept { OnErr result (sure_left self.new ≡ sure_left self.old) }
        ensures cause { HasCause 0 0 result }
        ensures answers { IsOk result }

        // It gives as much as is left and fits.
        ensures amount { IfOk result (λ n. n ≡ min (length (sure_left self.old)) (length into.old)) }
    {
        let rest = self.bytes.get(self.at..).unwrap_or(&[]);
        let count = copy_front(rest, rest.len(), into);
        self.at = self.at.saturating_add(count);
        Ok(count)
    }
}

// Where the first file of that name stands.
fn place(named: &[(String, Vec<u8>)], name: &str) -> Option<usize>
    ensures { result ≡ place_of named.now name.now }
{
    named.iter().position(|file| file.0.as_str() == name)
}

// The bytes of that file from an offset on.
fn rest_of(named: &[(String, Vec<u8>)], place: usize, at: usize) -> &[u8]
    ensures { result.now ≡ file_from named.now place at }
{
    match named.get(place) {
        Some(file) => file.1.get(at..).unwrap_or(&[]),
        None => &[],
    }
}

/// Files in memory. A read gives at most `step` bytes. Calls of `begin` and `read` are counted together from 1,
/// and every call past number 2^64 - 1 has that number too. A call fails exactly where its number is listed, and
/// a `begin` also where no file has the name. Of two equal names the first counts.
#[derive(Drop)]
pub struct MemoryFiles {
    named: Vec<(String, Vec<u8>)>,
    step: usize,
    failing: Vec<u64>,
    calls: u64,
    faults: u64,
    begun: usize,
    at: usize,
    ghost gives: { 0 < step },
    ghost counted: { faults < 2 ^ 64 },
}

impl MemoryFiles {
    ghost use Rattle.match_io.specs.Memory.{memory_holds, memory_left, memory_sure, memory_step, memory_failing, memory_calls, memory_faults};
    ghost use Rattle.std.specs.Prelude.{All};

    /// Files of these names and bytes, none of them begun, no call made yet. `step` is at least 1, `failing` has
    /// the numbers of the calls that are to fail. It takes no memory.
    pub fn new(named: Vec<(String, Vec<u8>)>, step: usize, failing: Vec<u64>) -> MemoryFiles
        requires { 0 < step }
        ensures holds { memory_holds result ≡ held named.items }
        ensures left { memory_left result ≡ [] }
        ensures sure { memory_sure result ↔ All (λ n. n < 1) failing.items }
        ensures faults { memory_faults result ≡ 0 }
        ensures calls { memory_calls result ≡ 0 }
        ensures step { memory_step result ≡ step }
        ensures failing { memory_failing result ≡ failing.items }
    {
        let begun = named.len();
        MemoryFiles {
            named,
            step,
            failing,
            calls: 0,
            faults: 0,
            begun,
            at: 0,
        }
    }
}

impl Files for MemoryFiles {
    ghost use Rattle.match_io.specs.Memory.{memory_holds, memory_left, memory_sure, memory_step, memory_failing, memory_calls, memory_faults};
    ghost use Rattle.std.specs.Prelude.{Some};

    ghost faults = { memory_faults };

    ghost holds = { memory_holds };

    ghost left = { λ files. Some (memory_left files) };

    ghost sure = { memory_sure };

    ghost counts = { λ files. files.counted };

    fn begin(&mut self, name: &str) -> Result<(), Failed>
        ensures holds { memory_holds self.new ≡ memory_holds self.old }
        ensures begun { OnOk result (memory_holds self.old name.now ≡ Some (memory_left self.new)) }
        ensures kept { OnErr result (memory_left self.new ≡ memory_left self.old) }
        ensures cause { HasCause (memory_faults self.old) (memory_faults self.new) result }
        ensures still_sure { memory_sure self.old → memory_sure self.new }
        ensures found { memory_sure self.old → IsSome (memory_holds self.old name.now) → IsOk result }

        // It fails exactly where its number is listed or no file has the name.
        ensures exact { IsErr result ↔ (IsTrue (is_listed (memory_failing self.old) (memory_calls self.old))
            ⊎ IsNone (memory_holds self.old name.now)) }
        ensures counted { memory_calls self.new ≡ next_count (memory_calls self.old) }
        ensures risen { memory_faults self.new ≡ faults_after (is_err result) (memory_faults self.old) }
        ensures stays { (memory_failing self.new ≡ memory_failing self.old)
            × (memory_step self.new ≡ memory_step self.old) }
    {
        if is_failing(&mut self.calls, &self.failing) {
            return Err(fault(&mut self.faults));
        }
        match place(&self.named, name) {
            None => Err(fault(&mut self.faults)),
            Some(found) => {
                self.begun = found;
                self.at = 0;
                Ok(())
            }
        }
    }

    fn read(&mut self, into: &mut [u8]) -> Result<usize, Failed>
        ensures bound { ReadsAtMost result into.new }
        ensures holds { memory_holds self.new ≡ memory_holds self.old }
        ensures bytes { ReadConsumes (Some (memory_left self.old)) (Some (memory_left self.new)) result into.new }
        ensures kept { OnErr result (memory_left self.new ≡ memory_left self.old) }
        ensures cause { HasCause (memory_faults self.old) (memory_faults self.new) result }
        ensures still_sure { memory_sure self.old → memory_sure self.new }
        ensures answers { memory_sure self.old → IsOk result }

        // It fails exactly where its number is listed, and gives as much as is left, fits and the step allows.
        ensures exact { IsErr result ↔ IsTrue (is_listed (memory_failing self.old) (memory_calls self.old)) }
        ensures amount { IfOk result (λ n. n ≡ min (min (length (memory_left self.old)) (memory_step self.old))
            (length into.old)) }
        ensures counted { memory_calls self.new ≡ next_count (memory_calls self.old) }
        ensures risen { memory_faults self.new ≡ faults_after (is_err result) (memory_faults self.old) }
        ensures stays { (memory_failing self.new ≡ memory_failing self.old)
            × (memory_step self.new ≡ memory_step self.old) }
    {
        if is_failing(&mut self.calls, &self.failing) {
            return Err(fault(&mut self.faults));
        }
        let rest = rest_of(&self.named, self.begun, self.at);
        let count = copy_front(rest, self.step, into);
        self.at = self.at.saturating_add(count);
        Ok(count)
    }
}

/// A sink in memory. A write takes as many bytes of its piece as it can: at most `step`, and at most the room that
/// is left. Writes are counted from 1, and every write past number 2^64 - 1 has that number too. A write fails
/// exactly where its number is listed, or where its piece is nonempty and no room is left.
#[derive(Drop)]
pub struct MemorySink {
    taken: Vec<u8>,
    room: usize,
    step: usize,
    failing: Vec<u64>,
    calls: u64,
    faults: u64,
    ghost fits: { vec_len taken ≤ room },
    ghost reserved: { room ≤ vec_capacity taken },
    ghost takes: { 0 < step },
    ghost counted: { faults < 2 ^ 64 },
}

impl MemorySink {
    ghost use Rattle.match_io.specs.Memory.{sink_bytes, sink_room, sink_step, sink_failing, sink_calls, sink_faults};

    /// A sink for `room` bytes, which has none yet. `step` is at least 1, `failing` has the numbers of the writes
    /// that are to fail. All memory is taken here: a write takes none.
    pub fn new(
        alloc: Global,
        room: usize,
        step: usize,
        failing: Vec<u64>,
    ) -> Result<MemorySink, NoMemory>
        requires { 0 < step }
        ensures bytes { IfOk result (λ sink. sink_bytes sink ≡ []) }
        ensures room { IfOk result (λ sink. sink_room sink ≡ room) }
        ensures step { IfOk result (λ sink. sink_step sink ≡ step) }
        ensures failing { IfOk result (λ sink. sink_failing sink ≡ failing.items) }
        ensures calls { IfOk result (λ sink. sink_calls sink ≡ 0) }
        ensures faults { IfOk result (λ sink. sink_faults sink ≡ 0) }
    {
        match Vec::with_capacity(alloc, room) {
            Ok(taken) => Ok(MemorySink {
                taken,
                room,
                step,
                failing,
                calls: 0,
                faults: 0,
            }),
            Err(_) => Err(NoMemory),
        }
    }

    /// What was written.
    pub fn bytes(&self) -> &[u8]
        ensures { result.now ≡ sink_bytes self.now }
    {
        &self.taken
    }
}

impl Sink for MemorySink {
    ghost use Rattle.match_io.specs.Memory.{sink_bytes, sink_room, sink_step, sink_failing, sink_calls, sink_faults};
    ghost use Rattle.std.specs.Prelude.{Some};

    ghost faults = { sink_faults };

    ghost written = { λ sink. Some (sink_bytes sink) };

    ghost counts = { λ sink. sink.counted };

    fn write(&mut self, piece: &[u8]) -> Result<usize, Failed>
        ensures bound { WritesAtMost result piece.now }
        ensures some { 0 < length piece.now → IfOk result (λ n. 0 < n) }
        ensures bytes { WriteAppends (Some (sink_bytes self.old)) (Some (sink_bytes self.new)) result piece.now }
        ensures kept { OnErr result (sink_bytes self.new ≡ sink_bytes self.old) }
        ensures cause { HasCause (sink_faults self.old) (sink_faults self.new) result }

        // It fails exactly where its number is listed or a nonempty piece finds no room, and takes all it can.
        ensures exact { IsErr result ↔ (IsTrue (is_listed (sink_failing self.old) (sink_calls self.old))
            ⊎ ((0 < length piece.now) × (sink_room self.old ≤ length (sink_bytes self.old)))) }
        ensures amount { IfOk result (λ n. n ≡ min (min (length piece.now) (sink_step self.old))
            (sink_room self.old - length (sink_bytes self.old))) }
        ensures counted { sink_calls self.new ≡ next_count (sink_calls self.old) }
        ensures risen { sink_faults self.new ≡ faults_after (is_err result) (sink_faults self.old) }
        ensures stays { (sink_failing self.new ≡ sink_failing self.old) × (sink_step self.new ≡ sink_step self.old)
            × (sink_room self.new ≡ sink_room self.old) }
    {
        if is_failing(&mut self.calls, &self.failing) {
            return Err(fault(&mut self.faults));
        }
        let room = self.room - self.taken.len();
        if room == 0 && !piece.is_empty() {
            return Err(fault(&mut self.faults));
        }
        let count = piece.len().min(self.step).min(room);
        self.taken.extend_from_slice(&piece[..count]).unwrap();
        Ok(count)
    }
}
