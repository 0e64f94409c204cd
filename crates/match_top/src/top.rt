// The top call.
ghost use Rattle.std.specs.Prelude.{◌≡◌, ◌≢◌, ◌↔◌, ◌≤◌, ◌<◌, ◌^◌, ◌-◌, ◌⊎◌, ℕ, List, Some, None, IsSome};
ghost use Rattle.std.specs.Io.KnownBytes.{Appends};
ghost use Rattle.demo_file.specs.Generated.{demo_file};
ghost use Rattle.match_io.specs.Causes.{Rose};
ghost use Rattle.match_top.specs.Answers.{Answers, most_taken};
ghost use Rattle.match_top.specs.DemoWords.{IsDemo, counts_request, most_items};
ghost use Rattle.match_top.specs.Reading.{HasTaken};
ghost use Rattle.match_top.specs.Statuses.{IsVerdict};
ghost use Rattle.match_top.specs.Words.{Form, form_of};
ghost use Rattle.match_top.specs.Writing.{AppendsPart};
ghost use Rattle.match_top.specs.declared.statuses.Status.{Status};

use crate::Status;
use crate::answering::answer_to;
use crate::demo_words::demo_by;
use crate::option_words::Options;
use crate::reading::{ReadError, read_source};
use crate::words::{Question, Request, asked_by};
use crate::writing::write_text;
use demo_file::demo_source;
use match_io::{Files, Sink};
use match_model::Width;
use pattern_rules::Edition;
use std::alloc::Global;

/// Does what the words ask for, and tells how it ended. The words are those of the command line without the program's
/// name: `check FILE` writes the report on the functions of a file, `trees FILE` the same with the decision tree of each
/// function that is judged, `arms FILE` the arms to add to each function, `eval FILE FN VALUE` or `eval FILE FN VALUE
/// ANSWERS` what the match of a function does with a value of its scrutinee, the guards giving these answers, `t` or `f`
/// each. Behind each of these may stand `--width` with `16`, `32` or `64`, the bits of `usize` and `isize`, and then, or
/// alone, `--edition` with `2021` or `2024`.
/// `demo N`, where N is from 1 to 200 in decimal, without a sign and without a 0 in front, reads no file: it writes the
/// counts in the report that `check` has on the file of `demo_source(N)`, and has no options. (The forms are our own
/// choice.) The files and the sink may be used again afterwards: nothing is kept between calls.
pub fn run<F: Files, K: Sink>(
    alloc: Global,
    words: &[String],
    files: &mut F,
    sink: &mut K,
) -> Status
    // Words without a form: nothing is read or written.
    ensures words { (result ≡ Status.Words)
        ↔ ((form_of words.now ≡ None) × ((n : ℕ) → IsDemo words.now n → ⊥)) }
    ensures untouched { result ≡ Status.Words → (files.new ≡ files.old) × (sink.new ≡ sink.old) }

    // What stays; and what is left at the end: what was left before, or the file without at most so many bytes at its
    // front.
    ensures holds { F.holds files.new ≡ F.holds files.old }
    ensures still_sure { F.sure files.old → F.sure files.new }
    ensures few { (form : Form) → (bytes : List ℕ) → form_of words.now ≡ Some form
        → F.holds files.old form.file ≡ Some bytes
        → (F.left files.new ≡ F.left files.old) ⊎ HasTaken most_taken bytes (F.left files.new) }

    // A fault comes only where a count rose.
    ensures counted { (F.faults files.old ≤ F.faults files.new) × (K.faults sink.old ≤ K.faults sink.new) }
    ensures read_fault { result ≡ Status.ReadFault → Rose (F.faults files.old) (F.faults files.new) }
    ensures sure { (form : Form) → form_of words.now ≡ Some form → F.sure files.old
        → IsSome (F.holds files.old form.file) → result ≢ Status.ReadFault }
    ensures write_fault { result ≡ Status.WriteFault → Rose (K.faults sink.old) (K.faults sink.new) }

    // Where no count rose, the file is judged, or memory was refused.
    ensures decided { IsSome (form_of words.now)
        → F.faults files.new ≡ F.faults files.old → F.faults files.old < 2 ^ 64 - 1
        → K.faults sink.new ≡ K.faults sink.old → K.faults sink.old < 2 ^ 64 - 1
        → IsVerdict result ⊎ (result ≡ Status.NoMemory) }

    // What is written: nothing, a front of the text, or the whole text of the whole file.
    ensures nothing { (result ≡ Status.ReadFault) ⊎ (result ≡ Status.NoMemory) → sink.new ≡ sink.old }
    ensures part { result ≡ Status.WriteFault → (form : Form) → (bytes : List ℕ) → form_of words.now ≡ Some form
        → F.holds files.old form.file ≡ Some bytes
        → (text : List ℕ) × (status : Status) × Answers form.request bytes text status
        × AppendsPart (K.written sink.old) (K.written sink.new) text }
    ensures whole { IsVerdict result → (form : Form) → (bytes : List ℕ) → form_of words.now ≡ Some form
        → F.holds files.old form.file ≡ Some bytes
        → (text : List ℕ) × Answers form.request bytes text result
        × Appends (K.written sink.old) (K.written sink.new) text }

    // Of a file of which nothing is told it is the whole text of some bytes.
    ensures seen { IsVerdict result → (form : Form) → form_of words.now ≡ Some form
        → (bytes : List ℕ) × (text : List ℕ) × Answers form.request bytes text result
        × Appends (K.written sink.old) (K.written sink.new) text }

    // `demo N` leaves the files as they were. Where no fault of the sink is counted, the generated file is judged, or
    // memory was refused; and what is written is its answer, or a front of it.
    ensures demo_files { (n : ℕ) → IsDemo words.now n → (files.new ≡ files.old) × (result ≢ Status.ReadFault) }
    ensures demo_decided { (n : ℕ) → IsDemo words.now n
        → K.faults sink.new ≡ K.faults sink.old → K.faults sink.old < 2 ^ 64 - 1
        → IsVerdict result ⊎ (result ≡ Status.NoMemory) }
    ensures demo_part { result ≡ Status.WriteFault → (n : ℕ) → IsDemo words.now n
        → (text : List ℕ) × (status : Status) × Answers counts_request (demo_file n) text status
        × AppendsPart (K.written sink.old) (K.written sink.new) text }
    ensures demo_whole { IsVerdict result → (n : ℕ) → IsDemo words.now n
        → (text : List ℕ) × Answers counts_request (demo_file n) text result
        × Appends (K.written sink.old) (K.written sink.new) text }
{
    match demo_by(words) {
        Some(n) => run_on_demo(alloc, n, sink),
        None => run_on_file(alloc, words, files, sink),
    }
}

// What a file is asked, which words other than `demo N` name.
fn run_on_file<F: Files, K: Sink>(
    alloc: Global,
    words: &[String],
    files: &mut F,
    sink: &mut K,
) -> Status
    // Words without a form: nothing is read or written.
    ensures words { (result ≡ Status.Words) ↔ (form_of words.now ≡ None) }
    ensures untouched { result ≡ Status.Words → (files.new ≡ files.old) × (sink.new ≡ sink.old) }

    // What stays; and what is left at the end: what was left before, or the file without at most so many bytes at its
    // front.
    ensures holds { F.holds files.new ≡ F.holds files.old }
    ensures still_sure { F.sure files.old → F.sure files.new }
    ensures few { (form : Form) → (bytes : List ℕ) → form_of words.now ≡ Some form
        → F.holds files.old form.file ≡ Some bytes
        → (F.left files.new ≡ F.left files.old) ⊎ HasTaken most_taken bytes (F.left files.new) }

    // A fault comes only where a count rose.
    ensures counted { (F.faults files.old ≤ F.faults files.new) × (K.faults sink.old ≤ K.faults sink.new) }
    ensures read_fault { result ≡ Status.ReadFault → Rose (F.faults files.old) (F.faults files.new) }
    ensures sure { (form : Form) → form_of words.now ≡ Some form → F.sure files.old
        → IsSome (F.holds files.old form.file) → result ≢ Status.ReadFault }
    ensures write_fault { result ≡ Status.WriteFault → Rose (K.faults sink.old) (K.faults sink.new) }

    // Where no count rose, the file is judged, or memory was refused.
    ensures decided { IsSome (form_of words.now)
        → F.faults files.new ≡ F.faults files.old → F.faults files.old < 2 ^ 64 - 1
        → K.faults sink.new ≡ K.faults sink.old → K.faults sink.old < 2 ^ 64 - 1
        → IsVerdict result ⊎ (result ≡ Status.NoMemory) }

    // What is written: nothing, a front of the text, or the whole text of the whole file.
    ensures nothing { (result ≡ Status.ReadFault) ⊎ (result ≡ Status.NoMemory) → sink.new ≡ sink.old }
    ensures part { result ≡ Status.WriteFault → (form : Form) → (bytes : List ℕ) → form_of words.now ≡ Some form
        → F.holds files.old form.file ≡ Some bytes
        → (text : List ℕ) × (status : Status) × Answers form.request bytes text status
        × AppendsPart (K.written sink.old) (K.written sink.new) text }
    ensures whole { IsVerdict result → (form : Form) → (bytes : List ℕ) → form_of words.now ≡ Some form
        → F.holds files.old form.file ≡ Some bytes
        → (text : List ℕ) × Answers form.request bytes text result
        × Appends (K.written sink.old) (K.written sink.new) text }

    // Of a file of which nothing is told it is the whole text of some bytes.
    ensures seen { IsVerdict result → (form : Form) → form_of words.now ≡ Some form
        → (bytes : List ℕ) × (text : List ℕ) × Answers form.request bytes text result
        × Appends (K.written sink.old) (K.written sink.new) text }
{
    let Some(asked) = asked_by(words) else {
        return Status::Words;
    };
    let source = match read_source(alloc, files, asked.file) {
        Ok(source) => source,
        Err(ReadError::Failed) => return Status::ReadFault,
        Err(ReadError::NoMemory) => return Status::NoMemory,
    };
    let Ok(answer) = answer_to(alloc, &asked.request, source) else {
        return Status::NoMemory;
    };
    match write_text(sink, &answer.text) {
        Ok(()) => answer.status,
        Err(_) => Status::WriteFault,
    }
}

// The counts in the report on the generated file of so many items.
fn run_on_demo<K: Sink>(alloc: Global, n: u32, sink: &mut K) -> Status
    requires { (0 < n) × (n ≤ most_items) }
    ensures words { result ≢ Status.Words }
    ensures read_fault { result ≢ Status.ReadFault }
    ensures counted { K.faults sink.old ≤ K.faults sink.new }
    ensures write_fault { result ≡ Status.WriteFault → Rose (K.faults sink.old) (K.faults sink.new) }
    ensures decided { K.faults sink.new ≡ K.faults sink.old → K.faults sink.old < 2 ^ 64 - 1
        → IsVerdict result ⊎ (result ≡ Status.NoMemory) }
    ensures nothing { result ≡ Status.NoMemory → sink.new ≡ sink.old }
    ensures part { result ≡ Status.WriteFault
        → (text : List ℕ) × (status : Status) × Answers counts_request (demo_file n) text status
        × AppendsPart (K.written sink.old) (K.written sink.new) text }
    ensures whole { IsVerdict result → (text : List ℕ) × Answers counts_request (demo_file n) text result
        × Appends (K.written sink.old) (K.written sink.new) text }
{
    let request = Request {
        question: Question::Counts,
        options: Options {
            width: Width::Endless,
            edition: Edition::E2024,
        },
    };
    let Ok(source) = demo_source(alloc, n) else {
        return Status::NoMemory;
    };
    let Ok(answer) = answer_to(alloc, &request, source) else {
        return Status::NoMemory;
    };
    match write_text(sink, &answer.text) {
        Ok(()) => answer.status,
        Err(_) => Status::WriteFault,
    }
}
