//! The checker for programs in C, and in any language that calls C.
//!
//! There are two exports. [`matchcheck_report`] has the text and the status that the program `matchcheck` has for the
//! bytes of a source. [`matchcheck_explain`] has the text that `matchexplain` prints of such a report beside its
//! source. Each puts its text into room of the caller's, or leaves the room as it was. Nothing is kept between calls:
//! there is no state and no lock, nothing is to be freed, and any number of threads may call at once.
//!
//! `include/matchcheck.h` has both for C, with what a caller owes. In `asking` a question becomes a request of
//! `match_top`, and `room` gives a text to the room.
#![tactic(auto)]

ghost use Rattle.std.specs.Prelude.{◌≡◌, ◌↔◌, ◌⊎◌, List, ℕ, None, false};
ghost use Rattle.std.specs.Str.{is_utf8};
ghost use Rattle.matchcheck_c.specs.Asking.{request_of};
ghost use Rattle.matchcheck_c.specs.Endings.{IsExplained, IsReport, IsUntold, explained_status};
ghost use Rattle.matchcheck_c.specs.Room.{IsSmall, IsUntouched, IsWhole};

mod asking;
mod room;

use crate::asking::{request_of, text_of};
use crate::room::{give, nothing};
pub use asking::Question;
use explain_text::{Fault, Form, Manner, explain};
use match_top::{Status, report};
pub use room::Told;
use std::alloc::Global;

/// The text and the status that a question has for a source.
///
/// The statuses 0, 1 and 3 are those of the program, and with these the text stands at the front of the room. With 7
/// the room is too small, and `length` says how much the text takes. With 2 the question stands for no request, and
/// with 6 memory was refused. With these three the room is as it was.
#[unsafe(no_mangle)]
pub extern "C" fn matchcheck_report(
    alloc: Global,
    question: &Question<'_>,
    source: &[u8],
    room: &mut [u8],
) -> Told
    ensures statuses { (result.status ≡ 0) ⊎ ((result.status ≡ 1) ⊎ ((result.status ≡ 2) ⊎ ((result.status ≡ 3)
        ⊎ ((result.status ≡ 6) ⊎ (result.status ≡ 7))))) }
    ensures whole { (result.status ≡ 0) ⊎ ((result.status ≡ 1) ⊎ (result.status ≡ 3)) → (text : List ℕ)
        × IsReport question.now source.now text result.status × IsWhole text result.length room.old room.new }
    ensures small { result.status ≡ 7 → (text : List ℕ) × (status : ℕ) × IsReport question.now source.now text status
        × IsSmall text result.length room.old room.new }
    ensures none { (result.status ≡ 2) ↔ (request_of question.now ≡ None) }
    ensures unasked { result.status ≡ 2 → IsUntouched result.length room.old room.new }
    ensures memory { result.status ≡ 6 → IsUntouched result.length room.old room.new }
{
    let Some(request) = request_of(question) else {
        return nothing(Status::Words);
    };
    match report(alloc, &request, source) {
        Ok(answer) => give(&answer.text, answer.status, room),
        Err(_) => nothing(Status::NoMemory),
    }
}

/// The text for people that a report has beside its source, in which the source has this name. Where the report of
/// `arms` is given too, its arms are shown in place of missing cases; it may be empty.
///
/// With 0 and 1 the text stands at the front of the room: with 1 a match is not exhaustive or a rule is broken, with 0
/// neither. With 7 the room is too small, and `length` says how much the text takes. With 2 there is nothing to tell:
/// the name or a report is no UTF-8, a report is none, or a place of it is not in the source. With 6 memory was
/// refused. With these three the room is as it was.
#[unsafe(no_mangle)]
pub extern "C" fn matchcheck_explain(
    alloc: Global,
    name: &[u8],
    source: &[u8],
    report: &[u8],
    arms: &[u8],
    room: &mut [u8],
) -> Told
    ensures statuses { (result.status ≡ 0) ⊎ ((result.status ≡ 1) ⊎ ((result.status ≡ 2) ⊎ ((result.status ≡ 6)
        ⊎ (result.status ≡ 7)))) }
    ensures whole { (result.status ≡ 0) ⊎ (result.status ≡ 1) → (text : List ℕ)
        × IsExplained name.now source.now report.now arms.now text result.status
        × IsWhole text result.length room.old room.new }
    ensures small { result.status ≡ 7 → (text : List ℕ) × (status : ℕ)
        × IsExplained name.now source.now report.now arms.now text status × IsSmall text result.length room.old room.new }
    ensures none { result.status ≡ 2 → IsUntold name.now source.now report.now arms.now }
    ensures texts { (is_utf8 name.now ≡ false) ⊎ ((is_utf8 report.now ≡ false) ⊎ (is_utf8 arms.now ≡ false)) → result.status ≡ 2 }
    ensures untold { result.status ≡ 2 → IsUntouched result.length room.old room.new }
    ensures memory { result.status ≡ 6 → IsUntouched result.length room.old room.new }
{
    let (Some(name), Some(report), Some(arms)) = (text_of(name), text_of(report), text_of(arms))
    else {
        return nothing(Status::Words);
    };
    let plain = Manner {
        form: Form::Full,
        paint: false,
    };
    match explain(alloc, plain, name, source, report, arms) {
        Ok(explained) => give(
            explained.text.as_bytes(),
            explained_status(explained.breaks),
            room,
        ),
        Err(Fault::NoMemory) => nothing(Status::NoMemory),
        Err(Fault::NoReport) => nothing(Status::Words),
        Err(Fault::NoPlace) => nothing(Status::Words),
    }
}

// The status of a text for people, by whether a finding breaks a build.
fn explained_status(breaks: bool) -> Status
    ensures { result ≡ explained_status breaks }
{
    if breaks { Status::Found } else { Status::Clean }
}
