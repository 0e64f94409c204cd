// From a report to its findings as data.
ghost use Rattle.std.specs.Prelude.{◌≡◌, ◌-◌, IfOk, length, drop, map};
ghost use Rattle.std.specs.List.{All, list_all};
ghost use Rattle.serde_json.specs.View.{view};
ghost use Rattle.explain_report.specs.Arms.{arms_view, read_arms};
ghost use Rattle.explain_report.specs.Records.{report_view};
ghost use Rattle.explain_report.specs.Reading.{report_of};
ghost use Rattle.explain_report.specs.Skimming.{read_skimmed};
ghost use Rattle.explain_places.specs.Spans.{Rise};
ghost use Rattle.explain_text.specs.Diagnosing.{Diagnoses, DiagnosesBy, checked, described, diagnosis_of, diagnosis_of_json, diagnosis_of_report, findings_of, is_found, is_inside, is_note_found};
ghost use Rattle.explain_text.specs.Diagnostics.{IsInside, diagnostic_view, note_view};
ghost use Rattle.explain_text.specs.Findings.{finding_view};
ghost use Rattle.explain_text.specs.Sources.{mark_length};

use crate::describing::diagnostics_of;
use crate::diagnostics::{Diagnostic, Note};
use crate::findings::{Finding, Site, report_findings};
use crate::order::in_file_order;
use crate::source::mark_length;
use explain_places::{Piece, Place, function_bodies, source_pieces};
use explain_report::{ReadFault, Report, read_arms, report_of, value_of};
use no_memory::NoMemory;
use serde_json::Value;
use std::alloc::{AllocError, Global};

/// Why there are no findings and no text.
#[derive(Clone, Copy, Debug, PartialEq, Eq)]
pub enum Fault {
    /// The JSON is no report: no JSON, or of another shape.
    NoReport,
    /// No token of the file begins at a place of the report, or the place is inside a character.
    NoPlace,
    /// Memory was wanted and refused.
    NoMemory,
}

impl From<AllocError> for Fault {
    ghost use Rattle.explain_text.specs.declared.diagnosing.Fault.TheVariants.{NoMemory};

    ghost from_gives = { λ _ e. e ≡ NoMemory };

    fn from(_: AllocError) -> Fault {
        Fault::NoMemory
    }
}

impl From<NoMemory> for Fault {
    ghost use Rattle.explain_text.specs.declared.diagnosing.Fault.TheVariants.{NoMemory};

    ghost from_gives = { λ _ e. e ≡ NoMemory };

    fn from(_: NoMemory) -> Fault {
        Fault::NoMemory
    }
}

// Whether a place is in the file, or none is told.
fn is_found(file: &[u8], place: Place) -> bool
    ensures { result ≡ is_found file.now place }
{
    match place {
        Place::There(span) => span.from <= file.len(),
        Place::Nowhere => true,
        Place::Lost => false,
    }
}

// Whether the places of all notes are.
fn are_found(file: &[u8], notes: &[Note]) -> bool
    ensures { result ≡ list_all (is_note_found file.now) (map note_view notes.now) }
{
    for note in notes {
        if !is_found(file, note.place) {
            return false;
        }
    }
    true
}

// Whether the places of a finding are in the file.
fn is_inside(file: &[u8], one: &Diagnostic) -> bool
    ensures { result ≡ is_inside file.now (diagnostic_view one.now) }
{
    is_found(file, one.place) && are_found(file, one.notes.as_slice())
}

// Whether the places of all findings are in the file.
fn are_inside(file: &[u8], all: &[Diagnostic]) -> bool
    ensures { result ≡ list_all (is_inside file.now) (map diagnostic_view all.now) }
{
    for one in all {
        if !is_inside(file, one) {
            return false;
        }
    }
    true
}

// Findings in words, where all of their places are in the file.
fn findings_diagnosed(
    alloc: Global,
    file: &[u8],
    arms: &[Vec<String>],
    findings: &[Finding<'_, '_>],
) -> Result<Vec<Diagnostic>, Fault>
    ensures { Diagnoses (checked file.now (described file.now (map arms_view arms.now) (map finding_view findings.now))) result }
{
    let mark = mark_length(file);
    let all = diagnostics_of(alloc, &file[mark..], mark, arms, findings)?;
    if are_inside(file, all.as_slice()) {
        Ok(all)
    } else {
        Err(Fault::NoPlace)
    }
}

// The findings of a report.
fn report_diagnosed(
    alloc: Global,
    file: &[u8],
    arms: &[Vec<String>],
    pieces: &[Piece],
    report: &Report<'_>,
) -> Result<Vec<Diagnostic>, Fault>
    requires { Rise pieces.now }
    ensures { Diagnoses (checked file.now (described file.now (map arms_view arms.now)
        (findings_of file.now pieces.now (report_view report.now)))) result }
{
    let bodies = function_bodies(alloc, pieces)?;
    let site = Site {
        file,
        pieces,
        bodies: bodies.as_slice(),
    };
    let found = report_findings(alloc, &site, report)?;
    let findings = in_file_order(found)?;
    findings_diagnosed(alloc, file, arms, findings.as_slice())
}

// The findings of a JSON value.
fn value_diagnosed(
    alloc: Global,
    file: &[u8],
    arms: &[Vec<String>],
    pieces: &[Piece],
    value: &Value,
) -> Result<Vec<Diagnostic>, Fault>
    requires { Rise pieces.now }
    ensures { Diagnoses (diagnosis_of_report file.now (map arms_view arms.now) pieces.now (report_of (view value.now))) result }
{
    match report_of(alloc, value) {
        Ok(report) => report_diagnosed(alloc, file, arms, pieces, &report),
        Err(ReadFault::NoReport) => Err(Fault::NoReport),
        Err(ReadFault::NoMemory) => Err(Fault::NoMemory),
    }
}

// The findings of a report in JSON, with the arms to add.
#[tactic(auto, unfolding(crate::specs::Diagnosing::diagnosis_of_json))]
fn json_diagnosed(
    alloc: Global,
    file: &[u8],
    arms: &[Vec<String>],
    pieces: &[Piece],
    json: &str,
) -> Result<Vec<Diagnostic>, Fault>
    requires { Rise pieces.now }
    ensures { Diagnoses (diagnosis_of_json file.now (map arms_view arms.now) pieces.now (read_skimmed json.now)) result }
{
    match value_of(alloc, json) {
        Ok(value) => value_diagnosed(alloc, file, arms, pieces, &value),
        Err(ReadFault::NoReport) => Err(Fault::NoReport),
        Err(ReadFault::NoMemory) => Err(Fault::NoMemory),
    }
}

// The findings of two reports in JSON, beside a file with these tokens.
fn both_diagnosed(
    alloc: Global,
    file: &[u8],
    pieces: &[Piece],
    json: &str,
    arms: &str,
) -> Result<Vec<Diagnostic>, Fault>
    requires { Rise pieces.now }
    ensures { Diagnoses (diagnosis_of file.now (read_skimmed json.now) (read_arms arms.now) pieces.now) result }
{
    match read_arms(alloc, arms) {
        Ok(arms) => json_diagnosed(alloc, file, arms.as_slice(), pieces, json),
        Err(ReadFault::NoReport) => Err(Fault::NoReport),
        Err(ReadFault::NoMemory) => Err(Fault::NoMemory),
    }
}

/// The findings of a report in JSON on a file, each once, in the order of their places: the bytes of the file, the report
/// of `check` or `trees`, and the report of `arms` or an empty text.
///
/// They are told by these three alone. Any JSON and any file may be given; what stands deeper in the JSON than any key
/// of a report that is shown is passed over (`explain_report::value_of`). Each place of a finding that is told is in the
/// file.
pub fn report_diagnostics(
    alloc: Global,
    file: &[u8],
    json: &str,
    arms: &str,
) -> Result<Vec<Diagnostic>, Fault>
    ensures exact { DiagnosesBy file.now (diagnosis_of file.now (read_skimmed json.now) (read_arms arms.now)) result }
    ensures inside { IfOk result (λ ds. All (IsInside (length file.now - mark_length file.now) (mark_length file.now))
        (map diagnostic_view ds.items)) }
{
    let pieces = source_pieces(alloc, file)?;
    both_diagnosed(alloc, file, pieces.as_slice(), json, arms)
}
