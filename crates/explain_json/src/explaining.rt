// The text of a report as JSON.
ghost use Rattle.std.specs.Prelude.{◌≡◌, ◌-◌, IfOk, length, map};
ghost use Rattle.std.specs.List.{All};
ghost use Rattle.explain_report.specs.Arms.{read_arms};
ghost use Rattle.explain_report.specs.Skimming.{read_skimmed};
ghost use Rattle.explain_text.specs.Diagnosing.{diagnosis_of};
ghost use Rattle.explain_text.specs.Diagnostics.{IsInside, diagnostic_view};
ghost use Rattle.explain_text.specs.Sources.{mark_length};
ghost use Rattle.explain_json.specs.Texts.{AnswersBy, IsTextOf, any_breaks};

use crate::diagnostics::push_findings;
use explain_lines::checkpoints;
use explain_text::{Diagnostic, Explained, Fault, Source, mark_length, report_diagnostics};
use no_memory::NoMemory;
use std::alloc::Global;

// Whether a finding breaks a build.
fn any_breaks(found: &[Diagnostic]) -> bool
    ensures { result ≡ any_breaks (map diagnostic_view found.now) }
{
    for one in found {
        if one.breaks {
            return true;
        }
    }
    false
}

// The text of these findings.
fn findings_explained(
    alloc: Global,
    name: &str,
    file: &[u8],
    found: &[Diagnostic],
) -> Result<Explained, NoMemory>
    requires { All (IsInside (length file.now - mark_length file.now) (mark_length file.now)) (map diagnostic_view found.now) }
    ensures { IfOk result (IsTextOf name.now file.now (map diagnostic_view found.now)) }
{
    let mark = mark_length(file);
    let text = &file[mark..];
    let spots = checkpoints(alloc, text)?;
    let source = Source {
        name,
        text,
        mark,
        spots: spots.as_slice(),
        paint: false,
    };
    let mut text = String::new(alloc);
    push_findings(alloc, &mut text, &source, found)?;
    let breaks = any_breaks(found);
    Ok(Explained { text, breaks })
}

/// The findings of a report as JSON, beside the file that the report is of: a line of JSON for each, in the form of rustc's
/// diagnostics. The arguments are the file's name as it is to be shown, its bytes, the report of `check`, and the report of
/// `arms` on the same file, or no text where there is none.
///
/// It is told by these alone. Any texts and any file may be given.
pub fn explain(
    alloc: Global,
    name: &str,
    file: &[u8],
    json: &str,
    arms: &str,
) -> Result<Explained, Fault>
    ensures { AnswersBy name.now file.now (diagnosis_of file.now (read_skimmed json.now) (read_arms arms.now)) result }
{
    match report_diagnostics(alloc, file, json, arms) {
        Ok(found) => Ok(findings_explained(alloc, name, file, found.as_slice())?),
        Err(fault) => Err(fault),
    }
}
