// The text of a report.
ghost use Rattle.std.specs.Prelude.{◌≡◌, ◌-◌, IfOk, length, map, string_bytes};
ghost use Rattle.std.specs.List.{All};
ghost use Rattle.explain_report.specs.Arms.{read_arms};
ghost use Rattle.explain_report.specs.Skimming.{read_skimmed};
ghost use Rattle.explain_text.specs.Diagnosing.{Diagnosed};
ghost use Rattle.explain_text.specs.Diagnostics.{IsInside, diagnostic_view};
ghost use Rattle.explain_text.specs.Sources.{mark_length};
ghost use Rattle.explain_text.specs.Texts.{AnswersBy, Told, outcome_of, told_of};

use crate::diagnosing::{Fault, report_diagnostics};
use crate::diagnostics::Diagnostic;
use crate::source::{Source, mark_length};
use crate::texts::{error_count, form_text};
use explain_lines::checkpoints;
use no_memory::NoMemory;
use std::alloc::Global;

/// In which form findings are told.
#[derive(Clone, Copy, Debug, PartialEq, Eq)]
pub enum Form {
    /// With their lines and notes, and a last line with counts.
    Full,
    /// Each in one line: its place, its title and its label.
    Short,
}

/// How findings are told.
#[derive(Clone, Copy, Debug, PartialEq, Eq)]
pub struct Manner {
    /// In which form.
    pub form: Form,
    /// Whether with the colours of a terminal.
    pub paint: bool,
}

/// A report as text.
#[derive(Debug, Drop)]
pub struct Explained {
    /// The findings; empty where there are none.
    pub text: String,
    /// Whether a finding breaks a build: a match is not exhaustive, or a rule is broken.
    pub breaks: bool,
}

// The text of findings, all of whose places are in the file.
fn findings_explained(
    alloc: Global,
    manner: Manner,
    name: &str,
    file: &[u8],
    found: &[Diagnostic],
) -> Result<Explained, NoMemory>
    requires { All (IsInside (length file.now - mark_length file.now) (mark_length file.now)) (map diagnostic_view found.now) }
    ensures { IfOk result (λ e. told_of manner name.now file.now (Diagnosed (map diagnostic_view found.now))
        ≡ Told (string_bytes e.text) e.breaks) }
{
    let mark = mark_length(file);
    let text = &file[mark..];
    let spots = checkpoints(alloc, text)?;
    let source = Source {
        name,
        text,
        mark,
        spots: spots.as_slice(),
        paint: manner.paint,
    };
    let text = form_text(alloc, manner.form, &source, found)?;
    let breaks = error_count(found) > 0;
    Ok(Explained { text, breaks })
}

/// The text of a report in JSON, beside the file that it is of: the file's name as it is to be shown, its bytes, the
/// report of `check` or `trees`, and the report of `arms` or an empty text.
///
/// It is told by the manner, the two reports and the file alone ([`report_diagnostics`]). Where arms to add are told, they are
/// shown in place of the missing cases.
pub fn explain(
    alloc: Global,
    manner: Manner,
    name: &str,
    file: &[u8],
    json: &str,
    arms: &str,
) -> Result<Explained, Fault>
    ensures { AnswersBy file.now (outcome_of manner name.now file.now (read_skimmed json.now) (read_arms arms.now)) result }
{
    match report_diagnostics(alloc, file, json, arms) {
        Ok(found) => Ok(findings_explained(alloc, manner, name, file, found.as_slice())?),
        Err(fault) => Err(fault),
    }
}
