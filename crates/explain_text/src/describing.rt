// Findings in words.
ghost use Rattle.std.specs.Prelude.{◌≡◌, IfOk, map, string_bytes};
ghost use Rattle.explain_report.specs.Arms.{arms_view};
ghost use Rattle.explain_text.specs.Diagnosing.{diagnostic_of};
ghost use Rattle.explain_text.specs.Diagnostics.{diagnostic_view};
ghost use Rattle.explain_text.specs.Findings.{finding_view, kind_view};
ghost use Rattle.explain_text.specs.Messages.{code_text, label_text, title_text};

use crate::diagnostics::Diagnostic;
use crate::findings::{Finding, Kind};
use crate::messages::{is_error, place_name, push_code, push_label, push_title};
use crate::notes::notes_of;
use std::alloc::{AllocError, Global};

// A short name of what is found.
fn code_of(alloc: Global, kind: &Kind<'_, '_>) -> Result<String, AllocError>
    ensures { IfOk result (λ code. string_bytes code ≡ code_text (kind_view kind.now)) }
{
    let mut code = String::new(alloc);
    push_code(&mut code, kind)?;
    Ok(code)
}

// What is found at what has this name.
fn title_of(alloc: Global, name: &str, kind: &Kind<'_, '_>) -> Result<String, AllocError>
    ensures { IfOk result (λ title. string_bytes title ≡ title_text name.now (kind_view kind.now)) }
{
    let mut title = String::new(alloc);
    push_title(&mut title, name, kind)?;
    Ok(title)
}

// What is said at its place.
fn label_of(alloc: Global, name: &str, kind: &Kind<'_, '_>) -> Result<String, AllocError>
    ensures { IfOk result (λ label. string_bytes label ≡ label_text name.now (kind_view kind.now)) }
{
    let mut label = String::new(alloc);
    push_label(&mut label, name, kind)?;
    Ok(label)
}

// A finding in words, by the text behind a byte order mark and the arms to add to each function.
fn diagnostic_of(
    alloc: Global,
    text: &[u8],
    mark: usize,
    arms: &[Vec<String>],
    finding: &Finding<'_, '_>,
) -> Result<Diagnostic, AllocError>
    ensures { IfOk result (λ d. diagnostic_view d
        ≡ diagnostic_of text.now mark (map arms_view arms.now) (finding_view finding.now)) }
{
    let name = place_name(alloc, text, mark, finding.place)?;
    let code = code_of(alloc, &finding.kind)?;
    let title = title_of(alloc, name.as_str(), &finding.kind)?;
    let label = label_of(alloc, name.as_str(), &finding.kind)?;
    let notes = notes_of(alloc, arms, name.as_str(), &finding.kind)?;
    Ok(Diagnostic {
        breaks: is_error(&finding.kind),
        code,
        title,
        place: finding.place,
        label,
        notes,
    })
}

// Findings in words.
pub(crate) fn diagnostics_of(
    alloc: Global,
    text: &[u8],
    mark: usize,
    arms: &[Vec<String>],
    findings: &[Finding<'_, '_>],
) -> Result<Vec<Diagnostic>, AllocError>
    ensures { IfOk result (λ ds. map diagnostic_view ds.items
        ≡ map (diagnostic_of text.now mark (map arms_view arms.now)) (map finding_view findings.now)) }
{
    let mut all = Vec::with_capacity(alloc, findings.len())?;
    for finding in findings {
        let one = diagnostic_of(alloc, text, mark, arms, finding)?;
        all.push(one)?;
    }
    Ok(all)
}
