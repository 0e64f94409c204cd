// Findings as diagnostics of rustc.
ghost use Rattle.std.specs.Prelude.{◌≡◌, ◌++◌, ◌≤◌, ◌-◌, IfOk, None, OnOk, false, flat_map, length, map, string_bytes};
ghost use Rattle.std.specs.List.{All};
ghost use Rattle.serde_json.specs.View.{items_of};
ghost use Rattle.serde_json.specs.Written.{compact_text, items_text};
ghost use Rattle.explain_lines.specs.Steps.{IsSpotOf};
ghost use Rattle.explain_text.specs.Diagnostics.{IsInside, IsNoteInside, diagnostic_view, note_view};
ghost use Rattle.explain_text.specs.Order.{start_of};
ghost use Rattle.explain_text.specs.Texts.{diagnostic_text};
ghost use Rattle.explain_json.specs.Replacements.{replacement_of};
ghost use Rattle.explain_json.specs.Spans.{place_items};
ghost use Rattle.explain_json.specs.Diagnostics.{code_data, code_text, finding_data, finding_level, finding_line, note_data, note_level};

use crate::replacements::replacement_of;
use crate::spans::push_place;
use crate::values::{push_comma, push_quoted};
use explain_text::{Diagnostic, Note, NoteLevel, Source, push_diagnostic};
use std::alloc::{AllocError, Global};

// The level of a note.
fn note_level(level: NoteLevel) -> &'static str
    ensures { result.now ≡ note_level level }
{
    match level {
        NoteLevel::Note => "note",
        NoteLevel::Help => "help",
    }
}

// The level of a finding.
fn finding_level(breaks: bool) -> &'static str
    ensures { result.now ≡ finding_level breaks }
{
    if breaks { "error" } else { "warning" }
}

// Adds the spans of a note, and the bracket that closes the list.
fn push_note_place(
    alloc: Global,
    text: &mut String,
    source: &Source<'_>,
    note: &Note,
) -> Result<(), AllocError>
    requires right { All (IsSpotOf source.now.text.now) source.now.spots.now }
    requires within { start_of note.now.place - source.now.mark ≤ length source.now.text.now }
    ensures { OnOk result (string_bytes text.new ≡ string_bytes text.old
        ++ items_text false (place_items source.now.name.now source.now.text.now source.now.mark note.now.place
        None (replacement_of (note_view note.now)))) }
{
    let replacement = replacement_of(alloc, note)?;
    match &replacement {
        Some(arms) => push_place(alloc, text, source, note.place, None, Some(arms.as_str())),
        None => push_place(alloc, text, source, note.place, None, None),
    }
}

// Adds a note.
fn push_note(
    alloc: Global,
    text: &mut String,
    source: &Source<'_>,
    note: &Note,
) -> Result<(), AllocError>
    requires right { All (IsSpotOf source.now.text.now) source.now.spots.now }
    requires within { start_of note.now.place - source.now.mark ≤ length source.now.text.now }
    ensures { OnOk result (string_bytes text.new ≡ string_bytes text.old
        ++ compact_text (note_data source.now.name.now source.now.text.now source.now.mark (note_view note.now))) }
{
    text.push_str("{\"children\":[],\"code\":null,\"level\":")?;
    push_quoted(alloc, text, note_level(note.level))?;
    text.push_str(",\"message\":")?;
    push_quoted(alloc, text, note.text.as_str())?;
    text.push_str(",\"rendered\":null,\"spans\":[")?;
    push_note_place(alloc, text, source, note)?;
    text.push_str("}")?;
    Ok(())
}

// Adds notes, with commas between them, and the bracket that closes the list.
fn push_notes(
    alloc: Global,
    text: &mut String,
    source: &Source<'_>,
    notes: &[Note],
) -> Result<(), AllocError>
    requires right { All (IsSpotOf source.now.text.now) source.now.spots.now }
    requires within { All (IsNoteInside (length source.now.text.now) source.now.mark) (map note_view notes.now) }
    ensures { OnOk result (string_bytes text.new ≡ string_bytes text.old
        ++ items_text false (items_of (map (note_data source.now.name.now source.now.text.now source.now.mark)
        (map note_view notes.now)))) }
{
    let mut later = false;
    for note in notes {
        push_comma(text, later)?;
        push_note(alloc, text, source, note)?;
        later = true;
    }
    text.push_str("]")?;
    Ok(())
}

// The short name of what is found.
fn code_of(alloc: Global, found: &Diagnostic) -> Result<String, AllocError>
    ensures { IfOk result (λ code. string_bytes code ≡ code_text (diagnostic_view found.now)) }
{
    let mut code = String::from_str(alloc, "matchcheck::")?;
    code.push_str(found.code.as_str())?;
    Ok(code)
}

// The text of a finding.
fn rendered(alloc: Global, source: &Source<'_>, found: &Diagnostic) -> Result<String, AllocError>
    requires right { All (IsSpotOf source.now.text.now) source.now.spots.now }
    requires within { IsInside (length source.now.text.now) source.now.mark (diagnostic_view found.now) }
    ensures { IfOk result (λ text. string_bytes text ≡ diagnostic_text source.now.paint source.now.name.now
        source.now.text.now source.now.mark (diagnostic_view found.now)) }
{
    let mut text = String::new(alloc);
    push_diagnostic(alloc, &mut text, source, found)?;
    Ok(text)
}

// Adds the short name of what is found, as rustc's JSON has it.
fn push_code(alloc: Global, text: &mut String, found: &Diagnostic) -> Result<(), AllocError>
    ensures { OnOk result (string_bytes text.new
        ≡ string_bytes text.old ++ compact_text (code_data (diagnostic_view found.now))) }
{
    let code = code_of(alloc, found)?;
    text.push_str("{\"code\":")?;
    push_quoted(alloc, text, code.as_str())?;
    text.push_str(",\"explanation\":null}")?;
    Ok(())
}

// Adds a finding.
fn push_finding(
    alloc: Global,
    text: &mut String,
    source: &Source<'_>,
    found: &Diagnostic,
) -> Result<(), AllocError>
    requires right { All (IsSpotOf source.now.text.now) source.now.spots.now }
    requires within { IsInside (length source.now.text.now) source.now.mark (diagnostic_view found.now) }
    ensures { OnOk result (string_bytes text.new ≡ string_bytes text.old
        ++ compact_text (finding_data source.now.paint source.now.name.now source.now.text.now source.now.mark
        (diagnostic_view found.now))) }
{
    let shown = rendered(alloc, source, found)?;
    text.push_str("{\"$message_type\":\"diagnostic\",\"children\":[")?;
    push_notes(alloc, text, source, found.notes.as_slice())?;
    text.push_str(",\"code\":")?;
    push_code(alloc, text, found)?;
    text.push_str(",\"level\":")?;
    push_quoted(alloc, text, finding_level(found.breaks))?;
    text.push_str(",\"message\":")?;
    push_quoted(alloc, text, found.title.as_str())?;
    text.push_str(",\"rendered\":")?;
    push_quoted(alloc, text, shown.as_str())?;
    text.push_str(",\"spans\":[")?;
    push_place(
        alloc,
        text,
        source,
        found.place,
        Some(found.label.as_str()),
        None,
    )?;
    text.push_str("}")?;
    Ok(())
}

// Adds a finding as a line.
fn push_finding_line(
    alloc: Global,
    text: &mut String,
    source: &Source<'_>,
    found: &Diagnostic,
) -> Result<(), AllocError>
    requires right { All (IsSpotOf source.now.text.now) source.now.spots.now }
    requires within { IsInside (length source.now.text.now) source.now.mark (diagnostic_view found.now) }
    ensures { OnOk result (string_bytes text.new ≡ string_bytes text.old
        ++ finding_line source.now.paint source.now.name.now source.now.text.now source.now.mark
        (diagnostic_view found.now)) }
{
    push_finding(alloc, text, source, found)?;
    text.push_str("\n")?;
    Ok(())
}

// Adds findings, a line each.
pub(crate) fn push_findings(
    alloc: Global,
    text: &mut String,
    source: &Source<'_>,
    found: &[Diagnostic],
) -> Result<(), AllocError>
    requires right { All (IsSpotOf source.now.text.now) source.now.spots.now }
    requires within { All (IsInside (length source.now.text.now) source.now.mark) (map diagnostic_view found.now) }
    ensures { OnOk result (string_bytes text.new ≡ string_bytes text.old
        ++ flat_map (finding_line source.now.paint source.now.name.now source.now.text.now source.now.mark)
        (map diagnostic_view found.now)) }
{
    for one in found {
        push_finding_line(alloc, text, source, one)?;
    }
    Ok(())
}
