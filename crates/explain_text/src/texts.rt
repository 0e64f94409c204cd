// The text of findings.
ghost use Rattle.std.specs.Prelude.{◌≡◌, ◌++◌, ◌≤◌, ◌-◌, OnOk, IfOk, codes, length, string_bytes, map, flat_map};
ghost use Rattle.std.specs.List.{All};
ghost use Rattle.explain_lines.specs.Steps.{IsSpotOf};
ghost use Rattle.explain_text.specs.Diagnostics.{IsInside, diagnostic_view};
ghost use Rattle.explain_text.specs.Order.{start_of};
ghost use Rattle.explain_text.specs.Texts.{counts_text, diagnostic_text, error_count, form_text, heading_text, level_style, level_text, nowhere_text, position_text, short_place, short_text, short_texts, whole_text};

use crate::diagnostics::Diagnostic;
use crate::explaining::Form;
use crate::frames::{push_frame, push_place};
use crate::note_texts::{push_notes, push_words};
use crate::source::Source;
use crate::styles::{Style, push_styled};
use explain_places::Place;
use std::alloc::{AllocError, Global};

// How bad a finding is.
fn level_text(breaks: bool) -> &'static str
    ensures { result.now ≡ level_text breaks }
{
    if breaks { "error" } else { "warning" }
}

// The style of that word, and of the marks of a finding.
fn level_style(breaks: bool) -> Style
    ensures { result ≡ level_style breaks }
{
    if breaks { Style::Error } else { Style::Warning }
}

// Adds the first line of a finding.
fn push_heading(text: &mut String, paint: bool, breaks: bool, title: &str) -> Result<(), AllocError>
    ensures { OnOk result (string_bytes text.new ≡ string_bytes text.old ++ heading_text paint breaks title.now) }
{
    push_styled(text, paint, level_style(breaks), level_text(breaks))?;
    text.push_str(": ")?;
    push_styled(text, paint, Style::Bold, title)?;
    text.push_str("\n")?;
    Ok(())
}

// Adds where a finding stands of which no place is told.
fn push_nowhere(text: &mut String, source: &Source<'_>, label: &str) -> Result<(), AllocError>
    ensures { OnOk result (string_bytes text.new
        ≡ string_bytes text.old ++ nowhere_text source.now.paint source.now.name.now label.now) }
{
    push_styled(text, source.paint, Style::Frame, "--> ")?;
    text.push_str(source.name)?;
    text.push_str("\n")?;
    push_words(text, source.paint, "note", label)?;
    Ok(())
}

// A label behind carets.
fn label_part(alloc: Global, label: &str) -> Result<String, AllocError>
    ensures { IfOk result (λ part. string_bytes part ≡ codes " " ++ label.now) }
{
    let mut part = String::from_str(alloc, " ")?;
    part.push_str(label)?;
    Ok(part)
}

// Adds where a finding stands, with what is said there.
fn push_position(
    alloc: Global,
    text: &mut String,
    source: &Source<'_>,
    one: &Diagnostic,
) -> Result<(), AllocError>
    requires right { All (IsSpotOf source.now.text.now) source.now.spots.now }
    requires within { start_of one.now.place - source.now.mark ≤ length source.now.text.now }
    ensures { OnOk result (string_bytes text.new ≡ string_bytes text.old
        ++ position_text source.now.paint source.now.name.now source.now.text.now source.now.mark
        one.now.breaks (string_bytes one.now.label) one.now.place) }
{
    let label = one.label.as_str();
    match one.place {
        Place::There(span) => {
            let part = label_part(alloc, label)?;
            push_frame(
                alloc,
                text,
                source,
                &span,
                level_style(one.breaks),
                part.as_str(),
            )?;
            Ok(())
        }
        Place::Nowhere | Place::Lost => push_nowhere(text, source, label),
    }
}

/// Adds the text of a finding beside its source: its title, its place with the line, its notes, and an empty line.
pub fn push_diagnostic(
    alloc: Global,
    text: &mut String,
    source: &Source<'_>,
    diagnostic: &Diagnostic,
) -> Result<(), AllocError>
    requires right { All (IsSpotOf source.now.text.now) source.now.spots.now }
    requires within { IsInside (length source.now.text.now) source.now.mark (diagnostic_view diagnostic.now) }
    ensures { OnOk result (string_bytes text.new ≡ string_bytes text.old
        ++ diagnostic_text source.now.paint source.now.name.now source.now.text.now source.now.mark
        (diagnostic_view diagnostic.now)) }
{
    push_heading(
        text,
        source.paint,
        diagnostic.breaks,
        diagnostic.title.as_str(),
    )?;
    push_position(alloc, text, source, diagnostic)?;
    push_notes(alloc, text, source, diagnostic.notes.as_slice())?;
    text.push_str("\n")?;
    Ok(())
}

// Adds findings, one after the other.
fn push_diagnostics(
    alloc: Global,
    text: &mut String,
    source: &Source<'_>,
    all: &[Diagnostic],
) -> Result<(), AllocError>
    requires right { All (IsSpotOf source.now.text.now) source.now.spots.now }
    requires within { All (IsInside (length source.now.text.now) source.now.mark) (map diagnostic_view all.now) }
    ensures { OnOk result (string_bytes text.new ≡ string_bytes text.old
        ++ flat_map (diagnostic_text source.now.paint source.now.name.now source.now.text.now source.now.mark)
        (map diagnostic_view all.now)) }
{
    for one in all {
        push_diagnostic(alloc, text, source, one)?;
    }
    Ok(())
}

// Whether a finding breaks a build.
fn is_error(one: &Diagnostic) -> bool
    ensures { result ≡ (diagnostic_view one.now).breaks }
{
    one.breaks
}

// How many findings break a build.
pub(crate) fn error_count(all: &[Diagnostic]) -> usize
    ensures exact { result ≡ error_count (map diagnostic_view all.now) }
    ensures few { result ≤ length all.now }
{
    let mut errors = 0;
    for one in all {
        if is_error(one) {
            errors += 1;
        }
    }
    errors
}

// Adds how many findings there are.
fn push_counts(text: &mut String, errors: usize, warnings: usize) -> Result<(), AllocError>
    ensures { OnOk result (string_bytes text.new ≡ string_bytes text.old ++ counts_text errors warnings) }
{
    write!(text, "errors: {errors}, warnings: {warnings}\n")?;
    Ok(())
}

// The text of all findings, and a last line with counts; nothing where there are none.
fn whole_text(alloc: Global, source: &Source<'_>, all: &[Diagnostic]) -> Result<String, AllocError>
    requires right { All (IsSpotOf source.now.text.now) source.now.spots.now }
    requires within { All (IsInside (length source.now.text.now) source.now.mark) (map diagnostic_view all.now) }
    ensures { IfOk result (λ text. string_bytes text ≡ whole_text source.now.paint source.now.name.now
        source.now.text.now source.now.mark (map diagnostic_view all.now)) }
{
    let mut text = String::new(alloc);
    let count = all.len();
    if count == 0 {
        return Ok(text);
    }
    push_diagnostics(alloc, &mut text, source, all)?;
    let errors = error_count(all);
    push_counts(&mut text, errors, count - errors)?;
    Ok(text)
}

// Adds the name of the file, and the line and column where a place is told.
fn push_short_place(text: &mut String, source: &Source<'_>, place: Place) -> Result<(), AllocError>
    requires right { All (IsSpotOf source.now.text.now) source.now.spots.now }
    requires within { start_of place - source.now.mark ≤ length source.now.text.now }
    ensures { OnOk result (string_bytes text.new ≡ string_bytes text.old
        ++ short_place source.now.name.now source.now.text.now source.now.mark place) }
{
    match place {
        Place::There(span) => push_place(text, source, span.from),
        Place::Nowhere | Place::Lost => text.push_str(source.name),
    }
}

// Adds a finding in one line.
fn push_short(text: &mut String, source: &Source<'_>, one: &Diagnostic) -> Result<(), AllocError>
    requires right { All (IsSpotOf source.now.text.now) source.now.spots.now }
    requires within { IsInside (length source.now.text.now) source.now.mark (diagnostic_view one.now) }
    ensures { OnOk result (string_bytes text.new ≡ string_bytes text.old
        ++ short_text source.now.paint source.now.name.now source.now.text.now source.now.mark
        (diagnostic_view one.now)) }
{
    push_short_place(text, source, one.place)?;
    text.push_str(": ")?;
    push_styled(
        text,
        source.paint,
        level_style(one.breaks),
        level_text(one.breaks),
    )?;
    text.push_str(": ")?;
    text.push_str(one.title.as_str())?;
    text.push_str(": ")?;
    text.push_str(one.label.as_str())?;
    text.push_str("\n")?;
    Ok(())
}

// All findings in one line each.
fn short_texts(alloc: Global, source: &Source<'_>, all: &[Diagnostic]) -> Result<String, AllocError>
    requires right { All (IsSpotOf source.now.text.now) source.now.spots.now }
    requires within { All (IsInside (length source.now.text.now) source.now.mark) (map diagnostic_view all.now) }
    ensures { IfOk result (λ text. string_bytes text ≡ short_texts source.now.paint source.now.name.now
        source.now.text.now source.now.mark (map diagnostic_view all.now)) }
{
    let mut text = String::new(alloc);
    for one in all {
        push_short(&mut text, source, one)?;
    }
    Ok(text)
}

// The findings in a form.
pub(crate) fn form_text(
    alloc: Global,
    form: Form,
    source: &Source<'_>,
    all: &[Diagnostic],
) -> Result<String, AllocError>
    requires right { All (IsSpotOf source.now.text.now) source.now.spots.now }
    requires within { All (IsInside (length source.now.text.now) source.now.mark) (map diagnostic_view all.now) }
    ensures { IfOk result (λ text. string_bytes text ≡ form_text form source.now.paint source.now.name.now
        source.now.text.now source.now.mark (map diagnostic_view all.now)) }
{
    match form {
        Form::Full => whole_text(alloc, source, all),
        Form::Short => short_texts(alloc, source, all),
    }
}
