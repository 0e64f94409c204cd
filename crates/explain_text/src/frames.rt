// The place of a finding with its line.
ghost use Rattle.std.specs.Prelude.{◌≡◌, ◌++◌, ◌≤◌, ◌-◌, OnOk, IfOk, length, string_bytes, decimal};
ghost use Rattle.std.specs.List.{All};
ghost use Rattle.explain_lines.specs.Lines.{spot_at};
ghost use Rattle.explain_lines.specs.Steps.{IsSpotOf};
ghost use Rattle.explain_text.specs.Frames.{AreParts, arrow_text, bar_text, caret_text, gutter, indent_text, marks_text, place_text, source_text, span_text};

use crate::shown::{blanks, carets, left_part, marked_part, right_part};
use crate::source::Source;
use crate::styles::{Style, push_styled};
use explain_lines::{Spot, spot_of};
use explain_places::Span;
use std::alloc::{AllocError, Global};
use unicode_width::UnicodeWidthStr;

/// A line of the source in parts: what stands before its place, before the lines below and before the line itself; the
/// line before and behind the mark; and the blanks and marks below it.
#[derive(Debug, Drop)]
pub(crate) struct Parts {
    pub pad: String,
    pub bar: String,
    pub head: String,
    pub left: String,
    pub right: String,
    pub space: String,
    pub marks: String,
}

// The spot of a place of the file.
fn spot_in(source: &Source<'_>, at: usize) -> Spot
    requires right { All (IsSpotOf source.now.text.now) source.now.spots.now }
    requires within { at - source.now.mark ≤ length source.now.text.now }
    ensures { result ≡ spot_at source.now.text.now (at - source.now.mark) }
{
    let place = at.saturating_sub(source.mark);
    spot_of(source.text, source.spots, place)
}

// Where a span of the file ends.
fn end_in(source: &Source<'_>, span: &Span) -> usize
    ensures { result ≡ span.now.to - source.now.mark }
{
    span.to.saturating_sub(source.mark)
}

// Adds the name of the file, the line and the column.
pub(crate) fn push_place(
    text: &mut String,
    source: &Source<'_>,
    at: usize,
) -> Result<(), AllocError>
    requires right { All (IsSpotOf source.now.text.now) source.now.spots.now }
    requires within { at - source.now.mark ≤ length source.now.text.now }
    ensures { OnOk result (string_bytes text.new
        ≡ string_bytes text.old ++ place_text source.now.name.now source.now.text.now (at - source.now.mark)) }
{
    let spot = spot_in(source, at);
    let line = spot.line;
    let column = spot.column;
    text.push_str(source.name)?;
    write!(text, ":{line}:{column}")?;
    Ok(())
}

// The blanks below a line's number.
pub(crate) fn gutter(alloc: Global, line: usize) -> Result<String, AllocError>
    ensures { IfOk result (λ pad. string_bytes pad ≡ gutter line) }
{
    let number = line.to_string(alloc)?;
    let pad = blanks(alloc, number.as_str().len())?;
    Ok(pad)
}

// What stands before a line, as far as its bar.
fn bar_text(alloc: Global, pad: &str) -> Result<String, AllocError>
    ensures { IfOk result (λ bar. string_bytes bar ≡ bar_text pad.now) }
{
    let mut bar = String::from_str(alloc, pad)?;
    bar.push_str(" |")?;
    Ok(bar)
}

// The number of a line, and its bar.
fn head_text(alloc: Global, line: usize) -> Result<String, AllocError>
    ensures { IfOk result (λ head. string_bytes head ≡ bar_text (decimal line)) }
{
    let number = line.to_string(alloc)?;
    bar_text(alloc, number.as_str())
}

// Carets below what is marked, and what is said of it.
fn marks_text(alloc: Global, marked: &str, label: &str) -> Result<String, AllocError>
    ensures { IfOk result (λ marks. string_bytes marks ≡ marks_text marked.now label.now) }
{
    let wide = marked.width();
    let count = wide.max(1);
    let mut marks = carets(alloc, count)?;
    marks.push_str(label)?;
    Ok(marks)
}

// The blanks below what is shown before a mark.
fn indent_text(alloc: Global, left: &str) -> Result<String, AllocError>
    ensures { IfOk result (λ space. string_bytes space ≡ indent_text left.now) }
{
    let indent = left.width();
    let space = blanks(alloc, indent)?;
    Ok(space)
}

// The parts of the line of a span, and of what stands around it.
fn parts_of(
    alloc: Global,
    source: &Source<'_>,
    span: &Span,
    label: &str,
) -> Result<Parts, AllocError>
    requires right { All (IsSpotOf source.now.text.now) source.now.spots.now }
    requires within { span.now.from - source.now.mark ≤ length source.now.text.now }
    ensures { IfOk result (λ parts. AreParts source.now.text.now (span.now.from - source.now.mark)
        (span.now.to - source.now.mark) label.now parts) }
{
    let spot = spot_in(source, span.from);
    let to = end_in(source, span);
    let pad = gutter(alloc, spot.line)?;
    let bar = bar_text(alloc, pad.as_str())?;
    let head = head_text(alloc, spot.line)?;
    let left = left_part(alloc, source.text, spot)?;
    let inside = marked_part(alloc, source.text, spot.at, to)?;
    let right = right_part(alloc, source.text, spot.at)?;
    let space = indent_text(alloc, left.as_str())?;
    let marks = marks_text(alloc, inside.as_str(), label)?;
    Ok(Parts {
        pad,
        bar,
        head,
        left,
        right,
        space,
        marks,
    })
}

// Adds where the finding stands.
fn push_arrow(
    text: &mut String,
    parts: &Parts,
    source: &Source<'_>,
    at: usize,
) -> Result<(), AllocError>
    requires right { All (IsSpotOf source.now.text.now) source.now.spots.now }
    requires within { at - source.now.mark ≤ length source.now.text.now }
    ensures { OnOk result (string_bytes text.new ≡ string_bytes text.old
        ++ arrow_text source.now.paint (string_bytes parts.now.pad) (string_bytes parts.now.bar)
        source.now.name.now source.now.text.now (at - source.now.mark)) }
{
    text.push_str(parts.pad.as_str())?;
    push_styled(text, source.paint, Style::Frame, "--> ")?;
    push_place(text, source, at)?;
    text.push_str("\n")?;
    push_styled(text, source.paint, Style::Frame, parts.bar.as_str())?;
    text.push_str("\n")?;
    Ok(())
}

// Adds the line.
fn push_source(text: &mut String, paint: bool, parts: &Parts) -> Result<(), AllocError>
    ensures { OnOk result (string_bytes text.new ≡ string_bytes text.old
        ++ source_text paint (string_bytes parts.now.head) (string_bytes parts.now.left) (string_bytes parts.now.right)) }
{
    push_styled(text, paint, Style::Frame, parts.head.as_str())?;
    text.push_str(" ")?;
    text.push_str(parts.left.as_str())?;
    text.push_str(parts.right.as_str())?;
    text.push_str("\n")?;
    Ok(())
}

// Adds marks in a style below the line.
fn push_caret(text: &mut String, paint: bool, style: Style, parts: &Parts) -> Result<(), AllocError>
    ensures { OnOk result (string_bytes text.new ≡ string_bytes text.old
        ++ caret_text paint style (string_bytes parts.now.bar) (string_bytes parts.now.space) (string_bytes parts.now.marks)) }
{
    push_styled(text, paint, Style::Frame, parts.bar.as_str())?;
    text.push_str(" ")?;
    text.push_str(parts.space.as_str())?;
    push_styled(text, paint, style, parts.marks.as_str())?;
    text.push_str("\n")?;
    Ok(())
}

// Adds the place of a span, its line, and carets with a label in a style.
pub(crate) fn push_frame(
    alloc: Global,
    text: &mut String,
    source: &Source<'_>,
    span: &Span,
    style: Style,
    label: &str,
) -> Result<(), AllocError>
    requires right { All (IsSpotOf source.now.text.now) source.now.spots.now }
    requires within { span.now.from - source.now.mark ≤ length source.now.text.now }
    ensures { OnOk result (string_bytes text.new ≡ string_bytes text.old
        ++ span_text source.now.paint style label.now source.now.name.now source.now.text.now source.now.mark span.now) }
{
    let parts = parts_of(alloc, source, span, label)?;
    push_arrow(text, &parts, source, span.from)?;
    push_source(text, source.paint, &parts)?;
    push_caret(text, source.paint, style, &parts)?;
    Ok(())
}
