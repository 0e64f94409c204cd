// Spans of the file.
ghost use Rattle.std.specs.Prelude.{◌≡◌, ◌++◌, ◌≤◌, ◌-◌, OnOk, false, length, option_map, string_bytes};
ghost use Rattle.std.specs.List.{All};
ghost use Rattle.serde_json.specs.Written.{compact_text, items_text};
ghost use Rattle.explain_lines.specs.Steps.{IsSpotOf};
ghost use Rattle.explain_text.specs.Order.{start_of};
ghost use Rattle.explain_json.specs.Spans.{applicability, end_in, place_items, span_data, spot_lines};

use crate::lines::push_lines;
use crate::values::{push_counted, push_optional, push_quoted};
use explain_lines::{Spot, spot_of};
use explain_places::{Place, Span};
use explain_text::Source;
use std::alloc::{AllocError, Global};

// Where a span ends in the text.
fn end_in(source: &Source<'_>, span: &Span) -> usize
    requires { span.now.from - source.now.mark ≤ length source.now.text.now }
    ensures exact { result ≡ end_in source.now.text.now source.now.mark span.now }
    ensures within { result ≤ length source.now.text.now }
{
    let end = span.to.saturating_sub(source.mark).min(source.text.len());
    end.max(span.from.saturating_sub(source.mark))
}

// How far a replacement can be trusted.
fn applicability(replacement: Option<&str>) -> Option<&'static str>
    ensures { option_map (λ s. s.now) result ≡ applicability (option_map (λ s. s.now) replacement.entry) }
{
    match replacement {
        Some(_) => Some("HasPlaceholders"),
        None => None,
    }
}

// Adds the lines from one spot of the text to another, and the bracket that closes the list.
fn push_spot_lines(
    alloc: Global,
    text: &mut String,
    source: &[u8],
    from: Spot,
    to: Spot,
) -> Result<(), AllocError>
    requires { from.start ≤ length source.now }
    ensures { OnOk result (string_bytes text.new
        ≡ string_bytes text.old ++ items_text false (spot_lines source.now from to)) }
{
    let more = to.line.saturating_sub(from.line);
    let begin = from.at.saturating_sub(from.start);
    let end = to.at.saturating_sub(from.start);
    push_lines(alloc, text, more, begin, end, &source[from.start..])
}

// Adds a span, with its label and with what is to be put in its place.
fn push_span(
    alloc: Global,
    text: &mut String,
    source: &Source<'_>,
    span: &Span,
    label: Option<&str>,
    replacement: Option<&str>,
) -> Result<(), AllocError>
    requires right { All (IsSpotOf source.now.text.now) source.now.spots.now }
    requires within { span.now.from - source.now.mark ≤ length source.now.text.now }
    ensures { OnOk result (string_bytes text.new ≡ string_bytes text.old
        ++ compact_text (span_data source.now.name.now source.now.text.now source.now.mark span.now
        (option_map (λ s. s.now) label.entry) (option_map (λ s. s.now) replacement.entry))) }
{
    let begin = span.from.saturating_sub(source.mark);
    let from = spot_of(source.text, source.spots, begin);
    let to = spot_of(source.text, source.spots, end_in(source, span));
    push_counted(text, "{\"byte_end\":", span.to)?;
    push_counted(text, ",\"byte_start\":", span.from)?;
    push_counted(text, ",\"column_end\":", to.column)?;
    push_counted(text, ",\"column_start\":", from.column)?;
    text.push_str(",\"expansion\":null,\"file_name\":")?;
    push_quoted(alloc, text, source.name)?;
    text.push_str(",\"is_primary\":true,\"label\":")?;
    push_optional(alloc, text, label)?;
    push_counted(text, ",\"line_end\":", to.line)?;
    push_counted(text, ",\"line_start\":", from.line)?;
    text.push_str(",\"suggested_replacement\":")?;
    push_optional(alloc, text, replacement)?;
    text.push_str(",\"suggestion_applicability\":")?;
    push_optional(alloc, text, applicability(replacement))?;
    text.push_str(",\"text\":[")?;
    push_spot_lines(alloc, text, source.text, from, to)?;
    text.push_str("}")?;
    Ok(())
}

// Adds the spans of a place, one or none, and the bracket that closes the list.
pub(crate) fn push_place(
    alloc: Global,
    text: &mut String,
    source: &Source<'_>,
    place: Place,
    label: Option<&str>,
    replacement: Option<&str>,
) -> Result<(), AllocError>
    requires right { All (IsSpotOf source.now.text.now) source.now.spots.now }
    requires within { start_of place - source.now.mark ≤ length source.now.text.now }
    ensures { OnOk result (string_bytes text.new ≡ string_bytes text.old
        ++ items_text false (place_items source.now.name.now source.now.text.now source.now.mark place
        (option_map (λ s. s.now) label.entry) (option_map (λ s. s.now) replacement.entry))) }
{
    match place {
        Place::There(span) => {
            push_span(alloc, text, source, &span, label, replacement)?;
            text.push_str("]")?;
            Ok(())
        }
        Place::Nowhere | Place::Lost => text.push_str("]"),
    }
}
