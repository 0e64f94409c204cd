// The lines of a span.
ghost use Rattle.std.specs.Prelude.{◌≡◌, ◌++◌, ◌≤◌, ◌-◌, ◌+◌, OnOk, count_by, drop, false, length, string_bytes};
ghost use Rattle.serde_json.specs.Written.{compact_text, items_text};
ghost use Rattle.explain_lines.specs.Lines.{begins_character, first_line};
ghost use Rattle.explain_json.specs.Lines.{column_in, line_data, line_width, lines_items, shown_line};

use crate::values::{push_comma, push_counted, push_quoted};
use explain_lines::{begins_character, shown_to};
use std::alloc::{AllocError, Global};

// How many characters of a line are shown.
const MOST: usize = 1000;

// How many characters begin in these bytes.
fn character_count(bytes: &[u8]) -> usize
    ensures exact { result ≡ count_by begins_character bytes.now }
    ensures few { result ≤ length bytes.now }
{
    let mut count = 0;
    for byte in bytes {
        if begins_character(*byte) {
            count += 1;
        }
    }
    count
}

// The column of a byte of a line.
#[tactic(auto, using(std::proofs::lemmas::List::take_min))]
fn column_in(line: &[u8], at: usize) -> usize
    ensures { result ≡ column_in line.now at }
{
    let end = at.min(line.len());
    character_count(&line[..end]) + 1
}

// Adds a line, marked from one byte of it to another.
fn push_line(
    alloc: Global,
    text: &mut String,
    from: usize,
    to: usize,
    line: &[u8],
) -> Result<(), AllocError>
    ensures { OnOk result (string_bytes text.new
        ≡ string_bytes text.old ++ compact_text (line_data from to line.now)) }
{
    let shown = String::from_utf8_lossy(alloc, line)?;
    let end = column_in(line, to);
    let begin = column_in(line, from);
    push_counted(text, "{\"highlight_end\":", end)?;
    push_counted(text, ",\"highlight_start\":", begin)?;
    text.push_str(",\"text\":")?;
    push_quoted(alloc, text, shown.as_str())?;
    text.push_str("}")?;
    Ok(())
}

// What is shown of the first line of these bytes.
fn shown_line(bytes: &[u8]) -> &[u8]
    ensures { result.now ≡ shown_line bytes.now }
{
    let end = shown_to(bytes, 0, MOST);
    &bytes[..end]
}

// How many bytes the first line of these bytes has, without its line feed.
fn line_length(bytes: &[u8]) -> usize
    ensures exact { result ≡ length (first_line bytes.now) }
    ensures within { result ≤ length bytes.now }
{
    let mut count = 0;
    for byte in bytes {
        if *byte == b'\n' {
            return count;
        }
        count += 1;
    }
    count
}

// How many bytes the first line of these bytes takes, with its line feed.
fn line_width(bytes: &[u8]) -> usize
    ensures { result ≡ line_width bytes.now }
{
    line_length(bytes) + 1
}

// What stands behind the first bytes, of which there are so many.
#[tactic(auto, using(std::proofs::lemmas::List::drop_min))]
fn behind_line(bytes: &[u8], width: usize) -> &[u8]
    ensures { result.now ≡ drop width bytes.now }
{
    let start = width.min(bytes.len());
    &bytes[start..]
}

// Adds the first lines of these bytes, one and so many more, marked from one byte to another, and the bracket that closes
// the list.
pub(crate) fn push_lines(
    alloc: Global,
    text: &mut String,
    more: usize,
    from: usize,
    to: usize,
    bytes: &[u8],
) -> Result<(), AllocError>
    ensures { OnOk result (string_bytes text.new
        ≡ string_bytes text.old ++ items_text false (lines_items more from to bytes.now)) }
{
    let mut rest = bytes;
    let mut begin = from;
    let mut end = to;
    let mut later = false;
    for i in 0..more {
        push_comma(text, later)?;
        let line = shown_line(rest);
        push_line(alloc, text, begin, end, line)?;
        let width = line_width(rest);
        begin = begin.saturating_sub(width);
        end = end.saturating_sub(width);
        rest = behind_line(rest, width);
        later = true;
    }
    let line = shown_line(rest);
    push_comma(text, later)?;
    push_line(alloc, text, begin, end, line)?;
    text.push_str("]")?;
    Ok(())
}
