// What is shown of a line.
ghost use Rattle.std.specs.Prelude.{◌≡◌, ◌++◌, ◌≤◌, ◌+◌, IfOk, OnOk, length, string_bytes, flat_map, replicate};
ghost use Rattle.std.specs.Str.Lossy.{utf8_lossy};
ghost use Rattle.explain_lines.specs.Lines.{spot_at};
ghost use Rattle.explain_text.specs.Shown.{shown_byte, shown_bytes, left_part, right_part, marked_part, is_cut_behind};

use explain_lines::{Spot, shown_from, shown_to};
use std::alloc::{AllocError, Global};

// How many characters of a line are shown before a place, and as many behind it.
const MOST: usize = 80;

// Adds what is shown for a byte: blanks for a tab, nothing for a carriage return, `?` for any other control character.
fn push_shown(shown: &mut Vec<u8>, byte: u8) -> Result<(), AllocError>
    ensures { OnOk result (shown.new.items ≡ shown.old.items ++ shown_byte byte) }
{
    match byte {
        b'\t' => shown.extend_from_slice(b"    "),
        b'\r' => Ok(()),
        0..=31 | 127 => Ok(shown.push(b'?')?),
        _ => Ok(shown.push(byte)?),
    }
}

// The bytes that are shown for these.
fn shown_bytes(alloc: Global, bytes: &[u8]) -> Result<Vec<u8>, AllocError>
    ensures { IfOk result (λ shown. shown.items ≡ shown_bytes bytes.now) }
{
    let mut shown = Vec::with_capacity(alloc, bytes.len())?;
    for byte in bytes {
        push_shown(&mut shown, *byte)?;
    }
    Ok(shown)
}

// The text that is shown for these bytes.
fn shown_text(alloc: Global, bytes: &[u8]) -> Result<String, AllocError>
    ensures { IfOk result (λ text. string_bytes text ≡ utf8_lossy (shown_bytes bytes.now)) }
{
    let shown = shown_bytes(alloc, bytes)?;
    let text = String::from_utf8_lossy(alloc, shown.as_slice())?;
    Ok(text)
}

// What is shown of a line before a spot, with dots where the line begins before it.
pub(crate) fn left_part(alloc: Global, text: &[u8], spot: Spot) -> Result<String, AllocError>
    requires right { spot ≡ spot_at text.now spot.at }
    requires within { spot.at ≤ length text.now }
    ensures { IfOk result (λ part. string_bytes part ≡ left_part text.now spot.at) }
{
    let from = shown_from(text, spot.at, MOST);
    let shown = shown_text(alloc, &text[from..spot.at])?;
    let is_cut = spot.start < from;
    if is_cut {
        let mut part = String::from_str(alloc, "...")?;
        part.push_str(shown.as_str())?;
        return Ok(part);
    }
    Ok(shown)
}

// Whether the line goes on there.
fn is_cut_behind(text: &[u8], to: usize) -> bool
    requires { to ≤ length text.now }
    ensures { result ≡ is_cut_behind text.now to }
{
    to < text.len() && text[to] != b'\n'
}

// What is shown of a line from a place on, with dots where the line goes on behind it.
pub(crate) fn right_part(alloc: Global, text: &[u8], at: usize) -> Result<String, AllocError>
    requires { at ≤ length text.now }
    ensures { IfOk result (λ part. string_bytes part ≡ right_part text.now at) }
{
    let to = shown_to(text, at, MOST);
    let mut shown = shown_text(alloc, &text[at..to])?;
    let is_cut = is_cut_behind(text, to);
    if is_cut {
        shown.push_str("...")?;
        return Ok(shown);
    }
    Ok(shown)
}

// What is shown of that which stands from one byte to another on the line of the first.
pub(crate) fn marked_part(
    alloc: Global,
    text: &[u8],
    at: usize,
    to: usize,
) -> Result<String, AllocError>
    requires { at ≤ length text.now }
    ensures { IfOk result (λ part. string_bytes part ≡ marked_part text.now at to) }
{
    let end = shown_to(text, at, MOST).min(to).max(at);
    let part = shown_text(alloc, &text[at..end])?;
    Ok(part)
}

// So many blanks.
pub(crate) fn blanks(alloc: Global, count: usize) -> Result<String, AllocError>
    ensures { IfOk result (λ text. string_bytes text ≡ replicate count 32) }
{
    let mut text = String::new(alloc);
    for step in 0..count {
        text.push(' ')?;
    }
    Ok(text)
}

// So many carets.
pub(crate) fn carets(alloc: Global, count: usize) -> Result<String, AllocError>
    ensures { IfOk result (λ text. string_bytes text ≡ replicate count 94) }
{
    let mut text = String::new(alloc);
    for step in 0..count {
        text.push('^')?;
    }
    Ok(text)
}
