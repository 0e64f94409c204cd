// What a picture shows, in the strings of Graphviz's language.
ghost use Rattle.std.specs.Prelude.{◌≡◌, ◌++◌, ◌<◌, ◌+◌, OnOk, IfOk, decimal, flat_map, map, option_map, slice_get, codes};
ghost use Rattle.explain_tree.specs.Nodes.{case_view};
ghost use Rattle.explain_tree.specs.Labels.{hex_digit, numbered_text, control_text, shown_byte, literal_byte, plain_text, literal_text, ends_text, span_text, longer_text, case_text, line_text, arm_text, guard_text};

use crate::nodes::Case;
use std::alloc::{AllocError, Global};

// A digit to the base 16, as a character.
fn hex_digit(digit: u8) -> u8
    requires { digit < 16 }
    ensures { result ≡ hex_digit digit }
{
    if digit < 10 { digit + 48 } else { digit + 87 }
}

// Adds a number.
pub(crate) fn push_decimal(alloc: Global, out: &mut Vec<u8>, number: u64) -> Result<(), AllocError>
    ensures { OnOk result (out.new.items ≡ out.old.items ++ decimal number) }
{
    let digits = number.to_string(alloc)?;
    out.extend_from_slice(digits.as_str().as_bytes())?;
    Ok(())
}

// Adds a control character by its number.
fn push_numbered(out: &mut Vec<u8>, byte: u8) -> Result<(), AllocError>
    ensures { OnOk result (out.new.items ≡ out.old.items ++ numbered_text byte) }
{
    out.extend_from_slice(b"\\\\x")?;
    out.push(hex_digit(byte / 16))?;
    out.push(hex_digit(byte % 16))?;
    Ok(())
}

// Adds a control character.
fn push_control(out: &mut Vec<u8>, byte: u8) -> Result<(), AllocError>
    ensures { OnOk result (out.new.items ≡ out.old.items ++ control_text byte) }
{
    match byte {
        b'\n' => out.extend_from_slice(b"\\\\n"),
        b'\r' => out.extend_from_slice(b"\\\\r"),
        b'\t' => out.extend_from_slice(b"\\\\t"),
        _ => push_numbered(out, byte),
    }
}

// Adds a byte of what is shown.
fn push_shown(out: &mut Vec<u8>, byte: u8) -> Result<(), AllocError>
    ensures { OnOk result (out.new.items ≡ out.old.items ++ shown_byte byte) }
{
    match byte {
        0..=31 | 127 => push_control(out, byte),
        b'"' => out.extend_from_slice(b"\\\""),
        b'\\' => out.extend_from_slice(b"\\\\"),
        b'&' => out.extend_from_slice(b"&amp;"),
        _ => Ok(out.push(byte)?),
    }
}

// Adds a byte of a text literal that is shown.
fn push_literal(out: &mut Vec<u8>, byte: u8) -> Result<(), AllocError>
    ensures { OnOk result (out.new.items ≡ out.old.items ++ literal_byte byte) }
{
    match byte {
        b'"' => out.extend_from_slice(b"\\\\\\\""),
        b'\\' => out.extend_from_slice(b"\\\\\\\\"),
        _ => push_shown(out, byte),
    }
}

// Adds a text as it is.
fn push_plain(out: &mut Vec<u8>, bytes: &[u8]) -> Result<(), AllocError>
    ensures { OnOk result (out.new.items ≡ out.old.items ++ plain_text bytes.now) }
{
    for byte in bytes {
        push_shown(out, *byte)?;
    }
    Ok(())
}

// Adds the bytes of a text literal.
fn push_literals(out: &mut Vec<u8>, bytes: &[u8]) -> Result<(), AllocError>
    ensures { OnOk result (out.new.items ≡ out.old.items ++ flat_map literal_byte bytes.now) }
{
    for byte in bytes {
        push_literal(out, *byte)?;
    }
    Ok(())
}

// A text as it is.
pub(crate) fn plain_text(alloc: Global, text: &str) -> Result<Vec<u8>, AllocError>
    ensures { IfOk result (λ label. label.items ≡ plain_text text.now) }
{
    let mut label = Vec::new(alloc);
    push_plain(&mut label, text.as_bytes())?;
    Ok(label)
}

// Adds a text as a literal.
fn push_text(out: &mut Vec<u8>, text: &str) -> Result<(), AllocError>
    ensures { OnOk result (out.new.items ≡ out.old.items ++ literal_text text.now) }
{
    out.extend_from_slice(b"\\\"")?;
    push_literals(out, text.as_bytes())?;
    out.extend_from_slice(b"\\\"")?;
    Ok(())
}

// Adds a range with both ends.
fn push_ends(out: &mut Vec<u8>, low: &str, high: &str) -> Result<(), AllocError>
    ensures { OnOk result (out.new.items ≡ out.old.items ++ ends_text low.now high.now) }
{
    push_plain(out, low.as_bytes())?;
    out.extend_from_slice(b"..=")?;
    push_plain(out, high.as_bytes())?;
    Ok(())
}

// Adds a range without a greatest number.
fn push_from(out: &mut Vec<u8>, low: &str) -> Result<(), AllocError>
    ensures { OnOk result (out.new.items ≡ out.old.items ++ (plain_text low.now ++ codes "..")) }
{
    push_plain(out, low.as_bytes())?;
    out.extend_from_slice(b"..")?;
    Ok(())
}

// Adds a range without a least number.
fn push_to(out: &mut Vec<u8>, high: &str) -> Result<(), AllocError>
    ensures { OnOk result (out.new.items ≡ out.old.items ++ (codes "..=" ++ plain_text high.now)) }
{
    out.extend_from_slice(b"..=")?;
    push_plain(out, high.as_bytes())?;
    Ok(())
}

// Adds a range.
fn push_span(out: &mut Vec<u8>, low: Option<&str>, high: Option<&str>) -> Result<(), AllocError>
    ensures { OnOk result (out.new.items
        ≡ out.old.items ++ span_text (option_map (λ t. t.now) low.entry) (option_map (λ t. t.now) high.entry)) }
{
    match (low, high) {
        (Some(low), Some(high)) => {
            if low == high {
                push_plain(out, low.as_bytes())
            } else {
                push_ends(out, low, high)
            }
        }
        (Some(low), None) => push_from(out, low),
        (None, Some(high)) => push_to(out, high),
        (None, None) => out.extend_from_slice(b".."),
    }
}

// Adds a length.
fn push_length(alloc: Global, out: &mut Vec<u8>, length: u64) -> Result<(), AllocError>
    ensures { OnOk result (out.new.items ≡ out.old.items ++ (codes "len = " ++ decimal length)) }
{
    out.extend_from_slice(b"len = ")?;
    push_decimal(alloc, out, length)?;
    Ok(())
}

// Adds each length from a sum on.
fn push_longer(alloc: Global, out: &mut Vec<u8>, front: u64, back: u64) -> Result<(), AllocError>
    ensures { OnOk result (out.new.items ≡ out.old.items ++ longer_text front back) }
{
    out.extend_from_slice(b"len >= ")?;
    push_decimal(alloc, out, front)?;
    out.extend_from_slice(b" + ")?;
    push_decimal(alloc, out, back)?;
    Ok(())
}

// Adds a case.
fn push_case(alloc: Global, out: &mut Vec<u8>, case: &Case<'_>) -> Result<(), AllocError>
    ensures { OnOk result (out.new.items ≡ out.old.items ++ case_text (case_view case.now)) }
{
    match case {
        Case::Variant(name) => push_plain(out, name.as_bytes()),
        Case::Flag(true) => out.extend_from_slice(b"true"),
        Case::Flag(false) => out.extend_from_slice(b"false"),
        Case::Span { low, high } => push_span(out, *low, *high),
        Case::Text(text) => push_text(out, text),
        Case::Length(length) => push_length(alloc, out, *length),
        Case::Longer { front, back } => push_longer(alloc, out, *front, *back),
        Case::Else => out.extend_from_slice(b"else"),
    }
}

// A case, as people write it.
pub(crate) fn case_text(alloc: Global, case: &Case<'_>) -> Result<Vec<u8>, AllocError>
    ensures { IfOk result (λ label. label.items ≡ case_text (case_view case.now)) }
{
    let mut label = Vec::new(alloc);
    push_case(alloc, &mut label, case)?;
    Ok(label)
}

// Adds the line of an arm, where it is known.
fn push_line(alloc: Global, out: &mut Vec<u8>, lines: &[usize], arm: u64) -> Result<(), AllocError>
    ensures { OnOk result (out.new.items ≡ out.old.items ++ line_text (slice_get lines.now arm)) }
{
    match lines.get(arm as usize) {
        Some(line) => {
            out.extend_from_slice(b", line ")?;
            push_decimal(alloc, out, *line as u64)?;
            Ok(())
        }
        None => Ok(()),
    }
}

// Adds an arm with its line.
fn push_arm(alloc: Global, out: &mut Vec<u8>, lines: &[usize], arm: u64) -> Result<(), AllocError>
    ensures { OnOk result (out.new.items ≡ out.old.items ++ arm_text lines.now arm) }
{
    out.extend_from_slice(b"arm ")?;
    push_decimal(alloc, out, arm)?;
    push_line(alloc, out, lines, arm)?;
    Ok(())
}

// An arm by its number, and its line, where the lines of the arms are these.
pub(crate) fn arm_text(alloc: Global, lines: &[usize], arm: u64) -> Result<Vec<u8>, AllocError>
    ensures { IfOk result (λ label. label.items ≡ arm_text lines.now arm) }
{
    let mut label = Vec::new(alloc);
    push_arm(alloc, &mut label, lines, arm)?;
    Ok(label)
}

// The guard of an arm.
pub(crate) fn guard_text(alloc: Global, lines: &[usize], arm: u64) -> Result<Vec<u8>, AllocError>
    ensures { IfOk result (λ label. label.items ≡ guard_text lines.now arm) }
{
    let mut label = Vec::from_slice(alloc, b"guard of ")?;
    push_arm(alloc, &mut label, lines, arm)?;
    Ok(label)
}
