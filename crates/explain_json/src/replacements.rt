// Arms that are to be put into a match.
ghost use Rattle.std.specs.Prelude.{◌≡◌, ◌++◌, IfOk, OnOk, flat_map, map, option_map, string_bytes};
ghost use Rattle.explain_text.specs.Diagnostics.{note_view};
ghost use Rattle.explain_json.specs.Replacements.{comma_text, put_line, put_lines, replacement_by, replacement_of};

use explain_text::Note;
use std::alloc::{AllocError, Global};

// The comma that the last arm of a match lacks.
fn comma_text(comma: bool) -> &'static str
    ensures { result.now ≡ comma_text comma }
{
    if comma { ",\n    " } else { "" }
}

// Adds an arm, with a line feed behind it.
fn push_put_line(text: &mut String, line: &str) -> Result<(), AllocError>
    ensures { OnOk result (string_bytes text.new ≡ string_bytes text.old ++ put_line line.now) }
{
    text.push_str("    ")?;
    text.push_str(line)?;
    text.push_str("\n    ")?;
    Ok(())
}

// Adds arms, each with a line feed behind it.
fn push_put_lines(text: &mut String, lines: &[String]) -> Result<(), AllocError>
    ensures { OnOk result (string_bytes text.new
        ≡ string_bytes text.old ++ flat_map put_line (map string_bytes lines.now)) }
{
    for line in lines {
        push_put_line(text, line.as_str())?;
    }
    Ok(())
}

// Arms behind those of the match.
fn put_lines(alloc: Global, comma: bool, lines: &[String]) -> Result<String, AllocError>
    ensures { IfOk result (λ text. string_bytes text ≡ put_lines comma (map string_bytes lines.now)) }
{
    let mut text = String::from_str(alloc, comma_text(comma))?;
    push_put_lines(&mut text, lines)?;
    Ok(text)
}

// What is put in, where there are arms.
fn replacement_by(
    alloc: Global,
    comma: bool,
    lines: &[String],
) -> Result<Option<String>, AllocError>
    ensures { IfOk result (λ text. option_map string_bytes text ≡ replacement_by comma (map string_bytes lines.now)) }
{
    if lines.is_empty() {
        return Ok(None);
    }
    let text = put_lines(alloc, comma, lines)?;
    Ok(Some(text))
}

// What a note puts in.
pub(crate) fn replacement_of(alloc: Global, note: &Note) -> Result<Option<String>, AllocError>
    ensures { IfOk result (λ text. option_map string_bytes text ≡ replacement_of (note_view note.now)) }
{
    replacement_by(alloc, note.comma, note.lines.as_slice())
}
