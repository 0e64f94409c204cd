// The text of notes.
ghost use Rattle.std.specs.Prelude.{◌≡◌, ◌++◌, ◌≤◌, ◌-◌, [], OnOk, flat_map, length, map, string_bytes};
ghost use Rattle.std.specs.List.{All};
ghost use Rattle.explain_lines.specs.Steps.{IsSpotOf};
ghost use Rattle.explain_text.specs.Diagnostics.{IsNoteInside, note_view};
ghost use Rattle.explain_text.specs.Texts.{block_text, code_line, lined_text, note_style, note_text, note_word, placed_text, words_text};
ghost use Rattle.explain_text.specs.Frames.{span_text};

use crate::diagnostics::{Note, NoteLevel};
use crate::frames::push_frame;
use crate::source::Source;
use crate::styles::{Style, push_styled};
use explain_places::{Place, Span};
use std::alloc::{AllocError, Global};

// What a note is called.
fn note_word(level: NoteLevel) -> &'static str
    ensures { result.now ≡ note_word level }
{
    match level {
        NoteLevel::Note => "note",
        NoteLevel::Help => "help",
    }
}

// The style of a note.
fn note_style(level: NoteLevel) -> Style
    ensures { result ≡ note_style level }
{
    match level {
        NoteLevel::Note => Style::Note,
        NoteLevel::Help => Style::Help,
    }
}

// Adds a note of words alone.
pub(crate) fn push_words(
    text: &mut String,
    paint: bool,
    word: &str,
    words: &str,
) -> Result<(), AllocError>
    ensures { OnOk result (string_bytes text.new ≡ string_bytes text.old ++ words_text paint word.now words.now) }
{
    text.push_str("  ")?;
    push_styled(text, paint, Style::Frame, "= ")?;
    push_styled(text, paint, Style::Bold, word)?;
    text.push_str(": ")?;
    text.push_str(words)?;
    text.push_str("\n")?;
    Ok(())
}

// Adds the first line of a note that more lines follow.
fn push_block(
    text: &mut String,
    paint: bool,
    level: NoteLevel,
    words: &str,
) -> Result<(), AllocError>
    ensures { OnOk result (string_bytes text.new ≡ string_bytes text.old ++ block_text paint level words.now) }
{
    push_styled(text, paint, note_style(level), note_word(level))?;
    text.push_str(": ")?;
    text.push_str(words)?;
    text.push_str("\n")?;
    Ok(())
}

// Adds a line of code.
fn push_code_line(text: &mut String, line: &str) -> Result<(), AllocError>
    ensures { OnOk result (string_bytes text.new ≡ string_bytes text.old ++ code_line line.now) }
{
    text.push_str("        ")?;
    text.push_str(line)?;
    text.push_str("\n")?;
    Ok(())
}

// Adds lines of code.
fn push_code(text: &mut String, lines: &[String]) -> Result<(), AllocError>
    ensures { OnOk result (string_bytes text.new
        ≡ string_bytes text.old ++ flat_map code_line (map string_bytes lines.now)) }
{
    for line in lines {
        push_code_line(text, line.as_str())?;
    }
    Ok(())
}

// Adds a note on what stands there.
fn push_marked(
    alloc: Global,
    text: &mut String,
    source: &Source<'_>,
    note: &Note,
    span: &Span,
) -> Result<(), AllocError>
    requires right { All (IsSpotOf source.now.text.now) source.now.spots.now }
    requires within { span.now.from - source.now.mark ≤ length source.now.text.now }
    ensures { OnOk result (string_bytes text.new ≡ string_bytes text.old
        ++ (block_text source.now.paint note.now.level (string_bytes note.now.text)
        ++ span_text source.now.paint (note_style note.now.level) [] source.now.name.now source.now.text.now source.now.mark
        span.now)) }
{
    let style = note_style(note.level);
    push_block(text, source.paint, note.level, note.text.as_str())?;
    push_frame(alloc, text, source, span, style, "")?;
    Ok(())
}

// Adds a note without lines of code.
fn push_placed(
    alloc: Global,
    text: &mut String,
    source: &Source<'_>,
    note: &Note,
) -> Result<(), AllocError>
    requires right { All (IsSpotOf source.now.text.now) source.now.spots.now }
    requires within { IsNoteInside (length source.now.text.now) source.now.mark (note_view note.now) }
    ensures { OnOk result (string_bytes text.new ≡ string_bytes text.old
        ++ placed_text source.now.paint source.now.name.now source.now.text.now source.now.mark
        note.now.level (string_bytes note.now.text) note.now.place) }
{
    match note.place {
        Place::There(span) => push_marked(alloc, text, source, note, &span),
        Place::Nowhere | Place::Lost => push_words(
            text,
            source.paint,
            note_word(note.level),
            note.text.as_str(),
        ),
    }
}

// Adds a note with lines of code.
fn push_lined(
    text: &mut String,
    paint: bool,
    note: &Note,
    lines: &[String],
) -> Result<(), AllocError>
    ensures { OnOk result (string_bytes text.new ≡ string_bytes text.old
        ++ (block_text paint note.now.level (string_bytes note.now.text) ++ flat_map code_line (map string_bytes lines.now))) }
{
    push_block(text, paint, note.level, note.text.as_str())?;
    push_code(text, lines)?;
    Ok(())
}

// Adds a note with these lines of code, if any.
fn push_with(
    alloc: Global,
    text: &mut String,
    source: &Source<'_>,
    note: &Note,
    lines: &[String],
) -> Result<(), AllocError>
    requires right { All (IsSpotOf source.now.text.now) source.now.spots.now }
    requires within { IsNoteInside (length source.now.text.now) source.now.mark (note_view note.now) }
    ensures { OnOk result (string_bytes text.new ≡ string_bytes text.old
        ++ lined_text source.now.paint source.now.name.now source.now.text.now source.now.mark (note_view note.now)
        (map string_bytes lines.now)) }
{
    match lines {
        [] => push_placed(alloc, text, source, note),
        [_, ..] => push_lined(text, source.paint, note, lines),
    }
}

// Adds a note.
fn push_note(
    alloc: Global,
    text: &mut String,
    source: &Source<'_>,
    note: &Note,
) -> Result<(), AllocError>
    requires right { All (IsSpotOf source.now.text.now) source.now.spots.now }
    requires within { IsNoteInside (length source.now.text.now) source.now.mark (note_view note.now) }
    ensures { OnOk result (string_bytes text.new ≡ string_bytes text.old
        ++ note_text source.now.paint source.now.name.now source.now.text.now source.now.mark (note_view note.now)) }
{
    push_with(alloc, text, source, note, note.lines.as_slice())?;
    Ok(())
}

// Adds notes, one after the other.
pub(crate) fn push_notes(
    alloc: Global,
    text: &mut String,
    source: &Source<'_>,
    notes: &[Note],
) -> Result<(), AllocError>
    requires right { All (IsSpotOf source.now.text.now) source.now.spots.now }
    requires within { All (IsNoteInside (length source.now.text.now) source.now.mark) (map note_view notes.now) }
    ensures { OnOk result (string_bytes text.new ≡ string_bytes text.old
        ++ flat_map (note_text source.now.paint source.now.name.now source.now.text.now source.now.mark)
        (map note_view notes.now)) }
{
    for note in notes {
        push_note(alloc, text, source, note)?;
    }
    Ok(())
}
