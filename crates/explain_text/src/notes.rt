// The notes on a finding.
ghost use Rattle.std.specs.Prelude.{◌≡◌, ◌++◌, ◌∷◌, ◌≤◌, ◌-◌, [], IfOk, OnOk, codes, length, map, option_map, string_bytes};
ghost use Rattle.explain_report.specs.Arms.{arms_view};
ghost use Rattle.rule_texts.specs.Rules.{help_of, phrase_view};
ghost use Rattle.explain_text.specs.Diagnostics.{note_view};
ghost use Rattle.explain_text.specs.Findings.{kind_view};
ghost use Rattle.explain_text.specs.Messages.{quoted_text};
ghost use Rattle.explain_text.specs.declared.diagnostics.NoteLevel.TheVariants as levels;
ghost use Rattle.explain_text.specs.Notes.{arm_line, arm_lines, arms_at, arms_note, arms_text, broken_notes, case_note, case_notes, count_note, help_notes, missing_notes, more_notes, notes_of, range_note, rest_lines, rule_words, unreached_words, words_note};

use crate::diagnostics::{Note, NoteLevel};
use crate::findings::Kind;
use crate::messages::{push_phrase, push_quoted};
use explain_places::{End, Place};
use rule_texts::{Phrase, rule_help};
use std::alloc::{AllocError, Global};

// How many missing cases are shown.
const MOST_CASES: usize = 8;

// How many arms to add are shown.
const MOST_ARMS: usize = 16;

// Words alone.
fn words_note(alloc: Global, level: NoteLevel, text: String) -> Note
    ensures { note_view result ≡ words_note level (string_bytes text) }
{
    Note {
        level,
        text,
        place: Place::Nowhere,
        comma: false,
        lines: Vec::new(alloc),
    }
}

// A missing case.
fn case_note(alloc: Global, witness: &str) -> Result<Note, AllocError>
    ensures { IfOk result (λ note. note_view note ≡ case_note witness.now) }
{
    let mut text = String::new(alloc);
    push_quoted(&mut text, "add an arm for `", witness, "`")?;
    Ok(words_note(alloc, NoteLevel::Help, text))
}

// Adds a note for each missing case.
fn add_cases(alloc: Global, notes: &mut Vec<Note>, witnesses: &[&str]) -> Result<(), AllocError>
    ensures { OnOk result (map note_view notes.new.items
        ≡ map note_view notes.old.items ++ map case_note (map (λ w. w.now) witnesses.now)) }
{
    for witness in witnesses {
        notes.push(case_note(alloc, witness)?)?;
    }
    Ok(())
}

// Adds how many missing cases are not shown.
fn add_more(alloc: Global, notes: &mut Vec<Note>, count: usize) -> Result<(), AllocError>
    ensures { OnOk result (map note_view notes.new.items ≡ map note_view notes.old.items ++ more_notes count) }
{
    if count == 0 {
        return Ok(());
    }
    let mut text = String::new(alloc);
    write!(text, "and for {count} more")?;
    notes.push(words_note(alloc, NoteLevel::Help, text))?;
    Ok(())
}

// How many cases a match leaves out.
fn count_note(alloc: Global, function: &str, count: usize) -> Result<Note, AllocError>
    ensures { IfOk result (λ note. note_view note ≡ count_note function.now count) }
{
    let mut text = String::from_str(alloc, "the match of `")?;
    text.push_str(function)?;
    text.push_str("` leaves cases out: ")?;
    write!(text, "{count}")?;
    Ok(words_note(alloc, NoteLevel::Note, text))
}

// The notes on missing cases without arms to add.
fn cases_noted(alloc: Global, function: &str, witnesses: &[&str]) -> Result<Vec<Note>, AllocError>
    ensures { IfOk result (λ notes. map note_view notes.items
        ≡ case_notes (map (λ w. w.now) witnesses.now) ++ count_note function.now (length witnesses.now) ∷ []) }
{
    let shown = MOST_CASES.min(witnesses.len());
    let mut notes = Vec::new(alloc);
    add_cases(alloc, &mut notes, &witnesses[..shown])?;
    add_more(alloc, &mut notes, witnesses.len() - shown)?;
    notes.push(count_note(alloc, function, witnesses.len())?)?;
    Ok(notes)
}

// What arms to add do.
fn arms_text(arms: &[String]) -> &'static str
    ensures { result.now ≡ arms_text (map string_bytes arms.now) }
{
    match arms {
        [] => "",
        [_] => {
            "ensure that all possible cases are being handled by adding a match arm with an explicit pattern as shown"
        }
        _ => {
            "ensure that all possible cases are being handled by adding multiple match arms as shown"
        }
    }
}

// An arm to add.
fn arm_line(alloc: Global, pattern: &str) -> Result<String, AllocError>
    ensures { IfOk result (λ line. string_bytes line ≡ arm_line pattern.now) }
{
    let mut line = String::from_str(alloc, pattern)?;
    line.push_str(" => todo!(),")?;
    Ok(line)
}

// Adds arms to add.
fn add_arms(alloc: Global, lines: &mut Vec<String>, arms: &[String]) -> Result<(), AllocError>
    ensures { OnOk result (map string_bytes lines.new.items
        ≡ map string_bytes lines.old.items ++ map arm_line (map string_bytes arms.now)) }
{
    for arm in arms {
        lines.push(arm_line(alloc, arm.as_str())?)?;
    }
    Ok(())
}

// Adds an arm for so many that are not shown.
fn add_rest(alloc: Global, lines: &mut Vec<String>, count: usize) -> Result<(), AllocError>
    ensures { OnOk result (map string_bytes lines.new.items ≡ map string_bytes lines.old.items ++ rest_lines count) }
{
    if count == 0 {
        return Ok(());
    }
    let mut line = String::new(alloc);
    write!(line, "_ => todo!(), // the other cases: {count}")?;
    lines.push(line)?;
    Ok(())
}

// The lines of arms to add.
fn arm_lines(alloc: Global, arms: &[String]) -> Result<Vec<String>, AllocError>
    ensures { IfOk result (λ lines. map string_bytes lines.items ≡ arm_lines (map string_bytes arms.now)) }
{
    let shown = MOST_ARMS.min(arms.len());
    let mut lines = Vec::new(alloc);
    add_arms(alloc, &mut lines, &arms[..shown])?;
    add_rest(alloc, &mut lines, arms.len() - shown)?;
    Ok(lines)
}

// Arms to add there.
fn arms_note(alloc: Global, end: End, arms: &[String]) -> Result<Note, AllocError>
    ensures { IfOk result (λ note. note_view note ≡ arms_note end (map string_bytes arms.now)) }
{
    let text = String::from_str(alloc, arms_text(arms))?;
    let lines = arm_lines(alloc, arms)?;
    Ok(Note {
        level: NoteLevel::Help,
        text,
        place: end.place,
        comma: end.comma,
        lines,
    })
}

// The notes on missing cases, and on the arms to add where there are some.
fn missing_notes(
    alloc: Global,
    function: &str,
    end: End,
    witnesses: &[&str],
    arms: &[String],
) -> Result<Vec<Note>, AllocError>
    ensures { IfOk result (λ notes. map note_view notes.items
        ≡ missing_notes function.now end (map (λ w. w.now) witnesses.now) (map string_bytes arms.now)) }
{
    match arms {
        [] => cases_noted(alloc, function, witnesses),
        [_, ..] => {
            let mut notes = Vec::new(alloc);
            notes.push(count_note(alloc, function, witnesses.len())?)?;
            notes.push(arms_note(alloc, end, arms)?)?;
            Ok(notes)
        }
    }
}

// The arms of the function of this number.
fn arms_at(all: &[Vec<String>], number: usize) -> &[String]
    ensures { map string_bytes result.now ≡ arms_at (map arms_view all.now) number }
{
    match all.get(number) {
        Some(arms) => arms.as_slice(),
        None => &[],
    }
}

// The last words on what no value reaches.
fn unreached_words(whole: bool) -> &'static str
    ensures { result.now ≡ unreached_words whole }
{
    if whole {
        "` reaches this arm"
    } else {
        "` reaches this alternative"
    }
}

// One note of words alone.
fn one_note(alloc: Global, text: String) -> Result<Vec<Note>, AllocError>
    ensures { IfOk result (λ notes. map note_view notes.items
        ≡ words_note levels.Note (string_bytes text) ∷ []) }
{
    let mut notes = Vec::new(alloc);
    notes.push(words_note(alloc, NoteLevel::Note, text))?;
    Ok(notes)
}

// Adds what can be done at what has this name, where there is advice.
fn add_help(
    alloc: Global,
    notes: &mut Vec<Note>,
    name: &str,
    words: Option<Phrase>,
) -> Result<(), AllocError>
    ensures { OnOk result (map note_view notes.new.items
        ≡ map note_view notes.old.items ++ help_notes name.now (option_map phrase_view words)) }
{
    match words {
        Some(phrase) => {
            let mut text = String::new(alloc);
            push_phrase(&mut text, name, phrase)?;
            notes.push(words_note(alloc, NoteLevel::Help, text))?;
            Ok(())
        }
        None => Ok(()),
    }
}

// That a rule is broken at what has this name, and what can be done.
fn broken_notes(alloc: Global, text: String, rule: u64, name: &str) -> Result<Vec<Note>, AllocError>
    ensures { IfOk result (λ notes. map note_view notes.items ≡ broken_notes (string_bytes text) rule name.now) }
{
    let mut notes = one_note(alloc, text)?;
    add_help(alloc, &mut notes, name, rule_help(rule))?;
    Ok(notes)
}

// The notes on ranges that overlap: the other one, and what was meant.
fn overlap_notes(alloc: Global, other: Place) -> Result<Vec<Note>, AllocError>
    ensures { IfOk result (λ notes. map note_view notes.items ≡ range_note other
        ∷ words_note levels.Note (codes "you likely meant to write mutually exclusive ranges") ∷ []) }
{
    let text = String::from_str(alloc, "... with this range")?;
    let mut notes = Vec::new(alloc);
    notes.push(Note {
        level: NoteLevel::Note,
        text,
        place: other,
        comma: false,
        lines: Vec::new(alloc),
    })?;
    let text = String::from_str(alloc, "you likely meant to write mutually exclusive ranges")?;
    notes.push(words_note(alloc, NoteLevel::Note, text))?;
    Ok(notes)
}

// Adds that a rule is broken, behind who breaks it.
fn push_rule(text: &mut String, rule: u64, name: &str) -> Result<(), AllocError>
    ensures { OnOk result (string_bytes text.new ≡ string_bytes text.old ++ rule_words rule name.now) }
{
    text.push_str(" breaks rule ")?;
    write!(text, "{rule}")?;
    push_quoted(text, " (", name, ")")?;
    Ok(())
}

// That a function breaks a rule.
fn refused_text(alloc: Global, function: &str, rule: u64, name: &str) -> Result<String, AllocError>
    ensures { IfOk result (λ text. string_bytes text
        ≡ quoted_text (codes "`") function.now (codes "`") ++ rule_words rule name.now) }
{
    let mut text = String::new(alloc);
    push_quoted(&mut text, "`", function, "`")?;
    push_rule(&mut text, rule, name)?;
    Ok(text)
}

// That the file does.
fn file_refused_text(alloc: Global, rule: u64, name: &str) -> Result<String, AllocError>
    ensures { IfOk result (λ text. string_bytes text ≡ codes "the file" ++ rule_words rule name.now) }
{
    let mut text = String::from_str(alloc, "the file")?;
    push_rule(&mut text, rule, name)?;
    Ok(text)
}

// That no value reaches an arm or an alternative.
fn unreached_text(alloc: Global, function: &str, whole: bool) -> Result<String, AllocError>
    ensures { IfOk result (λ text. string_bytes text
        ≡ quoted_text (codes "no value of the match of `") function.now (unreached_words whole)) }
{
    let mut text = String::new(alloc);
    push_quoted(
        &mut text,
        "no value of the match of `",
        function,
        unreached_words(whole),
    )?;
    Ok(text)
}

// The notes on a finding at what has this name, by the arms to add to each function.
pub(crate) fn notes_of(
    alloc: Global,
    arms: &[Vec<String>],
    name: &str,
    kind: &Kind<'_, '_>,
) -> Result<Vec<Note>, AllocError>
    ensures { IfOk result (λ notes. map note_view notes.items
        ≡ notes_of (map arms_view arms.now) name.now (kind_view kind.now)) }
{
    match kind {
        Kind::Missing {
            function,
            number,
            end,
            witnesses,
        } => missing_notes(alloc, function, *end, witnesses, arms_at(arms, *number)),
        Kind::Unreached { function, whole } => {
            one_note(alloc, unreached_text(alloc, function, *whole)?)
        }
        Kind::Overlap { other, .. } => overlap_notes(alloc, *other),
        Kind::Refused {
            function,
            rule,
            name: rule_name,
        } => {
            let text = refused_text(alloc, function, *rule, rule_name)?;
            broken_notes(alloc, text, *rule, name)
        }
        Kind::FileRefused {
            rule,
            name: rule_name,
        } => {
            let text = file_refused_text(alloc, *rule, rule_name)?;
            broken_notes(alloc, text, *rule, name)
        }
    }
}
