// What a finding says: its code, its title, and its label at its place.
ghost use Rattle.std.specs.Prelude.{◌≡◌, ◌++◌, IfOk, OnOk, option_map, string_bytes, map};
ghost use Rattle.explain_text.specs.Findings.{kind_view};
ghost use Rattle.explain_text.specs.Messages.{cases_text, code_text, is_error, label_text, many_cases, named_text, others_text, part_name, pattern_word, phrase_text, place_name, quoted_text, three_cases, ticked, title_text, two_cases, uncovered_text, words_or};
ghost use Rattle.rule_texts.specs.Rules.{phrase_view};

use crate::findings::Kind;
use crate::shown::marked_part;
use explain_places::Place;
use rule_texts::{Phrase, rule_label, rule_title};
use std::alloc::{AllocError, Global};

// Whether a finding breaks a build.
pub(crate) fn is_error(kind: &Kind<'_, '_>) -> bool
    ensures { result ≡ is_error (kind_view kind.now) }
{
    match kind {
        Kind::Missing { .. } | Kind::Refused { .. } | Kind::FileRefused { .. } => true,
        Kind::Unreached { .. } | Kind::Overlap { .. } => false,
    }
}

// Adds a short name of what is found.
pub(crate) fn push_code(text: &mut String, kind: &Kind<'_, '_>) -> Result<(), AllocError>
    ensures { OnOk result (string_bytes text.new ≡ string_bytes text.old ++ code_text (kind_view kind.now)) }
{
    match kind {
        Kind::Missing { .. } => text.push_str("non-exhaustive-patterns"),
        Kind::Unreached { .. } => text.push_str("unreachable-pattern"),
        Kind::Overlap { .. } => text.push_str("overlapping-range-endpoints"),
        Kind::Refused { name, .. } => text.push_str(name),
        Kind::FileRefused { name, .. } => text.push_str(name),
    }
}

// Adds a phrase around a text.
pub(crate) fn push_quoted(
    text: &mut String,
    front: &str,
    inner: &str,
    back: &str,
) -> Result<(), AllocError>
    ensures { OnOk result (string_bytes text.new ≡ string_bytes text.old ++ quoted_text front.now inner.now back.now) }
{
    text.push_str(front)?;
    text.push_str(inner)?;
    text.push_str(back)?;
    Ok(())
}

// Adds a text as code.
fn push_ticked(text: &mut String, inner: &str) -> Result<(), AllocError>
    ensures { OnOk result (string_bytes text.new ≡ string_bytes text.old ++ ticked inner.now) }
{
    push_quoted(text, "`", inner, "`")?;
    Ok(())
}

// Adds two cases.
fn push_two(text: &mut String, a: &str, b: &str) -> Result<(), AllocError>
    ensures { OnOk result (string_bytes text.new ≡ string_bytes text.old ++ two_cases a.now b.now) }
{
    push_ticked(text, a)?;
    text.push_str(" and ")?;
    push_ticked(text, b)?;
    Ok(())
}

// Adds three cases.
fn push_three(text: &mut String, a: &str, b: &str, c: &str) -> Result<(), AllocError>
    ensures { OnOk result (string_bytes text.new ≡ string_bytes text.old ++ three_cases a.now b.now c.now) }
{
    push_ticked(text, a)?;
    text.push_str(", ")?;
    push_two(text, b, c)?;
    Ok(())
}

// Adds how many other cases there are.
fn push_others(text: &mut String, more: usize) -> Result<(), AllocError>
    ensures { OnOk result (string_bytes text.new ≡ string_bytes text.old ++ others_text more) }
{
    write!(text, " and {more} more")?;
    Ok(())
}

// Adds three cases, and how many others there are.
fn push_many(text: &mut String, a: &str, b: &str, c: &str, more: usize) -> Result<(), AllocError>
    ensures { OnOk result (string_bytes text.new ≡ string_bytes text.old ++ many_cases a.now b.now c.now more) }
{
    push_ticked(text, a)?;
    text.push_str(", ")?;
    push_ticked(text, b)?;
    text.push_str(", ")?;
    push_ticked(text, c)?;
    push_others(text, more)?;
    Ok(())
}

// Adds cases, the first three by name.
fn push_cases(text: &mut String, witnesses: &[&str]) -> Result<(), AllocError>
    ensures { OnOk result (string_bytes text.new ≡ string_bytes text.old ++ cases_text (map (λ w. w.now) witnesses.now)) }
{
    match witnesses {
        [] => text.push_str("some values"),
        [a] => push_ticked(text, a),
        [a, b] => push_two(text, a, b),
        [a, b, c] => push_three(text, a, b, c),
        [a, b, c, others @ ..] => push_many(text, a, b, c, others.len()),
    }
}

// One pattern or several.
fn pattern_word(witnesses: &[&str]) -> &'static str
    ensures { result.now ≡ pattern_word (map (λ w. w.now) witnesses.now) }
{
    match witnesses {
        [] => "",
        [_] => "pattern ",
        _ => "patterns ",
    }
}

// Adds which cases are not covered.
fn push_uncovered(text: &mut String, front: &str, witnesses: &[&str]) -> Result<(), AllocError>
    ensures { OnOk result (string_bytes text.new
        ≡ string_bytes text.old ++ uncovered_text front.now (map (λ w. w.now) witnesses.now)) }
{
    text.push_str(front)?;
    push_cases(text, witnesses)?;
    text.push_str(" not covered")?;
    Ok(())
}

// What is shown of a part of a text on its first line.
fn part_name(alloc: Global, text: &[u8], at: usize, to: usize) -> Result<String, AllocError>
    ensures { IfOk result (λ name. string_bytes name ≡ part_name text.now at to) }
{
    if at <= text.len() {
        marked_part(alloc, text, at, to)
    } else {
        Ok(String::new(alloc))
    }
}

// What is shown of a place of the file.
pub(crate) fn place_name(
    alloc: Global,
    text: &[u8],
    mark: usize,
    place: Place,
) -> Result<String, AllocError>
    ensures { IfOk result (λ name. string_bytes name ≡ place_name text.now mark place) }
{
    match place {
        Place::There(span) => part_name(
            alloc,
            text,
            span.from.saturating_sub(mark),
            span.to.saturating_sub(mark),
        ),
        Place::Nowhere | Place::Lost => Ok(String::new(alloc)),
    }
}

// Adds a phrase on what has this name.
fn push_named(text: &mut String, front: &str, name: &str, back: &str) -> Result<(), AllocError>
    ensures { OnOk result (string_bytes text.new ≡ string_bytes text.old ++ named_text front.now name.now back.now) }
{
    text.push_str(front)?;
    push_ticked(text, name)?;
    text.push_str(back)?;
    Ok(())
}

// Adds a phrase, on what has this name.
pub(crate) fn push_phrase(text: &mut String, name: &str, phrase: Phrase) -> Result<(), AllocError>
    ensures { OnOk result (string_bytes text.new
        ≡ string_bytes text.old ++ phrase_text name.now (phrase_view phrase)) }
{
    match phrase {
        Phrase::Plain(words) => text.push_str(words),
        Phrase::Named { front, back } => push_named(text, front, name, back),
    }
}

// Adds the words on what has this name, where there are some.
fn push_words(text: &mut String, name: &str, words: Option<Phrase>) -> Result<(), AllocError>
    ensures { OnOk result (string_bytes text.new
        ≡ string_bytes text.old ++ words_or name.now (option_map phrase_view words)) }
{
    match words {
        Some(phrase) => push_phrase(text, name, phrase),
        None => text.push_str("no rule has this number"),
    }
}

// Adds what is found at what has this name.
pub(crate) fn push_title(
    text: &mut String,
    name: &str,
    kind: &Kind<'_, '_>,
) -> Result<(), AllocError>
    ensures { OnOk result (string_bytes text.new ≡ string_bytes text.old ++ title_text name.now (kind_view kind.now)) }
{
    match kind {
        Kind::Missing { witnesses, .. } => {
            push_uncovered(text, "non-exhaustive patterns: ", witnesses)
        }
        Kind::Unreached { .. } => text.push_str("unreachable pattern"),
        Kind::Overlap { .. } => text.push_str("multiple patterns overlap on their endpoints"),
        Kind::Refused { rule, .. } => push_words(text, name, rule_title(*rule)),
        Kind::FileRefused { rule, .. } => push_words(text, name, rule_title(*rule)),
    }
}

// Adds what is said at its place.
pub(crate) fn push_label(
    text: &mut String,
    name: &str,
    kind: &Kind<'_, '_>,
) -> Result<(), AllocError>
    ensures { OnOk result (string_bytes text.new ≡ string_bytes text.old ++ label_text name.now (kind_view kind.now)) }
{
    match kind {
        Kind::Missing { witnesses, .. } => {
            push_uncovered(text, pattern_word(witnesses), witnesses)
        }
        Kind::Unreached { .. } => text.push_str("no value can reach this"),
        Kind::Overlap { value, .. } => {
            push_quoted(text, "this range overlaps on `", value, "`...")
        }
        Kind::Refused { rule, .. } => push_words(text, name, rule_label(*rule)),
        Kind::FileRefused { rule, .. } => push_words(text, name, rule_label(*rule)),
    }
}
