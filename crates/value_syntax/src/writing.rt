//! Values as texts.
ghost use Rattle.std.specs.Prelude.{◌≡◌, ◌++◌, false, OnOk, chars, codes, decimal, string_bytes};
ghost use Rattle.decl_lexer.specs.Written.{written_name};
ghost use Rattle.witness_text.specs.Literals.{string_literal};
ghost use Rattle.witness_text.specs.Texts.{name_text, flag_text, tuple_end, joined, tuple_text, bracketed, braced};
ghost use Rattle.witness_text.specs.Texts.{field_text};
ghost use Rattle.witness_text.specs.Writing.{comma_between, listed};
ghost use Rattle.value_syntax.specs.Trees.{written_view, values_view, field_view, fields_view, path_view};
ghost use Rattle.value_syntax.specs.Texts.{sign_text, mark_text, written_text, value_texts, field_texts};

use crate::literals::{push_byte, push_char, push_string};
use crate::value::{WrittenField, WrittenPath, WrittenValue};
use decl_lexer::push_name;
use std::alloc::AllocError;

/// Adds the text of a value, as `specs/Texts.antt` has it: in the manner of witnesses, with suffixes and bytes as they
/// are written and with the fields in their order. What stood in the text stays. The only error is want of memory; the
/// text may then end within what was to be added. It goes down level by level.
#[cycle(writing)]
pub fn push_written(text: &mut String, value: &WrittenValue) -> Result<(), AllocError>
    ensures { OnOk result (string_bytes text.new ≡ string_bytes text.old ++ written_text (written_view value.now)) }
{
    match value {
        WrittenValue::Flag(flag) => text.push_str(flag_word(*flag)),
        WrittenValue::Char(c) => push_char(text, *c),
        WrittenValue::Byte(byte) => push_byte(text, *byte),
        WrittenValue::Int {
            negative,
            size,
            suffix,
        } => push_int(text, *negative, *size, suffix.as_str()),
        WrittenValue::Str(shown) => push_string(text, shown.as_str()),
        WrittenValue::Text(shown) => push_referred(text, shown.as_str()),
        WrittenValue::Opaque => text.push_str("?opaque"),
        WrittenValue::Later => text.push_str("?later"),
        WrittenValue::Unseen => text.push_str("?unseen"),
        WrittenValue::Point { mutable, inner } => push_point(text, *mutable, inner),
        WrittenValue::Tuple(parts) => push_tuple(text, parts),
        WrittenValue::Row(items) => push_row(text, items),
        WrittenValue::UnitForm(path) => push_path(text, path),
        WrittenValue::TupleForm { path, parts } => push_tuple_form(text, path, parts),
        WrittenValue::BraceForm { path, fields } => push_brace_form(text, path, fields),
    }
}

/// A truth value as it is written.
fn flag_word(flag: bool) -> &'static str
    ensures { result.now ≡ flag_text flag }
{
    if flag { "true" } else { "false" }
}

/// A sign as it is written.
fn sign_word(negative: bool) -> &'static str
    ensures { result.now ≡ sign_text negative }
{
    if negative { "-" } else { "" }
}

/// The mark of a reference as it is written.
fn mark_word(mutable: bool) -> &'static str
    ensures { result.now ≡ mark_text mutable }
{
    if mutable { "&mut " } else { "&" }
}

/// Adds a number without a sign.
fn push_size(text: &mut String, size: u128) -> Result<(), AllocError>
    ensures { OnOk result (string_bytes text.new ≡ string_bytes text.old ++ decimal size) }
{
    write!(text, "{size}")
}

/// Adds an integer with its suffix.
fn push_int(text: &mut String, negative: bool, size: u128, suffix: &str) -> Result<(), AllocError>
    ensures { OnOk result (string_bytes text.new
        ≡ string_bytes text.old ++ (sign_text negative ++ (decimal size ++ suffix.now))) }
{
    text.push_str(sign_word(negative))?;
    push_size(text, size)?;
    text.push_str(suffix)?;
    Ok(())
}

/// Adds a text itself: what its literal refers to.
fn push_referred(text: &mut String, shown: &str) -> Result<(), AllocError>
    ensures { OnOk result (string_bytes text.new
        ≡ string_bytes text.old ++ (codes "*" ++ string_literal (chars shown.now))) }
{
    text.push('*')?;
    push_string(text, shown)?;
    Ok(())
}

/// Adds a name behind that of an enum.
fn push_variant(text: &mut String, owner: &str, name: &str) -> Result<(), AllocError>
    ensures { OnOk result (string_bytes text.new
        ≡ string_bytes text.old ++ (written_name owner.now ++ (codes "::" ++ written_name name.now))) }
{
    push_name(text, owner)?;
    text.push_str("::")?;
    push_name(text, name)?;
    Ok(())
}

/// Adds the name of a form; names that are keywords have `r#`.
#[tactic(auto, unfolding(witness_text::specs::Texts::name_text))]
fn push_path(text: &mut String, path: &WrittenPath) -> Result<(), AllocError>
    ensures { OnOk result (string_bytes text.new ≡ string_bytes text.old ++ name_text (path_view path.now)) }
{
    match &path.owner {
        Some(owner) => push_variant(text, owner.as_str(), path.name.as_str()),
        None => push_name(text, path.name.as_str()),
    }
}

/// Adds what stands between two texts of a list, where something stands before.
fn push_between(text: &mut String, later: bool) -> Result<(), AllocError>
    ensures { OnOk result (string_bytes text.new ≡ string_bytes text.old ++ comma_between later) }
{
    if later {
        return text.push_str(", ");
    }
    Ok(())
}

/// What closes a tuple of these parts.
fn tuple_end(parts: &[WrittenValue]) -> &'static str
    ensures { result.now ≡ tuple_end (value_texts (values_view parts.now)) }
{
    if parts.len() == 1 { ",)" } else { ")" }
}

/// Adds values with commas between them.
#[cycle(writing)]
fn push_values(text: &mut String, values: &[WrittenValue]) -> Result<(), AllocError>
    ensures { OnOk result (string_bytes text.new
        ≡ string_bytes text.old ++ listed false (value_texts (values_view values.now))) }
{
    let mut later = false;
    for value in values {
        push_between(text, later)?;
        push_written(text, value)?;
        later = true;
    }
    Ok(())
}

/// Adds fields, each with its name, and commas between them.
#[cycle(writing)]
fn push_fields(text: &mut String, fields: &[WrittenField]) -> Result<(), AllocError>
    ensures { OnOk result (string_bytes text.new
        ≡ string_bytes text.old ++ listed false (field_texts (fields_view fields.now))) }
{
    let mut later = false;
    for field in fields {
        push_between(text, later)?;
        push_field(text, field)?;
        later = true;
    }
    Ok(())
}

/// Adds a field with its name.
#[cycle(writing)]
fn push_field(text: &mut String, field: &WrittenField) -> Result<(), AllocError>
    ensures { OnOk result (string_bytes text.new
        ≡ string_bytes text.old ++ field_text (field_view field.now).name
        (written_text (field_view field.now).value)) }
{
    push_name(text, field.name.as_str())?;
    text.push_str(": ")?;
    push_written(text, &field.value)?;
    Ok(())
}

/// Adds a reference.
#[cycle(writing)]
fn push_point(text: &mut String, mutable: bool, inner: &WrittenValue) -> Result<(), AllocError>
    ensures { OnOk result (string_bytes text.new
        ≡ string_bytes text.old ++ (mark_text mutable ++ written_text (written_view inner.now))) }
{
    text.push_str(mark_word(mutable))?;
    push_written(text, inner)?;
    Ok(())
}

/// Adds a tuple.
#[cycle(writing)]
fn push_tuple(text: &mut String, parts: &[WrittenValue]) -> Result<(), AllocError>
    ensures { OnOk result (string_bytes text.new
        ≡ string_bytes text.old ++ tuple_text (value_texts (values_view parts.now))) }
{
    text.push('(')?;
    push_values(text, parts)?;
    text.push_str(tuple_end(parts))?;
    Ok(())
}

/// Adds a row of items.
#[cycle(writing)]
fn push_row(text: &mut String, items: &[WrittenValue]) -> Result<(), AllocError>
    ensures { OnOk result (string_bytes text.new ≡ string_bytes text.old
        ++ (codes "[" ++ (joined (value_texts (values_view items.now)) ++ codes "]"))) }
{
    text.push('[')?;
    push_values(text, items)?;
    text.push(']')?;
    Ok(())
}

/// Adds a form with a list of parts.
#[cycle(writing)]
fn push_tuple_form(
    text: &mut String,
    path: &WrittenPath,
    parts: &[WrittenValue],
) -> Result<(), AllocError>
    ensures { OnOk result (string_bytes text.new ≡ string_bytes text.old
        ++ (name_text (path_view path.now) ++ bracketed (value_texts (values_view parts.now)))) }
{
    push_path(text, path)?;
    text.push('(')?;
    push_values(text, parts)?;
    text.push(')')?;
    Ok(())
}

/// Adds a form with named fields.
#[cycle(writing)]
fn push_brace_form(
    text: &mut String,
    path: &WrittenPath,
    fields: &[WrittenField],
) -> Result<(), AllocError>
    ensures { OnOk result (string_bytes text.new ≡ string_bytes text.old
        ++ (name_text (path_view path.now) ++ braced (field_texts (fields_view fields.now)))) }
{
    push_path(text, path)?;
    push_braces(text, fields)?;
    Ok(())
}

/// Adds named fields in their braces.
#[cycle(writing)]
fn push_braces(text: &mut String, fields: &[WrittenField]) -> Result<(), AllocError>
    ensures { OnOk result (string_bytes text.new
        ≡ string_bytes text.old ++ braced (field_texts (fields_view fields.now))) }
{
    if fields.is_empty() {
        return text.push_str(" {}");
    }
    text.push_str(" { ")?;
    push_fields(text, fields)?;
    text.push_str(" }")?;
    Ok(())
}
