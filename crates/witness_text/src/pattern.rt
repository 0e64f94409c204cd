// Witnesses as Rust writes patterns.
ghost use Rattle.std.specs.Prelude.{◌≡◌, ◌++◌, ◌≤◌, false, true, IfOk, OnOk, chars, option_map, string_bytes};
ghost use Rattle.witness_text.specs.Trees.{OfPoint, name_view, witness_view, witnesses_view, field_view, fields_view};
ghost use Rattle.witness_text.specs.Texts.{name_text, flag_text, tuple_end, tuple_text, bracketed, braced};
ghost use Rattle.witness_text.specs.Texts.{rest_texts, text_of, text_by, parts_by};
ghost use Rattle.witness_text.specs.Texts.{field_text, fields_by};
ghost use Rattle.witness_text.specs.Writing.{comma_between, listed, is_behind};
ghost use Rattle.witness_text.specs.Points.{begins_with_point, is_literal, behind_marks, mark_text, marks_text};
ghost use Rattle.witness_text.specs.declared.named.NamedWitness.{size-NamedWitness};

use crate::literals::{push_referred, push_string};
use crate::named::Style;
use crate::names::push_form_name;
use crate::ranges::{push_chars, push_ints};
use crate::{FormName, NamedField, NamedWitness};
use decl_lexer::push_name;
use std::alloc::AllocError;

// A truth value as it is written.
pub fn flag_word(flag: bool) -> &'static str
    ensures { result.now ≡ flag_text flag }
{
    if flag { "true" } else { "false" }
}

// The text that a witness is, where it is one.
fn literal_of<'a>(witness: &NamedWitness<'a>) -> Option<&'a str>
    ensures { option_map (λ t. chars t.now) result ≡ text_of (witness_view witness.now) }
{
    match witness {
        NamedWitness::Text(text) => Some(text),
        NamedWitness::Any | NamedWitness::Flag(_) | NamedWitness::Ints { .. } => None,
        NamedWitness::Chars { .. } | NamedWitness::Else(_) | NamedWitness::Tuple(_) => None,
        NamedWitness::UnitForm(_) | NamedWitness::TupleForm { .. } => None,
        NamedWitness::BraceForm { .. } | NamedWitness::Point { .. } => None,
        NamedWitness::Row { .. } | NamedWitness::Later => None,
    }
}

// What closes a tuple of these parts.
fn tuple_end(parts: &[NamedWitness<'_>]) -> &'static str
    ensures { (style : Style) → result.now ≡ tuple_end (parts_by style (witnesses_view parts.now)) }
{
    if parts.len() == 1 { ",)" } else { ")" }
}

// Adds what stands between two texts of a list, where something stands before.
fn push_between(text: &mut String, later: bool) -> Result<(), AllocError>
    ensures { OnOk result (string_bytes text.new ≡ string_bytes text.old ++ comma_between later) }
{
    if later {
        return text.push_str(", ");
    }
    Ok(())
}

// Adds what stands for the items that are not shown, and tells whether something stands before what follows.
fn push_rest(text: &mut String, later: bool, longer: bool) -> Result<bool, AllocError>
    ensures text { OnOk result (string_bytes text.new ≡ string_bytes text.old ++ listed later (rest_texts longer)) }
    ensures later { IfOk result (λ b. b ≡ is_behind later (rest_texts longer)) }
{
    if !longer {
        return Ok(later);
    }
    push_between(text, later)?;
    text.push_str("..")?;
    Ok(true)
}

// What a reference begins with.
fn point_mark(mutable: bool) -> &'static str
    ensures { result.now ≡ mark_text mutable }
{
    if mutable { "&mut " } else { "&" }
}

// Whether a reference is shown as the literal of a text alone.
fn is_literal(mutable: bool, inner: &NamedWitness<'_>) -> bool
    ensures { result ≡ is_literal mutable (witness_view inner.now) }
{
    !mutable && literal_of(inner).is_some()
}

// What stands behind the marks of references that the witness begins with.
fn behind_marks<'w, 'a>(witness: &'w NamedWitness<'a>) -> &'w NamedWitness<'a>
    ensures behind { witness_view result.now ≡ behind_marks (witness_view witness.now) }
    ensures size { size-NamedWitness result.now ≤ size-NamedWitness witness.now }
{
    let mut here = witness;
    while let NamedWitness::Point { mutable, inner } = here {
        if is_literal(*mutable, inner) {
            return here;
        }
        here = inner;
    }
    here
}

// Adds the marks of references that the witness begins with.
fn push_marks(text: &mut String, witness: &NamedWitness<'_>) -> Result<(), AllocError>
    ensures { OnOk result (string_bytes text.new ≡ string_bytes text.old ++ marks_text (witness_view witness.now)) }
{
    let mut here = witness;
    while let NamedWitness::Point { mutable, inner } = here {
        if is_literal(*mutable, inner) {
            return Ok(());
        }
        text.push_str(point_mark(*mutable))?;
        here = inner;
    }
    Ok(())
}

// Adds the witness in the style. It goes down level by level, and through references that follow one another in a loop.
#[cycle(pattern)]
pub fn push_pattern(
    text: &mut String,
    style: Style,
    witness: &NamedWitness<'_>,
) -> Result<(), AllocError>
    ensures { OnOk result (string_bytes text.new ≡ string_bytes text.old ++ text_by style (witness_view witness.now)) }
{
    match witness {
        NamedWitness::Any => text.push('_'),
        NamedWitness::Flag(flag) => text.push_str(flag_word(*flag)),
        NamedWitness::Ints { kind, range } => push_ints(text, style, *kind, range),
        NamedWitness::Chars { low, high } => push_chars(text, style, *low, *high),
        NamedWitness::Text(shown) => push_referred(text, shown),
        NamedWitness::Else(_) => text.push('_'),
        NamedWitness::Tuple(parts) => push_tuple(text, style, parts),
        NamedWitness::UnitForm(name) => push_form_name(text, name),
        NamedWitness::TupleForm { name, parts } => push_tuple_form(text, style, name, parts),
        NamedWitness::BraceForm { name, fields } => push_brace_form(text, style, name, fields),
        NamedWitness::Point { .. } => push_points(text, style, witness),
        NamedWitness::Row {
            front,
            longer,
            back,
        } => {
            text.push('[')?;
            let later = push_parts(text, style, false, front)?;
            let later = push_rest(text, later, *longer)?;
            push_parts(text, style, later, back)?;
            text.push(']')?;
            Ok(())
        }
        NamedWitness::Later => text.push('_'),
    }
}

// Adds the witnesses with commas between them, and one in front where something stands before; tells whether something
// stands before what follows.
#[cycle(pattern)]
fn push_parts(
    text: &mut String,
    style: Style,
    before: bool,
    parts: &[NamedWitness<'_>],
) -> Result<bool, AllocError>
    ensures text { OnOk result (string_bytes text.new
        ≡ string_bytes text.old ++ listed before (parts_by style (witnesses_view parts.now))) }
    ensures later { IfOk result (λ b. b ≡ is_behind before (parts_by style (witnesses_view parts.now))) }
{
    let mut later = before;
    for part in parts {
        push_between(text, later)?;
        push_pattern(text, style, part)?;
        later = true;
    }
    Ok(later)
}

// Adds the fields, each with its name, and commas between them.
#[cycle(pattern)]
fn push_fields(text: &mut String, style: Style, fields: &[NamedField<'_>]) -> Result<(), AllocError>
    ensures { OnOk result (string_bytes text.new
        ≡ string_bytes text.old ++ listed false (fields_by style (fields_view fields.now))) }
{
    let mut later = false;
    for field in fields {
        push_between(text, later)?;
        push_field(text, style, field)?;
        later = true;
    }
    Ok(())
}

// Adds a field with its name.
#[cycle(pattern)]
fn push_field(text: &mut String, style: Style, field: &NamedField<'_>) -> Result<(), AllocError>
    ensures { OnOk result (string_bytes text.new
        ≡ string_bytes text.old ++ field_text (field_view field.now).name
        (text_by style (field_view field.now).witness)) }
{
    push_name(text, field.name)?;
    text.push_str(": ")?;
    push_pattern(text, style, &field.witness)?;
    Ok(())
}

// Adds a tuple.
#[cycle(pattern)]
fn push_tuple(text: &mut String, style: Style, parts: &[NamedWitness<'_>]) -> Result<(), AllocError>
    ensures { OnOk result (string_bytes text.new ≡ string_bytes text.old
        ++ tuple_text (parts_by style (witnesses_view parts.now))) }
{
    text.push('(')?;
    push_parts(text, style, false, parts)?;
    text.push_str(tuple_end(parts))?;
    Ok(())
}

// Adds a form with a list of parts.
#[cycle(pattern)]
fn push_tuple_form(
    text: &mut String,
    style: Style,
    name: &FormName<'_>,
    parts: &[NamedWitness<'_>],
) -> Result<(), AllocError>
    ensures { OnOk result (string_bytes text.new ≡ string_bytes text.old
        ++ (name_text (name_view name.now) ++ bracketed (parts_by style (witnesses_view parts.now)))) }
{
    push_form_name(text, name)?;
    text.push('(')?;
    push_parts(text, style, false, parts)?;
    text.push(')')?;
    Ok(())
}

// Adds a form with named fields.
#[cycle(pattern)]
fn push_brace_form(
    text: &mut String,
    style: Style,
    name: &FormName<'_>,
    fields: &[NamedField<'_>],
) -> Result<(), AllocError>
    ensures { OnOk result (string_bytes text.new ≡ string_bytes text.old
        ++ (name_text (name_view name.now) ++ braced (fields_by style (fields_view fields.now)))) }
{
    push_form_name(text, name)?;
    push_braces(text, style, fields)?;
    Ok(())
}

// Adds named fields in their braces.
#[cycle(pattern)]
fn push_braces(text: &mut String, style: Style, fields: &[NamedField<'_>]) -> Result<(), AllocError>
    ensures { OnOk result (string_bytes text.new
        ≡ string_bytes text.old ++ braced (fields_by style (fields_view fields.now))) }
{
    if fields.is_empty() {
        return text.push_str(" {}");
    }
    text.push_str(" { ")?;
    push_fields(text, style, fields)?;
    text.push_str(" }")?;
    Ok(())
}

// Adds a reference to a text, which is the literal of the text alone.
fn push_alone(text: &mut String, inner: &NamedWitness<'_>) -> Result<(), AllocError>
    requires { is_literal false (witness_view inner.now) ≡ true }
    ensures { (style : Style) → OnOk result (string_bytes text.new
        ≡ string_bytes text.old ++ text_by style (OfPoint false (witness_view inner.now))) }
{
    let NamedWitness::Text(shown) = inner else {
        unreachable!();
    };
    push_string(text, shown)
}

// Adds a witness that begins with a reference.
#[cycle(pattern)]
fn push_points(
    text: &mut String,
    style: Style,
    witness: &NamedWitness<'_>,
) -> Result<(), AllocError>
    requires { begins_with_point (witness_view witness.now) ≡ true }
    ensures { OnOk result (string_bytes text.new ≡ string_bytes text.old ++ text_by style (witness_view witness.now)) }
{
    let NamedWitness::Point { mutable, inner } = witness else {
        unreachable!();
    };
    if is_literal(*mutable, inner) {
        push_alone(text, inner)
    } else {
        push_marks(text, witness)?;
        push_pattern(text, style, behind_marks(inner))?;
        Ok(())
    }
}
