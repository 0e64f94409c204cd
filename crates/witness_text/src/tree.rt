// Witnesses as trees in JSON.
ghost use Rattle.std.specs.Prelude.{◌≡◌, ◌++◌, ◌≤◌, [], false, true, OnOk, codes, chars, decimal, map, string_bytes};
ghost use Rattle.serde_json.specs.Data.{boolean, string, no_items};
ghost use Rattle.serde_json.specs.View.{items_of};
ghost use Rattle.serde_json.specs.Written.{compact_text, items_text};
ghost use Rattle.range_split.specs.Ends.{plain_end};
ghost use Rattle.range_split.specs.Ranges.{plain_range};
ghost use Rattle.range_split.specs.Numbers.{num_value};
ghost use Rattle.witness_text.specs.Trees.{name_view, texts_view, witness_view, witnesses_view, fields_view};
ghost use Rattle.witness_text.specs.Texts.{name_text};
ghost use Rattle.witness_text.specs.Reported.{headed, number_data, end_data, char_data, range_data};
ghost use Rattle.witness_text.specs.Reported.{flag_data, text_data, one_text_data, others_data, node_data};
ghost use Rattle.witness_text.specs.Reported.{point_mark};
ghost use Rattle.witness_text.specs.Reported.{tree_data, parts_data, fields_data};
ghost use Rattle.witness_text.specs.Points.{begins_with_point, behind_points, starts_text, ends_text};
ghost use Rattle.witness_text.specs.declared.named.NamedWitness.{size-NamedWitness};

use crate::names::form_name;
use crate::pattern::flag_word;
use crate::quoting::{push_comma, push_quoted};
use crate::ranges::{push_number, push_size};
use crate::{FormName, NamedField, NamedWitness};
use range_split::{End, Num, Range};
use std::alloc::{AllocError, Global};

// Adds a number of the source.
pub fn push_number_text(text: &mut String, number: &Num) -> Result<(), AllocError>
    ensures { OnOk result (string_bytes text.new
        ≡ string_bytes text.old ++ compact_text (number_data (num_value number.now))) }
{
    text.push('"')?;
    push_number(text, number)?;
    text.push('"')?;
    Ok(())
}

// Adds an end of a range of numbers.
fn push_end(text: &mut String, end: &End) -> Result<(), AllocError>
    ensures { OnOk result (string_bytes text.new
        ≡ string_bytes text.old ++ compact_text (end_data (plain_end end.now))) }
{
    match end {
        End::Free => text.push_str("null"),
        End::At(number) => push_number_text(text, number),
    }
}

// Adds the scalar value of a character.
fn push_scalar(text: &mut String, c: char) -> Result<(), AllocError>
    ensures { OnOk result (string_bytes text.new ≡ string_bytes text.old ++ compact_text (string (decimal c))) }
{
    text.push('"')?;
    push_size(text, u128::from(u32::from(c)))?;
    text.push('"')?;
    Ok(())
}

// Adds an end of a range of characters.
fn push_char_end(text: &mut String, end: Option<char>) -> Result<(), AllocError>
    ensures { OnOk result (string_bytes text.new ≡ string_bytes text.old ++ compact_text (char_data end)) }
{
    match end {
        None => text.push_str("null"),
        Some(c) => push_scalar(text, c),
    }
}

/// Adds a range of numbers as JSON, its ends as strings of decimal digits; a free end is `null`. The only error is want of
/// memory; the text may then end within the range.
pub fn push_range(text: &mut String, range: &Range) -> Result<(), AllocError>
    ensures { OnOk result (string_bytes text.new ≡ string_bytes text.old
        ++ compact_text (range_data (end_data (plain_range range.now).low) (end_data (plain_range range.now).high))) }
{
    text.push_str("[\"range\",")?;
    push_end(text, &range.low())?;
    text.push(',')?;
    push_end(text, &range.high())?;
    text.push(']')?;
    Ok(())
}

// Adds a range of characters.
fn push_char_range(
    text: &mut String,
    low: Option<char>,
    high: Option<char>,
) -> Result<(), AllocError>
    ensures { OnOk result (string_bytes text.new ≡ string_bytes text.old
        ++ compact_text (range_data (char_data low) (char_data high))) }
{
    text.push_str("[\"range\",")?;
    push_char_end(text, low)?;
    text.push(',')?;
    push_char_end(text, high)?;
    text.push(']')?;
    Ok(())
}

// Adds that any value fits.
fn push_any(text: &mut String) -> Result<(), AllocError>
    ensures { OnOk result (string_bytes text.new
        ≡ string_bytes text.old ++ compact_text (headed (codes "any") no_items)) }
{
    text.push_str("[\"any\"]")?;
    Ok(())
}

// Adds a variant that is not declared yet.
fn push_later(text: &mut String) -> Result<(), AllocError>
    ensures { OnOk result (string_bytes text.new
        ≡ string_bytes text.old ++ compact_text (headed (codes "later") no_items)) }
{
    text.push_str("[\"later\"]")?;
    Ok(())
}

/// Adds a flag as JSON. The only error is want of memory; the text may then end within the flag.
pub fn push_flag(text: &mut String, flag: bool) -> Result<(), AllocError>
    ensures { OnOk result (string_bytes text.new ≡ string_bytes text.old
        ++ compact_text (flag_data flag)) }
{
    text.push_str("[\"flag\",")?;
    text.push_str(flag_word(flag))?;
    text.push(']')?;
    Ok(())
}

// Adds a text as a JSON string.
fn push_text(alloc: Global, text: &mut String, shown: &str) -> Result<(), AllocError>
    ensures { OnOk result (string_bytes text.new
        ≡ string_bytes text.old ++ compact_text (text_data (chars shown.now))) }
{
    push_quoted(alloc, text, shown)
}

/// Adds the one text as JSON. The only error is want of memory; the text may then end within it.
pub fn push_one_text(alloc: Global, text: &mut String, shown: &str) -> Result<(), AllocError>
    ensures { OnOk result (string_bytes text.new ≡ string_bytes text.old
        ++ compact_text (one_text_data (chars shown.now))) }
{
    text.push_str("[\"text\",")?;
    push_text(alloc, text, shown)?;
    text.push(']')?;
    Ok(())
}

// Adds texts with commas between them, and the bracket that closes them.
fn push_texts(alloc: Global, text: &mut String, texts: &[&str]) -> Result<(), AllocError>
    ensures { OnOk result (string_bytes text.new ≡ string_bytes text.old
        ++ items_text false (items_of (map text_data (texts_view texts.now)))) }
{
    let mut later = false;
    for shown in texts {
        push_comma(text, later)?;
        push_text(alloc, text, shown)?;
        later = true;
    }
    text.push(']')?;
    Ok(())
}

// Adds every text but these.
fn push_others(alloc: Global, text: &mut String, texts: &[&str]) -> Result<(), AllocError>
    ensures { OnOk result (string_bytes text.new ≡ string_bytes text.old
        ++ compact_text (others_data (texts_view texts.now))) }
{
    text.push_str("[\"else\",[")?;
    push_texts(alloc, text, texts)?;
    text.push(']')?;
    Ok(())
}

// Adds a node up to its parts.
fn push_node_start(alloc: Global, text: &mut String, name: &FormName<'_>) -> Result<(), AllocError>
    ensures { OnOk result (string_bytes text.new ≡ string_bytes text.old
        ++ (codes "[\"node\"," ++ (compact_text (string (name_text (name_view name.now))) ++ codes ",["))) }
{
    let shown = form_name(alloc, name)?;
    text.push_str("[\"node\",")?;
    push_quoted(alloc, text, shown.as_str())?;
    text.push_str(",[")?;
    Ok(())
}

// Adds a node without parts.
fn push_unit(alloc: Global, text: &mut String, name: &FormName<'_>) -> Result<(), AllocError>
    ensures { OnOk result (string_bytes text.new ≡ string_bytes text.old
        ++ compact_text (node_data (name_text (name_view name.now)) no_items)) }
{
    push_node_start(alloc, text, name)?;
    text.push_str("]]")?;
    Ok(())
}

// What stands before the tree of what a reference refers to.
fn point_start(mutable: bool) -> &'static str
    ensures { result.now ≡ codes "[\"point\"," ++ (compact_text (string (point_mark mutable)) ++ codes ",") }
{
    if mutable {
        "[\"point\",\"&mut\","
    } else {
        "[\"point\",\"&\","
    }
}

// What stands between the items in front and those at the back.
fn row_middle(longer: bool) -> &'static str
    ensures { result.now ≡ codes "," ++ (compact_text (boolean longer) ++ codes ",[") }
{
    if longer { ",true,[" } else { ",false,[" }
}

// What stands behind the references that the witness begins with.
fn behind_points<'w, 'a>(witness: &'w NamedWitness<'a>) -> &'w NamedWitness<'a>
    ensures behind { witness_view result.now ≡ behind_points (witness_view witness.now) }
    ensures size { size-NamedWitness result.now ≤ size-NamedWitness witness.now }
{
    let mut here = witness;
    while let NamedWitness::Point { inner, .. } = here {
        here = inner;
    }
    here
}

// Adds what stands before the tree of the witness behind the references that this one begins with.
fn push_starts(text: &mut String, witness: &NamedWitness<'_>) -> Result<(), AllocError>
    ensures { OnOk result (string_bytes text.new
        ≡ string_bytes text.old ++ starts_text (witness_view witness.now)) }
{
    let mut here = witness;
    while let NamedWitness::Point { mutable, inner } = here {
        text.push_str(point_start(*mutable))?;
        here = inner;
    }
    Ok(())
}

// Adds a bracket for each reference that the witness begins with.
fn push_ends(text: &mut String, witness: &NamedWitness<'_>) -> Result<(), AllocError>
    ensures { OnOk result (string_bytes text.new
        ≡ string_bytes text.old ++ ends_text (witness_view witness.now)) }
{
    let mut here = witness;
    while let NamedWitness::Point { inner, .. } = here {
        text.push(']')?;
        here = inner;
    }
    Ok(())
}

// Adds the witness as a tree. It goes down level by level, and through references that follow one another in loops.
#[cycle(tree)]
pub fn push_tree(
    alloc: Global,
    text: &mut String,
    witness: &NamedWitness<'_>,
) -> Result<(), AllocError>
    ensures { OnOk result (string_bytes text.new
        ≡ string_bytes text.old ++ compact_text (tree_data (witness_view witness.now))) }
{
    match witness {
        NamedWitness::Any => push_any(text),
        NamedWitness::Flag(flag) => push_flag(text, *flag),
        NamedWitness::Ints { range, .. } => push_range(text, range),
        NamedWitness::Chars { low, high } => push_char_range(text, *low, *high),
        NamedWitness::Text(shown) => push_one_text(alloc, text, shown),
        NamedWitness::Else(texts) => push_others(alloc, text, texts),
        NamedWitness::Tuple(parts) => push_tuple_node(alloc, text, parts),
        NamedWitness::UnitForm(name) => push_unit(alloc, text, name),
        NamedWitness::TupleForm { name, parts } => push_tuple_form_node(alloc, text, name, parts),
        NamedWitness::BraceForm { name, fields } => push_brace_node(alloc, text, name, fields),
        NamedWitness::Point { .. } => push_points(alloc, text, witness),
        NamedWitness::Row {
            front,
            longer,
            back,
        } => {
            text.push_str("[\"row\",[")?;
            push_parts(alloc, text, front)?;
            text.push_str(row_middle(*longer))?;
            push_parts(alloc, text, back)?;
            text.push(']')?;
            Ok(())
        }
        NamedWitness::Later => push_later(text),
    }
}

// Adds the witnesses with commas between them, and the bracket that closes them.
#[cycle(tree)]
fn push_parts(
    alloc: Global,
    text: &mut String,
    parts: &[NamedWitness<'_>],
) -> Result<(), AllocError>
    ensures { OnOk result (string_bytes text.new
        ≡ string_bytes text.old ++ items_text false (parts_data (witnesses_view parts.now))) }
{
    let mut later = false;
    for part in parts {
        push_comma(text, later)?;
        push_tree(alloc, text, part)?;
        later = true;
    }
    text.push(']')?;
    Ok(())
}

// Adds what stands for the fields, with commas between, and the bracket that closes them.
#[cycle(tree)]
fn push_fields(
    alloc: Global,
    text: &mut String,
    fields: &[NamedField<'_>],
) -> Result<(), AllocError>
    ensures { OnOk result (string_bytes text.new
        ≡ string_bytes text.old ++ items_text false (fields_data (fields_view fields.now))) }
{
    let mut later = false;
    for field in fields {
        push_comma(text, later)?;
        push_tree(alloc, text, &field.witness)?;
        later = true;
    }
    text.push(']')?;
    Ok(())
}

// Adds a tuple.
#[cycle(tree)]
fn push_tuple_node(
    alloc: Global,
    text: &mut String,
    parts: &[NamedWitness<'_>],
) -> Result<(), AllocError>
    ensures { OnOk result (string_bytes text.new
        ≡ string_bytes text.old ++ compact_text (node_data [] (parts_data (witnesses_view parts.now)))) }
{
    text.push_str("[\"node\",\"\",[")?;
    push_parts(alloc, text, parts)?;
    text.push(']')?;
    Ok(())
}

// Adds a form with a list of parts.
#[cycle(tree)]
fn push_tuple_form_node(
    alloc: Global,
    text: &mut String,
    name: &FormName<'_>,
    parts: &[NamedWitness<'_>],
) -> Result<(), AllocError>
    ensures { OnOk result (string_bytes text.new ≡ string_bytes text.old
        ++ compact_text (node_data (name_text (name_view name.now)) (parts_data (witnesses_view parts.now)))) }
{
    push_node_start(alloc, text, name)?;
    push_parts(alloc, text, parts)?;
    text.push(']')?;
    Ok(())
}

// Adds a form with named fields.
#[cycle(tree)]
fn push_brace_node(
    alloc: Global,
    text: &mut String,
    name: &FormName<'_>,
    fields: &[NamedField<'_>],
) -> Result<(), AllocError>
    ensures { OnOk result (string_bytes text.new ≡ string_bytes text.old
        ++ compact_text (node_data (name_text (name_view name.now)) (fields_data (fields_view fields.now)))) }
{
    push_node_start(alloc, text, name)?;
    push_fields(alloc, text, fields)?;
    text.push(']')?;
    Ok(())
}

// Adds a witness that begins with a reference.
#[cycle(tree)]
fn push_points(
    alloc: Global,
    text: &mut String,
    witness: &NamedWitness<'_>,
) -> Result<(), AllocError>
    requires { begins_with_point (witness_view witness.now) ≡ true }
    ensures { OnOk result (string_bytes text.new
        ≡ string_bytes text.old ++ compact_text (tree_data (witness_view witness.now))) }
{
    let NamedWitness::Point { inner, .. } = witness else {
        unreachable!();
    };
    push_starts(text, witness)?;
    push_tree(alloc, text, behind_points(inner))?;
    push_ends(text, witness)?;
    Ok(())
}
