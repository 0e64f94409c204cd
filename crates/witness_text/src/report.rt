// Witnesses and overlaps in a report.
ghost use Rattle.std.specs.Prelude.{◌≡◌, ◌++◌, OnOk, false, map, decimal, string_bytes};
ghost use Rattle.serde_json.specs.Data.{string};
ghost use Rattle.serde_json.specs.View.{items_of};
ghost use Rattle.serde_json.specs.Written.{compact_text, items_text};
ghost use Rattle.range_split.specs.Numbers.{num_value};
ghost use Rattle.witness_text.specs.Trees.{witness_view};
ghost use Rattle.witness_text.specs.Texts.{pattern_text};
ghost use Rattle.witness_text.specs.Reported.{witness_data, witnesses_data, overlap_data};

use crate::NamedWitness;
use crate::named::Style;
use crate::pattern::push_pattern;
use crate::quoting::{push_comma, push_quoted};
use crate::tree::{push_number_text, push_tree};
use no_memory::NoMemory;
use range_split::Num;
use std::alloc::{AllocError, Global};

// Adds a witness as Rust writes it, as a JSON string.
fn push_pattern_text(
    alloc: Global,
    text: &mut String,
    witness: &NamedWitness<'_>,
) -> Result<(), AllocError>
    ensures { OnOk result (string_bytes text.new
        ≡ string_bytes text.old ++ compact_text (string (pattern_text (witness_view witness.now)))) }
{
    let mut shown = String::new(alloc);
    push_pattern(&mut shown, Style::Shown, witness)?;
    push_quoted(alloc, text, shown.as_str())?;
    Ok(())
}

// Adds a witness.
fn push_entry(
    alloc: Global,
    text: &mut String,
    witness: &NamedWitness<'_>,
) -> Result<(), AllocError>
    ensures { OnOk result (string_bytes text.new
        ≡ string_bytes text.old ++ compact_text (witness_data (witness_view witness.now))) }
{
    text.push_str("{\"text\":")?;
    push_pattern_text(alloc, text, witness)?;
    text.push_str(",\"tree\":")?;
    push_tree(alloc, text, witness)?;
    text.push('}')?;
    Ok(())
}

// Adds the witnesses with commas between them, and the bracket that closes them.
fn push_entries(
    alloc: Global,
    text: &mut String,
    witnesses: &[NamedWitness<'_>],
) -> Result<(), AllocError>
    ensures { OnOk result (string_bytes text.new ≡ string_bytes text.old
        ++ items_text false (items_of (map witness_data (map witness_view witnesses.now)))) }
{
    let mut later = false;
    for witness in witnesses {
        push_comma(text, later)?;
        push_entry(alloc, text, witness)?;
        later = true;
    }
    text.push(']')?;
    Ok(())
}

/// Adds a witness to a report: as Rust writes it, and as a tree. The only error is want of memory; the text may then end
/// within the witness.
pub fn push_witness(
    alloc: Global,
    text: &mut String,
    witness: &NamedWitness<'_>,
) -> Result<(), NoMemory>
    ensures { OnOk result (string_bytes text.new
        ≡ string_bytes text.old ++ compact_text (witness_data (witness_view witness.now))) }
{
    Ok(push_entry(alloc, text, witness)?)
}

/// Adds the witnesses of a match to a report, in brackets and with commas between them. The only error is want of
/// memory; the text may then end within them.
pub fn push_witnesses(
    alloc: Global,
    text: &mut String,
    witnesses: &[NamedWitness<'_>],
) -> Result<(), NoMemory>
    ensures { OnOk result (string_bytes text.new
        ≡ string_bytes text.old ++ compact_text (witnesses_data (map witness_view witnesses.now))) }
{
    text.push('[')?;
    Ok(push_entries(alloc, text, witnesses)?)
}

// Adds an offset.
fn push_offset(text: &mut String, offset: u64) -> Result<(), AllocError>
    ensures { OnOk result (string_bytes text.new ≡ string_bytes text.old ++ decimal offset) }
{
    write!(text, "{offset}")
}

/// Adds to a report that two range patterns have exactly one number in common, by the places in the file at which the
/// earlier and the later one begin. The only error is want of memory; the text may then end within this.
pub fn push_overlap(
    text: &mut String,
    earlier: u64,
    later: u64,
    common: &Num,
) -> Result<(), NoMemory>
    ensures { OnOk result (string_bytes text.new
        ≡ string_bytes text.old ++ compact_text (overlap_data earlier later (num_value common.now))) }
{
    text.push_str("{\"at\":")?;
    push_offset(text, earlier)?;
    text.push_str(",\"value\":")?;
    push_number_text(text, common)?;
    text.push_str(",\"with\":")?;
    push_offset(text, later)?;
    text.push('}')?;
    Ok(())
}
