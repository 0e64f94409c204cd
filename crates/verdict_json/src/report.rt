// The report, function by function.
ghost use Rattle.std.specs.Prelude.{◌≡◌, ◌++◌, ◌∷◌, [], List, map, false, IfOk, OnOk, option_map, string_bytes};
ghost use Rattle.serde_json.specs.Data.{string};
ghost use Rattle.serde_json.specs.Written.{compact_text, items_text};
ghost use Rattle.serde_json.specs.View.{items_of};
ghost use Rattle.tree_text.specs.Trees.{node_view};
ghost use Rattle.verdict_json.specs.Report.{ReportEntry, ArmedFunction, JudgedFunction, RefusedFunction, report_text};
ghost use Rattle.verdict_json.specs.Report.{arms_data, function_data, overlap_entry, unreachable_data};
ghost use Rattle.verdict_json.specs.Rules.{IsRule};
ghost use Rattle.verdict_json.specs.Trees.{overlap_view, report_view, unreachable_view};
ghost use Rattle.verdict_json.specs.Writing.{HasEntries, flag_word, shown_tree_text};

use crate::entry::push_entry;
use crate::refusal::{Refusal, push_refused};
use no_memory::NoMemory;
use std::alloc::{AllocError, Global};
use tree_text::{NamedNode, push_tree};
use witness_text::{NamedWitness, push_comma, push_overlap, push_quoted, push_witnesses};
use witnesses::{Overlap, Unreachable};

/// What is reported of a function.
#[derive(Debug, Drop)]
pub struct FnReport<'a> {
    /// The function's name.
    pub name: &'a str,
    /// Whether every value, all guards refusing, meets an arm.
    pub exhaustive: bool,
    /// The pairs of range patterns that have exactly one number in common, ascending by their offsets and the number.
    pub overlaps: Vec<Overlap>,
    /// The arms and alternatives that no value comes to, in reading order.
    pub unreachable: Vec<Unreachable>,
    /// The nodes of its decision tree, where it is shown; the root is the first.
    pub tree: Option<Vec<NamedNode<'a>>>,
    /// What is missing: disjoint, in constructor order.
    pub witnesses: Vec<NamedWitness<'a>>,
}

/// The text of a report to which the entry of one function is added after the other.
#[derive(Debug, Drop)]
pub struct ReportText {
    text: String,
    later: bool,
    alloc: Global,
}

// Adds the entries of the unreachable list, with commas between them, and the bracket that closes them.
fn push_unreachable(text: &mut String, entries: &[Unreachable]) -> Result<(), AllocError>
    ensures { OnOk result (string_bytes text.new
        ≡ string_bytes text.old ++ items_text false (items_of (map unreachable_data (map unreachable_view entries.now)))) }
{
    let mut later = false;
    for entry in entries {
        push_comma(text, later)?;
        push_entry(text, entry)?;
        later = true;
    }
    text.push(']')?;
    Ok(())
}

// Adds the overlaps, with commas between them, and the bracket that closes them.
fn push_overlaps(text: &mut String, overlaps: &[Overlap]) -> Result<(), NoMemory>
    ensures { OnOk result (string_bytes text.new
        ≡ string_bytes text.old ++ items_text false (items_of (map overlap_entry (map overlap_view overlaps.now)))) }
{
    let mut later = false;
    for overlap in overlaps {
        push_comma(text, later)?;
        push_overlap(text, overlap.first, overlap.second, &overlap.value)?;
        later = true;
    }
    text.push(']')?;
    Ok(())
}

// Adds the key of the decision tree, where it is shown.
fn push_shown_tree(
    alloc: Global,
    text: &mut String,
    tree: &Option<Vec<NamedNode<'_>>>,
) -> Result<(), NoMemory>
    ensures { OnOk result (string_bytes text.new ≡ string_bytes text.old
        ++ shown_tree_text (option_map (λ nodes. map node_view nodes.items) tree.now)) }
{
    match tree {
        None => Ok(()),
        Some(nodes) => {
            text.push_str(",\"tree\":")?;
            push_tree(alloc, text, nodes)?;
            Ok(())
        }
    }
}

fn flag_word(flag: bool) -> &'static str
    ensures { result.now ≡ flag_word flag }
{
    if flag { "true" } else { "false" }
}

// Adds what is reported of a function.
fn push_function(alloc: Global, text: &mut String, report: &FnReport<'_>) -> Result<(), NoMemory>
    ensures { OnOk result (string_bytes text.new ≡ string_bytes text.old ++ compact_text (function_data (report_view report.now))) }
{
    text.push_str("{\"exhaustive\":")?;
    text.push_str(flag_word(report.exhaustive))?;
    text.push_str(",\"name\":")?;
    push_quoted(alloc, text, report.name)?;
    text.push_str(",\"overlaps\":[")?;
    push_overlaps(text, &report.overlaps)?;
    push_shown_tree(alloc, text, &report.tree)?;
    text.push_str(",\"unreachable\":[")?;
    push_unreachable(text, &report.unreachable)?;
    text.push_str(",\"witnesses\":")?;
    push_witnesses(alloc, text, &report.witnesses)?;
    text.push('}')?;
    Ok(())
}

// Adds the texts as JSON strings, with commas between them, and the bracket that closes them.
fn push_texts(alloc: Global, text: &mut String, shown: &[String]) -> Result<(), AllocError>
    ensures { OnOk result (string_bytes text.new
        ≡ string_bytes text.old ++ items_text false (items_of (map string (map string_bytes shown.now)))) }
{
    let mut later = false;
    for one in shown {
        push_comma(text, later)?;
        push_quoted(alloc, text, one.as_str())?;
        later = true;
    }
    text.push(']')?;
    Ok(())
}

// Adds the arms to add to a function of this name.
fn push_arms(
    alloc: Global,
    text: &mut String,
    name: &str,
    arms: &[String],
) -> Result<(), AllocError>
    ensures { OnOk result (string_bytes text.new
        ≡ string_bytes text.old ++ compact_text (arms_data name.now (map string_bytes arms.now))) }
{
    text.push_str("{\"arms\":[")?;
    push_texts(alloc, text, arms)?;
    text.push_str(",\"name\":")?;
    push_quoted(alloc, text, name)?;
    text.push('}')?;
    Ok(())
}

impl ReportText {
    /// The report on no function.
    pub fn begin(alloc: Global) -> Result<ReportText, NoMemory>
        ensures { IfOk result (HasEntries []) }
    {
        let text = String::from_str(alloc, "{\"functions\":[")?;
        Ok(ReportText {
            text,
            later: false,
            alloc,
        })
    }

    /// The report with what is reported of one more function at its end.
    pub fn add(self, report: &FnReport<'_>) -> Result<ReportText, NoMemory>
        ensures { (entries : List ReportEntry) → HasEntries entries self
            → IfOk result (HasEntries (entries ++ JudgedFunction (report_view report.now) ∷ [])) }
    {
        let ReportText {
            mut text,
            later,
            alloc,
        } = self;
        push_comma(&mut text, later)?;
        push_function(alloc, &mut text, report)?;
        Ok(ReportText {
            text,
            later: true,
            alloc,
        })
    }

    /// The report with the refusal of the function of this name at its end.
    ///
    /// The rule is one that has a name.
    pub fn add_refused(self, name: &str, refusal: &Refusal) -> Result<ReportText, NoMemory>
        requires { IsRule refusal.now.rule }
        ensures { (entries : List ReportEntry) → HasEntries entries self
            → IfOk result (HasEntries (entries ++ RefusedFunction name.now refusal.now ∷ [])) }
    {
        let ReportText {
            mut text,
            later,
            alloc,
        } = self;
        push_comma(&mut text, later)?;
        push_refused(alloc, &mut text, name, refusal)?;
        Ok(ReportText {
            text,
            later: true,
            alloc,
        })
    }

    /// The report with the arms to add to the function of this name at its end.
    pub fn add_arms(self, name: &str, arms: &[String]) -> Result<ReportText, NoMemory>
        ensures { (entries : List ReportEntry) → HasEntries entries self
            → IfOk result (HasEntries (entries ++ ArmedFunction name.now (map string_bytes arms.now) ∷ [])) }
    {
        let ReportText {
            mut text,
            later,
            alloc,
        } = self;
        push_comma(&mut text, later)?;
        push_arms(alloc, &mut text, name, arms)?;
        Ok(ReportText {
            text,
            later: true,
            alloc,
        })
    }

    /// The whole output: the report, and a line feed.
    pub fn finish(self) -> Result<Vec<u8>, NoMemory>
        ensures { (entries : List ReportEntry) → HasEntries entries self
            → IfOk result (λ bytes. bytes.items ≡ report_text entries) }
    {
        let ReportText { mut text, .. } = self;
        text.push_str("]}\n")?;
        Ok(text.into_bytes())
    }
}
