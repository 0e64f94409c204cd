// The picture of a function's tree.
ghost use Rattle.std.specs.Prelude.{◌≡◌, ◌+◌, ◌≤◌, option_map, option_and_then, length, map, codes};
ghost use Rattle.std.specs.List.{list_all};
ghost use Rattle.serde_json.specs.View.{view, items_view};
ghost use Rattle.explain_report.specs.Fields.{text_at, items_at};
ghost use Rattle.explain_report.specs.Records.{report_view};
ghost use Rattle.explain_report.specs.Reading.{all_of, report_of};
ghost use Rattle.explain_report.specs.Skimming.{read_skimmed};
ghost use Rattle.explain_tree.specs.Nodes.{node_view, node_of};
ghost use Rattle.explain_tree.specs.Pictures.{Answers, AnswersBy, entry_view, is_this, entry_from, outcome_of, outcome_of_nodes, outcome_of_tree, outcome_of_entry, outcome_of_entries, outcome_of_report};

use crate::graph::graph_text;
use crate::lines::arm_lines;
use crate::nodes::{Node, is_closed};
use crate::reading::all_nodes;
use explain_places::{Piece, source_pieces};
use explain_report::{ReadFault, Report, items_at, report_of, text_at, value_of};
use no_memory::NoMemory;
use serde_json::Value;
use std::alloc::{AllocError, Global};

/// Why there is no picture.
#[derive(Clone, Copy, Debug, PartialEq, Eq)]
pub enum Fault {
    /// The JSON is no report, or what it says of the function is no tree.
    NoReport,
    /// The report has no tree of a function of this name: it has no such function, the function or the file is refused,
    /// or the report is without trees.
    NoTree,
    /// Memory was wanted and refused.
    NoMemory,
}

impl From<AllocError> for Fault {
    ghost use Rattle.explain_tree.specs.declared.pictures.Fault.TheVariants.{NoMemory};

    ghost from_gives = { λ _ e. e ≡ NoMemory };

    fn from(_: AllocError) -> Fault {
        Fault::NoMemory
    }
}

impl From<NoMemory> for Fault {
    ghost use Rattle.explain_tree.specs.declared.pictures.Fault.TheVariants.{NoMemory};

    ghost from_gives = { λ _ e. e ≡ NoMemory };

    fn from(_: NoMemory) -> Fault {
        Fault::NoMemory
    }
}

/// The entry of a function, with its number in the report.
#[derive(Clone, Copy)]
pub(crate) struct Entry<'a> {
    pub number: usize,
    pub value: &'a Value,
}

// Whether an entry has this name.
fn is_named(value: &Value, name: &str) -> bool
    ensures { result ≡ is_this name.now (text_at (codes "name") (view value.now)) }
{
    match text_at(value, "name") {
        Some(text) => text == name,
        None => false,
    }
}

// The first entry of this name.
fn entry_of<'a>(entries: &'a [Value], name: &str) -> Option<Entry<'a>>
    ensures { option_map entry_view result ≡ entry_from name.now 0 (items_view entries.now) }
{
    for number in 0..entries.len() {
        let value = &entries[number];
        if is_named(value, name) {
            return Some(Entry { number, value });
        }
    }
    None
}

// The picture of these nodes.
fn nodes_drawn(
    alloc: Global,
    file: &[u8],
    pieces: &[Piece],
    name: &str,
    number: usize,
    nodes: &[Node<'_>],
) -> Result<Vec<u8>, Fault>
    ensures { Answers (outcome_of_nodes file.now pieces.now name.now number (Some (map node_view nodes.now))) result }
{
    if !is_closed(nodes) {
        return Err(Fault::NoReport);
    }
    let lines = arm_lines(alloc, file, pieces, number)?;
    let graph = graph_text(alloc, name, lines.as_slice(), nodes)?;
    Ok(graph)
}

// The picture of these items.
fn items_drawn(
    alloc: Global,
    file: &[u8],
    pieces: &[Piece],
    name: &str,
    number: usize,
    items: &[Value],
) -> Result<Vec<u8>, Fault>
    ensures { Answers (outcome_of_tree file.now pieces.now name.now number (Some (items_view items.now))) result }
{
    match all_nodes(alloc, items) {
        Ok(nodes) => nodes_drawn(alloc, file, pieces, name, number, nodes.as_slice()),
        Err(ReadFault::NoReport) => Err(Fault::NoReport),
        Err(ReadFault::NoMemory) => Err(Fault::NoMemory),
    }
}

// The picture of the tree of an entry.
fn entry_drawn(
    alloc: Global,
    file: &[u8],
    pieces: &[Piece],
    name: &str,
    entry: Entry<'_>,
) -> Result<Vec<u8>, Fault>
    ensures { Answers (outcome_of_entry file.now pieces.now name.now (Some (entry_view entry.entry))) result }
{
    match items_at(entry.value, "tree") {
        Some(items) => items_drawn(alloc, file, pieces, name, entry.number, items),
        None => Err(Fault::NoTree),
    }
}

// The picture by the entries of a report.
fn entries_drawn(
    alloc: Global,
    file: &[u8],
    pieces: &[Piece],
    name: &str,
    entries: &[Value],
) -> Result<Vec<u8>, Fault>
    ensures { Answers (outcome_of_entries file.now pieces.now name.now (Some (items_view entries.now))) result }
{
    match entry_of(entries, name) {
        Some(entry) => entry_drawn(alloc, file, pieces, name, entry),
        None => Err(Fault::NoTree),
    }
}

// The picture by a value that is a report on functions.
fn functions_drawn(
    alloc: Global,
    file: &[u8],
    pieces: &[Piece],
    name: &str,
    value: &Value,
) -> Result<Vec<u8>, Fault>
    ensures { Answers (outcome_of_entries file.now pieces.now name.now (items_at (codes "functions") (view value.now))) result }
{
    match items_at(value, "functions") {
        Some(entries) => entries_drawn(alloc, file, pieces, name, entries),
        None => Err(Fault::NoTree),
    }
}

// The picture by a JSON value.
fn value_drawn(
    alloc: Global,
    file: &[u8],
    pieces: &[Piece],
    name: &str,
    value: &Value,
) -> Result<Vec<u8>, Fault>
    ensures { Answers (outcome_of_report file.now pieces.now name.now (view value.now) (report_of (view value.now))) result }
{
    match report_of(alloc, value) {
        Ok(Report::Functions(_)) => functions_drawn(alloc, file, pieces, name, value),
        Ok(Report::Refused(_)) => Err(Fault::NoTree),
        Err(ReadFault::NoReport) => Err(Fault::NoReport),
        Err(ReadFault::NoMemory) => Err(Fault::NoMemory),
    }
}

// The picture by a report in JSON, beside a file with these tokens.
#[tactic(auto, unfolding(crate::specs::Pictures::outcome_of))]
fn json_drawn(
    alloc: Global,
    file: &[u8],
    pieces: &[Piece],
    name: &str,
    json: &str,
) -> Result<Vec<u8>, Fault>
    ensures { Answers (outcome_of file.now name.now (read_skimmed json.now) pieces.now) result }
{
    match value_of(alloc, json) {
        Ok(value) => value_drawn(alloc, file, pieces, name, &value),
        Err(ReadFault::NoReport) => Err(Fault::NoReport),
        Err(ReadFault::NoMemory) => Err(Fault::NoMemory),
    }
}

/// The decision tree of the first function of this name in a report, as a graph in Graphviz's language: by the JSON of a
/// report with trees, and the file that it is of. The names of functions stand in a report without `r#`.
///
/// Any JSON and any file may be given; what stands deeper in the JSON than a tree goes is passed over
/// (`explain_report::value_of`).
pub fn picture(alloc: Global, file: &[u8], json: &str, name: &str) -> Result<Vec<u8>, Fault>
    ensures { AnswersBy file.now (outcome_of file.now name.now (read_skimmed json.now)) result }
{
    let pieces = source_pieces(alloc, file)?;
    json_drawn(alloc, file, pieces.as_slice(), name, json)
}
