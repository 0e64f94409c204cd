// Nodes from JSON.
ghost use Rattle.std.specs.Prelude.{◌≡◌, map, option_map, option_and_then};
ghost use Rattle.serde_json.specs.Find.{at};
ghost use Rattle.serde_json.specs.View.{view, items_view};
ghost use Rattle.explain_report.specs.Reading.{Reads, all_of};
ghost use Rattle.explain_tree.specs.Nodes.{case_view, branch_view, node_view, span_of, longer_of, variant_of, flag_of, text_of, length_of, case_by, case_of, branch_of, switch_of, ask_of, take_of, node_by, node_of};

use crate::items::{end_item, flag_item, items_item, number_item, text_item};
use crate::nodes::{Branch, Case, Node};
use explain_report::ReadFault;
use serde_json::Value;
use std::alloc::Global;

// A range.
fn span_of(value: &Value) -> Option<Case<'_>>
    ensures { option_map case_view result ≡ span_of (view value.now) }
{
    match end_item(value, 1) {
        Some(low) => match end_item(value, 2) {
            Some(high) => Some(Case::Span { low, high }),
            None => None,
        },
        None => None,
    }
}

// Each length from a sum on.
fn longer_of(value: &Value) -> Option<Case<'_>>
    ensures { option_map case_view result ≡ longer_of (view value.now) }
{
    let front = number_item(value, 1)?;
    let back = number_item(value, 2)?;
    Some(Case::Longer { front, back })
}

// A variant.
fn variant_of(value: &Value) -> Option<Case<'_>>
    ensures { option_map case_view result ≡ variant_of (view value.now) }
{
    match text_item(value, 1) {
        Some(name) => Some(Case::Variant(name)),
        None => None,
    }
}

// A flag.
fn flag_of(value: &Value) -> Option<Case<'_>>
    ensures { option_map case_view result ≡ flag_of (view value.now) }
{
    match flag_item(value, 1) {
        Some(flag) => Some(Case::Flag(flag)),
        None => None,
    }
}

// A text.
fn text_of(value: &Value) -> Option<Case<'_>>
    ensures { option_map case_view result ≡ text_of (view value.now) }
{
    match text_item(value, 1) {
        Some(text) => Some(Case::Text(text)),
        None => None,
    }
}

// A length.
fn length_of(value: &Value) -> Option<Case<'_>>
    ensures { option_map case_view result ≡ length_of (view value.now) }
{
    match number_item(value, 1) {
        Some(length) => Some(Case::Length(length)),
        None => None,
    }
}

// A case whose first item is this.
fn case_by<'a>(head: &str, value: &'a Value) -> Option<Case<'a>>
    ensures { option_map case_view result ≡ case_by head.now (view value.now) }
{
    match head {
        "variant" => variant_of(value),
        "flag" => flag_of(value),
        "range" => span_of(value),
        "text" => text_of(value),
        "length" => length_of(value),
        "longer" => longer_of(value),
        "else" => Some(Case::Else),
        _ => None,
    }
}

// A case.
fn case_of(value: &Value) -> Option<Case<'_>>
    ensures { option_map case_view result ≡ case_of (view value.now) }
{
    match text_item(value, 0) {
        Some(head) => case_by(head, value),
        None => None,
    }
}

// The case of a branch.
fn first_case(value: &Value) -> Option<Case<'_>>
    ensures { option_map case_view result ≡ option_and_then case_of (at 0 (view value.now)) }
{
    match value.get(0usize) {
        Some(item) => case_of(item),
        None => None,
    }
}

// A case with its node.
fn branch_of(value: &Value) -> Option<Branch<'_>>
    ensures { option_map branch_view result ≡ branch_of (view value.now) }
{
    match first_case(value) {
        Some(case) => match number_item(value, 1) {
            Some(next) => Some(Branch { case, next }),
            None => None,
        },
        None => None,
    }
}

// The cases of a switch.
fn all_branches<'a>(alloc: Global, items: &'a [Value]) -> Result<Vec<Branch<'a>>, ReadFault>
    ensures { Reads (λ v. map branch_view v.items) (all_of branch_of (items_view items.now)) result }
{
    let mut all = Vec::with_capacity(alloc, items.len())?;
    for item in items {
        match branch_of(item) {
            Some(branch) => all.push(branch)?,
            None => return Err(ReadFault::NoReport),
        }
    }
    Ok(all)
}

// A switch.
fn switch_of<'a>(alloc: Global, value: &'a Value) -> Result<Node<'a>, ReadFault>
    ensures { Reads node_view (switch_of (view value.now)) result }
{
    match text_item(value, 1) {
        Some(place) => match items_item(value, 2) {
            Some(items) => {
                let branches = all_branches(alloc, items)?;
                Ok(Node::Switch { place, branches })
            }
            None => Err(ReadFault::NoReport),
        },
        None => Err(ReadFault::NoReport),
    }
}

// A guard that is asked.
fn ask_of<'a>(value: &'a Value) -> Result<Node<'a>, ReadFault>
    ensures { Reads node_view (ask_of (view value.now)) result }
{
    match number_item(value, 1) {
        Some(arm) => match number_item(value, 3) {
            Some(refused) => Ok(Node::Ask { arm, refused }),
            None => Err(ReadFault::NoReport),
        },
        None => Err(ReadFault::NoReport),
    }
}

// An arm that is taken.
fn take_of<'a>(value: &'a Value) -> Result<Node<'a>, ReadFault>
    ensures { Reads node_view (take_of (view value.now)) result }
{
    match number_item(value, 1) {
        Some(arm) => Ok(Node::Take { arm }),
        None => Err(ReadFault::NoReport),
    }
}

// A node whose first item is this.
fn node_by<'a>(alloc: Global, head: &str, value: &'a Value) -> Result<Node<'a>, ReadFault>
    ensures { Reads node_view (node_by head.now (view value.now)) result }
{
    match head {
        "switch" => switch_of(alloc, value),
        "ask" => ask_of(value),
        "take" => take_of(value),
        "miss" => Ok(Node::Miss),
        "void" => Ok(Node::Void),
        _ => Err(ReadFault::NoReport),
    }
}

// A node.
fn node_of<'a>(alloc: Global, value: &'a Value) -> Result<Node<'a>, ReadFault>
    ensures { Reads node_view (node_of (view value.now)) result }
{
    match text_item(value, 0) {
        Some(head) => node_by(alloc, head, value),
        None => Err(ReadFault::NoReport),
    }
}

// The nodes of a tree.
pub(crate) fn all_nodes<'a>(alloc: Global, items: &'a [Value]) -> Result<Vec<Node<'a>>, ReadFault>
    ensures { Reads (λ v. map node_view v.items) (all_of node_of (items_view items.now)) result }
{
    let mut all = Vec::with_capacity(alloc, items.len())?;
    for item in items {
        let node = node_of(alloc, item)?;
        all.push(node)?;
    }
    Ok(all)
}
