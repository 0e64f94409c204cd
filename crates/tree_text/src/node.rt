// The nodes of trees in a report.
ghost use Rattle.std.specs.Prelude.{◌≡◌, ◌++◌, OnOk, codes, false, map, string_bytes};
ghost use Rattle.serde_json.specs.Data.{string};
ghost use Rattle.serde_json.specs.View.{items_of};
ghost use Rattle.serde_json.specs.Written.{compact_text, items_text};
ghost use Rattle.pat_context.specs.Places.{steps_of};
ghost use Rattle.pat_context.specs.Views.{plain_place};
ghost use Rattle.tree_eval.specs.Nodes.{plain_bind};
ghost use Rattle.witness_text.specs.Trees.{name_view};
ghost use Rattle.tree_text.specs.Reported.{count_data, case_data, branch_data, mode_word, bind_data};
ghost use Rattle.tree_text.specs.Reported.{node_data, tree_data};
ghost use Rattle.tree_text.specs.Trees.{OfVariant, OfLength, OfLonger, OfElse, OfSwitch, OfAsk, OfTake, OfMiss, OfVoid};
ghost use Rattle.tree_text.specs.Trees.{case_view, branch_view, node_view};

use crate::place::push_place;
use crate::{NamedBranch, NamedCase, NamedNode};
use match_model::Mode;
use no_memory::NoMemory;
use pat_context::Place;
use std::alloc::{AllocError, Global};
use tree_eval::Bind;
use witness_text::{
    FormName, form_name, push_comma, push_flag, push_one_text, push_quoted, push_range,
};

/// Adds the nodes of a tree to a report, in brackets and with commas between them; a node's number is its index. The only
/// error is want of memory; the text may then end within the tree.
pub fn push_tree(alloc: Global, text: &mut String, nodes: &[NamedNode<'_>]) -> Result<(), NoMemory>
    ensures { OnOk result (string_bytes text.new
        ≡ string_bytes text.old ++ compact_text (tree_data (map node_view nodes.now))) }
{
    text.push('[')?;
    Ok(push_nodes(alloc, text, nodes)?)
}

// Adds the nodes with commas between them, and the bracket that closes them.
fn push_nodes(alloc: Global, text: &mut String, nodes: &[NamedNode<'_>]) -> Result<(), AllocError>
    ensures { OnOk result (string_bytes text.new
        ≡ string_bytes text.old ++ items_text false (items_of (map node_data (map node_view nodes.now)))) }
{
    let mut later = false;
    for node in nodes {
        push_comma(text, later)?;
        push_node(alloc, text, node)?;
        later = true;
    }
    text.push(']')?;
    Ok(())
}

// Adds a node.
fn push_node(alloc: Global, text: &mut String, node: &NamedNode<'_>) -> Result<(), AllocError>
    ensures { OnOk result (string_bytes text.new
        ≡ string_bytes text.old ++ compact_text (node_data (node_view node.now))) }
{
    match node {
        NamedNode::Switch { place, cases } => push_switch(alloc, text, place, cases),
        NamedNode::Ask { arm, binds, no } => push_ask(alloc, text, *arm, binds, *no),
        NamedNode::Take { arm, binds } => push_take(alloc, text, *arm, binds),
        NamedNode::Miss => push_miss(text),
        NamedNode::Void => push_void(text),
    }
}

// Adds a switch.
fn push_switch(
    alloc: Global,
    text: &mut String,
    place: &Place,
    cases: &[NamedBranch<'_>],
) -> Result<(), AllocError>
    ensures { OnOk result (string_bytes text.new ≡ string_bytes text.old
        ++ compact_text (node_data (OfSwitch (plain_place (steps_of place.now)) (map branch_view cases.now)))) }
{
    text.push_str("[\"switch\",")?;
    push_place(text, place)?;
    text.push_str(",[")?;
    push_branches(alloc, text, cases)?;
    text.push(']')?;
    Ok(())
}

// Adds a guard that is asked.
fn push_ask(
    alloc: Global,
    text: &mut String,
    arm: u32,
    binds: &[Bind],
    no: u64,
) -> Result<(), AllocError>
    ensures { OnOk result (string_bytes text.new
        ≡ string_bytes text.old ++ compact_text (node_data (OfAsk arm (map plain_bind binds.now) no))) }
{
    text.push_str("[\"ask\",")?;
    push_count(text, u64::from(arm))?;
    text.push_str(",[")?;
    push_binds(alloc, text, binds)?;
    text.push(',')?;
    push_count(text, no)?;
    text.push(']')?;
    Ok(())
}

// Adds an arm that is taken.
fn push_take(alloc: Global, text: &mut String, arm: u32, binds: &[Bind]) -> Result<(), AllocError>
    ensures { OnOk result (string_bytes text.new
        ≡ string_bytes text.old ++ compact_text (node_data (OfTake arm (map plain_bind binds.now)))) }
{
    text.push_str("[\"take\",")?;
    push_count(text, u64::from(arm))?;
    text.push_str(",[")?;
    push_binds(alloc, text, binds)?;
    text.push(']')?;
    Ok(())
}

// Adds that no arm is left.
fn push_miss(text: &mut String) -> Result<(), AllocError>
    ensures { OnOk result (string_bytes text.new ≡ string_bytes text.old ++ compact_text (node_data OfMiss)) }
{
    text.push_str("[\"miss\"]")?;
    Ok(())
}

// Adds that there is no value.
fn push_void(text: &mut String) -> Result<(), AllocError>
    ensures { OnOk result (string_bytes text.new ≡ string_bytes text.old ++ compact_text (node_data OfVoid)) }
{
    text.push_str("[\"void\"]")?;
    Ok(())
}

// Adds the cases of a switch with commas between them, and the bracket that closes them.
fn push_branches(
    alloc: Global,
    text: &mut String,
    cases: &[NamedBranch<'_>],
) -> Result<(), AllocError>
    ensures { OnOk result (string_bytes text.new
        ≡ string_bytes text.old ++ items_text false (items_of (map branch_data (map branch_view cases.now)))) }
{
    let mut later = false;
    for branch in cases {
        push_comma(text, later)?;
        push_branch(alloc, text, branch)?;
        later = true;
    }
    text.push(']')?;
    Ok(())
}

// Adds a case with the number where it goes on.
fn push_branch(alloc: Global, text: &mut String, branch: &NamedBranch<'_>) -> Result<(), AllocError>
    ensures { OnOk result (string_bytes text.new
        ≡ string_bytes text.old ++ compact_text (branch_data (branch_view branch.now))) }
{
    text.push('[')?;
    push_case(alloc, text, &branch.case)?;
    text.push(',')?;
    push_count(text, branch.next)?;
    text.push(']')?;
    Ok(())
}

// Adds a case.
fn push_case(alloc: Global, text: &mut String, case: &NamedCase<'_>) -> Result<(), AllocError>
    ensures { OnOk result (string_bytes text.new
        ≡ string_bytes text.old ++ compact_text (case_data (case_view case.now))) }
{
    match case {
        NamedCase::Variant(name) => push_variant(alloc, text, name),
        NamedCase::Flag(flag) => push_flag(text, *flag),
        NamedCase::Span(range) => push_range(text, range),
        NamedCase::Text(shown) => push_one_text(alloc, text, shown),
        NamedCase::Length(len) => push_length(text, *len),
        NamedCase::Longer { front, back } => push_longer(text, *front, *back),
        NamedCase::Else => push_else(text),
    }
}

// Adds a variant.
fn push_variant(alloc: Global, text: &mut String, name: &FormName<'_>) -> Result<(), AllocError>
    ensures { OnOk result (string_bytes text.new
        ≡ string_bytes text.old ++ compact_text (case_data (OfVariant (name_view name.now)))) }
{
    let shown = form_name(alloc, name)?;
    text.push_str("[\"variant\",")?;
    push_quoted(alloc, text, shown.as_str())?;
    text.push(']')?;
    Ok(())
}

// Adds rows of one length.
fn push_length(text: &mut String, len: u64) -> Result<(), AllocError>
    ensures { OnOk result (string_bytes text.new
        ≡ string_bytes text.old ++ compact_text (case_data (OfLength len))) }
{
    write!(text, "[\"length\",{len}]")
}

// Adds rows of each length from a sum on.
fn push_longer(text: &mut String, front: u64, back: u64) -> Result<(), AllocError>
    ensures { OnOk result (string_bytes text.new
        ≡ string_bytes text.old ++ compact_text (case_data (OfLonger front back))) }
{
    write!(text, "[\"longer\",{front},{back}]")
}

// Adds every part that no other case has.
fn push_else(text: &mut String) -> Result<(), AllocError>
    ensures { OnOk result (string_bytes text.new ≡ string_bytes text.old ++ compact_text (case_data OfElse)) }
{
    text.push_str("[\"else\"]")?;
    Ok(())
}

// Adds the names that an arm binds with commas between them, and the bracket that closes them.
fn push_binds(alloc: Global, text: &mut String, binds: &[Bind]) -> Result<(), AllocError>
    ensures { OnOk result (string_bytes text.new
        ≡ string_bytes text.old ++ items_text false (items_of (map bind_data (map plain_bind binds.now)))) }
{
    let mut later = false;
    for bind in binds {
        push_comma(text, later)?;
        push_bind(alloc, text, bind)?;
        later = true;
    }
    text.push(']')?;
    Ok(())
}

// Adds a name, how it is bound, and its place.
fn push_bind(alloc: Global, text: &mut String, bind: &Bind) -> Result<(), AllocError>
    ensures { OnOk result (string_bytes text.new
        ≡ string_bytes text.old ++ compact_text (bind_data (plain_bind bind.now))) }
{
    text.push('[')?;
    push_quoted(alloc, text, bind.name.as_str())?;
    text.push_str(mode_middle(bind.mode))?;
    push_place(text, &bind.place)?;
    text.push(']')?;
    Ok(())
}

// What stands between a name that is bound so and its place.
fn mode_middle(mode: Mode) -> &'static str
    ensures { result.now ≡ codes "," ++ (compact_text (string (mode_word mode)) ++ codes ",") }
{
    match mode {
        Mode::Move => ",\"move\",",
        Mode::Ref => ",\"ref\",",
        Mode::RefMut => ",\"ref mut\",",
    }
}

// Adds a count, a number of an arm or a number of a node.
fn push_count(text: &mut String, count: u64) -> Result<(), AllocError>
    ensures { OnOk result (string_bytes text.new ≡ string_bytes text.old ++ compact_text (count_data count)) }
{
    write!(text, "{count}")
}
