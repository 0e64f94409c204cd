// Nodes in Graphviz's language.
ghost use Rattle.std.specs.Prelude.{◌≡◌, ◌++◌, OnOk, IfOk, map, flat_map};
ghost use Rattle.explain_tree.specs.Nodes.{branch_view, node_view};
ghost use Rattle.explain_tree.specs.Graphs.{node_statement, edge_statement, branch_edge, leaf_statement, ask_statements, switch_statements, take_statement, node_statements, tree_statements, graph_text};

use crate::labels::{arm_text, case_text, guard_text, plain_text, push_decimal};
use crate::nodes::{Branch, Node};
use std::alloc::{AllocError, Global};

// Adds a node of the graph: its mark and number, what it shows, and the end.
fn push_statement(
    alloc: Global,
    out: &mut Vec<u8>,
    mark: &[u8],
    number: u64,
    label: &[u8],
    end: &[u8],
) -> Result<(), AllocError>
    ensures { OnOk result (out.new.items ≡ out.old.items ++ node_statement mark.now number label.now end.now) }
{
    out.extend_from_slice(mark)?;
    push_decimal(alloc, out, number)?;
    out.extend_from_slice(b" [label=\"")?;
    out.extend_from_slice(label)?;
    out.extend_from_slice(end)?;
    Ok(())
}

// Adds an edge of the graph from a node of the tree.
fn push_edge(
    alloc: Global,
    out: &mut Vec<u8>,
    from: u64,
    mark: &[u8],
    to: u64,
    label: &[u8],
) -> Result<(), AllocError>
    ensures { OnOk result (out.new.items ≡ out.old.items ++ edge_statement from mark.now to label.now) }
{
    out.extend_from_slice(b"  n")?;
    push_decimal(alloc, out, from)?;
    out.extend_from_slice(mark)?;
    push_decimal(alloc, out, to)?;
    out.extend_from_slice(b" [label=\"")?;
    out.extend_from_slice(label)?;
    out.extend_from_slice(b"\"];\n")?;
    Ok(())
}

// Adds a node of the graph without edges.
fn push_leaf(alloc: Global, out: &mut Vec<u8>, number: u64, label: &[u8]) -> Result<(), AllocError>
    ensures { OnOk result (out.new.items ≡ out.old.items ++ leaf_statement number label.now) }
{
    push_statement(alloc, out, b"  n", number, label, b"\", shape=ellipse];\n")
}

// Adds the edge of a branch.
fn push_branch(
    alloc: Global,
    out: &mut Vec<u8>,
    number: u64,
    branch: &Branch<'_>,
) -> Result<(), AllocError>
    ensures { OnOk result (out.new.items ≡ out.old.items ++ branch_edge number (branch_view branch.now)) }
{
    let label = case_text(alloc, &branch.case)?;
    push_edge(alloc, out, number, b" -> n", branch.next, label.as_slice())?;
    Ok(())
}

// Adds the edges of branches.
fn push_branches(
    alloc: Global,
    out: &mut Vec<u8>,
    number: u64,
    branches: &[Branch<'_>],
) -> Result<(), AllocError>
    ensures { OnOk result (out.new.items
        ≡ out.old.items ++ flat_map (branch_edge number) (map branch_view branches.now)) }
{
    for branch in branches {
        push_branch(alloc, out, number, branch)?;
    }
    Ok(())
}

// Adds a place that is looked at, with its edges.
fn push_switch(
    alloc: Global,
    out: &mut Vec<u8>,
    number: u64,
    place: &str,
    branches: &[Branch<'_>],
) -> Result<(), AllocError>
    ensures { OnOk result (out.new.items
        ≡ out.old.items ++ switch_statements number place.now (map branch_view branches.now)) }
{
    let label = plain_text(alloc, place)?;
    push_statement(alloc, out, b"  n", number, label.as_slice(), b"\"];\n")?;
    push_branches(alloc, out, number, branches)?;
    Ok(())
}

// Adds a guard that is asked, with both ways.
fn push_ask(
    alloc: Global,
    out: &mut Vec<u8>,
    lines: &[usize],
    number: u64,
    arm: u64,
    refused: u64,
) -> Result<(), AllocError>
    ensures { OnOk result (out.new.items ≡ out.old.items ++ ask_statements lines.now number arm refused) }
{
    let guard = guard_text(alloc, lines, arm)?;
    let taken = arm_text(alloc, lines, arm)?;
    push_statement(
        alloc,
        out,
        b"  n",
        number,
        guard.as_slice(),
        b"\", shape=diamond];\n",
    )?;
    push_edge(alloc, out, number, b" -> t", number, b"holds")?;
    push_statement(
        alloc,
        out,
        b"  t",
        number,
        taken.as_slice(),
        b"\", shape=ellipse];\n",
    )?;
    push_edge(alloc, out, number, b" -> n", refused, b"refuses")?;
    Ok(())
}

// Adds an arm that is taken.
fn push_take(
    alloc: Global,
    out: &mut Vec<u8>,
    lines: &[usize],
    number: u64,
    arm: u64,
) -> Result<(), AllocError>
    ensures { OnOk result (out.new.items ≡ out.old.items ++ take_statement lines.now number arm) }
{
    let label = arm_text(alloc, lines, arm)?;
    push_leaf(alloc, out, number, label.as_slice())?;
    Ok(())
}

// Adds a node of this number, and its edges.
fn push_node(
    alloc: Global,
    out: &mut Vec<u8>,
    lines: &[usize],
    number: u64,
    node: &Node<'_>,
) -> Result<(), AllocError>
    ensures { OnOk result (out.new.items
        ≡ out.old.items ++ node_statements lines.now number (node_view node.now)) }
{
    match node {
        Node::Switch { place, branches } => {
            push_switch(alloc, out, number, place, branches.as_slice())
        }
        Node::Ask { arm, refused } => push_ask(alloc, out, lines, number, *arm, *refused),
        Node::Take { arm } => push_take(alloc, out, lines, number, *arm),
        Node::Miss => push_leaf(alloc, out, number, b"no arm"),
        Node::Void => push_leaf(alloc, out, number, b"no value"),
    }
}

// Adds the nodes of a tree, with their edges.
fn push_nodes(
    alloc: Global,
    out: &mut Vec<u8>,
    lines: &[usize],
    nodes: &[Node<'_>],
) -> Result<(), AllocError>
    ensures { OnOk result (out.new.items ≡ out.old.items ++ tree_statements lines.now 0 (map node_view nodes.now)) }
{
    for i in 0..nodes.len() {
        push_node(alloc, out, lines, i as u64, &nodes[i])?;
    }
    Ok(())
}

/// The graph of the nodes of a tree, below the name of its function; the lines of the arms are these.
pub(crate) fn graph_text(
    alloc: Global,
    name: &str,
    lines: &[usize],
    nodes: &[Node<'_>],
) -> Result<Vec<u8>, AllocError>
    ensures { IfOk result (λ graph. graph.items ≡ graph_text name.now lines.now (map node_view nodes.now)) }
{
    let title = plain_text(alloc, name)?;
    let mut out = Vec::from_slice(alloc, b"digraph tree {\n  labelloc=t;\n  label=\"")?;
    out.extend_from_slice(title.as_slice())?;
    out.extend_from_slice(b"\";\n  node [shape=box];\n")?;
    push_nodes(alloc, &mut out, lines, nodes)?;
    out.extend_from_slice(b"}\n")?;
    Ok(out)
}
