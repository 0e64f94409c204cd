// Decision trees with the names of their variants.
ghost use Rattle.std.specs.Prelude.{◌≡◌, false, map, option_map, IfOk, IfSome};
ghost use Rattle.match_model.specs.OfType.{type_at_place};
ghost use Rattle.match_model.specs.RustTypes.{rust_context};
ghost use Rattle.pat_context.specs.Places.{steps_of};
ghost use Rattle.pat_context.specs.Views.{plain_place};
ghost use Rattle.tree_eval.specs.Nodes.{plain_case, plain_branch, plain_node, tree_nodes};
ghost use Rattle.tree_text.specs.Trees.{case_view, branch_view, node_view};
ghost use Rattle.type_table.specs.Tables.{IsOf, table_program, table_type};
ghost use Rattle.witness_names.specs.Named.{IsOfFile};
ghost use Rattle.witness_names.specs.NamedTrees.{has_variant, variant_case, named_case, named_branch, named_node};

use crate::forms::name_of;
use crate::places::type_at;
use no_memory::NoMemory;
use pat_context::Place;
use std::alloc::Global;
use tree_eval::{Case, Node, Tree};
use tree_text::{NamedBranch, NamedCase, NamedNode};
use type_table::{TyId, TypeTable};

/// The nodes of a tree over this type of the table, in their order, with the names of their variants: each variant is
/// one of the type at the place of its switch. Their texts are those of the tree and of the table. The only error is want
/// of memory.
pub fn name_tree<'t>(
    alloc: Global,
    table: &'t TypeTable,
    ty: TyId,
    tree: &'t Tree,
) -> Result<Vec<NamedNode<'t>>, NoMemory>
    requires of { IsOf table.now ty }
    requires file { IsOfFile table.now }
    ensures { IfOk result (λ v. map node_view v.items
        ≡ map (named_node (table_program table.now) (table_type table.now ty)) (tree_nodes tree.now)) }
{
    let mut nodes = Vec::with_capacity(alloc, tree.nodes.len())?;
    for node in &tree.nodes {
        let named = name_node(alloc, table, ty, node)?;
        nodes.push(named)?;
    }
    Ok(nodes)
}

// A node with the names of its variants.
fn name_node<'t>(
    alloc: Global,
    table: &'t TypeTable,
    ty: TyId,
    node: &'t Node,
) -> Result<NamedNode<'t>, NoMemory>
    requires of { IsOf table.now ty }
    requires file { IsOfFile table.now }
    ensures { IfOk result (λ n. node_view n
        ≡ named_node (table_program table.now) (table_type table.now ty) (plain_node node.now)) }
{
    match node {
        Node::Switch { place, cases } => {
            let at = type_of_cases(table, ty, place, cases);
            let cases = name_cases(alloc, table, at, cases)?;
            Ok(NamedNode::Switch { place, cases })
        }
        Node::Ask { arm, binds, no } => Ok(NamedNode::Ask {
            arm: *arm,
            binds,
            no: *no,
        }),
        Node::Take { arm, binds } => Ok(NamedNode::Take { arm: *arm, binds }),
        Node::Miss => Ok(NamedNode::Miss),
        Node::Void => Ok(NamedNode::Void),
    }
}

// The type at the place of a switch, where one of the cases is a variant and so wants it.
fn type_of_cases(table: &TypeTable, ty: TyId, place: &Place, cases: &[(Case, u64)]) -> Option<TyId>
    requires of { IsOf table.now ty }
    ensures of { IfSome result (IsOf table.now) }
    ensures names { map (named_branch (table_program table.now) (option_map (table_type table.now) result))
        (map plain_branch cases.now) ≡ map (named_branch (table_program table.now) (type_at_place
        (rust_context (table_program table.now)) (table_type table.now ty) (plain_place (steps_of place.now))))
        (map plain_branch cases.now) }
{
    if has_variant(cases) {
        type_at(table, ty, place.steps())
    } else {
        None
    }
}

// Whether one of the cases is a variant.
fn has_variant(cases: &[(Case, u64)]) -> bool
    ensures { result ≡ has_variant (map plain_branch cases.now) }
{
    for (case, _) in cases {
        if matches!(case, Case::Variant(_)) {
            return true;
        }
    }
    false
}

// The cases of a switch over a place of this type.
fn name_cases<'t>(
    alloc: Global,
    table: &'t TypeTable,
    at: Option<TyId>,
    cases: &'t [(Case, u64)],
) -> Result<Vec<NamedBranch<'t>>, NoMemory>
    requires of { IfSome at (IsOf table.now) }
    requires file { IsOfFile table.now }
    ensures { IfOk result (λ v. map branch_view v.items ≡ map (named_branch (table_program table.now)
        (option_map (table_type table.now) at)) (map plain_branch cases.now)) }
{
    let mut named = Vec::with_capacity(alloc, cases.len())?;
    for (case, next) in cases {
        let case = name_case(table, at, case);
        named.push(NamedBranch { case, next: *next })?;
    }
    Ok(named)
}

// A case of a switch over a place of this type.
fn name_case<'t>(table: &'t TypeTable, at: Option<TyId>, case: &'t Case) -> NamedCase<'t>
    requires of { IfSome at (IsOf table.now) }
    requires file { IsOfFile table.now }
    ensures { case_view result
        ≡ named_case (table_program table.now) (option_map (table_type table.now) at) (plain_case case.now) }
{
    match case {
        Case::Variant(k) => variant_case(table, at, *k),
        Case::Flag(flag) => NamedCase::Flag(*flag),
        Case::Span(range) => NamedCase::Span(*range),
        Case::Text(text) => NamedCase::Text(text.as_str()),
        Case::Length(len) => NamedCase::Length(*len),
        Case::Longer { front, back } => NamedCase::Longer {
            front: *front,
            back: *back,
        },
        Case::Else => NamedCase::Else,
    }
}

// The variant with this number of the type at a place, where there is one.
fn variant_case<'t>(table: &'t TypeTable, at: Option<TyId>, variant: u32) -> NamedCase<'t>
    requires of { IfSome at (IsOf table.now) }
    requires file { IsOfFile table.now }
    ensures { case_view result
        ≡ variant_case (table_program table.now) (option_map (table_type table.now) at) variant }
{
    match at {
        Some(ty) => match name_of(table, ty, variant) {
            Some(name) => NamedCase::Variant(name),
            None => NamedCase::Else,
        },
        None => NamedCase::Else,
    }
}
