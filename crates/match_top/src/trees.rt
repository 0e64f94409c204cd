// The decision tree of a function, where it is asked for.
ghost use Rattle.std.specs.Prelude.{◌≡◌, ◌<◌, ◌^◌, List, length, map, option_map, IfOk};
ghost use Rattle.decl_syntax.specs.Functions.{FunctionTree};
ghost use Rattle.decl_syntax.specs.Items.{ItemTree};
ghost use Rattle.match_model.specs.MatchTree.{IsMatchTree};
ghost use Rattle.match_model.specs.WellTyped.{IsWellTyped};
ghost use Rattle.pattern_arena.specs.Trees.{plain_match};
ghost use Rattle.pattern_laws.specs.TreeLaws.{IsTreeOn};
ghost use Rattle.tree_eval.specs.Nodes.{tree_nodes};
ghost use Rattle.tree_text.specs.Trees.{node_view};
ghost use Rattle.type_table.specs.TableContext.{TableValue, table_context};
ghost use Rattle.type_table.specs.Tables.{IsOf, table_program, table_type};
ghost use Rattle.witness_names.specs.Named.{IsOfFile};
ghost use Rattle.witness_names.specs.NamedTrees.{named_node};
ghost use Rattle.match_top.specs.Reporting.{IsMatchOf, IsTreeFor, setting_in};

use crate::source::Source;
use crate::words::Command;
use bumpalo::Bump;
use decision_tree::lower;
use no_memory::NoMemory;
use pattern_arena::CheckedMatch;
use pattern_laws::laws::{table_match_is_well_typed, tree_of_table_match};
use rust_context::RustCx;
use rust_context::laws::context_is_the_tables;
use std::alloc::Global;
use tree_eval::Tree;
use tree_text::NamedNode;
use type_table::{TyId, TypeTable};
use witness_names::name_tree;

// The tree of a match whose types are those of the table.
fn lowered<'a>(
    alloc: Global,
    table: &TypeTable,
    arena: &'a Bump<Global>,
    m: &CheckedMatch<'a, TyId>,
) -> Result<Tree, NoMemory>
    requires typed { IsWellTyped (IsOf table.now) (table_context table.now) (plain_match m.now) }
    requires few { length m.now.arms.now < 2 ^ 32 }
    ensures { IfOk result (λ t. IsMatchTree (table_context table.now) (TableValue table.now) (plain_match m.now)
        (tree_nodes t)) }
{
    let cx = RustCx::new(table);
    context_is_the_tables(&cx);
    lower(alloc, arena, &cx, m)
}

/// The tree of a function's match. What the work needs meanwhile is put into the arena of the match.
pub(crate) fn tree_of_match<'a>(
    alloc: Global,
    source: &Source<'_>,
    arena: &'a Bump<Global>,
    m: &CheckedMatch<'a, TyId>,
) -> Result<Tree, NoMemory>
    requires few { length m.now.arms.now < 2 ^ 32 }
    requires shown { (whole : List ItemTree) × (f : FunctionTree) × IsMatchOf source.now whole f (plain_match m.now) }
    ensures { (whole : List ItemTree) → (f : FunctionTree) → IsMatchOf source.now whole f (plain_match m.now)
        → IfOk result (λ t. IsTreeOn (setting_in source.now whole) f (tree_nodes t)) }
{
    table_match_is_well_typed();
    tree_of_table_match();
    lowered(alloc, source.table, arena, m)
}

/// The same, where the command asks for it.
pub(crate) fn tree_of<'a>(
    alloc: Global,
    command: Command,
    source: &Source<'_>,
    arena: &'a Bump<Global>,
    m: &CheckedMatch<'a, TyId>,
) -> Result<Option<Tree>, NoMemory>
    requires few { length m.now.arms.now < 2 ^ 32 }
    requires shown { (whole : List ItemTree) × (f : FunctionTree) × IsMatchOf source.now whole f (plain_match m.now) }
    ensures { (whole : List ItemTree) → (f : FunctionTree) → IsMatchOf source.now whole f (plain_match m.now)
        → IfOk result (IsTreeFor command source.now whole f) }
{
    match command {
        Command::Check => Ok(None),
        Command::Arms => Ok(None),
        Command::Trees => {
            let tree = tree_of_match(alloc, source, arena, m)?;
            Ok(Some(tree))
        }
    }
}

/// The nodes of a tree over this type of the table, if there is one, with the names of its variants.
pub(crate) fn named_tree<'t>(
    alloc: Global,
    table: &'t TypeTable,
    ty: TyId,
    tree: &'t Option<Tree>,
) -> Result<Option<Vec<NamedNode<'t>>>, NoMemory>
    requires of { IsOf table.now ty }
    requires file { IsOfFile table.now }
    ensures { IfOk result (λ o. option_map (λ v. map node_view v.items) o
        ≡ option_map (λ t. map (named_node (table_program table.now) (table_type table.now ty)) (tree_nodes t)) tree.now) }
{
    match tree {
        None => Ok(None),
        Some(tree) => {
            let nodes = name_tree(alloc, table, ty, tree)?;
            Ok(Some(nodes))
        }
    }
}
