// What is found of a function that breaks no rule: its match as the engine has it, and the engine's verdict.
ghost use Rattle.std.specs.Prelude.{◌<◌, ◌^◌, List, length, map, IfOk};
ghost use Rattle.match_model.specs.ArenaWays.{match_arms, InMatchDomain};
ghost use Rattle.match_model.specs.Overlaps.{IsOverlapList};
ghost use Rattle.match_model.specs.WellTyped.{IsWellTyped};
ghost use Rattle.decl_syntax.specs.Functions.{FunctionTree, function_view};
ghost use Rattle.decl_syntax.specs.Items.{ItemTree};
ghost use Rattle.pattern_arena.specs.Trees.{plain_match};
ghost use Rattle.pattern_lints.specs.Views.{plain_overlaps};
ghost use Rattle.pattern_matrix.specs.SearchLaws.{IsJudged};
ghost use Rattle.type_table.specs.TableContext.{TableValue, table_context};
ghost use Rattle.type_table.specs.Tables.{IsOf};
ghost use Rattle.witness_search.specs.Entries.{plain_entries};
ghost use Rattle.witnesses.specs.Views.{plain_witness};
ghost use Rattle.match_top.specs.Reporting.{AreOverlapsFor, IsFineFunction, IsMatchOf, IsVerdictFor};

use crate::source::Source;
use decl_syntax::FnItem;
use no_memory::NoMemory;
use pattern_arena::laws::matches_are_made;
use pattern_arena::{CheckedMatch, Placer};
use pattern_elaboration::top::elaborate;
use pattern_laws::laws::{judged_table_match, parsed_arms_are_sound, table_match_is_well_typed};
use pattern_laws::overlap_laws::overlaps_of_table_match;
use pattern_lints::overlaps;
use rust_context::RustCx;
use rust_context::laws::context_is_the_tables;
use std::alloc::Global;
use type_table::{TyId, TypeTable};
use usefulness::reach;
use witness_search::judge_by;
use witnesses::{Judgement, Overlap};

/// The match of a function that breaks no rule, as the engine has it. `number` is that of the function's item.
pub(crate) fn match_of<'a>(
    alloc: Global,
    source: &Source<'_>,
    placer: &Placer<'a>,
    number: u64,
    f: &FnItem,
) -> Result<CheckedMatch<'a, TyId>, NoMemory>
    requires fine { (whole : List ItemTree) × IsFineFunction source.now whole number (function_view f.now) }
    ensures { (whole : List ItemTree) → IsFineFunction source.now whole number (function_view f.now)
        → IfOk result (λ m. IsMatchOf source.now whole (function_view f.now) (plain_match m)) }
{
    parsed_arms_are_sound();
    match elaborate(alloc, source.table, placer, number, f)? {
        Some(m) => {
            matches_are_made(&m);
            Ok(m)
        }
        None => unreachable!(),
    }
}

/// What the engine finds of a match whose types are those of the table: which arms and alternatives are reached, and from
/// that the witnesses of what is missing and what is unreachable.
pub(crate) fn judge<'a>(
    alloc: Global,
    table: &TypeTable,
    m: &CheckedMatch<'a, TyId>,
) -> Result<Judgement, NoMemory>
    requires typed { IsWellTyped (IsOf table.now) (table_context table.now) (plain_match m.now) }
    requires few { length m.now.arms.now < 2 ^ 32 }
    ensures { IfOk result (λ j. IsJudged (TableValue table.now) (table_context table.now) (plain_match m.now)
        j.exhaustive (plain_entries j.unreachable.items) (map plain_witness j.witnesses.items)) }
{
    let cx = RustCx::new(table);
    context_is_the_tables(&cx);
    let marks = reach(alloc, &cx, m)?;
    judge_by(alloc, &cx, m, &marks)
}

/// What is found of a function, from its match.
pub(crate) fn verdict_on<'a>(
    alloc: Global,
    source: &Source<'_>,
    m: &CheckedMatch<'a, TyId>,
) -> Result<Judgement, NoMemory>
    requires few { length m.now.arms.now < 2 ^ 32 }
    requires shown { (whole : List ItemTree) × (f : FunctionTree) × IsMatchOf source.now whole f (plain_match m.now) }
    ensures { (whole : List ItemTree) → (f : FunctionTree) → IsMatchOf source.now whole f (plain_match m.now)
        → IfOk result (λ j. IsVerdictFor source.now whole f j) }
{
    table_match_is_well_typed();
    judged_table_match();
    judge(alloc, source.table, m)
}

/// The overlapping ranges of a match whose types are those of the table.
fn table_overlaps<'a>(
    alloc: Global,
    table: &TypeTable,
    m: &CheckedMatch<'a, TyId>,
) -> Result<Vec<Overlap>, NoMemory>
    requires { IsWellTyped (IsOf table.now) (table_context table.now) (plain_match m.now) }
    ensures { IfOk result (λ v. IsOverlapList (InMatchDomain (TableValue table.now) (plain_match m.now))
        (match_arms (plain_match m.now)) (plain_overlaps v.items)) }
{
    let cx = RustCx::new(table);
    context_is_the_tables(&cx);
    overlaps(alloc, &cx, m)
}

/// The overlapping ranges of a function, from its match.
pub(crate) fn overlaps_on<'a>(
    alloc: Global,
    source: &Source<'_>,
    m: &CheckedMatch<'a, TyId>,
) -> Result<Vec<Overlap>, NoMemory>
    requires { (whole : List ItemTree) × (f : FunctionTree) × IsMatchOf source.now whole f (plain_match m.now) }
    ensures { (whole : List ItemTree) → (f : FunctionTree) → IsMatchOf source.now whole f (plain_match m.now)
        → IfOk result (λ v. AreOverlapsFor source.now whole f v.items) }
{
    table_match_is_well_typed();
    overlaps_of_table_match();
    table_overlaps(alloc, source.table, m)
}
