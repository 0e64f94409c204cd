// The report on a file: an entry for each function, written as soon as it is judged.
ghost use Rattle.std.specs.Prelude.{◌≡◌, ◌<◌, ◌^◌, ◌&&◌, ◌++◌, ◌∷◌, [], ℕ, List, Some, map, length, slice_get, sum_by, string_bytes, IfOk};
ghost use Rattle.std.specs.Rc.{rc_str_bytes};
ghost use Rattle.decl_syntax.specs.Counts.{kind_arms};
ghost use Rattle.decl_syntax.specs.Functions.{FunctionTree, function_view};
ghost use Rattle.decl_syntax.specs.Items.{ItemTree, file_view, item_view, kind_view};
ghost use Rattle.pattern_rules.specs.Settings.{Setting};
ghost use Rattle.type_table.specs.Faults.{BreaksNone};
ghost use Rattle.type_table.specs.Tables.{IsOf};
ghost use Rattle.verdict_json.specs.Report.{ArmedFunction, JudgedFunction, RefusedFunction};
ghost use Rattle.verdict_json.specs.Rules.{IsRule};
ghost use Rattle.verdict_json.specs.Summaries.{summary_text};
ghost use Rattle.verdict_json.specs.Trees.{report_view};
ghost use Rattle.match_top.specs.Reports.{NumberedFunction, numbered, function_at, functions_of};
ghost use Rattle.match_top.specs.Reports.{IsEntry, IsReported, IsCounted, status_of};
ghost use Rattle.match_top.specs.declared.words.Command.{Command};
ghost use Rattle.match_top.specs.declared.words.Command.TheVariants.{Arms};
ghost use Rattle.match_top.specs.Reporting.{IsSound, StandsAt, IsFineFunction, AsksForFindings, IsFoundOn, ReportsOn};
ghost use Rattle.match_top.specs.Reporting.{setting_in};

use crate::judging::{match_of, overlaps_on, verdict_on};
use crate::refusals::refusal_of;
use crate::source::Source;
use crate::trees::{named_tree, tree_of};
use crate::words::Command;
use arm_laws::verdict_laws::arms_complete_match;
use arm_maker::{ArmFault, arm_texts};
use bumpalo::Bump;
use decl_lexer::Name;
use decl_syntax::{File, FnItem, Item, ItemKind};
use no_memory::NoMemory;
use pattern_arena::Placer;
use pattern_check::function::first_fault;
use std::alloc::Global;
use tree_eval::Tree;
use type_table::TyId;
use verdict_json::{FnReport, Refusal, ReportText, Summary};
use witness_names::{Paths, name_witnesses};
use witnesses::{Judgement, Overlap, Unreachable, Witness};

/// The report on a file as it is written, the counts in it, and whether no function is refused and every match is
/// exhaustive.
#[derive(Debug, Drop)]
pub(crate) struct Reported {
    pub text: Vec<u8>,
    pub counts: Summary,
    pub clean: bool,
}

/// The entries so far, the counts in them, and whether none is of a function that is refused or lacks an arm.
#[derive(Debug, Drop)]
struct Progress {
    text: ReportText,
    counts: Summary,
    clean: bool,
}

// A function's name, how many arms it has, whether its match is exhaustive, what is missing, and its decision tree where it
// was asked for.
#[derive(Debug, Drop)]
struct Found {
    name: Name,
    arms: u64,
    exhaustive: bool,
    witnesses: Vec<Witness>,
    tree: Option<Tree>,
}

/// The report on a file of which no item breaks a rule on declarations, as the command asks for it.
pub(crate) fn report_on(
    alloc: Global,
    command: Command,
    source: &Source<'_>,
    file: File,
) -> Result<Reported, NoMemory>
    requires sound { IsSound source.now (file_view file) }
    requires few { sum_by (λ i. kind_arms i.kind) (file_view file) < 2 ^ 32 }
    ensures reported { IfOk result (λ r. IsReported command (setting_in source.now (file_view file)) r.text.items
        (status_of r.clean)) }
    ensures counted { IfOk result (λ r. IsCounted command (setting_in source.now (file_view file)) (summary_text r.counts)
        (status_of r.clean)) }
{
    let File { items } = file;
    let entries = all_entries(alloc, command, source, items)?;
    finished(entries)
}

// The entries of the functions among the items. Each item is given back once its entry is written.
fn all_entries(
    alloc: Global,
    command: Command,
    source: &Source<'_>,
    items: Vec<Item>,
) -> Result<Progress, NoMemory>
    ghost whole: { List ItemTree }
    requires sound { IsSound source.now whole }
    requires items { map item_view items.items ≡ whole }
    requires few { sum_by (λ i. kind_arms i.kind) whole < 2 ^ 32 }
    ensures { IfOk result (ReportsOn command (setting_in source.now whole) (functions_of whole)) }
{
    let mut so_far = Progress {
        text: ReportText::begin(alloc)?,
        counts: Summary::new(),
        clean: true,
    };
    let mut number = 0;
    for item in items {
        so_far = add_item(alloc, command, source, so_far, number, item)?;
        number += 1;
    }
    Ok(so_far)
}

// Adds the entry of the item with this number, if it is a function.
fn add_item(
    alloc: Global,
    command: Command,
    source: &Source<'_>,
    so_far: Progress,
    number: u64,
    item: Item,
) -> Result<Progress, NoMemory>
    ghost whole: { List ItemTree }
    requires sound { IsSound source.now whole }
    requires there { slice_get whole number ≡ Some (item_view item) }
    requires few { kind_arms (kind_view item.kind) < 2 ^ 32 }
    ensures { (fs : List NumberedFunction) → ReportsOn command (setting_in source.now whole) fs so_far
        → IfOk result (ReportsOn command (setting_in source.now whole) (fs ++ function_at number (kind_view item.kind))) }
{
    let Item { kind, .. } = item;
    match kind {
        ItemKind::Enum(_) => Ok(so_far),
        ItemKind::Struct(_) => Ok(so_far),
        ItemKind::Import(_) => Ok(so_far),
        ItemKind::Function(f) => add_function(alloc, command, source, so_far, number, f),
    }
}

// Adds the entry of a function, the item with this number: its first broken rule, or what the command asks for.
fn add_function(
    alloc: Global,
    command: Command,
    source: &Source<'_>,
    so_far: Progress,
    number: u64,
    f: FnItem,
) -> Result<Progress, NoMemory>
    ghost whole: { List ItemTree }
    requires sound { IsSound source.now whole }
    requires there { StandsAt whole number (function_view f) }
    requires few { length f.arms.items < 2 ^ 32 }
    ensures { (fs : List NumberedFunction) → ReportsOn command (setting_in source.now whole) fs so_far
        → IfOk result (ReportsOn command (setting_in source.now whole) (fs ++ numbered number (function_view f) ∷ [])) }
{
    match first_fault(alloc, source.table, source.options.edition, number, &f)? {
        Some(fault) => {
            let refusal = refusal_of(number, &fault);
            add_refused(so_far, f.name.as_str(), f.arms.len() as u64, &refusal)
        }
        None => add_fine(alloc, command, source, so_far, number, f),
    }
}

// Adds a function that breaks no rule, as the command asks for it.
fn add_fine(
    alloc: Global,
    command: Command,
    source: &Source<'_>,
    so_far: Progress,
    number: u64,
    f: FnItem,
) -> Result<Progress, NoMemory>
    ghost whole: { List ItemTree }
    requires fine { IsFineFunction source.now whole number (function_view f) }
    requires few { length f.arms.items < 2 ^ 32 }
    ensures { (fs : List NumberedFunction) → ReportsOn command (setting_in source.now whole) fs so_far
        → IfOk result (ReportsOn command (setting_in source.now whole) (fs ++ numbered number (function_view f) ∷ [])) }
{
    match command {
        Command::Check => add_judged(alloc, command, source, so_far, number, f),
        Command::Trees => add_judged(alloc, command, source, so_far, number, f),
        Command::Arms => add_armed(alloc, source, so_far, number, f),
    }
}

// Adds a function of this name and with so many arms that is refused.
fn add_refused(
    so_far: Progress,
    name: &str,
    arms: u64,
    refusal: &Refusal,
) -> Result<Progress, NoMemory>
    requires { IsRule refusal.now.rule }
    ensures { (command : Command) → (s : Setting) → (fs : List NumberedFunction)
        → (f : NumberedFunction) → ReportsOn command s fs so_far
        → IsEntry command s f (RefusedFunction name.now refusal.now)
        → length f.function.arms ≡ arms
        → IfOk result (ReportsOn command s (fs ++ f ∷ [])) }
{
    let Progress { text, counts, .. } = so_far;
    let text = text.add_refused(name, refusal)?;
    let counts = counts.with_refused(arms)?;
    Ok(Progress {
        text,
        counts,
        clean: false,
    })
}

// Adds a function that breaks no rule, with what is found of it, and its tree where the command asks for it. Its arms are
// given back as soon as its match stands in the arena, and the match goes with its arena before anything is written of it.
fn add_judged(
    alloc: Global,
    command: Command,
    source: &Source<'_>,
    so_far: Progress,
    number: u64,
    f: FnItem,
) -> Result<Progress, NoMemory>
    ghost whole: { List ItemTree }
    requires fine { IsFineFunction source.now whole number (function_view f) }
    requires few { length f.arms.items < 2 ^ 32 }
    requires asked { AsksForFindings command }
    ensures { (fs : List NumberedFunction) → ReportsOn command (setting_in source.now whole) fs so_far
        → IfOk result (ReportsOn command (setting_in source.now whole) (fs ++ numbered number (function_view f) ∷ [])) }
{
    let arena = Bump::new(alloc);
    let placer = Placer::new(&arena);
    let m = match_of(alloc, source, &placer, number, &f)?;
    let FnItem { name, arms, .. } = f;
    let count = arms.len() as u64;
    drop(arms);
    let judgement = verdict_on(alloc, source, &m)?;
    let tree = tree_of(alloc, command, source, &arena, &m)?;
    let overlaps = overlaps_on(alloc, source, &m)?;
    let ty = m.ty;
    drop(arena);
    let Judgement {
        exhaustive,
        witnesses,
        unreachable,
    } = judgement;
    let found = Found {
        name,
        arms: count,
        exhaustive,
        witnesses,
        tree,
    };
    add_found(alloc, *source, so_far, ty, &found, unreachable, overlaps)
}

// Adds a function that breaks no rule, with the arms to add to it, or with its refusal where one of them is too large. Its
// match goes with its arena before the arms are made.
fn add_armed(
    alloc: Global,
    source: &Source<'_>,
    so_far: Progress,
    number: u64,
    f: FnItem,
) -> Result<Progress, NoMemory>
    ghost whole: { List ItemTree }
    requires fine { IsFineFunction source.now whole number (function_view f) }
    requires few { length f.arms.items < 2 ^ 32 }
    ensures { (command : Command) → command ≡ Arms → (fs : List NumberedFunction)
        → ReportsOn command (setting_in source.now whole) fs so_far
        → IfOk result (ReportsOn command (setting_in source.now whole) (fs ++ numbered number (function_view f) ∷ [])) }
{
    arms_complete_match();
    let arena = Bump::new(alloc);
    let placer = Placer::new(&arena);
    let m = match_of(alloc, source, &placer, number, &f)?;
    let FnItem { name, arms, .. } = f;
    let count = arms.len() as u64;
    drop(arms);
    let judgement = verdict_on(alloc, source, &m)?;
    let ty = m.ty;
    drop(arena);
    match arm_texts(alloc, source.table, ty, &judgement.witnesses) {
        Ok(texts) => add_texts(so_far, name.as_str(), count, &texts),
        Err(ArmFault::Rule { rule }) => {
            let refusal = Refusal {
                rule,
                item: Some(number),
                arm: None,
                at: None,
            };
            add_refused(so_far, name.as_str(), count, &refusal)
        }
        Err(ArmFault::NoMemory) => Err(NoMemory),
    }
}

// Adds a function of this name and with so many arms, with the texts of the arms to add.
fn add_texts(
    so_far: Progress,
    name: &str,
    arms: u64,
    texts: &[String],
) -> Result<Progress, NoMemory>
    ensures { (command : Command) → (s : Setting) → (fs : List NumberedFunction)
        → (f : NumberedFunction) → ReportsOn command s fs so_far
        → IsEntry command s f (ArmedFunction name.now (map string_bytes texts.now))
        → length f.function.arms ≡ arms
        → IfOk result (ReportsOn command s (fs ++ f ∷ [])) }
{
    let Progress {
        text,
        counts,
        clean,
    } = so_far;
    let clean = both(clean, texts.is_empty());
    let text = text.add_arms(name, texts)?;
    let counts = counts.with_arms(arms)?;
    Ok(Progress {
        text,
        counts,
        clean,
    })
}

// Adds a function with what is found of it, what is unreachable and its overlapping ranges, over a scrutinee of this type.
// These two lists are taken over, since the report has them as they stand; of the rest its names are made, so it is lent.
fn add_found<'r>(
    alloc: Global,
    source: Source<'r>,
    so_far: Progress,
    ty: TyId,
    found: &'r Found,
    unreachable: Vec<Unreachable>,
    overlaps: Vec<Overlap>,
) -> Result<Progress, NoMemory>
    ghost whole: { List ItemTree }
    requires sound { IsSound source whole }
    requires of { IsOf source.table.now ty }
    ensures { (command : Command) → (number : ℕ) → (f : FunctionTree) → (fs : List NumberedFunction)
        → ReportsOn command (setting_in source.entry whole) fs so_far
        → IsFoundOn command source.entry whole number f ty (record {
          exhaustive = found.now.exhaustive;
          witnesses = found.now.witnesses;
          unreachable = unreachable;
        }) overlaps.items found.now.tree
        → rc_str_bytes found.now.name ≡ f.name → length f.arms ≡ found.now.arms
        → IfOk result (ReportsOn command (setting_in source.entry whole) (fs ++ numbered number f ∷ [])) }
{
    let witnesses = name_witnesses(alloc, Paths::Short, source.table, ty, &found.witnesses)?;
    let tree = named_tree(alloc, source.table, ty, &found.tree)?;
    let report = FnReport {
        name: found.name.as_str(),
        exhaustive: found.exhaustive,
        overlaps,
        unreachable,
        tree,
        witnesses,
    };
    add_report(so_far, found.arms, &report)
}

// Adds a function that has so many arms, with what is reported of it.
fn add_report(so_far: Progress, arms: u64, report: &FnReport<'_>) -> Result<Progress, NoMemory>
    ensures { (command : Command) → (s : Setting) → (fs : List NumberedFunction)
        → (f : NumberedFunction) → ReportsOn command s fs so_far
        → IsEntry command s f (JudgedFunction (report_view report.now))
        → length f.function.arms ≡ arms
        → IfOk result (ReportsOn command s (fs ++ f ∷ [])) }
{
    let Progress {
        text,
        counts,
        clean,
    } = so_far;
    let clean = both(clean, report.exhaustive);
    let text = text.add(report)?;
    let counts = counts.with_judged(arms, report)?;
    Ok(Progress {
        text,
        counts,
        clean,
    })
}

fn both(before: bool, now: bool) -> bool
    ensures { result ≡ (before && now) }
{
    before && now
}

// The whole report, from the entries of all functions.
fn finished(entries: Progress) -> Result<Reported, NoMemory>
    ensures reported { (command : Command) → (s : Setting) → BreaksNone s.items s.width
        → ReportsOn command s (functions_of s.items) entries
        → IfOk result (λ r. IsReported command s r.text.items (status_of r.clean)) }
    ensures counted { (command : Command) → (s : Setting) → BreaksNone s.items s.width
        → ReportsOn command s (functions_of s.items) entries
        → IfOk result (λ r. IsCounted command s (summary_text r.counts) (status_of r.clean)) }
{
    let Progress {
        text,
        counts,
        clean,
    } = entries;
    let text = text.finish()?;
    Ok(Reported {
        text,
        counts,
        clean,
    })
}
