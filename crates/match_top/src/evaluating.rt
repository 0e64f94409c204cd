// What the match of one function does with one value.
ghost use Rattle.std.specs.Prelude.{◌≡◌, ◌<◌, ◌^◌, IfOk, List, length, map, sum_by};
ghost use Rattle.decl_syntax.specs.Counts.{kind_arms};
ghost use Rattle.decl_syntax.specs.Functions.{FunctionTree, function_view};
ghost use Rattle.decl_syntax.specs.Items.{ItemTree, file_view};
ghost use Rattle.match_model.specs.Select.{select};
ghost use Rattle.pattern_arena.specs.Trees.{plain_match};
ghost use Rattle.pattern_rules.specs.Verdicts.{written_arms};
ghost use Rattle.first_match.specs.Selections.{ending_view};
ghost use Rattle.tree_eval.specs.Views.{plain_value};
ghost use Rattle.match_top.specs.Asked.{evaluation_view};
ghost use Rattle.match_top.specs.Outcomes.{IsEvaluated, IsEvaluatedOf, IsShownOutcome, status_of_outcome};
ghost use Rattle.match_top.specs.Reporting.{IsSound, StandsAt, IsFineFunction, setting_in};
ghost use Rattle.match_top.specs.Reports.{numbered};
ghost use Rattle.match_top.specs.Selections.{IsReady};
ghost use Rattle.match_top.specs.Statuses.{IsVerdict};
ghost use Rattle.match_top.specs.Words.{accepts};

use crate::Status;
use crate::answering::Answer;
use crate::finding::function_named;
use crate::judging::match_of;
use crate::refusals::{refusal_of, refused, refused_at};
use crate::source::Source;
use crate::telling::told;
use crate::words::Evaluation;
use bumpalo::Bump;
use decl_lexer::name_form;
use decl_syntax::{File, FnItem};
use first_match::{Ending, select};
use no_memory::NoMemory;
use pattern_arena::{CheckedMatch, Placer};
use pattern_check::function::first_fault;
use std::alloc::Global;
use tree_eval::Value;
use type_table::TyId;
use value_text::{ValueFault, read_value};
use verdict_json::outcome_bytes;

/// What is told for a function, a value and answers, in a file of which no item breaks a rule on declarations.
pub(crate) fn evaluated(
    alloc: Global,
    evaluation: &Evaluation<'_>,
    source: &Source<'_>,
    file: &File,
) -> Result<Answer, NoMemory>
    requires sound { IsSound source.now (file_view file.now) }
    requires few { sum_by (λ i. kind_arms i.kind) (file_view file.now) < 2 ^ 32 }
    ensures answers { IfOk result (λ a. IsEvaluated (evaluation_view evaluation.now)
        (setting_in source.now (file_view file.now)) a.text.items a.status) }
    ensures verdict { IfOk result (λ a. IsVerdict a.status) }
{
    let name = name_form(alloc, evaluation.function)?;
    match function_named(&file.items, name.as_str()) {
        None => refused_at(alloc, 42, None),
        Some(found) => evaluated_of(alloc, evaluation, source, found.number, found.function),
    }
}

// The same of the function of that name, the item with this number: its first broken rule, or what it does with the value.
fn evaluated_of(
    alloc: Global,
    evaluation: &Evaluation<'_>,
    source: &Source<'_>,
    number: u64,
    f: &FnItem,
) -> Result<Answer, NoMemory>
    requires there { (whole : List ItemTree) × IsSound source.now whole × StandsAt whole number (function_view f.now) }
    requires few { length f.now.arms.items < 2 ^ 32 }
    ensures answers { (whole : List ItemTree) → IsSound source.now whole → StandsAt whole number (function_view f.now)
        → IfOk result (λ a. IsEvaluatedOf (setting_in source.now whole) (numbered number (function_view f.now))
        (evaluation_view evaluation.now) a.text.items a.status) }
    ensures verdict { IfOk result (λ a. IsVerdict a.status) }
{
    match first_fault(alloc, source.table, source.options.edition, number, f)? {
        Some(fault) => refused(alloc, &refusal_of(number, &fault)),
        None => evaluated_fine(alloc, evaluation, source, number, f),
    }
}

// The same of a function that breaks no rule, the item with this number: what is read of the value, and what it does with it.
fn evaluated_fine(
    alloc: Global,
    evaluation: &Evaluation<'_>,
    source: &Source<'_>,
    number: u64,
    f: &FnItem,
) -> Result<Answer, NoMemory>
    requires fine { (whole : List ItemTree) × IsFineFunction source.now whole number (function_view f.now) }
    requires few { length f.now.arms.items < 2 ^ 32 }
    ensures answers { (whole : List ItemTree) → IsFineFunction source.now whole number (function_view f.now)
        → IfOk result (λ a. IsEvaluatedOf (setting_in source.now whole) (numbered number (function_view f.now))
        (evaluation_view evaluation.now) a.text.items a.status) }
    ensures verdict { IfOk result (λ a. IsVerdict a.status) }
{
    let arena = Bump::new(alloc);
    let placer = Placer::new(&arena);
    let m = match_of(alloc, source, &placer, number, f)?;
    let value = match read_value(alloc, source.table, m.ty, m.validity, evaluation.value) {
        Ok(value) => value,
        Err(ValueFault::Rule { rule }) => return refused_at(alloc, rule, None),
        Err(ValueFault::NoMemory) => return Err(NoMemory),
    };
    let answers = given_answers(alloc, evaluation.answers)?;
    outcome_of(alloc, source, &m, &value, &answers)
}

// What the match does with a value of its domain, by its arms.
fn outcome_of<'a>(
    alloc: Global,
    source: &Source<'_>,
    m: &CheckedMatch<'a, TyId>,
    value: &Value,
    answers: &[bool],
) -> Result<Answer, NoMemory>
    requires few { length m.now.arms.now < 2 ^ 32 }
    requires ready { (whole : List ItemTree) × (f : FunctionTree) × IsReady source.now whole f (plain_match m.now)
        (plain_value value.now) }
    ensures answers { (whole : List ItemTree) → (f : FunctionTree) → IsReady source.now whole f (plain_match m.now)
        (plain_value value.now) → IfOk result (λ a. IsShownOutcome (setting_in source.now whole) f
        (select (written_arms (setting_in source.now whole) f) (plain_value value.now) answers.now) a.text.items a.status) }
    ensures verdict { IfOk result (λ a. IsVerdict a.status) }
{
    let selection = select(alloc, m, value, answers)?;
    let shown = told(alloc, source.table, m, &selection)?;
    let text = outcome_bytes(alloc, &shown)?;
    let status = status_of_ending(&selection.ending);
    Ok(Answer { text, status })
}

fn status_of_ending(ending: &Ending) -> Status
    ensures status { result ≡ status_of_outcome (ending_view ending.now) }
    ensures verdict { IsVerdict result }
{
    match ending {
        Ending::Took(_) => Status::Clean,
        Ending::Missed => Status::Found,
        Ending::Short => Status::Found,
    }
}

// The answers that letters give: whether each accepts.
fn given_answers(alloc: Global, letters: &str) -> Result<Vec<bool>, NoMemory>
    ensures { IfOk result (λ v. v.items ≡ map accepts letters.now) }
{
    let mut answers = Vec::with_capacity(alloc, letters.len())?;
    for letter in letters.as_bytes() {
        answers.push(*letter == b't')?;
    }
    Ok(answers)
}
