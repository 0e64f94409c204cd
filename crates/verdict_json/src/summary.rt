// What a report on a whole file comes to, in numbers.
ghost use Rattle.std.specs.Prelude.{◌≡◌, ◌+◌, ◌++◌, ◌∷◌, [], ℕ, List, if◌then◌else◌, IfOk, string_bytes};
ghost use Rattle.serde_json.specs.View.{view};
ghost use Rattle.verdict_json.specs.Report.{ReportEntry, ArmedFunction, JudgedFunction, RefusedFunction};
ghost use Rattle.verdict_json.specs.declared.refusal.Refusal.{Refusal};
ghost use Rattle.verdict_json.specs.Summaries.{IsSummary, summary_data, summary_text};
ghost use Rattle.verdict_json.specs.Trees.{report_view};

use crate::report::FnReport;
use no_memory::NoMemory;
use serde_json::{Value, json};
use std::alloc::{AllocError, Global};

/// How much stands in a report on a file.
#[derive(Clone, Copy, Debug, PartialEq, Eq)]
pub struct Summary {
    /// The arms of all functions.
    pub arms: u64,
    /// The functions that are reported exhaustive.
    pub exhaustive: u64,
    /// All functions.
    pub functions: u64,
    /// The overlaps of all functions.
    pub overlaps: u64,
    /// The entries of the unreachable lists of all functions.
    pub unreachable: u64,
    /// The witnesses of all functions.
    pub witnesses: u64,
}

// The sum of two counts. It is refused where it passes 2^64 - 1.
fn added(count: u64, more: u64) -> Result<u64, NoMemory>
    ensures { IfOk result (λ n. n ≡ count + more) }
{
    match count.checked_add(more) {
        Some(all) => Ok(all),
        None => Err(NoMemory),
    }
}

fn one_if(flag: bool) -> u64
    ensures { result ≡ if flag then 1 else 0 }
{
    if flag { 1 } else { 0 }
}

impl Summary {
    /// The counts of a report on no function.
    pub fn new() -> Summary
        ensures { IsSummary 0 [] result }
    {
        Summary {
            arms: 0,
            exhaustive: 0,
            functions: 0,
            overlaps: 0,
            unreachable: 0,
            witnesses: 0,
        }
    }

    /// The counts with those of one more function, which is judged and has so many arms.
    ///
    /// The only error is want of memory: of no list that lies in memory does a count pass 2^64 - 1.
    pub fn with_judged(&self, arms: u64, report: &FnReport<'_>) -> Result<Summary, NoMemory>
        ensures { (all : ℕ) (entries : List ReportEntry) → IsSummary all entries self.now
            → IfOk result (IsSummary (all + arms) (entries ++ JudgedFunction (report_view report.now) ∷ [])) }
    {
        let more_arms = added(self.arms, arms)?;
        let exhaustive = added(self.exhaustive, one_if(report.exhaustive))?;
        let functions = added(self.functions, 1)?;
        let overlaps = added(self.overlaps, report.overlaps.len() as u64)?;
        let unreachable = added(self.unreachable, report.unreachable.len() as u64)?;
        let witnesses = added(self.witnesses, report.witnesses.len() as u64)?;
        Ok(Summary {
            arms: more_arms,
            exhaustive,
            functions,
            overlaps,
            unreachable,
            witnesses,
        })
    }

    /// The counts with those of one more function, to which arms are to be added, and which has so many arms.
    pub fn with_arms(&self, arms: u64) -> Result<Summary, NoMemory>
        ensures { (all : ℕ) (entries : List ReportEntry) (name : List ℕ) (texts : List (List ℕ))
            → IsSummary all entries self.now
            → IfOk result (IsSummary (all + arms) (entries ++ ArmedFunction name texts ∷ [])) }
    {
        let more_arms = added(self.arms, arms)?;
        let functions = added(self.functions, 1)?;
        Ok(Summary {
            arms: more_arms,
            functions,
            ..*self
        })
    }

    /// The counts with those of one more function, which is refused and has so many arms.
    pub fn with_refused(&self, arms: u64) -> Result<Summary, NoMemory>
        ensures { (all : ℕ) (entries : List ReportEntry) (name : List ℕ) (refusal : Refusal)
            → IsSummary all entries self.now
            → IfOk result (IsSummary (all + arms) (entries ++ RefusedFunction name refusal ∷ [])) }
    {
        let more_arms = added(self.arms, arms)?;
        let functions = added(self.functions, 1)?;
        Ok(Summary {
            arms: more_arms,
            functions,
            ..*self
        })
    }
}

fn summary_value(alloc: Global, summary: &Summary) -> Result<Value, AllocError>
    ensures { IfOk result (λ v. view v ≡ summary_data summary.now) }
{
    json!(in alloc; {
        "arms": summary.arms,
        "exhaustive": summary.exhaustive,
        "functions": summary.functions,
        "overlaps": summary.overlaps,
        "unreachable": summary.unreachable,
        "witnesses": summary.witnesses
    })
}

// The text of the counts, and a line feed.
#[tactic(auto, unfolding(crate::specs::Summaries::summary_text))]
fn summary_line(alloc: Global, summary: &Summary) -> Result<String, AllocError>
    ensures { IfOk result (λ s. string_bytes s ≡ summary_text summary.now) }
{
    let mut text = summary_value(alloc, summary)?.to_string(alloc)?;
    text.push('\n')?;
    Ok(text)
}

/// The whole output for a generated file: the counts, and a line feed. The only error is want of memory.
pub fn demo_bytes(alloc: Global, summary: &Summary) -> Result<Vec<u8>, NoMemory>
    ensures { IfOk result (λ bytes. bytes.items ≡ summary_text summary.now) }
{
    Ok(summary_line(alloc, summary)?.into_bytes())
}
