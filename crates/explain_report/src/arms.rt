// The report of `arms`.
ghost use Rattle.std.specs.Prelude.{codes, map, option_and_then, string_bytes};
ghost use Rattle.serde_json.specs.View.{view, items_view};
ghost use Rattle.serde_json.specs.Find.{as_str};
ghost use Rattle.explain_report.specs.Arms.{arms_of, arms_of_function, arms_view, read_arms};
ghost use Rattle.explain_report.specs.Reading.{Reads, all_of, list_at};
ghost use Rattle.explain_report.specs.Skimming.{read_skimmed};

use crate::fields::items_at;
use crate::records::ReadFault;
use crate::skim::value_of;
use serde_json::Value;
use std::alloc::Global;

// The text that a value is.
fn text_of(alloc: Global, value: &Value) -> Result<String, ReadFault>
    ensures { Reads string_bytes (as_str (view value.now)) result }
{
    match value.as_str() {
        Some(text) => {
            let text = String::from_str(alloc, text)?;
            Ok(text)
        }
        None => Err(ReadFault::NoReport),
    }
}

// The texts of a list.
fn all_texts(alloc: Global, items: &[Value]) -> Result<Vec<String>, ReadFault>
    ensures { Reads arms_view (all_of as_str (items_view items.now)) result }
{
    let mut all = Vec::with_capacity(alloc, items.len())?;
    for item in items {
        let text = text_of(alloc, item)?;
        all.push(text)?;
    }
    Ok(all)
}

// The arms of an entry that is not refused.
fn arms_at(alloc: Global, value: &Value) -> Result<Vec<String>, ReadFault>
    ensures { Reads arms_view (list_at as_str (codes "arms") (view value.now)) result }
{
    match items_at(value, "arms") {
        Some(items) => all_texts(alloc, items),
        None => Err(ReadFault::NoReport),
    }
}

// The arms of a function.
fn arms_of_function(alloc: Global, value: &Value) -> Result<Vec<String>, ReadFault>
    ensures { Reads arms_view (arms_of_function (view value.now)) result }
{
    match value.get("refused") {
        Some(_) => Ok(Vec::new(alloc)),
        None => arms_at(alloc, value),
    }
}

// The arms of the functions of a list.
fn all_functions(alloc: Global, items: &[Value]) -> Result<Vec<Vec<String>>, ReadFault>
    ensures { Reads (λ v. map arms_view v.items)
        (all_of arms_of_function (items_view items.now)) result }
{
    let mut all = Vec::with_capacity(alloc, items.len())?;
    for item in items {
        let arms = arms_of_function(alloc, item)?;
        all.push(arms)?;
    }
    Ok(all)
}

// The arms of the functions of a report that is not refused.
fn functions_at(alloc: Global, value: &Value) -> Result<Vec<Vec<String>>, ReadFault>
    ensures { Reads (λ v. map arms_view v.items)
        (list_at arms_of_function (codes "functions") (view value.now)) result }
{
    match items_at(value, "functions") {
        Some(items) => all_functions(alloc, items),
        None => Err(ReadFault::NoReport),
    }
}

// The arms of a report.
#[tactic(auto, unfolding(crate::specs::Arms::arms_of))]
fn arms_of(alloc: Global, value: &Value) -> Result<Vec<Vec<String>>, ReadFault>
    ensures { Reads (λ v. map arms_view v.items) (arms_of (view value.now)) result }
{
    match value.get("refused") {
        Some(_) => Ok(Vec::new(alloc)),
        None => functions_at(alloc, value),
    }
}

// The arms that a text tells.
fn told_arms(alloc: Global, text: &str) -> Result<Vec<Vec<String>>, ReadFault>
    ensures { Reads (λ v. map arms_view v.items) (option_and_then arms_of (read_skimmed text.now)) result }
{
    match value_of(alloc, text) {
        Ok(value) => arms_of(alloc, &value),
        Err(fault) => Err(fault),
    }
}

/// The arms that a report of `arms` tells, as patterns: those of each function in the file's order, and none of a function
/// that is refused. An empty text tells of no function. `NoReport` says that the text is no such report.
pub fn read_arms(alloc: Global, text: &str) -> Result<Vec<Vec<String>>, ReadFault>
    ensures { Reads (λ v. map arms_view v.items) (read_arms text.now) result }
{
    if text.is_empty() {
        Ok(Vec::new(alloc))
    } else {
        told_arms(alloc, text)
    }
}
