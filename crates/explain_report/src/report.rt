// The whole report.
ghost use Rattle.std.specs.Prelude.{◌≡◌, map, codes};
ghost use Rattle.serde_json.specs.View.{view, items_view};
ghost use Rattle.explain_report.specs.Reading.{Reads, all_of, list_at, function_of, report_of};
ghost use Rattle.explain_report.specs.Records.{function_view, report_view};

use crate::fields::items_at;
use crate::judged::{function_of, refused_of};
use crate::records::{Function, ReadFault, Report};
use serde_json::Value;
use std::alloc::Global;

// The functions of a list.
fn all_functions<'a>(alloc: Global, items: &'a [Value]) -> Result<Vec<Function<'a>>, ReadFault>
    ensures { Reads (λ v. map function_view v.items) (all_of function_of (items_view items.now)) result }
{
    let mut all = Vec::with_capacity(alloc, items.len())?;
    for item in items {
        let function = function_of(alloc, item)?;
        all.push(function)?;
    }
    Ok(all)
}

// The functions of a report.
fn functions_at<'a>(alloc: Global, value: &'a Value) -> Result<Vec<Function<'a>>, ReadFault>
    ensures { Reads (λ v. map function_view v.items) (list_at function_of (codes "functions") (view value.now)) result }
{
    match items_at(value, "functions") {
        Some(items) => all_functions(alloc, items),
        None => Err(ReadFault::NoReport),
    }
}

/// The report that the JSON value is, with its texts borrowed from it. `NoReport` says that it is none.
#[tactic(auto, unfolding(crate::specs::Reading::report_of))]
pub fn report_of<'a>(alloc: Global, value: &'a Value) -> Result<Report<'a>, ReadFault>
    ensures { Reads report_view (report_of (view value.now)) result }
{
    match value.get("refused") {
        Some(refused) => match refused_of(refused) {
            Some(refused) => Ok(Report::Refused(refused)),
            None => Err(ReadFault::NoReport),
        },
        None => {
            let functions = functions_at(alloc, value)?;
            Ok(Report::Functions(functions))
        }
    }
}
