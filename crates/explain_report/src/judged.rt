// The entry of a function.
ghost use Rattle.std.specs.Prelude.{◌≡◌, option_map, codes};
ghost use Rattle.serde_json.specs.View.{view};
ghost use Rattle.serde_json.specs.Find.{get};
ghost use Rattle.explain_report.specs.Fields.{place_at};
ghost use Rattle.explain_report.specs.Reading.{Reads, refused_from, refused_of, judged_of, verdict_from, function_of};
ghost use Rattle.explain_report.specs.Records.{refused_view, judged_view, verdict_view, function_view};

use crate::fields::{flag_at, number_at, place_at, text_at};
use crate::lists::{overlaps_at, unreached_at, witnesses_at};
use crate::records::{Function, Judged, ReadFault, Refused, Verdict};
use serde_json::Value;
use std::alloc::Global;

// A broken rule of this name.
fn refused_by<'a>(value: &'a Value, rule: u64, name: &'a str) -> Option<Refused<'a>>
    ensures { option_map refused_view result ≡ refused_from rule name.now (place_at (codes "item") (view value.now))
        (place_at (codes "arm") (view value.now)) (place_at (codes "at") (view value.now)) }
{
    let item = place_at(value, "item")?;
    let arm = place_at(value, "arm")?;
    let at = place_at(value, "at")?;
    Some(Refused {
        rule,
        name,
        item,
        arm,
        at,
    })
}

// A broken rule.
pub(crate) fn refused_of(value: &Value) -> Option<Refused<'_>>
    ensures { option_map refused_view result ≡ refused_of (view value.now) }
{
    let rule = number_at(value, "rule")?;
    match text_at(value, "name") {
        Some(name) => refused_by(value, rule, name),
        None => None,
    }
}

// What is found of a match.
fn judged_of<'a>(alloc: Global, value: &'a Value) -> Result<Judged<'a>, ReadFault>
    ensures { Reads judged_view (judged_of (view value.now)) result }
{
    match flag_at(value, "exhaustive") {
        Some(exhaustive) => {
            let overlaps = overlaps_at(alloc, value)?;
            let unreachable = unreached_at(alloc, value)?;
            let witnesses = witnesses_at(alloc, value)?;
            Ok(Judged {
                exhaustive,
                overlaps,
                unreachable,
                witnesses,
            })
        }
        None => Err(ReadFault::NoReport),
    }
}

// What is said of a function.
fn verdict_of<'a>(alloc: Global, value: &'a Value) -> Result<Verdict<'a>, ReadFault>
    ensures { Reads verdict_view (verdict_from (get (codes "refused") (view value.now)) (view value.now)) result }
{
    match value.get("refused") {
        Some(refused) => match refused_of(refused) {
            Some(refused) => Ok(Verdict::Refused(refused)),
            None => Err(ReadFault::NoReport),
        },
        None => {
            let judged = judged_of(alloc, value)?;
            Ok(Verdict::Judged(judged))
        }
    }
}

// A function.
pub(crate) fn function_of<'a>(alloc: Global, value: &'a Value) -> Result<Function<'a>, ReadFault>
    ensures { Reads function_view (function_of (view value.now)) result }
{
    match text_at(value, "name") {
        Some(name) => {
            let verdict = verdict_of(alloc, value)?;
            Ok(Function { name, verdict })
        }
        None => Err(ReadFault::NoReport),
    }
}
