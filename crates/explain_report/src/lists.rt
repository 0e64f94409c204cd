// The lists of a function's entry.
ghost use Rattle.std.specs.Prelude.{◌≡◌, option_map, map, codes};
ghost use Rattle.serde_json.specs.View.{view, items_view};
ghost use Rattle.explain_report.specs.Reading.{Reads, all_of, list_at, witness_of, unreached_of, overlap_of};
ghost use Rattle.explain_report.specs.Records.{overlap_view};

use crate::fields::{flag_at, items_at, number_at, text_at};
use crate::records::{Overlap, ReadFault, Unreached};
use serde_json::Value;
use std::alloc::Global;

// A witness, as Rust writes it.
fn witness_of(value: &Value) -> Option<&str>
    ensures { option_map (λ t. t.now) result ≡ witness_of (view value.now) }
{
    text_at(value, "text")
}

// An arm or alternative to which no value comes.
fn unreached_of(value: &Value) -> Option<Unreached>
    ensures { result ≡ unreached_of (view value.now) }
{
    let arm = number_at(value, "arm")?;
    let at = number_at(value, "at")?;
    let whole = flag_at(value, "whole")?;
    Some(Unreached { arm, at, whole })
}

// Ranges that overlap.
fn overlap_of(value: &Value) -> Option<Overlap<'_>>
    ensures { option_map overlap_view result ≡ overlap_of (view value.now) }
{
    let at = number_at(value, "at")?;
    let with = number_at(value, "with")?;
    match text_at(value, "value") {
        Some(value) => Some(Overlap { at, with, value }),
        None => None,
    }
}

// The witnesses of a list.
fn all_witnesses<'a>(alloc: Global, items: &'a [Value]) -> Result<Vec<&'a str>, ReadFault>
    ensures { Reads (λ v. map (λ t. t.now) v.items) (all_of witness_of (items_view items.now)) result }
{
    let mut all = Vec::with_capacity(alloc, items.len())?;
    for item in items {
        match witness_of(item) {
            Some(witness) => all.push(witness)?,
            None => return Err(ReadFault::NoReport),
        }
    }
    Ok(all)
}

// What is unreachable, by a list.
fn all_unreached(alloc: Global, items: &[Value]) -> Result<Vec<Unreached>, ReadFault>
    ensures { Reads (λ v. v.items) (all_of unreached_of (items_view items.now)) result }
{
    let mut all = Vec::with_capacity(alloc, items.len())?;
    for item in items {
        match unreached_of(item) {
            Some(unreached) => all.push(unreached)?,
            None => return Err(ReadFault::NoReport),
        }
    }
    Ok(all)
}

// The overlaps of a list.
fn all_overlaps<'a>(alloc: Global, items: &'a [Value]) -> Result<Vec<Overlap<'a>>, ReadFault>
    ensures { Reads (λ v. map overlap_view v.items) (all_of overlap_of (items_view items.now)) result }
{
    let mut all = Vec::with_capacity(alloc, items.len())?;
    for item in items {
        match overlap_of(item) {
            Some(overlap) => all.push(overlap)?,
            None => return Err(ReadFault::NoReport),
        }
    }
    Ok(all)
}

// The witnesses of an entry.
pub(crate) fn witnesses_at<'a>(alloc: Global, value: &'a Value) -> Result<Vec<&'a str>, ReadFault>
    ensures { Reads (λ v. map (λ t. t.now) v.items) (list_at witness_of (codes "witnesses") (view value.now)) result }
{
    match items_at(value, "witnesses") {
        Some(items) => all_witnesses(alloc, items),
        None => Err(ReadFault::NoReport),
    }
}

// What is unreachable, by an entry.
pub(crate) fn unreached_at(alloc: Global, value: &Value) -> Result<Vec<Unreached>, ReadFault>
    ensures { Reads (λ v. v.items) (list_at unreached_of (codes "unreachable") (view value.now)) result }
{
    match items_at(value, "unreachable") {
        Some(items) => all_unreached(alloc, items),
        None => Err(ReadFault::NoReport),
    }
}

// The overlaps of an entry.
pub(crate) fn overlaps_at<'a>(
    alloc: Global,
    value: &'a Value,
) -> Result<Vec<Overlap<'a>>, ReadFault>
    ensures { Reads (λ v. map overlap_view v.items) (list_at overlap_of (codes "overlaps") (view value.now)) result }
{
    match items_at(value, "overlaps") {
        Some(items) => all_overlaps(alloc, items),
        None => Err(ReadFault::NoReport),
    }
}
