// The heads of a row, side by side.
ghost use Rattle.std.specs.Prelude.{◌≡◌, ◌<◌, ◌+◌, ℕ, ◌++◌, length, take, drop, get_or, Some, slice_get, IfOk, IfSome, OnOk};
ghost use Rattle.match_model.specs.Rows.{wildcards};
ghost use Rattle.match_model.specs.Steps.{replaced_at};
ghost use Rattle.keyed_matrix.specs.declared.rows.HeadRun.{HeadRun};
ghost use Rattle.keyed_matrix.specs.Views.{plain_head, plain_run, plain_heads, plain_row};

use crate::{HeadRun, KeyedRow};
use no_memory::NoMemory;
use pattern_arena::DePat;
use std::alloc::Global;

/// How many heads these are. It takes no memory.
#[tactic(auto, using(crate::proofs::HeadRuns::head_runs))]
pub fn size_of<'a, T: Copy>(one: &HeadRun<'a, T>) -> usize
    ensures { result ≡ length (plain_run one.now) }
{
    match one {
        HeadRun::Wilds(count) => *count,
        HeadRun::Written(_p) => 1,
    }
}

// The head with the number among these, of which it is one.
#[tactic(auto, using(crate::proofs::HeadRuns::head_runs))]
fn head_in<'a, T: Copy>(one: &HeadRun<'a, T>, i: usize) -> Option<&'a DePat<'a, T>>
    requires { i < length (plain_run one.now) }
    ensures { slice_get (plain_run one.now) i ≡ Some (plain_head result) }
{
    match one {
        HeadRun::Wilds(_count) => None,
        HeadRun::Written(p) => Some(*p),
    }
}

// Where the head with the number stands: among which of the heads that stand side by side, and behind how many of those.
fn run_of<'a, T: Copy>(heads: &[HeadRun<'a, T>], i: usize) -> (usize, usize)
    requires { i < length (plain_heads heads.now) }
    ensures within { result.0 < length heads.now }
    ensures before { i ≡ length (plain_heads (take result.0 heads.now)) + result.1 }
    ensures inside { (d : HeadRun T) → result.1 < length (plain_run (get_or heads.now result.0 d)) }
{
    let mut left = i;
    for k in 0..heads.len() {
        let size = size_of(&heads[k]);
        if left < size {
            return (k, left);
        }
        left -= size;
    }
    (0, 0)
}

/// The pattern of the row in the column with this number, from 0; none where a wildcard stands that no pattern wrote. The row
/// has a head in the column. The runs before it are walked over. It takes no memory.
pub fn head_at<'a, T: Copy>(row: &KeyedRow<'a, T>, i: usize) -> Option<&'a DePat<'a, T>>
    requires { i < length (plain_row row.now).heads }
    ensures { slice_get (plain_row row.now).heads i ≡ Some (plain_head result) }
{
    let (k, left) = run_of(&row.heads, i);
    head_in(&row.heads[k], left)
}

// The wildcards with so many more, where these are wildcards and so many can be counted.
#[tactic(auto, using(crate::proofs::HeadRuns::head_runs))]
fn longer<'a, T: Copy>(one: &HeadRun<'a, T>, count: usize) -> Option<HeadRun<'a, T>>
    ensures { IfSome result (λ h. plain_run h ≡ plain_run one.now ++ wildcards count) }
{
    match one {
        HeadRun::Wilds(before) => {
            if *before > usize::MAX - count {
                None
            } else {
                Some(HeadRun::Wilds(*before + count))
            }
        }
        HeadRun::Written(_p) => None,
    }
}

/// Adds so many wildcards that no pattern wrote. The only error is want of memory.
#[tactic(auto, using(crate::proofs::HeadRuns::head_runs))]
pub fn add_wilds<'a, T: Copy>(all: &mut Vec<HeadRun<'a, T>>, count: usize) -> Result<(), NoMemory>
    ensures { OnOk result (plain_heads all.new.items ≡ plain_heads all.old.items ++ wildcards count) }
{
    if count == 0 {
        return Ok(());
    }
    match all.pop() {
        None => {
            all.push(HeadRun::Wilds(count))?;
            Ok(())
        }
        Some(last) => match longer(&last, count) {
            Some(more) => {
                all.push(more)?;
                Ok(())
            }
            None => {
                all.push(last)?;
                all.push(HeadRun::Wilds(count))?;
                Ok(())
            }
        },
    }
}

// Adds the heads of a run. Wildcards are joined to those that stand last.
#[tactic(auto, using(crate::proofs::HeadRuns::head_runs))]
fn add_run<'a, T: Copy>(all: &mut Vec<HeadRun<'a, T>>, one: &HeadRun<'a, T>) -> Result<(), NoMemory>
    ensures { OnOk result (plain_heads all.new.items ≡ plain_heads all.old.items ++ plain_run one.now) }
{
    match one {
        HeadRun::Wilds(count) => add_wilds(all, *count),
        HeadRun::Written(p) => {
            all.push(HeadRun::Written(*p))?;
            Ok(())
        }
    }
}

// Adds all of the heads. Wildcards that stand first are joined to those that stand last; the other runs stay as they are.
fn add_rest<'a, T: Copy>(
    all: &mut Vec<HeadRun<'a, T>>,
    heads: &[HeadRun<'a, T>],
) -> Result<(), NoMemory>
    ensures { OnOk result (plain_heads all.new.items ≡ plain_heads all.old.items ++ plain_heads heads.now) }
{
    let count = heads.len();
    if count == 0 {
        return Ok(());
    }
    add_run(all, &heads[0])?;
    all.extend_from_slice(&heads[1..])?;
    Ok(())
}

// Adds the first so many of these heads, of which there are more.
#[tactic(auto, using(crate::proofs::HeadRuns::head_runs))]
fn add_start<'a, T: Copy>(
    all: &mut Vec<HeadRun<'a, T>>,
    one: &HeadRun<'a, T>,
    count: usize,
) -> Result<(), NoMemory>
    requires { count < length (plain_run one.now) }
    ensures { OnOk result (plain_heads all.new.items ≡ plain_heads all.old.items ++ take count (plain_run one.now)) }
{
    match one {
        HeadRun::Wilds(_size) => add_wilds(all, count),
        HeadRun::Written(_p) => Ok(()),
    }
}

// Adds those of these heads that stand behind the one with the number.
#[tactic(auto, using(crate::proofs::HeadRuns::head_runs))]
fn add_end<'a, T: Copy>(
    all: &mut Vec<HeadRun<'a, T>>,
    one: &HeadRun<'a, T>,
    i: usize,
) -> Result<(), NoMemory>
    requires { i < length (plain_run one.now) }
    ensures { OnOk result (plain_heads all.new.items ≡ plain_heads all.old.items ++ drop (i + 1) (plain_run one.now)) }
{
    match one {
        HeadRun::Wilds(size) => add_wilds(all, *size - 1 - i),
        HeadRun::Written(_p) => Ok(()),
    }
}

/// The heads with these in place of the head with the number, from 0, which is one of them. The only error is want of memory.
pub fn replaced_heads<'a, T: Copy>(
    alloc: Global,
    heads: &[HeadRun<'a, T>],
    i: usize,
    new: &[HeadRun<'a, T>],
) -> Result<Vec<HeadRun<'a, T>>, NoMemory>
    requires { i < length (plain_heads heads.now) }
    ensures { IfOk result (λ v. plain_heads v.items ≡ replaced_at i (plain_heads heads.now) (plain_heads new.now)) }
{
    let (k, left) = run_of(heads, i);
    let one = &heads[k];
    let room = heads.len().saturating_add(new.len()).saturating_add(1);
    let mut all = Vec::with_capacity(alloc, room)?;
    all.extend_from_slice(&heads[..k])?;
    add_start(&mut all, one, left)?;
    add_rest(&mut all, new)?;
    add_end(&mut all, one, left)?;
    add_rest(&mut all, &heads[k + 1..])?;
    Ok(all)
}

// How many wildcards stand there with so many in place of one of these, where these are wildcards that no pattern wrote and so
// many can be counted.
#[tactic(auto, using(crate::proofs::HeadRuns::head_runs))]
fn recounted<'a, T: Copy>(one: &HeadRun<'a, T>, count: usize) -> Option<usize>
    requires { 0 < length (plain_run one.now) }
    ensures { IfSome result (λ n. (left : ℕ) → left < length (plain_run one.now) → wildcards n
        ≡ (take left (plain_run one.now) ++ wildcards count) ++ drop (left + 1) (plain_run one.now)) }
{
    match one {
        HeadRun::Wilds(size) => {
            let others = *size - 1;
            if count > usize::MAX - others {
                None
            } else {
                Some(others + count)
            }
        }
        HeadRun::Written(_p) => None,
    }
}

// Adds a run of so many wildcards that no pattern wrote, or none where they are none.
#[tactic(auto, using(crate::proofs::HeadRuns::head_runs))]
fn add_wild_run<'a, T: Copy>(all: &mut Vec<HeadRun<'a, T>>, count: usize) -> Result<(), NoMemory>
    ensures { OnOk result (plain_heads all.new.items ≡ plain_heads all.old.items ++ wildcards count) }
{
    if count == 0 {
        return Ok(());
    }
    all.push(HeadRun::Wilds(count))?;
    Ok(())
}

// The heads with so many wildcards that no pattern wrote in place of the run with the number. There is room for one more run.
fn with_wilds<'a, T: Copy>(
    alloc: Global,
    heads: &[HeadRun<'a, T>],
    k: usize,
    count: usize,
) -> Result<Vec<HeadRun<'a, T>>, NoMemory>
    requires { k < length heads.now }
    ensures { IfOk result (λ v. plain_heads v.items
        ≡ plain_heads (take k heads.now) ++ (wildcards count ++ plain_heads (drop (k + 1) heads.now))) }
{
    let room = heads.len().saturating_add(1);
    let mut all = Vec::with_capacity(alloc, room)?;
    all.extend_from_slice(&heads[..k])?;
    add_wild_run(&mut all, count)?;
    all.extend_from_slice(&heads[k + 1..])?;
    Ok(all)
}

/// The heads with so many wildcards that no pattern wrote in place of the head with the number, from 0, which is one of them.
/// The only error is want of memory.
pub fn rewilded_heads<'a, T: Copy>(
    alloc: Global,
    heads: &[HeadRun<'a, T>],
    i: usize,
    count: usize,
) -> Result<Vec<HeadRun<'a, T>>, NoMemory>
    requires { i < length (plain_heads heads.now) }
    ensures { IfOk result (λ v. plain_heads v.items ≡ replaced_at i (plain_heads heads.now) (wildcards count)) }
{
    let (k, _left) = run_of(heads, i);
    match recounted(&heads[k], count) {
        Some(total) => {
            let some = with_wilds(alloc, heads, k, total)?;
            Ok(some)
        }
        None => {
            let mut wilds = Vec::new(alloc);
            add_wilds(&mut wilds, count)?;
            let others = replaced_heads(alloc, heads, i, &wilds)?;
            Ok(others)
        }
    }
}

// Puts so many wildcards that no pattern wrote in place of the run with the number.
fn put_wilds<'a, T: Copy>(
    heads: &mut Vec<HeadRun<'a, T>>,
    k: usize,
    count: usize,
) -> Result<(), NoMemory>
    requires { k < length heads.old.items }
    ensures { OnOk result (plain_heads heads.new.items
        ≡ plain_heads (take k heads.old.items) ++ (wildcards count ++ plain_heads (drop (k + 1) heads.old.items))) }
{
    if count == 0 {
        let _before = heads.remove(k);
        Ok(())
    } else {
        heads.push(HeadRun::Wilds(count))?;
        let _before = heads.swap_remove(k);
        Ok(())
    }
}

// The heads with so many wildcards that no pattern wrote in place of the head with the number, which is one of them. Where
// wildcards stand there, only how many there are changes.
pub(crate) fn into_rewilded_heads<'a, T: Copy>(
    alloc: Global,
    heads: Vec<HeadRun<'a, T>>,
    i: usize,
    count: usize,
) -> Result<Vec<HeadRun<'a, T>>, NoMemory>
    requires { i < length (plain_heads heads.items) }
    ensures { IfOk result (λ v. plain_heads v.items ≡ replaced_at i (plain_heads heads.entry.items) (wildcards count)) }
{
    let (k, _left) = run_of(&heads, i);
    match recounted(&heads[k], count) {
        Some(total) => {
            let mut heads = heads;
            put_wilds(&mut heads, k, total)?;
            Ok(heads)
        }
        None => {
            let others = rewilded_heads(alloc, &heads, i, count)?;
            Ok(others)
        }
    }
}
