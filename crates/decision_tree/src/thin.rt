// Wildcards that bind nothing go: no rule tells them from wildcards that no pattern wrote, so the tree is the same, and
// none of their patterns is looked at again.
ghost use Rattle.std.specs.Prelude.{◌≡◌, ◌++◌, map, IfOk, OnOk};
ghost use Rattle.std.specs.List.{list_any};
ghost use Rattle.match_model.specs.Rows.{wildcards};
ghost use Rattle.pattern_arena.specs.Trees.{tree};
ghost use Rattle.keyed_matrix.specs.Views.{plain_run, plain_heads, plain_row, plain_rows};
ghost use Rattle.decision_tree.specs.Thin.{is_blank, is_blank_head, thin_head, thin_row, thin_rows};

use keyed_matrix::{HeadRun, KeyedRow, add_wilds};
use no_memory::NoMemory;
use pat_context::Ctor;
use pattern_arena::DePat;
use std::alloc::Global;

// Tells whether the pattern is a wildcard that binds nothing.
pub(crate) fn is_blank<'a, T: Copy>(pat: &DePat<'a, T>) -> bool
    ensures { result ≡ is_blank (tree pat.now) }
{
    match pat.form.ctor {
        Ctor::Wild => pat.form.subs.is_empty() && pat.form.binds.is_empty(),
        _ => false,
    }
}

// Tells whether such a wildcard stands among the heads side by side.
#[tactic(auto, using(crate::proofs::RunTests::run_tests))]
fn has_blank<'a, T: Copy>(one: &HeadRun<'a, T>) -> bool
    ensures { result ≡ list_any is_blank_head (plain_run one.now) }
{
    match one {
        HeadRun::Wilds(_count) => false,
        HeadRun::Written(p) => is_blank(*p),
    }
}

// Tells whether such a wildcard stands among the heads.
fn have_blank<'a, T: Copy>(heads: &[HeadRun<'a, T>]) -> bool
    ensures { result ≡ list_any is_blank_head (plain_heads heads.now) }
{
    for one in heads {
        if has_blank(one) {
            return true;
        }
    }
    false
}

// How many wildcards wait to be added when so many more do; where they cannot be counted, those before are added.
#[tactic(auto, using(crate::proofs::RunTests::run_tests))]
fn more_wilds<'a, T: Copy>(
    all: &mut Vec<HeadRun<'a, T>>,
    waiting: usize,
    count: usize,
) -> Result<usize, NoMemory>
    ensures { IfOk result (λ n. plain_heads all.new.items ++ wildcards n
        ≡ (plain_heads all.old.items ++ wildcards waiting) ++ wildcards count) }
{
    match waiting.checked_add(count) {
        Some(sum) => Ok(sum),
        None => {
            add_wilds(all, waiting)?;
            Ok(count)
        }
    }
}

// Adds the heads side by side without such wildcards, behind so many that wait to be added. Gives how many wait then.
#[tactic(auto, using(crate::proofs::RunTests::run_tests))]
fn add_thin<'a, T: Copy>(
    all: &mut Vec<HeadRun<'a, T>>,
    waiting: usize,
    one: &HeadRun<'a, T>,
) -> Result<usize, NoMemory>
    ensures { IfOk result (λ n. plain_heads all.new.items ++ wildcards n
        ≡ (plain_heads all.old.items ++ wildcards waiting) ++ map thin_head (plain_run one.now)) }
{
    match one {
        HeadRun::Wilds(count) => more_wilds(all, waiting, *count),
        HeadRun::Written(p) => {
            if is_blank(*p) {
                return more_wilds(all, waiting, 1);
            }
            add_wilds(all, waiting)?;
            all.push(HeadRun::Written(*p))?;
            Ok(0)
        }
    }
}

// For so many runs of heads a row has room at first: with fewer, most lists would grow once.
pub(crate) const ROOM: usize = 8;

// The heads without such wildcards.
fn thin_heads<'a, T: Copy>(
    alloc: Global,
    heads: &[HeadRun<'a, T>],
) -> Result<Vec<HeadRun<'a, T>>, NoMemory>
    ensures { IfOk result (λ v. plain_heads v.items ≡ map thin_head (plain_heads heads.now)) }
{
    let mut all = Vec::with_capacity(alloc, ROOM)?;
    let mut waiting = 0;
    for one in heads {
        waiting = add_thin(&mut all, waiting, one)?;
    }
    add_wilds(&mut all, waiting)?;
    Ok(all)
}

// Takes such wildcards out of the row.
fn make_thin<'a, T: Copy>(alloc: Global, row: &mut KeyedRow<'a, T>) -> Result<(), NoMemory>
    ensures { OnOk result (plain_row row.new ≡ thin_row (plain_row row.old)) }
{
    if have_blank(&row.heads) {
        row.heads = thin_heads(alloc, &row.heads)?;
    }
    Ok(())
}

// The rows without such wildcards.
pub(crate) fn thin_rows<'a, T: Copy>(
    alloc: Global,
    rows: Vec<KeyedRow<'a, T>>,
) -> Result<Vec<KeyedRow<'a, T>>, NoMemory>
    ensures { IfOk result (λ v. plain_rows v.items ≡ thin_rows (plain_rows rows.entry.items)) }
{
    let mut rows = rows;
    for i in 0..rows.len() {
        make_thin(alloc, &mut rows[i])?;
    }
    Ok(rows)
}
