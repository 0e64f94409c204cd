// How many branches a place has, and which place is looked at next.
ghost use Rattle.std.specs.Prelude.{◌≡◌, ◌<◌, ◌++◌, List, Some, false, map, replicate, slice_get, length, get_or};
ghost use Rattle.std.specs.Prelude.{IfOk, OnOk};
ghost use Rattle.match_model.specs.DecisionTrees.{all_wild};
ghost use Rattle.match_model.specs.FewestBranches.{AreBranches, IsFewest};
ghost use Rattle.match_model.specs.Lowering.{ctors_at};
ghost use Rattle.match_model.specs.Places.{MStep};
ghost use Rattle.match_model.specs.Steps.{expand_head, rows_at};
ghost use Rattle.pat_context.specs.Views.{plain_ctor};
ghost use Rattle.keyed_matrix.specs.Views.{plain_column, plain_columns, plain_run, plain_heads, plain_row, plain_rows};
ghost use Rattle.keyed_matrix.specs.declared.rows.KeyedColumn.{KeyedColumn};
ghost use Rattle.keyed_matrix.specs.declared.rows.KeyedRow.{KeyedRow};
ghost use Rattle.decision_tree.specs.Asked.{asks};
ghost use Rattle.decision_tree.specs.Matrices.{IsTypedMatrix, fewer};

use crate::leaves::is_wild_pat;
use constructor_sets::present;
use keyed_matrix::{HeadRun, KeyedColumn, KeyedRow, column_ctors};
use no_memory::NoMemory;
use pat_context::{Ctor, PatCx};
use std::alloc::Global;

// Adds so many columns in which a row asks nothing.
fn add_quiet(all: &mut Vec<bool>, count: usize) -> Result<(), NoMemory>
    ensures { OnOk result (all.new.items ≡ all.old.items ++ replicate count false) }
{
    for _k in 0..count {
        all.push(false)?;
    }
    Ok(())
}

// Adds of each of the heads side by side whether it is neither a wildcard nor a name.
#[tactic(auto, using(crate::proofs::RunTests::run_tests))]
fn add_asked<'a, T: Copy>(all: &mut Vec<bool>, one: &HeadRun<'a, T>) -> Result<(), NoMemory>
    ensures { OnOk result (all.new.items ≡ all.old.items ++ map asks (plain_run one.now)) }
{
    match one {
        HeadRun::Wilds(count) => add_quiet(all, *count),
        HeadRun::Written(p) => {
            all.push(!is_wild_pat(*p))?;
            Ok(())
        }
    }
}

// Of each of the heads whether it is neither a wildcard nor a name.
fn asked_columns<'a, T: Copy>(
    alloc: Global,
    heads: &[HeadRun<'a, T>],
) -> Result<Vec<bool>, NoMemory>
    ensures { IfOk result (λ v. v.items ≡ map asks (plain_heads heads.now)) }
{
    let mut all = Vec::new(alloc);
    for one in heads {
        add_asked(&mut all, one)?;
    }
    Ok(all)
}

// How many branches the place of the column with the number has, where these are the constructors of the rows there once
// they are taken apart.
fn branches<'a, C: PatCx>(
    alloc: Global,
    cx: &C,
    columns: &[KeyedColumn<'a, C::Ty>],
    rows: &[KeyedRow<'a, C::Ty>],
    i: usize,
    ctors: &[Ctor<'a>],
) -> Result<usize, NoMemory>
    requires typed { IsTypedMatrix (C.is_type cx.now) (C.context cx.now) (plain_columns columns.now)
        (plain_rows rows.now) }
    requires within { i < length columns.now }
    requires ctors { (place : List MStep) → map plain_ctor ctors.now
        ≡ ctors_at i (rows_at expand_head place i (plain_rows rows.now)) }
    ensures { IfOk result (λ n. (c : KeyedColumn C.Ty) → slice_get columns.now i ≡ Some c
        → AreBranches (C.context cx.now) (C.is_value cx.now) i (plain_column c) (plain_rows rows.now) n) }
{
    let column = &columns[i];
    if ctors.is_empty() {
        return Ok(0);
    }
    let found = present(alloc, cx, column.ty, column.validity, ctors)?;
    let count = found.ctors.len();
    if found.missing {
        Ok(count + 1)
    } else {
        Ok(count)
    }
}

// The number of the column that is looked at next: of those where the first row has another pattern than a wildcard or a
// name, the leftmost with the fewest branches.
pub(crate) fn place_of<'a, C: PatCx>(
    alloc: Global,
    cx: &C,
    columns: &[KeyedColumn<'a, C::Ty>],
    rows: &[KeyedRow<'a, C::Ty>],
) -> Result<usize, NoMemory>
    requires typed { IsTypedMatrix (C.is_type cx.now) (C.context cx.now) (plain_columns columns.now)
        (plain_rows rows.now) }
    requires some { 0 < length rows.now }
    requires asked { (d : KeyedRow C.Ty) → all_wild (plain_row (get_or rows.now 0 d)) ≡ false }
    ensures { IfOk result (λ i. IsFewest (C.context cx.now) (C.is_value cx.now) (plain_columns columns.now)
        (plain_rows rows.now) i) }
{
    let asked = asked_columns(alloc, &rows[0].heads)?;
    let ctors = column_ctors(alloc, rows, &asked)?;
    let mut best = None;
    for i in 0..columns.len() {
        if asked[i] {
            let count = branches(alloc, cx, columns, rows, i, &ctors[i])?;
            best = fewer(best, i, count);
        }
    }
    match best {
        Some((i, _count)) => Ok(i),
        None => Ok(0),
    }
}

// The place with the fewest branches so far, or this one where it has fewer.
fn fewer(best: Option<(usize, usize)>, i: usize, count: usize) -> Option<(usize, usize)>
    ensures { result ≡ fewer best i count }
{
    match best {
        None => Some((i, count)),
        Some((at, fewest)) => {
            if count < fewest {
                Some((i, count))
            } else {
                Some((at, fewest))
            }
        }
    }
}
