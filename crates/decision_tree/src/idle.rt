// Rows that are taken whatever piece of a column is entered, and that bind nothing in the columns that are open then: what
// they bind asks for none of these columns, nor for their places.
ghost use Rattle.std.specs.Prelude.{cond, ◌≡◌, ◌<◌, ◌≤◌, ◌+◌, ◌++◌, ◌&&◌, length, map, take, drop, Some, IfOk, OnOk};
ghost use Rattle.std.specs.List.{All, list_all};
ghost use Rattle.match_model.specs.DecisionTrees.{by_name};
ghost use Rattle.match_model.specs.Matrices.{head_binds};
ghost use Rattle.pat_context.specs.Views.{plain_place};
ghost use Rattle.pattern_arena.specs.Trees.{tree};
ghost use Rattle.keyed_matrix.specs.Steps.{AreLonger};
ghost use Rattle.keyed_matrix.specs.Views.{plain_head, plain_run, plain_heads, plain_row};
ghost use Rattle.tree_eval.specs.Nodes.{plain_bind};
ghost use Rattle.decision_tree.specs.Cutting.{parts_pass, count_unless, takes_by};
ghost use Rattle.decision_tree.specs.Idle.{is_idle, is_idle_alone};
ghost use Rattle.decision_tree.specs.Matrices.{matrix_rows};

use crate::binds::{add_caught, add_own, ascending};
use crate::frames::Matrix;
use crate::thin::is_blank;
use keyed_matrix::{HeadRun, KeyedRow, head_at};
use no_memory::NoMemory;
use pat_context::Step;
use pattern_arena::DePat;
use std::alloc::Global;
use tree_eval::Bind;

// Tells whether the patterns are wildcards that bind nothing.
fn are_blank<'a, T: Copy>(pats: &[DePat<'a, T>]) -> bool
    ensures { result ≡ list_all is_idle (map (λ p. Some (tree p)) pats.now) }
{
    for pat in pats {
        if !is_blank(pat) {
            return false;
        }
    }
    true
}

// How many of the heads side by side ask or bind something.
#[tactic(auto, using(crate::proofs::RunTests::run_tests))]
fn busy_in<'a, T: Copy>(one: &HeadRun<'a, T>) -> usize
    ensures is { result ≡ count_unless is_idle (plain_run one.now) }
    ensures few { result ≤ 1 }
{
    match one {
        HeadRun::Wilds(_count) => 0,
        HeadRun::Written(p) => { if is_blank(*p) { 0 } else { 1 } }
    }
}

// How many of the heads do.
fn count_busy<'a, T: Copy>(heads: &[HeadRun<'a, T>]) -> usize
    ensures { result ≡ count_unless is_idle (plain_heads heads.now) }
{
    let mut count = 0;
    for one in heads {
        count += busy_in(one);
    }
    count
}

// How many heads the head is that ask or bind something.
fn own_busy<'a, T: Copy>(head: &Option<&'a DePat<'a, T>>) -> usize
    ensures { result ≡ cond (is_idle (plain_head head.now)) 0 1 }
{
    match head {
        None => 0,
        Some(p) => { if is_blank(*p) { 0 } else { 1 } }
    }
}

// Tells whether the patterns below the head are wildcards that bind nothing.
fn has_idle_parts<'a, T: Copy>(head: Option<&'a DePat<'a, T>>) -> bool
    ensures { result ≡ parts_pass is_idle (plain_head head.entry) }
{
    match head {
        None => true,
        Some(p) => are_blank(p.form.subs),
    }
}

// Tells whether all heads of the row but that with the number ask and bind nothing.
fn are_idle_beside<'a, T: Copy>(row: &KeyedRow<'a, T>, i: usize) -> bool
    requires { i < length (plain_row row.now).heads }
    ensures { result ≡ (list_all is_idle (take i (plain_row row.now).heads)
        && list_all is_idle (drop (i + 1) (plain_row row.now).heads)) }
{
    let head = head_at(row, i);
    count_busy(&row.heads) == own_busy(&head)
}

// Tells whether the row is taken, whatever piece of the column is entered that it has, and binds nothing in what is open then.
fn takes_idly<'a, T: Copy>(row: &KeyedRow<'a, T>, i: usize) -> bool
    requires { i < length (plain_row row.now).heads }
    ensures { result ≡ takes_by is_idle i (plain_row row.now) }
{
    if row.guarded {
        return false;
    }
    if !has_idle_parts(head_at(row, i)) {
        return false;
    }
    are_idle_beside(row, i)
}

// What the row binds where this head of it, in the column with the place, is replaced, and no other head binds anything.
pub(crate) fn idle_binds<'a, T: Copy>(
    alloc: Global,
    row: &KeyedRow<'a, T>,
    head: Option<&'a DePat<'a, T>>,
    place: &[Step],
) -> Result<Vec<Bind>, NoMemory>
    ensures { IfOk result (λ v. map plain_bind v.items ≡ by_name ((plain_row row.now).caught
        ++ head_binds (plain_place place.now) (plain_head head.entry))) }
{
    let mut all = Vec::new(alloc);
    add_caught(alloc, &mut all, &row.caught)?;
    add_head(alloc, &mut all, place, head)?;
    ascending(alloc, all)
}

// Adds the names that the head binds by itself, at the place.
fn add_head<'a, T: Copy>(
    alloc: Global,
    all: &mut Vec<Bind>,
    place: &[Step],
    head: Option<&'a DePat<'a, T>>,
) -> Result<(), NoMemory>
    ensures { OnOk result (map plain_bind all.new.items ≡ map plain_bind all.old.items
        ++ head_binds (plain_place place.now) (plain_head head.entry)) }
{
    match head {
        None => Ok(()),
        Some(p) => add_own(alloc, all, place, p),
    }
}

// Tells whether there is one number, and its row is such a row.
pub(crate) fn is_idle_alone<'a, T: Copy>(m: &Matrix<'a, T>, i: usize, numbers: &Vec<usize>) -> bool
    requires longer { AreLonger i (matrix_rows m.now) }
    requires within { All (λ k. k < length m.now.rows.items) numbers.now.items }
    ensures { result ≡ is_idle_alone i (matrix_rows m.now) numbers.now.items }
{
    if numbers.len() != 1 {
        return false;
    }
    takes_idly(&m.rows[numbers[0]], i)
}
