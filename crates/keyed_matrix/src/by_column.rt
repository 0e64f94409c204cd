// What stands in several columns once their or-patterns are taken apart.
ghost use Rattle.std.specs.Prelude.{◌≡◌, ◌<◌, ◌≤◌, ◌+◌, ◌∷◌, [], ℕ, List, true, Some, length, slice_get, IfOk, OnOk};
ghost use Rattle.std.specs.List.{All};
ghost use Rattle.match_model.specs.Lowering.{ctors_at};
ghost use Rattle.match_model.specs.Places.{MStep};
ghost use Rattle.match_model.specs.Steps.{expand_head, rows_at};
ghost use Rattle.pattern_arena.specs.Trees.{tree};
ghost use Rattle.keyed_matrix.specs.InColumns.{ctors_in, ctors_from, HaveMore};
ghost use Rattle.keyed_matrix.specs.Views.{plain_run, plain_heads, plain_rows};

use crate::heads::size_of;
use crate::taken_apart::add_pat_ctors;
use crate::{HeadRun, KeyedRow};
use no_memory::NoMemory;
use pat_context::Ctor;
use pattern_arena::DePat;
use std::alloc::Global;

/// A list for each column: where the column is wanted, the constructors there once its or-patterns are taken apart, those of
/// `ctors_at` for the rows that `expanded_rows` makes, in the same order, without making them. Each row has a head for each
/// column, and is walked over once. The only error is want of memory.
pub fn column_ctors<'a, T: Copy>(
    alloc: Global,
    rows: &[KeyedRow<'a, T>],
    wanted: &[bool],
) -> Result<Vec<Vec<Ctor<'a>>>, NoMemory>
    requires { All (λ r. length r.heads ≡ length wanted.now) (plain_rows rows.now) }
    ensures long { IfOk result (λ v. length v.items ≡ length wanted.now) }
    ensures ctors { IfOk result (λ v. (i : ℕ) (place : List MStep) → slice_get wanted.now i ≡ Some true
        → ctors_in v.items i ≡ ctors_at i (rows_at expand_head place i (plain_rows rows.now))) }
{
    let mut lists = no_ctors(alloc, wanted, rows.len().min(ROOM))?;
    for row in rows {
        add_row_ctors(&mut lists, wanted, &row.heads)?;
    }
    Ok(lists)
}

// For so many constructors the list of a wanted column has room at first, at most.
const ROOM: usize = 64;

// A list without a constructor for each column, with room for so many where the column is wanted.
fn no_ctors<'a>(alloc: Global, wanted: &[bool], room: usize) -> Result<Vec<Vec<Ctor<'a>>>, NoMemory>
    ensures long { IfOk result (λ v. length v.items ≡ length wanted.now) }
    ensures none { IfOk result (λ v. (i : ℕ) → ctors_in v.items i ≡ []) }
{
    let mut lists = Vec::with_capacity(alloc, wanted.len())?;
    for is_wanted in wanted {
        let list = room_for(alloc, *is_wanted, room)?;
        lists.push(list)?;
    }
    Ok(lists)
}

// No constructor, with room for so many where the column is wanted.
fn room_for<'a>(alloc: Global, is_wanted: bool, room: usize) -> Result<Vec<Ctor<'a>>, NoMemory>
    ensures { IfOk result (λ v. v.items ≡ []) }
{
    if is_wanted {
        let list = Vec::with_capacity(alloc, room)?;
        Ok(list)
    } else {
        Ok(Vec::new(alloc))
    }
}

// Adds to the list of each wanted column the constructors that the heads have there, once they are taken apart.
fn add_row_ctors<'a, T: Copy>(
    lists: &mut Vec<Vec<Ctor<'a>>>,
    wanted: &[bool],
    heads: &[HeadRun<'a, T>],
) -> Result<(), NoMemory>
    requires lists { length lists.old.items ≡ length wanted.now }
    requires heads { length (plain_heads heads.now) ≡ length wanted.now }
    ensures { OnOk result (HaveMore wanted.now lists.old.items lists.new.items (ctors_from 0 (plain_heads heads.now))) }
{
    let mut at = 0;
    for one in heads {
        add_run_ctors(lists, wanted, at, one)?;
        at += size_of(one);
    }
    Ok(())
}

// The same for heads side by side, of which the first stands in the column with the number.
fn add_run_ctors<'a, T: Copy>(
    lists: &mut Vec<Vec<Ctor<'a>>>,
    wanted: &[bool],
    at: usize,
    one: &HeadRun<'a, T>,
) -> Result<(), NoMemory>
    requires lists { length lists.old.items ≡ length wanted.now }
    requires within { at + length (plain_run one.now) ≤ length wanted.now }
    ensures { OnOk result (HaveMore wanted.now lists.old.items lists.new.items (ctors_from at (plain_run one.now))) }
{
    match one {
        HeadRun::Wilds(_count) => Ok(()),
        HeadRun::Written(p) => add_column_ctors(lists, wanted, at, *p),
    }
}

// The same for the pattern in the column with the number.
fn add_column_ctors<'a, T: Copy>(
    lists: &mut Vec<Vec<Ctor<'a>>>,
    wanted: &[bool],
    at: usize,
    p: &'a DePat<'a, T>,
) -> Result<(), NoMemory>
    requires lists { length lists.old.items ≡ length wanted.now }
    requires within { at < length wanted.now }
    ensures { OnOk result (HaveMore wanted.now lists.old.items lists.new.items
        (ctors_from at (Some (tree p.entry.now) ∷ []))) }
{
    if wanted[at] {
        add_pat_ctors(&mut lists[at], p)
    } else {
        Ok(())
    }
}
