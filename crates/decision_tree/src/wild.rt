// Columns in which every row has a wildcard or a name: a tree asks nothing there, so it is that of the rows without them.
ghost use Rattle.std.specs.Prelude.{◌≡◌, ◌<◌, ◌≤◌, ◌+◌, ◌++◌, ◌∷◌, [], Some, map, drop, length, IfOk, OnOk};
ghost use Rattle.std.specs.List.{All, list_any};
ghost use Rattle.match_model.specs.Matrices.{bind_at};
ghost use Rattle.pat_context.specs.Views.{plain_place};
ghost use Rattle.pattern_arena.specs.Trees.{tree, plain_bound};
ghost use Rattle.keyed_matrix.specs.Views.{plain_caught, plain_columns, plain_run, plain_heads, plain_row, plain_rows};
ghost use Rattle.decision_tree.specs.Matrices.{matrix_columns, matrix_rows};
ghost use Rattle.decision_tree.specs.WildColumns.{unmarked, marked_binds, unmarked_row, AreAsLong, AreLeftOut};
ghost use Rattle.decision_tree.specs.WildColumns.{StayWhereWild, AreWildMarks};

use crate::frames::Matrix;
use crate::leaves::is_wild_pat;
use crate::thin::ROOM;
use keyed_matrix::{Caught, HeadRun, KeyedColumn, KeyedRow, add_wilds, size_of};
use no_memory::NoMemory;
use pat_context::Step;
use pattern_arena::{Bound, DePat};
use std::alloc::Global;
use std::mem::{replace, swap};

// Adds the names, caught at the place.
fn add_names<'a>(
    all: &mut Vec<Caught<'a>>,
    binds: &[Bound<'a>],
    place: &'a [Step],
) -> Result<(), NoMemory>
    ensures { OnOk result (map plain_caught all.new.items
        ≡ map plain_caught all.old.items ++ map (bind_at (plain_place place.now)) (map plain_bound binds.now)) }
{
    for bound in binds {
        all.push(Caught {
            bound: *bound,
            place,
        })?;
    }
    Ok(())
}

// How many of the columns are not marked.
fn count_unmarked(marks: &[bool]) -> usize
    ensures { result ≡ length (unmarked marks.now marks.now) }
{
    let mut count = 0;
    for mark in marks {
        if !*mark {
            count += 1;
        }
    }
    count
}

// Adds those of the heads that do not stand in a marked column; the first stands in the column with the number.
fn add_unmarked<'a, T: Copy>(
    all: &mut Vec<HeadRun<'a, T>>,
    marks: &[bool],
    at: usize,
    one: &HeadRun<'a, T>,
) -> Result<(), NoMemory>
    requires { at + length (plain_run one.now) ≤ length marks.now }
    ensures { OnOk result (plain_heads all.new.items
        ≡ plain_heads all.old.items ++ unmarked (drop at marks.now) (plain_run one.now)) }
{
    match one {
        HeadRun::Wilds(count) => {
            let end = at + *count;
            add_wilds(all, count_unmarked(&marks[at..end]))
        }
        HeadRun::Written(p) => {
            if !marks[at] {
                all.push(HeadRun::Written(*p))?;
            }
            Ok(())
        }
    }
}

// Lists the heads that do not stand in a marked column, in place of what was listed.
fn list_unmarked<'a, T: Copy>(
    all: &mut Vec<HeadRun<'a, T>>,
    marks: &[bool],
    heads: &[HeadRun<'a, T>],
) -> Result<(), NoMemory>
    requires { length (plain_heads heads.now) ≡ length marks.now }
    ensures { OnOk result (plain_heads all.new.items ≡ unmarked marks.now (plain_heads heads.now)) }
{
    all.clear();
    let mut at = 0;
    for one in heads {
        add_unmarked(all, marks, at, one)?;
        at += size_of(one);
    }
    Ok(())
}

// Adds the names that the heads bind in marked columns; the first stands in the column with the number.
fn add_marked<'a, T: Copy>(
    all: &mut Vec<Caught<'a>>,
    marks: &[bool],
    columns: &[KeyedColumn<'a, T>],
    at: usize,
    one: &HeadRun<'a, T>,
) -> Result<(), NoMemory>
    requires within { at + length (plain_run one.now) ≤ length marks.now }
    requires long { length columns.now ≡ length marks.now }
    ensures { OnOk result (map plain_caught all.new.items ≡ map plain_caught all.old.items
        ++ marked_binds (drop at marks.now) (drop at (plain_columns columns.now)) (plain_run one.now)) }
{
    match one {
        HeadRun::Wilds(_count) => Ok(()),
        HeadRun::Written(p) => {
            if marks[at] {
                add_names(all, p.form.binds, columns[at].place)
            } else {
                Ok(())
            }
        }
    }
}

// The names that the heads bind in marked columns.
fn marked_names<'a, T: Copy>(
    alloc: Global,
    marks: &[bool],
    columns: &[KeyedColumn<'a, T>],
    heads: &[HeadRun<'a, T>],
) -> Result<Vec<Caught<'a>>, NoMemory>
    requires heads { length (plain_heads heads.now) ≡ length marks.now }
    requires long { length columns.now ≡ length marks.now }
    ensures { IfOk result (λ v. map plain_caught v.items
        ≡ marked_binds marks.now (plain_columns columns.now) (plain_heads heads.now)) }
{
    let mut all = Vec::new(alloc);
    let mut at = 0;
    for one in heads {
        add_marked(&mut all, marks, columns, at, one)?;
        at += size_of(one);
    }
    Ok(all)
}

// The names that the heads bind in marked columns, and then those that are caught.
fn more_caught<'a, T: Copy>(
    alloc: Global,
    marks: &[bool],
    columns: &[KeyedColumn<'a, T>],
    heads: &[HeadRun<'a, T>],
    caught: Vec<Caught<'a>>,
) -> Result<Vec<Caught<'a>>, NoMemory>
    requires heads { length (plain_heads heads.now) ≡ length marks.now }
    requires long { length columns.now ≡ length marks.now }
    ensures { IfOk result (λ v. map plain_caught v.items
        ≡ marked_binds marks.now (plain_columns columns.now) (plain_heads heads.now)
        ++ map plain_caught caught.entry.items) }
{
    let mut names = marked_names(alloc, marks, columns, heads)?;
    if names.is_empty() {
        return Ok(caught);
    }
    names.extend_from_slice(&caught)?;
    Ok(names)
}

// Takes the heads in marked columns out of the row; the names that they bind are caught before all others. The list has room
// for heads, and has the row's list afterwards.
fn leave_marked<'a, T: Copy>(
    alloc: Global,
    row: &mut KeyedRow<'a, T>,
    room: &mut Vec<HeadRun<'a, T>>,
    marks: &[bool],
    columns: &[KeyedColumn<'a, T>],
) -> Result<(), NoMemory>
    requires heads { length (plain_row row.old).heads ≡ length marks.now }
    requires long { length columns.now ≡ length marks.now }
    ensures { OnOk result (plain_row row.new
        ≡ unmarked_row marks.now (plain_columns columns.now) (plain_row row.old)) }
{
    let caught = replace(&mut row.caught, Vec::new(alloc));
    row.caught = more_caught(alloc, marks, columns, &row.heads, caught)?;
    list_unmarked(room, marks, &row.heads)?;
    swap(&mut row.heads, room);
    Ok(())
}

// The rows, each without its heads in marked columns.
fn unmarked_rows<'a, T: Copy>(
    alloc: Global,
    rows: Vec<KeyedRow<'a, T>>,
    marks: &[bool],
    columns: &[KeyedColumn<'a, T>],
) -> Result<Vec<KeyedRow<'a, T>>, NoMemory>
    requires heads { All (λ r. length r.heads ≡ length marks.now) (plain_rows rows.items) }
    requires long { length columns.now ≡ length marks.now }
    ensures { IfOk result (λ v. plain_rows v.items
        ≡ map (unmarked_row marks.now (plain_columns columns.now)) (plain_rows rows.entry.items)) }
{
    let mut rows = rows;
    let mut room = Vec::with_capacity(alloc, ROOM)?;
    for i in 0..rows.len() {
        leave_marked(alloc, &mut rows[i], &mut room, marks, columns)?;
    }
    Ok(rows)
}

// The columns that are not marked.
fn unmarked_columns<'a, T: Copy>(
    alloc: Global,
    marks: &[bool],
    columns: &[KeyedColumn<'a, T>],
) -> Result<Vec<KeyedColumn<'a, T>>, NoMemory>
    requires { length columns.now ≡ length marks.now }
    ensures { IfOk result (λ v. v.items ≡ unmarked marks.now columns.now) }
{
    let mut all = Vec::new(alloc);
    for i in 0..columns.len() {
        if !marks[i] {
            all.extend_from_slice(&columns[i..i + 1])?;
        }
    }
    Ok(all)
}

// Takes the mark off the column with the number where the pattern there is neither a wildcard nor a name.
fn mark_pattern<'a, T: Copy>(marks: &mut [bool], at: usize, pat: &DePat<'a, T>)
    requires { at < length marks.old }
    ensures { StayWhereWild at (Some (tree pat.now) ∷ []) marks.old marks.new }
{
    if !marks[at] {
        return;
    }
    if is_wild_pat(pat) {
        return;
    }
    marks[at] = false;
}

// Takes the mark off each column where the heads have neither a wildcard nor a name; the first stands in the column with the
// number.
fn mark_run<'a, T: Copy>(marks: &mut [bool], at: usize, one: &HeadRun<'a, T>)
    requires { at + length (plain_run one.now) ≤ length marks.old }
    ensures { StayWhereWild at (plain_run one.now) marks.old marks.new }
{
    match one {
        HeadRun::Wilds(_count) => {}
        HeadRun::Written(p) => mark_pattern(marks, at, *p),
    }
}

// Takes the mark off each of so many columns where the row has neither a wildcard nor a name.
fn mark_row<'a, T: Copy>(marks: &mut [bool], heads: &[HeadRun<'a, T>], columns: usize)
    requires marks { length marks.old ≡ columns }
    requires heads { length (plain_heads heads.now) ≡ columns }
    ensures { StayWhereWild 0 (plain_heads heads.now) marks.old marks.new }
{
    let mut at = 0;
    for one in heads {
        mark_run(marks, at, one);
        at += size_of(one);
    }
}

// For each column whether every row is wild there.
fn wild_columns<'a, T: Copy>(
    alloc: Global,
    columns: usize,
    rows: &[KeyedRow<'a, T>],
) -> Result<Vec<bool>, NoMemory>
    requires { All (λ r. length r.heads ≡ columns) (plain_rows rows.now) }
    ensures { IfOk result (λ v. AreWildMarks columns (plain_rows rows.now) v.items) }
{
    let mut marks = vec![in alloc; true; columns]?;
    for row in rows {
        mark_row(&mut marks, &row.heads, columns);
    }
    Ok(marks)
}

// Tells whether a column is marked.
fn is_some_marked(marks: &[bool]) -> bool
    ensures { result ≡ list_any (λ mark. mark) marks.now }
{
    for mark in marks {
        if *mark {
            return true;
        }
    }
    false
}

// The matrix without the columns in which every row is wild.
pub(crate) fn without_wild<'a, T: Copy>(
    alloc: Global,
    m: Matrix<'a, T>,
) -> Result<Matrix<'a, T>, NoMemory>
    requires { AreAsLong (matrix_columns m) (matrix_rows m) }
    ensures { IfOk result (λ e. AreLeftOut (matrix_columns m.entry) (matrix_rows m.entry) (matrix_columns e)
        (matrix_rows e)) }
{
    let marks = wild_columns(alloc, m.columns.len(), &m.rows)?;
    if !is_some_marked(&marks) {
        return Ok(m);
    }
    let Matrix { columns, rows } = m;
    let rows = unmarked_rows(alloc, rows, &marks, &columns)?;
    let columns = unmarked_columns(alloc, &marks, &columns)?;
    Ok(Matrix { columns, rows })
}
