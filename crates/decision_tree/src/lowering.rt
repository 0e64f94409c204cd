// The tree of rows. What waits for the trees of other rows stands in a list, so that nothing calls itself.
ghost use Rattle.std.specs.Prelude.{◌≡◌, ◌<◌, ◌≤◌, ◌^◌, ◌++◌, ◌∷◌, ℕ, [], map, reverse, drop, length, get_or, Some, slice_get};
ghost use Rattle.std.specs.Prelude.{nat_eq, true, false, IfOk, OnOk};
ghost use Rattle.std.specs.List.{flat_map, IsDistinct};
ghost use Rattle.match_model.specs.DecisionTrees.{MTree, all_wild};
ghost use Rattle.match_model.specs.FewestBranches.{IsFewest};
ghost use Rattle.match_model.specs.Matrices.{MRow, first_matrix};
ghost use Rattle.match_model.specs.Numbering.{match_decisions};
ghost use Rattle.match_model.specs.WellTyped.{IsWellTyped, uids_in};
ghost use Rattle.pat_context.specs.Views.{plain_ctor, plain_place};
ghost use Rattle.pattern_arena.specs.Trees.{plain_match};
ghost use Rattle.keyed_matrix.specs.Deciding.{table_decides};
ghost use Rattle.keyed_matrix.specs.Views.{plain_columns, plain_row, plain_rows};
ghost use Rattle.keyed_matrix.specs.declared.rows.KeyedRow.{KeyedRow};
ghost use Rattle.tree_eval.specs.Nodes.{plain_branch};
ghost use Rattle.tree_eval.specs.Tables.{IsFinished};
ghost use Rattle.tree_eval.specs.Trees.{table_trees};
ghost use Rattle.constructor_sets.specs.Columns.{plain_ctors};
ghost use Rattle.decision_tree.specs.Asking.{AreAsked};
ghost use Rattle.decision_tree.specs.Idle.{IsIdleFirst};
ghost use Rattle.decision_tree.specs.Known.{IsInScope};
ghost use Rattle.decision_tree.specs.KnownTrees.{AreKnown, Keeps};
ghost use Rattle.decision_tree.specs.KnownViews.{known_entries};
ghost use Rattle.decision_tree.specs.Matrices.{matrix_columns, matrix_rows, IsGoodMatrix};
ghost use Rattle.decision_tree.specs.Waiting.{Root, Tells, IsBare, IsCutOf, Makes, Awaits, IsLeft, IsLeftOf, IsEnded, IsElseOf};
ghost use Rattle.decision_tree.specs.Waiting.{IsOpened, IsTurn};
ghost use Rattle.decision_tree.specs.declared.frames.Turn.TheVariants.{Finished, Lower};

use crate::binds::{place_by, row_binds};
use crate::branches::place_of;
use crate::cutting::next_cut;
use crate::frames::{Frame, Looked, Matrix, Turn};
use crate::having::row_spans;
use crate::idle::{idle_binds, is_idle_alone};
use crate::known::{KnownTrees, find_known, none_known, note_known};
use crate::leaves::{count_asked, is_leaf};
use crate::lone::lone;
use crate::pieces::{case_of, is_switchless};
use crate::repeated::without_repeated;
use crate::steps::{dropped, entered, entered_among, expanded, into_dropped, into_entered};
use crate::tells::known_matrix;
use crate::thin::thin_rows;
use crate::wild::without_wild;
use bumpalo::Bump;
use constructor_sets::{present, split_column};
use keyed_matrix::{
    Decisions, KeyedColumn, KeyedRow, are_wild, ctors_at, first_column, first_rows, head_at,
};
use no_memory::NoMemory;
use pat_context::{Ctor, PatCx, Step};
use pattern_arena::CheckedMatch;
use pattern_matrix::all_parts;
use std::alloc::Global;
use std::mem::replace;
use tree_eval::laws::tables_are_built;
use tree_eval::{Case, NodeTable};

// Where no row is left.
fn finish_none<'a, C: PatCx>(
    cx: &C,
    decisions: &Decisions,
    bare: bool,
    frames: &Vec<Frame<'a, C::Ty>>,
    table: &mut NodeTable,
    m: Matrix<'a, C::Ty>,
) -> Result<Turn<'a, C::Ty>, NoMemory>
    ghost root: { Root C.Ty }
    requires bare { Tells bare (IsBare (C.is_value cx.now) root) }
    requires none { m.rows.items ≡ [] }
    requires awaits { Awaits (C.is_type cx.now) (C.context cx.now) (C.is_value cx.now) (table_decides decisions.now) root
        (reverse frames.now.items) (table_trees table.old) (matrix_columns m) (matrix_rows m) }
    ensures turn { IfOk result (λ t. IsTurn (C.is_type cx.now) (C.context cx.now) (C.is_value cx.now)
        (table_decides decisions.now) root (reverse frames.now.items) (table_trees table.new) t) }
    ensures keeps { OnOk result (Keeps (table_trees table.old) (table_trees table.new)) }
{
    tables_are_built(table);
    if bare {
        let index = table.void()?;
        Ok(Turn::Finished(index))
    } else {
        let index = table.miss()?;
        Ok(Turn::Finished(index))
    }
}

// Has the guards of so many rows in front, which have only wildcards and names left, asked one after the other: each waits
// for the tree of the rows behind it.
fn push_guards<'a, C: PatCx>(
    alloc: Global,
    cx: &C,
    decisions: &Decisions,
    frames: &mut Vec<Frame<'a, C::Ty>>,
    table: &NodeTable,
    columns: &[KeyedColumn<'a, C::Ty>],
    rows: &[KeyedRow<'a, C::Ty>],
    count: usize,
) -> Result<(), NoMemory>
    ghost root: { Root C.Ty }
    requires within { count ≤ length rows.now }
    requires asked { AreAsked count (plain_rows rows.now) }
    requires as_many { (k : ℕ) (r : MRow C.Ty) → slice_get (plain_rows rows.now) k ≡ Some r
        → length columns.now ≡ length r.heads }
    requires awaits { Awaits (C.is_type cx.now) (C.context cx.now) (C.is_value cx.now) (table_decides decisions.now) root
        (reverse frames.old.items) (table_trees table.now) (plain_columns columns.now) (plain_rows rows.now) }
    ensures { OnOk result (Awaits (C.is_type cx.now) (C.context cx.now) (C.is_value cx.now)
        (table_decides decisions.now) root (reverse frames.new.items) (table_trees table.now)
        (plain_columns columns.now) (plain_rows (drop count rows.now))) }
{
    for i in 0..count {
        let row = &rows[i];
        let binds = row_binds(alloc, columns, row)?;
        frames.push(Frame::Guard {
            arm: row.arm,
            binds,
        })?;
    }
    Ok(())
}

// Where the first row has only wildcards and names left, and a guard.
fn ask_rows<'a, C: PatCx>(
    alloc: Global,
    cx: &C,
    decisions: &Decisions,
    frames: &mut Vec<Frame<'a, C::Ty>>,
    table: &NodeTable,
    m: Matrix<'a, C::Ty>,
) -> Result<Turn<'a, C::Ty>, NoMemory>
    ghost root: { Root C.Ty }
    requires good { IsGoodMatrix (C.is_type cx.now) (C.context cx.now) (table_decides decisions.now) m }
    requires awaits { Awaits (C.is_type cx.now) (C.context cx.now) (C.is_value cx.now) (table_decides decisions.now) root
        (reverse frames.old.items) (table_trees table.now) (matrix_columns m) (matrix_rows m) }
    requires scope { IsInScope (C.context cx.now) root (matrix_columns m) (matrix_rows m) }
    ensures { IfOk result (λ t. IsTurn (C.is_type cx.now) (C.context cx.now) (C.is_value cx.now)
        (table_decides decisions.now) root (reverse frames.new.items) (table_trees table.now) t) }
{
    let Matrix { columns, rows } = m;
    let mut rows = rows;
    let count = count_asked(&rows);
    push_guards(alloc, cx, decisions, frames, table, &columns, &rows, count)?;
    let rest = rows.split_off(count)?;
    Ok(Turn::Lower(Matrix {
        columns,
        rows: rest,
    }))
}

// Where the first row has only wildcards and names left.
fn finish_row<'a, C: PatCx>(
    alloc: Global,
    cx: &C,
    decisions: &Decisions,
    frames: &mut Vec<Frame<'a, C::Ty>>,
    table: &mut NodeTable,
    m: Matrix<'a, C::Ty>,
) -> Result<Turn<'a, C::Ty>, NoMemory>
    ghost root: { Root C.Ty }
    requires some { 0 < length m.rows.items }
    requires leaf { (d : KeyedRow C.Ty) → all_wild (plain_row (get_or m.rows.items 0 d)) ≡ true }
    requires good { IsGoodMatrix (C.is_type cx.now) (C.context cx.now) (table_decides decisions.now) m }
    requires awaits { Awaits (C.is_type cx.now) (C.context cx.now) (C.is_value cx.now) (table_decides decisions.now) root
        (reverse frames.old.items) (table_trees table.old) (matrix_columns m) (matrix_rows m) }
    requires scope { IsInScope (C.context cx.now) root (matrix_columns m) (matrix_rows m) }
    ensures turn { IfOk result (λ t. IsTurn (C.is_type cx.now) (C.context cx.now) (C.is_value cx.now)
        (table_decides decisions.now) root (reverse frames.new.items) (table_trees table.new) t) }
    ensures keeps { OnOk result (Keeps (table_trees table.old) (table_trees table.new)) }
{
    tables_are_built(table);
    let row = &m.rows[0];
    if row.guarded {
        ask_rows(alloc, cx, decisions, frames, table, m)
    } else {
        let binds = row_binds(alloc, &m.columns, row)?;
        let index = table.take(row.arm, binds)?;
        Ok(Turn::Finished(index))
    }
}

// Lowers the rows without wildcards that bind nothing. Where the columns are fewer than before no parts came, and no row has
// a head that it had not before.
fn lower_thin<'a, C: PatCx>(
    alloc: Global,
    cx: &C,
    decisions: &Decisions,
    frames: &Vec<Frame<'a, C::Ty>>,
    table: &NodeTable,
    m: Matrix<'a, C::Ty>,
    before: usize,
) -> Result<Turn<'a, C::Ty>, NoMemory>
    ghost root: { Root C.Ty }
    requires { IsTurn (C.is_type cx.now) (C.context cx.now) (C.is_value cx.now) (table_decides decisions.now) root
        (reverse frames.now.items) (table_trees table.now) (Lower m) }
    ensures { IfOk result (λ t. IsTurn (C.is_type cx.now) (C.context cx.now) (C.is_value cx.now)
        (table_decides decisions.now) root (reverse frames.now.items) (table_trees table.now) t) }
{
    if m.columns.len() < before {
        return Ok(Turn::Lower(m));
    }
    let Matrix { columns, rows } = m;
    let rows = thin_rows(alloc, rows)?;
    Ok(Turn::Lower(Matrix { columns, rows }))
}

// Finishes the switch at the place, of which all cases are done, the last one first.
fn finish_switch<'a, C: PatCx>(
    alloc: Global,
    cx: &C,
    decisions: &Decisions,
    frames: &Vec<Frame<'a, C::Ty>>,
    table: &mut NodeTable,
    place: &'a [Step],
    cases: Vec<(Case, u64)>,
) -> Result<Turn<'a, C::Ty>, NoMemory>
    ghost root: { Root C.Ty }
    requires { IsEnded (C.is_type cx.now) (C.context cx.now) (C.is_value cx.now) (table_decides decisions.now) root
        (reverse frames.now.items) (table_trees table.old) (plain_place place.now) (map plain_branch cases.items) }
    ensures turn { IfOk result (λ t. IsTurn (C.is_type cx.now) (C.context cx.now) (C.is_value cx.now)
        (table_decides decisions.now) root (reverse frames.now.items) (table_trees table.new) t) }
    ensures keeps { OnOk result (Keeps (table_trees table.old) (table_trees table.new)) }
{
    let steps = place_by(alloc, place)?;
    let mut cases = cases;
    cases.reverse();
    let index = table.switch(steps, cases)?;
    Ok(Turn::Finished(index))
}

// Goes on with the only case of the switch at the column that is left. No other case needs the matrix, so that its rows are
// taken over.
fn last_case<'a, C: PatCx>(
    alloc: Global,
    arena: &'a Bump<Global>,
    cx: &C,
    decisions: &Decisions,
    frames: &mut Vec<Frame<'a, C::Ty>>,
    table: &NodeTable,
    matrix: Matrix<'a, C::Ty>,
    i: usize,
    piece: &Ctor,
    cases: Vec<(Case, u64)>,
) -> Result<Turn<'a, C::Ty>, NoMemory>
    ghost root: { Root C.Ty }
    requires { IsLeft (C.is_type cx.now) (C.context cx.now) (C.is_value cx.now) (table_decides decisions.now) root
        (reverse frames.old.items) (table_trees table.now) matrix i (plain_ctor piece.now ∷ [])
        (map plain_branch cases.items) }
    ensures { IfOk result (λ t. IsTurn (C.is_type cx.now) (C.context cx.now) (C.is_value cx.now)
        (table_decides decisions.now) root (reverse frames.new.items) (table_trees table.now) t) }
{
    let case = case_of(alloc, piece)?;
    let place = matrix.columns[i].place;
    let before = matrix.columns.len();
    let next = into_entered(alloc, arena, cx, decisions, matrix, i, piece)?;
    frames.push(Frame::Last { place, cases, case })?;
    lower_thin(alloc, cx, decisions, frames, table, next, before)
}

// Finishes the case of a piece of which the row with the number comes first, where it is taken and binds nothing in the columns
// that are open then: neither these nor the places of the piece's parts are made.
fn take_case<'a, C: PatCx>(
    alloc: Global,
    cx: &C,
    decisions: &Decisions,
    frames: &mut Vec<Frame<'a, C::Ty>>,
    table: &mut NodeTable,
    looked: Looked<'a, C::Ty>,
    piece: &Ctor,
    k: usize,
) -> Result<Turn<'a, C::Ty>, NoMemory>
    ghost root: { Root C.Ty }
    requires left { IsLeft (C.is_type cx.now) (C.context cx.now) (C.is_value cx.now) (table_decides decisions.now) root
        (reverse frames.old.items) (table_trees table.old) looked.matrix looked.column
        (plain_ctors looked.pieces.items ++ plain_ctor piece.now ∷ []) (map plain_branch looked.cases.items) }
    requires cut { IsCutOf looked }
    requires first { IsIdleFirst looked.column (matrix_rows looked.matrix) (plain_ctor piece.now) k }
    ensures turn { IfOk result (λ t. IsTurn (C.is_type cx.now) (C.context cx.now) (C.is_value cx.now)
        (table_decides decisions.now) root (reverse frames.new.items) (table_trees table.new) t) }
    ensures keeps { OnOk result (Keeps (table_trees table.old) (table_trees table.new)) }
{
    tables_are_built(table);
    let case = case_of(alloc, piece)?;
    let i = looked.column;
    let row = &looked.matrix.rows[k];
    let place = looked.matrix.columns[i].place;
    let binds = idle_binds(alloc, row, head_at(row, i), place)?;
    let index = table.take(row.arm, binds)?;
    frames.push(Frame::Switch { looked, case })?;
    Ok(Turn::Finished(index))
}

// Goes on with the next case of the switch, from the last to the first; where none is left, the switch is finished.
fn next_case<'a, C: PatCx>(
    alloc: Global,
    arena: &'a Bump<Global>,
    cx: &C,
    decisions: &Decisions,
    frames: &mut Vec<Frame<'a, C::Ty>>,
    table: &mut NodeTable,
    looked: Looked<'a, C::Ty>,
) -> Result<Turn<'a, C::Ty>, NoMemory>
    ghost root: { Root C.Ty }
    requires { IsLeftOf (C.is_type cx.now) (C.context cx.now) (C.is_value cx.now) (table_decides decisions.now) root
        (reverse frames.old.items) (table_trees table.old) looked }
    ensures turn { IfOk result (λ t. IsTurn (C.is_type cx.now) (C.context cx.now) (C.is_value cx.now)
        (table_decides decisions.now) root (reverse frames.new.items) (table_trees table.new) t) }
    ensures keeps { OnOk result (Keeps (table_trees table.old) (table_trees table.new)) }
{
    let mut looked = looked;
    match looked.pieces.pop() {
        Some(piece) => {
            let i = looked.column;
            let mut todo = replace(&mut looked.todo, Vec::new(alloc));
            let numbers = next_cut(alloc, &looked.matrix.rows, i, &mut todo, &looked.spans)?;
            looked.todo = todo;
            if is_idle_alone(&looked.matrix, i, &numbers) {
                let k = numbers[0];
                return take_case(alloc, cx, decisions, frames, table, looked, &piece, k);
            }
            if looked.pieces.is_empty() && numbers.len() > 1 {
                let matrix = looked.matrix;
                let cases = looked.cases;
                return last_case(
                    alloc, arena, cx, decisions, frames, table, matrix, i, &piece, cases,
                );
            }
            let case = case_of(alloc, &piece)?;
            let next = entered_among(
                alloc,
                arena,
                cx,
                decisions,
                &looked.matrix,
                i,
                &piece,
                &numbers,
            )?;
            let before = looked.matrix.columns.len();
            frames.push(Frame::Switch { looked, case })?;
            lower_thin(alloc, cx, decisions, frames, table, next, before)
        }
        None => {
            let place = looked.matrix.columns[looked.column].place;
            finish_switch(alloc, cx, decisions, frames, table, place, looked.cases)
        }
    }
}

// Begins the switch, of which a piece that stands in some row is one case, and all others are the other, which is done first.
// The rows of the piece are made before the others are taken over.
fn else_first<'a, C: PatCx>(
    alloc: Global,
    arena: &'a Bump<Global>,
    cx: &C,
    decisions: &Decisions,
    frames: &mut Vec<Frame<'a, C::Ty>>,
    table: &NodeTable,
    looked: Looked<'a, C::Ty>,
) -> Result<Turn<'a, C::Ty>, NoMemory>
    ghost root: { Root C.Ty }
    requires one { length looked.pieces.items ≡ 1 }
    requires begins { IsElseOf (C.is_type cx.now) (C.context cx.now) (C.is_value cx.now) (table_decides decisions.now) root
        (reverse frames.old.items) (table_trees table.now) looked }
    ensures { IfOk result (λ t. IsTurn (C.is_type cx.now) (C.context cx.now) (C.is_value cx.now)
        (table_decides decisions.now) root (reverse frames.new.items) (table_trees table.now) t) }
{
    let Looked {
        matrix,
        column: i,
        pieces,
        spans,
        todo,
        ..
    } = looked;
    let mut todo = todo;
    let piece = &pieces[0];
    let numbers = next_cut(alloc, &matrix.rows, i, &mut todo, &spans)?;
    let case = case_of(alloc, piece)?;
    let place = matrix.columns[i].place;
    let next = entered_among(alloc, arena, cx, decisions, &matrix, i, piece, &numbers)?;
    let others = into_dropped(alloc, cx, decisions, matrix, i)?;
    frames.push(Frame::Others {
        place,
        case,
        matrix: next,
    })?;
    Ok(Turn::Lower(others))
}

// Begins the switch at the column, at which some row has a constructor. Where a piece with a value stands in no row, the last
// case is that of all others.
fn begin_switch<'a, C: PatCx>(
    alloc: Global,
    arena: &'a Bump<Global>,
    cx: &C,
    decisions: &Decisions,
    frames: &mut Vec<Frame<'a, C::Ty>>,
    table: &mut NodeTable,
    e: Matrix<'a, C::Ty>,
    i: usize,
) -> Result<Turn<'a, C::Ty>, NoMemory>
    ghost root: { Root C.Ty }
    requires { IsOpened (C.is_type cx.now) (C.context cx.now) (C.is_value cx.now) (table_decides decisions.now) root
        (reverse frames.old.items) (table_trees table.old) i false e }
    ensures turn { IfOk result (λ t. IsTurn (C.is_type cx.now) (C.context cx.now) (C.is_value cx.now)
        (table_decides decisions.now) root (reverse frames.new.items) (table_trees table.new) t) }
    ensures keeps { OnOk result (Keeps (table_trees table.old) (table_trees table.new)) }
{
    tables_are_built(table);
    let ctors = ctors_at(alloc, &e.rows, i)?;
    let found = present(alloc, cx, e.columns[i].ty, e.columns[i].validity, &ctors)?;
    let spans = row_spans(alloc, &e.rows, i, &found.ctors, &found.spans)?;
    let todo = all_parts(alloc, &spans, found.ctors.len())?;
    let looked = Looked {
        matrix: e,
        column: i,
        pieces: found.ctors,
        spans,
        todo,
        cases: Vec::new(alloc),
    };
    if found.missing {
        if looked.pieces.len() == 1 {
            return else_first(alloc, arena, cx, decisions, frames, table, looked);
        }
        let next = dropped(alloc, cx, decisions, &looked.matrix, i)?;
        frames.push(Frame::Switch {
            looked,
            case: Case::Else,
        })?;
        Ok(Turn::Lower(next))
    } else {
        next_case(alloc, arena, cx, decisions, frames, table, looked)
    }
}

// Has the parts of the column take its place: its type has one piece.
fn open_column<'a, C: PatCx>(
    alloc: Global,
    arena: &'a Bump<Global>,
    cx: &C,
    decisions: &Decisions,
    frames: &Vec<Frame<'a, C::Ty>>,
    table: &NodeTable,
    e: Matrix<'a, C::Ty>,
    i: usize,
) -> Result<Turn<'a, C::Ty>, NoMemory>
    ghost root: { Root C.Ty }
    requires { IsOpened (C.is_type cx.now) (C.context cx.now) (C.is_value cx.now) (table_decides decisions.now) root
        (reverse frames.now.items) (table_trees table.now) i true e }
    ensures { IfOk result (λ t. IsTurn (C.is_type cx.now) (C.context cx.now) (C.is_value cx.now)
        (table_decides decisions.now) root (reverse frames.now.items) (table_trees table.now) t) }
{
    let ctors = ctors_at(alloc, &e.rows, i)?;
    let split = split_column(alloc, cx, e.columns[i].ty, e.columns[i].validity, &ctors)?;
    let next = entered(alloc, arena, cx, decisions, &e, i, &split.pieces[0].ctor)?;
    lower_thin(alloc, cx, decisions, frames, table, next, e.columns.len())
}

// Looks at the column: its or-patterns are taken apart, and then it is dropped where no row has a constructor there.
fn look_at<'a, C: PatCx>(
    alloc: Global,
    arena: &'a Bump<Global>,
    cx: &C,
    decisions: &Decisions,
    frames: &mut Vec<Frame<'a, C::Ty>>,
    table: &mut NodeTable,
    m: Matrix<'a, C::Ty>,
    i: usize,
) -> Result<Turn<'a, C::Ty>, NoMemory>
    ghost root: { Root C.Ty }
    requires chosen { IsFewest (C.context cx.now) (C.is_value cx.now) (matrix_columns m) (matrix_rows m) i }
    requires good { IsGoodMatrix (C.is_type cx.now) (C.context cx.now) (table_decides decisions.now) m }
    requires awaits { Awaits (C.is_type cx.now) (C.context cx.now) (C.is_value cx.now) (table_decides decisions.now) root
        (reverse frames.old.items) (table_trees table.old) (matrix_columns m) (matrix_rows m) }
    requires scope { IsInScope (C.context cx.now) root (matrix_columns m) (matrix_rows m) }
    ensures turn { IfOk result (λ t. IsTurn (C.is_type cx.now) (C.context cx.now) (C.is_value cx.now)
        (table_decides decisions.now) root (reverse frames.new.items) (table_trees table.new) t) }
    ensures keeps { OnOk result (Keeps (table_trees table.old) (table_trees table.new)) }
{
    let e = expanded(alloc, cx, decisions, m, i)?;
    if are_wild(&e.rows, i) {
        let next = into_dropped(alloc, cx, decisions, e, i)?;
        return Ok(Turn::Lower(next));
    }
    let set = cx.set(e.columns[i].ty);
    if is_switchless(&set) {
        open_column(alloc, arena, cx, decisions, frames, table, e, i)
    } else {
        begin_switch(alloc, arena, cx, decisions, frames, table, e, i)
    }
}

// Looks at the place with the fewest branches.
fn look_next<'a, C: PatCx>(
    alloc: Global,
    arena: &'a Bump<Global>,
    cx: &C,
    decisions: &Decisions,
    frames: &mut Vec<Frame<'a, C::Ty>>,
    table: &mut NodeTable,
    m: Matrix<'a, C::Ty>,
) -> Result<Turn<'a, C::Ty>, NoMemory>
    ghost root: { Root C.Ty }
    requires some { 0 < length m.rows.items }
    requires open { (d : KeyedRow C.Ty) → all_wild (plain_row (get_or m.rows.items 0 d)) ≡ false }
    requires good { IsGoodMatrix (C.is_type cx.now) (C.context cx.now) (table_decides decisions.now) m }
    requires awaits { Awaits (C.is_type cx.now) (C.context cx.now) (C.is_value cx.now) (table_decides decisions.now) root
        (reverse frames.old.items) (table_trees table.old) (matrix_columns m) (matrix_rows m) }
    requires scope { IsInScope (C.context cx.now) root (matrix_columns m) (matrix_rows m) }
    ensures turn { IfOk result (λ t. IsTurn (C.is_type cx.now) (C.context cx.now) (C.is_value cx.now)
        (table_decides decisions.now) root (reverse frames.new.items) (table_trees table.new) t) }
    ensures keeps { OnOk result (Keeps (table_trees table.old) (table_trees table.new)) }
{
    let i = place_of(alloc, cx, &m.columns, &m.rows)?;
    look_at(alloc, arena, cx, decisions, frames, table, m, i)
}

// Takes the tree of the rows where it is known; else the rows are lowered, and it is known from then on.
fn look_up<'a, C: PatCx>(
    alloc: Global,
    arena: &'a Bump<Global>,
    cx: &C,
    decisions: &Decisions,
    known: &KnownTrees<'a>,
    frames: &mut Vec<Frame<'a, C::Ty>>,
    table: &mut NodeTable,
    m: Matrix<'a, C::Ty>,
) -> Result<Turn<'a, C::Ty>, NoMemory>
    ghost root: { Root C.Ty }
    requires some { 0 < length m.rows.items }
    requires open { (d : KeyedRow C.Ty) → all_wild (plain_row (get_or m.rows.items 0 d)) ≡ false }
    requires good { IsGoodMatrix (C.is_type cx.now) (C.context cx.now) (table_decides decisions.now) m }
    requires awaits { Awaits (C.is_type cx.now) (C.context cx.now) (C.is_value cx.now) (table_decides decisions.now) root
        (reverse frames.old.items) (table_trees table.old) (matrix_columns m) (matrix_rows m) }
    requires scope { IsInScope (C.context cx.now) root (matrix_columns m) (matrix_rows m) }
    requires known { AreKnown (C.context cx.now) (C.is_value cx.now) (table_decides decisions.now)
        (IsBare (C.is_value cx.now) root) root (table_trees table.old) (known_entries known.now) }
    requires uids { IsDistinct nat_eq (flat_map (λ a. uids_in a.pat) root.arms) }
    ensures turn { IfOk result (λ t. IsTurn (C.is_type cx.now) (C.context cx.now) (C.is_value cx.now)
        (table_decides decisions.now) root (reverse frames.new.items) (table_trees table.new) t) }
    ensures keeps { OnOk result (Keeps (table_trees table.old) (table_trees table.new)) }
{
    tables_are_built(table);
    let Matrix { columns, rows } = m;
    let rows = without_repeated(alloc, rows)?;
    let rows = lone(alloc, rows);
    let m = without_wild(alloc, Matrix { columns, rows })?;
    let matrix = known_matrix(alloc, &m.columns, &m.rows)?;
    if let Some(index) = find_known(known, &matrix) {
        return Ok(Turn::Finished(index));
    }
    frames.push(Frame::Note { matrix })?;
    look_next(alloc, arena, cx, decisions, frames, table, m)
}

// Lowers the rows by one rule. A row that stands alone and of which no or-pattern was taken apart is not noted: where its
// or-patterns are, what is left of them is.
fn lower_one<'a, C: PatCx>(
    alloc: Global,
    arena: &'a Bump<Global>,
    cx: &C,
    decisions: &Decisions,
    bare: bool,
    known: &KnownTrees<'a>,
    frames: &mut Vec<Frame<'a, C::Ty>>,
    table: &mut NodeTable,
    m: Matrix<'a, C::Ty>,
) -> Result<Turn<'a, C::Ty>, NoMemory>
    ghost root: { Root C.Ty }
    requires bare { Tells bare (IsBare (C.is_value cx.now) root) }
    requires good { IsGoodMatrix (C.is_type cx.now) (C.context cx.now) (table_decides decisions.now) m }
    requires awaits { Awaits (C.is_type cx.now) (C.context cx.now) (C.is_value cx.now) (table_decides decisions.now) root
        (reverse frames.old.items) (table_trees table.old) (matrix_columns m) (matrix_rows m) }
    requires scope { IsInScope (C.context cx.now) root (matrix_columns m) (matrix_rows m) }
    requires known { AreKnown (C.context cx.now) (C.is_value cx.now) (table_decides decisions.now)
        (IsBare (C.is_value cx.now) root) root (table_trees table.old) (known_entries known.now) }
    requires uids { IsDistinct nat_eq (flat_map (λ a. uids_in a.pat) root.arms) }
    ensures turn { IfOk result (λ t. IsTurn (C.is_type cx.now) (C.context cx.now) (C.is_value cx.now)
        (table_decides decisions.now) root (reverse frames.new.items) (table_trees table.new) t) }
    ensures keeps { OnOk result (Keeps (table_trees table.old) (table_trees table.new)) }
{
    if m.rows.is_empty() {
        return finish_none(cx, decisions, bare, frames, table, m);
    }
    if is_leaf(&m.rows[0]) {
        return finish_row(alloc, cx, decisions, frames, table, m);
    }
    if m.rows.len() == 1 && m.rows[0].chosen.is_empty() {
        return look_next(alloc, arena, cx, decisions, frames, table, m);
    }
    look_up(alloc, arena, cx, decisions, known, frames, table, m)
}

// Goes on where the tree with the index was waited for.
fn resume<'a, C: PatCx>(
    alloc: Global,
    arena: &'a Bump<Global>,
    cx: &C,
    decisions: &Decisions,
    known: &mut KnownTrees<'a>,
    frames: &mut Vec<Frame<'a, C::Ty>>,
    table: &mut NodeTable,
    index: u64,
) -> Result<Turn<'a, C::Ty>, NoMemory>
    ghost root: { Root C.Ty }
    requires turn { IsTurn (C.is_type cx.now) (C.context cx.now) (C.is_value cx.now) (table_decides decisions.now) root
        (reverse frames.old.items) (table_trees table.old) (Finished index) }
    requires known { AreKnown (C.context cx.now) (C.is_value cx.now) (table_decides decisions.now)
        (IsBare (C.is_value cx.now) root) root (table_trees table.old) (known_entries known.old) }
    ensures turn { IfOk result (λ t. IsTurn (C.is_type cx.now) (C.context cx.now) (C.is_value cx.now)
        (table_decides decisions.now) root (reverse frames.new.items) (table_trees table.new) t) }
    ensures known { OnOk result (AreKnown (C.context cx.now) (C.is_value cx.now) (table_decides decisions.now)
        (IsBare (C.is_value cx.now) root) root (table_trees table.new) (known_entries known.new)) }
{
    match frames.pop() {
        None => Ok(Turn::Done(index)),
        Some(Frame::Guard { arm, binds }) => {
            let asked = table.ask(arm, binds, index)?;
            Ok(Turn::Finished(asked))
        }
        Some(Frame::Last { place, cases, case }) => {
            let mut cases = cases;
            cases.push((case, index))?;
            let done = finish_switch(alloc, cx, decisions, frames, table, place, cases)?;
            Ok(done)
        }
        Some(
            Frame::Others {
                place,
                case,
                matrix,
            },
        ) => {
            let mut cases = Vec::with_capacity(alloc, 2)?;
            cases.push((Case::Else, index))?;
            frames.push(Frame::Last { place, cases, case })?;
            let next = lower_thin(alloc, cx, decisions, frames, table, matrix, 0)?;
            Ok(next)
        }
        Some(Frame::Note { matrix }) => {
            note_known(known, matrix, index)?;
            Ok(Turn::Finished(index))
        }
        Some(Frame::Switch { looked, case }) => {
            let mut looked = looked;
            looked.cases.push((case, index))?;
            let turn = next_case(alloc, arena, cx, decisions, frames, table, looked)?;
            Ok(turn)
        }
    }
}

// Does what is to be done next.
fn step<'a, C: PatCx>(
    alloc: Global,
    arena: &'a Bump<Global>,
    cx: &C,
    decisions: &Decisions,
    bare: bool,
    known: &mut KnownTrees<'a>,
    frames: &mut Vec<Frame<'a, C::Ty>>,
    table: &mut NodeTable,
    turn: Turn<'a, C::Ty>,
) -> Result<Turn<'a, C::Ty>, NoMemory>
    ghost root: { Root C.Ty }
    requires bare { Tells bare (IsBare (C.is_value cx.now) root) }
    requires turn { IsTurn (C.is_type cx.now) (C.context cx.now) (C.is_value cx.now) (table_decides decisions.now) root
        (reverse frames.old.items) (table_trees table.old) turn }
    requires known { AreKnown (C.context cx.now) (C.is_value cx.now) (table_decides decisions.now)
        (IsBare (C.is_value cx.now) root) root (table_trees table.old) (known_entries known.old) }
    requires uids { IsDistinct nat_eq (flat_map (λ a. uids_in a.pat) root.arms) }
    ensures turn { IfOk result (λ t. IsTurn (C.is_type cx.now) (C.context cx.now) (C.is_value cx.now)
        (table_decides decisions.now) root (reverse frames.new.items) (table_trees table.new) t) }
    ensures known { OnOk result (AreKnown (C.context cx.now) (C.is_value cx.now) (table_decides decisions.now)
        (IsBare (C.is_value cx.now) root) root (table_trees table.new) (known_entries known.new)) }
{
    match turn {
        Turn::Lower(m) => {
            let new = lower_one(alloc, arena, cx, decisions, bare, known, frames, table, m)?;
            Ok(new)
        }
        Turn::Finished(index) => {
            let new = resume(alloc, arena, cx, decisions, known, frames, table, index)?;
            Ok(new)
        }
        Turn::Done(index) => Ok(Turn::Done(index)),
    }
}

// The matrix of the arms.
fn first_matrix<'a, T: Copy>(
    alloc: Global,
    m: &CheckedMatch<'a, T>,
) -> Result<Matrix<'a, T>, NoMemory>
    requires { length m.now.arms.now < 2 ^ 32 }
    ensures columns { IfOk result (λ e. matrix_columns e ≡ (first_matrix (plain_match m.now)).columns) }
    ensures rows { IfOk result (λ e. matrix_rows e ≡ (first_matrix (plain_match m.now)).rows) }
{
    let rows = first_rows(alloc, m)?;
    let mut columns = Vec::new(alloc);
    columns.push(first_column(m))?;
    Ok(Matrix { columns, rows })
}

// Puts the tree of the match, whose domain has a value, into the table, which is empty, and gives its index.
pub(crate) fn lower_match<'a, C: PatCx>(
    alloc: Global,
    arena: &'a Bump<Global>,
    cx: &C,
    decisions: &Decisions,
    bare: bool,
    table: &mut NodeTable,
    m: &CheckedMatch<'a, C::Ty>,
) -> Result<u64, NoMemory>
    ghost root: { Root C.Ty }
    requires root { root ≡ plain_match m.now }
    requires typed { IsWellTyped (C.is_type cx.now) (C.context cx.now) (plain_match m.now) }
    requires few { length m.now.arms.now < 2 ^ 32 }
    requires decides { (uid : ℕ) → table_decides decisions.now uid ≡ match_decisions (plain_match m.now) uid }
    requires bare { Tells bare (IsBare (C.is_value cx.now) root) }
    requires empty { table_trees table.old ≡ [] }
    ensures { IfOk result (λ i. (t : MTree) × Makes (C.is_type cx.now) (C.context cx.now) (C.is_value cx.now)
        (table_decides decisions.now) root (first_matrix root).columns (first_matrix root).rows t
        × IsFinished [] t i (table_trees table.new)) }
{
    let first = first_matrix(alloc, m)?;
    let mut known = none_known(alloc);
    let mut frames = Vec::new(alloc);
    let mut turn = Turn::Lower(first);
    for _step in 0..usize::MAX {
        match turn {
            Turn::Done(index) => return Ok(index),
            other => {
                turn = step(
                    alloc,
                    arena,
                    cx,
                    decisions,
                    bare,
                    &mut known,
                    &mut frames,
                    table,
                    other,
                )?;
            }
        }
    }
    Err(NoMemory)
}
