// The steps that take rows apart at a column.
ghost use Rattle.std.specs.Prelude.{◌≡◌, ◌<◌, ◌++◌, ◌∷◌, [], map, length, IfOk, OnOk, Some};
ghost use Rattle.match_model.specs.Constructors.{LongerShape, RowCtor};
ghost use Rattle.match_model.specs.Rows.{wildcards, heads_of, choices_of};
ghost use Rattle.match_model.specs.Steps.{expand_head, specialise_head, default_head};
ghost use Rattle.match_model.specs.Steps.{rows_at, row_replaced, replaced_at};
ghost use Rattle.pat_context.specs.Views.{plain_ctor, plain_place};
ghost use Rattle.pattern_arena.specs.Trees.{tree, placed_ctor, placed_subs, plain_bound};
ghost use Rattle.keyed_matrix.specs.Views.{plain_heads, plain_row, plain_rows};
ghost use Rattle.keyed_matrix.specs.Steps.{row_at, chosen_rows, AreLonger};

use crate::choices::choices_of;
use crate::heads::{add_wilds, head_at, into_rewilded_heads};
use crate::looking::is_wild;
use crate::replacing::{replaced_row, rewilded_row};
use crate::taken_apart::is_or_at;
use crate::{HeadRun, KeyedRow};
use constructor_sets::has_piece;
use no_memory::NoMemory;
use pat_context::{Ctor, Step};
use pattern_arena::{Bound, DePat};
use slice_split::Shape;
use std::alloc::Global;

/// The rows with their or-patterns in the column with this number, from 0, taken apart: each row once for each choice
/// among the alternatives of its head there. The rows are those of the definitions, in this order; each has a head at
/// the column, which looks at the place. The only error is want of memory.
pub fn expanded_rows<'a, T: Copy>(
    alloc: Global,
    rows: &[KeyedRow<'a, T>],
    i: usize,
    place: &'a [Step],
) -> Result<Vec<KeyedRow<'a, T>>, NoMemory>
    requires { AreLonger i (plain_rows rows.now) }
    ensures { IfOk result (λ v. plain_rows v.items
        ≡ rows_at expand_head (plain_place place.now) i (plain_rows rows.now)) }
{
    let mut all = Vec::new(alloc);
    for row in rows {
        add_expanded(alloc, &mut all, row, i, place)?;
    }
    Ok(all)
}

/// The rows with their or-patterns in the column with this number, from 0, taken apart, of rows that no one else needs: a row
/// without an or-pattern there is taken over. The rows are those of `expanded_rows`. The only error is want of memory.
pub fn into_expanded_rows<'a, T: Copy>(
    alloc: Global,
    rows: Vec<KeyedRow<'a, T>>,
    i: usize,
    place: &'a [Step],
) -> Result<Vec<KeyedRow<'a, T>>, NoMemory>
    requires { AreLonger i (plain_rows rows.items) }
    ensures { IfOk result (λ v. plain_rows v.items
        ≡ rows_at expand_head (plain_place place.now) i (plain_rows rows.entry.items)) }
{
    let mut all = Vec::with_capacity(alloc, rows.len())?;
    for row in rows {
        add_moved_expanded(alloc, &mut all, row, i, place)?;
    }
    Ok(all)
}

// Adds the row once for each choice at the column; it is taken over where no or-pattern stands there.
fn add_moved_expanded<'a, T: Copy>(
    alloc: Global,
    all: &mut Vec<KeyedRow<'a, T>>,
    row: KeyedRow<'a, T>,
    i: usize,
    place: &'a [Step],
) -> Result<(), NoMemory>
    requires { i < length (plain_row row).heads }
    ensures { OnOk result (plain_rows all.new.items ≡ plain_rows all.old.items
        ++ row_at expand_head (plain_place place.now) i (plain_row row.entry)) }
{
    if is_or_at(&row, i) {
        add_expanded(alloc, all, &row, i, place)
    } else {
        all.push(row)?;
        Ok(())
    }
}

/// The rows of a piece of so many parts: those whose head at the column has all of the piece, with the heads of the
/// parts in its place. The rows are those of the definitions, in this order; each has a head at the column, which looks
/// at the place. The only error is want of memory.
pub fn piece_rows<'a, T: Copy>(
    alloc: Global,
    rows: &[KeyedRow<'a, T>],
    i: usize,
    place: &'a [Step],
    piece: &Ctor,
    count: usize,
) -> Result<Vec<KeyedRow<'a, T>>, NoMemory>
    requires { AreLonger i (plain_rows rows.now) }
    ensures { IfOk result (λ v. plain_rows v.items
        ≡ rows_at (specialise_head (plain_ctor piece.now) count) (plain_place place.now) i (plain_rows rows.now)) }
{
    let mut all = Vec::with_capacity(alloc, rows.len())?;
    for row in rows {
        add_piece_row(alloc, &mut all, row, i, place, piece, count)?;
    }
    Ok(all)
}

/// The same, of rows that no one else needs: a row with a wildcard there that no pattern wrote is taken over.
pub fn into_piece_rows<'a, T: Copy>(
    alloc: Global,
    rows: Vec<KeyedRow<'a, T>>,
    i: usize,
    place: &'a [Step],
    piece: &Ctor,
    count: usize,
) -> Result<Vec<KeyedRow<'a, T>>, NoMemory>
    requires { AreLonger i (plain_rows rows.items) }
    ensures { IfOk result (λ v. plain_rows v.items
        ≡ rows_at (specialise_head (plain_ctor piece.now) count) (plain_place place.now) i (plain_rows rows.entry.items)) }
{
    let mut all = Vec::with_capacity(alloc, rows.len())?;
    for row in rows {
        add_moved_piece_row(alloc, &mut all, row, i, place, piece, count)?;
    }
    Ok(all)
}

// Adds what `piece_rows` makes of the row, which is taken over where a wildcard stands there that no pattern wrote.
fn add_moved_piece_row<'a, T: Copy>(
    alloc: Global,
    all: &mut Vec<KeyedRow<'a, T>>,
    row: KeyedRow<'a, T>,
    i: usize,
    place: &'a [Step],
    piece: &Ctor,
    count: usize,
) -> Result<(), NoMemory>
    requires { i < length (plain_row row).heads }
    ensures { OnOk result (plain_rows all.new.items ≡ plain_rows all.old.items
        ++ row_at (specialise_head (plain_ctor piece.now) count) (plain_place place.now) i (plain_row row.entry)) }
{
    match head_at(&row, i) {
        None => add_moved_rewilded(alloc, all, row, i, count),
        Some(_p) => add_piece_row(alloc, all, &row, i, place, piece, count),
    }
}

// Adds the row, which is taken over, with so many wildcards that no pattern wrote in place of its head at the column.
fn add_moved_rewilded<'a, T: Copy>(
    alloc: Global,
    all: &mut Vec<KeyedRow<'a, T>>,
    row: KeyedRow<'a, T>,
    i: usize,
    count: usize,
) -> Result<(), NoMemory>
    requires { i < length (plain_row row).heads }
    ensures { OnOk result (plain_rows all.new.items ≡ plain_rows all.old.items ++ (record (plain_row row.entry) {
      heads = replaced_at i (plain_heads row.entry.heads.items) (wildcards count);
    }) ∷ []) }
{
    let KeyedRow {
        heads,
        arm,
        guarded,
        chosen,
        caught,
    } = row;
    let heads = into_rewilded_heads(alloc, heads, i, count)?;
    all.push(KeyedRow {
        heads,
        arm,
        guarded,
        chosen,
        caught,
    })?;
    Ok(())
}

/// The rows whose head at the column is a wildcard or a name, without it. The rows are those of the definitions, in
/// this order; each has a head at the column, which looks at the place. The only error is want of memory.
pub fn dropped_rows<'a, T: Copy>(
    alloc: Global,
    rows: &[KeyedRow<'a, T>],
    i: usize,
    place: &'a [Step],
) -> Result<Vec<KeyedRow<'a, T>>, NoMemory>
    requires { AreLonger i (plain_rows rows.now) }
    ensures { IfOk result (λ v. plain_rows v.items
        ≡ rows_at default_head (plain_place place.now) i (plain_rows rows.now)) }
{
    let mut all = Vec::with_capacity(alloc, rows.len())?;
    for row in rows {
        add_dropped(alloc, &mut all, row, i, place)?;
    }
    Ok(all)
}

/// The same, of rows that no one else needs: a row with a wildcard there that no pattern wrote is taken over.
pub fn into_dropped_rows<'a, T: Copy>(
    alloc: Global,
    rows: Vec<KeyedRow<'a, T>>,
    i: usize,
    place: &'a [Step],
) -> Result<Vec<KeyedRow<'a, T>>, NoMemory>
    requires { AreLonger i (plain_rows rows.items) }
    ensures { IfOk result (λ v. plain_rows v.items
        ≡ rows_at default_head (plain_place place.now) i (plain_rows rows.entry.items)) }
{
    let mut all = Vec::with_capacity(alloc, rows.len())?;
    for row in rows {
        add_moved_dropped(alloc, &mut all, row, i, place)?;
    }
    Ok(all)
}

// Adds what `dropped_rows` makes of the row, which is taken over where a wildcard stands there that no pattern wrote.
fn add_moved_dropped<'a, T: Copy>(
    alloc: Global,
    all: &mut Vec<KeyedRow<'a, T>>,
    row: KeyedRow<'a, T>,
    i: usize,
    place: &'a [Step],
) -> Result<(), NoMemory>
    requires { i < length (plain_row row).heads }
    ensures { OnOk result (plain_rows all.new.items ≡ plain_rows all.old.items
        ++ row_at default_head (plain_place place.now) i (plain_row row.entry)) }
{
    match head_at(&row, i) {
        None => add_moved_rewilded(alloc, all, row, i, 0),
        Some(_p) => add_dropped(alloc, all, &row, i, place),
    }
}

// Adds the row once for each choice at the column.
fn add_expanded<'a, T: Copy>(
    alloc: Global,
    all: &mut Vec<KeyedRow<'a, T>>,
    row: &KeyedRow<'a, T>,
    i: usize,
    place: &'a [Step],
) -> Result<(), NoMemory>
    requires { i < length (plain_row row.now).heads }
    ensures { OnOk result (plain_rows all.new.items ≡ plain_rows all.old.items
        ++ row_at expand_head (plain_place place.now) i (plain_row row.now)) }
{
    match head_at(row, i) {
        None => add_replaced(alloc, all, row, i, place, &[HeadRun::Wilds(1)], &[], &[]),
        Some(p) => add_chosen(alloc, all, row, i, place, p),
    }
}

// Adds the row once for each choice of the pattern, which stands at the column.
fn add_chosen<'a, T: Copy>(
    alloc: Global,
    all: &mut Vec<KeyedRow<'a, T>>,
    row: &KeyedRow<'a, T>,
    i: usize,
    place: &'a [Step],
    p: &'a DePat<'a, T>,
) -> Result<(), NoMemory>
    requires { i < length (plain_row row.now).heads }
    ensures { OnOk result (plain_rows all.new.items ≡ plain_rows all.old.items
        ++ chosen_rows (plain_place place.now) i (plain_row row.now) (choices_of (tree p.entry.now))) }
{
    let choices = choices_of(alloc, p)?;
    for c in &choices {
        add_replaced(
            alloc,
            all,
            row,
            i,
            place,
            &[HeadRun::Written(c.pat)],
            c.chosen.as_slice(),
            &c.binds,
        )?;
    }
    Ok(())
}

/// Adds the row with the heads of the parts in place of its head at the column, where that has all of the piece of so many
/// parts: what `piece_rows` makes of it. The only error is want of memory.
pub fn add_piece_row<'a, T: Copy>(
    alloc: Global,
    all: &mut Vec<KeyedRow<'a, T>>,
    row: &KeyedRow<'a, T>,
    i: usize,
    place: &'a [Step],
    piece: &Ctor,
    count: usize,
) -> Result<(), NoMemory>
    requires { i < length (plain_row row.now).heads }
    ensures { OnOk result (plain_rows all.new.items ≡ plain_rows all.old.items
        ++ row_at (specialise_head (plain_ctor piece.now) count) (plain_place place.now) i (plain_row row.now)) }
{
    match head_at(row, i) {
        None => add_rewilded(alloc, all, row, i, count),
        Some(p) => {
            if has_piece(&p.form.ctor, piece) {
                let heads = part_heads(alloc, p, count)?;
                add_replaced(alloc, all, row, i, place, &heads, &[], p.form.binds)
            } else {
                Ok(())
            }
        }
    }
}

// Adds the row without its head at the column, where that is a wildcard or a name.
fn add_dropped<'a, T: Copy>(
    alloc: Global,
    all: &mut Vec<KeyedRow<'a, T>>,
    row: &KeyedRow<'a, T>,
    i: usize,
    place: &'a [Step],
) -> Result<(), NoMemory>
    requires { i < length (plain_row row.now).heads }
    ensures { OnOk result (plain_rows all.new.items ≡ plain_rows all.old.items
        ++ row_at default_head (plain_place place.now) i (plain_row row.now)) }
{
    match head_at(row, i) {
        None => add_rewilded(alloc, all, row, i, 0),
        Some(p) => {
            if is_wild(&p.form.ctor) {
                add_replaced(alloc, all, row, i, place, &[], &[], p.form.binds)
            } else {
                Ok(())
            }
        }
    }
}

// Adds the row with these heads in place of that at the column.
fn add_replaced<'a, T: Copy>(
    alloc: Global,
    all: &mut Vec<KeyedRow<'a, T>>,
    row: &KeyedRow<'a, T>,
    i: usize,
    place: &'a [Step],
    heads: &[HeadRun<'a, T>],
    chosen: &[u64],
    binds: &[Bound<'a>],
) -> Result<(), NoMemory>
    requires { i < length (plain_row row.now).heads }
    ensures { OnOk result (plain_rows all.new.items ≡ plain_rows all.old.items
        ++ row_replaced (plain_place place.now) (plain_row row.now) (record {
          heads = replaced_at i (plain_heads row.now.heads.items) (plain_heads heads.now);
          chosen = chosen.now;
          binds = map plain_bound binds.now;
        }) ∷ []) }
{
    let new = replaced_row(alloc, row, i, place, heads, chosen, binds)?;
    all.push(new)?;
    Ok(())
}

// Adds the row with so many wildcards that no pattern wrote in place of its head at the column.
fn add_rewilded<'a, T: Copy>(
    alloc: Global,
    all: &mut Vec<KeyedRow<'a, T>>,
    row: &KeyedRow<'a, T>,
    i: usize,
    count: usize,
) -> Result<(), NoMemory>
    requires { i < length (plain_row row.now).heads }
    ensures { OnOk result (plain_rows all.new.items ≡ plain_rows all.old.items ++ (record (plain_row row.now) {
      heads = replaced_at i (plain_heads row.now.heads.items) (wildcards count);
    }) ∷ []) }
{
    let new = rewilded_row(alloc, row, i, count)?;
    all.push(new)?;
    Ok(())
}

// So many heads that no pattern wrote.
fn wilds<'a, T: Copy>(alloc: Global, count: usize) -> Result<Vec<HeadRun<'a, T>>, NoMemory>
    ensures { IfOk result (λ v. plain_heads v.items ≡ wildcards count) }
{
    let mut all = Vec::new(alloc);
    add_wilds(&mut all, count)?;
    Ok(all)
}

// Adds the patterns as heads.
fn add_subs<'a, T: Copy>(
    heads: &mut Vec<HeadRun<'a, T>>,
    subs: &'a [DePat<'a, T>],
) -> Result<(), NoMemory>
    ensures { OnOk result (plain_heads heads.new.items
        ≡ plain_heads heads.old.items ++ map (λ p. Some (tree p)) subs.entry.now) }
{
    for p in subs {
        heads.push(HeadRun::Written(p))?;
    }
    Ok(())
}

// The heads of the parts that the pattern writes, of so many.
fn part_heads<'a, T: Copy>(
    alloc: Global,
    p: &'a DePat<'a, T>,
    count: usize,
) -> Result<Vec<HeadRun<'a, T>>, NoMemory>
    ensures { IfOk result (λ v. plain_heads v.items
        ≡ heads_of (placed_ctor p.entry.now) (map (λ q. Some (tree q)) (placed_subs p.entry.now)) count) }
{
    match p.form.ctor {
        Ctor::Wild => wilds(alloc, count),
        Ctor::Row(Shape::Longer { front, back }) => end_heads(
            alloc,
            p.form.subs,
            front,
            back,
            count,
        ),
        _ => {
            let mut heads = Vec::with_capacity(alloc, p.form.subs.len())?;
            add_subs(&mut heads, p.form.subs)?;
            Ok(heads)
        }
    }
}

// The heads of the items at both ends of a row of so many, and those between them that no pattern wrote.
fn end_heads<'a, T: Copy>(
    alloc: Global,
    subs: &'a [DePat<'a, T>],
    front: u64,
    back: u64,
    count: usize,
) -> Result<Vec<HeadRun<'a, T>>, NoMemory>
    ensures { IfOk result (λ v. plain_heads v.items
        ≡ heads_of (RowCtor (LongerShape front back)) (map (λ q. Some (tree q)) subs.entry.now) count) }
{
    let cut = subs.len().min(front as usize);
    let (start, end) = subs.split_at(cut);
    let mut heads = Vec::with_capacity(alloc, subs.len().saturating_add(1))?;
    add_subs(&mut heads, start)?;
    let gap = count
        .saturating_sub(front as usize)
        .saturating_sub(back as usize);
    add_wilds(&mut heads, gap)?;
    add_subs(&mut heads, end)?;
    Ok(heads)
}
