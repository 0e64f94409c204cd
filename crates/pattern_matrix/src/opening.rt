// The rows of a piece, and the rows without a column.
ghost use Rattle.std.specs.Prelude.{◌≡◌, ◌<◌, ◌+◌, ◌-◌, ◌^◌, ◌++◌, ◌∷◌, [], List, ℕ, map, length, cond, true, IfOk, OnOk, Some, None};
ghost use Rattle.std.specs.List.{All};
ghost use Rattle.match_model.specs.Constructors.{MCtor, RowCtor, LongerShape};
ghost use Rattle.match_model.specs.Places.{MStep};
ghost use Rattle.match_model.specs.Matrices.{specialised_rows, default_rows};
ghost use Rattle.match_model.specs.Rows.{is_wild};
ghost use Rattle.pattern_arena.specs.Trees.{tree, placed_ctor, placed_subs};
ghost use Rattle.pattern_matrix.specs.Sparse.{row_views, bare_row, leaf_views, leaves_listed, leaf_parts, listed, without, columns_from, AreOthers, AreBelow, AreOver, IsLeafOf, AreParts, Lacks};
ghost use Rattle.pattern_matrix.specs.HeadLists.{kept_heads};
ghost use Rattle.pattern_matrix.specs.Views.{plain_heads, plain_row, plain_rows, plain_leaf, plain_leaves, plain_pattern};
ghost use Rattle.pattern_matrix.specs.Opening.{opened_row, opened_leaf, opened_rows, pattern_parts, dropped_row, dropped_leaf, dropped_rows};

use crate::leaves::is_wild;
use crate::without::{add_others, heads_without};
use crate::{Head, Heads, Leaf, Row};
use no_memory::NoMemory;
use pat_context::Ctor;
use pattern_arena::DePat;
use slice_split::Shape;
use std::alloc::Global;

// Adds the pattern at the column, unless it is a wildcard.
#[tactic(auto, using(crate::proofs::Bare::bares))]
pub(crate) fn add_head<'a, T: Copy>(
    heads: &mut Vec<Head<'a, T>>,
    column: usize,
    pat: &'a DePat<'a, T>,
) -> Result<(), NoMemory>
    ensures { OnOk result (plain_heads heads.new.items ≡ plain_heads heads.old.items
        ++ cond (is_wild (Some (tree pat.entry.now))) [] ((column, tree pat.entry.now) ∷ [])) }
{
    if !is_wild(&pat.form.ctor) {
        heads.push(Head { column, pat })?;
    }
    Ok(())
}

// Adds the patterns that are no wildcards, at the columns from this number on.
fn add_subs<'a, T: Copy>(
    heads: &mut Vec<Head<'a, T>>,
    first: usize,
    subs: &'a [DePat<'a, T>],
) -> Result<(), NoMemory>
    requires { first + length subs.now < 2 ^ 64 }
    ensures { OnOk result (plain_heads heads.new.items ≡ plain_heads heads.old.items ++ listed first (map (λ p. Some (tree p)) subs.entry.now)) }
{
    for (i, p) in subs.iter().enumerate() {
        add_head(heads, first + i, p)?;
    }
    Ok(())
}

// Adds the items at both ends of a row of so many items.
#[tactic(auto, using(crate::proofs::Listing::listings))]
fn add_items<'a, T: Copy>(
    heads: &mut Vec<Head<'a, T>>,
    first: usize,
    subs: &'a [DePat<'a, T>],
    front: u64,
    back: u64,
    count: usize,
) -> Result<(), NoMemory>
    requires { first + (length subs.now + (count - (front + back))) < 2 ^ 64 }
    ensures { OnOk result (plain_heads heads.new.items ≡ plain_heads heads.old.items
        ++ listed first (pattern_parts count (RowCtor (LongerShape front back)) subs.entry.now)) }
{
    let cut = subs.len().min(front as usize);
    let (start, end) = subs.split_at(cut);
    add_subs(heads, first, start)?;
    let gap = count
        .saturating_sub(front as usize)
        .saturating_sub(back as usize);
    add_subs(heads, first + cut + gap, end)?;
    Ok(())
}

// Adds the parts that the pattern writes, of so many, at the columns from this number on.
#[inline(always)]
#[tactic(auto, using(crate::proofs::Listing::listings))]
fn add_parts<'a, T: Copy>(
    heads: &mut Vec<Head<'a, T>>,
    first: usize,
    p: &'a DePat<'a, T>,
    count: usize,
) -> Result<(), NoMemory>
    requires fits { first + count < 2 ^ 64 }
    requires parts { length (pattern_parts count (placed_ctor p.now) (placed_subs p.now)) ≡ count }
    ensures { OnOk result (plain_heads heads.new.items ≡ plain_heads heads.old.items
        ++ listed first (pattern_parts count (placed_ctor p.entry.now) (placed_subs p.entry.now))) }
{
    match p.form.ctor {
        Ctor::Wild => Ok(()),
        Ctor::Row(Shape::Longer { front, back }) => add_items(
            heads,
            first,
            p.form.subs,
            front,
            back,
            count,
        ),
        _ => add_subs(heads, first, p.form.subs),
    }
}

// Adds the parts that the leaf's head writes.
#[inline(always)]
#[tactic(auto, using(crate::proofs::Listing::leaf_heads))]
fn add_leaf_parts<'a, T: Copy>(
    heads: &mut Vec<Head<'a, T>>,
    first: usize,
    head: Option<&'a DePat<'a, T>>,
    count: usize,
) -> Result<(), NoMemory>
    requires fits { first + count < 2 ^ 64 }
    requires parts { length (leaf_parts count (plain_pattern head)) ≡ count }
    ensures { OnOk result (plain_heads heads.new.items ≡ plain_heads heads.old.items ++ listed first (leaf_parts count (plain_pattern head.entry))) }
{
    match head {
        None => Ok(()),
        Some(p) => add_parts(heads, first, p, count),
    }
}

// The heads with those of so many parts of the leaf's head, at the columns from the first number on, in place of that at
// the column.
#[inline(always)]
fn opened_heads<'a, T: Copy>(
    alloc: Global,
    heads: &Heads<'a, T>,
    head: Option<&'a DePat<'a, T>>,
    column: usize,
    first: usize,
    count: usize,
) -> Result<Heads<'a, T>, NoMemory>
    requires fits { first + count < 2 ^ 64 }
    requires parts { length (leaf_parts count (plain_pattern head)) ≡ count }
    ensures { IfOk result (λ h. plain_heads (kept_heads h) ≡ listed first (leaf_parts count (plain_pattern head.entry)) ++ without column (plain_heads (kept_heads heads.now))) }
{
    let mut all = Vec::new(alloc);
    add_leaf_parts(&mut all, first, head, count)?;
    if all.is_empty() {
        return heads_without(alloc, heads, column);
    }
    add_others(&mut all, heads.as_slice(), column)?;
    Heads::of(all)
}

/// The row of the leaf, which is of this row, with the heads of so many parts, at the columns from the first number on, in
/// place of that at the column. The leaf writes so many parts. The only error is want of memory.
#[inline(always)]
pub fn opened_row<'a, T: Copy>(
    alloc: Global,
    row: &Row<'a, T>,
    leaf: &Leaf<'a, T>,
    column: usize,
    first: usize,
    count: usize,
) -> Result<Row<'a, T>, NoMemory>
    requires fits { first + count < 2 ^ 64 }
    requires parts { length (leaf_parts count (plain_leaf leaf.now).head) ≡ count }
    ensures { IfOk result (λ r. plain_row r ≡ opened_row column first count (plain_leaf leaf.now) (plain_row row.now)) }
{
    let heads = opened_heads(alloc, &row.heads, leaf.head, column, first, count)?;
    let chosen = row.chosen.and_all(alloc, &leaf.chosen)?;
    Ok(Row {
        heads,
        arm: row.arm,
        guarded: row.guarded,
        chosen,
    })
}

// Adds the opened row of the leaf with the number.
fn add_opened<'a, T: Copy>(
    alloc: Global,
    opened: &mut Vec<Row<'a, T>>,
    rows: &[Row<'a, T>],
    leaf: &Leaf<'a, T>,
    column: usize,
    first: usize,
    count: usize,
) -> Result<(), NoMemory>
    requires within { leaf.now.row < length rows.now }
    requires fits { first + count < 2 ^ 64 }
    requires parts { length (leaf_parts count (plain_leaf leaf.now).head) ≡ count }
    ensures { OnOk result (plain_rows opened.new.items ≡ plain_rows opened.old.items
        ++ opened_leaf column first count (plain_rows rows.now) (plain_leaf leaf.now)) }
{
    let new = opened_row(alloc, &rows[leaf.row], leaf, column, first, count)?;
    opened.push(new)?;
    Ok(())
}

/// The rows of a piece of the column, which has so many parts, from the leaves with these numbers: the heads of the
/// parts, at new columns from the first number on, in place of the head at the column.
///
/// Each of these leaves has all of the piece. Over any other columns these are the rows of the definitions specialised
/// by the piece, but for the names that are caught. The only error is want of memory.
pub fn piece_rows<'a, T: Copy>(
    alloc: Global,
    rows: &[Row<'a, T>],
    leaves: &[Leaf<'a, T>],
    numbers: &[usize],
    column: usize,
    first: usize,
    count: usize,
) -> Result<Vec<Row<'a, T>>, NoMemory>
    requires numbers { All (λ k. k < length leaves.now) numbers.now }
    requires within { All (λ l. l.row < length rows.now) leaves.now }
    requires parts { All (λ k. AreParts count (plain_leaves leaves.now) k) numbers.now }
    requires fits { first + count < 2 ^ 64 }
    ensures opened { IfOk result (λ v. plain_rows v.items
        ≡ opened_rows column first count (plain_rows rows.now) (leaves_listed (plain_leaves leaves.now) numbers.now)) }
    ensures rows { IfOk result (λ v. (place : List MStep) (piece : MCtor) (others : List ℕ) → AreBelow first (plain_rows rows.now)
        → AreOthers column first others → All (IsLeafOf piece count) (leaves_listed (plain_leaves leaves.now) numbers.now)
        → row_views (columns_from first count ++ others) (plain_rows v.items)
        ≡ map bare_row (specialised_rows place piece count (leaf_views others (plain_rows rows.now) (leaves_listed (plain_leaves leaves.now) numbers.now)))) }
    ensures over { IfOk result (λ v. (others : List ℕ) → AreOver (column ∷ others) (plain_rows rows.now)
        → AreOver (columns_from first count ++ others) (plain_rows v.items)) }
    ensures within { IfOk result (λ v. AreBelow first (plain_rows rows.now) → AreBelow (first + count) (plain_rows v.items)) }
{
    let opened = opened_rows(alloc, rows, leaves, numbers, column, first, count)?;
    Ok(opened)
}

// The opened rows of the leaves with these numbers.
fn opened_rows<'a, T: Copy>(
    alloc: Global,
    rows: &[Row<'a, T>],
    leaves: &[Leaf<'a, T>],
    numbers: &[usize],
    column: usize,
    first: usize,
    count: usize,
) -> Result<Vec<Row<'a, T>>, NoMemory>
    requires numbers { All (λ k. k < length leaves.now) numbers.now }
    requires within { All (λ l. l.row < length rows.now) leaves.now }
    requires parts { All (λ k. AreParts count (plain_leaves leaves.now) k) numbers.now }
    requires fits { first + count < 2 ^ 64 }
    ensures { IfOk result (λ v. plain_rows v.items
        ≡ opened_rows column first count (plain_rows rows.now) (leaves_listed (plain_leaves leaves.now) numbers.now)) }
{
    let mut opened = Vec::with_capacity(alloc, numbers.len())?;
    for k in numbers {
        add_opened(alloc, &mut opened, rows, &leaves[*k], column, first, count)?;
    }
    Ok(opened)
}

/// Tells whether the head of a leaf is a wildcard.
#[inline(always)]
#[tactic(auto, using(crate::proofs::Bare::bares))]
pub fn is_wild_leaf<'a, T: Copy>(head: Option<&'a DePat<'a, T>>) -> bool
    ensures { result ≡ is_wild (plain_pattern head.entry) }
{
    match head {
        None => true,
        Some(p) => is_wild(&p.form.ctor),
    }
}

/// The row of the leaf, which is of this row, without its head at the column. The only error is want of memory.
#[inline(always)]
pub fn dropped_row<'a, T: Copy>(
    alloc: Global,
    row: &Row<'a, T>,
    leaf: &Leaf<'a, T>,
    column: usize,
) -> Result<Row<'a, T>, NoMemory>
    ensures { IfOk result (λ r. plain_row r ≡ dropped_row column (plain_leaf leaf.now) (plain_row row.now)) }
{
    let heads = heads_without(alloc, &row.heads, column)?;
    let chosen = row.chosen.and_all(alloc, &leaf.chosen)?;
    Ok(Row {
        heads,
        arm: row.arm,
        guarded: row.guarded,
        chosen,
    })
}

// Adds the row of the leaf without its head at the column, where that is a wildcard.
fn add_dropped<'a, T: Copy>(
    alloc: Global,
    dropped: &mut Vec<Row<'a, T>>,
    rows: &[Row<'a, T>],
    leaf: &Leaf<'a, T>,
    column: usize,
) -> Result<(), NoMemory>
    requires within { leaf.now.row < length rows.now }
    ensures { OnOk result (plain_rows dropped.new.items ≡ plain_rows dropped.old.items ++ dropped_leaf column (plain_rows rows.now) (plain_leaf leaf.now)) }
{
    if is_wild_leaf(leaf.head) {
        let new = dropped_row(alloc, &rows[leaf.row], leaf, column)?;
        dropped.push(new)?;
        Ok(())
    } else {
        Ok(())
    }
}

/// The rows whose head at the column is a wildcard, without it.
///
/// Over any other columns these are the default rows of the definitions, but for the names that are caught: those of a
/// piece that no head has. The only error is want of memory.
pub fn wild_rows<'a, T: Copy>(
    alloc: Global,
    rows: &[Row<'a, T>],
    leaves: &[Leaf<'a, T>],
    column: usize,
) -> Result<Vec<Row<'a, T>>, NoMemory>
    requires within { All (λ l. l.row < length rows.now) leaves.now }
    ensures dropped { IfOk result (λ v. plain_rows v.items ≡ dropped_rows column (plain_rows rows.now) (plain_leaves leaves.now)) }
    ensures rows { IfOk result (λ v. (place : List MStep) (others : List ℕ) → Lacks column others
        → row_views others (plain_rows v.items) ≡ map bare_row (default_rows place (leaf_views others (plain_rows rows.now) (plain_leaves leaves.now)))) }
    ensures over { IfOk result (λ v. (others : List ℕ) → AreOver (column ∷ others) (plain_rows rows.now) → AreOver others (plain_rows v.items)) }
    ensures within { IfOk result (λ v. (end : ℕ) → AreBelow end (plain_rows rows.now) → AreBelow end (plain_rows v.items)) }
{
    let dropped = dropped_rows(alloc, rows, leaves, column)?;
    Ok(dropped)
}

// The rows of the leaves that are wildcards, without their heads at the column.
fn dropped_rows<'a, T: Copy>(
    alloc: Global,
    rows: &[Row<'a, T>],
    leaves: &[Leaf<'a, T>],
    column: usize,
) -> Result<Vec<Row<'a, T>>, NoMemory>
    requires within { All (λ l. l.row < length rows.now) leaves.now }
    ensures { IfOk result (λ v. plain_rows v.items ≡ dropped_rows column (plain_rows rows.now) (plain_leaves leaves.now)) }
{
    let mut dropped = Vec::new(alloc);
    for leaf in leaves {
        add_dropped(alloc, &mut dropped, rows, leaf, column)?;
    }
    Ok(dropped)
}
