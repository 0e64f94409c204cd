// What stands in rows at one column, with or-patterns taken apart.
ghost use Rattle.std.specs.Prelude.{◌≡◌, ◌<◌, ◌++◌, ◌∷◌, [], List, ℕ, map, length, cond, IfOk, OnOk, Some, None};
ghost use Rattle.std.specs.List.{All};
ghost use Rattle.match_model.specs.Places.{MStep};
ghost use Rattle.match_model.specs.Matrices.{expand_rows};
ghost use Rattle.match_model.specs.Rows.{is_wild_ctor, is_or_ctor};
ghost use Rattle.pat_context.specs.Views.{plain_ctor};
ghost use Rattle.pattern_arena.specs.Trees.{tree};
ghost use Rattle.pattern_matrix.specs.Sparse.{row_views, bare_row, bare_head, leaf_views, head_at};
ghost use Rattle.pattern_matrix.specs.Views.{plain_heads, plain_rows, plain_leaves, plain_pattern};
ghost use Rattle.pattern_matrix.specs.ChosenLists.{kept_chosen};
ghost use Rattle.pattern_matrix.specs.Spreading.{spread, apart, all_apart};

use crate::{Chosen, Head, Leaf, Row};
use no_memory::NoMemory;
use pat_context::Ctor;
use pattern_arena::DePat;
use std::alloc::Global;

// Tells whether the constructor is an or-pattern.
fn is_or(ctor: &Ctor) -> bool
    ensures { result ≡ is_or_ctor (plain_ctor ctor.now) }
{
    match ctor {
        Ctor::Or => true,
        _ => false,
    }
}

// Tells whether the constructor is a wildcard.
pub(crate) fn is_wild(ctor: &Ctor) -> bool
    ensures { result ≡ is_wild_ctor (plain_ctor ctor.now) }
{
    match ctor {
        Ctor::Wild => true,
        _ => false,
    }
}

// The pattern, unless it is a wildcard.
#[tactic(auto, using(crate::proofs::Bare::bares))]
fn unless_wild<'a, T: Copy>(p: &'a DePat<'a, T>) -> Option<&'a DePat<'a, T>>
    ensures { plain_pattern result ≡ bare_head (Some (tree p.entry.now)) }
{
    if is_wild(&p.form.ctor) { None } else { Some(p) }
}

// The pattern that is listed at the column.
fn pattern_at<'a, T: Copy>(heads: &[Head<'a, T>], column: usize) -> Option<&'a DePat<'a, T>>
    ensures { bare_head (plain_pattern result) ≡ head_at (plain_heads heads.now) column }
{
    for head in heads {
        if head.column == column {
            return Some(head.pat);
        }
    }
    None
}

// The chosen alternatives, and one more where there are several.
fn choosing(alloc: Global, chosen: &Chosen, uid: u64, several: bool) -> Result<Chosen, NoMemory>
    ensures { IfOk result (λ c. kept_chosen c ≡ kept_chosen chosen.now ++ cond several (uid ∷ []) []) }
{
    if several {
        chosen.and(alloc, uid)
    } else {
        chosen.copied()
    }
}

// Adds a leaf for each choice of the pattern, which stands in the row.
#[tactic(auto, using(crate::proofs::Spreads::spreads))]
fn add_choices<'a, T: Copy>(
    alloc: Global,
    leaves: &mut Vec<Leaf<'a, T>>,
    row: usize,
    p: &'a DePat<'a, T>,
    chosen: &Chosen,
) -> Result<(), NoMemory>
    ensures { OnOk result (plain_leaves leaves.new.items ≡ plain_leaves leaves.old.items ++ spread row (kept_chosen chosen.now) (tree p.entry.now)) }
{
    if is_or(&p.form.ctor) {
        let several = p.form.subs.len() > 1;
        for q in p.form.subs {
            let more = choosing(alloc, chosen, q.uid, several)?;
            add_choices(alloc, leaves, row, q, &more)?;
        }
        Ok(())
    } else {
        add_leaf(leaves, row, p, chosen)
    }
}

// Adds a leaf of the pattern.
fn add_leaf<'a, T: Copy>(
    leaves: &mut Vec<Leaf<'a, T>>,
    row: usize,
    p: &'a DePat<'a, T>,
    chosen: &Chosen,
) -> Result<(), NoMemory>
    ensures { OnOk result (plain_leaves leaves.new.items ≡ plain_leaves leaves.old.items
        ++ (record { row = row; head = bare_head (Some (tree p.entry.now)); chosen = kept_chosen chosen.now }) ∷ []) }
{
    let chosen = chosen.copied()?;
    leaves.push(Leaf {
        row,
        head: unless_wild(p),
        chosen,
    })?;
    Ok(())
}

/// Adds what stands at the column in the row with this number, which has these heads: one leaf for each way to choose among
/// the alternatives there. The only error is want of memory; some of the leaves may then be added.
#[tactic(auto, using(crate::proofs::Apart::aparts))]
pub fn add_leaves<'a, T: Copy>(
    alloc: Global,
    leaves: &mut Vec<Leaf<'a, T>>,
    row: usize,
    heads: &[Head<'a, T>],
    column: usize,
) -> Result<(), NoMemory>
    ensures { OnOk result (plain_leaves leaves.new.items ≡ plain_leaves leaves.old.items ++ apart row (head_at (plain_heads heads.now) column)) }
{
    match pattern_at(heads, column) {
        None => {
            leaves.push(Leaf {
                row,
                head: None,
                chosen: Chosen::Nothing,
            })?;
            Ok(())
        }
        Some(p) => add_choices(alloc, leaves, row, p, &Chosen::Nothing),
    }
}

/// What stands in the rows at the column, in order: one leaf for each way to choose among the alternatives of the head
/// there, and one for a row that lists no head there.
///
/// Over any other columns these are the rows of the definitions with the or-patterns of this column expanded, but for
/// the names that are caught. The only error is want of memory.
pub fn leaves_at<'a, T: Copy>(
    alloc: Global,
    rows: &[Row<'a, T>],
    column: usize,
) -> Result<Vec<Leaf<'a, T>>, NoMemory>
    ensures leaves { IfOk result (λ v. plain_leaves v.items ≡ all_apart column 0 (plain_rows rows.now)) }
    ensures rows { IfOk result (λ v. (place : List MStep) (others : List ℕ)
        → leaf_views others (plain_rows rows.now) (plain_leaves v.items)
        ≡ map bare_row (expand_rows place (row_views (column ∷ others) (plain_rows rows.now)))) }
    ensures within { IfOk result (λ v. All (λ l. l.row < length rows.now) v.items) }
{
    let leaves = row_leaves(alloc, rows, column)?;
    Ok(leaves)
}

// The leaves of the rows.
fn row_leaves<'a, T: Copy>(
    alloc: Global,
    rows: &[Row<'a, T>],
    column: usize,
) -> Result<Vec<Leaf<'a, T>>, NoMemory>
    ensures { IfOk result (λ v. plain_leaves v.items ≡ all_apart column 0 (plain_rows rows.now)) }
{
    let mut leaves = Vec::with_capacity(alloc, rows.len())?;
    for (i, row) in rows.iter().enumerate() {
        add_leaves(alloc, &mut leaves, i, row.heads.as_slice(), column)?;
    }
    Ok(leaves)
}
