// Pieces of a place of which the rows leave nothing, told before their rows are made.
ghost use Rattle.std.specs.Prelude.{◌≡◌, ◌<◌, ◌∷◌, true, nat_eq, length, ℕ, []};
ghost use Rattle.std.specs.List.{All, list_all, list_any};
ghost use Rattle.pattern_matrix.specs.Opening.{opened_row, opened_rows};
ghost use Rattle.pattern_matrix.specs.Sparse.{leaf_parts, leaves_listed, listed};
ghost use Rattle.pattern_matrix.specs.Views.{plain_heads, plain_row, plain_rows, plain_leaf, plain_leaves, plain_pattern};
ghost use Rattle.witness_search.specs.Starts.{lists_none};

use crate::apart::Apart;
use pattern_arena::DePat;
use pattern_matrix::{Head, Leaf, Row};

// Tells whether the head of a leaf writes no part.
fn writes_none<'a, T: Copy>(head: Option<&'a DePat<'a, T>>) -> bool
    ensures { result ≡ true → (first count : ℕ) → listed first (leaf_parts count (plain_pattern head.entry)) ≡ [] }
{
    match head {
        None => true,
        Some(p) => p.form.subs.is_empty(),
    }
}

// Tells whether all heads of the row stand at the column.
fn stands_alone<'a, T: Copy>(heads: &[Head<'a, T>], column: usize) -> bool
    ensures { result ≡ list_all (λ h. nat_eq h.0 column) (plain_heads heads.now) }
{
    for head in heads {
        if head.column != column {
            return false;
        }
    }
    true
}

// Tells whether the row of the leaf lists no head, whatever piece is entered.
fn is_bare<'a, T: Copy>(row: &Row<'a, T>, leaf: &Leaf<'a, T>, column: usize) -> bool
    ensures { result ≡ true → (first count : ℕ) → lists_none (opened_row column first count (plain_leaf leaf.now) (plain_row row.now)) ≡ true }
{
    if writes_none(leaf.head) {
        stands_alone(row.heads.as_slice(), column)
    } else {
        false
    }
}

// Tells whether the row of the leaf with the number lists no head, whatever piece is entered.
fn is_bare_at<'a, T: Copy>(e: &Apart<'a, T>, number: usize) -> bool
    requires within { number < length e.now.leaves.items }
    requires rows { All (λ l. l.row < length e.now.rows.items) e.now.leaves.items }
    ensures { result ≡ true → (first count : ℕ) → list_any lists_none (opened_rows e.now.place.number first count (plain_rows e.now.rows.items)
        (leaves_listed (plain_leaves e.now.leaves.items) (number ∷ []))) ≡ true }
{
    let leaf = &e.leaves[number];
    is_bare(&e.rows[leaf.row], leaf, e.place.number)
}

// Tells whether one of the leaves with these numbers takes all values of a piece that they have, so that their rows leave
// nothing of it.
pub(crate) fn is_covered<'a, T: Copy>(e: &Apart<'a, T>, leaves: &[usize]) -> bool
    requires within { All (λ k. k < length e.now.leaves.items) leaves.now }
    requires rows { All (λ l. l.row < length e.now.rows.items) e.now.leaves.items }
    ensures { result ≡ true → (first count : ℕ) → list_any lists_none (opened_rows e.now.place.number first count (plain_rows e.now.rows.items)
        (leaves_listed (plain_leaves e.now.leaves.items) leaves.now)) ≡ true }
{
    for k in leaves {
        if is_bare_at(e, *k) {
            return true;
        }
    }
    false
}
