// Rows that have only wildcards and names left.
ghost use Rattle.std.specs.Prelude.{◌≡◌, ◌≤◌, Some, length};
ghost use Rattle.std.specs.List.{list_all};
ghost use Rattle.match_model.specs.DecisionTrees.{all_wild};
ghost use Rattle.match_model.specs.Rows.{is_wild};
ghost use Rattle.pattern_arena.specs.Trees.{tree};
ghost use Rattle.keyed_matrix.specs.Views.{plain_head, plain_run, plain_row, plain_rows};
ghost use Rattle.decision_tree.specs.Asking.{asks_guard, AreAsked};

use keyed_matrix::{HeadRun, KeyedRow};
use pat_context::Ctor;
use pattern_arena::DePat;

// Tells whether the head is a wildcard or a name.
pub(crate) fn is_wild<'a, T: Copy>(head: &Option<&'a DePat<'a, T>>) -> bool
    ensures { result ≡ is_wild (plain_head head.now) }
{
    match head {
        None => true,
        Some(p) => is_wild_pat(p),
    }
}

// Tells whether the pattern is a wildcard or a name.
pub(crate) fn is_wild_pat<'a, T: Copy>(pat: &DePat<'a, T>) -> bool
    ensures { result ≡ is_wild (Some (tree pat.now)) }
{
    match pat.form.ctor {
        Ctor::Wild => true,
        _ => false,
    }
}

// Tells whether the heads side by side are wildcards and names.
#[tactic(auto, using(crate::proofs::RunTests::run_tests))]
fn is_wild_run<'a, T: Copy>(one: &HeadRun<'a, T>) -> bool
    ensures { result ≡ list_all is_wild (plain_run one.now) }
{
    match one {
        HeadRun::Wilds(_count) => true,
        HeadRun::Written(p) => is_wild_pat(*p),
    }
}

// Tells whether every head of the row is one.
pub(crate) fn is_leaf<'a, T: Copy>(row: &KeyedRow<'a, T>) -> bool
    ensures { result ≡ all_wild (plain_row row.now) }
{
    for one in &row.heads {
        if !is_wild_run(one) {
            return false;
        }
    }
    true
}

// Tells whether the row has only wildcards and names left, and a guard.
fn asks_guard<'a, T: Copy>(row: &KeyedRow<'a, T>) -> bool
    ensures { result ≡ asks_guard (plain_row row.now) }
{
    row.guarded && is_leaf(row)
}

// How many of the rows in front have only wildcards and names left, and a guard.
pub(crate) fn count_asked<'a, T: Copy>(rows: &[KeyedRow<'a, T>]) -> usize
    ensures within { result ≤ length rows.now }
    ensures asked { AreAsked result (plain_rows rows.now) }
{
    for i in 0..rows.len() {
        if !asks_guard(&rows[i]) {
            return i;
        }
    }
    rows.len()
}
