// Rows that bring nothing new, since everything that they may answer is marked.
ghost use Rattle.std.specs.Prelude.{◌≡◌, ◌&&◌, not, map};
ghost use Rattle.std.specs.List.{list_all};
ghost use Rattle.match_model.specs.ArenaPatterns.{de_pats_of};
ghost use Rattle.match_model.specs.Numbering.{is_choice};
ghost use Rattle.match_model.specs.Rows.{is_or_ctor};
ghost use Rattle.pat_context.specs.Views.{plain_ctor};
ghost use Rattle.pattern_arena.specs.Trees.{tree, placed_ctor, placed_subs};
ghost use Rattle.pattern_matrix.specs.Views.{plain_row, plain_heads};
ghost use Rattle.pattern_matrix.specs.Counting.{through_alternative};
ghost use Rattle.usefulness.specs.Marking.{is_marked};
ghost use Rattle.usefulness.specs.States.{plain_asked};
ghost use Rattle.usefulness.specs.Done.{choices_within, are_marked, is_done};

use crate::Marks;
use crate::frames::Asked;
use pat_context::Ctor;
use pattern_arena::DePat;
use pattern_matrix::{Head, Marked, Row};

// Tells whether these alternatives of the arm are all marked. The one that was chosen last is asked for first: in an alternative
// within another it is mostly that one which is not.
pub(crate) fn are_marked(marks: &Marks, arm: u32, ids: &[u64]) -> bool
    ensures { result ≡ are_marked (is_marked marks.now) arm ids.now }
{
    match ids.split_last() {
        None => true,
        Some((last, others)) => {
            marks.has_alternative(arm, *last) && all_marked(marks, arm, others)
        }
    }
}

// The same, from the first one on.
fn all_marked(marks: &Marks, arm: u32, ids: &[u64]) -> bool
    ensures { result ≡ are_marked (is_marked marks.now) arm ids.now }
{
    for id in ids {
        if !marks.has_alternative(arm, *id) {
            return false;
        }
    }
    true
}

// Tells whether the constructor is an or-pattern.
fn is_or(ctor: &Ctor) -> bool
    ensures { result ≡ is_or_ctor (plain_ctor ctor.now) }
{
    match ctor {
        Ctor::Or => true,
        _ => false,
    }
}

// Tells whether the pattern is an or-pattern of two or more alternatives. Most patterns have none below them, so that is asked
// first.
#[tactic(auto, using(crate::proofs::Settled::choices))]
fn is_choice<'a, T: Copy>(p: &'a DePat<'a, T>) -> bool
    ensures { result ≡ is_choice (placed_ctor p.now) (de_pats_of (map tree (placed_subs p.now))) }
{
    if p.form.subs.len() > 1 {
        is_or(&p.form.ctor)
    } else {
        false
    }
}

// Tells whether the pattern is one of several alternatives, and is not marked for the arm.
fn is_left(marks: &Marks, arm: u32, choice: bool, uid: u64) -> bool
    ensures { result ≡ (choice && not (is_marked marks.now (through_alternative arm uid))) }
{
    choice && !marks.has_alternative(arm, uid)
}

// Tells whether all alternatives in the pattern are marked for the arm.
pub(crate) fn is_settled<'a, T: Copy>(marks: &Marks, arm: u32, p: &'a DePat<'a, T>) -> bool
    ensures { result ≡ are_marked (is_marked marks.now) arm (choices_within (tree p.entry.now)) }
{
    let choice = is_choice(p);
    for q in p.form.subs {
        if is_left(marks, arm, choice, q.uid) {
            return false;
        }
        if !is_settled(marks, arm, q) {
            return false;
        }
    }
    true
}

// Tells whether all alternatives in the heads are marked for the arm.
fn are_settled<'a, T: Copy>(marks: &Marks, arm: u32, heads: &[Head<'a, T>]) -> bool
    ensures { result ≡ list_all (λ h. are_marked (is_marked marks.now) arm (choices_within h.1)) (plain_heads heads.now) }
{
    for head in heads {
        if !is_settled(marks, arm, head.pat) {
            return false;
        }
    }
    true
}

// Tells whether everything is marked that the row may answer.
fn is_done<'a, T: Copy>(marks: &Marks, row: &Row<'a, T>) -> bool
    ensures { result ≡ is_done (is_marked marks.now) (plain_row row.now) }
{
    marks.has_arm(row.arm)
        && are_marked(marks, row.arm, row.chosen.as_slice())
        && are_settled(marks, row.arm, row.heads.as_slice())
}

// Tells whether something new is still looked for in the row.
pub(crate) fn is_wanted<'a, T: Copy>(marks: &Marks, asked: &Asked<'a, T>) -> bool
    ensures { result ≡ (asked.now.wanted && not (is_done (is_marked marks.now) (plain_asked asked.now).row)) }
{
    asked.wanted && !is_done(marks, &asked.row)
}
