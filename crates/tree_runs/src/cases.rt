// The case of a switch that has a part.
ghost use Rattle.std.specs.Prelude.{◌≡◌, chars, map, option_map};
ghost use Rattle.std.specs.List.{find};
ghost use Rattle.match_model.specs.Texts.{text_eq};
ghost use Rattle.match_model.specs.Trees.{case_has, is_else};
ghost use Rattle.tree_eval.specs.Nodes.{plain_branch, plain_case};
ghost use Rattle.tree_eval.specs.Views.{plain_value};
ghost use Rattle.tree_runs.specs.Parts.{plain_part, row_of};
ghost use Rattle.tree_runs.specs.Turns.{branch_for};

use crate::part::Part;
use tree_eval::{Case, Value};

// The node where a switch goes on at the part.
pub(crate) fn next_for<'a>(cases: &[(Case, u64)], part: Part<'a>) -> Option<u64>
    ensures { result ≡ option_map (λ b. b.next) (branch_for (plain_part part.entry) (map plain_branch cases.now)) }
{
    match next_with(cases, part) {
        Some(next) => Some(next),
        None => next_else(cases),
    }
}

// The node behind the first case that has the part.
fn next_with<'a>(cases: &[(Case, u64)], part: Part<'a>) -> Option<u64>
    ensures { result ≡ option_map (λ b. b.next)
        (find (λ b. case_has b.case (plain_part part.entry)) (map plain_branch cases.now)) }
{
    for branch in cases {
        if case_has(&branch.0, part) {
            return Some(branch.1);
        }
    }
    None
}

// The node behind the first else.
fn next_else(cases: &[(Case, u64)]) -> Option<u64>
    ensures { result ≡ option_map (λ b. b.next) (find (λ b. is_else b.case) (map plain_branch cases.now)) }
{
    for branch in cases {
        if is_else(&branch.0) {
            return Some(branch.1);
        }
    }
    None
}

// Tells whether the case is the else.
fn is_else(case: &Case) -> bool
    ensures { result ≡ is_else (plain_case case.now) }
{
    match case {
        Case::Else => true,
        _ => false,
    }
}

// Tells whether the case has the part.
fn case_has<'a>(case: &Case, part: Part<'a>) -> bool
    ensures { result ≡ case_has (plain_case case.now) (plain_part part.entry) }
{
    match part {
        Part::Whole(value) => case_has_value(case, value),
        Part::Items(items) => case_has_row(case, items),
    }
}

// Tells whether the case has the value.
fn case_has_value(case: &Case, value: &Value) -> bool
    ensures { result ≡ case_has (plain_case case.now) (plain_value value.now) }
{
    match (value, case) {
        (Value::Node { variant, .. }, Case::Variant(k)) => *variant == *k,
        (Value::Flag(b), Case::Flag(c)) => *c == *b,
        (Value::Num(n), Case::Span(range)) => range.contains(n),
        (Value::Text(t), Case::Text(u)) => is_same_text(u.as_str(), t.as_str()),
        (Value::Row(items), _) => case_has_row(case, items),
        _ => false,
    }
}

// Tells whether the case has the row of these items.
fn case_has_row(case: &Case, items: &[Value]) -> bool
    ensures { result ≡ case_has (plain_case case.now) (row_of items.now) }
{
    let count = items.len() as u64;
    match *case {
        Case::Length(n) => n == count,
        Case::Longer { front, back } => front <= count && back <= count - front,
        _ => false,
    }
}

// Tells whether two texts are the same.
fn is_same_text(text: &str, other: &str) -> bool
    ensures { result ≡ text_eq (chars text.now) (chars other.now) }
{
    text == other
}
