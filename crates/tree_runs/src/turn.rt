// What happens at one node of a walk.
ghost use Rattle.std.specs.Prelude.{◌≡◌, ℕ, List, Some, IsTrue, map, slice_get};
ghost use Rattle.match_model.specs.Places.{part_at};
ghost use Rattle.match_model.specs.Trees.{MBind, MBranch, AskNode, branch_at, is_decided, is_sound};
ghost use Rattle.match_model.specs.Values.{MValue};
ghost use Rattle.pat_context.specs.Places.{steps_of};
ghost use Rattle.pat_context.specs.Views.{plain_place};
ghost use Rattle.tree_eval.specs.Nodes.{plain_branch, plain_node, tree_nodes};
ghost use Rattle.tree_eval.specs.Views.{plain_value};
ghost use Rattle.tree_runs.specs.Turns.{IsTurn, IsTurnAt};

use crate::cases::next_for;
use crate::part::part_at;
use pat_context::Place;
use tree_eval::{Case, Node, Tree, Value};

// What happens at a node.
#[derive(Clone, Copy)]
pub(crate) enum Turn {
    // A switch goes on at this node.
    Case(u64),
    // A guard refuses, and the walk goes on at this node.
    Refused(u64),
    // A guard takes its arm.
    Granted,
    // An arm is taken that has no guard.
    Taken,
    // No arm is left, or there is no value.
    Missed,
    // A guard has no answer.
    Short,
}

// What happens at the node with the number, where this is the next answer.
pub(crate) fn turn_at(tree: &Tree, number: u64, value: &Value, answer: Option<bool>) -> Turn
    requires { IsTrue (is_sound (plain_value value.now) (slice_get (tree_nodes tree.now) number)) }
    ensures { IsTurnAt (tree_nodes tree.now) number (plain_value value.now) answer result }
{
    turn_of(&tree.nodes[number as usize], value, answer)
}

// What happens at the node, where this is the next answer.
fn turn_of(node: &Node, value: &Value, answer: Option<bool>) -> Turn
    requires { IsTrue (is_sound (plain_value value.now) (Some (plain_node node.now))) }
    ensures { IsTurn (plain_node node.now) (plain_value value.now) answer result }
{
    match node {
        Node::Switch { place, cases } => Turn::Case(next_at(place, cases, value)),
        Node::Ask { no, .. } => asking(answer, *no),
        Node::Take { .. } => Turn::Taken,
        Node::Miss => Turn::Missed,
        Node::Void => Turn::Missed,
    }
}

// What a guard does with the answer.
fn asking(answer: Option<bool>, no: u64) -> Turn
    ensures { (arm : ℕ) (binds : List MBind) (v : MValue) → IsTurn (AskNode arm binds no) v answer result }
{
    match answer {
        None => Turn::Short,
        Some(true) => Turn::Granted,
        Some(false) => Turn::Refused(no),
    }
}

// The node where a switch goes on.
fn next_at(place: &Place, cases: &[(Case, u64)], value: &Value) -> u64
    requires { IsTrue (is_decided (part_at (plain_place (steps_of place.now)) (plain_value value.now))
        (map plain_branch cases.now)) }
    ensures { (b : MBranch) × (branch_at (plain_place (steps_of place.now)) (map plain_branch cases.now)
        (plain_value value.now) ≡ Some b) × (b.next ≡ result) }
{
    let Some(part) = part_at(value, place.steps()) else {
        unreachable!()
    };
    let Some(next) = next_for(cases, part) else {
        unreachable!()
    };
    next
}
