// Walks through a tree.
ghost use Rattle.std.specs.Prelude.{◌≡◌, IfOk, slice_get};
ghost use Rattle.match_model.specs.Trees.{IsDefinedOn, IsForward};
ghost use Rattle.tree_eval.specs.Nodes.{tree_nodes};
ghost use Rattle.tree_eval.specs.Views.{plain_value};
ghost use Rattle.tree_runs.specs.Runs.{IsRun, AreAsked};

use crate::turn::{Turn, turn_at};
use no_memory::NoMemory;
use std::alloc::Global;
use tree_eval::{Tree, Value};

/// How a walk through a tree ends. A node's number is its index in the tree; `used` counts the guards that got an
/// answer.
#[derive(Clone, Copy, Debug, PartialEq, Eq)]
pub enum Outcome {
    /// The arm of the node is taken.
    Took { node: u64, used: u64 },
    /// No arm is taken.
    Missed { used: u64 },
    /// The next guard has no answer.
    Short { used: u64 },
}

// The answer with the number, from 0, where it is there.
fn answer_at(answers: &[bool], number: usize) -> Option<bool>
    ensures { result ≡ slice_get answers.now number }
{
    if number < answers.len() {
        Some(answers[number])
    } else {
        None
    }
}

/// Follows the tree from its first node with the value and the answers of its guards, in the order in which guards are
/// asked; answers that no guard takes are ignored. It takes no memory.
///
/// The tree is defined on the value, and each of its nodes goes on at greater numbers.
pub fn follow(tree: &Tree, value: &Value, answers: &[bool]) -> Outcome
    requires defined { IsDefinedOn (tree_nodes tree.now) (plain_value value.now) }
    requires forward { IsForward (tree_nodes tree.now) }
    ensures { IsRun (tree_nodes tree.now) (plain_value value.now) answers.now result }
{
    let mut node = 0;
    let mut used = 0;
    'walk: loop {
        match turn_at(tree, node, value, answer_at(answers, used)) {
            Turn::Case(next) => node = next,
            Turn::Refused(next) => {
                node = next;
                used += 1;
            }
            Turn::Granted => {
                let used = used as u64 + 1;
                return Outcome::Took { node, used };
            }
            Turn::Taken => {
                let used = used as u64;
                return Outcome::Took { node, used };
            }
            Turn::Missed => return Outcome::Missed { used: used as u64 },
            Turn::Short => return Outcome::Short { used: used as u64 },
        }
    }
}

/// The nodes whose guards get an answer on that walk, in order. The only error is want of memory.
///
/// The tree is defined on the value, and each of its nodes goes on at greater numbers.
pub fn asked(
    alloc: Global,
    tree: &Tree,
    value: &Value,
    answers: &[bool],
) -> Result<Vec<u64>, NoMemory>
    requires defined { IsDefinedOn (tree_nodes tree.now) (plain_value value.now) }
    requires forward { IsForward (tree_nodes tree.now) }
    ensures { IfOk result (λ ns. AreAsked (tree_nodes tree.now) (plain_value value.now) answers.now ns.items) }
{
    let mut nodes = Vec::new(alloc);
    let mut node = 0;
    'walk: loop {
        match turn_at(tree, node, value, answer_at(answers, nodes.len())) {
            Turn::Case(next) => node = next,
            Turn::Refused(next) => {
                nodes.push(node)?;
                node = next;
            }
            Turn::Granted => {
                nodes.push(node)?;
                return Ok(nodes);
            }
            Turn::Taken => return Ok(nodes),
            Turn::Missed => return Ok(nodes),
            Turn::Short => return Ok(nodes),
        }
    }
}
