// The least node that reaches itself.
ghost use Rattle.std.specs.Prelude.{◌≡◌, ◌<◌, ◌≤◌, ◌^◌, ℕ, IsTrue, IsNone, IfOk, IfSome, Ok, true, false, length, slice_index};
ghost use Rattle.std.specs.List.{All};
ghost use Rattle.cycle_search.specs.Graphs.{plain_graph, HasTargetsBelow, Reaches, IsFirstOnCycle, HasNoCycle};
ghost use Rattle.cycle_search.specs.Groups.{HasOneOnCycle, HasNoneOnCycle, IsFirstGroup};
ghost use Rattle.cycle_search.specs.Numbers.{NeverRises};

use crate::components::component_numbers;
use crate::way::is_on_cycle;
use no_memory::NoMemory;
use std::alloc::{AllocError, Global};

/// The least node that reaches itself by one edge or more, where there is one.
///
/// A node is a number from 0 on, and `edges[i]` are the nodes to which the edges of node `i` go, in any order; a node may
/// stand there more than once. There are at most 4,294,967,296 nodes, and each edge goes to one of them. The only error is
/// want of memory.
pub fn first_on_cycle(alloc: Global, edges: &[Vec<u32>]) -> Result<Option<u32>, NoMemory>
    requires targets { All (HasTargetsBelow (length edges.now)) edges.now }
    requires few { length edges.now ≤ 2 ^ 32 }
    ensures found { IfOk result (λ answer. IfSome answer (IsFirstOnCycle (plain_graph edges.now))) }
    ensures none { IfOk result (λ answer. IsNone answer → HasNoCycle (plain_graph edges.now)) }
{
    let numbers = falling_numbers(alloc, edges)?;
    for node in 0..edges.len() {
        if reaches_itself(alloc, edges, &numbers, node as u32)? {
            return Ok(Some(node as u32));
        }
    }
    Ok(None)
}

/// The first of these groups of nodes, counted from 0, that has a node which reaches itself by one edge or more.
///
/// Nodes and edges are those of [`first_on_cycle`]. A node may stand in several groups.
pub fn first_group_on_cycle(
    alloc: Global,
    edges: &[Vec<u32>],
    groups: &[Vec<u32>],
) -> Result<Option<usize>, NoMemory>
    requires targets { All (HasTargetsBelow (length edges.now)) edges.now }
    requires few { length edges.now ≤ 2 ^ 32 }
    requires groups { All (HasTargetsBelow (length edges.now)) groups.now }
    ensures found { IfOk result (λ answer. IfSome answer (IsFirstGroup (plain_graph edges.now) groups.now)) }
    ensures none { IfOk result (λ answer. IsNone answer → All (HasNoneOnCycle (plain_graph edges.now)) groups.now) }
{
    let numbers = falling_numbers(alloc, edges)?;
    for (i, group) in groups.iter().enumerate() {
        if some_reaches_itself(alloc, edges, &numbers, group)? {
            return Ok(Some(i));
        }
    }
    Ok(None)
}

// Tells whether a node of the list reaches itself.
fn some_reaches_itself(
    alloc: Global,
    edges: &[Vec<u32>],
    numbers: &[u32],
    group: &Vec<u32>,
) -> Result<bool, AllocError>
    requires targets { All (HasTargetsBelow (length edges.now)) edges.now }
    requires len { length numbers.now ≡ length edges.now }
    requires falling { NeverRises (plain_graph edges.now) numbers.now }
    requires group { HasTargetsBelow (length edges.now) group.now }
    ensures yes { result ≡ Ok true → HasOneOnCycle (plain_graph edges.now) group.now }
    ensures no { result ≡ Ok false → HasNoneOnCycle (plain_graph edges.now) group.now }
{
    for node in group {
        if reaches_itself(alloc, edges, numbers, *node)? {
            return Ok(true);
        }
    }
    Ok(false)
}

// Tells whether a node reaches itself. It is searched from only where one of its edges goes to an equal number.
fn reaches_itself(
    alloc: Global,
    edges: &[Vec<u32>],
    numbers: &[u32],
    node: u32,
) -> Result<bool, AllocError>
    requires targets { All (HasTargetsBelow (length edges.now)) edges.now }
    requires len { length numbers.now ≡ length edges.now }
    requires falling { NeverRises (plain_graph edges.now) numbers.now }
    requires node { node < length edges.now }
    ensures yes { result ≡ Ok true → Reaches (plain_graph edges.now) node node }
    ensures no { result ≡ Ok false → Reaches (plain_graph edges.now) node node → ⊥ }
{
    let targets = &edges[node as usize];
    if are_below(targets, numbers, numbers[node as usize]) {
        return Ok(false);
    }
    is_on_cycle(alloc, edges, node)
}

// A number for each node, such that no edge goes to a greater number.
fn falling_numbers(alloc: Global, edges: &[Vec<u32>]) -> Result<Vec<u32>, AllocError>
    requires targets { All (HasTargetsBelow (length edges.now)) edges.now }
    requires few { length edges.now ≤ 2 ^ 32 }
    ensures len { IfOk result (λ v. length v.items ≡ length edges.now) }
    ensures falling { IfOk result (λ v. NeverRises (plain_graph edges.now) v.items) }
{
    let numbers = component_numbers(alloc, edges)?;
    if never_rises(edges, &numbers) {
        Ok(numbers)
    } else {
        // This does not come about. With these numbers each node is searched from.
        vec![in alloc; 0; edges.len()]
    }
}

// Tells whether no edge goes to a greater number.
fn never_rises(edges: &[Vec<u32>], numbers: &[u32]) -> bool
    requires len { length numbers.now ≡ length edges.now }
    requires targets { All (HasTargetsBelow (length edges.now)) edges.now }
    ensures { IsTrue result → NeverRises (plain_graph edges.now) numbers.now }
{
    for node in 0..edges.len() {
        let targets = &edges[node];
        if !are_at_most(targets, numbers, numbers[node]) {
            return false;
        }
    }
    true
}

// Tells whether no node of the list has a number above the limit.
fn are_at_most(nodes: &[u32], numbers: &[u32], limit: u32) -> bool
    requires { All (λ j. j < length numbers.now) nodes.now }
    ensures { IsTrue result → All (λ j. slice_index numbers.now j ≤ limit) nodes.now }
{
    for node in nodes {
        if numbers[*node as usize] > limit {
            return false;
        }
    }
    true
}

// Tells whether each node of the list has a number below the limit.
fn are_below(nodes: &[u32], numbers: &[u32], limit: u32) -> bool
    requires { All (λ j. j < length numbers.now) nodes.now }
    ensures { IsTrue result → All (λ j. slice_index numbers.now j < limit) nodes.now }
{
    for node in nodes {
        if numbers[*node as usize] >= limit {
            return false;
        }
    }
    true
}
