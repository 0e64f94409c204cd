// The numbers of the strongly connected components.
ghost use Rattle.std.specs.Prelude.{◌≡◌, ◌<◌, ◌≤◌, ◌^◌, OnOk, IfOk, length};
ghost use Rattle.std.specs.List.{All};
ghost use Rattle.cycle_search.specs.Graphs.{HasTargetsBelow};
ghost use Rattle.cycle_search.specs.Components.{IsInRange};

use std::alloc::{AllocError, Global};

// How far the search has come with a node.
#[derive(Clone, Copy)]
struct Progress {
    // When the node was met, counted from 1, or 0 where it was not yet.
    order: u32,
    // The least order of a node that is known to be reached from it and has no component yet.
    low: u32,
    // Which of its edges comes next.
    next: usize,
    // The number of its component.
    component: Option<u32>,
}

// A depth-first search.
#[derive(Drop)]
struct Search {
    nodes: Vec<Progress>,
    // The nodes that the search is in, from the outermost in.
    path: Vec<u32>,
    // The nodes that were met and have no component yet, as they were met.
    open: Vec<u32>,
    // How many nodes were met.
    met: u32,
    // How many components are complete.
    complete: u32,
}

// The number of each node's component. The components are numbered as they are completed: one that an edge leads into from
// another is completed before it. Nothing is claimed of the numbers, so who asks for them looks at them.
pub fn component_numbers(alloc: Global, edges: &[Vec<u32>]) -> Result<Vec<u32>, AllocError>
    requires targets { All (HasTargetsBelow (length edges.now)) edges.now }
    requires few { length edges.now ≤ 2 ^ 32 }
    ensures { IfOk result (λ v. length v.items ≡ length edges.now) }
{
    let start = Progress {
        order: 0,
        low: 0,
        next: 0,
        component: None,
    };
    let mut search = Search {
        nodes: vec![in alloc; start; edges.len()]?,
        path: Vec::new(alloc),
        open: Vec::new(alloc),
        met: 0,
        complete: 0,
    };
    for node in 0..edges.len() {
        if search.nodes[node].order == 0 {
            enter(&mut search, node as u32)?;
            follow(&mut search, edges)?;
        }
    }
    numbers_of(alloc, &search.nodes)
}

// The numbers of the components, 0 where there is none.
fn numbers_of(alloc: Global, nodes: &[Progress]) -> Result<Vec<u32>, AllocError>
    ensures { IfOk result (λ v. length v.items ≡ length nodes.now) }
{
    let mut numbers = Vec::with_capacity(alloc, nodes.len())?;
    for node in nodes {
        numbers.push(node.component.unwrap_or(0))?;
    }
    Ok(numbers)
}

// Comes to a node for the first time.
fn enter(search: &mut Search, node: u32) -> Result<(), AllocError>
    requires range { IsInRange (length search.old.nodes.items) search.old }
    requires node { node < length search.old.nodes.items }
    ensures { OnOk result (IsInRange (length search.old.nodes.items) search.new) }
{
    search.path.push(node)?;
    search.open.push(node)?;
    // There are no more nodes than this counts.
    search.met = search.met.saturating_add(1);
    let progress = &mut search.nodes[node as usize];
    progress.order = search.met;
    progress.low = search.met;
    Ok(())
}

// Goes on until the search has left all nodes of its path.
fn follow(search: &mut Search, edges: &[Vec<u32>]) -> Result<(), AllocError>
    requires targets { All (HasTargetsBelow (length edges.now)) edges.now }
    requires range { IsInRange (length edges.now) search.old }
    ensures { OnOk result (IsInRange (length edges.now) search.new) }
{
    // Each step takes an edge for good, comes to a node or leaves one, so the path ends long before the count does.
    'steps: for _ in 0..u64::MAX {
        match search.path.pop() {
            Some(node) => step(search, edges, node)?,
            None => break 'steps,
        }
    }
    Ok(())
}

// Goes on with the innermost node of the path, which was taken off the path: takes its next edge, or leaves the node.
fn step(search: &mut Search, edges: &[Vec<u32>], node: u32) -> Result<(), AllocError>
    requires targets { All (HasTargetsBelow (length edges.now)) edges.now }
    requires range { IsInRange (length edges.now) search.old }
    requires node { node < length edges.now }
    ensures { OnOk result (IsInRange (length edges.now) search.new) }
{
    let targets = &edges[node as usize];
    let progress = search.nodes[node as usize];
    if progress.next < targets.len() {
        search.path.push(node)?;
        take_edge(search, node, targets[progress.next])
    } else {
        if progress.low == progress.order {
            complete(search, node);
        }
        Ok(())
    }
}

// Takes the next edge of a node. Where it goes to a node that was not met, it is taken again once that node is left.
fn take_edge(search: &mut Search, node: u32, target: u32) -> Result<(), AllocError>
    requires range { IsInRange (length search.old.nodes.items) search.old }
    requires node { node < length search.old.nodes.items }
    requires target { target < length search.old.nodes.items }
    ensures { OnOk result (IsInRange (length search.old.nodes.items) search.new) }
{
    let met = search.nodes[target as usize];
    if met.order == 0 {
        return enter(search, target);
    }
    let progress = &mut search.nodes[node as usize];
    progress.next = progress.next.saturating_add(1);
    if met.component.is_none() {
        progress.low = progress.low.min(met.low);
    }
    Ok(())
}

// Completes the component of a node: what was met since and has none belongs to it.
fn complete(search: &mut Search, node: u32)
    requires range { IsInRange (length search.old.nodes.items) search.old }
    ensures { IsInRange (length search.old.nodes.items) search.new }
{
    let number = search.complete;
    while let Some(member) = search.open.pop() {
        search.nodes[member as usize].component = Some(number);
        if member == node {
            break;
        }
    }
    search.complete = number.saturating_add(1);
}
