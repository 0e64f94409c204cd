//! Lengths of rows that are cut, files and a sink in memory, and groups of the nodes of a graph.
ghost use Rattle.std.specs.Prelude.{◌↔◌, ◌<◌, IsTrue};
ghost use Rattle.cycle_search.specs.Graphs.{HasTargetsBelow};
ghost use Rattle.slice_split.specs.Shapes.{IsShort};

use cycle_search::first_group_on_cycle;
use match_io::{MemoryFiles, MemorySink};
use no_memory::NoMemory;
use slice_split::{Shape, split_lengths};
use std::alloc::Global;

fn is_short(shape: &Shape) -> bool
    ensures { IsTrue result ↔ IsShort shape.now }
{
    const LIMIT: u64 = 4_294_967_296;
    match *shape {
        Shape::Fixed(len) => len <= LIMIT,
        Shape::Longer { front, back } => front <= LIMIT && back <= LIMIT - front,
    }
}

/// The number of the pieces into which the shapes cut the lengths of a slice, or 0 where a shape is too long. The
/// only error is want of memory.
pub fn pieces_of_lengths(alloc: Global, shapes: &[Shape]) -> Result<usize, NoMemory> {
    if !shapes.iter().all(is_short) {
        return Ok(0);
    }
    let pieces = split_lengths(alloc, None, shapes)?;
    Ok(pieces.len())
}

/// Files of these names and bytes, which give two bytes at a time, and a sink for as many bytes, which takes two at a
/// time. No call of theirs fails by its number. The only error is want of memory.
pub fn in_memory(
    alloc: Global,
    named: Vec<(String, Vec<u8>)>,
    room: usize,
) -> Result<(MemoryFiles, MemorySink), NoMemory> {
    let files = MemoryFiles::new(named, 2, Vec::new(alloc));
    let sink = MemorySink::new(alloc, room, 2, Vec::new(alloc))?;
    Ok((files, sink))
}

fn is_below_two(node: &u32) -> bool
    ensures { IsTrue result ↔ node.now < 2 }
{
    *node < 2
}

fn are_below_two(nodes: &Vec<u32>) -> bool
    ensures { IsTrue result ↔ HasTargetsBelow 2 nodes.now }
{
    nodes.iter().all(is_below_two)
}

/// The first of the groups that has a node on a cycle, in a graph of two nodes, 0 and 1; `edges` has the targets of
/// each. `None` where no group has one, and where the lists are no such graph and groups. The only error is want of
/// memory.
pub fn group_on_cycle(
    alloc: Global,
    edges: &[Vec<u32>],
    groups: &[Vec<u32>],
) -> Result<Option<usize>, NoMemory> {
    if edges.len() != 2 || !edges.iter().all(are_below_two) || !groups.iter().all(are_below_two) {
        return Ok(None);
    }
    first_group_on_cycle(alloc, edges, groups)
}
