// The search for a way from a node back to itself.
ghost use Rattle.std.specs.Prelude.{◌≡◌, ◌+◌, ◌<◌, ◌≤◌, ◌^◌, ℕ, Ok, true, false, length};
ghost use Rattle.std.specs.List.{All};
ghost use Rattle.cycle_search.specs.Graphs.{plain_graph, HasTargetsBelow, Reaches};
ghost use Rattle.cycle_search.specs.Searched.{IsSearched};

use std::alloc::{AllocError, Global};

// Tells whether a node reaches itself by one edge or more.
pub fn is_on_cycle(alloc: Global, edges: &[Vec<u32>], node: u32) -> Result<bool, AllocError>
    requires targets { All (HasTargetsBelow (length edges.now)) edges.now }
    requires node { node < length edges.now }
    ensures yes { result ≡ Ok true → Reaches (plain_graph edges.now) node node }
    ensures no { result ≡ Ok false → Reaches (plain_graph edges.now) node node → ⊥ }
{
    let mut reached = vec![in alloc; false; edges.len()]?;
    // The node, and what is reached from it in the order in which it was found. The first `done` have been gone on from.
    let mut trail = Vec::new(alloc);
    trail.push(node)?;
    let mut done = 0;
    while done < trail.len() {
        if goes_back(edges, node, done, &mut reached, &mut trail)? {
            return Ok(true);
        }
        done += 1;
    }
    Ok(false)
}

// Goes on from one node of the trail. Tells whether one of its edges goes back to the start.
fn goes_back(
    edges: &[Vec<u32>],
    start: u32,
    done: usize,
    reached: &mut Vec<bool>,
    trail: &mut Vec<u32>,
) -> Result<bool, AllocError>
    requires targets { All (HasTargetsBelow (length edges.now)) edges.now }
    requires searched { IsSearched (plain_graph edges.now) start reached.old.items trail.old.items done }
    requires more { done < length trail.old.items }
    ensures yes { result ≡ Ok true → Reaches (plain_graph edges.now) start start }
    ensures no { result ≡ Ok false → IsSearched (plain_graph edges.now) start reached.new.items trail.new.items (done + 1) }
{
    let from = trail[done] as usize;
    let targets = &edges[from];
    for target in targets {
        if *target == start {
            return Ok(true);
        }
        if !reached[*target as usize] {
            trail.push(*target)?;
            reached[*target as usize] = true;
        }
    }
    Ok(false)
}
