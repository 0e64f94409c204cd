//! The first item whose type contains itself.
ghost use Rattle.std.specs.Prelude.{◌≡◌, ◌<◌, ◌+◌, ◌^◌, true, length, IfOk};
ghost use Rattle.std.specs.List.{list_all};
ghost use Rattle.type_table.specs.Nodes.{AreNodes};
ghost use Rattle.type_table.specs.Entries.{entry_below};
ghost use Rattle.type_table.specs.Faults.{ContainsItself, FirstThat};
ghost use Rattle.type_table.specs.Possible.{program_in};

use crate::edges::all_edges;
use crate::entries::Entry;
use crate::nodes::Node;
use cycle_search::first_on_cycle;
use match_model::Width;
use no_memory::NoMemory;
use std::alloc::Global;

/// The first item whose type reaches itself by fields, parts of tuples, items of arrays and arguments of `Option` and
/// `Result`, counted from 0. More than 2,147,483,647 items or types are refused as want of memory.
pub(crate) fn first_cyclic(
    alloc: Global,
    nodes: &[Node],
    items: &[Entry],
    _width: Width,
) -> Result<Option<usize>, NoMemory>
    requires are { AreNodes nodes.now }
    requires below { list_all (entry_below (length nodes.now)) items.now ≡ true }
    ensures { IfOk result (FirstThat (ContainsItself (program_in _width nodes.now items.now))) }
{
    if nodes.len() > 2_147_483_647 || items.len() > 2_147_483_647 {
        return Err(NoMemory);
    }
    cyclic_item(alloc, nodes, items, _width)
}

// The first item on a cycle of the graph, in which the items stand before the nodes.
fn cyclic_item(
    alloc: Global,
    nodes: &[Node],
    items: &[Entry],
    _width: Width,
) -> Result<Option<usize>, NoMemory>
    requires are { AreNodes nodes.now }
    requires below { list_all (entry_below (length nodes.now)) items.now ≡ true }
    requires few { length items.now + length nodes.now < 2 ^ 32 }
    ensures { IfOk result (FirstThat (ContainsItself (program_in _width nodes.now items.now))) }
{
    let edges = all_edges(alloc, nodes, items)?;
    let Some(first) = first_on_cycle(alloc, &edges)? else {
        return Ok(None);
    };
    if (first as usize) < items.len() {
        Ok(Some(first as usize))
    } else {
        Ok(None)
    }
}
