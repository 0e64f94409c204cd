//! The first item whose type has no finite value.
ghost use Rattle.std.specs.Prelude.{◌≡◌, true, List, length, IfOk};
ghost use Rattle.std.specs.List.{list_all};
ghost use Rattle.match_model.specs.declared.Width.{Width};
ghost use Rattle.type_table.specs.Nodes.{AreNodes, types_in};
ghost use Rattle.type_table.specs.Entries.{entry_below, entry_id, NameThemselves};
ghost use Rattle.type_table.specs.Faults.{IsEndless, FirstThat};
ghost use Rattle.type_table.specs.Possible.{program_in, lacks_own};

use crate::entries::Entry;
use crate::nodes::Node;
use crate::values::counted_values;
use match_model::Width;
use no_memory::NoMemory;
use std::alloc::Global;

/// The first declared item whose type has no finite value where a place is not sure to hold a valid one, counted from
/// 0.
pub(crate) fn first_endless(
    alloc: Global,
    nodes: &[Node],
    items: &[Entry],
    _width: Width,
) -> Result<Option<usize>, NoMemory>
    requires are { AreNodes nodes.now }
    requires below { list_all (entry_below (length nodes.now)) items.now ≡ true }
    requires own { NameThemselves (types_in nodes.now) items.now }
    ensures { IfOk result (FirstThat (IsEndless (program_in _width nodes.now items.now))) }
{
    let values = counted_values(alloc, false, nodes, items)?;
    for (i, item) in items.iter().enumerate() {
        if lacks_values(item, &values) {
            return Ok(Some(i));
        }
    }
    Ok(None)
}

// Whether the item declares a type, and no value of it was found.
fn lacks_values(entry: &Entry, values: &[bool]) -> bool
    requires below { entry_below (length values.now) entry.now ≡ true }
    ensures { result ≡ lacks_own values.now (entry_id entry.now) }
{
    match entry {
        Entry::Struct { id, .. } => !values[*id],
        Entry::Enum { id, .. } => !values[*id],
        Entry::Function { .. } => false,
        Entry::Import => false,
    }
}
