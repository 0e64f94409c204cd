//! The draft of a table: what a file says, whether or not an item breaks a rule.
ghost use Rattle.std.specs.Prelude.{IfOk};
ghost use Rattle.decl_syntax.specs.Items.{file_view};
ghost use Rattle.type_table.specs.Tables.{IsDraftOf};

use crate::entries::{Entry, all_entries};
use crate::known::are_few;
use crate::nodes::Node;
use crate::values::counted_values;
use decl_syntax::File;
use indexmap::IndexSet;
use match_model::Width;
use no_memory::NoMemory;
use std::alloc::Global;
use type_names::{Finder, Names};

/// The types that a file names, and what its items say. A written type that breaks rule 13, 14, 16 or 17 stands for an
/// opaque type there.
#[derive(Debug, Drop)]
pub(crate) struct Draft {
    pub(crate) width: Width,
    pub(crate) nodes: IndexSet<Node>,
    pub(crate) items: Vec<Entry>,
    pub(crate) names: Names,
    pub(crate) values: Vec<bool>,
    pub(crate) finder: Finder,
}

/// The draft of a file.
pub(crate) fn assemble(alloc: Global, file: &File, width: Width) -> Result<Draft, NoMemory>
    ensures { IfOk result (IsDraftOf (file_view file.now) width) }
{
    let names = Names::new(alloc, file)?;
    let mut nodes = IndexSet::new(alloc);
    let items = all_entries(alloc, &names, &mut nodes, &file.items)?;
    // 2^32 parts, variants or fields are refused as want of memory.
    if !are_few(nodes.as_slice(), &items) {
        return Err(NoMemory);
    }
    let values = counted_values(alloc, true, nodes.as_slice(), &items)?;
    let finder = Finder::new(alloc, &names, &file.items)?;
    Ok(Draft {
        width,
        nodes,
        items,
        names,
        values,
        finder,
    })
}
