//! The table of a file: its types and its declarations.
ghost use Rattle.type_table.specs.Empty.{NoneEndless};
ghost use Rattle.type_table.specs.Possible.{program_in};
ghost use Rattle.type_table.specs.Whole.{IsWhole, IsWhole-prop};

use crate::entries::Entry;
use crate::nodes::Node;
use indexmap::IndexSet;
use match_model::Width;
use type_names::{Finder, Names};

/// A type of a table. Two of one table are equal exactly where their types are.
#[derive(Clone, Copy, Debug, PartialEq, Eq, Hash)]
pub struct TyId {
    pub(crate) index: usize,
}

/// The types that a file names, and what its items declare. No declared type is endless.
#[derive(Debug, Drop)]
pub struct TypeTable {
    pub(crate) width: Width,
    pub(crate) nodes: IndexSet<Node>,
    pub(crate) items: Vec<Entry>,
    pub(crate) names: Names,
    pub(crate) values: Vec<bool>,
    pub(crate) finder: Finder,
    ghost whole: { IsWhole nodes.keys items.items values.items } by { IsWhole-prop nodes.keys items.items values.items },
    ghost finite: { NoneEndless (program_in width nodes.keys items.items) },
}

impl TypeTable {
    ghost use Rattle.std.specs.Prelude.{◌≡◌};
    ghost use Rattle.type_table.specs.Tables.{table_program};

    /// The width of `usize` and `isize` that the table was made for.
    pub fn width(&self) -> Width
        ensures { result ≡ (table_program self.now).width }
    {
        self.width
    }
}
