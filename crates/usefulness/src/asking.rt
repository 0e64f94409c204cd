// Rows over open columns, of which it is asked whether they cover all values.
ghost use Rattle.std.specs.Prelude.{◌≡◌, ◌++◌, ◌∷◌, [], OnOk};
ghost use Rattle.pattern_matrix.specs.Columns.{plain_column};
ghost use Rattle.pattern_matrix.specs.HeadLists.{kept_heads};
ghost use Rattle.pattern_matrix.specs.Views.{plain_heads};
ghost use Rattle.usefulness.specs.Covering.{asking_columns, asking_rows};

use crate::frames::OpenColumn;
use no_memory::NoMemory;
use pattern_matrix::{Column, Heads};
use std::alloc::Global;

/// Open columns, and rows of heads over these. `is_covered` tells whether the rows cover all values of the columns.
#[derive(Drop)]
pub struct Asking<'a, T: Copy> {
    pub(crate) columns: Vec<OpenColumn<T>>,
    pub(crate) next: usize,
    pub(crate) rows: Vec<Heads<'a, T>>,
}

impl<'a, T: Copy> Asking<'a, T> {
    /// No column and no row. The next column that is opened has the number `next`, and those that are open have lesser ones.
    pub fn none(alloc: Global, next: usize) -> Self
        ensures columns { asking_columns result ≡ [] }
        ensures rows { asking_rows result ≡ [] }
        ensures next { result.next ≡ next }
    {
        Asking {
            columns: Vec::new(alloc),
            next,
            rows: Vec::new(alloc),
        }
    }

    /// Adds an open column behind the others. Rows list their heads there under the number. The only error is want of memory.
    pub fn add_column(&mut self, number: usize, column: Column<T>) -> Result<(), NoMemory>
        ensures columns { OnOk result (asking_columns self.new ≡ asking_columns self.old ++ (number, plain_column column) ∷ []) }
        ensures rows { self.new.rows ≡ self.old.rows }
        ensures next { self.new.next ≡ self.old.next }
    {
        self.columns.push(OpenColumn { number, column })?;
        Ok(())
    }

    /// Adds a row of these heads behind the others. The only error is want of memory.
    pub fn add_row(&mut self, heads: Heads<'a, T>) -> Result<(), NoMemory>
        ensures rows { OnOk result (asking_rows self.new ≡ asking_rows self.old ++ plain_heads (kept_heads heads.entry) ∷ []) }
        ensures columns { self.new.columns ≡ self.old.columns }
        ensures next { self.new.next ≡ self.old.next }
    {
        match self.rows.push(heads) {
            Ok(()) => Ok(()),
            Err(_full) => Err(NoMemory),
        }
    }
}
