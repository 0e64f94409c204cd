// What stands in a column once its or-patterns are taken apart.
ghost use Rattle.std.specs.Prelude.{◌≡◌, ◌<◌, ◌++◌, map, drop, length, OnOk};
ghost use Rattle.match_model.specs.Rows.{choices_of, starts_or};
ghost use Rattle.pat_context.specs.Views.{plain_ctor};
ghost use Rattle.pattern_arena.specs.Trees.{tree};
ghost use Rattle.keyed_matrix.specs.Choosing.{ctors_chosen};
ghost use Rattle.keyed_matrix.specs.Steps.{are_apart, AreLonger};
ghost use Rattle.keyed_matrix.specs.Views.{plain_row, plain_rows};

use crate::KeyedRow;
use crate::choices::is_or;
use crate::heads::head_at;
use crate::looking::add_unless_wild;
use no_memory::NoMemory;
use pat_context::Ctor;
use pattern_arena::DePat;

/// Tells whether no row has an or-pattern in the column with this number, from 0. Each row has a head at the column. It
/// takes no memory.
pub fn are_apart<'a, T: Copy>(rows: &[KeyedRow<'a, T>], i: usize) -> bool
    requires { AreLonger i (plain_rows rows.now) }
    ensures { result ≡ are_apart i (plain_rows rows.now) }
{
    for row in rows {
        if is_or_at(row, i) {
            return false;
        }
    }
    true
}

// Tells whether the row has an or-pattern in the column.
pub(crate) fn is_or_at<'a, T: Copy>(row: &KeyedRow<'a, T>, i: usize) -> bool
    requires { i < length (plain_row row.now).heads }
    ensures { result ≡ starts_or (drop i (plain_row row.now).heads) }
{
    match head_at(row, i) {
        None => false,
        Some(p) => is_or(&p.form.ctor),
    }
}

// Adds the constructors of what stands in place of the pattern when or-patterns are taken apart.
pub(crate) fn add_pat_ctors<'a, T: Copy>(
    ctors: &mut Vec<Ctor<'a>>,
    p: &'a DePat<'a, T>,
) -> Result<(), NoMemory>
    ensures { OnOk result (map plain_ctor ctors.new.items ≡ map plain_ctor ctors.old.items
        ++ ctors_chosen (choices_of (tree p.entry.now))) }
{
    if is_or(&p.form.ctor) {
        for q in p.form.subs {
            add_pat_ctors(ctors, q)?;
        }
        Ok(())
    } else {
        add_unless_wild(ctors, p)
    }
}
