// What stands in rows at a column.
ghost use Rattle.std.specs.Prelude.{◌≡◌, ◌<◌, ◌++◌, map, drop, length, IfOk, OnOk};
ghost use Rattle.std.specs.Option.{option_to_list};
ghost use Rattle.match_model.specs.Lowering.{ctors_at, all_wild_at};
ghost use Rattle.match_model.specs.Rows.{is_wild_ctor, starts_wild, first_ctor, ctor_unless_wild};
ghost use Rattle.pat_context.specs.Views.{plain_ctor};
ghost use Rattle.pattern_arena.specs.Trees.{placed_ctor};
ghost use Rattle.keyed_matrix.specs.Steps.{AreLonger};
ghost use Rattle.keyed_matrix.specs.Views.{plain_row, plain_rows};

use crate::KeyedRow;
use crate::heads::head_at;
use no_memory::NoMemory;
use pat_context::Ctor;
use pattern_arena::DePat;
use std::alloc::Global;

/// Tells whether every row has a wildcard or a name in the column with this number, from 0. It takes no memory.
pub fn are_wild<'a, T: Copy>(rows: &[KeyedRow<'a, T>], i: usize) -> bool
    requires { AreLonger i (plain_rows rows.now) }
    ensures { result ≡ all_wild_at i (plain_rows rows.now) }
{
    for row in rows {
        if !is_wild_at(row, i) {
            return false;
        }
    }
    true
}

/// The constructors of the rows in the column, which are none of wildcards. The only error is want of memory.
pub fn ctors_at<'a, T: Copy>(
    alloc: Global,
    rows: &[KeyedRow<'a, T>],
    i: usize,
) -> Result<Vec<Ctor<'a>>, NoMemory>
    requires { AreLonger i (plain_rows rows.now) }
    ensures { IfOk result (λ v. map plain_ctor v.items ≡ ctors_at i (plain_rows rows.now)) }
{
    let mut ctors = Vec::with_capacity(alloc, rows.len())?;
    for row in rows {
        add_ctor(&mut ctors, row, i)?;
    }
    Ok(ctors)
}

// Tells whether the row has a wildcard or a name in the column.
fn is_wild_at<'a, T: Copy>(row: &KeyedRow<'a, T>, i: usize) -> bool
    requires { i < length (plain_row row.now).heads }
    ensures { result ≡ starts_wild (drop i (plain_row row.now).heads) }
{
    match head_at(row, i) {
        None => true,
        Some(p) => is_wild(&p.form.ctor),
    }
}

// Adds the constructor of the row in the column, where that is no wildcard.
fn add_ctor<'a, T: Copy>(
    ctors: &mut Vec<Ctor<'a>>,
    row: &KeyedRow<'a, T>,
    i: usize,
) -> Result<(), NoMemory>
    requires { i < length (plain_row row.now).heads }
    ensures { OnOk result (map plain_ctor ctors.new.items ≡ map plain_ctor ctors.old.items
        ++ option_to_list (first_ctor (drop i (plain_row row.now).heads))) }
{
    match head_at(row, i) {
        None => Ok(()),
        Some(p) => add_unless_wild(ctors, p),
    }
}

// Adds the constructor of the pattern, where that is no wildcard.
pub(crate) fn add_unless_wild<'a, T: Copy>(
    ctors: &mut Vec<Ctor<'a>>,
    p: &'a DePat<'a, T>,
) -> Result<(), NoMemory>
    ensures { OnOk result (map plain_ctor ctors.new.items ≡ map plain_ctor ctors.old.items
        ++ option_to_list (ctor_unless_wild (placed_ctor p.entry.now))) }
{
    if !is_wild(&p.form.ctor) {
        ctors.push(p.form.ctor)?;
    }
    Ok(())
}

// Tells whether the constructor is a wildcard.
pub(crate) fn is_wild(ctor: &Ctor) -> bool
    ensures { result ≡ is_wild_ctor (plain_ctor ctor.now) }
{
    match ctor {
        Ctor::Wild => true,
        _ => false,
    }
}
