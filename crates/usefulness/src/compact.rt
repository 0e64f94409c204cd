// Columns where no row lists a head, which are left out.
ghost use Rattle.std.specs.Prelude.{◌≡◌, ◌||◌, ◌++◌, ◌∷◌, [], false, ℕ, length, slice_index_or, IfOk, OnOk};
ghost use Rattle.std.specs.List.{All};
ghost use Rattle.pattern_matrix.specs.Sparse.{AreHeadsBelow};
ghost use Rattle.pattern_matrix.specs.Views.{plain_heads};
ghost use Rattle.usefulness.specs.Compact.{lists_at, some_lists, used_of, IsCompact};
ghost use Rattle.usefulness.specs.States.{plain_open, plain_opens, plain_askeds};

use crate::frames::{Asked, Frame, OpenColumn};
use no_memory::NoMemory;
use pattern_matrix::Head;
use std::alloc::Global;

// Notes the columns of the heads.
fn note_heads<'a, T: Copy>(used: &mut Vec<bool>, heads: &[Head<'a, T>])
    requires { AreHeadsBelow (length used.old.items) (plain_heads heads.now) }
    ensures long { length used.new.items ≡ length used.old.items }
    ensures noted { (c : ℕ) → slice_index_or used.new.items c false ≡ (slice_index_or used.old.items c false || lists_at (plain_heads heads.now) c) }
{
    for head in heads {
        used[head.column] = true;
    }
}

// For each number below the next one whether some row lists a head at the column.
fn used_columns<'a, T: Copy>(
    alloc: Global,
    rows: &[Asked<'a, T>],
    next: usize,
) -> Result<Vec<bool>, NoMemory>
    requires { All (λ x. AreHeadsBelow next x.row.heads) (plain_askeds rows.now) }
    ensures { IfOk result (λ v. (c : ℕ) → slice_index_or v.items c false ≡ some_lists (plain_askeds rows.now) c) }
{
    let mut used = vec![in alloc; false; next]?;
    for asked in rows {
        note_heads(&mut used, asked.row.heads.as_slice());
    }
    Ok(used)
}

// Tells whether the column with the number is noted.
fn is_used(used: &[bool], number: usize) -> bool
    ensures { result ≡ slice_index_or used.now number false }
{
    number < used.len() && used[number]
}

// Adds the column, where it is noted.
fn add_used<T: Copy>(
    kept: &mut Vec<OpenColumn<T>>,
    used: &[bool],
    column: &OpenColumn<T>,
) -> Result<(), NoMemory>
    ensures { OnOk result (plain_opens kept.new.items ≡ plain_opens kept.old.items ++ used_of (λ c. slice_index_or used.now c false) (plain_open column.now ∷ [])) }
{
    if is_used(used, column.number) {
        kept.push(*column)?;
    }
    Ok(())
}

// The columns that are noted.
fn kept_columns<T: Copy>(
    alloc: Global,
    used: &[bool],
    columns: &[OpenColumn<T>],
) -> Result<Vec<OpenColumn<T>>, NoMemory>
    ensures { IfOk result (λ v. plain_opens v.items ≡ used_of (λ c. slice_index_or used.now c false) (plain_opens columns.now)) }
{
    let mut kept = Vec::with_capacity(alloc, columns.len())?;
    for column in columns {
        add_used(&mut kept, used, column)?;
    }
    Ok(kept)
}

// The rows over the columns where one of them lists a head.
pub(crate) fn compact<'a, T: Copy>(
    alloc: Global,
    frame: Frame<'a, T>,
) -> Result<Frame<'a, T>, NoMemory>
    requires { All (λ x. AreHeadsBelow frame.next x.row.heads) (plain_askeds frame.rows.items) }
    ensures { IfOk result (λ f. IsCompact frame.entry f) }
{
    let Frame {
        columns,
        next,
        rows,
    } = frame;
    let used = used_columns(alloc, &rows, next)?;
    let kept = kept_columns(alloc, &used, &columns)?;
    Ok(Frame {
        columns: kept,
        next,
        rows,
    })
}
