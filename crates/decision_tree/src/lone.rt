// Rows without what was decided of an arm that has only one of them.
ghost use Rattle.std.specs.Prelude.{◌≡◌, ◌≤◌, ◌<◌, length, get_or};
ghost use Rattle.match_model.specs.Lists.{Ordered};
ghost use Rattle.match_model.specs.Matrices.{MRow};
ghost use Rattle.keyed_matrix.specs.Views.{plain_row, plain_rows};
ghost use Rattle.keyed_matrix.specs.declared.rows.KeyedRow.{KeyedRow};
ghost use Rattle.decision_tree.specs.Lone.{is_alone, emptied, lone};

use keyed_matrix::KeyedRow;
use smallvec::SmallVec;
use std::alloc::Global;

// Tells whether the row with the number is the only one of its arm, where the rows stand by their arms.
fn is_alone<'a, T: Copy>(rows: &[KeyedRow<'a, T>], i: usize) -> bool
    requires within { i < length rows.now }
    requires by_arm { Ordered (λ (r s : MRow T). r.arm ≤ s.arm) (plain_rows rows.now) }
    ensures { (d : KeyedRow T) → result ≡ is_alone (plain_row (get_or rows.now i d)).arm (plain_rows rows.now) }
{
    let arm = rows[i].arm;
    if 0 < i && rows[i - 1].arm == arm {
        return false;
    }
    i + 1 == rows.len() || rows[i + 1].arm != arm
}

// Takes what the row has chosen off it.
fn empty<'a, T: Copy>(alloc: Global, row: &mut KeyedRow<'a, T>)
    ensures { plain_row row.new ≡ emptied (plain_row row.old) }
{
    row.chosen = SmallVec::new(alloc);
}

// The rows without what each has chosen where it is the only one of its arm; the rows stand by their arms.
pub(crate) fn lone<'a, T: Copy>(alloc: Global, rows: Vec<KeyedRow<'a, T>>) -> Vec<KeyedRow<'a, T>>
    requires { Ordered (λ (r s : MRow T). r.arm ≤ s.arm) (plain_rows rows.items) }
    ensures { plain_rows result.items ≡ lone (plain_rows rows.entry.items) }
{
    let mut rows = rows;
    for i in 0..rows.len() {
        if is_alone(&rows, i) {
            empty(alloc, &mut rows[i]);
        }
    }
    rows
}
