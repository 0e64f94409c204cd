// What tells a matrix from the others of a match.
ghost use Rattle.std.specs.Prelude.{◌≡◌, ◌+◌, ◌++◌, ◌∷◌, [], List, true, length, map, IfOk, IfSome, OnOk};
ghost use Rattle.std.specs.List.{flat_map};
ghost use Rattle.pat_context.specs.Views.{plain_step, plain_place, is_sure};
ghost use Rattle.keyed_matrix.specs.Views.{plain_caught, plain_column, plain_columns, plain_run, plain_heads};
ghost use Rattle.keyed_matrix.specs.Views.{plain_row, plain_rows};
ghost use Rattle.decision_tree.specs.Known.{head_uid, known_column, known_row, known_matrix};
ghost use Rattle.decision_tree.specs.KnownViews.{uids_of, plain_known_heads};
ghost use Rattle.decision_tree.specs.KnownViews.{step_after, place_after, known_columns_from, plain_known_columns};
ghost use Rattle.decision_tree.specs.KnownViews.{plain_name, plain_known_row, plain_known_matrix};
ghost use Rattle.decision_tree.specs.declared.known.KnownColumns.{KnownColumns};
ghost use Rattle.decision_tree.specs.declared.known.KnownHeads.{KnownHeads};

use crate::digests::digest_of;
use crate::known::{KnownColumns, KnownHeads, KnownMatrix, KnownName, KnownRow};
use keyed_matrix::{Caught, HeadRun, KeyedColumn, KeyedRow};
use no_memory::NoMemory;
use pat_context::Step;
use pattern_arena::Part;
use std::alloc::Global;

// The heads with one more, where they go on with the uid.
fn longer(heads: &KnownHeads, uid: Option<u64>) -> Option<KnownHeads>
    ensures { IfSome result (λ h. plain_known_heads h ≡ plain_known_heads heads.now ++ uid ∷ []) }
{
    if heads.count == u64::MAX {
        return None;
    }
    if !goes_on(heads, uid) {
        return None;
    }
    Some(KnownHeads {
        first: heads.first,
        count: heads.count + 1,
    })
}

// Tells whether the heads go on with the uid.
fn goes_on(heads: &KnownHeads, uid: Option<u64>) -> bool
    ensures { result ≡ true → uids_of heads.now.first (heads.now.count + 1) ≡ plain_known_heads heads.now ++ uid ∷ [] }
{
    match heads.first {
        None => match uid {
            None => true,
            Some(_uid) => false,
        },
        Some(first) => match uid {
            None => false,
            Some(next) => is_next(first, heads.count, next),
        },
    }
}

// Tells whether the number is the one behind so many from the first on.
fn is_next(first: u64, count: u64, next: u64) -> bool
    ensures { result ≡ true → first + count ≡ next }
{
    if next < first {
        return false;
    }
    next - first == count
}

// The last ones of the heads with one more, where they go on with the uid.
fn last_longer(all: &[KnownHeads], uid: Option<u64>) -> Option<KnownHeads>
    ensures { IfSome result (λ h. (before : List KnownHeads) (last : KnownHeads) → all.now ≡ before ++ last ∷ []
        → plain_known_heads h ≡ plain_known_heads last ++ uid ∷ []) }
{
    match all.last() {
        None => None,
        Some(last) => longer(last, uid),
    }
}

// Adds the uid behind the heads.
fn push_uid(all: &mut Vec<KnownHeads>, uid: Option<u64>) -> Result<(), NoMemory>
    ensures { OnOk result (flat_map plain_known_heads all.new.items
        ≡ flat_map plain_known_heads all.old.items ++ uid ∷ []) }
{
    all.push(KnownHeads {
        first: uid,
        count: 1,
    })?;
    Ok(())
}

// Adds the uid to the heads: to the last ones, where they go on with it.
fn add_uid(all: &mut Vec<KnownHeads>, uid: Option<u64>) -> Result<(), NoMemory>
    ensures { OnOk result (flat_map plain_known_heads all.new.items
        ≡ flat_map plain_known_heads all.old.items ++ uid ∷ []) }
{
    match last_longer(all, uid) {
        None => push_uid(all, uid),
        Some(heads) => match all.pop() {
            None => push_uid(all, uid),
            Some(_last) => {
                all.push(heads)?;
                Ok(())
            }
        },
    }
}

// Adds the heads of a run, by the uids of their patterns. A pattern is joined to those that stand last, where it goes on with
// their uids; wildcards are joined to none, since a row lists those side by side as one run.
#[tactic(auto, using(crate::proofs::RunTests::run_tests))]
fn add_run<'a, T: Copy>(all: &mut Vec<KnownHeads>, one: &HeadRun<'a, T>) -> Result<(), NoMemory>
    ensures { OnOk result (flat_map plain_known_heads all.new.items
        ≡ flat_map plain_known_heads all.old.items ++ map head_uid (plain_run one.now)) }
{
    match one {
        HeadRun::Wilds(count) => {
            all.push(KnownHeads {
                first: None,
                count: *count as u64,
            })?;
            Ok(())
        }
        HeadRun::Written(p) => add_uid(all, Some(p.uid)),
    }
}

// Lists the heads by the uids of their patterns, in place of what was listed.
fn list_heads<'a, T: Copy>(
    all: &mut Vec<KnownHeads>,
    heads: &[HeadRun<'a, T>],
) -> Result<(), NoMemory>
    ensures { OnOk result (flat_map plain_known_heads all.new.items ≡ map head_uid (plain_heads heads.now)) }
{
    all.clear();
    for one in heads {
        add_run(all, one)?;
    }
    Ok(())
}

// What tells the name.
fn known_name<'a>(caught: &Caught<'a>) -> KnownName<'a>
    ensures { plain_name result ≡ plain_caught caught.now }
{
    let sides = match caught.bound.part {
        Part::Whole => None,
        Part::Middle { front, back } => Some((front, back)),
    };
    KnownName {
        name: caught.bound.name,
        mode: caught.bound.mode,
        place: caught.place,
        sides,
    }
}

// What tells the names.
fn known_names<'a>(alloc: Global, caught: &[Caught<'a>]) -> Result<Vec<KnownName<'a>>, NoMemory>
    ensures { IfOk result (λ v. map plain_name v.items ≡ map plain_caught caught.now) }
{
    let mut names = Vec::with_capacity(alloc, caught.len())?;
    for one in caught {
        names.push(known_name(one))?;
    }
    Ok(names)
}

// What tells the row, of which the list tells the heads.
fn known_row<'a, T: Copy>(
    alloc: Global,
    row: &KeyedRow<'a, T>,
    heads: &[KnownHeads],
) -> Result<KnownRow<'a>, NoMemory>
    requires { flat_map plain_known_heads heads.now ≡ map head_uid (plain_row row.now).heads }
    ensures size { IfOk result (λ k. k.size ≡ length heads.now) }
    ensures row { IfOk result (λ k. plain_known_row heads.now k ≡ known_row (plain_row row.now)) }
{
    let chosen = copied(alloc, row.chosen.as_slice())?;
    let caught = known_names(alloc, &row.caught)?;
    Ok(KnownRow {
        size: heads.len(),
        arm: row.arm,
        guarded: row.guarded,
        chosen,
        caught,
    })
}

// The same numbers.
fn copied(alloc: Global, numbers: &[u64]) -> Result<Vec<u64>, NoMemory>
    ensures { IfOk result (λ v. v.items ≡ numbers.now) }
{
    let mut all = Vec::with_capacity(alloc, numbers.len())?;
    for number in numbers {
        all.push(*number)?;
    }
    Ok(all)
}

// Tells whether the second step leads to the part of the same variant, or to the item from the front, so many after that
// of the first.
fn is_step_after(first: &Step, count: u64, next: &Step) -> bool
    ensures { result ≡ true → step_after (plain_step first.now) count ≡ plain_step next.now }
{
    match (first, next) {
        (
            Step::Field { variant, part },
            Step::Field {
                variant: other,
                part: further,
            },
        ) => *variant == *other && is_next(*part as u64, count, *further as u64),
        (Step::Front(item), Step::Front(further)) => is_next(*item, count, *further),
        _ => false,
    }
}

// Tells whether the second place differs from the first in its last step alone, which leads so many parts or items
// after.
fn is_place_after(first: &[Step], count: u64, next: &[Step]) -> bool
    ensures { result ≡ true → place_after (plain_place first.now) count ≡ plain_place next.now }
{
    match (first.split_last(), next.split_last()) {
        (Some((last, before)), Some((other, around))) => {
            is_step_after(last, count, other) && before == around
        }
        _ => false,
    }
}

// Tells whether the columns go on with this one.
fn is_next_column<'a, T: Copy>(columns: &KnownColumns<'a>, column: &KeyedColumn<'a, T>) -> bool
    ensures { result ≡ true → known_columns_from (plain_place columns.now.place.now) (is_sure columns.now.validity) 0
        (columns.now.count + 1) ≡ plain_known_columns columns.now ++ known_column (plain_column column.now) ∷ [] }
{
    columns.validity == column.validity
        && is_place_after(columns.place, columns.count, column.place)
}

// The columns with one more, where they go on with it.
fn more_columns<'a, T: Copy>(
    columns: &KnownColumns<'a>,
    column: &KeyedColumn<'a, T>,
) -> Option<KnownColumns<'a>>
    ensures { IfSome result (λ c. plain_known_columns c
        ≡ plain_known_columns columns.now ++ known_column (plain_column column.now) ∷ []) }
{
    if columns.count == u64::MAX {
        return None;
    }
    if !is_next_column(columns, column) {
        return None;
    }
    Some(KnownColumns {
        place: columns.place,
        count: columns.count + 1,
        validity: columns.validity,
    })
}

// The last ones of the columns with one more, where they go on with it.
fn last_more_columns<'a, T: Copy>(
    all: &[KnownColumns<'a>],
    column: &KeyedColumn<'a, T>,
) -> Option<KnownColumns<'a>>
    ensures { IfSome result (λ c. (before : List KnownColumns) (last : KnownColumns) → all.now ≡ before ++ last ∷ []
        → plain_known_columns c ≡ plain_known_columns last ++ known_column (plain_column column.now) ∷ []) }
{
    match all.last() {
        None => None,
        Some(last) => more_columns(last, column),
    }
}

// Adds the column behind the others.
fn push_column<'a, T: Copy>(
    all: &mut Vec<KnownColumns<'a>>,
    column: &KeyedColumn<'a, T>,
) -> Result<(), NoMemory>
    ensures { OnOk result (flat_map plain_known_columns all.new.items
        ≡ flat_map plain_known_columns all.old.items ++ known_column (plain_column column.now) ∷ []) }
{
    all.push(KnownColumns {
        place: column.place,
        count: 1,
        validity: column.validity,
    })?;
    Ok(())
}

// Adds the column: to the last ones, where they go on with it.
fn add_column<'a, T: Copy>(
    all: &mut Vec<KnownColumns<'a>>,
    column: &KeyedColumn<'a, T>,
) -> Result<(), NoMemory>
    ensures { OnOk result (flat_map plain_known_columns all.new.items
        ≡ flat_map plain_known_columns all.old.items ++ known_column (plain_column column.now) ∷ []) }
{
    match last_more_columns(all, column) {
        None => push_column(all, column),
        Some(columns) => match all.pop() {
            None => push_column(all, column),
            Some(_last) => {
                all.push(columns)?;
                Ok(())
            }
        },
    }
}

// What tells the columns.
fn known_columns<'a, T: Copy>(
    alloc: Global,
    columns: &[KeyedColumn<'a, T>],
) -> Result<Vec<KnownColumns<'a>>, NoMemory>
    ensures { IfOk result (λ v. flat_map plain_known_columns v.items ≡ map known_column (plain_columns columns.now)) }
{
    let mut all = Vec::new(alloc);
    for column in columns {
        add_column(&mut all, column)?;
    }
    all.shrink_to_fit();
    Ok(all)
}

// How many runs of heads the rows have.
fn count_runs<'a, T: Copy>(rows: &[KeyedRow<'a, T>]) -> usize {
    let mut count = 0usize;
    for row in rows {
        count = count.saturating_add(row.heads.len());
    }
    count
}

// What tells the matrix of the columns and rows.
pub(crate) fn known_matrix<'a, T: Copy>(
    alloc: Global,
    columns: &[KeyedColumn<'a, T>],
    rows: &[KeyedRow<'a, T>],
) -> Result<KnownMatrix<'a>, NoMemory>
    ensures { IfOk result (λ k. plain_known_matrix k ≡ known_matrix (plain_columns columns.now) (plain_rows rows.now)) }
{
    let columns = known_columns(alloc, columns)?;
    let mut heads = Vec::with_capacity(alloc, count_runs(rows))?;
    let mut own = Vec::with_capacity(alloc, columns.len())?;
    let mut all = Vec::with_capacity(alloc, rows.len())?;
    for row in rows {
        list_heads(&mut own, &row.heads)?;
        let new = known_row(alloc, row, &own)?;
        heads.extend_from_slice(&own)?;
        all.push(new)?;
    }
    heads.shrink_to_fit();
    let digest = digest_of(&columns, &heads, &all);
    Ok(KnownMatrix {
        digest,
        columns,
        heads,
        rows: all,
    })
}
