// The names that an arm binds.
ghost use Rattle.std.specs.Ordering.{is_lt};
ghost use Rattle.std.specs.String.{string_bytes};
ghost use Rattle.match_model.specs.Texts.{compare_texts};
ghost use Rattle.std.specs.Prelude.{◌≡◌, ◌≤◌, ◌+◌, ◌++◌, ◌∷◌, [], Some, drop, length, map, IfOk, OnOk};
ghost use Rattle.match_model.specs.DecisionTrees.{all_head_binds, by_name, row_binds};
ghost use Rattle.match_model.specs.Matrices.{bind_at, head_binds};
ghost use Rattle.match_model.specs.Ways.{put_by};
ghost use Rattle.pat_context.specs.Places.{steps_of};
ghost use Rattle.pat_context.specs.Views.{plain_place};
ghost use Rattle.pattern_arena.specs.Trees.{tree, plain_bound, plain_part};
ghost use Rattle.keyed_matrix.specs.Views.{plain_caught, plain_columns, plain_run, plain_heads, plain_row};
ghost use Rattle.tree_eval.specs.Nodes.{plain_bind};
ghost use Rattle.decision_tree.specs.Places.{part_place};

use keyed_matrix::{Caught, HeadRun, KeyedColumn, KeyedRow, size_of};
use no_memory::NoMemory;
use pat_context::{Place, Step};
use pattern_arena::{Bound, DePat, Part};
use std::alloc::Global;
use std::cmp::Ordering;
use tree_eval::Bind;

// The place to which the steps lead.
pub(crate) fn place_by(alloc: Global, steps: &[Step]) -> Result<Place, NoMemory>
    ensures { IfOk result (λ p. steps_of p ≡ steps.now) }
{
    let mut place = Place::scrutinee(alloc);
    for step in steps {
        place = place.then(alloc, *step)?;
    }
    Ok(place)
}

// The place of what a name holds of the value at the place.
fn held_place(alloc: Global, steps: &[Step], part: Part) -> Result<Place, NoMemory>
    ensures { IfOk result (λ p. plain_place (steps_of p) ≡ part_place (plain_place steps.now) (plain_part part)) }
{
    let place = place_by(alloc, steps)?;
    match part {
        Part::Whole => Ok(place),
        Part::Middle { front, back } => place.then(alloc, Step::Middle { front, back }),
    }
}

// Adds the name, which is bound at the place.
fn add_bound<'a>(
    alloc: Global,
    all: &mut Vec<Bind>,
    steps: &[Step],
    bound: &Bound<'a>,
) -> Result<(), NoMemory>
    ensures { OnOk result (map plain_bind all.new.items ≡ map plain_bind all.old.items
        ++ bind_at (plain_place steps.now) (plain_bound bound.now) ∷ []) }
{
    let name = String::from_str(alloc, bound.name)?;
    let place = held_place(alloc, steps, bound.part)?;
    all.push(Bind {
        name,
        mode: bound.mode,
        place,
    })?;
    Ok(())
}

// Adds the names that the pattern binds by itself, at the place.
pub(crate) fn add_own<'a, T: Copy>(
    alloc: Global,
    all: &mut Vec<Bind>,
    steps: &[Step],
    pat: &DePat<'a, T>,
) -> Result<(), NoMemory>
    ensures { OnOk result (map plain_bind all.new.items ≡ map plain_bind all.old.items
        ++ head_binds (plain_place steps.now) (Some (tree pat.now))) }
{
    add_bounds(alloc, all, steps, pat.form.binds)
}

// Adds the names, which are bound at the place.
fn add_bounds<'a>(
    alloc: Global,
    all: &mut Vec<Bind>,
    steps: &[Step],
    binds: &'a [Bound<'a>],
) -> Result<(), NoMemory>
    ensures { OnOk result (map plain_bind all.new.items ≡ map plain_bind all.old.items
        ++ map (bind_at (plain_place steps.now)) (map plain_bound binds.entry.now)) }
{
    for bound in binds {
        add_bound(alloc, all, steps, bound)?;
    }
    Ok(())
}

// Adds the names that were caught on the way to a row.
pub(crate) fn add_caught<'a>(
    alloc: Global,
    all: &mut Vec<Bind>,
    caught: &[Caught<'a>],
) -> Result<(), NoMemory>
    ensures { OnOk result (map plain_bind all.new.items ≡ map plain_bind all.old.items ++ map plain_caught caught.now) }
{
    for one in caught {
        add_bound(alloc, all, one.place, &one.bound)?;
    }
    Ok(())
}

// Adds the names that the heads bind by themselves, column by column.
fn add_heads<'a, T: Copy>(
    alloc: Global,
    all: &mut Vec<Bind>,
    columns: &[KeyedColumn<'a, T>],
    heads: &[HeadRun<'a, T>],
) -> Result<(), NoMemory>
    requires { length columns.now ≡ length (plain_heads heads.now) }
    ensures { OnOk result (map plain_bind all.new.items ≡ map plain_bind all.old.items
        ++ all_head_binds (plain_columns columns.now) (plain_heads heads.now)) }
{
    let mut at = 0;
    for one in heads {
        add_run(alloc, all, columns, at, one)?;
        at += size_of(one);
    }
    Ok(())
}

// The same for heads side by side, of which the first stands in the column with the number.
fn add_run<'a, T: Copy>(
    alloc: Global,
    all: &mut Vec<Bind>,
    columns: &[KeyedColumn<'a, T>],
    at: usize,
    one: &HeadRun<'a, T>,
) -> Result<(), NoMemory>
    requires { at + length (plain_run one.now) ≤ length columns.now }
    ensures { OnOk result (map plain_bind all.new.items ≡ map plain_bind all.old.items
        ++ all_head_binds (drop at (plain_columns columns.now)) (plain_run one.now)) }
{
    match one {
        HeadRun::Wilds(_count) => Ok(()),
        HeadRun::Written(p) => add_own(alloc, all, columns[at].place, *p),
    }
}

// Tells whether the first name is less, byte by byte.
fn is_less(first: &String, second: &String) -> bool
    ensures { result ≡ is_lt (compare_texts (string_bytes first.now) (string_bytes second.now)) }
{
    match first.as_str().cmp(second.as_str()) {
        Ordering::Less => true,
        _ => false,
    }
}

// Puts the name in its place among ascending ones.
fn put(all: &mut Vec<Bind>, bind: Bind) -> Result<(), NoMemory>
    ensures { OnOk result (map plain_bind all.new.items
        ≡ put_by (λ b. b.name) (plain_bind bind) (map plain_bind all.old.items)) }
{
    let count = all.len();
    for i in 0..count {
        if !is_less(&all[i].name, &bind.name) {
            all.insert(i, bind)?;
            return Ok(());
        }
    }
    all.push(bind)?;
    Ok(())
}

// The names ascending.
pub(crate) fn ascending(alloc: Global, binds: Vec<Bind>) -> Result<Vec<Bind>, NoMemory>
    ensures { IfOk result (λ v. map plain_bind v.items ≡ by_name (map plain_bind binds.items)) }
{
    let mut left = binds;
    let mut all = Vec::with_capacity(alloc, left.len())?;
    while let Some(bind) = left.pop() {
        put(&mut all, bind)?;
    }
    Ok(all)
}

// What the arm of the row binds, where the row has only wildcards and names left.
pub(crate) fn row_binds<'a, T: Copy>(
    alloc: Global,
    columns: &[KeyedColumn<'a, T>],
    row: &KeyedRow<'a, T>,
) -> Result<Vec<Bind>, NoMemory>
    requires { length columns.now ≡ length (plain_row row.now).heads }
    ensures { IfOk result (λ v. map plain_bind v.items ≡ row_binds (plain_columns columns.now) (plain_row row.now)) }
{
    let mut all = Vec::new(alloc);
    add_caught(alloc, &mut all, &row.caught)?;
    add_heads(alloc, &mut all, columns, &row.heads)?;
    ascending(alloc, all)
}
