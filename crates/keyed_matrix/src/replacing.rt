// A row with something else in place of one of its heads.
ghost use Rattle.std.specs.Prelude.{◌≡◌, ◌<◌, ◌++◌, map, length, IfOk};
ghost use Rattle.match_model.specs.Matrices.{bind_at};
ghost use Rattle.match_model.specs.Rows.{wildcards};
ghost use Rattle.match_model.specs.Steps.{row_replaced, replaced_at};
ghost use Rattle.pat_context.specs.Views.{plain_place};
ghost use Rattle.pattern_arena.specs.Trees.{plain_bound};
ghost use Rattle.keyed_matrix.specs.Views.{plain_heads, plain_caught, plain_row};

use crate::heads::{replaced_heads, rewilded_heads};
use crate::{Caught, HeadRun, KeyedRow};
use no_memory::NoMemory;
use pat_context::Step;
use pattern_arena::Bound;
use smallvec::SmallVec;
use std::alloc::Global;

// The alternatives that were chosen before, and these.
fn both_chosen(alloc: Global, chosen: &[u64], more: &[u64]) -> Result<SmallVec<u64, 2>, NoMemory>
    ensures { IfOk result (λ c. c.items ≡ chosen.now ++ more.now) }
{
    let room = chosen.len().saturating_add(more.len());
    let mut all = SmallVec::with_capacity(alloc, room)?;
    all.extend_from_slice(chosen)?;
    all.extend_from_slice(more)?;
    Ok(all)
}

// The names that were caught before, and these at the place.
fn both_caught<'a>(
    alloc: Global,
    caught: &[Caught<'a>],
    place: &'a [Step],
    binds: &[Bound<'a>],
) -> Result<Vec<Caught<'a>>, NoMemory>
    ensures { IfOk result (λ c. map plain_caught c.items ≡ map plain_caught caught.now
        ++ map (bind_at (plain_place place.now)) (map plain_bound binds.now)) }
{
    let mut all = Vec::from_slice(alloc, caught)?;
    for bound in binds {
        all.push(Caught {
            bound: *bound,
            place,
        })?;
    }
    Ok(all)
}

// The row with these heads in place of the head with the number, these alternatives chosen besides, and these names
// caught at the place.
pub(crate) fn replaced_row<'a, T: Copy>(
    alloc: Global,
    row: &KeyedRow<'a, T>,
    i: usize,
    place: &'a [Step],
    heads: &[HeadRun<'a, T>],
    chosen: &[u64],
    binds: &[Bound<'a>],
) -> Result<KeyedRow<'a, T>, NoMemory>
    requires { i < length (plain_row row.now).heads }
    ensures { IfOk result (λ r. plain_row r ≡ row_replaced (plain_place place.now) (plain_row row.now) (record {
      heads = replaced_at i (plain_heads row.now.heads.items) (plain_heads heads.now);
      chosen = chosen.now;
      binds = map plain_bound binds.now;
    })) }
{
    let new = replaced_heads(alloc, &row.heads, i, heads)?;
    let all = both_chosen(alloc, row.chosen.as_slice(), chosen)?;
    let caught = both_caught(alloc, &row.caught, place, binds)?;
    Ok(KeyedRow {
        heads: new,
        arm: row.arm,
        guarded: row.guarded,
        chosen: all,
        caught,
    })
}

// The row with so many wildcards that no pattern wrote in place of the head with the number.
pub(crate) fn rewilded_row<'a, T: Copy>(
    alloc: Global,
    row: &KeyedRow<'a, T>,
    i: usize,
    count: usize,
) -> Result<KeyedRow<'a, T>, NoMemory>
    requires { i < length (plain_row row.now).heads }
    ensures { IfOk result (λ r. plain_row r ≡ record (plain_row row.now) {
      heads = replaced_at i (plain_heads row.now.heads.items) (wildcards count);
    }) }
{
    let heads = rewilded_heads(alloc, &row.heads, i, count)?;
    let guarded = row.guarded;
    let chosen = SmallVec::from_slice(alloc, row.chosen.as_slice())?;
    let caught = Vec::from_slice(alloc, &row.caught)?;
    Ok(KeyedRow {
        heads,
        arm: row.arm,
        guarded,
        chosen,
        caught,
    })
}
