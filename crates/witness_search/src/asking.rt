// Rows that leave nothing, found before they are searched. The search looks at places from left to right, so it would
// search the rows behind a place once for each of its pieces. Whether rows take all values of the open places is a
// question of another kind: any place may be looked at first, and no list is made. `usefulness` answers it.
ghost use Rattle.std.specs.Prelude.{◌≡◌, [], List, map, true, IfOk};
ghost use Rattle.match_model.specs.ArenaPatterns.{MDeArm};
ghost use Rattle.match_model.specs.WitnessList.{Witnesses};
ghost use Rattle.pattern_arena.specs.Trees.{plain_arm};
ghost use Rattle.pattern_matrix.specs.Views.{plain_rows};
ghost use Rattle.usefulness.specs.Covering.{asking_columns, asking_rows, covered_arms, IsNew};
ghost use Rattle.witness_search.specs.Askable.{AreAskable};
ghost use Rattle.witness_search.specs.Asks.{shown_of, listed_of, AreAsks};
ghost use Rattle.witness_search.specs.Opened.{places_of, numbers_of};
ghost use Rattle.witness_search.specs.Wells.{heads_over, IsWell};

use crate::opened::Opened;
use crate::rows::has_bare;
use no_memory::NoMemory;
use pat_context::PatCx;
use pattern_arena::CheckedArm;
use pattern_matrix::Row;
use std::alloc::Global;
use usefulness::{Asking, Covered, is_covered, none_covered};

// How many rows are looked at without a stack before the next ones are asked for. A question about few rows takes
// longer than their search.
const IDLE: usize = 128;

// What was found of the rows that were asked for.
#[derive(Drop)]
pub(crate) struct Asks<'a, T: Copy> {
    pub(crate) covered: Covered<'a, T>,
    // How many rows were looked at since a stack was found.
    pub(crate) idle: usize,
}

impl<'a, T: Copy> Asks<'a, T> {
    // No rows were asked for yet.
    pub(crate) fn none(alloc: Global, arms: &'a [CheckedArm<'a, T>]) -> Self
        ensures arms { covered_arms result.covered ≡ map plain_arm arms.now }
        ensures new { IsNew result.covered }
    {
        Asks {
            covered: none_covered(alloc, arms),
            idle: 0,
        }
    }
}

// The open places, the one that is looked at first standing first, without a row.
fn asked_places<'a, T: Copy>(
    alloc: Global,
    opened: &Vec<Opened<T>>,
    next: usize,
) -> Result<Asking<'a, T>, NoMemory>
    ensures columns { IfOk result (λ a. asking_columns a ≡ shown_of opened.now.items) }
    ensures rows { IfOk result (λ a. asking_rows a ≡ []) }
    ensures next { IfOk result (λ a. a.next ≡ next) }
{
    let mut asking = Asking::none(alloc, next);
    let count = opened.len();
    for i in 0..count {
        let place = opened[count - 1 - i];
        asking.add_column(place.number, place.column)?;
    }
    Ok(asking)
}

// The rows over the open places.
fn asked_rows<'a, T: Copy>(
    alloc: Global,
    opened: &Vec<Opened<T>>,
    rows: &[Row<'a, T>],
    next: usize,
) -> Result<Asking<'a, T>, NoMemory>
    ensures columns { IfOk result (λ a. asking_columns a ≡ shown_of opened.now.items) }
    ensures rows { IfOk result (λ a. asking_rows a ≡ listed_of (plain_rows rows.now)) }
    ensures next { IfOk result (λ a. a.next ≡ next) }
{
    let mut asking = asked_places(alloc, opened, next)?;
    for row in rows {
        let heads = row.heads.shared()?;
        asking.add_row(heads)?;
    }
    Ok(asking)
}

// Asks whether the rows leave nothing.
fn ask<'a, C: PatCx>(
    alloc: Global,
    cx: &C,
    asks: &mut Asks<'a, C::Ty>,
    opened: &Vec<Opened<C::Ty>>,
    rows: &Vec<Row<'a, C::Ty>>,
    next: usize,
) -> Result<bool, NoMemory>
    ghost arms: { List (MDeArm C.Ty) }
    requires asks { AreAsks (C.is_type cx.now) (C.is_value cx.now) (C.context cx.now) arms asks.old }
    requires well { IsWell (C.is_type cx.now) (C.context cx.now) next (numbers_of opened.now.items)
        (places_of opened.now.items) (plain_rows rows.now.items) }
    requires askable { AreAskable (C.is_value cx.now) arms (numbers_of opened.now.items)
        (places_of opened.now.items) (plain_rows rows.now.items) }
    ensures asks { AreAsks (C.is_type cx.now) (C.is_value cx.now) (C.context cx.now) arms asks.new }
    ensures none { IfOk result (λ b. b ≡ true → Witnesses (C.context cx.now) (C.is_value cx.now)
        (places_of opened.now.items) (heads_over (numbers_of opened.now.items) (plain_rows rows.now.items)) []) }
{
    let asking = asked_rows(alloc, opened, rows, next)?;
    let covered = is_covered(alloc, cx, &mut asks.covered, asking)?;
    Ok(covered)
}

// Tells that the rows leave nothing, where one lists no head or the question says so. Where it tells nothing, the rows
// are searched.
pub(crate) fn leave_none<'a, C: PatCx>(
    alloc: Global,
    cx: &C,
    asks: &mut Asks<'a, C::Ty>,
    opened: &Vec<Opened<C::Ty>>,
    rows: &Vec<Row<'a, C::Ty>>,
    next: usize,
) -> Result<bool, NoMemory>
    ghost arms: { List (MDeArm C.Ty) }
    requires asks { AreAsks (C.is_type cx.now) (C.is_value cx.now) (C.context cx.now) arms asks.old }
    requires well { IsWell (C.is_type cx.now) (C.context cx.now) next (numbers_of opened.now.items)
        (places_of opened.now.items) (plain_rows rows.now.items) }
    requires askable { AreAskable (C.is_value cx.now) arms (numbers_of opened.now.items)
        (places_of opened.now.items) (plain_rows rows.now.items) }
    ensures asks { AreAsks (C.is_type cx.now) (C.is_value cx.now) (C.context cx.now) arms asks.new }
    ensures none { IfOk result (λ b. b ≡ true → Witnesses (C.context cx.now) (C.is_value cx.now)
        (places_of opened.now.items) (heads_over (numbers_of opened.now.items) (plain_rows rows.now.items)) []) }
{
    if has_bare(rows) {
        return Ok(true);
    }
    if rows.is_empty() {
        asks.idle = 0;
        return Ok(false);
    }
    if asks.idle < IDLE {
        asks.idle += 1;
        return Ok(false);
    }
    let none = ask(alloc, cx, asks, opened, rows, next)?;
    Ok(none)
}
