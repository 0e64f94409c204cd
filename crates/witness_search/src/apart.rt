// The first open place taken apart.
ghost use Rattle.std.specs.Prelude.{◌≡◌, ◌<◌, ◌≤◌, ◌+◌, ◌^◌, ◌∷◌, List, length, take, IfOk, OnOk};
ghost use Rattle.match_model.specs.ArenaPatterns.{MDeArm};
ghost use Rattle.match_model.specs.Witness.{MWitness};
ghost use Rattle.match_model.specs.WitnessList.{Witnesses};
ghost use Rattle.pat_context.specs.Views.{plain_ctor};
ghost use Rattle.pattern_matrix.specs.Columns.{plain_column};
ghost use Rattle.witness_search.specs.Found.{IsEnterable, ArePieceLeaves, IsOfPiece};
ghost use Rattle.pattern_matrix.specs.Views.{plain_rows, plain_leaves};
ghost use Rattle.witness_search.specs.Askable.{AreAskable, IsAskable, IsValued};
ghost use Rattle.witness_search.specs.Bares.{wild_rests};
ghost use Rattle.witness_search.specs.Opened.{places_of, numbers_of};
ghost use Rattle.witness_search.specs.Wells.{heads_over, apart_heads, IsWell, IsTakenApart};

use crate::opened::{Opened, open_parts};
use no_memory::NoMemory;
use pat_context::{Ctor, PatCx};
use pattern_matrix::{Leaf, Row, leaves_at, piece_rows, wild_rows};
use std::alloc::Global;

// Rows, an open place, and what stands there in the rows with or-patterns taken apart.
#[derive(Drop)]
pub(crate) struct Apart<'a, T: Copy> {
    pub(crate) rows: Vec<Row<'a, T>>,
    pub(crate) place: Opened<T>,
    // The number of the place that is opened next; those of all others are less.
    pub(crate) next: usize,
    pub(crate) leaves: Vec<Leaf<'a, T>>,
}

// Takes the rows apart at the place, which stands before the others.
pub(crate) fn take_apart<'a, C: PatCx>(
    alloc: Global,
    cx: &C,
    rows: Vec<Row<'a, C::Ty>>,
    place: Opened<C::Ty>,
    others: &Vec<Opened<C::Ty>>,
    next: usize,
) -> Result<Apart<'a, C::Ty>, NoMemory>
    requires { IsWell (C.is_type cx.now) (C.context cx.now) next (place.number ∷ numbers_of others.now.items) (plain_column place.column ∷ places_of others.now.items) (plain_rows rows.items) }
    ensures rows { IfOk result (λ e. e.rows.items ≡ rows.entry.items) }
    ensures place { IfOk result (λ e. e.place ≡ place) }
    ensures next { IfOk result (λ e. e.next ≡ next) }
    ensures apart { IfOk result (λ e. IsTakenApart (C.is_type cx.now) (C.context cx.now) others.now.items e) }
    ensures askable { IfOk result (λ e. (arms : List (MDeArm C.Ty)) → AreAskable (C.is_value cx.now) arms (place.number ∷ numbers_of others.now.items) (plain_column place.column ∷ places_of others.now.items) (plain_rows rows.entry.items)
        → IsAskable (C.is_value cx.now) arms others.now.items e) }
{
    let leaves = leaves_at(alloc, &rows, place.number)?;
    Ok(Apart {
        rows,
        place,
        next,
        leaves,
    })
}

// The rows that are wild at the place, without it.
pub(crate) fn rows_behind<'a, C: PatCx>(
    alloc: Global,
    cx: &C,
    e: &Apart<'a, C::Ty>,
    others: &Vec<Opened<C::Ty>>,
) -> Result<Vec<Row<'a, C::Ty>>, NoMemory>
    requires { IsTakenApart (C.is_type cx.now) (C.context cx.now) others.now.items e.now }
    ensures well { IfOk result (λ v. IsWell (C.is_type cx.now) (C.context cx.now) e.now.next (numbers_of others.now.items) (places_of others.now.items) (plain_rows v.items)) }
    ensures askable { IfOk result (λ v. (arms : List (MDeArm C.Ty)) → IsAskable (C.is_value cx.now) arms others.now.items e.now
        → AreAskable (C.is_value cx.now) arms (numbers_of others.now.items) (places_of others.now.items) (plain_rows v.items)) }
    ensures behind { IfOk result (λ v. (ws : List (List MWitness)) → Witnesses (C.context cx.now) (C.is_value cx.now) (places_of others.now.items) (heads_over (numbers_of others.now.items) (plain_rows v.items)) ws
        → Witnesses (C.context cx.now) (C.is_value cx.now) (places_of others.now.items) (wild_rests (apart_heads others.now.items e.now)) ws) }
{
    let rows = wild_rows(alloc, &e.rows, &e.leaves, e.place.number)?;
    Ok(rows)
}

// The rows of a piece that was entered, and how many places it opened.
#[derive(Drop)]
pub(crate) struct Entered<'a, T: Copy> {
    pub(crate) count: usize,
    pub(crate) rows: Vec<Row<'a, T>>,
}

// Enters a piece: opens the places of its parts before the others, and gives its rows, from the leaves that have it.
pub(crate) fn enter_piece<'a, C: PatCx>(
    alloc: Global,
    cx: &C,
    e: &Apart<'a, C::Ty>,
    opened: &mut Vec<Opened<C::Ty>>,
    ctor: &Ctor<'a>,
    leaves: &[usize],
) -> Result<Entered<'a, C::Ty>, NoMemory>
    requires apart { IsTakenApart (C.is_type cx.now) (C.context cx.now) opened.old.items e.now }
    requires ctor { IsEnterable (C.context cx.now) (plain_column e.now.place.column) (plain_ctor ctor.now) }
    requires leaves { ArePieceLeaves (plain_ctor ctor.now) (plain_leaves e.now.leaves.items) leaves.now }
    requires room { e.now.next + 8589934592 < 2 ^ 64 }
    ensures count { IfOk result (λ n. n.count ≡ (C.context cx.now).arity (plain_ctor ctor.now) e.now.place.column.ty) }
    ensures few { IfOk result (λ n. n.count ≤ 8589934592) }
    ensures well { IfOk result (λ n. IsWell (C.is_type cx.now) (C.context cx.now) (e.now.next + n.count) (numbers_of opened.new.items) (places_of opened.new.items) (plain_rows n.rows.items)) }
    ensures askable { IfOk result (λ n. (arms : List (MDeArm C.Ty)) → IsValued (C.is_value cx.now) (plain_column e.now.place.column) (plain_ctor ctor.now) → IsAskable (C.is_value cx.now) arms opened.old.items e.now
        → AreAskable (C.is_value cx.now) arms (numbers_of opened.new.items) (places_of opened.new.items) (plain_rows n.rows.items)) }
    ensures back { IfOk result (λ n. (ws : List (List MWitness)) → Witnesses (C.context cx.now) (C.is_value cx.now) (places_of opened.new.items) (heads_over (numbers_of opened.new.items) (plain_rows n.rows.items)) ws
        → IsOfPiece (C.context cx.now) (C.is_value cx.now) (plain_column e.now.place.column) (places_of opened.old.items) (apart_heads opened.old.items e.now) (plain_ctor ctor.now) ws) }
    ensures kept { OnOk result (take (length opened.old.items) opened.new.items ≡ opened.old.items) }
{
    let count = open_parts(alloc, cx, opened, &e.place.column, ctor, e.next)?;
    let rows = piece_rows(
        alloc,
        &e.rows,
        &e.leaves,
        leaves,
        e.place.number,
        e.next,
        count,
    )?;
    Ok(Entered { count, rows })
}
