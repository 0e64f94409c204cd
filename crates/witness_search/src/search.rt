// The search for the witnesses of rows. What waits for the stacks of rows stands in a list, so that the search does not call
// itself.
ghost use Rattle.std.specs.Prelude.{◌≡◌, ◌≢◌, ◌<◌, ◌++◌, ◌∷◌, [], List, map, length, reverse, take, get_or, nat_eq, true, false, IsTrue, IfOk, OnOk};
ghost use Rattle.std.specs.List.{All, IsDistinct, flat_map};
ghost use Rattle.match_model.specs.Made.{AreArmsMade};
ghost use Rattle.match_model.specs.WellTyped.{uids_in};
ghost use Rattle.match_model.specs.WitnessList.{Witnesses, wrapped};
ghost use Rattle.pat_context.specs.Views.{plain_ctor};
ghost use Rattle.constructor_sets.specs.Columns.{plain_ctors};
ghost use Rattle.constructor_sets.specs.Present.{ArePresent, is_sharp_head};
ghost use Rattle.constructor_sets.specs.Spans.{plain_span};
ghost use Rattle.constructor_sets.specs.declared.piece.PieceState.TheVariants.{Present, Missing, Empty};
ghost use Rattle.pattern_arena.specs.Trees.{plain_arm};
ghost use Rattle.pattern_matrix.specs.Columns.{plain_column};
ghost use Rattle.pattern_matrix.specs.Halving.{leaf_ctors};
ghost use Rattle.pattern_matrix.specs.Views.{plain_rows, plain_leaves};
ghost use Rattle.witnesses.specs.Views.{plain_stack, plain_names};
ghost use Rattle.witness_search.specs.Askable.{AreAskable, IsAskable};
ghost use Rattle.witness_search.specs.Asks.{AreAsks};
ghost use Rattle.witness_search.specs.Bares.{wild_rests};
ghost use Rattle.witness_search.specs.Cuts.{wrapped_behind};
ghost use Rattle.witness_search.specs.Found.{IsEnterable};
ghost use Rattle.witness_search.specs.Opened.{places_of, numbers_of};
ghost use Rattle.witness_search.specs.Starts.{starting_rows};
ghost use Rattle.witness_search.specs.Turns.{Root, IsPut, Accepts, IsWanted, IsWantedAt, Ends, IsGoneThrough, IsTurn};
ghost use Rattle.witness_search.specs.Wells.{apart_heads, IsWell, IsTakenApart};
ghost use Rattle.witness_search.specs.declared.opened.Opened.{Opened};

use crate::apart::{Apart, enter_piece, rows_behind, take_apart};
use crate::asking::{Asks, leave_none};
use crate::covered::is_covered;
use crate::cut::{Cut, cut_pieces, leaves_of_next};
use crate::frames::{Frame, Stage, Turn, Walk, Within};
use crate::opened::{Opened, put_back, take_first};
use crate::rows::unguarded_rows;
use crate::stacks::{add_stacks, one_of_any, with_anys, wrap_all, wrapped_copies};
use constructor_sets::{Piece, PieceState, PresentPieces};
use no_memory::NoMemory;
use pat_context::{Ctor, PatCx, count_parts};
use pattern_arena::CheckedArm;
use pattern_matrix::{Row, all_parts, are_wild, leaf_pieces};
use std::alloc::Global;
use witnesses::Stack;

// Places have numbers below this one and those of the parts of a piece.
const LAST_NUMBER: usize = 9223372036854775808;

// The pieces of the place, cut, none of them done. The stacks are those of the rows that are wild there, where some piece is
// missing; else there is none.
fn start_pieces<'a, C: PatCx>(
    alloc: Global,
    cx: &C,
    opened: &Vec<Opened<C::Ty>>,
    e: Apart<'a, C::Ty>,
    found: PresentPieces<'a>,
    behind: Vec<Stack>,
) -> Result<Walk<'a, C::Ty>, NoMemory>
    requires apart { IsTakenApart (C.is_type cx.now) (C.context cx.now) opened.now.items e }
    requires found { ArePresent (C.is_value cx.now) (C.context cx.now) (plain_column e.place.column) (leaf_ctors (plain_leaves e.leaves.items))
        (plain_ctors found.ctors.items) found.missing (plain_ctors found.gaps.items) (map plain_span found.spans.items) }
    requires missing { found.missing ≡ true → Witnesses (C.context cx.now) (C.is_value cx.now) (places_of opened.now.items) (wild_rests (apart_heads opened.now.items e)) (map plain_stack behind.items) }
    requires none { found.missing ≡ false → behind.items ≡ [] }
    ensures e { IfOk result (λ w. w.e ≡ e.entry) }
    ensures gone { IfOk result (λ w. IsGoneThrough (C.is_type cx.now) (C.context cx.now) (C.is_value cx.now) opened.now.items w) }
{
    let cut = cut_pieces(alloc, cx, &e, opened, found, behind)?;
    let todo = all_parts(alloc, &cut.spans, cut.ctors.len())?;
    Ok(Walk {
        e,
        cut,
        todo,
        done: 0,
        all: Vec::new(alloc),
    })
}

// What is found of the constructors that stand at the place.
fn found_at<'a, C: PatCx>(
    alloc: Global,
    cx: &C,
    e: &Apart<'a, C::Ty>,
) -> Result<PresentPieces<'a>, NoMemory>
    requires ty { C.is_type cx.now e.now.place.column.ty }
    requires heads { All (λ h. IsTrue (is_sharp_head ((C.context cx.now).set_of e.now.place.column.ty) h)) (leaf_ctors (plain_leaves e.now.leaves.items)) }
    ensures { IfOk result (λ found. ArePresent (C.is_value cx.now) (C.context cx.now) (plain_column e.now.place.column) (leaf_ctors (plain_leaves e.now.leaves.items))
        (plain_ctors found.ctors.items) found.missing (plain_ctors found.gaps.items) (map plain_span found.spans.items)) }
{
    let found = leaf_pieces(alloc, cx, &e.place.column, &e.leaves)?;
    Ok(found)
}

// Has the place wait.
fn put_frame<'a, T: Copy>(
    alloc: Global,
    frames: &mut Vec<Frame<'a, T>>,
    e: Apart<'a, T>,
    stage: Stage<'a>,
) -> Result<(), NoMemory>
    ensures { OnOk result (IsPut frames.old.items frames.new.items e.entry stage.entry) }
{
    let Apart {
        rows,
        place,
        next,
        leaves,
    } = e;
    let place = Box::new(alloc, place)?;
    frames.push(Frame {
        rows,
        place,
        next,
        leaves,
        stage,
    })?;
    Ok(())
}

// Goes on with the pieces of the place, at which some head is no wildcard; where one is missing, with the rows that are wild
// there first.
fn split_place<'a, C: PatCx>(
    alloc: Global,
    cx: &C,
    opened: &Vec<Opened<C::Ty>>,
    frames: &mut Vec<Frame<'a, C::Ty>>,
    e: Apart<'a, C::Ty>,
) -> Result<Turn<'a, C::Ty>, NoMemory>
    ghost root: { Root C.Ty }
    requires apart { IsTakenApart (C.is_type cx.now) (C.context cx.now) opened.now.items e }
    requires askable { IsAskable (C.is_value cx.now) root.arms opened.now.items e }
    requires ends { Ends (C.is_type cx.now) (C.context cx.now) (C.is_value cx.now) root (reverse frames.old.items) opened.now.items e }
    ensures { IfOk result (λ t. IsTurn (C.is_type cx.now) (C.context cx.now) (C.is_value cx.now) root (reverse frames.new.items) opened.now.items t) }
{
    let found = found_at(alloc, cx, &e)?;
    if found.missing {
        let behind = rows_behind(alloc, cx, &e, opened)?;
        let next = e.next;
        put_frame(alloc, frames, e, Stage::Missing(found))?;
        Ok(Turn::Look(behind, next))
    } else {
        let walk = start_pieces(alloc, cx, opened, e, found, Vec::new(alloc))?;
        Ok(Turn::Go(walk))
    }
}

// A place without its rows.
fn bare_apart<'a, T: Copy>(alloc: Global, place: Opened<T>) -> Apart<'a, T>
    ensures { result.place ≡ place }
{
    Apart {
        rows: Vec::new(alloc),
        place,
        next: 0,
        leaves: Vec::new(alloc),
    }
}

// Looks at the place that is looked at first, of rows of which there is one.
fn open_place<'a, C: PatCx>(
    alloc: Global,
    cx: &C,
    opened: &Vec<Opened<C::Ty>>,
    frames: &mut Vec<Frame<'a, C::Ty>>,
    rows: Vec<Row<'a, C::Ty>>,
    place: Opened<C::Ty>,
    next: usize,
) -> Result<Turn<'a, C::Ty>, NoMemory>
    ghost root: { Root C.Ty }
    requires well { IsWell (C.is_type cx.now) (C.context cx.now) next (place.number ∷ numbers_of opened.now.items) (plain_column place.column ∷ places_of opened.now.items) (plain_rows rows.items) }
    requires askable { AreAskable (C.is_value cx.now) root.arms (place.number ∷ numbers_of opened.now.items) (plain_column place.column ∷ places_of opened.now.items) (plain_rows rows.items) }
    requires some { 0 < length rows.items }
    requires wanted { IsWantedAt (C.is_type cx.now) (C.context cx.now) (C.is_value cx.now) root (reverse frames.old.items) opened.now.items place (plain_rows rows.items) }
    ensures { IfOk result (λ t. IsTurn (C.is_type cx.now) (C.context cx.now) (C.is_value cx.now) root (reverse frames.new.items) opened.now.items t) }
{
    let e = take_apart(alloc, cx, rows, place, opened, next)?;
    if are_wild(&e.leaves) {
        let behind = rows_behind(alloc, cx, &e, opened)?;
        let bare = bare_apart(alloc, place);
        put_frame(alloc, frames, bare, Stage::Wild)?;
        Ok(Turn::Look(behind, next))
    } else {
        let turn = split_place(alloc, cx, opened, frames, e)?;
        Ok(turn)
    }
}

// Looks at rows over the open places, of which it is not known that they leave nothing.
fn look<'a, C: PatCx>(
    alloc: Global,
    cx: &C,
    opened: &mut Vec<Opened<C::Ty>>,
    frames: &mut Vec<Frame<'a, C::Ty>>,
    rows: Vec<Row<'a, C::Ty>>,
    next: usize,
) -> Result<Turn<'a, C::Ty>, NoMemory>
    ghost root: { Root C.Ty }
    requires well { IsWell (C.is_type cx.now) (C.context cx.now) next (numbers_of opened.old.items) (places_of opened.old.items) (plain_rows rows.items) }
    requires askable { AreAskable (C.is_value cx.now) root.arms (numbers_of opened.old.items) (places_of opened.old.items) (plain_rows rows.items) }
    requires wanted { IsWanted (C.is_type cx.now) (C.context cx.now) (C.is_value cx.now) root (reverse frames.old.items) opened.old.items (plain_rows rows.items) }
    ensures { IfOk result (λ t. IsTurn (C.is_type cx.now) (C.context cx.now) (C.is_value cx.now) root (reverse frames.new.items) opened.new.items t) }
{
    if rows.is_empty() {
        let one = one_of_any(alloc, opened.len())?;
        return Ok(Turn::Found(one));
    }
    match take_first(opened) {
        None => {
            let none = Vec::new(alloc);
            Ok(Turn::Found(none))
        }
        Some(place) => {
            let turn = open_place(alloc, cx, opened, frames, rows, place, next)?;
            Ok(turn)
        }
    }
}

// The stacks of a piece that no head has.
fn of_absent<'a, C: PatCx>(
    alloc: Global,
    cx: &C,
    e: &Apart<'a, C::Ty>,
    cut: &Cut<'a>,
    piece: &Piece<'a>,
) -> Result<Vec<Stack>, NoMemory>
    requires ty { C.is_type cx.now e.now.place.column.ty }
    requires enterable { IsEnterable (C.context cx.now) (plain_column e.now.place.column) (plain_ctor piece.now.ctor) }
    ensures missing { IfOk result (λ v. piece.now.state ≡ Missing → map plain_stack v.items
        ≡ wrapped_behind (C.context cx.now) (plain_names cut.now.names.items) (plain_column e.now.place.column) (map plain_stack cut.now.behind.items) (plain_ctor piece.now.ctor)) }
    ensures empty { IfOk result (λ v. piece.now.state ≡ Empty → map plain_stack v.items ≡ []) }
{
    match piece.state {
        PieceState::Missing => {
            let count = count_parts(cx, &piece.ctor, e.place.column.ty);
            let copies = wrapped_copies(alloc, &cut.behind, &piece.ctor, count, &cut.names)?;
            Ok(copies)
        }
        _ => Ok(Vec::new(alloc)),
    }
}

// Goes on behind a piece that no head has.
fn pass_piece<'a, C: PatCx>(
    alloc: Global,
    cx: &C,
    walk: Walk<'a, C::Ty>,
    piece: Piece<'a>,
) -> Result<Walk<'a, C::Ty>, NoMemory>
    requires ty { C.is_type cx.now walk.e.place.column.ty }
    requires enterable { IsEnterable (C.context cx.now) (plain_column walk.e.place.column) (plain_ctor piece.ctor) }
    requires within { walk.done < length walk.cut.pieces.items }
    requires piece { piece ≡ get_or walk.cut.pieces.items walk.done piece }
    requires absent { piece.state ≢ Present }
    ensures e { IfOk result (λ w. w.e ≡ walk.entry.e) }
    ensures gone { IfOk result (λ w. (opened : List (Opened C.Ty)) → IsGoneThrough (C.is_type cx.now) (C.context cx.now) (C.is_value cx.now) opened walk.entry → IsGoneThrough (C.is_type cx.now) (C.context cx.now) (C.is_value cx.now) opened w) }
{
    let mut walk = walk;
    let found = of_absent(alloc, cx, &walk.e, &walk.cut, &piece)?;
    add_stacks(&mut walk.all, found)?;
    walk.done += 1;
    Ok(walk)
}

// Goes on with the rows of the next piece, which heads have; behind it, where they leave nothing of it.
fn open_piece<'a, C: PatCx>(
    alloc: Global,
    cx: &C,
    opened: &mut Vec<Opened<C::Ty>>,
    frames: &mut Vec<Frame<'a, C::Ty>>,
    walk: Walk<'a, C::Ty>,
    piece: Piece<'a>,
) -> Result<Turn<'a, C::Ty>, NoMemory>
    ghost root: { Root C.Ty }
    requires gone { IsGoneThrough (C.is_type cx.now) (C.context cx.now) (C.is_value cx.now) opened.old.items walk }
    requires askable { IsAskable (C.is_value cx.now) root.arms opened.old.items walk.e }
    requires ends { Ends (C.is_type cx.now) (C.context cx.now) (C.is_value cx.now) root (reverse frames.old.items) opened.old.items walk.e }
    requires within { walk.done < length walk.cut.pieces.items }
    requires piece { piece ≡ get_or walk.cut.pieces.items walk.done piece }
    requires present { piece.state ≡ Present }
    ensures { IfOk result (λ t. IsTurn (C.is_type cx.now) (C.context cx.now) (C.is_value cx.now) root (reverse frames.new.items) opened.new.items t) }
{
    if walk.e.next >= LAST_NUMBER {
        return Err(NoMemory);
    }
    let Walk {
        e,
        cut,
        mut todo,
        done,
        all,
    } = walk;
    let leaves = leaves_of_next(alloc, &mut todo, &cut, &e.leaves, &piece.ctor)?;
    if is_covered(&e, &leaves) {
        return Ok(Turn::Go(Walk {
            e,
            cut,
            todo,
            done: done + 1,
            all,
        }));
    }
    let before = opened.len();
    let inner = enter_piece(alloc, cx, &e, opened, &piece.ctor, &leaves)?;
    let next = e.next + inner.count;
    let within = Within {
        cut,
        todo,
        done: done + 1,
        all,
        ctor: piece.ctor,
        count: inner.count,
        before,
    };
    put_frame(alloc, frames, e, Stage::Piece(within))?;
    Ok(Turn::Look(inner.rows, next))
}

// Closes a place whose pieces were all gone through: the stacks are those of them.
fn close_place<'a, T: Copy>(
    opened: &mut Vec<Opened<T>>,
    walk: Walk<'a, T>,
) -> Result<Vec<Stack>, NoMemory>
    ensures opened { OnOk result (opened.new.items ≡ opened.old.items ++ walk.entry.e.place ∷ []) }
    ensures all { IfOk result (λ v. v.items ≡ walk.entry.all.items) }
{
    let Walk {
        e,
        cut: _cut,
        todo: _todo,
        done: _done,
        all,
    } = walk;
    let place = &e.place;
    put_back(opened, *place)?;
    Ok(all)
}

// Goes on with the pieces of a place.
fn go_on<'a, C: PatCx>(
    alloc: Global,
    cx: &C,
    opened: &mut Vec<Opened<C::Ty>>,
    frames: &mut Vec<Frame<'a, C::Ty>>,
    walk: Walk<'a, C::Ty>,
) -> Result<Turn<'a, C::Ty>, NoMemory>
    ghost root: { Root C.Ty }
    requires gone { IsGoneThrough (C.is_type cx.now) (C.context cx.now) (C.is_value cx.now) opened.old.items walk }
    requires askable { IsAskable (C.is_value cx.now) root.arms opened.old.items walk.e }
    requires ends { Ends (C.is_type cx.now) (C.context cx.now) (C.is_value cx.now) root (reverse frames.old.items) opened.old.items walk.e }
    ensures { IfOk result (λ t. IsTurn (C.is_type cx.now) (C.context cx.now) (C.is_value cx.now) root (reverse frames.new.items) opened.new.items t) }
{
    if walk.done >= walk.cut.pieces.len() {
        let all = close_place(opened, walk)?;
        return Ok(Turn::Found(all));
    }
    let piece = walk.cut.pieces[walk.done];
    match piece.state {
        PieceState::Present => {
            let turn = open_piece(alloc, cx, opened, frames, walk, piece)?;
            Ok(turn)
        }
        _ => {
            let passed = pass_piece(alloc, cx, walk, piece)?;
            Ok(Turn::Go(passed))
        }
    }
}

// The pieces of a place, gone through up to behind one, by the stacks of its rows. Closes the places that the piece opened.
fn behind_piece<'a, T: Copy>(
    alloc: Global,
    opened: &mut Vec<Opened<T>>,
    e: Apart<'a, T>,
    within: Within<'a>,
    found: Vec<Stack>,
) -> Result<Walk<'a, T>, NoMemory>
    ensures opened { OnOk result (opened.new.items ≡ take within.entry.before opened.old.items) }
    ensures e { IfOk result (λ w. w.e ≡ e.entry) }
    ensures cut { IfOk result (λ w. w.cut ≡ within.entry.cut) }
    ensures todo { IfOk result (λ w. w.todo ≡ within.entry.todo) }
    ensures done { IfOk result (λ w. w.done ≡ within.entry.done) }
    ensures all { IfOk result (λ w. map plain_stack w.all.items ≡ map plain_stack within.entry.all.items
        ++ map (wrapped (plain_ctor within.entry.ctor) (plain_names within.entry.cut.names.items) within.entry.count) (map plain_stack found.items)) }
{
    let Within {
        cut,
        todo,
        done,
        all,
        ctor,
        count,
        before,
    } = within;
    let mut all = all;
    opened.truncate(before);
    let wrapped = wrap_all(alloc, found, &ctor, count, &cut.names)?;
    add_stacks(&mut all, wrapped)?;
    Ok(Walk {
        e,
        cut,
        todo,
        done,
        all,
    })
}

// Goes on with what waits last, by the stacks of what was searched.
fn resume<'a, C: PatCx>(
    alloc: Global,
    cx: &C,
    opened: &mut Vec<Opened<C::Ty>>,
    frames: &mut Vec<Frame<'a, C::Ty>>,
    found: Vec<Stack>,
) -> Result<Turn<'a, C::Ty>, NoMemory>
    ghost root: { Root C.Ty }
    requires { Accepts (C.is_type cx.now) (C.context cx.now) (C.is_value cx.now) root (reverse frames.old.items) opened.old.items (map plain_stack found.items) }
    ensures { IfOk result (λ t. IsTurn (C.is_type cx.now) (C.context cx.now) (C.is_value cx.now) root (reverse frames.new.items) opened.new.items t) }
{
    match frames.pop() {
        None => Ok(Turn::Done(found)),
        Some(frame) => {
            let Frame {
                rows,
                place,
                next,
                leaves,
                stage,
            } = frame;
            let place = *place;
            let e = Apart {
                rows,
                place,
                next,
                leaves,
            };
            match stage {
                Stage::Wild => {
                    let all = with_anys(alloc, found, 1)?;
                    put_back(opened, place)?;
                    Ok(Turn::Found(all))
                }
                Stage::Missing(pieces) => {
                    let walk = start_pieces(alloc, cx, opened, e, pieces, found)?;
                    Ok(Turn::Go(walk))
                }
                Stage::Piece(within) => {
                    let walk = behind_piece(alloc, opened, e, within, found)?;
                    Ok(Turn::Go(walk))
                }
            }
        }
    }
}

// Does what is to be done next.
fn step<'a, C: PatCx>(
    alloc: Global,
    cx: &C,
    opened: &mut Vec<Opened<C::Ty>>,
    frames: &mut Vec<Frame<'a, C::Ty>>,
    asks: &mut Asks<'a, C::Ty>,
    turn: Turn<'a, C::Ty>,
) -> Result<Turn<'a, C::Ty>, NoMemory>
    ghost root: { Root C.Ty }
    requires turn { IsTurn (C.is_type cx.now) (C.context cx.now) (C.is_value cx.now) root (reverse frames.old.items) opened.old.items turn }
    requires asks { AreAsks (C.is_type cx.now) (C.is_value cx.now) (C.context cx.now) root.arms asks.old }
    ensures asks { AreAsks (C.is_type cx.now) (C.is_value cx.now) (C.context cx.now) root.arms asks.new }
    ensures turn { IfOk result (λ t. IsTurn (C.is_type cx.now) (C.context cx.now) (C.is_value cx.now) root (reverse frames.new.items) opened.new.items t) }
{
    match turn {
        Turn::Look(rows, next) => {
            let none = leave_none(alloc, cx, asks, opened, &rows, next)?;
            if none {
                return Ok(Turn::Found(Vec::new(alloc)));
            }
            let new = look(alloc, cx, opened, frames, rows, next)?;
            Ok(new)
        }
        Turn::Go(walk) => {
            let new = go_on(alloc, cx, opened, frames, walk)?;
            Ok(new)
        }
        Turn::Found(found) => {
            let new = resume(alloc, cx, opened, frames, found)?;
            Ok(new)
        }
        Turn::Done(found) => Ok(Turn::Done(found)),
    }
}

// The witnesses that are searched, where they are those of the rows of the arms without a guard: each stack has one for each
// open place. These have numbers below 1. No two patterns of the arms have one uid.
pub(crate) fn stacks_of<'a, C: PatCx>(
    alloc: Global,
    cx: &C,
    mut opened: Vec<Opened<C::Ty>>,
    arms: &'a [CheckedArm<'a, C::Ty>],
) -> Result<Vec<Stack>, NoMemory>
    ghost root: { Root C.Ty }
    requires well { IsWell (C.is_type cx.now) (C.context cx.now) 1 (numbers_of opened.items) (places_of opened.items) (starting_rows (map plain_arm arms.now)) }
    requires askable { AreAskable (C.is_value cx.now) root.arms (numbers_of opened.items) (places_of opened.items) (starting_rows (map plain_arm arms.now)) }
    requires wanted { IsWanted (C.is_type cx.now) (C.context cx.now) (C.is_value cx.now) root [] opened.items (starting_rows (map plain_arm arms.now)) }
    requires arms { root.arms ≡ map plain_arm arms.now }
    requires made { AreArmsMade root.arms }
    requires uids { IsDistinct nat_eq (flat_map (λ a. uids_in a.pat) root.arms) }
    ensures { IfOk result (λ v. Witnesses (C.context cx.now) (C.is_value cx.now) root.places root.rows (map plain_stack v.items)) }
{
    let rows = unguarded_rows(alloc, arms)?;
    let mut frames = Vec::new(alloc);
    let mut asks = Asks::none(alloc, arms);
    let mut turn = Turn::Look(rows, 1);
    for _step in 0..usize::MAX {
        match turn {
            Turn::Done(found) => return Ok(found),
            other => turn = step(alloc, cx, &mut opened, &mut frames, &mut asks, other)?,
        }
    }
    Err(NoMemory)
}
