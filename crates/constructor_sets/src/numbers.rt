// What the heads of a column of numbers have, and what they leave out, straight from the cuts that they make.
ghost use Rattle.std.specs.Prelude.{◌≡◌, ◌<◌, ◌^◌, IsTrue, IfOk, OnOk, filter_map};
ghost use Rattle.std.specs.List.{All};
ghost use Rattle.std.specs.Option.{option_to_list};
ghost use Rattle.match_model.specs.Constructors.{NumberSet};
ghost use Rattle.match_model.specs.Pieces.{range_of};
ghost use Rattle.range_split.specs.Ranges.{plain_range};
ghost use Rattle.range_split.specs.Cuts.{plain_cuts};
ghost use Rattle.range_split.specs.Walks.{AreCuts, AreInOrder, pieces_from};
ghost use Rattle.pat_context.specs.Views.{plain_ctor, plain_second, is_sure};
ghost use Rattle.constructor_sets.specs.Columns.{plain_ctors};
ghost use Rattle.constructor_sets.specs.Present.{is_sharp_head, AreFound};
ghost use Rattle.constructor_sets.specs.Cut.{HasRoom, AddsHead, AddsPieces, AddsAll, AddsSplit, state_of};

use crate::PieceState;
use crate::column::{Found, add_piece};
use no_memory::NoMemory;
use pat_context::{Ctor, PatCx, Validity};
use range_split::{Cuts, Range, Walk};
use std::alloc::Global;

// What the heads of a column of numbers have, and what they leave out. Each piece has a value.
pub(crate) fn found_numbers<'a, C: PatCx>(
    alloc: Global,
    cx: &C,
    ty: C::Ty,
    validity: Validity,
    first: &Range,
    second: &Option<Range>,
    heads: &[Ctor<'a>],
) -> Result<Found<'a>, NoMemory>
    requires ty { C.is_type cx.now ty }
    requires set { (C.context cx.now).set_of ty ≡ NumberSet (plain_range first.now) (plain_second second.now) }
    requires heads { All (λ h. IsTrue (is_sharp_head ((C.context cx.now).set_of ty) h)) (plain_ctors heads.now) }
    ensures { IfOk result (λ f. AreFound (C.is_value cx.now) (C.context cx.now)
        (record { type = ty; sure = is_sure validity }) (plain_ctors heads.now)
        (plain_ctors f.ctors.items) f.missing (plain_ctors f.gaps.items)) }
{
    let mut found = Found {
        ctors: Vec::new(alloc),
        missing: false,
        gaps: Vec::new(alloc),
    };
    add_numbers(&mut found, alloc, first, heads)?;
    match second {
        None => Ok(found),
        Some(second) => {
            add_numbers(&mut found, alloc, second, heads)?;
            Ok(found)
        }
    }
}

// Adds what the heads have of one range of numbers, and what they leave out.
fn add_numbers<'a>(
    found: &mut Found<'a>,
    alloc: Global,
    whole: &Range,
    heads: &[Ctor<'a>],
) -> Result<(), NoMemory>
    requires { All (λ h. HasRoom (plain_range whole.now) (plain_ctor h)) heads.now }
    ensures { OnOk result (AddsSplit (plain_range whole.now) (filter_map range_of (plain_ctors heads.now))
        found.old found.new) }
{
    let cuts = number_cuts(alloc, whole, heads)?;
    found.ctors.reserve(cuts.places.len() + 1)?;
    add_pieces(found, whole, &cuts)?;
    Ok(())
}

// The cuts that the heads make inside the whole, in order.
fn number_cuts(alloc: Global, whole: &Range, heads: &[Ctor]) -> Result<Cuts, NoMemory>
    requires { All (λ h. HasRoom (plain_range whole.now) (plain_ctor h)) heads.now }
    ensures { IfOk result (λ c. AreCuts (plain_range whole.now) (filter_map range_of (plain_ctors heads.now)) c.begun
        (plain_cuts c.places.items)) }
{
    let mut cuts = Cuts::with_capacity(alloc, heads.len())?;
    for head in heads {
        add_head(&mut cuts, whole, head)?;
    }
    cuts.sort()?;
    Ok(cuts)
}

// Adds the cuts of a head, if it has numbers.
fn add_head(cuts: &mut Cuts, whole: &Range, head: &Ctor) -> Result<(), NoMemory>
    requires room { HasRoom (plain_range whole.now) (plain_ctor head.now) }
    requires few { cuts.old.begun < 2 ^ 65 }
    ensures { OnOk result (AddsHead (plain_range whole.now) (plain_ctor head.now) cuts.old cuts.new) }
{
    match head {
        Ctor::Numbers(range) => cuts.add(whole, range),
        _ => Ok(()),
    }
}

// Adds the pieces between cuts in order.
fn add_pieces<'a>(found: &mut Found<'a>, whole: &Range, cuts: &Cuts) -> Result<(), NoMemory>
    requires { AreInOrder (plain_range whole.now) cuts.now.begun (plain_cuts cuts.now.places.items) }
    ensures { OnOk result (AddsAll (pieces_from (plain_range whole.now).low (plain_range whole.now).high cuts.now.begun 0
        (plain_cuts cuts.now.places.items)) found.old found.new) }
{
    let mut walk = Walk::new(whole, cuts.begun);
    for cut in &cuts.places {
        let piece = walk.pass(cut);
        add_range(found, piece)?;
    }
    let last = walk.last(&whole.high());
    add_range(found, Some(last))?;
    Ok(())
}

// Adds a piece of numbers, if there is one.
fn add_range<'a>(found: &mut Found<'a>, piece: Option<(Range, bool)>) -> Result<(), NoMemory>
    ensures { OnOk result (AddsPieces (option_to_list piece) found.old found.new) }
{
    match piece {
        None => Ok(()),
        Some((range, held)) => add_piece(found, &Ctor::Numbers(range), state_of(held)),
    }
}

// The state of a piece that has a value.
fn state_of(held: bool) -> PieceState
    ensures { result ≡ state_of held }
{
    if held {
        PieceState::Present
    } else {
        PieceState::Missing
    }
}
