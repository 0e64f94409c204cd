// The line and the column of a place.
ghost use Rattle.std.specs.Prelude.{◌≡◌, ◌≤◌, ◌<◌, ◌+◌, ◌^◌, ℕ, List, IfOk, length};
ghost use Rattle.std.specs.List.{All};
ghost use Rattle.explain_lines.specs.Lines.{begins_character, spot_at};
ghost use Rattle.explain_lines.specs.Steps.{next_spot, IsSpotOf};

use no_memory::NoMemory;
use std::alloc::{AllocError, Global};

// How far the checkpoints are from each other, in bytes.
const STRIDE: usize = 256;

/// A place in a text, with its line.
#[derive(Clone, Copy, Debug, PartialEq, Eq)]
pub struct Spot {
    /// The place: a byte offset in the text, from 0 to its length.
    pub at: usize,
    /// Its line, counted from 1.
    pub line: usize,
    /// Its column on the line, in characters counted from 1.
    pub column: usize,
    /// Where the line begins: a byte offset in the text.
    pub start: usize,
}

/// Whether a byte begins a character of UTF-8: each byte does but the ones from 128 to 191, which continue one.
pub fn begins_character(byte: u8) -> bool
    ensures { result ≡ begins_character byte }
{
    byte < 128 || 192 <= byte
}

// The spot behind a byte.
fn step(spot: Spot, byte: u8) -> Spot
    requires line { spot.line ≤ spot.at + 1 }
    requires column { spot.column ≤ spot.at + 1 }
    requires room { spot.at < 2 ^ 63 }
    ensures { result ≡ next_spot spot byte }
{
    if byte == b'\n' {
        return Spot {
            at: spot.at + 1,
            line: spot.line + 1,
            column: 1,
            start: spot.at + 1,
        };
    }
    if begins_character(byte) {
        return Spot {
            at: spot.at + 1,
            line: spot.line,
            column: spot.column + 1,
            start: spot.start,
        };
    }
    Spot {
        at: spot.at + 1,
        line: spot.line,
        column: spot.column,
        start: spot.start,
    }
}

// The spot of a later place.
fn advance(text: &[u8], from: Spot, to: usize) -> Spot
    requires right { from ≡ spot_at text.now from.at }
    requires later { from.at ≤ to }
    requires within { to ≤ length text.now }
    ensures { result ≡ spot_at text.now to }
{
    let mut spot = from;
    for i in from.at..to {
        spot = step(spot, text[i]);
    }
    spot
}

// Where every text begins.
fn origin() -> Spot
    ensures { (text : List ℕ) → result ≡ spot_at text 0 }
{
    Spot {
        at: 0,
        line: 1,
        column: 1,
        start: 0,
    }
}

/// Spots along the text, for [`spot_of`]. It goes over the text once. The only error is want of memory.
pub fn checkpoints(alloc: Global, text: &[u8]) -> Result<Vec<Spot>, NoMemory>
    ensures { IfOk result (λ spots. All (IsSpotOf text.now) spots.items) }
{
    Ok(all_checkpoints(alloc, text)?)
}

// The spots of every so many bytes.
fn all_checkpoints(alloc: Global, text: &[u8]) -> Result<Vec<Spot>, AllocError>
    ensures { IfOk result (λ spots. All (IsSpotOf text.now) spots.items) }
{
    let mut spots = Vec::new(alloc);
    let mut spot = origin();
    spots.push(spot)?;
    while STRIDE <= text.len() - spot.at {
        spot = advance(text, spot, spot.at + STRIDE);
        spots.push(spot)?;
    }
    Ok(spots)
}

/// The spot of a place, which is within the text or at its end.
///
/// The spots are some of the text's, as [`checkpoints`] makes them.
pub fn spot_of(text: &[u8], spots: &[Spot], at: usize) -> Spot
    requires right { All (IsSpotOf text.now) spots.now }
    requires within { at ≤ length text.now }
    ensures { result ≡ spot_at text.now at }
{
    match spots.get(at / STRIDE) {
        Some(spot) if spot.at <= at => advance(text, *spot, at),
        _ => advance(text, origin(), at),
    }
}
