// The lines of a function's arms.
ghost use Rattle.std.specs.Prelude.{◌≡◌, ◌≤◌, IfOk, length, slice_get};
ghost use Rattle.std.specs.List.{All};
ghost use Rattle.explain_lines.specs.Steps.{IsSpotOf};
ghost use Rattle.explain_tree.specs.Places.{lines_within, lines_from, end_of_part, arm_lines};

use explain_lines::{Spot, checkpoints, spot_of};
use explain_places::{Body, Piece, arm_arrows, function_bodies};
use no_memory::NoMemory;
use std::alloc::{AllocError, Global};

// The lines of those of these places that lie within a part of the file.
fn lines_within(
    alloc: Global,
    file: &[u8],
    spots: &[Spot],
    from: usize,
    to: usize,
    places: &[usize],
) -> Result<Vec<usize>, AllocError>
    requires right { All (IsSpotOf file.now) spots.now }
    requires within { to ≤ length file.now }
    ensures { IfOk result (λ lines. lines.items ≡ lines_within file.now from to places.now) }
{
    let mut lines = Vec::new(alloc);
    for at in places {
        if from <= *at && *at < to {
            lines.push(spot_of(file, spots, *at).line)?;
        }
    }
    Ok(lines)
}

// The body of this number, where there is one.
fn body_at(bodies: &[Body], number: usize) -> Option<Body>
    ensures { result ≡ slice_get bodies.now number }
{
    match bodies.get(number) {
        Some(body) => Some(*body),
        None => None,
    }
}

// Where the body of the next function begins, or the end of the file.
fn end_of_part(file: &[u8], bodies: &[Body], number: usize) -> usize
    ensures exact { result ≡ end_of_part file.now bodies.now number }
    ensures within { result ≤ length file.now }
{
    match body_at(bodies, number.saturating_add(1)) {
        Some(body) => body.at.min(file.len()),
        None => file.len(),
    }
}

// The lines of the arms from the begin of a body.
fn lines_from(
    alloc: Global,
    file: &[u8],
    pieces: &[Piece],
    to: usize,
    body: Option<Body>,
) -> Result<Vec<usize>, NoMemory>
    requires { to ≤ length file.now }
    ensures { IfOk result (λ lines. lines.items ≡ lines_from file.now pieces.now to body) }
{
    match body {
        Some(body) => {
            let arms = arm_arrows(alloc, pieces)?;
            let spots = checkpoints(alloc, file)?;
            let lines = lines_within(alloc, file, spots.as_slice(), body.at, to, arms.as_slice())?;
            Ok(lines)
        }
        None => Ok(Vec::new(alloc)),
    }
}

/// The lines, counted from 1, on which the patterns of the arms of the function of this number end.
pub(crate) fn arm_lines(
    alloc: Global,
    file: &[u8],
    pieces: &[Piece],
    number: usize,
) -> Result<Vec<usize>, NoMemory>
    ensures { IfOk result (λ lines. lines.items ≡ arm_lines file.now pieces.now number) }
{
    let bodies = function_bodies(alloc, pieces)?;
    let to = end_of_part(file, bodies.as_slice(), number);
    let body = body_at(bodies.as_slice(), number);
    let lines = lines_from(alloc, file, pieces, to, body)?;
    Ok(lines)
}
