// The bodies of functions, and their arms.
ghost use Rattle.std.specs.Prelude.{◌≡◌, ◌∷◌, IfOk};
ghost use Rattle.explain_places.specs.Bodies.{arrows_of, begins_block, begins_body, begins_header, bodies_of, body_at, end_of, end_place, ends_arm, ends_match, is_arrow, is_block, is_function, is_match, is_name, match_end, scrutinee_at, scrutinee_of, span_of, waits_behind, wants_comma};

use crate::pieces::{Class, Piece, closes};
use crate::spans::{Place, Span};
use no_memory::NoMemory;
use std::alloc::{AllocError, Global};

/// Where a match ends.
#[derive(Clone, Copy, Debug)]
pub struct End {
    /// The empty span before the bracket that closes it; `Nowhere` where no bracket does.
    pub place: Place,
    /// Whether a comma is to stand before another arm: the token before that bracket is neither `,` nor `{`.
    pub comma: bool,
}

/// The body of a function: the byte of its `{`, what its match is on, and where the match ends.
#[derive(Clone, Copy, Debug)]
pub struct Body {
    /// The byte with which it begins.
    pub at: usize,
    /// What stands between `match` and the next `{`.
    pub scrutinee: Span,
    /// Where the match ends.
    pub end: End,
}

// Whether a token is `fn`.
fn is_function(class: Class) -> bool
    ensures { result ≡ is_function class }
{
    match class {
        Class::Function => true,
        _ => false,
    }
}

// Whether a token is a name.
pub(crate) fn is_name(class: Class) -> bool
    ensures { result ≡ is_name class }
{
    match class {
        Class::Name => true,
        _ => false,
    }
}

// Whether a token is `match`.
fn is_match(class: Class) -> bool
    ensures { result ≡ is_match class }
{
    match class {
        Class::Match => true,
        _ => false,
    }
}

// Whether a token is `{`.
fn is_block(class: Class) -> bool
    ensures { result ≡ is_block class }
{
    match class {
        Class::OpenBlock => true,
        _ => false,
    }
}

// Whether a token is `=>`.
fn is_arrow(class: Class) -> bool
    ensures { result ≡ is_arrow class }
{
    match class {
        Class::Arrow => true,
        _ => false,
    }
}

// From the begin of one token to the end of another one.
pub(crate) fn span_of(first: &Piece, last: &Piece) -> Span
    ensures { result ≡ span_of first.now last.now }
{
    Span {
        from: first.from,
        to: last.to,
    }
}

// Whether `fn` and a name stand there, outside all brackets.
fn begins_header(pieces: &[Piece]) -> bool
    ensures { result ≡ begins_header pieces.now }
{
    match pieces {
        [first, second, ..] => {
            is_function(first.class) && first.depth == 0 && is_name(second.class)
        }
        _ => false,
    }
}

// Whether a block begins there, outside all brackets.
fn begins_block(pieces: &[Piece]) -> bool
    ensures { result ≡ begins_block pieces.now }
{
    match pieces {
        [first, ..] => is_block(first.class) && first.depth == 0,
        [] => false,
    }
}

// What stands between `match` and the next `{`; else the begin of the body.
fn scrutinee_of(opening: &Piece, word: &Piece, first: &Piece, second: &Piece) -> Span
    ensures { result ≡ scrutinee_of opening.now word.now first.now second.now }
{
    if !is_match(word.class) {
        return span_of(opening, opening);
    }
    if is_block(second.class) {
        span_of(first, first)
    } else {
        span_of(first, second)
    }
}

// The same by the tokens behind the begin of the body.
fn scrutinee_at(opening: &Piece, behind: &[Piece]) -> Span
    ensures { result ≡ scrutinee_at opening.now behind.now }
{
    match behind {
        [word, first, second, ..] => scrutinee_of(opening, word, first, second),
        _ => span_of(opening, opening),
    }
}

// Whether a token closes what is open around it within at most one bracket.
fn ends_match(piece: &Piece) -> bool
    ensures { result ≡ ends_match piece.now }
{
    closes(piece.class) && piece.depth <= 1
}

// The place before a bracket that closes a match; none before one that closes a body.
fn end_place(piece: &Piece) -> Place
    ensures { result ≡ end_place piece.now }
{
    if piece.depth == 1 {
        Place::There(Span {
            from: piece.from,
            to: piece.from,
        })
    } else {
        Place::Nowhere
    }
}

// Whether a comma is to stand behind a token before another arm.
fn wants_comma(class: Class) -> bool
    ensures { result ≡ wants_comma class }
{
    match class {
        Class::Comma | Class::OpenBlock => false,
        _ => true,
    }
}

// The end of a match before that bracket, behind a token of that class.
fn end_of(before: Class, piece: &Piece) -> End
    ensures { result ≡ end_of before piece.now }
{
    End {
        place: end_place(piece),
        comma: wants_comma(before),
    }
}

// Where the match of a body ends, by the tokens behind one of that class.
fn match_end(class: Class, behind: &[Piece]) -> End
    ensures { result ≡ match_end class behind.now }
{
    let mut before = class;
    for piece in behind {
        if ends_match(piece) {
            return end_of(before, piece);
        }
        before = piece.class;
    }
    End {
        place: Place::Nowhere,
        comma: false,
    }
}

// The body that begins with this token.
fn body_at(opening: &Piece, behind: &[Piece]) -> Body
    ensures { result ≡ body_at opening.now behind.now }
{
    Body {
        at: opening.from,
        scrutinee: scrutinee_at(opening, behind),
        end: match_end(opening.class, behind),
    }
}

// Whether the body of a function begins there, where one is still to come or not.
fn begins_body(waits: bool, pieces: &[Piece]) -> bool
    ensures { result ≡ begins_body waits pieces.now }
{
    waits && begins_block(pieces)
}

// Whether the body of a function is still to come behind the first of these tokens.
fn waits_behind(waits: bool, pieces: &[Piece]) -> bool
    ensures { result ≡ waits_behind waits pieces.now }
{
    if waits {
        !begins_block(pieces)
    } else {
        begins_header(pieces)
    }
}

// The bodies of the functions.
fn all_bodies(alloc: Global, pieces: &[Piece]) -> Result<Vec<Body>, AllocError>
    ensures { IfOk result (λ bodies. bodies.items ≡ bodies_of pieces.now) }
{
    let mut bodies = Vec::new(alloc);
    let mut waits = false;
    for at in 0..pieces.len() {
        let rest = &pieces[at..];
        if begins_body(waits, rest) {
            bodies.push(body_at(&pieces[at], &pieces[at + 1..]))?;
        }
        waits = waits_behind(waits, rest);
    }
    Ok(bodies)
}

/// The bodies of the functions of a source, in order, so that the number of a function in the file, counted from 0, is
/// its index. Of a text that is no source they are the blocks outside all brackets of which each is the first one behind
/// `fn` and a name. The only error is want of memory.
pub fn function_bodies(alloc: Global, pieces: &[Piece]) -> Result<Vec<Body>, NoMemory>
    ensures { IfOk result (λ bodies. bodies.items ≡ bodies_of pieces.now) }
{
    Ok(all_bodies(alloc, pieces)?)
}

// Whether the pattern of an arm ends there.
fn ends_arm(piece: &Piece) -> bool
    ensures { result ≡ ends_arm piece.now }
{
    is_arrow(piece.class) && piece.depth == 2
}

// Where the patterns of arms end.
fn all_arrows(alloc: Global, pieces: &[Piece]) -> Result<Vec<usize>, AllocError>
    ensures { IfOk result (λ places. places.items ≡ arrows_of pieces.now) }
{
    let mut places = Vec::new(alloc);
    for piece in pieces {
        if ends_arm(piece) {
            places.push(piece.from)?;
        }
    }
    Ok(places)
}

/// Where the patterns of arms end, by their `=>`: byte offsets in order. Those of a function are the ones from its body's
/// place to the next one's, so that the number of an arm, counted from 0, is its index among them. The only error is want
/// of memory.
pub fn arm_arrows(alloc: Global, pieces: &[Piece]) -> Result<Vec<usize>, NoMemory>
    ensures { IfOk result (λ places. places.items ≡ arrows_of pieces.now) }
{
    Ok(all_arrows(alloc, pieces)?)
}
