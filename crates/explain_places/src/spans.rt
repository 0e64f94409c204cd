// From where to where things stand.
ghost use Rattle.std.specs.Prelude.{◌≡◌, ◌∷◌, ◌≤◌, drop, length, nat_lt};
ghost use Rattle.explain_places.specs.Spans.{Rise, binding_at, end_from, ends_class, is_behind, name_at, name_in, name_or, only_at, pair_at, pattern_at, pieces_at, pieces_past, token_at};

use crate::bodies::{is_name, span_of};
use crate::pieces::{Class, Piece};

/// A part of a source: from one byte up to another one.
#[derive(Clone, Copy, Debug, PartialEq, Eq)]
pub struct Span {
    /// Its first byte.
    pub from: usize,
    /// The first byte behind it.
    pub to: usize,
}

/// A place that a report tells.
#[derive(Clone, Copy, Debug, PartialEq, Eq)]
pub enum Place {
    /// None is told.
    Nowhere,
    /// It stands there.
    There(Span),
    /// It is no place of this source.
    Lost,
}

// How many tokens begin before this byte.
fn count_before(pieces: &[Piece], at: usize) -> usize
    requires { Rise pieces.now }
    ensures exact { drop result pieces.now ≡ pieces_past at pieces.now }
    ensures within { result ≤ length pieces.now }
{
    pieces.partition_point(
        |piece: &Piece| -> bool
            ensures { result ≡ nat_lt piece.now.from at }
        { piece.from < at },
    )
}

// The tokens from the first one on that begins there or later.
fn pieces_past(pieces: &[Piece], at: usize) -> &[Piece]
    requires { Rise pieces.now }
    ensures { result.now ≡ pieces_past at pieces.now }
{
    &pieces[count_before(pieces, at)..]
}

// These tokens where the first one begins there, or none.
fn only_at(pieces: &[Piece], at: usize) -> &[Piece]
    ensures { result.now ≡ only_at at pieces.now }
{
    match pieces {
        [first, ..] if first.from == at => pieces,
        _ => &[],
    }
}

// The tokens from the one on that begins at this byte; none where none does.
fn pieces_at(pieces: &[Piece], at: usize) -> &[Piece]
    requires { Rise pieces.now }
    ensures { result.now ≡ pieces_at at pieces.now }
{
    only_at(pieces_past(pieces, at), at)
}

// Whether a token of this class ends a pattern outside all of its brackets, or an alternative.
fn ends_class(whole: bool, class: Class) -> bool
    ensures { result ≡ ends_class whole class }
{
    match class {
        Class::Arrow | Class::If | Class::Comma => true,
        Class::Bar => !whole,
        _ => false,
    }
}

// Whether a token is behind a pattern or alternative whose first token stands within so many brackets.
fn is_behind(whole: bool, depth: usize, piece: &Piece) -> bool
    ensures { result ≡ is_behind whole depth piece.now }
{
    piece.depth < depth || piece.depth == depth && ends_class(whole, piece.class)
}

// Where a pattern or alternative ends whose first token is this one.
fn end_from(whole: bool, first: &Piece, behind: &[Piece]) -> usize
    ensures { result ≡ end_from whole first.now.depth first.now.to behind.now }
{
    let mut to = first.to;
    for piece in behind {
        if is_behind(whole, first.depth, piece) {
            return to;
        }
        to = piece.to;
    }
    to
}

/// The pattern that begins at this byte: all of its alternatives where it is a whole one, or else one of them.
pub fn pattern_at(pieces: &[Piece], at: usize, whole: bool) -> Place
    requires { Rise pieces.now }
    ensures { result ≡ pattern_at whole at pieces.now }
{
    match pieces_at(pieces, at) {
        [first, behind @ ..] => Place::There(Span {
            from: first.from,
            to: end_from(whole, first, behind),
        }),
        [] => Place::Lost,
    }
}

/// The token that begins at this byte.
pub fn token_at(pieces: &[Piece], at: usize) -> Place
    requires { Rise pieces.now }
    ensures { result ≡ token_at at pieces.now }
{
    match pieces_at(pieces, at) {
        [first, ..] => Place::There(span_of(first, first)),
        [] => Place::Lost,
    }
}

/// The token that begins at this byte, and the next one.
pub fn pair_at(pieces: &[Piece], at: usize) -> Place
    requires { Rise pieces.now }
    ensures { result ≡ pair_at at pieces.now }
{
    match pieces_at(pieces, at) {
        [first, second, ..] => Place::There(span_of(first, second)),
        [first] => Place::There(span_of(first, first)),
        [] => Place::Lost,
    }
}

// The first of these tokens that is a name outside all brackets, or else the given one.
fn name_or<'a>(first: &'a Piece, pieces: &'a [Piece]) -> &'a Piece
    ensures { result.now ≡ name_or first.now pieces.now }
{
    for piece in pieces {
        if is_name(piece.class) && piece.depth == 0 {
            return piece;
        }
    }
    first
}

/// The name of the item that begins at this byte; its first token where it has none.
pub fn name_at(pieces: &[Piece], at: usize) -> Place
    requires { Rise pieces.now }
    ensures { result ≡ name_at at pieces.now }
{
    let tokens = pieces_at(pieces, at);
    match tokens {
        [first, ..] => {
            let name = name_or(first, tokens);
            Place::There(span_of(name, name))
        }
        [] => Place::Lost,
    }
}

// The first of these tokens that is a name, or else the given one.
fn name_in<'a>(first: &'a Piece, pieces: &'a [Piece]) -> &'a Piece
    ensures { result.now ≡ name_in first.now pieces.now }
{
    for piece in pieces {
        if is_name(piece.class) {
            return piece;
        }
    }
    first
}

/// The name of the binding that begins at this byte, without `ref` and `mut` before it; its first token where no name
/// follows.
pub fn binding_at(pieces: &[Piece], at: usize) -> Place
    requires { Rise pieces.now }
    ensures { result ≡ binding_at at pieces.now }
{
    let tokens = pieces_at(pieces, at);
    match tokens {
        [first, ..] => {
            let name = name_in(first, tokens);
            Place::There(span_of(name, name))
        }
        [] => Place::Lost,
    }
}
