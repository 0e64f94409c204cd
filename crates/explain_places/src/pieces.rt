// The tokens of a source with their brackets.
ghost use Rattle.std.specs.Prelude.{◌≡◌, IfOk};
ghost use Rattle.decl_lexer.specs.Begins.{Keyword, Marked};
ghost use Rattle.decl_lexer.specs.Stored.{tokens_view};
ghost use Rattle.decl_lexer.specs.Views.{lexeme_view};
ghost use Rattle.decl_syntax.specs.Units.{seen_view, unit_view, units};
ghost use Rattle.explain_places.specs.Pieces.{ArePieces, class_of, closes, depth_at, depth_behind, opens, piece_of, pieces_from};
ghost use Rattle.explain_places.specs.Spans.{Rise};

use decl_lexer::{LexFault, Mark, TokenKind, Tokens, Word, lex};
use decl_syntax::{Cursor, Seen, Unit};
use no_memory::NoMemory;
use std::alloc::{AllocError, Global};

/// What a token is to the places of a source.
#[derive(Clone, Copy, Debug, PartialEq, Eq)]
pub enum Class {
    /// `fn`.
    Function,
    /// `match`.
    Match,
    /// `if`.
    If,
    /// A name.
    Name,
    /// `=>`.
    Arrow,
    /// `|`.
    Bar,
    /// `,`.
    Comma,
    /// `{`.
    OpenBlock,
    /// `(` or `[`.
    Open,
    /// `)`, `]` or `}`.
    Close,
    /// Any other token.
    Other,
}

/// A token, and from which byte of the source to which it stands. Both brackets of a pair stand within as many
/// brackets as are open around the pair.
#[derive(Clone, Copy, Debug)]
pub struct Piece {
    /// What it is.
    pub class: Class,
    /// How many brackets are open around it.
    pub depth: usize,
    /// The byte with which it begins.
    pub from: usize,
    /// The first byte behind it.
    pub to: usize,
}

// What a keyword is to places.
fn word_class(word: Word) -> Class
    ensures { result ≡ class_of (Keyword word) }
{
    match word {
        Word::Fn => Class::Function,
        Word::Match => Class::Match,
        Word::If => Class::If,
        _ => Class::Other,
    }
}

// What a mark is to places.
fn mark_class(mark: Mark) -> Class
    ensures { result ≡ class_of (Marked mark) }
{
    match mark {
        Mark::FatArrow => Class::Arrow,
        Mark::Bar => Class::Bar,
        Mark::Comma => Class::Comma,
        Mark::OpenCurly => Class::OpenBlock,
        Mark::OpenRound | Mark::OpenSquare => Class::Open,
        Mark::CloseCurly | Mark::CloseRound | Mark::CloseSquare => Class::Close,
        _ => Class::Other,
    }
}

// What a token that is no mark of two is to places.
fn kind_class(kind: TokenKind<'_>) -> Class
    ensures { result ≡ class_of (lexeme_view kind.entry) }
{
    match kind {
        TokenKind::Name { .. } => Class::Name,
        TokenKind::Word(word) => word_class(word),
        TokenKind::Mark(mark) => mark_class(mark),
        _ => Class::Other,
    }
}

// What a token is to places.
fn class_of(kind: Seen<'_>) -> Class
    ensures { result ≡ class_of (seen_view kind.entry) }
{
    match kind {
        Seen::Mark(mark) => mark_class(mark),
        Seen::Other(kind) => kind_class(kind),
    }
}

// Whether a token opens a bracket.
fn opens(class: Class) -> bool
    ensures { result ≡ opens class }
{
    match class {
        Class::OpenBlock | Class::Open => true,
        _ => false,
    }
}

// Whether a token closes a bracket.
pub(crate) fn closes(class: Class) -> bool
    ensures { result ≡ closes class }
{
    match class {
        Class::Close => true,
        _ => false,
    }
}

// How many brackets are open around a token before which so many are open.
fn depth_at(depth: usize, class: Class) -> usize
    ensures { result ≡ depth_at depth class }
{
    if closes(class) {
        depth.saturating_sub(1)
    } else {
        depth
    }
}

// How many brackets are open behind it.
fn depth_behind(depth: usize, class: Class) -> usize
    ensures { result ≡ depth_behind depth class }
{
    if opens(class) {
        depth.saturating_add(1)
    } else {
        depth_at(depth, class)
    }
}

// A token before which so many brackets are open.
fn piece_of(depth: usize, unit: Unit<'_>) -> Piece
    ensures { result ≡ piece_of depth (unit_view unit.entry) }
{
    let class = class_of(unit.kind);
    Piece {
        class,
        depth: depth_at(depth, class),
        from: unit.from as usize,
        to: unit.to as usize,
    }
}

// The tokens with their brackets.
fn all_pieces(alloc: Global, tokens: &Tokens) -> Result<Vec<Piece>, AllocError>
    ensures { IfOk result (λ ps. ps.items ≡ pieces_from 0 (units (tokens_view tokens.now))) }
{
    let mut pieces = Vec::with_capacity(alloc, tokens.len())?;
    let mut depth = 0usize;
    let mut rest = Cursor::new(tokens);
    'tokens: loop {
        let Some((unit, behind)) = rest.next() else {
            return Ok(pieces);
        };
        let piece = piece_of(depth, unit);
        pieces.push(piece)?;
        depth = depth_behind(depth, piece.class);
        rest = behind;
    }
}

/// The tokens of a source with their brackets, in order; none where the source breaks one of the rules 1 to 5. The only
/// error is want of memory.
pub fn source_pieces(alloc: Global, source: &[u8]) -> Result<Vec<Piece>, NoMemory>
    ensures exact { IfOk result (λ ps. ArePieces source.now ps.items) }
    ensures order { IfOk result (λ ps. Rise ps.items) }
{
    match lex(alloc, source) {
        Ok(tokens) => Ok(all_pieces(alloc, &tokens)?),
        Err(LexFault::Rule { .. }) => Ok(Vec::new(alloc)),
        Err(LexFault::NoMemory) => Err(NoMemory),
    }
}
