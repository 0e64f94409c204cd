//! The tokens of a source, one after the other.
ghost use Rattle.std.specs.Prelude.{◌≡◌, ◌<◌, ◌≤◌, ◌+◌, ◌^◌, length, IfOk, IfErr, IfSome, chars, string_bytes, encode_utf8_all};
ghost use Rattle.unicode_normalization.specs.Forms.{nfc};
ghost use Rattle.decl_lexer.specs.Lexing.{First, Finds, Found, HasTokens, without_mark, mark_width, AreInOrder};
ghost use Rattle.decl_lexer.specs.Stored.{tokens_view};
ghost use Rattle.decl_lexer.specs.Views.{plain_token_view};
ghost use Rattle.decl_lexer.specs.Tokens.{IsFaultOf, IsKnown, FindsFirst};

use crate::gaps::{is_space, skip_spaces};
use crate::names::in_nfc;
use crate::pieces::{Piece, PieceError, piece_at};
use crate::plain::plain_kind;
use crate::read::{PlainToken, ReadToken};
use crate::recent::Recent;
use crate::stored::Tokens;
use crate::text::split_first;
use crate::token::LexFault;
use no_memory::NoMemory;
use std::alloc::Global;

/// The tokens of a source text.
///
/// Source: the Rust Reference, "Lexical structure". Want of memory is the one free answer; a source of 2^32 bytes counts as
/// such.
pub fn lex(alloc: Global, source: &[u8]) -> Result<Tokens, LexFault>
    ensures tokens { IfOk result (λ ts. HasTokens source.now (tokens_view ts)) }
    ensures fault { IfErr result (IsFaultOf source.now) }
    ensures known { IfErr result (IsKnown (length source.now)) }
    ensures order { IfOk result (λ ts. AreInOrder 0 (length source.now) (tokens_view ts)) }
    ensures count { IfOk result (λ ts. length (tokens_view ts) ≤ length source.now) }
{
    let text = match str::from_utf8(source) {
        Ok(text) => text,
        Err(e) => {
            return Err(LexFault::Rule {
                rule: 1,
                at: e.valid_up_to() as u64,
            });
        }
    };
    let mut tokens = Tokens::new(alloc);
    let mut recent = Recent::new();
    let mut rest = skip_mark(text);
    let mut at = (text.len() - rest.len()) as u64;
    'tokens: loop {
        let (from, behind) = behind_spaces(at, rest);
        if let Some((token, after)) = plain_token(from, behind) {
            at = token.to;
            rest = after;
            tokens.push_plain(alloc, &mut recent, token)?;
            continue;
        }
        match first_token(alloc, from, behind) {
            Ok(Some((token, after))) => {
                at = token.to;
                rest = after;
                tokens.push(alloc, token)?;
            }
            Ok(None) => return Ok(tokens),
            Err(fault) => return Err(fault),
        }
    }
}

/// The NFC of a text.
///
/// Source: Unicode Standard Annex 15.
pub fn name_form(alloc: Global, text: &str) -> Result<String, NoMemory>
    ensures { IfOk result (λ s. string_bytes s ≡ encode_utf8_all (nfc (chars text.now))) }
{
    match in_nfc(alloc, text) {
        Ok(form) => Ok(form),
        Err(_) => Err(NoMemory),
    }
}

/// The rest behind the whitespace that it begins with, and where that begins. That no whitespace is left does not follow.
#[inline(always)]
fn behind_spaces(at: u64, rest: &str) -> (u64, &str)
    requires { at + length rest.now < 2 ^ 64 }
    ensures first { (x : First) → Finds result.0 (chars result.1.now) x → Finds at (chars rest.now) x }
    ensures place { result.0 + length result.1.now ≡ at + length rest.now }
{
    if let Some(b'!'..=b'~') = rest.as_bytes().first() {
        return (at, rest);
    }
    match split_first(rest) {
        Some((first, behind)) if is_space(first) => {
            let after = skip_spaces(behind);
            (at + (rest.len() - after.len()) as u64, after)
        }
        _ => (at, rest),
    }
}

/// The token that the rest begins with, at byte `at` of its source, and the text behind the token, where it is
/// plain. Else `None`, from which nothing follows.
#[inline(always)]
fn plain_token(at: u64, rest: &str) -> Option<(PlainToken<'_>, &str)>
    requires { at + length rest.now < 2 ^ 64 }
    ensures first { IfSome result (λ p. Finds at (chars rest.now) (Found (plain_token_view p.0) (chars p.1.now))) }
    ensures order { IfSome result (λ p. p.0.from ≤ p.0.to) }
{
    let (first, behind) = split_first(rest)?;
    let (kind, after) = plain_kind(rest, first, behind)?;
    let to = at + (rest.len() - after.len()) as u64;
    Some((PlainToken { kind, from: at, to }, after))
}

/// The first token of the rest, which begins at byte `at` of its source, and the text behind the token.
#[inline(never)]
fn first_token(
    alloc: Global,
    at: u64,
    rest: &str,
) -> Result<Option<(ReadToken<'_>, &str)>, LexFault>
    requires { at + length rest.now < 2 ^ 64 }
    ensures { FindsFirst at (chars rest.now) result }
{
    let mut at = at;
    let mut rest = rest;
    'gaps: while let Some((first, behind)) = split_first(rest) {
        match piece_at(alloc, rest, first, behind) {
            Ok((piece, after)) => {
                let to = at + (rest.len() - after.len()) as u64;
                match piece {
                    Piece::Gap => {}
                    Piece::Token(kind) => return Ok(Some((
                        ReadToken { kind, from: at, to },
                        after,
                    ))),
                }
                rest = after;
                at = to;
            }
            Err(PieceError::Memory) => return Err(LexFault::NoMemory),
            Err(PieceError::Fault { rule, rest: faulty }) => {
                let at = at + (rest.len() - faulty.len()) as u64;
                return Err(LexFault::Rule { rule, at });
            }
        }
    }
    Ok(None)
}

/// The text behind a byte order mark at its start.
fn skip_mark(text: &str) -> &str
    ensures rest { chars result.now ≡ without_mark (chars text.now) }
    ensures width { mark_width (chars text.now) + length result.now ≡ length text.now }
{
    match split_first(text) {
        Some(('\u{FEFF}', rest)) => rest,
        _ => text,
    }
}
