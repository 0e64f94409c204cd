//! A place in a list of tokens, and one step from there.
ghost use Rattle.std.specs.Prelude.{◌≡◌, ◌∷◌, [], MatchOption, IfErr, option_map};
ghost use Rattle.std.specs.Rc.{rc_str_bytes};
ghost use Rattle.decl_lexer.specs.Stored.{tokens_view, rest_view, first_is};
ghost use Rattle.decl_lexer.specs.Begins.{Marked, mark_of, keyword_of, name_of};
ghost use Rattle.decl_lexer.specs.Views.{lexeme_view};
ghost use Rattle.decl_syntax.specs.Units.{units, units_within, tokens_of, left, unit_view, doubled_mark, mark_seen, behind, is_mark, is_word, is_lifetime, token_at, flag_at, integer_of, from_of};
ghost use Rattle.decl_syntax.specs.Reading.{Gives};
ghost use Rattle.decl_syntax.specs.declared.stop.Stop.TheVariants.{Syntax};

use crate::stop::Stop;
use decl_lexer::{Mark, Name, Rest, TokenKind, Tokens, Word};

/// A place in the tokens of a source, in which each `&&` and `>>` is two marks.
#[derive(Clone, Copy)]
pub struct Cursor<'a> {
    place: Place<'a>,
}

/// The tokens from a place on. A tag beside the tokens is copied as one word; a flag would be copied with seven bytes
/// that stand for nothing.
#[derive(Clone, Copy)]
enum Place<'a> {
    /// The place stands before the first token.
    Before(Rest<'a>),
    /// The place stands between the two marks of the first token; where that is not two, before it.
    Within(Rest<'a>),
}

/// What a token is: a mark, or anything else.
#[derive(Clone, Copy)]
pub enum Seen<'a> {
    Mark(Mark),
    Other(TokenKind<'a>),
}

/// A token or half of one, from byte `from` up to byte `to`.
#[derive(Clone, Copy)]
pub struct Unit<'a> {
    pub kind: Seen<'a>,
    pub from: u64,
    pub to: u64,
}

/// The mark of which a mark is two.
fn half_of(mark: Mark) -> Option<Mark>
    ensures { result ≡ doubled_mark (Marked mark) }
{
    match mark {
        Mark::And => Some(Mark::Ampersand),
        Mark::ShiftRight => Some(Mark::Greater),
        _ => None,
    }
}

/// The mark of which a token is two.
fn doubled(kind: TokenKind<'_>) -> Option<Mark>
    ensures { result ≡ doubled_mark (lexeme_view kind.entry) }
{
    match kind {
        TokenKind::Mark(mark) => half_of(mark),
        _ => None,
    }
}

impl<'a> Cursor<'a> {
    /// The place before the first token.
    pub fn new(tokens: &'a Tokens) -> Cursor<'a>
        ensures { left result ≡ units (tokens_view tokens.now) }
    {
        Cursor::before(tokens.rest())
    }

    /// The place before these tokens.
    #[tactic(auto, unfolding(crate::specs::Units::left))]
    fn before(rest: Rest<'a>) -> Cursor<'a>
        ensures { left result ≡ units (rest_view rest.entry) }
    {
        let place = Place::Before(rest);
        Cursor { place }
    }

    /// The place behind the first of the two marks of the first of these tokens.
    #[tactic(auto, unfolding(crate::specs::Units::left))]
    fn within(rest: Rest<'a>) -> Cursor<'a>
        ensures { left result ≡ units_within (rest_view rest.entry) }
    {
        let place = Place::Within(rest);
        Cursor { place }
    }

    /// The tokens from the one on before or within which the place stands.
    #[inline(always)]
    fn tokens(self) -> Rest<'a>
        ensures { rest_view result ≡ tokens_of self.entry.place }
    {
        match self.place {
            Place::Before(rest) => rest,
            Place::Within(rest) => rest,
        }
    }

    /// The token behind this place, and the place behind that.
    #[tactic(auto, using(crate::proofs::UnitLemmas::place_empty), unfolding(crate::specs::Units::left))]
    pub fn next(self) -> Option<(Unit<'a>, Cursor<'a>)>
        ensures { MatchOption result (left self.entry ≡ []) (λ p. left self.entry ≡ unit_view p.0 ∷ left p.1) }
    {
        let tokens = self.tokens();
        let (first, rest) = tokens.split_first()?;
        let (from, to) = (first.from, first.to);
        let Some(mark) = doubled(first.kind) else {
            let kind = Seen::Other(first.kind);
            return Some((Unit { kind, from, to }, Cursor::before(rest)));
        };
        let kind = Seen::Mark(mark);
        let middle = to.saturating_sub(1);
        match self.place {
            Place::Before(_) => {
                let to = middle;
                Some((Unit { kind, from, to }, Cursor::within(tokens)))
            }
            Place::Within(_) => {
                let from = middle;
                Some((Unit { kind, from, to }, Cursor::before(rest)))
            }
        }
    }
}

/// The mark that the first token is, or half of it where it is two: a place before it and one within it have the same.
#[inline(always)]
#[tactic(auto, unfolding(crate::specs::Units::units, crate::specs::Units::units_within))]
fn first_mark(tokens: Rest<'_>) -> Option<Mark>
    ensures before { result ≡ first_is mark_of (units (rest_view tokens.entry)) }
    ensures within { result ≡ first_is mark_of (units_within (rest_view tokens.entry)) }
{
    let mark = tokens.mark()?;
    match half_of(mark) {
        Some(half) => Some(half),
        None => Some(mark),
    }
}

/// The mark that the first unit of these tokens is, and the place behind that unit.
#[inline(always)]
#[tactic(auto, unfolding(crate::specs::Units::units, crate::specs::Units::units_within))]
fn step_before(tokens: Rest<'_>) -> Option<(Option<Mark>, Cursor<'_>)>
    ensures { option_map (λ p. (p.0, left p.1)) result ≡ token_at mark_seen (units (rest_view tokens.entry)) }
{
    let (mark, _, rest) = tokens.split_mark()?;
    let Some(mark) = mark else {
        return Some((None, Cursor::before(rest)));
    };
    match half_of(mark) {
        Some(half) => Some((Some(half), Cursor::within(tokens))),
        None => Some((Some(mark), Cursor::before(rest))),
    }
}

/// The mark that the second half of the first token is where that is two marks, or else the mark that the token is, if it
/// is one, and the place behind the token.
#[inline(always)]
#[tactic(auto, unfolding(crate::specs::Units::units, crate::specs::Units::units_within))]
fn step_within(tokens: Rest<'_>) -> Option<(Option<Mark>, Cursor<'_>)>
    ensures { option_map (λ p. (p.0, left p.1)) result ≡ token_at mark_seen (units_within (rest_view tokens.entry)) }
{
    let (mark, _, rest) = tokens.split_mark()?;
    let Some(mark) = mark else {
        return Some((None, Cursor::before(rest)));
    };
    match half_of(mark) {
        Some(half) => Some((Some(half), Cursor::before(rest))),
        None => Some((Some(mark), Cursor::before(rest))),
    }
}

/// The keyword that the first of these tokens is, and the place behind it. No keyword is two marks.
#[inline(always)]
#[tactic(auto, unfolding(crate::specs::Units::units, crate::specs::Units::units_within))]
fn first_word(tokens: Rest<'_>) -> Option<(Word, Cursor<'_>)>
    ensures before { option_map (λ p. (p.0, left p.1)) result ≡ token_at keyword_of (units (rest_view tokens.entry)) }
    ensures within { option_map (λ p. (p.0, left p.1)) result
        ≡ token_at keyword_of (units_within (rest_view tokens.entry)) }
{
    let (word, rest) = tokens.split_word()?;
    Some((word, Cursor::before(rest)))
}

/// The text of the name that the first of these tokens is, and the place behind it. No name is two marks.
#[inline(always)]
#[tactic(auto, unfolding(crate::specs::Units::units, crate::specs::Units::units_within))]
fn first_name(tokens: Rest<'_>) -> Option<(&Name, Cursor<'_>)>
    ensures before { option_map (λ p. (rc_str_bytes p.0.now, left p.1)) result
        ≡ token_at name_of (units (rest_view tokens.entry)) }
    ensures within { option_map (λ p. (rc_str_bytes p.0.now, left p.1)) result
        ≡ token_at name_of (units_within (rest_view tokens.entry)) }
{
    let (text, rest) = tokens.split_name()?;
    Some((text, Cursor::before(rest)))
}

impl<'a> Cursor<'a> {
    /// The mark that the token behind this place is.
    #[inline(always)]
    #[tactic(auto, unfolding(crate::specs::Units::left))]
    pub fn mark(self) -> Option<Mark>
        ensures { result ≡ first_is mark_of (left self.entry) }
    {
        match self.place {
            Place::Before(rest) | Place::Within(rest) => first_mark(rest),
        }
    }

    /// The mark that the token behind this place is, and the place behind that token.
    #[inline(always)]
    #[tactic(auto, unfolding(crate::specs::Units::left))]
    pub fn step(self) -> Option<(Option<Mark>, Cursor<'a>)>
        ensures { option_map (λ p. (p.0, left p.1)) result ≡ token_at mark_seen (left self.entry) }
    {
        match self.place {
            Place::Before(rest) => step_before(rest),
            Place::Within(rest) => step_within(rest),
        }
    }

    /// The keyword behind this place, and the place behind that.
    #[inline(always)]
    #[tactic(auto, unfolding(crate::specs::Units::left))]
    pub fn word(self) -> Option<(Word, Cursor<'a>)>
        ensures { option_map (λ p. (p.0, left p.1)) result ≡ token_at keyword_of (left self.entry) }
    {
        match self.place {
            Place::Before(rest) | Place::Within(rest) => first_word(rest),
        }
    }

    /// The byte offset of the token behind this place, and 0 at the end.
    #[inline(always)]
    #[tactic(auto, unfolding(crate::specs::Units::left))]
    pub fn from(self) -> u64
        ensures { result ≡ from_of (left self.entry) }
    {
        match self.place {
            Place::Before(rest) => from_before(rest),
            Place::Within(_) => self.from_next(),
        }
    }

    /// The same, from the token itself.
    fn from_next(self) -> u64
        ensures { result ≡ from_of (left self.entry) }
    {
        match self.next() {
            Some((first, _)) => first.from,
            None => 0,
        }
    }
}

/// The byte offset of the first of these tokens, and 0 at the end.
#[inline(always)]
fn from_before(tokens: Rest<'_>) -> u64
    ensures { result ≡ from_of (units (rest_view tokens.entry)) }
{
    match tokens.from() {
        Some(from) => from,
        None => 0,
    }
}

/// The place behind the mark.
#[inline(always)]
pub fn behind(at: Cursor<'_>, mark: Mark) -> Option<Cursor<'_>>
    ensures { option_map left result ≡ behind (is_mark mark) (left at.entry) }
{
    let first = at.mark()?;
    if first == mark {
        let (_, rest) = at.step()?;
        return Some(rest);
    }
    None
}

/// The place behind the mark that has to stand here.
#[inline(always)]
pub fn expect(at: Cursor<'_>, mark: Mark) -> Result<Cursor<'_>, Stop>
    ensures gives { Gives left result (behind (is_mark mark) (left at.entry)) }
    ensures syntax { IfErr result (λ e. e ≡ Syntax) }
{
    match behind(at, mark) {
        Some(rest) => Ok(rest),
        None => Err(Stop::Syntax),
    }
}

/// The place behind the keyword.
#[inline(always)]
pub fn behind_word(at: Cursor<'_>, word: Word) -> Option<Cursor<'_>>
    ensures { option_map left result ≡ behind (is_word word) (left at.entry) }
{
    let (other, rest) = at.word()?;
    if other == word { Some(rest) } else { None }
}

/// The place behind the keyword that has to stand here.
#[inline(always)]
pub fn expect_word(at: Cursor<'_>, word: Word) -> Result<Cursor<'_>, Stop>
    ensures gives { Gives left result (behind (is_word word) (left at.entry)) }
    ensures syntax { IfErr result (λ e. e ≡ Syntax) }
{
    match behind_word(at, word) {
        Some(rest) => Ok(rest),
        None => Err(Stop::Syntax),
    }
}

/// The place behind a lifetime.
pub fn behind_lifetime(at: Cursor<'_>) -> Option<Cursor<'_>>
    ensures { option_map left result ≡ behind is_lifetime (left at.entry) }
{
    let (first, rest) = at.next()?;
    match first.kind {
        Seen::Other(TokenKind::Lifetime) => Some(rest),
        _ => None,
    }
}

/// The text of the name behind the place, and the place behind it.
#[inline(always)]
#[tactic(auto, unfolding(crate::specs::Units::left))]
pub fn name_at(at: Cursor<'_>) -> Option<(&Name, Cursor<'_>)>
    ensures { option_map (λ p. (rc_str_bytes p.0.now, left p.1)) result ≡ token_at name_of (left at.entry) }
{
    match at.place {
        Place::Before(rest) | Place::Within(rest) => first_name(rest),
    }
}

/// Whether the keyword comes next, and the place behind it or else this one.
pub fn skip_word(at: Cursor<'_>, word: Word) -> (bool, Cursor<'_>)
    ensures { (result.0, left result.1) ≡ flag_at (is_word word) (left at.entry) }
{
    match behind_word(at, word) {
        Some(rest) => (true, rest),
        None => (false, at),
    }
}

/// The place behind the mark, if it comes next, and else this one.
pub fn skip_mark(at: Cursor<'_>, mark: Mark) -> Cursor<'_>
    ensures { left result ≡ (flag_at (is_mark mark) (left at.entry)).1 }
{
    match behind(at, mark) {
        Some(rest) => rest,
        None => at,
    }
}

/// The place behind a lifetime, if one comes next, and else this one.
pub fn skip_lifetime(at: Cursor<'_>) -> Cursor<'_>
    ensures { left result ≡ (flag_at is_lifetime (left at.entry)).1 }
{
    match behind_lifetime(at) {
        Some(rest) => rest,
        None => at,
    }
}

/// An integer with its suffix as written, and the place behind it.
pub fn integer_at(at: Cursor<'_>) -> Option<(Option<u128>, &str, Cursor<'_>)>
    ensures { option_map (λ p. ((p.0, p.1.now), left p.2)) result
        ≡ token_at integer_of (left at.entry) }
{
    let (first, rest) = at.next()?;
    match first.kind {
        Seen::Other(TokenKind::Small(value)) => Some((Some(value as u128), "", rest)),
        Seen::Other(TokenKind::Int(int)) => Some((int.value, int.suffix.as_str(), rest)),
        _ => None,
    }
}
