//! Patterns as they are written.
ghost use Rattle.std.specs.Prelude.{◌≡◌, ◌-◌, ◌++◌, ◌∷◌, List, [], map, option_map, Some, IfOk, IfErr};
ghost use Rattle.std.specs.Rc.{rc_str_bytes};
ghost use Rattle.decl_syntax.specs.declared.stop.Stop.TheVariants.{Memory};
ghost use Rattle.decl_syntax.specs.Units.{left, unit_view};
ghost use Rattle.decl_lexer.specs.Lexing.{Placed};
ghost use Rattle.decl_syntax.specs.Patterns.{PatternTree, pattern_view, shape_view, path_view, field_view, Bind, BindAs, Tuple, more, none};
ghost use Rattle.decl_syntax.specs.Grammar.{NoneSpelled};
ghost use Rattle.decl_syntax.specs.FieldNames.{number_name, field_name};
ghost use Rattle.decl_syntax.specs.Reading.{Gives, parts_at};
ghost use Rattle.decl_syntax.specs.PatternReading.{binding_view, binding_at, bound_at, marked_at, rest_at, alt_at, or_of, whole_at, item_at, bound_rest_at, element_at, items_at, closing, tuple_behind, round_pattern, point_pattern, path_pattern_at, unbound_at, label_at, field_at, fields_at, plain_at, pattern_at};
ghost use Rattle.decl_syntax.specs.PatternGrammar.{path_shape, SpellsPattern};
ghost use Rattle.decl_lexer.specs.declared.marks.Mark.TheVariants as marks;

use crate::attributes::attributes_at;
use crate::cursor::{Cursor, Seen, Unit, behind, expect, name_at, skip_mark, skip_word};
use crate::ends::{begins_end, literal_at, negated_at, path_at, range_at};
use crate::levels::fits;
use crate::lists::fitted;
use crate::stop::Stop;
use crate::tree::{FieldPat, Pat, PatKind, Path};
use decl_lexer::{Mark, Name, TokenKind, Word};
use std::alloc::Global;

/// Reads the pattern behind a place, of at most 64 levels, and gives the place behind it. Where there
/// is none it answers `Syntax`; want of memory is the one free answer.
///
/// Source: the Rust Reference, "Patterns"; which of them, and the levels, are our own choice.
pub fn read_pattern(alloc: Global, at: Cursor<'_>) -> Result<(Pat, Cursor<'_>), Stop>
    ensures found { IfOk result (λ x. SpellsPattern (left at.entry) (pattern_view x.0) (left x.1)) }
    ensures none { IfErr result (NoneSpelled SpellsPattern (left at.entry)) }
{
    pattern_at(alloc, at)
}

/// A pattern of at most 64 levels.
#[tactic(auto, unfolding(crate::specs::PatternReading::pattern_at))]
fn pattern_at(alloc: Global, at: Cursor<'_>) -> Result<(Pat, Cursor<'_>), Stop>
    ensures { Gives (λ x. (pattern_view x.0, left x.1)) result (pattern_at (left at.entry)) }
{
    let (found, rest) = whole_at(alloc, 64, at)?;
    if fits(&found, 64) {
        Ok((found, rest))
    } else {
        Err(Stop::Syntax)
    }
}

/// `ref`, `mut` and a name, and the place behind it.
#[derive(Clone, Copy)]
struct Binding<'a> {
    by_ref: bool,
    mutable: bool,
    name: &'a Name,
    rest: Cursor<'a>,
}

/// `ref`, `mut` and a name.
#[tactic(auto, unfolding(crate::specs::PatternReading::binding_at))]
fn binding_at(at: Cursor<'_>) -> Option<Binding<'_>>
    ensures { option_map binding_view result ≡ binding_at (left at.entry) }
{
    let (by_ref, rest) = skip_word(at, Word::Ref);
    let (mutable, rest) = skip_word(rest, Word::Mut);
    let (name, rest) = name_at(rest)?;
    Some(Binding {
        by_ref,
        mutable,
        name,
        rest,
    })
}

/// A binding and `@`.
#[tactic(auto, unfolding(crate::specs::PatternReading::bound_at))]
fn bound_at(at: Cursor<'_>) -> Option<Binding<'_>>
    ensures { option_map binding_view result ≡ bound_at (left at.entry) }
{
    let found = binding_at(at)?;
    let rest = behind(found.rest, Mark::At)?;
    Some(Binding {
        by_ref: found.by_ref,
        mutable: found.mutable,
        name: found.name,
        rest,
    })
}

/// A binding with `ref` or `mut`.
#[tactic(auto, unfolding(crate::specs::PatternReading::marked_at))]
fn marked_at(at: Cursor<'_>) -> Option<Binding<'_>>
    ensures { option_map binding_view result ≡ marked_at (left at.entry) }
{
    let found = binding_at(at)?;
    if found.by_ref || found.mutable {
        Some(found)
    } else {
        None
    }
}

/// `..` that no end of a range follows.
#[tactic(auto, unfolding(crate::specs::PatternReading::rest_at))]
fn rest_at(at: Cursor<'_>) -> Option<(Pat, Cursor<'_>)>
    ensures { option_map (λ x. (pattern_view x.0, left x.1)) result ≡ rest_at (left at.entry) }
{
    let from = at.from();
    let rest = behind(at, Mark::TwoDots)?;
    if begins_end(rest) {
        return None;
    }
    let kind = PatKind::Rest;
    Some((Pat { from, kind }, rest))
}

/// The digits of a number, where they are all of its token's bytes.
fn number_name(alloc: Global, value: Option<u128>, decimal: bool, width: u64) -> Result<Name, Stop>
    ensures { Gives rc_str_bytes result (number_name value decimal width) }
{
    let Some(number) = value else {
        return Err(Stop::Syntax);
    };
    let digits = number.to_string(alloc)?;
    if decimal && digits.len() as u64 == width {
        Ok(Name::from_string(digits)?)
    } else {
        Err(Stop::Syntax)
    }
}

/// The name of a field that a token of so many bytes is.
fn field_name(alloc: Global, unit: Unit<'_>) -> Result<Name, Stop>
    ensures { Gives rc_str_bytes result
        (field_name (unit_view unit.entry).lexeme ((unit_view unit.entry).to - (unit_view unit.entry).from)) }
{
    let width = unit.to.saturating_sub(unit.from);
    match unit.kind {
        Seen::Other(TokenKind::Name { text, .. }) => Ok(text.clone()?),
        Seen::Other(TokenKind::Small(value)) => {
            number_name(alloc, Some(value as u128), true, width)
        }
        Seen::Other(TokenKind::Int(int)) => number_name(alloc, int.value, int.decimal, width),
        _ => Err(Stop::Syntax),
    }
}

/// The name of a field and `:`.
#[tactic(auto, unfolding(crate::specs::PatternReading::label_at))]
fn label_at(alloc: Global, at: Cursor<'_>) -> Result<(Name, Cursor<'_>), Stop>
    ensures { Gives (λ x. (rc_str_bytes x.0, left x.1)) result (label_at (left at.entry)) }
{
    let Some((first, rest)) = at.next() else {
        return Err(Stop::Syntax);
    };
    let rest = expect(rest, Mark::Colon)?;
    let name = field_name(alloc, first)?;
    Ok((name, rest))
}

/// A binding at a pattern.
fn bind_as(alloc: Global, found: Binding<'_>, sub: Pat) -> Result<PatKind, Stop>
    ensures { Gives shape_view result
        (Some (BindAs (rc_str_bytes found.entry.name.now) found.entry.by_ref found.entry.mutable (pattern_view sub))) }
{
    let name = found.name.clone()?;
    let sub = Some(Box::new(alloc, sub)?);
    let (by_ref, mutable) = (found.by_ref, found.mutable);
    Ok(PatKind::Bind {
        name,
        by_ref,
        mutable,
        sub,
    })
}

/// A binding with `ref` or `mut` alone.
fn bind(found: Binding<'_>) -> Result<PatKind, Stop>
    ensures { Gives shape_view result
        (Some (Bind (rc_str_bytes found.entry.name.now) found.entry.by_ref found.entry.mutable)) }
{
    let name = found.name.clone()?;
    let sub = None;
    let (by_ref, mutable) = (found.by_ref, found.mutable);
    Ok(PatKind::Bind {
        name,
        by_ref,
        mutable,
        sub,
    })
}

/// A binding, `@` and `..`.
#[tactic(auto, unfolding(crate::specs::PatternReading::bound_rest_at))]
fn bound_rest_at(alloc: Global, at: Cursor<'_>) -> Result<(Pat, Cursor<'_>), Stop>
    ensures { Gives (λ x. (pattern_view x.0, left x.1)) result (bound_rest_at (left at.entry)) }
{
    let Some(found) = bound_at(at) else {
        return Err(Stop::Syntax);
    };
    let Some((sub, rest)) = rest_at(found.rest) else {
        return Err(Stop::Syntax);
    };
    let from = at.from();
    let kind = bind_as(alloc, found, sub)?;
    Ok((Pat { from, kind }, rest))
}

/// A path alone as a pattern: one name is a name pattern.
fn path_kind(path: Path) -> PatKind
    ensures { shape_view result ≡ path_shape (path_view path) }
{
    let mut names = path.names;
    let plain = path.plain;
    if !plain || names.len() != 1 {
        return PatKind::Path(Path { names, plain });
    }
    match names.pop() {
        Some(name) => PatKind::Name(name),
        None => PatKind::Path(Path { names, plain }),
    }
}

/// A pattern that is no range, with at most so many forms around each other.
#[cycle(patterns)]
#[tactic(auto, unfolding(crate::specs::PatternReading::plain_at))]
fn plain_at(alloc: Global, levels: u32, at: Cursor<'_>) -> Result<(PatKind, Cursor<'_>), Stop>
    ensures { Gives (λ x. (shape_view x.0, left x.1)) result (plain_at levels (left at.entry)) }
{
    if levels == 0 {
        return Err(Stop::Syntax);
    }
    if let Some(found) = bound_at(at) {
        let (sub, rest) = alt_at(alloc, levels - 1, found.rest)?;
        let kind = bind_as(alloc, found, sub)?;
        return Ok((kind, rest));
    }
    if let Some(found) = marked_at(at) {
        let kind = bind(found)?;
        return Ok((kind, found.rest));
    }
    unbound_at(alloc, levels - 1, at)
}

/// A pattern that is no range and no binding.
#[cycle(patterns)]
fn unbound_at(alloc: Global, levels: u32, at: Cursor<'_>) -> Result<(PatKind, Cursor<'_>), Stop>
    ensures { Gives (λ x. (shape_view x.0, left x.1)) result (unbound_at (plain_at levels) (left at.entry)) }
{
    if let Some(rest) = behind(at, Mark::Underscore) {
        return Ok((PatKind::Wild, rest));
    }
    if let Some(rest) = behind(at, Mark::OpenRound) {
        return round_pattern(alloc, levels, rest);
    }
    if let Some(rest) = behind(at, Mark::OpenSquare) {
        let (items, rest) = items_at(alloc, levels, true, rest)?;
        return Ok((PatKind::Slice(fitted(items)), rest));
    }
    if let Some(rest) = behind(at, Mark::Ampersand) {
        return point_pattern(alloc, levels, rest);
    }
    if let Some(rest) = behind(at, Mark::Minus) {
        let (number, rest) = negated_at(alloc, rest)?;
        return Ok((PatKind::Lit(number), rest));
    }
    match literal_at(alloc, at) {
        Ok((literal, rest)) => return Ok((PatKind::Lit(literal), rest)),
        Err(Stop::Memory) => return Err(Stop::Memory),
        Err(Stop::Syntax) => {}
    }
    path_pattern_at(alloc, levels, at)
}

/// A pattern that begins with a path.
#[cycle(patterns)]
#[tactic(auto, unfolding(crate::specs::PatternReading::path_pattern_at))]
fn path_pattern_at(
    alloc: Global,
    levels: u32,
    at: Cursor<'_>,
) -> Result<(PatKind, Cursor<'_>), Stop>
    ensures { Gives (λ x. (shape_view x.0, left x.1)) result (path_pattern_at (plain_at levels) (left at.entry)) }
{
    let (path, rest) = path_at(alloc, at)?;
    if let Some(rest) = behind(rest, Mark::OpenRound) {
        let (items, rest) = items_at(alloc, levels, false, rest)?;
        let items = fitted(items);
        let path = Box::new(alloc, path)?;
        return Ok((PatKind::TupleForm { path, items }, rest));
    }
    if let Some(rest) = behind(rest, Mark::OpenCurly) {
        let (fields, dotted, rest) = fields_at(alloc, levels, rest)?;
        let fields = fitted(fields);
        let path = Box::new(alloc, path)?;
        return Ok((
            PatKind::Brace {
                path,
                fields,
                rest: dotted,
            },
            rest,
        ));
    }
    if behind(rest, Mark::At).is_some() {
        return Err(Stop::Syntax);
    }
    Ok((path_kind(path), rest))
}

/// A field of a brace pattern.
#[cycle(patterns)]
#[tactic(auto, unfolding(crate::specs::PatternReading::field_at))]
fn field_at(alloc: Global, levels: u32, at: Cursor<'_>) -> Result<(FieldPat, Cursor<'_>), Stop>
    ensures { Gives (λ x. (field_view x.0, left x.1)) result (field_at (plain_at levels) (left at.entry)) }
{
    let (attrs, rest) = attributes_at(alloc, at)?;
    match label_at(alloc, rest) {
        Ok((name, rest)) => {
            let (pat, rest) = whole_at(alloc, levels, rest)?;
            let field = FieldPat {
                name,
                short: false,
                attrs,
                pat,
            };
            return Ok((field, rest));
        }
        Err(Stop::Memory) => return Err(Stop::Memory),
        Err(Stop::Syntax) => {}
    }
    let Some(found) = binding_at(rest) else {
        return Err(Stop::Syntax);
    };
    let from = rest.from();
    let kind = bind(found)?;
    let pat = Pat { from, kind };
    let name = found.name.clone()?;
    let field = FieldPat {
        name,
        short: true,
        attrs,
        pat,
    };
    Ok((field, found.rest))
}

/// The fields of a brace pattern up to the bracket that closes it, and whether `..` stands before that.
#[cycle(patterns)]
fn fields_at(
    alloc: Global,
    levels: u32,
    at: Cursor<'_>,
) -> Result<(Vec<FieldPat>, bool, Cursor<'_>), Stop>
    ensures { Gives (λ x. ((map field_view x.0.items, x.1), left x.2)) result
        (fields_at (plain_at levels) (left at.entry)) }
{
    let mut fields = Vec::new(alloc);
    let mut rest = at;
    'fields: loop {
        if let Some(end) = behind(rest, Mark::CloseCurly) {
            return Ok((fields, false, end));
        }
        if let Some(dots) = behind(rest, Mark::TwoDots) {
            let Some(end) = behind(dots, Mark::CloseCurly) else {
                return Err(Stop::Syntax);
            };
            return Ok((fields, true, end));
        }
        let (field, after) = field_at(alloc, levels, rest)?;
        fields.push(field)?;
        if let Some(end) = behind(after, Mark::CloseCurly) {
            return Ok((fields, false, end));
        }
        let Some(next) = behind(after, Mark::Comma) else {
            return Err(Stop::Syntax);
        };
        rest = next;
    }
}

/// A pattern behind `&`.
#[cycle(patterns)]
fn point_pattern(alloc: Global, levels: u32, at: Cursor<'_>) -> Result<(PatKind, Cursor<'_>), Stop>
    ensures { Gives (λ x. (shape_view x.0, left x.1)) result (point_pattern (plain_at levels) (left at.entry)) }
{
    let (mutable, rest) = skip_word(at, Word::Mut);
    let from = rest.from();
    let (kind, rest) = plain_at(alloc, levels, rest)?;
    let inner = Box::new(alloc, Pat { from, kind })?;
    Ok((PatKind::Point { mutable, inner }, rest))
}

/// A pattern behind an opening round bracket.
#[cycle(patterns)]
fn round_pattern(alloc: Global, levels: u32, at: Cursor<'_>) -> Result<(PatKind, Cursor<'_>), Stop>
    ensures { Gives (λ x. (shape_view x.0, left x.1)) result (round_pattern (plain_at levels) (left at.entry)) }
{
    if let Some(rest) = behind(at, Mark::CloseRound) {
        return Ok((PatKind::Tuple(Vec::new(alloc)), rest));
    }
    if let Some((first, rest)) = rest_at(at) {
        return match behind(rest, Mark::CloseRound) {
            Some(rest) => Ok((only_item(alloc, first)?, rest)),
            None => tuple_behind(alloc, levels, first, rest),
        };
    }
    let (first, rest) = whole_at(alloc, levels, at)?;
    match behind(rest, Mark::CloseRound) {
        Some(rest) => Ok((PatKind::Group(Box::new(alloc, first)?), rest)),
        None => tuple_behind(alloc, levels, first, rest),
    }
}

/// A tuple of one item.
fn only_item(alloc: Global, first: Pat) -> Result<PatKind, Stop>
    ensures { Gives shape_view result (Some (Tuple (more (pattern_view first) none))) }
{
    let mut items = Vec::new(alloc);
    push(&mut items, first)?;
    Ok(PatKind::Tuple(items))
}

/// Appends an item to a list, which begins with room for one: many lists have no more.
fn push(items: &mut Vec<Pat>, item: Pat) -> Result<(), Stop>
    ensures items { IfOk result (λ _. items.new.items ≡ items.old.items ++ item ∷ []) }
    ensures memory { IfErr result (λ e. e ≡ Memory) }
{
    if items.is_empty() {
        items.reserve_exact(1)?;
    }
    items.push(item)?;
    Ok(())
}

/// The comma and the items behind the first one of a tuple.
#[cycle(patterns)]
fn tuple_behind(
    alloc: Global,
    levels: u32,
    first: Pat,
    at: Cursor<'_>,
) -> Result<(PatKind, Cursor<'_>), Stop>
    ensures { Gives (λ x. (shape_view x.0, left x.1)) result
        (tuple_behind (plain_at levels) (pattern_view first) (left at.entry)) }
{
    let rest = expect(at, Mark::Comma)?;
    let (mut items, rest) = items_at(alloc, levels, false, rest)?;
    items.insert(0, first)?;
    Ok((PatKind::Tuple(fitted(items)), rest))
}

/// An alternative: a range, or else a pattern that is none.
#[cycle(patterns)]
fn alt_at(alloc: Global, levels: u32, at: Cursor<'_>) -> Result<(Pat, Cursor<'_>), Stop>
    ensures { Gives (λ x. (pattern_view x.0, left x.1)) result (alt_at (plain_at levels) (left at.entry)) }
{
    let from = at.from();
    match range_at(alloc, at) {
        Ok((kind, rest)) => return Ok((Pat { from, kind }, rest)),
        Err(Stop::Memory) => return Err(Stop::Memory),
        Err(Stop::Syntax) => {}
    }
    let (kind, rest) = plain_at(alloc, levels, at)?;
    Ok((Pat { from, kind }, rest))
}

/// Appends alternatives with `|` between them to a list, and gives the place behind them.
#[cycle(patterns)]
fn add_alts<'a>(
    alloc: Global,
    levels: u32,
    all: &mut Vec<Pat>,
    at: Cursor<'a>,
) -> Result<Cursor<'a>, Stop>
    ensures { Gives {Y = List PatternTree × List Placed} (λ x. (map pattern_view all.new.items, left x)) result
        (option_map (λ x. (map pattern_view all.old.items ++ x.0, x.1))
        (parts_at marks.Bar (alt_at (plain_at levels)) (left at.entry))) }
{
    let mut rest = at;
    'alts: loop {
        let (one, after) = alt_at(alloc, levels, rest)?;
        all.push(one)?;
        match behind(after, Mark::Bar) {
            Some(behind) => rest = behind,
            None => return Ok(after),
        }
    }
}

/// A pattern: alternatives, of which one alone is itself, and takes no list.
#[cycle(patterns)]
fn whole_at(alloc: Global, levels: u32, at: Cursor<'_>) -> Result<(Pat, Cursor<'_>), Stop>
    ensures { Gives (λ x. (pattern_view x.0, left x.1)) result (whole_at (plain_at levels) (left at.entry)) }
{
    let first = skip_mark(at, Mark::Bar);
    let from = first.from();
    let (one, rest) = alt_at(alloc, levels, first)?;
    let Some(rest) = behind(rest, Mark::Bar) else {
        return Ok((one, rest));
    };
    let mut all = Vec::new(alloc);
    all.push(one)?;
    let rest = add_alts(alloc, levels, &mut all, rest)?;
    match or_of(from, all) {
        Some(pattern) => Ok((pattern, rest)),
        None => Err(Stop::Syntax),
    }
}

/// Alternatives as one pattern.
fn or_of(from: u64, mut all: Vec<Pat>) -> Option<Pat>
    ensures { option_map pattern_view result ≡ or_of from (map pattern_view all.items) }
{
    if all.len() < 2 {
        return all.pop();
    }
    let kind = PatKind::Or(fitted(all));
    Some(Pat { from, kind })
}

/// `..` or a pattern.
#[cycle(patterns)]
fn item_at(alloc: Global, levels: u32, at: Cursor<'_>) -> Result<(Pat, Cursor<'_>), Stop>
    ensures { Gives (λ x. (pattern_view x.0, left x.1)) result (item_at (plain_at levels) (left at.entry)) }
{
    match rest_at(at) {
        Some((found, rest)) => Ok((found, rest)),
        None => whole_at(alloc, levels, at),
    }
}

/// An item of a slice or of a tuple.
#[cycle(patterns)]
fn element_at(
    alloc: Global,
    levels: u32,
    slice: bool,
    at: Cursor<'_>,
) -> Result<(Pat, Cursor<'_>), Stop>
    ensures { Gives (λ x. (pattern_view x.0, left x.1)) result (element_at slice (plain_at levels) (left at.entry)) }
{
    if slice {
        match bound_rest_at(alloc, at) {
            Ok((found, rest)) => return Ok((found, rest)),
            Err(Stop::Memory) => return Err(Stop::Memory),
            Err(Stop::Syntax) => {}
        }
    }
    item_at(alloc, levels, at)
}

/// The mark that closes a slice or a tuple.
fn closing(slice: bool) -> Mark
    ensures { result ≡ closing slice }
{
    if slice {
        Mark::CloseSquare
    } else {
        Mark::CloseRound
    }
}

/// The items of a slice or of a tuple, up to the mark that closes it.
#[cycle(patterns)]
fn items_at(
    alloc: Global,
    levels: u32,
    slice: bool,
    at: Cursor<'_>,
) -> Result<(Vec<Pat>, Cursor<'_>), Stop>
    ensures { Gives (λ x. (map pattern_view x.0.items, left x.1)) result
        (items_at slice (plain_at levels) (left at.entry)) }
{
    let close = closing(slice);
    let mut parts = Vec::new(alloc);
    let mut rest = at;
    'parts: loop {
        if let Some(behind) = behind(rest, close) {
            return Ok((parts, behind));
        }
        let (part, after) = element_at(alloc, levels, slice, rest)?;
        push(&mut parts, part)?;
        if let Some(behind) = behind(after, close) {
            return Ok((parts, behind));
        }
        let Some(behind) = behind(after, Mark::Comma) else {
            return Err(Stop::Syntax);
        };
        rest = behind;
    }
}
