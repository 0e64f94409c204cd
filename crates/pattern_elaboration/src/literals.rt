//! What literals and ranges become.
ghost use Rattle.std.specs.Prelude.{◌≡◌, ℕ, [], chars, map, option_map, IfOk};
ghost use Rattle.match_model.specs.Lists.{Every};
ghost use Rattle.match_model.specs.Declarations.{MProgram};
ghost use Rattle.match_model.specs.Numbers.{closed};
ghost use Rattle.match_model.specs.Constructors.{NumbersCtor, TextCtor};
ghost use Rattle.match_model.specs.RustTypes.{inner_type};
ghost use Rattle.match_model.specs.ArenaPatterns.{de_pat, no_de_pats};
ghost use Rattle.decl_syntax.specs.Patterns.{lit_view, Literal, Range as RangeShape};
ghost use Rattle.range_split.specs.Numbers.{num_value};
ghost use Rattle.range_split.specs.Ranges.{plain_range};
ghost use Rattle.number_kinds.specs.Kinds.{kind_type};
ghost use Rattle.pat_context.specs.Views.{plain_ctor};
ghost use Rattle.type_table.specs.Tables.{IsOf, table_type};
ghost use Rattle.pattern_rules.specs.Settings.{Setting};
ghost use Rattle.pattern_rules.specs.Literals.{range_meant};
ghost use Rattle.pattern_rules.specs.Resolved.{number_pattern};
ghost use Rattle.pattern_rules.specs.Builders.{leaf as built_leaf, point};
ghost use Rattle.pattern_rules.specs.Elaborated.{elaborated};
ghost use Rattle.pattern_elaboration.specs.Checking.{IsSettingOf};
ghost use Rattle.pattern_elaboration.specs.Fitting.{RangeFits};
ghost use Rattle.pattern_elaboration.specs.Literals.{end_fits};
ghost use Rattle.pattern_elaboration.specs.Placed.{wrapped};
ghost use Rattle.pattern_elaboration.specs.Walking.{plain, ShapeShown, MadeHere};

use crate::build::{is_wide, leaf, over};
use crate::placing::FormPlacer;
use crate::references::{Peeled, peel, wrap};
use crate::types::{Place, inner, number_kind};
use decl_syntax::{Lit, RangePat};
use match_model::Width;
use no_memory::NoMemory;
use number_kinds::{NumberKind, has_no_number, is_literal_of, written_range};
use pat_context::Ctor;
use pattern_arena::DePat;
use pattern_rules::literals::{end_number, number_of};
use range_split::{End, Num, Range};
use std::alloc::Global;
use type_table::{TyId, TypeTable};

/// What a literal becomes at a place: a flag or number behind all references, a text behind one. The only error is want
/// of memory.
pub fn literal<'a>(
    alloc: Global,
    table: &TypeTable,
    placer: &FormPlacer<'a>,
    next: &mut u64,
    lit: &Lit,
    here: Place,
) -> Result<DePat<'a, TyId>, NoMemory>
    requires { IsOf table.now here.ty }
    ensures shown { (from : ℕ) → IfOk result (ShapeShown table.now (table_type table.now here.ty) here.mode from
        (Literal (lit_view lit.now))) }
    ensures made { IfOk result (MadeHere table.now next.old next.new) }
{
    match lit {
        Lit::Str(text) => text_at(table, placer, next, text, here.ty),
        Lit::Flag(value) => {
            let peeled = peel(alloc, table, here)?;
            leaf_behind(table, placer, next, peeled, Ctor::Flag(*value), 0)
        }
        Lit::Char(_) | Lit::Byte(_) | Lit::Small { .. } | Lit::Int(_) | Lit::Other => number_at(
            alloc,
            table,
            placer,
            next,
            number_of(lit),
            here,
        ),
    }
}

// A text behind one reference.
fn text_at<'a>(
    table: &TypeTable,
    placer: &FormPlacer<'a>,
    next: &mut u64,
    text: &str,
    ty: TyId,
) -> Result<DePat<'a, TyId>, NoMemory>
    requires { IsOf table.now ty }
    ensures shown { IfOk result (λ p. plain table.now p ≡ point (table_type table.now ty)
        (built_leaf (TextCtor (chars text.now)) (inner_type (table_type table.now ty)))) }
    ensures made { IfOk result (MadeHere table.now next.old next.new) }
{
    let text = placer.arena.place_text(text)?;
    let below = leaf(placer, next, Ctor::Text(text), inner(table, ty), 0)?;
    over(placer, next, Ctor::Point, ty, 0, &[below])
}

// The number behind all references, or a wildcard where there is none.
fn number_at<'a>(
    alloc: Global,
    table: &TypeTable,
    placer: &FormPlacer<'a>,
    next: &mut u64,
    number: Option<Num>,
    here: Place,
) -> Result<DePat<'a, TyId>, NoMemory>
    requires { IsOf table.now here.ty }
    ensures shown { IfOk result (λ p. (program : MProgram) → plain table.now p
        ≡ elaborated program (number_pattern (option_map num_value number)) (table_type table.now here.ty) here.mode) }
    ensures made { IfOk result (MadeHere table.now next.old next.new) }
{
    match number {
        Some(number) => {
            let peeled = peel(alloc, table, here)?;
            leaf_behind(
                table,
                placer,
                next,
                peeled,
                Ctor::Numbers(single(number)),
                0,
            )
        }
        None => leaf(placer, next, Ctor::Wild, here.ty, 0),
    }
}

// The range that has the number alone.
fn single(number: Num) -> Range
    ensures { plain_range result ≡ closed (num_value number) (num_value number) }
{
    let at = End::At(number);
    Range::between(&at, &at)
}

// A pattern with nothing below, behind the references that were peeled.
fn leaf_behind<'a>(
    table: &TypeTable,
    placer: &FormPlacer<'a>,
    next: &mut u64,
    peeled: Peeled,
    ctor: Ctor<'a>,
    at: u64,
) -> Result<DePat<'a, TyId>, NoMemory>
    requires of { IsOf table.now peeled.place.ty }
    requires levels { Every (IsOf table.now) peeled.levels.items }
    ensures shown { IfOk result (λ p. plain table.now p ≡ wrapped (map (table_type table.now) peeled.levels.items)
        (de_pat (plain_ctor ctor.entry) (table_type table.now peeled.place.ty) 0 at no_de_pats [])) }
    ensures made { IfOk result (MadeHere table.now next.old next.new) }
{
    let below = leaf(placer, next, ctor, peeled.place.ty, at)?;
    wrap(placer, next, peeled.levels, below)
}

/// What a range at this offset becomes at a place: its numbers, behind all references. The only error is want of
/// memory.
pub fn range_pattern<'a>(
    alloc: Global,
    table: &TypeTable,
    placer: &FormPlacer<'a>,
    next: &mut u64,
    from: u64,
    range: &RangePat,
    here: Place,
) -> Result<DePat<'a, TyId>, NoMemory>
    requires { IsOf table.now here.ty }
    ensures shown { IfOk result (ShapeShown table.now (table_type table.now here.ty) here.mode from
        (RangeShape (option_map lit_view range.now.low) (option_map lit_view range.now.high) range.now.closed)) }
    ensures made { IfOk result (MadeHere table.now next.old next.new) }
{
    let peeled = peel(alloc, table, here)?;
    let ctor = range_ctor(table, peeled.place.ty, range);
    let at = if is_wide(&ctor) { from } else { 0 };
    leaf_behind(table, placer, next, peeled, ctor, at)
}

// The numbers of a range at a type without references; a wildcard where the type has none of them.
fn range_ctor<'a>(table: &TypeTable, ty: TyId, range: &RangePat) -> Ctor<'a>
    requires { IsOf table.now ty }
    ensures { (s : Setting) → IsSettingOf table.now s → RangeFits s.width (table_type table.now ty)
        (option_map lit_view range.now.low) (option_map lit_view range.now.high) range.now.closed →
        plain_ctor result ≡ NumbersCtor (range_meant s.width (table_type table.now ty)
        (option_map lit_view range.now.low) (option_map lit_view range.now.high) range.now.closed) }
{
    match number_kind(table, ty) {
        Some(kind) => kind_range_ctor(table.width(), kind, range),
        None => Ctor::Wild,
    }
}

// The same at a type whose numbers these are.
fn kind_range_ctor<'a>(width: Width, kind: NumberKind, range: &RangePat) -> Ctor<'a>
    ensures { RangeFits width (kind_type kind)
        (option_map lit_view range.now.low) (option_map lit_view range.now.high) range.now.closed →
        plain_ctor result ≡ NumbersCtor (range_meant width (kind_type kind)
        (option_map lit_view range.now.low) (option_map lit_view range.now.high) range.now.closed) }
{
    let low = end_number(&range.low);
    let high = end_number(&range.high);
    if !end_fits(width, kind, low) || !end_fits(width, kind, high) {
        return Ctor::Wild;
    }
    if has_no_number(width, kind, low, range.closed, high) {
        return Ctor::Wild;
    }
    Ctor::Numbers(written_range(width, kind, low, range.closed, high))
}

// Whether a literal of the type can be the end, where it is written.
fn end_fits(width: Width, kind: NumberKind, end: Option<Num>) -> bool
    ensures { result ≡ end_fits width (kind_type kind) (option_map num_value end) }
{
    match end {
        Some(number) => is_literal_of(width, kind, &number),
        None => true,
    }
}
