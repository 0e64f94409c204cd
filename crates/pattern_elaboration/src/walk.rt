//! What a written pattern becomes, form by form.
ghost use Rattle.std.specs.Prelude.{ℕ, ◌++◌, Bool, map, IfOk};
ghost use Rattle.decl_syntax.specs.Patterns.{pattern_view, shape_view, path_view, patterns_from};
ghost use Rattle.decl_syntax.specs.Patterns.{field_view, fields_from};
ghost use Rattle.decl_syntax.specs.Patterns as shapes;
ghost use Rattle.type_table.specs.Tables.{IsOf, table_type};
ghost use Rattle.pattern_elaboration.specs.Checking.{IsOfFile};
ghost use Rattle.pattern_elaboration.specs.Given.{trees, field_trees};
ghost use Rattle.pattern_elaboration.specs.Numbered.{AreMade};
ghost use Rattle.pattern_elaboration.specs.Walking.{PatternShown, ShapeShown, BoundShown, MadeHere};
ghost use Rattle.pattern_elaboration.specs.Walking.{PartsShown, FieldsShown, ItemsShown, ChoicesShown};

use crate::build::{over, over_placed, standing_as};
use crate::forms::{Listed, form_behind, put, put_field, row_behind, tuple_behind};
use crate::leaves::{bare_name, binding, named, path_form, wildcard};
use crate::literals::{literal, range_pattern};
use crate::names::{found_number, path_found};
use crate::parts::{field_number, item_count, item_type, part, part_behind};
use crate::placing::FormPlacer;
use crate::references::peel;
use crate::types::{Place, inner};
use decl_syntax::{FieldPat, Pat, PatKind, Path};
use match_model::Mode;
use no_memory::NoMemory;
use pat_context::Ctor;
use pattern_arena::DePat;
use pattern_rules::lists::is_rest;
use pattern_rules::modes::written_mode;
use std::alloc::Global;
use type_table::{TyId, TypeTable};

/// What a written pattern becomes at a place. The only error is want of memory.
#[cycle(walk)]
pub fn elaborate_pattern<'a>(
    alloc: Global,
    table: &TypeTable,
    placer: &FormPlacer<'a>,
    next: &mut u64,
    pat: &Pat,
    here: Place,
) -> Result<DePat<'a, TyId>, NoMemory>
    requires file { IsOfFile table.now }
    requires of { IsOf table.now here.ty }
    ensures shown { IfOk result (PatternShown table.now (table_type table.now here.ty) here.mode
        (pattern_view pat.now)) }
    ensures made { IfOk result (MadeHere table.now next.old next.new) }
{
    elaborate_kind(alloc, table, placer, next, pat.from, &pat.kind, here)
}

// The same of a form at this offset.
#[cycle(walk)]
fn elaborate_kind<'a>(
    alloc: Global,
    table: &TypeTable,
    placer: &FormPlacer<'a>,
    next: &mut u64,
    from: u64,
    kind: &PatKind,
    here: Place,
) -> Result<DePat<'a, TyId>, NoMemory>
    requires file { IsOfFile table.now }
    requires of { IsOf table.now here.ty }
    ensures shown { IfOk result (ShapeShown table.now (table_type table.now here.ty) here.mode from
        (shape_view kind.now)) }
    ensures made { IfOk result (MadeHere table.now next.old next.new) }
{
    match kind {
        PatKind::Wild => wildcard(table, placer, next, here.ty),
        PatKind::Rest => wildcard(table, placer, next, here.ty),
        PatKind::Lit(lit) => literal(alloc, table, placer, next, lit, here),
        PatKind::Range(range) => range_pattern(alloc, table, placer, next, from, range, here),
        PatKind::Name(name) => bare_name(alloc, table, placer, next, name, here),
        PatKind::Bind {
            name,
            by_ref,
            mutable,
            sub,
        } => match sub {
            Some(sub) => elaborate_bound(
                alloc,
                table,
                placer,
                next,
                name,
                written_mode(*by_ref, *mutable, here.mode),
                sub,
                here,
            ),
            None => binding(alloc, table, placer, next, name, *by_ref, *mutable, here),
        },
        PatKind::Path(path) => path_form(alloc, table, placer, next, path, here),
        PatKind::TupleForm { path, items } => {
            elaborate_tuple_form(alloc, table, placer, next, path, items, here)
        }
        PatKind::Brace { path, fields, .. } => {
            elaborate_brace(alloc, table, placer, next, path, fields, here)
        }
        PatKind::Tuple(items) => elaborate_tuple(alloc, table, placer, next, items, here),
        PatKind::Group(sub) => elaborate_pattern(alloc, table, placer, next, sub, here),
        PatKind::Slice(items) => elaborate_slice(alloc, table, placer, next, items, here),
        PatKind::Point { inner: sub, .. } => {
            elaborate_point(alloc, table, placer, next, sub, here)
        }
        PatKind::Or(all) => elaborate_or(alloc, table, placer, next, all, here),
    }
}

// A name, in this mode, for what the pattern behind its `@` matches.
#[cycle(walk)]
fn elaborate_bound<'a>(
    alloc: Global,
    table: &TypeTable,
    placer: &FormPlacer<'a>,
    next: &mut u64,
    name: &str,
    mode: Mode,
    sub: &Pat,
    here: Place,
) -> Result<DePat<'a, TyId>, NoMemory>
    requires file { IsOfFile table.now }
    requires of { IsOf table.now here.ty }
    ensures shown { IfOk result (BoundShown table.now (table_type table.now here.ty) here.mode name.now mode
        (pattern_view sub.now)) }
    ensures made { IfOk result (MadeHere table.now next.old next.new) }
{
    let pattern = elaborate_pattern(alloc, table, placer, next, sub, here)?;
    let made = named(alloc, placer, name, mode, pattern)?;
    Ok(made)
}

// The pattern behind a written `&` or `&mut`.
#[cycle(walk)]
fn elaborate_point<'a>(
    alloc: Global,
    table: &TypeTable,
    placer: &FormPlacer<'a>,
    next: &mut u64,
    sub: &Pat,
    here: Place,
) -> Result<DePat<'a, TyId>, NoMemory>
    requires file { IsOfFile table.now }
    requires of { IsOf table.now here.ty }
    ensures shown { (from : ℕ) (mutable : Bool) → IfOk result (ShapeShown table.now (table_type table.now here.ty)
        here.mode from (shapes.Point mutable (pattern_view sub.now))) }
    ensures made { IfOk result (MadeHere table.now next.old next.new) }
{
    let there = Place {
        ty: inner(table, here.ty),
        mode: Mode::Move,
    };
    let pattern = elaborate_pattern(alloc, table, placer, next, sub, there)?;
    let made = over(placer, next, Ctor::Point, here.ty, 0, &[pattern])?;
    Ok(made)
}

// A tuple struct or variant.
#[cycle(walk)]
fn elaborate_tuple_form<'a>(
    alloc: Global,
    table: &TypeTable,
    placer: &FormPlacer<'a>,
    next: &mut u64,
    path: &Path,
    items: &Vec<Pat>,
    here: Place,
) -> Result<DePat<'a, TyId>, NoMemory>
    requires file { IsOfFile table.now }
    requires of { IsOf table.now here.ty }
    ensures shown { (from : ℕ) → IfOk result (ShapeShown table.now (table_type table.now here.ty) here.mode from
        (shapes.TupleForm (path_view path.now) (patterns_from (map pattern_view items.now.items)))) }
    ensures made { IfOk result (MadeHere table.now next.old next.new) }
{
    table.types_are_sound();
    let peeled = peel(alloc, table, here)?;
    let variant = found_number(table, &path_found(table, path));
    let fields = elaborate_parts(alloc, table, placer, next, items, peeled.place, variant)?;
    let made = form_behind(alloc, table, placer, next, peeled, variant, &fields)?;
    Ok(made)
}

// The written fields of a tuple form of this variant, with their numbers.
#[cycle(walk)]
fn elaborate_parts<'a>(
    alloc: Global,
    table: &TypeTable,
    placer: &FormPlacer<'a>,
    next: &mut u64,
    items: &Vec<Pat>,
    here: Place,
    variant: u32,
) -> Result<Vec<(usize, DePat<'a, TyId>)>, NoMemory>
    requires file { IsOfFile table.now }
    requires of { IsOf table.now here.ty }
    ensures shown { IfOk result (λ v. PartsShown table.now (table_type table.now here.ty) here.mode variant
        (patterns_from (map pattern_view items.now.items)) v.items) }
    ensures made { IfOk result (λ v. AreMade (IsOf table.now) next.old next.new (field_trees v.items)) }
{
    let mut written = Vec::new(alloc);
    let parts = table.fields(here.ty, variant) as usize;
    let mut left = items.len();
    let mut number = 0;
    for item in items {
        left -= 1;
        let following = part_behind(parts, number, left, item);
        if is_rest(item) {
            number = following;
            continue;
        }
        let there = Place {
            ty: part(table, here.ty, variant, number),
            mode: here.mode,
        };
        let made = elaborate_pattern(alloc, table, placer, next, item, there)?;
        put_field(&mut written, number, made)?;
        number = following;
    }
    Ok(written)
}

// A struct or variant of brace form.
#[cycle(walk)]
fn elaborate_brace<'a>(
    alloc: Global,
    table: &TypeTable,
    placer: &FormPlacer<'a>,
    next: &mut u64,
    path: &Path,
    fields: &Vec<FieldPat>,
    here: Place,
) -> Result<DePat<'a, TyId>, NoMemory>
    requires file { IsOfFile table.now }
    requires of { IsOf table.now here.ty }
    ensures shown { (from : ℕ) (rest : Bool) → IfOk result (ShapeShown table.now (table_type table.now here.ty)
        here.mode from (shapes.Brace (path_view path.now) (fields_from (map field_view fields.now.items)) rest)) }
    ensures made { IfOk result (MadeHere table.now next.old next.new) }
{
    table.types_are_sound();
    let peeled = peel(alloc, table, here)?;
    let variant = found_number(table, &path_found(table, path));
    let fields = elaborate_fields(alloc, table, placer, next, fields, peeled.place, variant)?;
    let made = form_behind(alloc, table, placer, next, peeled, variant, &fields)?;
    Ok(made)
}

// The written fields of a brace form of this variant, with their numbers.
#[cycle(walk)]
fn elaborate_fields<'a>(
    alloc: Global,
    table: &TypeTable,
    placer: &FormPlacer<'a>,
    next: &mut u64,
    fields: &Vec<FieldPat>,
    here: Place,
    variant: u32,
) -> Result<Vec<(usize, DePat<'a, TyId>)>, NoMemory>
    requires file { IsOfFile table.now }
    requires of { IsOf table.now here.ty }
    ensures shown { IfOk result (λ v. FieldsShown table.now (table_type table.now here.ty) here.mode variant
        (fields_from (map field_view fields.now.items)) v.items) }
    ensures made { IfOk result (λ v. AreMade (IsOf table.now) next.old next.new (field_trees v.items)) }
{
    let mut written = Vec::new(alloc);
    for field in fields {
        let number = field_number(table, here.ty, variant, &field.name);
        let there = Place {
            ty: part(table, here.ty, variant, number),
            mode: here.mode,
        };
        let made = elaborate_pattern(alloc, table, placer, next, &field.pat, there)?;
        put_field(&mut written, number, made)?;
    }
    Ok(written)
}

// A tuple.
#[cycle(walk)]
fn elaborate_tuple<'a>(
    alloc: Global,
    table: &TypeTable,
    placer: &FormPlacer<'a>,
    next: &mut u64,
    items: &Vec<Pat>,
    here: Place,
) -> Result<DePat<'a, TyId>, NoMemory>
    requires file { IsOfFile table.now }
    requires of { IsOf table.now here.ty }
    ensures shown { (from : ℕ) → IfOk result (ShapeShown table.now (table_type table.now here.ty) here.mode from
        (shapes.Tuple (patterns_from (map pattern_view items.now.items)))) }
    ensures made { IfOk result (MadeHere table.now next.old next.new) }
{
    let peeled = peel(alloc, table, here)?;
    let listed = elaborate_items(alloc, table, placer, next, items, peeled.place)?;
    let made = tuple_behind(
        alloc,
        table,
        placer,
        next,
        peeled,
        items,
        &listed.front,
        &listed.back,
    )?;
    Ok(made)
}

// A row of a slice or array.
#[cycle(walk)]
fn elaborate_slice<'a>(
    alloc: Global,
    table: &TypeTable,
    placer: &FormPlacer<'a>,
    next: &mut u64,
    items: &Vec<Pat>,
    here: Place,
) -> Result<DePat<'a, TyId>, NoMemory>
    requires file { IsOfFile table.now }
    requires of { IsOf table.now here.ty }
    ensures shown { (from : ℕ) → IfOk result (ShapeShown table.now (table_type table.now here.ty) here.mode from
        (shapes.Slice (patterns_from (map pattern_view items.now.items)))) }
    ensures made { IfOk result (MadeHere table.now next.old next.new) }
{
    let peeled = peel(alloc, table, here)?;
    let listed = elaborate_items(alloc, table, placer, next, items, peeled.place)?;
    let made = row_behind(
        alloc,
        table,
        placer,
        next,
        peeled,
        items,
        &listed.front,
        &listed.back,
    )?;
    Ok(made)
}

// The items of a tuple, slice or array up to a rest, and those behind it.
#[cycle(walk)]
fn elaborate_items<'a>(
    alloc: Global,
    table: &TypeTable,
    placer: &FormPlacer<'a>,
    next: &mut u64,
    items: &Vec<Pat>,
    here: Place,
) -> Result<Listed<'a>, NoMemory>
    requires file { IsOfFile table.now }
    requires of { IsOf table.now here.ty }
    ensures shown { IfOk result (λ v. ItemsShown table.now (table_type table.now here.ty) here.mode
        (patterns_from (map pattern_view items.now.items)) v.front.items v.back.items) }
    ensures made { IfOk result (λ v. AreMade (IsOf table.now) next.old next.new
        (trees v.front.items ++ trees v.back.items)) }
{
    let mut listed = Listed {
        front: Vec::new(alloc),
        back: Vec::new(alloc),
    };
    let mut behind = false;
    let parts = item_count(table, here.ty, items.len());
    let mut left = items.len();
    let mut number = 0;
    for item in items {
        left -= 1;
        let following = part_behind(parts, number, left, item);
        if is_rest(item) {
            behind = true;
            number = following;
            continue;
        }
        let there = Place {
            ty: item_type(table, here.ty, number),
            mode: here.mode,
        };
        let made = elaborate_pattern(alloc, table, placer, next, item, there)?;
        put(&mut listed, behind, made)?;
        number = following;
    }
    Ok(listed)
}

// An or-pattern.
#[cycle(walk)]
fn elaborate_or<'a>(
    alloc: Global,
    table: &TypeTable,
    placer: &FormPlacer<'a>,
    next: &mut u64,
    all: &Vec<Pat>,
    here: Place,
) -> Result<DePat<'a, TyId>, NoMemory>
    requires file { IsOfFile table.now }
    requires of { IsOf table.now here.ty }
    ensures shown { (from : ℕ) → IfOk result (ShapeShown table.now (table_type table.now here.ty) here.mode from
        (shapes.Or (patterns_from (map pattern_view all.now.items)))) }
    ensures made { IfOk result (MadeHere table.now next.old next.new) }
{
    let choices = elaborate_alternatives(alloc, table, placer, next, all, here)?;
    let made = over_placed(placer, next, Ctor::Or, here.ty, 0, choices)?;
    Ok(made)
}

// Alternatives, each at its offset. They are made where they stay, in the arena.
#[cycle(walk)]
fn elaborate_alternatives<'a>(
    alloc: Global,
    table: &TypeTable,
    placer: &FormPlacer<'a>,
    next: &mut u64,
    all: &Vec<Pat>,
    here: Place,
) -> Result<&'a [DePat<'a, TyId>], NoMemory>
    requires file { IsOfFile table.now }
    requires of { IsOf table.now here.ty }
    ensures shown { IfOk result (λ v. ChoicesShown table.now (table_type table.now here.ty) here.mode
        (patterns_from (map pattern_view all.now.items)) v.now) }
    ensures made { IfOk result (λ v. AreMade (IsOf table.now) next.old next.new (trees v.now)) }
{
    let mut choices = placer.arena.list_with_room(all.len())?;
    for alternative in all {
        let pattern = elaborate_pattern(alloc, table, placer, next, alternative, here)?;
        let made = standing_as(placer, next, alternative, pattern)?;
        choices.push(made)?;
    }
    Ok(placer.arena.place_list(choices))
}
