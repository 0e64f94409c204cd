//! All parts of a struct, variant or tuple, from those that are written.
ghost use Rattle.std.specs.Prelude.{◌≡◌, ℕ, map, IfOk};
ghost use Rattle.match_model.specs.Constructors.{WildCtor};
ghost use Rattle.match_model.specs.Declarations.{node_types};
ghost use Rattle.match_model.specs.RustTypes.{rust_set};
ghost use Rattle.match_model.specs.Types.{types_list};
ghost use Rattle.pat_context.specs.Views.{plain_ctor};
ghost use Rattle.type_table.specs.Tables.{IsOf, table_program, table_type};
ghost use Rattle.pattern_rules.specs.Builders.{leaf as built_leaf, types_or_none, node_ctor, form};
ghost use Rattle.pattern_elaboration.specs.Numbered.{AreMade};
ghost use Rattle.pattern_elaboration.specs.Walking.{plain, MadeHere};
ghost use Rattle.pattern_elaboration.specs.Written.{built_there};
ghost use Rattle.pattern_elaboration.specs.Given.{trees, given, field_trees, given_fields, filled, kind_ctor};

use crate::build::{leaf, over};
use crate::placing::FormPlacer;
use no_memory::NoMemory;
use pat_context::Ctor;
use pattern_arena::DePat;
use std::alloc::Global;
use type_table::{TyId, TyKind, TypeTable};

/// A struct, variant or tuple over one pattern for each part: the first of the fields that has the part's number, or a
/// wildcard where there is none. Variants and parts count from 0; a struct and a tuple have the variant 0. The only
/// error is want of memory.
pub fn form_over<'a>(
    alloc: Global,
    table: &TypeTable,
    placer: &FormPlacer<'a>,
    next: &mut u64,
    ty: TyId,
    variant: u32,
    fields: &[(usize, DePat<'a, TyId>)],
) -> Result<DePat<'a, TyId>, NoMemory>
    requires { IsOf table.now ty }
    ensures shown { IfOk result (λ p. plain table.now p
        ≡ form (table_program table.now) variant (built_there (given_fields (table_type table.now) fields.now))
        (table_type table.now ty)) }
    ensures made { (from : ℕ) → AreMade (IsOf table.now) from next.old (field_trees fields.now)
        → IfOk result (MadeHere table.now from next.new) }
{
    let mut parts = wildcards(alloc, table, placer, next, ty, variant)?;
    fill(&mut parts, fields);
    let ctor = form_ctor(table, ty, variant);
    over(placer, next, ctor, ty, 0, &parts)
}

// A wildcard for each part.
fn wildcards<'a>(
    alloc: Global,
    table: &TypeTable,
    placer: &FormPlacer<'a>,
    next: &mut u64,
    ty: TyId,
    variant: u32,
) -> Result<Vec<DePat<'a, TyId>>, NoMemory>
    requires { IsOf table.now ty }
    ensures shown { IfOk result (λ v. given (table_type table.now) v.items ≡ map (built_leaf WildCtor)
        (types_list (types_or_none (node_types (table_program table.now) (table_type table.now ty) variant)))) }
    ensures made { IfOk result (λ v. AreMade (IsOf table.now) next.old next.new (trees v.items)) }
{
    let mut parts = Vec::new(alloc);
    for i in 0..table.fields(ty, variant) {
        let part = leaf(placer, next, Ctor::Wild, table.field(ty, variant, i), 0)?;
        parts.push(part)?;
    }
    Ok(parts)
}

// Puts the pattern of each field in its place; the first field of a number goes before others.
fn fill<'a>(parts: &mut Vec<DePat<'a, TyId>>, fields: &[(usize, DePat<'a, TyId>)])
    ensures { parts.new.items ≡ filled fields.now parts.old.items }
{
    for k in 0..fields.len() {
        let (place, pattern) = fields[fields.len() - 1 - k];
        if place < parts.len() {
            parts[place] = pattern;
        }
    }
}

// The constructor of a node of the type.
fn form_ctor<'a>(table: &TypeTable, ty: TyId, variant: u32) -> Ctor<'a>
    requires { IsOf table.now ty }
    ensures { plain_ctor result ≡ node_ctor (rust_set (table_program table.now) (table_type table.now ty)) variant }
{
    kind_ctor(table.kind(ty), variant)
}

// The constructor of a node of a type of this kind.
fn kind_ctor<'a>(kind: TyKind, variant: u32) -> Ctor<'a>
    ensures { plain_ctor result ≡ kind_ctor kind variant }
{
    match kind {
        TyKind::Tuple(_) | TyKind::Struct(_) => Ctor::Single,
        TyKind::Point { .. } | TyKind::Bool | TyKind::Char | TyKind::Int(_) => Ctor::Variant(
            variant,
        ),
        TyKind::Str | TyKind::Never | TyKind::Opaque | TyKind::Slice(_) => Ctor::Variant(variant),
        TyKind::Array(_, _) | TyKind::Enum { .. } => Ctor::Variant(variant),
    }
}
