//! Rows of slices and arrays, and tuples, from their items.
ghost use Rattle.std.specs.Prelude.{◌≡◌, ◌+◌, ◌-◌, ◌≤◌, ℕ, true, [], ◌++◌, length, map, take, drop, IfOk};
ghost use Rattle.match_model.specs.declared.Mode.{Mode as AnyMode};
ghost use Rattle.match_model.specs.Types.{types_list};
ghost use Rattle.match_model.specs.Constructors.{SingleCtor, WildCtor};
ghost use Rattle.match_model.specs.Declarations.{node_types};
ghost use Rattle.match_model.specs.RustTypes.{rust_arity};
ghost use Rattle.match_model.specs.Patterns.{MRest};
ghost use Rattle.slice_split.specs.Shapes.{plain_shape};
ghost use Rattle.pattern_arena.specs.Trees.{plain_bound};
ghost use Rattle.type_table.specs.declared.table.TypeTable.{TypeTable as AnyTable};
ghost use Rattle.type_table.specs.Tables.{IsOf, table_program, table_type, fields_of_type};
ghost use Rattle.pattern_rules.specs.NodeRules.{is_row, is_tuple};
ghost use Rattle.pattern_rules.specs.Builders.{leaf as built_leaf, types_or_none, shape, rest_bound, list_of};
ghost use Rattle.pattern_elaboration.specs.Numbered.{AreMade};
ghost use Rattle.pattern_elaboration.specs.Walking.{plain, MadeHere};
ghost use Rattle.pattern_elaboration.specs.Given.{trees, given};
ghost use Rattle.pattern_elaboration.specs.Rests.{RestIs, fixed, where_rest};

use crate::build::{fresh, leaf, make, over};
use crate::placing::FormPlacer;
use match_model::Mode;
use no_memory::NoMemory;
use pat_context::Ctor;
use pattern_arena::{Bound, DePat, Part};
use slice_split::Shape;
use std::alloc::Global;
use type_table::{TyId, TypeTable};

/// The rest of a list of items.
#[derive(Clone, Copy)]
pub enum Rest<'a> {
    /// The list has none.
    Absent,
    /// `..`.
    Unnamed,
    /// `name @ ..`, with how the name binds.
    Named { name: &'a str, mode: Mode },
}

/// A row of a slice or array, from the items before its rest and those behind. The only error is want of memory.
pub fn row_over<'a>(
    alloc: Global,
    placer: &FormPlacer<'a>,
    next: &mut u64,
    ty: TyId,
    front: &[DePat<'a, TyId>],
    rest: Rest<'a>,
    back: &[DePat<'a, TyId>],
) -> Result<DePat<'a, TyId>, NoMemory>
    ensures shown { (table : AnyTable) (written : MRest) (m : AnyMode) → is_row (table_type table ty) ≡ true →
        RestIs rest.entry written m → IfOk result (λ p. plain table p
        ≡ list_of (table_program table) (fixed (given (table_type table) front.now)) written
        (fixed (given (table_type table) back.now)) (table_type table ty) m) }
    ensures made { (table : AnyTable) (from : ℕ) → IsOf table ty →
        AreMade (IsOf table) from next.old (trees front.now ++ trees back.now) →
        IfOk result (MadeHere table from next.new) }
{
    let subs = both(alloc, front, back)?;
    let shape = row_shape(
        rest,
        subs.len() as u64,
        front.len() as u64,
        back.len() as u64,
    );
    let subs = placer.arena.place_subs(&subs)?;
    let binds = rest_binds(placer, rest, front.len() as u64, back.len() as u64)?;
    let uid = fresh(next)?;
    make(placer, Ctor::Row(shape), ty, uid, 0, subs, binds)
}

// The items of both lists.
fn both<'a>(
    alloc: Global,
    front: &[DePat<'a, TyId>],
    back: &[DePat<'a, TyId>],
) -> Result<Vec<DePat<'a, TyId>>, NoMemory>
    ensures { IfOk result (λ v. v.items ≡ front.now ++ back.now) }
{
    let mut all = Vec::from_slice(alloc, front)?;
    all.extend_from_slice(back)?;
    Ok(all)
}

// The shape of a row with so many items, in all and at each end.
fn row_shape(rest: Rest, all: u64, front: u64, back: u64) -> Shape
    ensures { (written : MRest) (m : AnyMode) → RestIs rest.entry written m → all ≡ front + back →
        plain_shape result ≡ shape front back written }
{
    match rest {
        Rest::Absent => Shape::Fixed(all),
        Rest::Unnamed | Rest::Named { .. } => Shape::Longer { front, back },
    }
}

// The name of the rest, if it has one.
fn rest_binds<'a>(
    placer: &FormPlacer<'a>,
    rest: Rest<'a>,
    front: u64,
    back: u64,
) -> Result<&'a [Bound<'a>], NoMemory>
    ensures { (written : MRest) (m : AnyMode) → RestIs rest.entry written m →
        IfOk result (λ binds. map plain_bound binds.now ≡ rest_bound front back written m) }
{
    match rest {
        Rest::Absent | Rest::Unnamed => Ok(&[]),
        Rest::Named { name, mode } => {
            let part = Part::Middle { front, back };
            placer.arena.place_binds(&[Bound { name, mode, part }])
        }
    }
}

/// A tuple, from the items before its rest and those behind, with wildcards for the parts between. The only error is
/// want of memory.
pub fn tuple_over<'a>(
    alloc: Global,
    table: &TypeTable,
    placer: &FormPlacer<'a>,
    next: &mut u64,
    ty: TyId,
    front: &[DePat<'a, TyId>],
    rest: Rest<'a>,
    back: &[DePat<'a, TyId>],
) -> Result<DePat<'a, TyId>, NoMemory>
    requires { IsOf table.now ty }
    ensures shown { (written : MRest) (m : AnyMode) → is_tuple (table_type table.now ty) ≡ true →
        length front.now + length back.now ≤ rust_arity (table_program table.now) SingleCtor (table_type table.now ty) →
        RestIs rest.entry written m → IfOk result (λ p. plain table.now p
        ≡ list_of (table_program table.now) (fixed (given (table_type table.now) front.now)) written
        (fixed (given (table_type table.now) back.now)) (table_type table.now ty) m) }
    ensures made { (from : ℕ) → AreMade (IsOf table.now) from next.old (trees front.now ++ trees back.now) →
        IfOk result (MadeHere table.now from next.new) }
{
    let between = between(
        alloc,
        table,
        placer,
        next,
        ty,
        front.len(),
        rest,
        back.len(),
    )?;
    let mut parts = Vec::from_slice(alloc, front)?;
    parts.extend_from_slice(&between)?;
    parts.extend_from_slice(back)?;
    over(placer, next, Ctor::Single, ty, 0, &parts)
}

// A wildcard for each part of a tuple that the rest has, if there is one, with so many items at each end.
fn between<'a>(
    alloc: Global,
    table: &TypeTable,
    placer: &FormPlacer<'a>,
    next: &mut u64,
    ty: TyId,
    front: usize,
    rest: Rest,
    back: usize,
) -> Result<Vec<DePat<'a, TyId>>, NoMemory>
    requires { IsOf table.now ty }
    ensures shown { (written : MRest) (m : AnyMode) → RestIs rest.entry written m →
        IfOk result (λ v. given (table_type table.now) v.items ≡ where_rest written (map (built_leaf WildCtor)
        (take (fields_of_type (table_program table.now) (table_type table.now ty) 0 - (front + back))
        (drop front (types_list (types_or_none
        (node_types (table_program table.now) (table_type table.now ty) 0))))))) }
    ensures made { IfOk result (λ v. AreMade (IsOf table.now) next.old next.new (trees v.items)) }
{
    match rest {
        Rest::Absent => Ok(Vec::new(alloc)),
        Rest::Unnamed | Rest::Named { .. } => wildcards(
            alloc, table, placer, next, ty, front, back,
        ),
    }
}

// A wildcard for each part of a tuple but so many at each end.
fn wildcards<'a>(
    alloc: Global,
    table: &TypeTable,
    placer: &FormPlacer<'a>,
    next: &mut u64,
    ty: TyId,
    front: usize,
    back: usize,
) -> Result<Vec<DePat<'a, TyId>>, NoMemory>
    requires { IsOf table.now ty }
    ensures shown { IfOk result (λ v. given (table_type table.now) v.items ≡ map (built_leaf WildCtor)
        (take (fields_of_type (table_program table.now) (table_type table.now ty) 0 - (front + back))
        (drop front (types_list (types_or_none (node_types (table_program table.now) (table_type table.now ty) 0)))))) }
    ensures made { IfOk result (λ v. AreMade (IsOf table.now) next.old next.new (trees v.items)) }
{
    let mut all = Vec::new(alloc);
    let end = (table.fields(ty, 0) as usize).saturating_sub(back);
    for i in front..end {
        let part = leaf(placer, next, Ctor::Wild, table.field(ty, 0, i as u32), 0)?;
        all.push(part)?;
    }
    Ok(all)
}
