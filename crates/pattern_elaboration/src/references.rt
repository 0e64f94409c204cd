//! References that a pattern goes through on its own.
ghost use Rattle.std.specs.Prelude.{◌≡◌, ℕ, map, IfOk};
ghost use Rattle.match_model.specs.Lists.{Every};
ghost use Rattle.match_model.specs.Types.{MType};
ghost use Rattle.match_model.specs.declared.Mode.{Mode as AnyMode};
ghost use Rattle.type_table.specs.Tables.{IsOf, table_type};
ghost use Rattle.type_table.specs.declared.table.TyId.{TyId as AnyType};
ghost use Rattle.type_table.specs.declared.table.TypeTable.{TypeTable as AnyTable};
ghost use Rattle.pattern_arena.specs.Trees.{tree};
ghost use Rattle.pattern_rules.specs.Settings.{bottom_type, bottom_mode};
ghost use Rattle.pattern_rules.specs.Builders.{Built, through_type};
ghost use Rattle.pattern_rules.specs.Shown.{settled};
ghost use Rattle.pattern_elaboration.specs.Numbered.{IsMade};
ghost use Rattle.pattern_elaboration.specs.Placed.{wrapped};

use crate::build::over;
use crate::placing::FormPlacer;
use crate::types::{Place, point_of};
use no_memory::NoMemory;
use pat_context::Ctor;
use pattern_arena::DePat;
use pattern_rules::modes::mode_behind;
use std::alloc::Global;
use type_table::{TyId, TypeTable};

/// The references around a type, from the outside in, and the place behind all of them.
#[derive(Drop)]
pub struct Peeled {
    pub levels: Vec<TyId>,
    pub place: Place,
}

/// Goes through all references of the type. The only error is want of memory.
pub fn peel(alloc: Global, table: &TypeTable, here: Place) -> Result<Peeled, NoMemory>
    requires { IsOf table.now here.ty }
    ensures of { IfOk result (λ p. IsOf table.now p.place.ty) }
    ensures levels { IfOk result (λ p. Every (IsOf table.now) p.levels.items) }
    ensures ty { IfOk result (λ p. table_type table.now p.place.ty ≡ bottom_type (table_type table.now here.ty)) }
    ensures mode { IfOk result (λ p. p.place.mode ≡ bottom_mode (table_type table.now here.ty) here.mode) }
    ensures through { IfOk result (λ p. (f : MType → AnyMode → Built) →
        through_type f (table_type table.now here.ty) here.mode
        ≡ wrapped (map (table_type table.now) p.levels.items) (f (table_type table.now p.place.ty) p.place.mode)) }
{
    let mut levels = Vec::new(alloc);
    let mut place = here;
    while let Some((mutable, inner)) = point_of(table, place.ty) {
        levels.push(place.ty)?;
        place = Place {
            ty: inner,
            mode: mode_behind(mutable, place.mode),
        };
    }
    Ok(Peeled { levels, place })
}

/// The pattern behind references of these types, from the outside in. The only error is want of memory.
pub fn wrap<'a>(
    placer: &FormPlacer<'a>,
    next: &mut u64,
    levels: Vec<TyId>,
    pattern: DePat<'a, TyId>,
) -> Result<DePat<'a, TyId>, NoMemory>
    ensures shown { (type : AnyType → MType) → IfOk result (λ p. settled type 0 (tree p)
        ≡ wrapped (map type levels.items) (settled type 0 (tree pattern.entry))) }
    ensures made { (any : AnyTable) (from : ℕ) → Every (IsOf any) levels.items
        → IsMade (IsOf any) from next.old (tree pattern.entry)
        → IfOk result (λ p. IsMade (IsOf any) from next.new (tree p)) }
{
    let mut levels = levels;
    let mut whole = pattern;
    while let Some(ty) = levels.pop() {
        whole = over(placer, next, Ctor::Point, ty, 0, &[whole])?;
    }
    Ok(whole)
}
