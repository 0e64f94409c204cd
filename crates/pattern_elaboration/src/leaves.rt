//! Patterns with none below: wildcards, names, and forms without fields.
ghost use Rattle.std.specs.Prelude.{◌≡◌, ℕ, IfOk};
ghost use Rattle.match_model.specs.Types.{MType};
ghost use Rattle.match_model.specs.Constructors.{WildCtor};
ghost use Rattle.match_model.specs.Patterns.{FormPat, no_numbered};
ghost use Rattle.match_model.specs.ArenaPatterns.{WholePart};
ghost use Rattle.type_table.specs.Tables.{IsOf, table_type};
ghost use Rattle.type_table.specs.declared.table.TyId.{TyId as AnyType};
ghost use Rattle.type_table.specs.declared.table.TypeTable.{TypeTable as AnyTable};
ghost use Rattle.decl_syntax.specs.Patterns.{Name, Bind, Path as PathShape, path_view};
ghost use Rattle.pattern_arena.specs.Trees.{tree};
ghost use Rattle.pattern_rules.specs.Settings.{Setting, program};
ghost use Rattle.pattern_rules.specs.Builders.{leaf as built_leaf};
ghost use Rattle.pattern_rules.specs.Elaborated.{elaborated, with_bound};
ghost use Rattle.pattern_rules.specs.Shown.{settled};
ghost use Rattle.pattern_elaboration.specs.Checking.{IsOfFile, IsSettingOf};
ghost use Rattle.pattern_elaboration.specs.Numbered.{IsMade};
ghost use Rattle.pattern_elaboration.specs.Walking.{plain, ShapeShown, MadeHere};

use crate::build::{leaf, with_name};
use crate::forms::form_behind;
use crate::names::{found_number, is_path_name, name_found, path_found};
use crate::placing::FormPlacer;
use crate::references::peel;
use crate::types::Place;
use decl_syntax::Path;
use match_model::Mode;
use no_memory::NoMemory;
use pat_context::Ctor;
use pattern_arena::{Bound, DePat, Part};
use pattern_rules::modes::written_mode;
use std::alloc::Global;
use type_table::{TyId, TypeTable};

/// A wildcard. The only error is want of memory.
pub fn wildcard<'a>(
    table: &TypeTable,
    placer: &FormPlacer<'a>,
    next: &mut u64,
    ty: TyId,
) -> Result<DePat<'a, TyId>, NoMemory>
    requires { IsOf table.now ty }
    ensures shown { IfOk result (λ p. plain table.now p ≡ built_leaf WildCtor (table_type table.now ty)) }
    ensures made { IfOk result (MadeHere table.now next.old next.new) }
{
    let made = leaf(placer, next, Ctor::Wild, ty, 0)?;
    Ok(made)
}

/// The pattern with a name for all of its value, before the names that it has. The only error is want of memory.
pub fn named<'a>(
    alloc: Global,
    placer: &FormPlacer<'a>,
    name: &str,
    mode: Mode,
    pattern: DePat<'a, TyId>,
) -> Result<DePat<'a, TyId>, NoMemory>
    ensures shown { (type : AnyType → MType) → IfOk result (λ p. settled type 0 (tree p)
        ≡ with_bound (record { name = name.now; mode = mode; part = WholePart })
        (settled type 0 (tree pattern.entry))) }
    ensures made { (any : AnyTable) (from to : ℕ) → IsMade (IsOf any) from to (tree pattern.entry)
        → IfOk result (λ p. IsMade (IsOf any) from to (tree p)) }
{
    let name = placer.arena.place_text(name)?;
    let bound = Bound {
        name,
        mode,
        part: Part::Whole,
    };
    let made = with_name(alloc, placer, bound, pattern)?;
    Ok(made)
}

/// A binding that matches everything, written with `ref` or `mut`, or with neither or both. The only error is want of
/// memory.
pub fn binding<'a>(
    alloc: Global,
    table: &TypeTable,
    placer: &FormPlacer<'a>,
    next: &mut u64,
    name: &str,
    by_ref: bool,
    mutable: bool,
    here: Place,
) -> Result<DePat<'a, TyId>, NoMemory>
    requires { IsOf table.now here.ty }
    ensures shown { (from : ℕ) → IfOk result (ShapeShown table.now (table_type table.now here.ty) here.mode from
        (Bind name.now by_ref mutable)) }
    ensures made { IfOk result (MadeHere table.now next.old next.new) }
{
    let mode = written_mode(by_ref, mutable, here.mode);
    let pattern = wildcard(table, placer, next, here.ty)?;
    let made = named(alloc, placer, name, mode, pattern)?;
    Ok(made)
}

/// A struct or variant all of whose fields, if it has any, are wildcards. The only error is want of memory.
pub fn unit_form<'a>(
    alloc: Global,
    table: &TypeTable,
    placer: &FormPlacer<'a>,
    next: &mut u64,
    variant: u32,
    here: Place,
) -> Result<DePat<'a, TyId>, NoMemory>
    requires { IsOf table.now here.ty }
    ensures shown { IfOk result (λ p. (s : Setting) → IsSettingOf table.now s → plain table.now p
        ≡ elaborated (program s) (FormPat variant no_numbered) (table_type table.now here.ty) here.mode) }
    ensures made { IfOk result (MadeHere table.now next.old next.new) }
{
    let peeled = peel(alloc, table, here)?;
    let made = form_behind(alloc, table, placer, next, peeled, variant, &[])?;
    Ok(made)
}

/// A bare name: a form without fields where it is a path, else a binding. The only error is want of memory.
pub fn bare_name<'a>(
    alloc: Global,
    table: &TypeTable,
    placer: &FormPlacer<'a>,
    next: &mut u64,
    name: &str,
    here: Place,
) -> Result<DePat<'a, TyId>, NoMemory>
    requires file { IsOfFile table.now }
    requires of { IsOf table.now here.ty }
    ensures shown { (from : ℕ) → IfOk result (ShapeShown table.now (table_type table.now here.ty) here.mode from
        (Name name.now)) }
    ensures made { IfOk result (MadeHere table.now next.old next.new) }
{
    if is_path_name(table, name) {
        let variant = found_number(table, &name_found(table, name));
        return unit_form(alloc, table, placer, next, variant, here);
    }
    binding(alloc, table, placer, next, name, false, false, here)
}

/// A path: a form without fields. The only error is want of memory.
pub fn path_form<'a>(
    alloc: Global,
    table: &TypeTable,
    placer: &FormPlacer<'a>,
    next: &mut u64,
    path: &Path,
    here: Place,
) -> Result<DePat<'a, TyId>, NoMemory>
    requires file { IsOfFile table.now }
    requires of { IsOf table.now here.ty }
    ensures shown { (from : ℕ) → IfOk result (ShapeShown table.now (table_type table.now here.ty) here.mode from
        (PathShape (path_view path.now))) }
    ensures made { IfOk result (MadeHere table.now next.old next.new) }
{
    let variant = found_number(table, &path_found(table, path));
    unit_form(alloc, table, placer, next, variant, here)
}
