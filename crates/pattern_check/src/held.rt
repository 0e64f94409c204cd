// What a node binds: a name, the type of what it holds, and its mode.
ghost use Rattle.std.specs.Prelude.{◌≡◌, ◌&&◌, [], ◌∷◌, ℕ, List, OnOk, IfOk};
ghost use Rattle.match_model.specs.declared.Mode.{Mode as AnyMode};
ghost use Rattle.decl_syntax.specs.Patterns.{shape_view};
ghost use Rattle.type_table.specs.Tables.{IsOf, table_type};
ghost use Rattle.pattern_rules.specs.Settings.{Setting, place};
ghost use Rattle.pattern_rules.specs.Nodes.{Standing};
ghost use Rattle.pattern_rules.specs.Namings.{is_path_name};
ghost use Rattle.match_model.specs.Patterns.{WrittenPlain};
ghost use Rattle.pattern_rules.specs.OtherRules.{bound_by, bound_name, bound_unless, are_among};
ghost use Rattle.pattern_check.specs.Checking.{IsOfFile, IsSettingOf};
ghost use Rattle.pattern_check.specs.NodeForms.{node_at};
ghost use Rattle.pattern_check.specs.BoundSets.{held_type, shortened, IsHeld, AreHeld};
ghost use Rattle.pattern_check.specs.BoundSets.{bounds_view, bound_list, Binds};

use crate::names::is_path_name;
use crate::types::{Place, row_of};
use decl_syntax::PatKind;
use indexmap::IndexSet;
use list_members::have_same_members;
use match_model::Mode;
use no_memory::NoMemory;
use pattern_rules::modes::written_mode;
use std::alloc::Global;
use type_table::{TyId, TypeTable};

/// The type of what a name holds: a type of a table, or, where there is a length, the array of so many items of that
/// type. An array is always given in the second way, so that two of one table are equal exactly where their types are.
#[derive(Clone, Copy, Debug, PartialEq, Eq, Hash)]
pub(crate) struct Held {
    pub(crate) ty: TyId,
    pub(crate) length: Option<u64>,
}

/// A name that a pattern binds, with the type of what it holds and its mode.
#[derive(Clone, Copy, Debug, PartialEq, Eq, Hash)]
pub(crate) struct Bound<'a> {
    pub(crate) name: &'a str,
    pub(crate) held: Held,
    pub(crate) mode: Mode,
}

// The type of what is held of a type, of which so many items are left out where it is an array.
fn held_at(table: &TypeTable, ty: TyId, taken: u64) -> Held
    requires { IsOf table.now ty }
    ensures of { IsHeld table.now result }
    ensures is { held_type table.now result ≡ shortened (table_type table.now ty) taken }
{
    match row_of(table, ty) {
        Some((item, Some(length))) => Held {
            ty: item,
            length: Some(length.saturating_sub(taken)),
        },
        Some((_, None)) => Held { ty, length: None },
        None => Held { ty, length: None },
    }
}

/// Adds what a form binds by itself, if it binds, where so many items of an array at the place are left out.
pub(crate) fn bind_own<'a>(
    table: &TypeTable,
    kind: &'a PatKind,
    here: Place,
    taken: u64,
    bounds: &mut IndexSet<Bound<'a>>,
) -> Result<(), NoMemory>
    requires file { IsOfFile table.now }
    requires of { IsOf table.now here.ty }
    requires held { AreHeld table.now bounds.old.keys }
    ensures held { OnOk result (AreHeld table.now bounds.new.keys) }
    ensures binds { OnOk result ((s : Setting) (at : ℕ) (standing : Standing) (before : List (List ℕ)) →
        IsSettingOf table.now s →
        Binds (bounds_view table.now bounds.old.keys) (bounds_view table.now bounds.new.keys) (bound_list (bound_by s
        (node_at at (shape_view kind.now) standing (place (shortened (table_type table.now here.ty) taken) here.mode)
        before)))) }
{
    match kind {
        PatKind::Name(name) => bind_bare(table, name, here, taken, bounds),
        PatKind::Bind {
            name,
            by_ref,
            mutable,
            ..
        } => {
            let mode = written_mode(*by_ref, *mutable, here.mode);
            bind(table, name, here.ty, taken, mode, bounds)
        }
        PatKind::Wild => Ok(()),
        PatKind::Rest => Ok(()),
        PatKind::Lit(_) => Ok(()),
        PatKind::Range(_) => Ok(()),
        PatKind::Path(_) => Ok(()),
        PatKind::TupleForm { .. } => Ok(()),
        PatKind::Brace { .. } => Ok(()),
        PatKind::Tuple(_) => Ok(()),
        PatKind::Group(_) => Ok(()),
        PatKind::Slice(_) => Ok(()),
        PatKind::Point { .. } => Ok(()),
        PatKind::Or(_) => Ok(()),
    }
}

// Adds what a bare name binds, unless it is a path.
fn bind_bare<'a>(
    table: &TypeTable,
    name: &'a str,
    here: Place,
    taken: u64,
    bounds: &mut IndexSet<Bound<'a>>,
) -> Result<(), NoMemory>
    requires file { IsOfFile table.now }
    requires of { IsOf table.now here.ty }
    requires held { AreHeld table.now bounds.old.keys }
    ensures held { OnOk result (AreHeld table.now bounds.new.keys) }
    ensures binds { OnOk result ((s : Setting) → IsSettingOf table.now s →
        Binds (bounds_view table.now bounds.old.keys) (bounds_view table.now bounds.new.keys) (bound_list
        (bound_unless (is_path_name s name.now) (bound_name
        (place (shortened (table_type table.now here.ty) taken) here.mode) WrittenPlain name.now)))) }
{
    if is_path_name(table, name) {
        return Ok(());
    }
    bind(table, name, here.ty, taken, here.mode, bounds)
}

// Adds a name that holds what is at this type and has this mode.
fn bind<'a>(
    table: &TypeTable,
    name: &'a str,
    ty: TyId,
    taken: u64,
    mode: Mode,
    bounds: &mut IndexSet<Bound<'a>>,
) -> Result<(), NoMemory>
    requires of { IsOf table.now ty }
    requires held { AreHeld table.now bounds.old.keys }
    ensures held { OnOk result (AreHeld table.now bounds.new.keys) }
    ensures binds { OnOk result (Binds (bounds_view table.now bounds.old.keys) (bounds_view table.now bounds.new.keys)
        (record { name = name.now; type = shortened (table_type table.now ty) taken; mode = mode } ∷ [])) }
{
    let held = held_at(table, ty, taken);
    bounds.insert(Bound { name, held, mode })?;
    Ok(())
}

/// Adds all of these.
pub(crate) fn add_all<'a>(
    table: &TypeTable,
    bounds: &mut IndexSet<Bound<'a>>,
    more: &[Bound<'a>],
) -> Result<(), NoMemory>
    requires held { AreHeld table.now bounds.old.keys }
    requires more { AreHeld table.now more.now }
    ensures held { OnOk result (AreHeld table.now bounds.new.keys) }
    ensures binds { OnOk result (Binds (bounds_view table.now bounds.old.keys) (bounds_view table.now bounds.new.keys)
        (bounds_view table.now more.now)) }
{
    for bound in more {
        bounds.insert(*bound)?;
    }
    Ok(())
}

/// Whether both bind the same names with the same types and modes. The only error is want of memory.
pub(crate) fn bind_alike<'a>(
    alloc: Global,
    table: &TypeTable,
    first: &[Bound<'a>],
    other: &[Bound<'a>],
) -> Result<bool, NoMemory>
    requires first { AreHeld table.now first.now }
    requires other { AreHeld table.now other.now }
    ensures { IfOk result (λ b. b ≡ (are_among (bounds_view table.now first.now) (bounds_view table.now other.now)
        && are_among (bounds_view table.now other.now) (bounds_view table.now first.now))) }
{
    table.equal_types_have_one_number();
    have_same_members(alloc, first, other)
}
