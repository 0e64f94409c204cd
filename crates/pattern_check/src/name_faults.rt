// The rules that names, bindings and reference patterns break.
ghost use Rattle.std.specs.Prelude.{◌≡◌, ◌&&◌, ◌||◌, Bool, Option, not};
ghost use Rattle.match_model.specs.declared.Mode.{Mode as AnyMode};
ghost use Rattle.match_model.specs.Types.{MType};
ghost use Rattle.decl_syntax.specs.Patterns.{PatternTree, bind_shape};
ghost use Rattle.decl_syntax.specs.Patterns as patterns;
ghost use Rattle.type_names.specs.Finding.{FoundTree};
ghost use Rattle.type_table.specs.Paths.{FoundIs, FoundOf};
ghost use Rattle.type_table.specs.Tables.{IsOf, table_type};
ghost use Rattle.pattern_rules.specs.declared.Edition.{Edition as AnyEdition};
ghost use Rattle.pattern_rules.specs.Settings.{Setting, is_move};
ghost use Rattle.pattern_rules.specs.Namings.{is_tuple_form, is_unit_form};
ghost use Rattle.pattern_rules.specs.Nodes.{Standing as AnyStanding};
ghost use Rattle.pattern_rules.specs.NodeRules.{is_looked_up, name_is_twice, is_taken_name, misses};
ghost use Rattle.pattern_rules.specs.OtherRules.{is_free_edition};
ghost use Rattle.pattern_check.specs.Checking.{IsOfFile, IsSettingOf};
ghost use Rattle.pattern_check.specs.NodeForms.{OwnFaultIs, standing_view};

use crate::names::{is_found, is_twice, meets, name_form, name_found};
use crate::own_fault::{Standing, pick};
use crate::types::{Place, bottom_type, is_point};
use match_model::Mode;
use pattern_rules::Edition;
use pattern_rules::modes::may_write_mode;
use type_table::{FormKind, Found, TyId, TypeTable};

/// The least rule that a bare name breaks.
pub(crate) fn name_fault(
    table: &TypeTable,
    name: &str,
    standing: Standing,
    ty: TyId,
    twice: bool,
) -> Option<u32>
    requires file { IsOfFile table.now }
    requires of { IsOf table.now ty }
    ensures { (edition : AnyEdition) (m : AnyMode) → OwnFaultIs table.now edition (patterns.Name name.now)
        (standing_view standing) (table_type table.now ty) m twice result }
{
    let found = name_found(table, name);
    let last = pick(twice, 30, None);
    let missed = pick(misses(table, &found, bottom_type(table, ty)), 22, last);
    let taken = pick(is_tuple_form(name_form(table, name)), 21, missed);
    pick(name_is_twice(table, standing, name), 20, taken)
}

/// The least rule that a name with `ref`, `mut` or `@` breaks; `written` says that it is with `ref` or `mut`.
pub(crate) fn binding_fault(
    table: &TypeTable,
    edition: Edition,
    name: &str,
    written: bool,
    standing: Standing,
    mode: Mode,
    twice: bool,
) -> Option<u32>
    requires { IsOfFile table.now }
    ensures { (by_ref mutable : Bool) (sub : Option PatternTree) (t : MType) → written ≡ (by_ref || mutable)
        → OwnFaultIs table.now edition (bind_shape name.now by_ref mutable sub)
        (standing_view standing) t mode twice result }
{
    let moded = pick(writes_mode(edition, mode, written), 32, None);
    let again = pick(twice, 30, moded);
    let taken = pick(is_taken_name(table, standing, name), 21, again);
    pick(name_is_twice(table, standing, name), 20, taken)
}

/// The least rule that a reference pattern breaks.
pub(crate) fn point_fault(
    table: &TypeTable,
    edition: Edition,
    mutable: bool,
    place: Place,
) -> Option<u32>
    requires { IsOf table.now place.ty }
    ensures { (standing : AnyStanding) (p : PatternTree) (twice : Bool) → OwnFaultIs table.now edition
        (patterns.Point mutable p) standing (table_type table.now place.ty) place.mode twice result }
{
    let written = pick(writes_mode(edition, place.mode, true), 32, None);
    pick(!is_point(table, mutable, place.ty), 22, written)
}

// Whether a mode is written that may not be written under this binding mode.
fn writes_mode(edition: Edition, mode: Mode, written: bool) -> bool
    ensures { result ≡ (not (is_free_edition edition) && (not (is_move mode) && written)) }
{
    written && !may_write_mode(edition, mode)
}

// Whether a name that is looked up finds two variants.
fn name_is_twice(table: &TypeTable, standing: Standing, name: &str) -> bool
    ensures { (s : Setting) → IsSettingOf table.now s →
        result ≡ name_is_twice s (standing_view standing) name.now }
{
    is_looked_up(standing) && is_twice(table, &table.find_name(name))
}

// Whether a name that is looked up finds a unit or tuple form.
fn is_taken_name(table: &TypeTable, standing: Standing, name: &str) -> bool
    requires { IsOfFile table.now }
    ensures { (s : Setting) → IsSettingOf table.now s →
        result ≡ is_taken_name s (standing_view standing) name.now }
{
    is_looked_up(standing) && is_unit_or_tuple(name_form(table, name))
}

// Whether a name that stands so is looked up.
fn is_looked_up(standing: Standing) -> bool
    ensures { result ≡ is_looked_up (standing_view standing) }
{
    match standing {
        Standing::AsItem => true,
        Standing::AsName => false,
        Standing::Elsewhere => true,
    }
}

// Whether the form is the unit form or a tuple form.
fn is_unit_or_tuple(form: Option<FormKind>) -> bool
    ensures { result ≡ (is_unit_form form || is_tuple_form form) }
{
    match form {
        Some(FormKind::Unit) => true,
        Some(FormKind::Tuple) => true,
        Some(FormKind::Brace) => false,
        None => false,
    }
}

/// Whether the form is a tuple form.
pub(crate) fn is_tuple_form(form: Option<FormKind>) -> bool
    ensures { result ≡ is_tuple_form form }
{
    match form {
        Some(FormKind::Unit) => false,
        Some(FormKind::Tuple) => true,
        Some(FormKind::Brace) => false,
        None => false,
    }
}

/// Whether what was found, if anything was, does not meet the type.
pub(crate) fn misses(table: &TypeTable, found: &Found, ty: TyId) -> bool
    requires found { FoundOf table.now found.now }
    requires of { IsOf table.now ty }
    ensures { (told : FoundTree) → FoundIs table.now told found.now → result ≡ misses told (table_type table.now ty) }
{
    is_found(table, found) && !meets(table, found, ty)
}
