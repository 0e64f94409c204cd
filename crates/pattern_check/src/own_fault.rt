//! The least rule that one node of a pattern breaks by itself.
ghost use Rattle.std.specs.Prelude.{◌≡◌, ◌||◌, IfOk};
ghost use Rattle.decl_syntax.specs.Patterns.{shape_view};
ghost use Rattle.type_table.specs.Tables.{IsOf, table_type};
ghost use Rattle.pattern_check.specs.Checking.{IsOfFile};
ghost use Rattle.pattern_check.specs.NodeForms.{OwnFaultIs, pick, standing_view};

use crate::form_faults::{brace_fault, path_fault, slice_fault, tuple_fault, tuple_form_fault};
use crate::literal_faults::{literal_fault, range_fault};
use crate::name_faults::{binding_fault, name_fault, point_fault};
use crate::types::Place;
use decl_syntax::PatKind;
use no_memory::NoMemory;
use pattern_rules::Edition;
use std::alloc::Global;
use type_table::TypeTable;

/// Where a node stands beside its type: as an item of a slice pattern, as a field that is written by its name alone, or
/// anywhere else.
#[derive(Clone, Copy, Debug, PartialEq, Eq)]
pub enum Standing {
    AsItem,
    AsName,
    Elsewhere,
}

/// The least rule that a node of this form breaks by itself, rule 31 left out; `twice` says that it binds a name that
/// an earlier node of the arm binds. The only error is want of memory.
pub fn least_broken(
    alloc: Global,
    table: &TypeTable,
    edition: Edition,
    kind: &PatKind,
    standing: Standing,
    place: Place,
    twice: bool,
) -> Result<Option<u32>, NoMemory>
    requires file { IsOfFile table.now }
    requires of { IsOf table.now place.ty }
    ensures { IfOk result (OwnFaultIs table.now edition (shape_view kind.now) (standing_view standing)
        (table_type table.now place.ty) place.mode twice) }
{
    match kind {
        PatKind::Wild => Ok(None),
        PatKind::Rest => Ok(None),
        PatKind::Group(_) => Ok(None),
        PatKind::Or(_) => Ok(None),
        PatKind::Lit(lit) => Ok(literal_fault(table, lit, place.ty)),
        PatKind::Range(range) => Ok(range_fault(table, range, standing, place.ty)),
        PatKind::Name(name) => Ok(name_fault(table, name, standing, place.ty, twice)),
        PatKind::Bind {
            name,
            by_ref,
            mutable,
            ..
        } => Ok(binding_fault(
            table,
            edition,
            name,
            is_written(*by_ref, *mutable),
            standing,
            place.mode,
            twice,
        )),
        PatKind::Path(path) => Ok(path_fault(table, path, place.ty)),
        PatKind::TupleForm { path, items } => Ok(tuple_form_fault(table, path, items, place.ty)),
        PatKind::Brace { path, fields, rest } => brace_fault(
            alloc, table, path, fields, *rest, place.ty,
        ),
        PatKind::Tuple(items) => Ok(tuple_fault(table, items, place.ty)),
        PatKind::Slice(items) => Ok(slice_fault(table, items, place.ty)),
        PatKind::Point { mutable, .. } => Ok(point_fault(table, edition, *mutable, place)),
    }
}

// Whether a name is written with `ref` or `mut`.
fn is_written(by_ref: bool, mutable: bool) -> bool
    ensures { result ≡ (by_ref || mutable) }
{
    by_ref || mutable
}

/// The rule, if it is broken, or else what is told of the later ones.
pub(crate) fn pick(broken: bool, rule: u32, rest: Option<u32>) -> Option<u32>
    ensures { result ≡ pick broken rule rest }
{
    if broken { Some(rule) } else { rest }
}
