// The rules that paths, forms, tuples and slices break.
ghost use Rattle.std.specs.Prelude.{◌≡◌, ◌&&◌, not, false, Bool, map, string_bytes, IfOk};
ghost use Rattle.match_model.specs.declared.Mode.{Mode as AnyMode};
ghost use Rattle.decl_syntax.specs.Patterns.{path_view, pattern_view, patterns_from, field_view, fields_from};
ghost use Rattle.decl_syntax.specs.Patterns as patterns;
ghost use Rattle.type_names.specs.Finding.{FoundTree};
ghost use Rattle.type_table.specs.Paths.{FoundIs, FoundOf};
ghost use Rattle.type_table.specs.Lookups.{field_names};
ghost use Rattle.type_table.specs.Tables.{IsOf, table_program, table_type, type_variant};
ghost use Rattle.pattern_rules.specs.declared.Edition.{Edition as AnyEdition};
ghost use Rattle.pattern_rules.specs.Settings.{Setting};
ghost use Rattle.pattern_rules.specs.Namings.{is_unit_form};
ghost use Rattle.pattern_rules.specs.Nodes.{Standing as AnyStanding};
ghost use Rattle.pattern_rules.specs.NodeRules.{is_tuple, misfits_form, written_names, some_absent};
ghost use Rattle.pattern_check.specs.Checking.{IsOfFile, IsSettingOf, IsMet};
ghost use Rattle.pattern_check.specs.NodeForms.{OwnFaultIs, field_rules};

use crate::counts::has_other_count;
use crate::fields::{field_count, variant_names};
use crate::name_faults::is_tuple_form;
use crate::names::{found_number, is_found, meets, path_found};
use crate::own_fault::pick;
use crate::types::{bottom_type, is_tuple, row_of};
use decl_syntax::{FieldPat, Pat, Path};
use list_members::names_are_among;
use no_memory::NoMemory;
use pattern_rules::fields::{names_field_twice, written_names};
use pattern_rules::lists::{has_rests, rest_count};
use pattern_rules::paths::is_short;
use std::alloc::Global;
use type_table::{FormKind, Found, TyId, TypeTable};

/// The least rule that a path breaks.
pub(crate) fn path_fault(table: &TypeTable, path: &Path, ty: TyId) -> Option<u32>
    requires file { IsOfFile table.now }
    requires of { IsOf table.now ty }
    ensures { (edition : AnyEdition) (standing : AnyStanding) (m : AnyMode) (twice : Bool) →
        OwnFaultIs table.now edition (patterns.Path (path_view path.now))
        standing (table_type table.now ty) m twice result }
{
    let found = path_found(table, path);
    if !is_found(table, &found) {
        return pick(is_short(path), 20, Some(35));
    }
    if !meets(table, &found, bottom_type(table, ty)) {
        return Some(22);
    }
    pick(!is_unit_form(table.form(&found)), 23, None)
}

// Whether the form is the unit form.
fn is_unit_form(form: Option<FormKind>) -> bool
    ensures { result ≡ is_unit_form form }
{
    match form {
        Some(FormKind::Unit) => true,
        Some(FormKind::Tuple) => false,
        Some(FormKind::Brace) => false,
        None => false,
    }
}

/// The least rule that a tuple-struct pattern breaks.
pub(crate) fn tuple_form_fault(
    table: &TypeTable,
    path: &Path,
    items: &[Pat],
    ty: TyId,
) -> Option<u32>
    requires file { IsOfFile table.now }
    requires of { IsOf table.now ty }
    ensures { (edition : AnyEdition) (standing : AnyStanding) (m : AnyMode) (twice : Bool) →
        OwnFaultIs table.now edition (patterns.TupleForm (path_view path.now)
        (patterns_from (map pattern_view items.now))) standing
        (table_type table.now ty) m twice result }
{
    let found = path_found(table, path);
    if !is_found(table, &found) {
        let unread = pick(has_rests(items), 27, Some(35));
        return pick(is_short(path), 20, unread);
    }
    let met = bottom_type(table, ty);
    if !meets(table, &found, met) {
        return Some(22);
    }
    let rests = pick(has_rests(items), 27, None);
    pick(misfits_form(table, &found, items, met), 23, rests)
}

// Whether a list with at most one rest is not that of the tuple form that was found.
fn misfits_form(table: &TypeTable, found: &Found, items: &[Pat], ty: TyId) -> bool
    requires found { FoundOf table.now found.now }
    requires of { IsOf table.now ty }
    ensures { (s : Setting) (told : FoundTree) → IsSettingOf table.now s → FoundIs table.now told found.now →
        IsMet s told (table_type table.now ty)
        → result ≡ misfits_form s told (patterns_from (map pattern_view items.now)) }
{
    if rest_count(items) > 1 {
        return false;
    }
    !is_tuple_form(table.form(found))
        || has_other_count(items, field_count(table, found, ty) as usize)
}

/// The least rule that a brace pattern breaks. The only error is want of memory.
pub(crate) fn brace_fault(
    alloc: Global,
    table: &TypeTable,
    path: &Path,
    fields: &[FieldPat],
    rest: bool,
    ty: TyId,
) -> Result<Option<u32>, NoMemory>
    requires file { IsOfFile table.now }
    requires of { IsOf table.now ty }
    ensures { (edition : AnyEdition) (standing : AnyStanding) (m : AnyMode) (twice : Bool) → IfOk result (OwnFaultIs
        table.now edition (patterns.Brace (path_view path.now) (fields_from (map field_view fields.now)) rest)
        standing (table_type table.now ty) m twice) }
{
    let found = path_found(table, path);
    if !is_found(table, &found) {
        let unread = pick(names_field_twice(alloc, fields)?, 25, Some(35));
        return Ok(pick(is_short(path), 20, unread));
    }
    let met = bottom_type(table, ty);
    if !meets(table, &found, met) {
        return Ok(Some(22));
    }
    table.types_are_sound();
    field_fault(alloc, table, met, found_number(table, &found), fields, rest)
}

// The least rule that the written fields of a variant of a type break.
fn field_fault(
    alloc: Global,
    table: &TypeTable,
    ty: TyId,
    variant: u32,
    fields: &[FieldPat],
    rest: bool,
) -> Result<Option<u32>, NoMemory>
    requires of { IsOf table.now ty }
    requires named { is_tuple (table_type table.now ty) ≡ false }
    ensures { IfOk result (λ r. r ≡ field_rules
        (field_names (type_variant (table_program table.now) (table_type table.now ty) variant))
        (written_names (fields_from (map field_view fields.now))) rest) }
{
    let missing = pick(
        misses_field(alloc, table, ty, variant, fields, rest)?,
        26,
        None,
    );
    let again = pick(names_field_twice(alloc, fields)?, 25, missing);
    Ok(pick(names_no_field(table, ty, variant, fields), 24, again))
}

// Whether a written field is none of the variant.
fn names_no_field(table: &TypeTable, ty: TyId, variant: u32, fields: &[FieldPat]) -> bool
    requires { IsOf table.now ty }
    ensures { result ≡ some_absent (written_names (fields_from (map field_view fields.now)))
        (field_names (type_variant (table_program table.now) (table_type table.now ty) variant)) }
{
    for field in fields {
        if table.field_named(ty, variant, &field.name).is_none() {
            return true;
        }
    }
    false
}

// Whether a field of the variant is not written, and neither is a rest.
fn misses_field(
    alloc: Global,
    table: &TypeTable,
    ty: TyId,
    variant: u32,
    fields: &[FieldPat],
    rest: bool,
) -> Result<bool, NoMemory>
    requires of { IsOf table.now ty }
    requires named { is_tuple (table_type table.now ty) ≡ false }
    ensures { IfOk result (λ b. b ≡ (not rest && some_absent
        (field_names (type_variant (table_program table.now) (table_type table.now ty) variant))
        (written_names (fields_from (map field_view fields.now))))) }
{
    if rest {
        return Ok(false);
    }
    let declared = variant_names(alloc, table, ty, variant)?;
    let texts = as_texts(alloc, &declared)?;
    let written = written_names(alloc, fields)?;
    let all = names_are_among(alloc, &texts, &written)?;
    Ok(!all)
}

// The names as texts.
fn as_texts<'a>(alloc: Global, names: &'a [String]) -> Result<Vec<&'a str>, NoMemory>
    ensures { IfOk result (λ v. map (λ n. n.now) v.items ≡ map string_bytes names.now) }
{
    let mut texts = Vec::new(alloc);
    for name in names {
        texts.push(name.as_str())?;
    }
    Ok(texts)
}

/// The least rule that a tuple pattern breaks.
pub(crate) fn tuple_fault(table: &TypeTable, items: &[Pat], ty: TyId) -> Option<u32>
    requires { IsOf table.now ty }
    ensures { (edition : AnyEdition) (standing : AnyStanding) (m : AnyMode) (twice : Bool) →
        OwnFaultIs table.now edition (patterns.Tuple (patterns_from (map pattern_view items.now)))
        standing (table_type table.now ty) m twice result }
{
    let met = bottom_type(table, ty);
    if !is_tuple(table, met) {
        return Some(22);
    }
    let rests = pick(has_rests(items), 27, None);
    pick(
        has_other_count(items, table.fields(met, 0) as usize),
        23,
        rests,
    )
}

/// The least rule that a slice pattern breaks.
pub(crate) fn slice_fault(table: &TypeTable, items: &[Pat], ty: TyId) -> Option<u32>
    requires { IsOf table.now ty }
    ensures { (edition : AnyEdition) (standing : AnyStanding) (m : AnyMode) (twice : Bool) →
        OwnFaultIs table.now edition (patterns.Slice (patterns_from (map pattern_view items.now)))
        standing (table_type table.now ty) m twice result }
{
    let rests = pick(has_rests(items), 27, None);
    match row_of(table, bottom_type(table, ty)) {
        Some((_, Some(len))) => pick(has_other_count(items, len as usize), 23, rests),
        Some((_, None)) => rests,
        None => Some(22),
    }
}
