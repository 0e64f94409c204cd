//! How many parts the lists of types and patterns have.
ghost use Rattle.std.specs.Prelude.{◌≡◌, map};
ghost use Rattle.decl_syntax.specs.Types.{type_view, types_from};
ghost use Rattle.decl_syntax.specs.Patterns.{pattern_view, shape_view, patterns_from, field_view, fields_from};
ghost use Rattle.decl_syntax.specs.Widths.{type_is_wide, types_are_wide, some_type_is_wide, pattern_is_wide, shape_is_wide, list_is_wide, fields_are_wide, some_pattern_is_wide, some_field_is_wide};

use crate::tree::{FieldPat, Pat, PatKind};
use crate::ty::Ty;

/// How many fields a form, parts a tuple type, and items or fields a list in a pattern may have (our own choice).
pub const MOST_PARTS: usize = 256;

/// Whether some tuple in a type has more than 256 parts.
#[cycle(type_widths)]
pub fn type_is_wide(ty: &Ty) -> bool
    ensures { result ≡ type_is_wide (type_view ty.now) }
{
    match ty {
        Ty::Never => false,
        Ty::Tuple(parts) => types_are_wide(parts),
        Ty::Point { inner, .. } => type_is_wide(inner),
        Ty::Slice(item) => type_is_wide(item),
        Ty::Array { item, .. } => type_is_wide(item),
        Ty::Named { args, .. } => some_type_is_wide(args),
    }
}

/// The same of the parts of a tuple.
#[cycle(type_widths)]
fn types_are_wide(types: &Vec<Ty>) -> bool
    ensures { result ≡ types_are_wide (types_from (map type_view types.now.items)) }
{
    if types.len() > MOST_PARTS {
        return true;
    }
    some_type_is_wide(types)
}

/// The same of some type of a list.
#[cycle(type_widths)]
fn some_type_is_wide(types: &Vec<Ty>) -> bool
    ensures { result ≡ some_type_is_wide (types_from (map type_view types.now.items)) }
{
    for ty in types {
        if type_is_wide(ty) {
            return true;
        }
    }
    false
}

/// Whether some list in a pattern has more than 256 items or fields. A `..` is an item of a list; in braces it is no
/// field.
#[cycle(pattern_widths)]
pub fn pattern_is_wide(pattern: &Pat) -> bool
    ensures { result ≡ pattern_is_wide (pattern_view pattern.now) }
{
    shape_is_wide(&pattern.kind)
}

/// The same of a pattern's form.
#[cycle(pattern_widths)]
fn shape_is_wide(kind: &PatKind) -> bool
    ensures { result ≡ shape_is_wide (shape_view kind.now) }
{
    match kind {
        PatKind::Wild | PatKind::Rest | PatKind::Lit(_) | PatKind::Name(_) => false,
        PatKind::Path(_) | PatKind::Range(_) => false,
        PatKind::Bind { sub, .. } => match sub {
            Some(sub) => pattern_is_wide(sub),
            None => false,
        },
        PatKind::TupleForm { items, .. } => list_is_wide(items),
        PatKind::Brace { fields, .. } => fields_are_wide(fields),
        PatKind::Tuple(items) => list_is_wide(items),
        PatKind::Group(inner) => pattern_is_wide(inner),
        PatKind::Slice(items) => list_is_wide(items),
        PatKind::Point { inner, .. } => pattern_is_wide(inner),
        PatKind::Or(items) => some_pattern_is_wide(items),
    }
}

/// The same of a list of items.
#[cycle(pattern_widths)]
fn list_is_wide(items: &Vec<Pat>) -> bool
    ensures { result ≡ list_is_wide (patterns_from (map pattern_view items.now.items)) }
{
    if items.len() > MOST_PARTS {
        return true;
    }
    some_pattern_is_wide(items)
}

/// The same of the fields of a brace pattern.
#[cycle(pattern_widths)]
fn fields_are_wide(fields: &Vec<FieldPat>) -> bool
    ensures { result ≡ fields_are_wide (fields_from (map field_view fields.now.items)) }
{
    if fields.len() > MOST_PARTS {
        return true;
    }
    some_field_is_wide(fields)
}

/// The same of some pattern of a list.
#[cycle(pattern_widths)]
fn some_pattern_is_wide(items: &Vec<Pat>) -> bool
    ensures { result ≡ some_pattern_is_wide (patterns_from (map pattern_view items.now.items)) }
{
    for item in items {
        if pattern_is_wide(item) {
            return true;
        }
    }
    false
}

/// The same of the pattern of some field.
#[cycle(pattern_widths)]
fn some_field_is_wide(fields: &Vec<FieldPat>) -> bool
    ensures { result ≡ some_field_is_wide (fields_from (map field_view fields.now.items)) }
{
    for field in fields {
        if pattern_is_wide(&field.pat) {
            return true;
        }
    }
    false
}
