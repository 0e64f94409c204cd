//! The levels of a pattern.
ghost use Rattle.std.specs.Prelude.{◌≡◌, map};
ghost use Rattle.decl_syntax.specs.Patterns.{pattern_view, shape_view, patterns_from, fits, fits_within, all_fit, field_view, fields_from, fields_fit};

use crate::tree::{FieldPat, Pat, PatKind};

/// Whether a pattern has at most so many levels: one for each node on each way down.
#[cycle(levels)]
pub fn fits(pattern: &Pat, levels: u32) -> bool
    ensures { result ≡ fits (pattern_view pattern.now) levels }
{
    if levels == 0 {
        return false;
    }
    fits_within(&pattern.kind, levels - 1)
}

/// Whether what is within a form has at most so many levels.
#[cycle(levels)]
fn fits_within(kind: &PatKind, levels: u32) -> bool
    ensures { result ≡ fits_within (shape_view kind.now) levels }
{
    match kind {
        PatKind::Wild | PatKind::Rest | PatKind::Lit(_) | PatKind::Name(_) => true,
        PatKind::Path(_) | PatKind::Range(_) => true,
        PatKind::Bind { sub, .. } => match sub {
            Some(sub) => fits(sub, levels),
            None => true,
        },
        PatKind::TupleForm { items, .. } => all_fit(items, levels),
        PatKind::Brace { fields, .. } => fields_fit(fields, levels),
        PatKind::Tuple(items) => all_fit(items, levels),
        PatKind::Group(inner) => fits(inner, levels),
        PatKind::Slice(items) => all_fit(items, levels),
        PatKind::Point { inner, .. } => fits(inner, levels),
        PatKind::Or(items) => all_fit(items, levels),
    }
}

/// Whether each pattern of a list has at most so many levels.
#[cycle(levels)]
fn all_fit(items: &Vec<Pat>, levels: u32) -> bool
    ensures { result ≡ all_fit (patterns_from (map pattern_view items.now.items)) levels }
{
    for item in items {
        if !fits(item, levels) {
            return false;
        }
    }
    true
}

/// Whether the pattern of each field has at most so many levels.
#[cycle(levels)]
fn fields_fit(fields: &Vec<FieldPat>, levels: u32) -> bool
    ensures { result ≡ fields_fit (fields_from (map field_view fields.now.items)) levels }
{
    for field in fields {
        if !fits(&field.pat, levels) {
            return false;
        }
    }
    true
}
