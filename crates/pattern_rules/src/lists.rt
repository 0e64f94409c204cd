//! Lists of items in patterns: their rests, and whether they have as many items as there are parts.
ghost use Rattle.std.specs.Prelude.{◌≡◌, map};
ghost use Rattle.decl_syntax.specs.Patterns.{pattern_view, shape_view, patterns_from};
ghost use Rattle.pattern_rules.specs.Nodes.{is_rest, is_dots};
ghost use Rattle.pattern_rules.specs.NodeRules.{rest_count, has_rests};

use decl_syntax::{Pat, PatKind};

/// Whether an item is a rest: `..`, or `name @ ..`.
pub fn is_rest(item: &Pat) -> bool
    ensures { result ≡ is_rest (pattern_view item.now) }
{
    match &item.kind {
        PatKind::Rest => true,
        PatKind::Wild | PatKind::Lit(_) | PatKind::Name(_) | PatKind::Path(_) => false,
        PatKind::Bind { sub, .. } => match sub {
            Some(sub) => is_dots(&sub.kind),
            None => false,
        },
        PatKind::TupleForm { .. } | PatKind::Brace { .. } | PatKind::Tuple(_) => false,
        PatKind::Group(_) | PatKind::Slice(_) | PatKind::Point { .. } => false,
        PatKind::Range(_) | PatKind::Or(_) => false,
    }
}

// Whether a form is `..`.
fn is_dots(kind: &PatKind) -> bool
    ensures { result ≡ is_dots (shape_view kind.now) }
{
    match kind {
        PatKind::Rest => true,
        PatKind::Wild | PatKind::Lit(_) | PatKind::Name(_) | PatKind::Path(_) => false,
        PatKind::Bind { sub, .. } => match sub {
            Some(_) => false,
            None => false,
        },
        PatKind::TupleForm { .. } | PatKind::Brace { .. } | PatKind::Tuple(_) => false,
        PatKind::Group(_) | PatKind::Slice(_) | PatKind::Point { .. } => false,
        PatKind::Range(_) | PatKind::Or(_) => false,
    }
}

/// How many rests a list has.
pub fn rest_count(items: &[Pat]) -> usize
    ensures { result ≡ rest_count (patterns_from (map pattern_view items.now)) }
{
    let mut count = 0;
    for item in items {
        if is_rest(item) {
            count += 1;
        }
    }
    count
}

/// Whether a list has two rests or more.
pub fn has_rests(items: &[Pat]) -> bool
    ensures { result ≡ has_rests (patterns_from (map pattern_view items.now)) }
{
    rest_count(items) > 1
}
