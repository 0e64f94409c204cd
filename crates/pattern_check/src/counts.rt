//! Whether a list in a pattern has as many items as there are parts.
ghost use Rattle.std.specs.Prelude.{◌≡◌, ◌&&◌, ◌||◌, suc, not, nat_eq, nat_lt, map};
ghost use Rattle.decl_syntax.specs.Patterns.{pattern_view, patterns_from};
ghost use Rattle.pattern_rules.specs.NodeRules.{has_other_count};

use decl_syntax::Pat;
use pattern_rules::lists::rest_count;

/// Whether a list with at most one rest does not have so many parts: without a rest another number of items, or with
/// one more items beside it.
pub fn has_other_count(items: &[Pat], parts: usize) -> bool
    ensures { result ≡ has_other_count (patterns_from (map pattern_view items.now)) parts }
{
    counts_differ(rest_count(items), items.len(), parts)
}

// Whether so many items, with so many rests among them, are not as many as the parts.
#[tactic(auto, using(std::proofs::lemmas::Bool::Decides::nat_tests))]
fn counts_differ(rests: usize, items: usize, parts: usize) -> bool
    ensures { result ≡ ((nat_eq rests 0 && not (nat_eq items parts))
        || (nat_eq rests 1 && nat_lt (suc parts) items)) }
{
    match rests {
        0 => items != parts,
        1 => items.saturating_sub(1) > parts,
        _ => false,
    }
}
