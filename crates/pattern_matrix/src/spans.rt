// Which pieces of a column the leaves have.
ghost use Rattle.std.specs.Prelude.{◌≡◌, ◌<◌, ◌++◌, ◌∷◌, [], length, true, false, IfOk, OnOk, Some, None, slice_get, ◌+◌};
ghost use Rattle.std.specs.Option.{option_to_list};
ghost use Rattle.match_model.specs.Rows.{first_ctor, is_wild, ctor_unless_wild};
ghost use Rattle.pat_context.specs.Views.{plain_ctor};
ghost use Rattle.constructor_sets.specs.Columns.{plain_ctors};
ghost use Rattle.constructor_sets.specs.Spans.{plain_span, AreSpans};
ghost use Rattle.pattern_matrix.specs.Sparse.{bare_head};
ghost use Rattle.pattern_matrix.specs.Views.{plain_leaves, plain_pattern};
ghost use Rattle.pattern_matrix.specs.Halving.{leaf_ctors, AreLeafSpans};
ghost use Rattle.pattern_matrix.specs.Parts.{plain_spans};

use crate::Leaf;
use crate::opening::is_wild_leaf;
use constructor_sets::Span;
use no_memory::NoMemory;
use pat_context::Ctor;
use pattern_arena::DePat;
use std::alloc::Global;

// Adds the constructor of the pattern, unless it is a wildcard.
#[tactic(auto, using(crate::proofs::LeafCtors::leaf_heads))]
fn add_ctor<'a, T: Copy>(
    ctors: &mut Vec<Ctor<'a>>,
    head: Option<&'a DePat<'a, T>>,
) -> Result<(), NoMemory>
    ensures { OnOk result (plain_ctors ctors.new.items ≡ plain_ctors ctors.old.items
        ++ option_to_list (first_ctor (bare_head (plain_pattern head.entry) ∷ []))) }
{
    match head {
        None => Ok(()),
        Some(p) => add_unless_wild(ctors, p.form.ctor),
    }
}

// Adds the constructor, unless it is a wildcard.
fn add_unless_wild<'a>(ctors: &mut Vec<Ctor<'a>>, ctor: Ctor<'a>) -> Result<(), NoMemory>
    ensures { OnOk result (plain_ctors ctors.new.items ≡ plain_ctors ctors.old.items ++ option_to_list (ctor_unless_wild (plain_ctor ctor.entry))) }
{
    match ctor {
        Ctor::Wild => Ok(()),
        _ => {
            ctors.push(ctor)?;
            Ok(())
        }
    }
}

/// The constructors of the leaves that are no wildcards, in order. The only error is want of memory.
pub fn leaf_ctors<'a, T: Copy>(
    alloc: Global,
    leaves: &[Leaf<'a, T>],
) -> Result<Vec<Ctor<'a>>, NoMemory>
    ensures { IfOk result (λ v. plain_ctors v.items ≡ leaf_ctors (plain_leaves leaves.now)) }
{
    let mut ctors = Vec::with_capacity(alloc, leaves.len())?;
    for leaf in leaves {
        add_ctor(&mut ctors, leaf.head)?;
    }
    Ok(ctors)
}

// The span of a leaf with this head, all pieces for a wildcard, and the number of the span that comes next.
fn next_span<'a, T: Copy>(
    head: Option<&'a DePat<'a, T>>,
    count: usize,
    spans: &[Span],
    used: usize,
) -> (Span, usize)
    requires { is_wild (plain_pattern head) ≡ false → used < length spans.now }
    ensures wild { is_wild (plain_pattern head.entry) ≡ true → (plain_span result.0 ≡ (0, count)) × (result.1 ≡ used) }
    ensures other { is_wild (plain_pattern head.entry) ≡ false → (slice_get (plain_spans spans.now) used ≡ Some (plain_span result.0)) × (result.1 ≡ used + 1) }
{
    if is_wild_leaf(head) {
        (
            Span {
                first: 0,
                end: count,
            },
            used,
        )
    } else {
        (spans[used], used + 1)
    }
}

/// For each leaf which of the pieces it has, where the spans tell it of those that are no wildcards, in order; a wildcard
/// has all. The only error is want of memory.
pub fn leaf_spans<'a, T: Copy>(
    alloc: Global,
    pieces: &[Ctor<'a>],
    leaves: &[Leaf<'a, T>],
    spans: &[Span],
) -> Result<Vec<Span>, NoMemory>
    requires { AreSpans (plain_ctors pieces.now) (leaf_ctors (plain_leaves leaves.now)) (plain_spans spans.now) }
    ensures { IfOk result (λ v. AreLeafSpans (plain_ctors pieces.now) (plain_leaves leaves.now) (plain_spans v.items)) }
{
    let mut all = Vec::with_capacity(alloc, leaves.len())?;
    let mut used = 0;
    for leaf in leaves {
        let (span, next) = next_span(leaf.head, pieces.len(), spans, used);
        all.push(span)?;
        used = next;
    }
    Ok(all)
}

/// The same, from spans that are taken over: where no leaf is a wildcard they are the result as they stand, and no list is
/// made.
pub fn into_leaf_spans<'a, T: Copy>(
    alloc: Global,
    pieces: &[Ctor<'a>],
    leaves: &[Leaf<'a, T>],
    spans: Vec<Span>,
) -> Result<Vec<Span>, NoMemory>
    requires { AreSpans (plain_ctors pieces.now) (leaf_ctors (plain_leaves leaves.now)) (plain_spans spans.items) }
    ensures { IfOk result (λ v. AreLeafSpans (plain_ctors pieces.now) (plain_leaves leaves.now) (plain_spans v.items)) }
{
    if spans.len() == leaves.len() {
        return Ok(spans);
    }
    let all = leaf_spans(alloc, pieces, leaves, &spans)?;
    Ok(all)
}
