// Pieces and cases.
ghost use Rattle.std.specs.Prelude.{◌≡◌, IfOk, true, false};
ghost use Rattle.match_model.specs.DecisionTrees.{case_of, is_switchless};
ghost use Rattle.pat_context.specs.Views.{plain_ctor, plain_set};
ghost use Rattle.tree_eval.specs.Nodes.{plain_case};

use no_memory::NoMemory;
use pat_context::{Ctor, CtorSet};
use slice_split::Shape;
use std::alloc::Global;
use tree_eval::Case;

// Tells whether the parts of the type take its place without a node.
pub(crate) fn is_switchless(set: &CtorSet) -> bool
    ensures { result ≡ is_switchless (plain_set set.now) }
{
    match set {
        CtorSet::Single => true,
        CtorSet::Point => true,
        CtorSet::Rows { len: Some(_) } => true,
        _ => false,
    }
}

// The case of the piece.
pub(crate) fn case_of(alloc: Global, piece: &Ctor) -> Result<Case, NoMemory>
    ensures { IfOk result (λ c. plain_case c ≡ case_of (plain_ctor piece.now)) }
{
    match piece {
        Ctor::Variant(k) => Ok(Case::Variant(*k)),
        Ctor::Flag(b) => Ok(Case::Flag(*b)),
        Ctor::Numbers(r) => Ok(Case::Span(*r)),
        Ctor::Text(t) => Ok(Case::Text(String::from_str(alloc, t)?)),
        Ctor::Row(Shape::Fixed(n)) => Ok(Case::Length(*n)),
        Ctor::Row(Shape::Longer { front, back }) => Ok(Case::Longer {
            front: *front,
            back: *back,
        }),
        _ => Ok(Case::Else),
    }
}
