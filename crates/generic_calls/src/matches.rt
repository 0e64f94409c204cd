//! Matches of a flag, and what takes them apart.
ghost use Rattle.std.specs.Prelude.{◌≡◌, length, IfOk};
ghost use Rattle.pat_context.specs.Toy.{toy_context, ToyValue};
ghost use Rattle.pat_context.specs.ToyLaws.{IsToyType};
ghost use Rattle.pattern_arena.specs.Meaning.{IsWellTyped, IsExhaustive, IsArmReachable};

use crate::patterns::{flag, flag_arm};
use bound_types::type_of_bound;
use bumpalo::Bump;
use keyed_matrix::{expanded_rows, first_column};
use no_memory::NoMemory;
use pat_context::toy::ToyTy;
use pat_context::{Ctor, Validity};
use pattern_arena::laws::placed_patterns_stand;
use pattern_arena::{CheckedMatch, Placer};
use std::alloc::Global;

/// The match of a flag with an arm for each of the two. It is well typed and exhaustive, and both arms are reachable,
/// so what the engine requires of a match can be met. The only error is want of memory.
pub fn both_flags<'a>(placer: &Placer<'a>) -> Result<CheckedMatch<'a, ToyTy>, NoMemory>
    ensures typed { IfOk result (λ m. IsWellTyped IsToyType toy_context m) }
    ensures exhaustive { IfOk result (λ m. IsExhaustive ToyValue m) }
    ensures reachable { IfOk result (λ m. IsArmReachable ToyValue m 0 × IsArmReachable ToyValue m 1) }
    ensures arms { IfOk result (λ m. length m.arms.now ≡ 2) }
{
    let first = flag_arm(placer, true, 1)?;
    let second = flag_arm(placer, false, 2)?;
    let arms = placer.place_arms(&[first, second])?;
    Ok(CheckedMatch {
        ty: ToyTy::Flag,
        validity: Validity::Sure,
        arms,
    })
}

/// The rows of such a match with their or-patterns taken apart, and their number by `keyed_matrix` and by
/// `pattern_matrix`. The only error is want of memory.
pub fn rows_of_both(alloc: Global) -> Result<(usize, usize), NoMemory> {
    let arena = Bump::new(alloc);
    let placer = Placer::new(&arena);
    let m = both_flags(&placer)?;
    let column = first_column(&m);
    let rows = keyed_matrix::first_rows(alloc, &m)?;
    let expanded = expanded_rows(alloc, &rows, 0, column.place)?;
    let plain = pattern_matrix::first_rows(alloc, &m)?;
    Ok((expanded.len(), plain.len()))
}

/// Whether a pattern without names binds `x`, and how many patterns stand at a place before and behind a call that
/// places one more. The only error is want of memory.
pub fn placed_patterns(alloc: Global) -> Result<(bool, usize), NoMemory> {
    let arena = Bump::new(alloc);
    let placer = Placer::new(&arena);
    let first = flag(&placer, Ctor::Flag(true), 1)?;
    let binds = type_of_bound(&first, "x").is_some();
    let placed = placer.place_subs(&[first])?;
    let more = [flag(&placer, Ctor::Wild, 2)?];
    let (before, next) = placed_patterns_stand(&placer, placed, &more);
    let count = before.len().saturating_add(next?.len());
    Ok((binds, count))
}
