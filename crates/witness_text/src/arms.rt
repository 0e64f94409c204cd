// Witnesses as the patterns of arms.
ghost use Rattle.std.specs.Prelude.{◌≡◌, IfOk, string_bytes};
ghost use Rattle.witness_text.specs.Texts.{arm_text};
ghost use Rattle.witness_text.specs.Trees.{witness_view};

use crate::NamedWitness;
use crate::named::Style;
use crate::pattern::push_pattern;
use no_memory::NoMemory;
use std::alloc::Global;

/// The pattern of an arm that takes what the witness shows, as Rust writes patterns (the Rust Reference, "Patterns").
/// Several numbers or characters stand in parentheses. What lies beyond every literal of `usize` or `isize` is a range
/// from or to the nearest literal. It goes down level by level, and through references that follow one another in loops.
/// The only error is want of memory.
pub fn arm_text(alloc: Global, witness: &NamedWitness<'_>) -> Result<String, NoMemory>
    ensures { IfOk result (λ s. string_bytes s ≡ arm_text (witness_view witness.now)) }
{
    let mut text = String::new(alloc);
    push_pattern(&mut text, Style::Arm, witness)?;
    Ok(text)
}
