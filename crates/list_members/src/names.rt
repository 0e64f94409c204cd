// Lists of texts.
ghost use Rattle.std.specs.Prelude.{◌≡◌, [], map, IfOk};
ghost use Rattle.std.specs.Str.{bytes_eq};
ghost use Rattle.list_members.specs.Members.{are_among, repeats};

use crate::members::{are_among, repeats};
use no_memory::NoMemory;
use std::alloc::Global;

/// Whether a name stands twice in the list. The only error is want of memory.
pub fn names_repeat(alloc: Global, names: &[&str]) -> Result<bool, NoMemory>
    ensures { IfOk result (λ b. b ≡ repeats bytes_eq [] (map (λ n. n.now) names.now)) }
{
    repeats(alloc, names)
}

/// Whether all names of the first list are among the second. The only error is want of memory.
pub fn names_are_among(alloc: Global, first: &[&str], second: &[&str]) -> Result<bool, NoMemory>
    ensures { IfOk result
        (λ b. b ≡ are_among bytes_eq (map (λ n. n.now) first.now) (map (λ n. n.now) second.now)) }
{
    are_among(alloc, first, second)
}
