// Placing patterns in an arena.
ghost use Rattle.std.specs.Prelude.{◌≡◌, [], IfOk};

use crate::{Bound, CheckedArm, DePat, Form};
use bumpalo::Bump;
use bumpalo::collections::into_bump_slice;
use no_memory::NoMemory;
use std::alloc::Global;

/// Places patterns in an arena, from which they are lent as long as it is not reset. What stands there already is not
/// changed by any call, and stays also where a call is refused memory.
#[derive(Clone, Copy)]
pub struct Placer<'a> {
    arena: &'a Bump<Global>,
}

impl<'a> Placer<'a> {
    /// A placer for the arena. It takes no memory.
    pub fn new(arena: &'a Bump<Global>) -> Placer<'a> {
        Placer { arena }
    }

    /// Places these patterns. The only error is want of memory.
    pub fn place_subs<T: Copy>(&self, subs: &[DePat<'a, T>]) -> Result<&'a [DePat<'a, T>], NoMemory>
        ensures { IfOk result (λ placed. placed.now ≡ subs.now) }
    {
        let placed = self.arena.try_alloc_slice_copy(subs)?;
        Ok(placed)
    }

    /// Places this form. The only error is want of memory.
    pub fn place_form<T: Copy>(
        &self,
        form: Form<'a, T, DePat<'a, T>>,
    ) -> Result<&'a Form<'a, T, DePat<'a, T>>, NoMemory>
        ensures { IfOk result (λ placed. placed.now ≡ form.entry) }
    {
        let placed = self.arena.try_alloc(form)?;
        Ok(placed)
    }

    /// Places these names. The only error is want of memory.
    pub fn place_binds(&self, binds: &[Bound<'a>]) -> Result<&'a [Bound<'a>], NoMemory>
        ensures { IfOk result (λ placed. placed.now ≡ binds.now) }
    {
        let placed = self.arena.try_alloc_slice_copy(binds)?;
        Ok(placed)
    }

    /// Places this text. The only error is want of memory.
    pub fn place_text(&self, text: &str) -> Result<&'a str, NoMemory>
        ensures { IfOk result (λ placed. placed.now ≡ text.now) }
    {
        let placed = self.arena.try_alloc_str(text)?;
        Ok(placed)
    }

    /// Places these arms. The only error is want of memory.
    pub fn place_arms<T: Copy>(
        &self,
        arms: &[CheckedArm<'a, T>],
    ) -> Result<&'a [CheckedArm<'a, T>], NoMemory>
        ensures { IfOk result (λ placed. placed.now ≡ arms.now) }
    {
        let placed = self.arena.try_alloc_slice_copy(arms)?;
        Ok(placed)
    }

    /// An empty list in the arena with room for so many things, which may grow beyond. The only error is want of memory.
    pub fn list_with_room<E: Copy>(&self, room: usize) -> Result<Vec<E, &'a Bump<Global>>, NoMemory>
        ensures { IfOk result (λ list. list.items ≡ []) }
    {
        let list = Vec::with_capacity(self.arena, room)?;
        Ok(list)
    }

    /// Places what stands in a list of the arena, where it stands already. It takes no memory.
    pub fn place_list<E: Copy>(&self, list: Vec<E, &'a Bump<Global>>) -> &'a [E]
        ensures { result.now ≡ list.entry.items }
    {
        into_bump_slice(list)
    }
}
