// Stacks of witnesses.
ghost use Rattle.std.specs.Prelude.{◌≡◌, ◌∷◌, ◌<◌, ◌≤◌, ◌+◌, [], take, drop, replicate, length, IfOk, OnOk, OnErr};
ghost use Rattle.match_model.specs.Witness.{AnyOf};
ghost use Rattle.match_model.specs.WitnessList.{wrapped};
ghost use Rattle.pat_context.specs.Views.{plain_ctor};
ghost use Rattle.witnesses.specs.Views.{plain_witness, plain_names, plain_stack, tops};
ghost use Rattle.witnesses.specs.Rooms.{parts_of_witness, filled};

use crate::Witness;
use crate::witness::{anys, copy_all, pop_top, room_for};
use no_memory::NoMemory;
use pat_context::Ctor;
use std::alloc::Global;

/// Witnesses for open places, the first place on top.
#[derive(Drop)]
pub struct Stack {
    alloc: Global,
    // The top witness stands last.
    open: Vec<Witness>,
}

// Puts the witness in place of the top ones of a stack, whose top stands last, but for the first so many.
fn put_above(open: &mut Vec<Witness>, base: usize, w: Witness)
    requires { base < length open.old.items }
    ensures { tops open.new.items ≡ plain_witness w ∷ tops (take base open.old.items) }
{
    open.truncate(base + 1);
    open[base] = w;
}

// Puts the witness whose room was made in place of the top ones of a stack, whose top stands last: so many, at least one
// and as many as there is room for. Only want of memory stops it, and then the stack is as before.
fn wrap_top(open: &mut Vec<Witness>, count: usize, room: Witness) -> Result<(), NoMemory>
    requires some { 0 < count }
    requires there { count ≤ length open.old.items }
    requires fits { parts_of_witness (plain_witness room) ≤ count }
    ensures wrapped { OnOk result (tops open.new.items ≡ filled (plain_witness room)
        (tops open.old.items) ∷ drop count (tops open.old.items)) }
    ensures kept { OnErr result (open.new.items ≡ open.old.items) }
{
    let base = open.len() - count;
    open.insert(base, Witness::Any)?;
    let new = room.fill(open);
    put_above(open, base, new);
    Ok(())
}

impl Stack {
    /// The stack without a witness. It takes no memory.
    pub fn new(alloc: Global) -> Stack
        ensures { plain_stack result ≡ [] }
    {
        Stack {
            alloc,
            open: Vec::new(alloc),
        }
    }

    /// The stack with a witness that any value fits at each of so many places. The only error is want of memory.
    pub fn of_any(alloc: Global, count: usize) -> Result<Stack, NoMemory>
        ensures { IfOk result (λ s. plain_stack s ≡ replicate count AnyOf) }
    {
        let open = anys(alloc, count)?;
        Ok(Stack { alloc, open })
    }

    /// Puts a witness on top. The only error is want of memory, and then the stack is as before.
    #[tactic(auto, using(crate::proofs::Tops::top_steps))]
    pub fn push(&mut self, w: Witness) -> Result<(), NoMemory>
        ensures pushed { OnOk result (plain_stack self.new ≡ plain_witness w ∷ plain_stack self.old) }
        ensures kept { OnErr result (plain_stack self.new ≡ plain_stack self.old) }
    {
        self.open.push(w)?;
        Ok(())
    }

    /// Puts one witness of the constructor in place of the top ones, which are its parts, the topmost the first part.
    /// `others` are the texts that the column names. Where the constructor has as many parts as there are taken, the
    /// values that fit are those that the constructor builds and whose parts fit what was taken (a law of pattern_matrix,
    /// `wrapping_keeps_fits`). The only error is want of memory, and then the stack is as before.
    pub fn wrap(&mut self, ctor: &Ctor, arity: usize, others: &[&str]) -> Result<(), NoMemory>
        ensures wrapped { OnOk result (plain_stack self.new ≡ wrapped (plain_ctor ctor.now)
            (plain_names others.now) arity (plain_stack self.old)) }
        ensures kept { OnErr result (plain_stack self.new ≡ plain_stack self.old) }
    {
        let count = arity.min(self.open.len());
        let room = room_for(self.alloc, ctor, count, others)?;
        if count == 0 {
            self.open.push(room)?;
            Ok(())
        } else {
            wrap_top(&mut self.open, count, room)?;
            Ok(())
        }
    }

    /// The same stack again. The only error is want of memory.
    pub fn copy(&self) -> Result<Stack, NoMemory>
        ensures { IfOk result (λ s. plain_stack s ≡ plain_stack self.now) }
    {
        let open = copy_all(self.alloc, &self.open)?;
        let alloc = self.alloc;
        Ok(Stack { alloc, open })
    }

    /// Takes the top witness off; there is one. It takes no memory.
    pub fn pop(&mut self) -> Witness
        requires { 0 < length (plain_stack self.old) }
        ensures { plain_stack self.old ≡ plain_witness result ∷ plain_stack self.new }
    {
        pop_top(&mut self.open)
    }
}
