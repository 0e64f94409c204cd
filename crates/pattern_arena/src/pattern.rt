// Patterns by constructors, and the names that they bind.
ghost use Rattle.std.specs.Prelude.{◌≡◌, ◌<◌, length, map, slice_get, Some};
ghost use Rattle.match_model.specs.Constructors.{OrCtor};
ghost use Rattle.match_model.specs.ArenaPatterns.{subs_of};
ghost use Rattle.pattern_arena.specs.Trees.{tree, placed_ctor, placed_subs};

use match_model::Mode;
use pat_context::Ctor;
use std::alloc::AllocError;

/// What a name holds of the value that its pattern matches.
#[derive(Clone, Copy, Debug, PartialEq, Eq)]
pub enum Part {
    /// All of it.
    Whole,
    /// Of a row the items without so many at each end.
    Middle { front: u64, back: u64 },
}

/// A name that a pattern binds, and how (Rust Reference, Binding modes).
#[derive(Clone, Copy, Debug)]
pub struct Bound<'a> {
    pub name: &'a str,
    pub mode: Mode,
    pub part: Part,
}

/// What a pattern is, but for its number and its offset, over patterns `P`. Patterns that are alike may share one form.
#[derive(Clone, Copy)]
pub struct Form<'a, T: Copy, P: Copy> {
    pub ctor: Ctor<'a>,
    /// The type of the values that it matches.
    pub ty: T,
    /// One pattern for each part of the constructor; the alternatives of an or-pattern; of a row with a rest the items
    /// at the front and then those at the back.
    pub subs: &'a [P],
    pub binds: &'a [Bound<'a>],
}

/// A pattern of the engine.
#[derive(Copy)]
pub struct DePat<'a, T: Copy> {
    pub form: &'a Form<'a, T, DePat<'a, T>>,
    /// The number that the pattern is known by; no other pattern of a match has it.
    pub uid: u64,
    /// The byte offset in the file.
    pub at: u64,
}

// Written out, since a pattern stands within its own form: for such a type the compiler proves no derived `Clone`.
impl<'a, T: Copy> Clone for DePat<'a, T> {
    ghost is_clone = { λ pattern copy. copy ≡ pattern };

    ghost is_infallible = { λ _. Unit {0} };

    fn clone(&self) -> Result<Self, AllocError> {
        Ok(*self)
    }
}

impl<'a, T: Copy> DePat<'a, T> {
    /// The pattern of the part with the number `i`, from 0. It is lent, and takes no memory.
    pub fn sub(&self, i: usize) -> &'a DePat<'a, T>
        requires { i < length (placed_subs self.now) }
        ensures is { slice_get (placed_subs self.now) i ≡ Some result.now }
        ensures tree { slice_get (subs_of (tree self.now)) i ≡ Some (tree result.now) }
    {
        &self.form.subs[i]
    }

    /// The alternatives of an or-pattern, in order. They are lent, and take no memory.
    pub fn alternatives(&self) -> &'a [DePat<'a, T>]
        requires { placed_ctor self.now ≡ OrCtor }
        ensures are { result.now ≡ placed_subs self.now }
        ensures trees { map tree result.now ≡ subs_of (tree self.now) }
    {
        let alternatives = self.form.subs;
        alternatives
    }
}
