// Arms and matches of the engine.
use crate::DePat;
use pat_context::Validity;

/// An arm of a match.
#[derive(Clone, Copy)]
pub struct CheckedArm<'a, T: Copy> {
    pub pat: DePat<'a, T>,
    /// Whether the arm has a guard.
    pub guarded: bool,
}

/// A match: its scrutinee's type and whether that place is sure to hold a valid value, and the arms in order.
#[derive(Clone, Copy)]
pub struct CheckedMatch<'a, T: Copy> {
    pub ty: T,
    pub validity: Validity,
    pub arms: &'a [CheckedArm<'a, T>],
}
