// Marks of what is reached.
ghost use Rattle.std.specs.Prelude.{◌≡◌, Bool};
ghost use Rattle.pattern_matrix.specs.Counting.{Question, to_arm, through_alternative};

/// Marks of what is reached: of arms, and of alternatives, each of an arm. Neither call takes memory.
///
/// `is_marked` says which questions are marked.
pub trait Marked {
    ghost is_marked: { Self → Question → Bool };

    /// Tells whether some value comes to the arm with the number, from 0.
    fn has_arm(&self, arm: u32) -> bool
        ensures { result ≡ is_marked self.now (to_arm arm) };

    /// Tells whether some value comes through the alternative with the uid, of the arm.
    fn has_alternative(&self, arm: u32, uid: u64) -> bool
        ensures { result ≡ is_marked self.now (through_alternative arm uid) };
}
