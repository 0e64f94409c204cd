// A Horn clause.

/// A Horn clause: the head holds where all atoms of the body hold. Where the body is empty the head holds outright.
///
/// An atom is a number, counted from 0. It may stand in a body more than once, which says no more than once.
#[derive(Debug, Drop)]
pub struct Clause {
    pub head: u32,
    pub body: Vec<u32>,
}

impl Clause {
    ghost use Rattle.std.specs.Prelude.{◌↔◌, IsTrue};
    ghost use Rattle.horn_clauses.specs.Marks.{IsWithin};

    /// Whether the head and each atom of the body is below `count`.
    pub fn is_within(&self, count: u32) -> bool
        ensures { IsTrue result ↔ IsWithin count self.now }
    {
        self.head < count && self.body.iter().all(|atom| *atom < count)
    }
}
