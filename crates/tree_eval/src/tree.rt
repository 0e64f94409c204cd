// Decision trees, and their nodes.
ghost use Rattle.std.specs.Prelude.{◌≡◌, ◌==◌, ◌++◌, true, false};
ghost use Rattle.std.proofs.Common.{rules};
ghost use Rattle.std.specs.Hash as fed;
ghost use Rattle.std.specs.Cmp.Lexicographic.{pointwise};
ghost use Rattle.std.specs.Cmp.Rules.{comparing, hashing};

use match_model::Mode;
use pat_context::Place;
use range_split::Range;

/// A decision tree: its nodes, of which the first is the root. Where a node goes on, it goes on at nodes with greater
/// numbers; a node's number is its index.
#[derive(Debug, Drop)]
pub struct Tree {
    pub nodes: Vec<Node>,
}

/// A node of a tree.
#[derive(Debug, PartialEq, Eq, Hash, Drop)]
pub enum Node {
    /// Looks at a place, and goes on at the node of the first case that has the part there.
    Switch {
        place: Place,
        cases: Vec<(Case, u64)>,
    },
    /// Asks the guard of an arm, which takes the arm or goes on at the node `no`.
    Ask {
        arm: u32,
        binds: Vec<Bind>,
        no: u64,
    },
    /// Takes the arm.
    Take {
        arm: u32,
        binds: Vec<Bind>,
    },
    /// No arm is left.
    Miss,
    /// There is no value to match.
    Void,
}

/// A case of a switch.
#[derive(Debug, PartialEq, Eq, Hash, Drop)]
pub enum Case {
    /// A variant, by its number from 0.
    Variant(u32),
    Flag(bool),
    /// The numbers of the range.
    Span(Range),
    Text(String),
    /// Rows of one length.
    Length(u64),
    /// Rows of each length from `front + back` on.
    Longer { front: u64, back: u64 },
    /// Every part that no other case has.
    Else,
}

/// A name that an arm binds, and the place of what it is bound to.
#[derive(Debug, PartialEq, Eq, Hash, Drop)]
pub struct Bind {
    pub name: String,
    pub mode: Mode,
    pub place: Place,
}
