// The nodes of trees with the names of their variants.
use pat_context::Place;
use range_split::Range;
use tree_eval::Bind;
use witness_text::FormName;

/// A node of a tree, with the names that a report shows. A node's number is its index in the tree; where it goes on, it
/// goes on at nodes with greater numbers.
#[derive(Debug, Drop)]
pub enum NamedNode<'a> {
    /// Looks at a place, and goes on at the node of the first case that has the part there.
    Switch {
        place: &'a Place,
        cases: Vec<NamedBranch<'a>>,
    },
    /// Asks the guard of an arm, counted from 0, which takes the arm or goes on at the node `no`.
    Ask {
        arm: u32,
        binds: &'a [Bind],
        no: u64,
    },
    /// Takes the arm, counted from 0.
    Take {
        arm: u32,
        binds: &'a [Bind],
    },
    /// No arm is left.
    Miss,
    /// There is no value to match.
    Void,
}

/// A case of a switch, with the number of the node where it goes on.
#[derive(Debug, Drop)]
pub struct NamedBranch<'a> {
    pub case: NamedCase<'a>,
    pub next: u64,
}

/// What parts a case of a switch has.
#[derive(Debug, Drop)]
pub enum NamedCase<'a> {
    /// A variant, by its name.
    Variant(FormName<'a>),
    Flag(bool),
    /// The numbers of the range; a character is its scalar value.
    Span(Range),
    Text(&'a str),
    /// Rows of one length, in items.
    Length(u64),
    /// Rows of each length from `front + back` on, in items.
    Longer { front: u64, back: u64 },
    /// Every part that no other case has.
    Else,
}
