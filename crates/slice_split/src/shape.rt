// The shape of a row.
ghost use Rattle.std.specs.Prelude.{◌≡◌};
ghost use Rattle.match_model.specs.Constructors.{covers};
ghost use Rattle.slice_split.specs.Shapes.{plain_shape};

/// The shape of a row: one length, or every length from `front + back` on. Lengths are counts of items from 0.
#[derive(Clone, Copy, Debug, PartialEq, Eq, Hash)]
pub enum Shape {
    /// Rows of this length.
    Fixed(u64),
    /// Rows that have at least so many items before and after the rest (Rust Reference, Slice patterns).
    Longer { front: u64, back: u64 },
}

impl Shape {
    /// Tells whether rows of the length have the shape. It takes no memory.
    pub fn covers(&self, len: u64) -> bool
        ensures { result ≡ covers (plain_shape self.now) len }
    {
        match *self {
            Shape::Fixed(fixed) => fixed == len,
            Shape::Longer { front, back } => front <= len && back <= len - front,
        }
    }
}
