// Ends of ranges.
use crate::Num;

/// An end of a range: free, so that the range has no bound on that side, or at a number that the range has.
#[derive(Clone, Copy, Debug, PartialEq, Eq, Hash)]
pub enum End {
    Free,
    At(Num),
}
