//! What follows from a split's contract, and what is true of every range: each function has an empty body, and its
//! contract is a law.

ghost use Rattle.range_split.specs.Laws.{SplitIsDetermined, NumberIsInOnePiece, RangeHasNumber};

/// A whole and a column determine the pieces and their flags.
pub fn split_is_determined()
    ensures { SplitIsDetermined }
{}

/// Each number of the whole lies in exactly one piece.
pub fn number_is_in_one_piece()
    ensures { NumberIsInOnePiece }
{}

/// Every range has a number.
pub fn range_has_number()
    ensures { RangeHasNumber }
{}
