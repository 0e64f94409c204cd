//! What follows from a split's contract: each function has an empty body, and its contract is a law.

ghost use Rattle.slice_split.specs.Laws.{SplitIsDetermined, LengthIsInOnePiece};

/// A length or none and a column determine the pieces and their flags.
pub fn split_is_determined()
    ensures { SplitIsDetermined }
{}

/// Each length that there is lies in exactly one piece.
pub fn length_is_in_one_piece()
    ensures { LengthIsInOnePiece }
{}
