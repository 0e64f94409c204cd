//! What the pieces of a column are, whatever code finds them: each function has an empty body, and its contract is a
//! law.

ghost use Rattle.constructor_sets.specs.Laws.{EachByOnePiece, PiecesFitColumns, PiecesStandInOrder};
ghost use Rattle.constructor_sets.specs.Laws.{PieceValuesAreTold, MissingIsOfValues};

use pat_context::PatCx;

/// Each value but an unseen and an opaque thing is built by exactly one piece of a column of its type.
pub fn each_value_has_one_piece()
    ensures { EachByOnePiece }
{}

/// The pieces of a column are of its set, and each head has all of a piece or nothing of it.
pub fn pieces_fit_the_column()
    ensures { PiecesFitColumns }
{}

/// The pieces of a column stand in the order of constructors, and none stands twice.
pub fn pieces_stand_in_order()
    ensures { PiecesStandInOrder }
{}

/// Which pieces of a column have values at a sure or an unsure place is told by the emptiness of types and variants.
pub fn piece_values_are_told<C: PatCx>(cx: &C)
    ensures { PieceValuesAreTold (C.is_type cx.now) (C.is_value cx.now) (C.context cx.now) (C.empty_of cx.now)
        (C.variant_empty_of cx.now) }
{}

/// Where a piece is missing, some value at the place is in no head; where none is, each value but an unseen and an opaque
/// thing is in some head. It is said of `missing` of `present`, and of any list of pieces that is so.
pub fn missing_is_of_values<C: PatCx>(cx: &C)
    ensures { MissingIsOfValues (C.is_value cx.now) (C.context cx.now) }
{}
