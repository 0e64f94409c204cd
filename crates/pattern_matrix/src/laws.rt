//! Laws of rows that list only their heads that are no wildcards: each function has an empty body, and its contract is a
//! law.

ghost use Rattle.pattern_matrix.specs.Laws.{BareRowsAreAlike, PieceHasItsLeaves, LeavesHaveTheColumn};
ghost use Rattle.pattern_matrix.specs.ListedSteps.{BareSubmatricesAreAlike, AlikeRowsHaveTheWitnesses, LeavesAreTyped, NumbersHaveThePiece, StepsAreListed, ViewsAreListed};
ghost use Rattle.pattern_matrix.specs.Opens.{ColumnsStayOpen};

use pat_context::PatCx;

/// Without the names that are caught and that wildcards bind, heads have the same ways but for what these names bind,
/// and rows weigh the same. So the rows of each step here, which are those of the definitions but for these names, keep
/// all that the definitions' rows keep but bindings, and fall as they fall.
pub fn bare_rows_are_alike<T>()
    ensures { BareRowsAreAlike T }
{}

/// The leaves that spans give a piece are exactly those that have it, in order, and they give all rows that are
/// specialised by it.
pub fn piece_has_its_leaves<T>()
    ensures { PieceHasItsLeaves T }
{}

/// The constructors of leaves are those of the column of the definitions.
pub fn leaves_have_the_column<T>()
    ensures { LeavesHaveTheColumn T }
{}

/// A submatrix whose rows are made bare says what it said, and is as heavy. So it may be made bare after each step: a
/// submatrix is looked at where its children are listed from what is left of it, made bare.
pub fn bare_submatrices_are_alike<C: PatCx>(cx: &C)
    ensures { BareSubmatricesAreAlike (C.is_type cx.now) (C.is_value cx.now) (C.context cx.now) }
{}

/// Rows have the witnesses of those that are the same once the names of their wildcards are left out.
pub fn alike_rows_have_the_witnesses<C: PatCx>(cx: &C)
    ensures { AlikeRowsHaveTheWitnesses (C.is_value cx.now) (C.context cx.now) }
{}

/// The leaves of well-typed rows are well typed. Their constructors are heads of the type's set, and a leaf that has a
/// piece of it writes as many parts as the piece has.
pub fn leaves_are_typed<C: PatCx>(cx: &C)
    ensures { LeavesAreTyped (C.is_type cx.now) (C.context cx.now) }
{}

/// Numbers of leaves whose spans have a piece, as halving finds them, are those of leaves that have it.
pub fn numbers_have_the_piece<T>()
    ensures { NumbersHaveThePiece T }
{}

/// What is left of a submatrix whose rows list their heads, when its first place is taken apart, has the rows of the
/// leaves there: without the column, and opened for each piece. Each is wanted where its row was.
pub fn steps_are_listed<T>()
    ensures { StepsAreListed T }
{}

/// Any open column may stand first, the columns of a piece's parts are opened behind all others, and the places are those
/// of the columns.
pub fn columns_stay_open<T>()
    ensures { ColumnsStayOpen T }
{}

/// Rows over columns are listed one by one, a row that lists nothing has wildcards alone, and the first submatrix of a
/// match, made bare, has the rows of its arms and one behind them.
pub fn views_are_listed<T>()
    ensures { ViewsAreListed T }
{}
