//! What values come to in the rows of a match, and what follows of what is unreachable: each function has an empty body,
//! and its contract is a law.

ghost use Rattle.pattern_matrix.specs.SearchLaws.{RowsAreListed, PlacesMayBeMoved, SearchIsExact, FoundIsCut, FirstTells, ExhaustiveHasNone, JudgedByMarks};
ghost use Rattle.pattern_matrix.specs.ReachLaws.{RowsTell, SplitsHandOn, ColumnsHavePieces, ExpandingKeepsCounts, LeftIsUnreachable};

use pat_context::PatCx;

/// The rows of a match's arms, with one row of a wildcard behind them, tell of each value to which arm it comes, through
/// which alternatives, and whether no arm covers it.
pub fn rows_tell<T>()
    ensures { RowsTell T }
{}

/// Expanding or-patterns, at whatever column, keeps what counts.
pub fn expanding_keeps_counts<T>()
    ensures { ExpandingKeepsCounts T }
{}

/// A submatrix whose first place is taken apart hands on what values come to, to submatrices that weigh less.
pub fn splits_hand_on<C: PatCx>(cx: &C)
    ensures { SplitsHandOn (C.is_type cx.now) (C.is_value cx.now) (C.context cx.now) }
{}

/// Rows are listed one by one, and those that bring nothing new and stop nothing are left out.
pub fn rows_are_listed<T>()
    ensures { RowsAreListed T }
{}

/// Any place of a submatrix may be taken first.
pub fn places_may_be_moved<C: PatCx>(cx: &C)
    ensures { PlacesMayBeMoved (C.is_type cx.now) (C.is_value cx.now) (C.context cx.now) }
{}

/// A search marks exactly what values come to, whatever place is taken apart in each step, whatever is left out that says
/// the same as what was seen, and each step leaves less to do.
pub fn search_is_exact<C: PatCx>(cx: &C)
    ensures { SearchIsExact (C.is_type cx.now) (C.is_value cx.now) (C.context cx.now) }
{}

/// What is found of a column says which pieces have values and are in heads, and whether one that has values is in none.
pub fn found_is_cut<C: PatCx>(cx: &C)
    ensures { FoundIsCut (C.is_value cx.now) (C.context cx.now) }
{}

/// The first submatrix of a match tells which of its arms and alternatives are reachable, and whether it is exhaustive.
pub fn first_submatrix_tells<C: PatCx>(cx: &C)
    ensures { FirstTells (C.is_type cx.now) (C.is_value cx.now) (C.context cx.now) }
{}

/// Every column has pieces.
pub fn columns_have_pieces()
    ensures { ColumnsHavePieces }
{}

/// An exhaustive match has the empty witness list, so where the row behind all arms is not reached nothing is left to find.
pub fn exhaustive_has_none<C: PatCx>(cx: &C)
    ensures { ExhaustiveHasNone (C.is_type cx.now) (C.is_value cx.now) (C.context cx.now) }
{}

/// From the marks of a search, and the witness list where the row behind all arms is marked, comes what judging a match
/// promises: whether it is exhaustive, what is unreachable, and the witness list.
pub fn judged_by_marks<C: PatCx>(cx: &C)
    ensures { JudgedByMarks (C.is_type cx.now) (C.is_value cx.now) (C.context cx.now) }
{}

/// From marks that tell exactly what is reachable comes the list of what is unreachable.
pub fn left_is_unreachable<C: PatCx>(cx: &C)
    ensures { LeftIsUnreachable (C.is_value cx.now) }
{}
