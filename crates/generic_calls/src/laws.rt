//! Each generic law at a type: the toy context of `pat_context`, or a number.
use constructor_sets::laws::{missing_is_of_values, piece_values_are_told};
use keyed_rows::{arms_are_numbered, ways_ascend};
use match_model::laws::{
    first_matrix_has_the_arms, laws_are_carried, parts_split, steps_lower_weights,
    witness_list_is_one,
};
use pat_context::laws;
use pat_context::toy::Toy;
use pattern_arena::laws::{
    exhaustive_where_nothing_is_left, overlap_lists_are_one, reading_lists_are_one,
};
use pattern_laws::laws::{
    judged_shown_match, shown_arm_is_typed, shown_match_is_kept, shown_match_is_well_typed,
    shown_names_differ, tree_of_shown_match,
};
use pattern_matrix::cover_laws::{
    empty_lists_are_exhaustive, witness_lists_are_covers, witnesses_are_of_the_type,
};
use pattern_matrix::laws::{
    alike_rows_have_the_witnesses, bare_rows_are_alike, bare_submatrices_are_alike,
    columns_stay_open, leaves_are_typed, leaves_have_the_column, numbers_have_the_piece,
    piece_has_its_leaves, steps_are_listed, views_are_listed,
};
use pattern_matrix::reach_laws::{
    exhaustive_has_none, expanding_keeps_counts, first_submatrix_tells, found_is_cut,
    judged_by_marks, left_is_unreachable, places_may_be_moved, rows_are_listed, rows_tell,
    search_is_exact, splits_hand_on,
};
use tree_laws::{match_tree_is_one, trees_are_good, trees_are_of_the_type};

/// The laws of `match_model`.
pub fn of_definitions() {
    parts_split::<u32>();
    laws_are_carried::<u32, bool>();
    steps_lower_weights::<u32>();
    first_matrix_has_the_arms::<u32>();
    witness_list_is_one::<u32>();
}

/// The laws of `pat_context`.
pub fn of_a_context() {
    laws::one_constructor_builds_a_value(&Toy);
    laws::parts_are_values(&Toy);
    laws::values_can_be_built(&Toy);
    laws::bare_values_are_there(&Toy);
    laws::items_have_one_type(&Toy);
    laws::ranges_are_apart(&Toy);
    laws::witness_lists_are_one(&Toy);
    laws::parts_can_be_chosen(&Toy);
    laws::met_parts_are_values(&Toy);
    laws::values_can_be_refilled(&Toy);
    laws::ctor_values_are_told(&Toy);
    laws::bare_patterns_are_wild(&Toy);
}

/// The laws of `constructor_sets` and of `pattern_arena`.
pub fn of_columns_and_matches() {
    piece_values_are_told(&Toy);
    missing_is_of_values(&Toy);
    reading_lists_are_one(&Toy);
    overlap_lists_are_one(&Toy);
    exhaustive_where_nothing_is_left(&Toy);
}

/// The laws of `pattern_matrix` on rows.
pub fn of_rows() {
    bare_rows_are_alike::<u32>();
    piece_has_its_leaves::<u32>();
    leaves_have_the_column::<u32>();
    bare_submatrices_are_alike(&Toy);
    alike_rows_have_the_witnesses(&Toy);
    leaves_are_typed(&Toy);
    numbers_have_the_piece::<u32>();
    steps_are_listed::<u32>();
    columns_stay_open::<u32>();
    views_are_listed::<u32>();
}

/// The laws of `pattern_matrix` on witness lists.
pub fn of_covers() {
    witness_lists_are_covers(&Toy);
    empty_lists_are_exhaustive(&Toy);
    witnesses_are_of_the_type(&Toy);
}

/// The laws of `pattern_matrix` on what is reachable.
pub fn of_what_is_reachable() {
    rows_tell::<u32>();
    expanding_keeps_counts::<u32>();
    splits_hand_on(&Toy);
    rows_are_listed::<u32>();
    places_may_be_moved(&Toy);
    search_is_exact(&Toy);
    found_is_cut(&Toy);
    first_submatrix_tells(&Toy);
    exhaustive_has_none(&Toy);
    judged_by_marks(&Toy);
    left_is_unreachable(&Toy);
}

/// The laws on decision trees.
pub fn of_trees() {
    ways_ascend::<u32>();
    arms_are_numbered::<u32>();
    trees_are_good(&Toy);
    trees_are_of_the_type(&Toy);
    match_tree_is_one(&Toy);
}

/// The laws of `pattern_laws` on a match that shows a function.
pub fn of_shown_matches() {
    shown_match_is_kept::<u32>();
    shown_names_differ::<u32>();
    shown_arm_is_typed::<u32>();
    shown_match_is_well_typed::<u32>();
    judged_shown_match::<u32>();
    tree_of_shown_match::<u32>();
}
