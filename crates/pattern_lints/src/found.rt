// Ranges of more than one number that were found in the arms of a match, and where they can stand in a value.
use indexmap::IndexSet;
use range_split::Range;
use std::alloc::Global;

// A step from a place in the values to a place inside it. All items of a row are one place.
#[derive(Clone, Copy, Debug, PartialEq, Eq, Hash, Drop)]
pub(crate) struct PlaceStep {
    // The number of the place.
    pub(crate) above: usize,
    // The number of the variant there, or 0.
    pub(crate) variant: u32,
    // The number of the part of that variant, or 0 for an item.
    pub(crate) part: usize,
}

// A range of more than one number in the pattern of an arm.
#[derive(Drop)]
pub(crate) struct FoundRange {
    // The number of the arm.
    pub(crate) arm: usize,
    // The numbers of the patterns below that lead from the arm's pattern to the range, alternatives included.
    pub(crate) path: Vec<usize>,
    // The byte offset in the file.
    pub(crate) at: u64,
    pub(crate) range: Range,
    // The number of its place: where two ranges can stand at one position of a value, they have one number.
    pub(crate) place: usize,
}

// What was found so far, and where the search stands.
#[derive(Drop)]
pub(crate) struct Finding {
    pub(crate) alloc: Global,
    pub(crate) found: Vec<FoundRange>,
    // The steps to the places with the numbers from 1 on; the scrutinee has the number 0.
    pub(crate) places: IndexSet<PlaceStep>,
    // The arm that is looked at.
    pub(crate) arm: usize,
    // The path to the pattern that is looked at.
    pub(crate) path: Vec<usize>,
}
