//! What the overlapping ranges of an engine's match say of the function that it shows: they are those of the arms as they are
//! written. Each function has an empty body, and its contract is a law.
ghost use Rattle.pattern_laws.specs.OverlapLaws.{OverlapsOfTableMatch, OverlapListOnIsOne, SomeOverlaps};

/// The overlaps of a match that shows a function by the numbers of a table are those of the function's arms as they are
/// written.
pub fn overlaps_of_table_match()
    ensures { OverlapsOfTableMatch }
{}

/// A function has one list of overlaps at most.
pub fn overlap_list_is_one()
    ensures { OverlapListOnIsOne }
{}

/// Each function that breaks no rule has one, where its arms are sound.
pub fn some_overlaps()
    ensures { SomeOverlaps }
{}
