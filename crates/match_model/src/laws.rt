//! Laws of the definitions: each function has an empty body, and its contract is a law.

ghost use Rattle.match_model.specs.Laws.{OrIsConcatenation, GoesThrough, MissedWhereUncovered, FirstWayIsTaken};
ghost use Rattle.match_model.specs.Laws.{JoinIsAssociative, CombineIsAssociative, BareWayIsUnit, PartsSplit, FirstMatrixHasTheArms};
ghost use Rattle.match_model.specs.Laws.{VariantsAreCounted, RustValuesLaw};
ghost use Rattle.match_model.specs.Laws.{ExhaustiveWhereNothingIsLeft, AscendingOffsetsDiffer};
ghost use Rattle.match_model.specs.Laws.{TextOutside, TextsAreOrderedAsBytes};
ghost use Rattle.match_model.specs.ContextViews.{LawsAreCarried};
ghost use Rattle.match_model.specs.Weights.{StepsLowerWeights};
ghost use Rattle.match_model.specs.Emptiness.{RustPartsLaw, RustEmptyLaw, RustUnsureLaw, ValuedOrNone, FiniteOrNone};
ghost use Rattle.match_model.specs.Readings.{ReadingsAgree};
ghost use Rattle.match_model.specs.Uniqueness.{WalkIsOne, MeaningIsOne, UnreachableListIsOne, PiecesAreOne, WitnessListIsOne, OverlapListIsOne};

/// An or-pattern's ways are its alternatives' ways, one after the other.
pub fn or_is_concatenation()
    ensures { OrIsConcatenation }
{}

/// A pattern goes through references on its own, and the binding mode changes.
pub fn goes_through()
    ensures { GoesThrough }
{}

/// With all guards refusing a match is missed exactly where no arm without a guard matches.
pub fn missed_where_uncovered()
    ensures { MissedWhereUncovered }
{}

/// The first way of the first arm that covers a value is taken.
pub fn first_way_is_taken()
    ensures { FirstWayIsTaken }
{}

/// Joining ways is associative, and so is combining them.
pub fn join_is_associative()
    ensures join { JoinIsAssociative }
    ensures combine { CombineIsAssociative }
{}

/// The bare way is a unit.
pub fn bare_way_is_unit()
    ensures { BareWayIsUnit }
{}

/// The ways of patterns on a list of parts are the combinations of those on its two halves, the heart of specialising.
pub fn parts_split<T>()
    ensures { PartsSplit T }
{}

/// It does not count what becomes of the binding mode at a `&` or a `mut` where it is a move there already.
pub fn readings_agree()
    ensures { ReadingsAgree }
{}

/// Every value of a type of Rust is built by exactly one elementary constructor of the type, but for opaque and unseen
/// ones.
pub fn rust_values()
    ensures { RustValuesLaw }
{}

/// A struct or enum type has as many variants as its set of constructors says.
pub fn variants_are_counted()
    ensures { VariantsAreCounted }
{}

/// A tree that a constructor of a type of Rust builds is a value exactly where its parts are.
pub fn rust_parts()
    ensures { RustPartsLaw }
{}

/// Marks by which no type is left to mark tell exactly which types have no value at a sure place; at an unsure place
/// every type has one.
pub fn rust_emptiness()
    ensures sure { RustEmptyLaw }
    ensures unsure { RustUnsureLaw }
{}

/// Emptiness is decided. A type of a sound program has a value at a sure place or none. A named type has one at an
/// unsure place or none, in every program whose fields are types.
pub fn emptiness_is_decided()
    ensures sure { ValuedOrNone }
    ensures unsure { FiniteOrNone }
{}

/// A tree asks one list of nodes, ends in one way, and so means one thing alone for a value and answers.
pub fn meaning_is_one()
    ensures walk { WalkIsOne }
    ensures meaning { MeaningIsOne }
{}

/// A match has one list of what is unreachable.
pub fn unreachable_list_is_one()
    ensures { UnreachableListIsOne }
{}

/// A column has one list of pieces.
pub fn pieces_are_one()
    ensures { PiecesAreOne }
{}

/// A match has one witness list.
pub fn witness_list_is_one<T>()
    ensures { WitnessListIsOne T }
{}

/// The first matrix has the ways of the arms.
pub fn first_matrix_has_the_arms<T>()
    ensures { FirstMatrixHasTheArms T }
{}

/// A match is exhaustive exactly where an exact cover of what it leaves out is empty.
pub fn exhaustive_where_nothing_is_left()
    ensures { ExhaustiveWhereNothingIsLeft }
{}

/// Where the offsets of a pattern's alternatives ascend, as those of a source do, they differ.
pub fn ascending_offsets_differ()
    ensures { AscendingOffsetsDiffer }
{}

/// For every list of texts there is a text outside.
pub fn text_is_outside()
    ensures { TextOutside }
{}

/// Texts stand in one order by their scalar values and by their UTF-8 bytes.
pub fn texts_are_ordered_as_bytes()
    ensures { TextsAreOrderedAsBytes }
{}

/// A match has one list of overlaps.
pub fn overlap_list_is_one()
    ensures { OverlapListIsOne }
{}

/// No step of a matrix adds weight; expanding an or-pattern and specialising by a constructor take some.
pub fn steps_lower_weights<T>()
    ensures { StepsLowerWeights T }
{}

/// The four laws of a context carry over to a context that is seen through it, one type for another, where tests tell
/// types and values.
pub fn laws_are_carried<S, T>()
    ensures { LawsAreCarried S T }
{}
