//! Laws without code on what the pattern that a text spells matches.
ghost use Rattle.arm_laws.specs.TakesLaws.{ArmPatternTakes, NamesAreFound, NamesStandOnce, NumbersAreMeant};
ghost use Rattle.arm_laws.specs.TakesLaws.{OffsetsAreAlone, SpelledIsMeant};

/// Written patterns that differ only in their offsets match the same values.
pub fn offsets_are_alone()
    ensures { OffsetsAreAlone }
{}

/// In a file of which no item breaks a rule on declarations no name stands twice.
pub fn names_stand_once()
    ensures { NamesStandOnce }
{}

/// The path by which an arm names a variant finds the variant.
pub fn names_are_found()
    ensures { NamesAreFound }
{}

/// The pattern that an arm has for numbers is the one that is meant.
pub fn numbers_are_meant()
    ensures { NumbersAreMeant }
{}

/// The pattern that an arm has for a witness is the one that is meant.
pub fn spelled_is_meant()
    ensures { SpelledIsMeant }
{}

/// The pattern that an arm has for a witness matches just the values that the arm takes.
pub fn arm_pattern_takes()
    ensures { ArmPatternTakes }
{}
