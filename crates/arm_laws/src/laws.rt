//! Laws without code: each function does nothing, and its contract is the law.
ghost use Rattle.arm_laws.specs.Fine.{ArmPatternIsFine};
ghost use Rattle.arm_laws.specs.FineLaws.{FineArmsBreakNone};
ghost use Rattle.arm_laws.specs.FunctionLaws.{ArmsComplete, PatternsComplete, VerdictIsOrdered, WrittenIsNear};
ghost use Rattle.arm_laws.specs.SpellingLaws.{ArmOfWitnessSpells, ArmTextSpells};
ghost use Rattle.arm_laws.specs.TakingLaws.{EarlierTakesNone, FittingIsTaken, MeantIsTaken};

/// The text of an arm spells exactly one pattern. The arm is within the limits and has names that are identifiers,
/// texts only behind `&`, and numbers of at most 128 bits.
pub fn arm_text_spells()
    ensures { ArmTextSpells }
{}

/// So does the text of the arm for a witness of a type. The names of the program are identifiers, and the ranges of
/// the witness end at literals or lie beyond them.
pub fn arm_of_witness_spells()
    ensures { ArmOfWitnessSpells }
{}

/// The arm for a witness takes each value that fits the witness.
pub fn fitting_is_taken()
    ensures { FittingIsTaken }
{}

/// The pattern for a witness matches just the values that its arm takes.
pub fn meant_is_taken()
    ensures { MeantIsTaken }
{}

/// In the order of arms the arm for a witness takes nothing that fits a later one.
pub fn earlier_takes_none()
    ensures { EarlierTakesNone }
{}

/// The ranges of a function that breaks no rule have ends that are literals or beside one.
pub fn written_is_near()
    ensures { WrittenIsNear }
{}

/// The witnesses of a verdict stand in an order.
pub fn verdict_is_ordered()
    ensures { VerdictIsOrdered }
{}

/// The arms for the witnesses of a verdict complete the match.
pub fn arms_complete()
    ensures { ArmsComplete }
{}

/// Arms of patterns that match just what is taken complete it.
pub fn patterns_complete()
    ensures { PatternsComplete }
{}

/// The pattern for a witness breaks no rule.
pub fn arm_pattern_is_fine()
    ensures { ArmPatternIsFine }
{}

/// A function that breaks no rule breaks none with arms of patterns that break none.
pub fn fine_arms_break_none()
    ensures { FineArmsBreakNone }
{}
