//! Laws without code on the witnesses of a verdict and on the arms that are made of them.
ghost use Rattle.arm_laws.specs.VerdictLaws.{ArmTextsComplete, ArmsCompleteMatch, VerdictEndsAtLiterals};
ghost use Rattle.arm_laws.specs.VerdictLaws.{VerdictTextsAreReferred};

/// The ranges in the witnesses of a verdict end at literals or lie beyond them.
pub fn verdict_ends_at_literals()
    ensures { VerdictEndsAtLiterals }
{}

/// A text stands in the witnesses of a verdict only behind a shared reference.
pub fn verdict_texts_are_referred()
    ensures { VerdictTextsAreReferred }
{}

/// The texts of the arms for the witnesses of a verdict complete the match: each spells one pattern, with arms of these
/// patterns the function breaks no rule and is exhaustive, and a value comes to each.
pub fn arm_texts_complete()
    ensures { ArmTextsComplete }
{}

/// So it is for each function that breaks no rule, in a file that the tokens of a source spell and of which no item
/// breaks a rule on declarations.
pub fn arms_complete_match()
    ensures { ArmsCompleteMatch }
{}
