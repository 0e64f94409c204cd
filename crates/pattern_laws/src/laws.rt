//! Each function has an empty body, and its contract is a law.
ghost use Rattle.pattern_laws.specs.Laws.{ArmsAreInForm, ArmsAreTyped, NamesAreApart, WaysAreKept};
ghost use Rattle.pattern_laws.specs.JudgedLaws.{JudgedShownMatch, ShownMatchIsWellTyped, SomeVerdict, VerdictIsOne};
ghost use Rattle.pattern_laws.specs.ParsedLaws.{FilesAreSound, ParsedArmsAreSound, ParsedFunctionsAreSpelled, TokensAreSpelled};
ghost use Rattle.pattern_laws.specs.ShownLaws.{ShownArmIsTyped, ShownMatchIsKept, ShownNamesDiffer};
ghost use Rattle.pattern_laws.specs.TableLaws.{JudgedTableMatch, TablesAreSeen, TabledFilesAreSound, TableMatchIsWellTyped};
ghost use Rattle.pattern_laws.specs.TreeLaws.{TreeOfShownMatch, TreeOfTableMatch, TreeOnIsOne};

/// The pattern that an arm's becomes has the ways that the written one means.
pub fn ways_are_kept()
    ensures { WaysAreKept }
{}

/// It is well typed for the scrutinee's type.
pub fn arms_are_typed()
    ensures { ArmsAreTyped }
{}

/// No two of its names are one, but for those of different alternatives.
pub fn names_are_apart()
    ensures { NamesAreApart }
{}

/// It is in the form that the engine's definitions ask for, has the written ranges, and is not larger than what is
/// written.
pub fn arms_are_in_form()
    ensures { ArmsAreInForm }
{}

/// A match that shows the function's arms, without their uids, keeps all that is promised of it.
pub fn shown_match_is_kept<T>()
    ensures { ShownMatchIsKept T }
{}

/// The names of each of its patterns differ.
pub fn shown_names_differ<T>()
    ensures { ShownNamesDiffer T }
{}

/// Each of its patterns is well typed, for a context that is seen through the types of the program.
pub fn shown_arm_is_typed<T>()
    ensures { ShownArmIsTyped T }
{}

/// A match that shows the function's arms, whose patterns have uids of their own, is well typed for such a context.
pub fn shown_match_is_well_typed<T>()
    ensures { ShownMatchIsWellTyped T }
{}

/// What such a match is judged to be, its witnesses among them, is what is found of the function.
pub fn judged_shown_match<T>()
    ensures { JudgedShownMatch T }
{}

/// The decision tree of such a match is that of the function.
pub fn tree_of_shown_match<T>()
    ensures { TreeOfShownMatch T }
{}

/// A function has one decision tree at most.
pub fn tree_is_one()
    ensures { TreeOnIsOne }
{}

/// Of a function one thing alone is found.
pub fn verdict_is_one()
    ensures { VerdictIsOne }
{}

/// Of each function that breaks no rule something is found, where its arms are sound.
pub fn some_verdict()
    ensures { SomeVerdict }
{}

/// The context of a table is seen through the types of its file, and its values are theirs.
pub fn table_is_seen()
    ensures { TablesAreSeen }
{}

/// The types of a file that has a table are sound, and those of the scrutinees of functions that break no rule are
/// among them.
pub fn tabled_functions_are_sound()
    ensures { TabledFilesAreSound }
{}

/// A match that shows the function's arms by the numbers of a table, whose patterns have uids of their own, is well
/// typed.
pub fn table_match_is_well_typed()
    ensures { TableMatchIsWellTyped }
{}

/// What such a match is judged to be is what is found of the function.
pub fn judged_table_match()
    ensures { JudgedTableMatch }
{}

/// The decision tree of such a match is that of the function.
pub fn tree_of_table_match()
    ensures { TreeOfTableMatch }
{}

/// The literals of a source's tokens are scalar values, bytes and texts.
pub fn tokens_are_spelled()
    ensures { TokensAreSpelled }
{}

/// Each arm of a function that a source's tokens spell is as `is_spelled` asks, its offsets ascend, and the function has
/// no more arms than the source has bytes.
pub fn parsed_functions_are_spelled()
    ensures { ParsedFunctionsAreSpelled }
{}

/// Where no item of a file that tokens spell breaks a rule on declarations, the types of the file are sound, and those of
/// the scrutinees of functions that break no rule are among them.
pub fn files_are_sound()
    ensures { FilesAreSound }
{}

/// Where the file has a table, each arm is sound of each function that breaks no rule.
pub fn parsed_arms_are_sound()
    ensures { ParsedArmsAreSound }
{}
