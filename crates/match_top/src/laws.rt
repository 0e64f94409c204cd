//! Laws of what is written for a file. Each function changes nothing, and its contract is a law; in its body stand the
//! laws that it follows from.
ghost use Rattle.match_top.specs.Laws.{OneAnswer, OneFirstFault, OneEntry, SomeEntry, EachFunctionStands, SomeReport};
ghost use Rattle.match_top.specs.Laws.{EntriesAreWithoutTrees, AnswersAreWithoutTrees};
ghost use Rattle.match_top.specs.declared.words.Command.TheVariants.{Check, Arms};

use arm_laws::verdict_laws::arms_complete_match;
use decl_lexer::{one_fault as one_lexing_fault, one_token_list, tokens_or_fault};
use decl_parser::{file_or_fault, one_fault, one_file};
use pattern_laws::laws::{
    files_are_sound, parsed_functions_are_spelled, some_verdict, tree_is_one, verdict_is_one,
};
use pattern_laws::overlap_laws::{overlap_list_is_one, some_overlaps};
use pattern_rules::laws::{answer_is_one, walk_tells};
use value_syntax::one_written;

/// Whatever is asked, the bytes of a file have at most one text and one status.
pub fn one_answer()
    ensures { OneAnswer }
{
    one_token_list();
    one_lexing_fault();
    tokens_or_fault();
    one_file();
    one_fault();
    file_or_fault();
    answer_is_one();
    verdict_is_one();
    overlap_list_is_one();
    tree_is_one();
    one_written();
}

/// Items have at most one first fault on declarations, at any width.
pub fn one_first_fault()
    ensures { OneFirstFault }
{}

/// Each function of a file stands among its functions, and for each command has at most one entry. For `check` and for
/// `arms` it has one if the tokens of a source spell the file and no item breaks a rule on declarations.
pub fn one_entry()
    ensures each { EachFunctionStands }
    ensures some { SomeEntry Check }
    ensures armed { SomeEntry Arms }
    ensures one { OneEntry }
{
    answer_is_one();
    verdict_is_one();
    overlap_list_is_one();
    tree_is_one();
    walk_tells();
    parsed_functions_are_spelled();
    files_are_sound();
    some_verdict();
    some_overlaps();
    arms_complete_match();
}

/// A file that the tokens of a source spell, and of which no item breaks a rule on declarations, has a report for `check`
/// and one for `arms`.
pub fn some_report()
    ensures check { SomeReport Check }
    ensures arms { SomeReport Arms }
{
    walk_tells();
    parsed_functions_are_spelled();
    files_are_sound();
    some_verdict();
    some_overlaps();
    arms_complete_match();
}

/// What `check` has for a function or a file is what `trees` has, without the decision trees, and with the same status.
pub fn check_is_without_trees()
    ensures entries { EntriesAreWithoutTrees }
    ensures answers { AnswersAreWithoutTrees }
{}
