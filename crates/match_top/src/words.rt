// The words of the command line.
ghost use Rattle.std.specs.Prelude.{◌≡◌, Some, option_map};
ghost use Rattle.std.specs.Option.{option_or};
ghost use Rattle.std.specs.List.{list_all};
ghost use Rattle.match_top.specs.Asked.{asked_view};
ghost use Rattle.match_top.specs.Words.{ReportForm, answered_form, evaluation_of, form_of, form_with, is_answer};
ghost use Rattle.match_top.specs.Words.{unanswered_form};
ghost use Rattle.match_top.specs.OptionWords.{options_of};

use crate::option_words::{Options, options_of};

/// What is asked of all functions of a file.
#[derive(Clone, Copy, Debug, PartialEq, Eq)]
pub enum Command {
    /// `check`: the report on its functions.
    Check,
    /// `trees`: the report with the decision trees of the functions that are judged.
    Trees,
    /// `arms`: the arms to add to each function, a pattern for each witness.
    Arms,
}

/// A function, a value of its scrutinee as it is written, and the answers of the guards, a letter each: `t` accepts, any
/// other refuses.
#[derive(Clone, Copy)]
pub struct Evaluation<'w> {
    pub function: &'w str,
    pub value: &'w str,
    pub answers: &'w str,
}

/// What is asked of a file.
#[derive(Clone, Copy)]
pub enum Question<'w> {
    /// The report on all functions.
    Report(Command),
    /// What the match of one function does with a value.
    Outcome(Evaluation<'w>),
    /// The counts in the report that `check` has.
    Counts,
}

/// What is asked of a file, and by which options the file is read.
#[derive(Clone, Copy)]
pub struct Request<'w> {
    pub question: Question<'w>,
    pub options: Options,
}

/// What the words ask for, and the file that they name.
#[derive(Clone, Copy)]
pub(crate) struct Asked<'w> {
    pub request: Request<'w>,
    pub file: &'w str,
}

// What the words ask for, where they have a form.
pub(crate) fn asked_by(words: &[String]) -> Option<Asked<'_>>
    ensures { option_map asked_view result ≡ form_of words.now }
{
    let [name, file, behind @ ..] = words else {
        return None;
    };
    match name.as_str() {
        "check" => report_asked(Command::Check, file.as_str(), behind),
        "trees" => report_asked(Command::Trees, file.as_str(), behind),
        "arms" => report_asked(Command::Arms, file.as_str(), behind),
        "eval" => outcome_asked(file.as_str(), behind),
        _ => None,
    }
}

// The report on a file, by the options behind it.
fn report_asked<'w>(command: Command, file: &'w str, behind: &[String]) -> Option<Asked<'w>>
    ensures { option_map asked_view result ≡ form_with (Some (ReportForm command)) file.now (options_of behind.now) }
{
    let options = options_of(behind)?;
    Some(Asked {
        request: Request {
            question: Question::Report(command),
            options,
        },
        file,
    })
}

// The outcome that the words behind `eval` and a file ask for: of them an odd number begins with a function, a value and
// answers, an even number with a function and a value alone.
fn outcome_asked<'w>(file: &'w str, behind: &'w [String]) -> Option<Asked<'w>>
    ensures { option_map asked_view result ≡ option_or (unanswered_form file.now behind.now) (answered_form file.now behind.now) }
{
    match behind {
        [function, value, options @ ..] if options.len() % 2 == 0 => {
            evaluation_asked(file, function.as_str(), value.as_str(), "", options)
        }
        [function, value, answers, options @ ..] => evaluation_asked(
            file,
            function.as_str(),
            value.as_str(),
            answers.as_str(),
            options,
        ),
        _ => None,
    }
}

// The outcome for a function, a value and the letters of answers, by options, where each letter is an answer.
fn evaluation_asked<'w>(
    file: &'w str,
    function: &'w str,
    value: &'w str,
    answers: &'w str,
    behind: &[String],
) -> Option<Asked<'w>>
    ensures { option_map asked_view result
        ≡ form_with (evaluation_of function.now value.now answers.now) file.now (options_of behind.now) }
{
    if !are_answers(answers) {
        return None;
    }
    let options = options_of(behind)?;
    let evaluation = Evaluation {
        function,
        value,
        answers,
    };
    Some(Asked {
        request: Request {
            question: Question::Outcome(evaluation),
            options,
        },
        file,
    })
}

// Whether each letter is an answer of a guard.
fn are_answers(letters: &str) -> bool
    ensures { result ≡ list_all is_answer letters.now }
{
    letters
        .as_bytes()
        .iter()
        .all(|letter| *letter == b't' || *letter == b'f')
}
