// What a question stands for.
ghost use Rattle.std.specs.Prelude.{◌≡◌, map, option_map};
ghost use Rattle.std.specs.List.{list_all};
ghost use Rattle.match_top.specs.Asked.{question_view, request_view};
ghost use Rattle.match_top.specs.Words.{accepts, is_answer};
ghost use Rattle.matchcheck_c.specs.Asking.{answers_of, edition_of, evaluation_of, form_of};
ghost use Rattle.matchcheck_c.specs.Asking.{request_of, text_of, width_of};

use match_model::Width;
use match_top::{Command, Evaluation, Options, Request};
use pattern_rules::Edition;

/// What is asked of a source, in numbers and texts.
#[repr(C)]
#[derive(Clone, Copy)]
pub struct Question<'q> {
    /// 0 `check`, 1 `trees`, 2 `arms`, 3 `eval`.
    pub command: u8,
    /// The bits of `usize` and `isize`, 16, 32 or 64, or 0 where they are not known.
    pub width: u8,
    /// The edition by which modes are written: 2021 or 2024.
    pub edition: u16,
    /// For `eval` the name of a function. The other commands do not look at this and the following texts.
    pub function: &'q [u8],
    /// For `eval` a value of its scrutinee.
    pub value: &'q [u8],
    /// For `eval` the answers of the guards, `t` or `f` each.
    pub answers: &'q [u8],
}

/// The request that a question stands for, if any.
pub(crate) fn request_of<'q>(question: &Question<'q>) -> Option<Request<'q>>
    ensures { option_map request_view result ≡ request_of question.now }
{
    let asked = form_of(question)?;
    let width = width_of(question.width)?;
    let edition = edition_of(question.edition)?;
    Some(Request {
        question: asked,
        options: Options { width, edition },
    })
}

// What is asked, without the options.
fn form_of<'q>(question: &Question<'q>) -> Option<match_top::Question<'q>>
    ensures { option_map question_view result ≡ form_of question.now }
{
    match question.command {
        0 => Some(match_top::Question::Report(Command::Check)),
        1 => Some(match_top::Question::Report(Command::Trees)),
        2 => Some(match_top::Question::Report(Command::Arms)),
        3 => evaluation_of(question),
        _ => None,
    }
}

// The outcome of a value, where the texts are texts and each letter is an answer.
fn evaluation_of<'q>(question: &Question<'q>) -> Option<match_top::Question<'q>>
    ensures { option_map question_view result ≡ evaluation_of question.now }
{
    let evaluation = Evaluation {
        function: text_of(question.function)?,
        value: text_of(question.value)?,
        answers: answers_of(question.answers)?,
    };
    Some(match_top::Question::Outcome(evaluation))
}

// The text that bytes are, where they are UTF-8.
pub(crate) fn text_of(bytes: &[u8]) -> Option<&str>
    ensures { option_map (λ text. text.now) result ≡ text_of bytes.now }
{
    match str::from_utf8(bytes) {
        Ok(text) => Some(text),
        Err(_) => None,
    }
}

// The answers that letters give, as letters, where each is one.
fn answers_of(letters: &[u8]) -> Option<&str>
    ensures { option_map (λ text. map accepts text.now) result ≡ answers_of letters.now }
{
    if !are_answers(letters) {
        return None;
    }
    text_of(letters)
}

// Whether each letter is an answer of a guard.
fn are_answers(letters: &[u8]) -> bool
    ensures { result ≡ list_all is_answer letters.now }
{
    letters
        .iter()
        .all(|letter| *letter == b't' || *letter == b'f')
}

// The width of so many bits.
fn width_of(bits: u8) -> Option<Width>
    ensures { result ≡ width_of bits }
{
    match bits {
        0 => Some(Width::Endless),
        16 => Some(Width::Bits16),
        32 => Some(Width::Bits32),
        64 => Some(Width::Bits64),
        _ => None,
    }
}

// The edition of this year.
fn edition_of(year: u16) -> Option<Edition>
    ensures { result ≡ edition_of year }
{
    match year {
        2021 => Some(Edition::E2021),
        2024 => Some(Edition::E2024),
        _ => None,
    }
}
