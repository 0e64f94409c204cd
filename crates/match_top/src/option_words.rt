// The options at the end of a command line.
ghost use Rattle.std.specs.Prelude.{◌≡◌, option_map};
ghost use Rattle.pattern_rules.specs.declared.Edition.TheVariants.{E2024};
ghost use Rattle.match_model.specs.declared.Width.TheVariants.{Endless};
ghost use Rattle.match_top.specs.OptionWords.{both_options, edition_of, edition_option, either_option, options_of};
ghost use Rattle.match_top.specs.OptionWords.{options_with, width_of, width_option};

use match_model::Width;
use pattern_rules::Edition;

/// By what a file is read: the width of `usize` and `isize`, and the edition by which modes are written.
#[derive(Clone, Copy, Debug, PartialEq, Eq)]
pub struct Options {
    pub width: Width,
    pub edition: Edition,
}

/// What the words say, where they are options.
pub(crate) fn options_of(words: &[String]) -> Option<Options>
    ensures { result ≡ options_of words.now }
{
    match words {
        [] => Some(Options {
            width: Width::Endless,
            edition: Edition::E2024,
        }),
        [name, word] => one_option(name.as_str(), word.as_str()),
        [name, word, other, last] => two_options(
            name.as_str(),
            word.as_str(),
            other.as_str(),
            last.as_str(),
        ),
        _ => None,
    }
}

// What one option says.
fn one_option(name: &str, word: &str) -> Option<Options>
    ensures { result ≡ either_option (width_option name.now word.now) (edition_option name.now word.now) }
{
    match name {
        "--width" => width_alone(width_named(word)),
        "--edition" => edition_alone(edition_named(word)),
        _ => None,
    }
}

// A width without an edition.
fn width_alone(width: Option<Width>) -> Option<Options>
    ensures { result ≡ option_map (λ w. options_with w E2024) width }
{
    let width = width?;
    Some(Options {
        width,
        edition: Edition::E2024,
    })
}

// An edition without a width.
fn edition_alone(edition: Option<Edition>) -> Option<Options>
    ensures { result ≡ option_map (options_with Endless) edition }
{
    let edition = edition?;
    Some(Options {
        width: Width::Endless,
        edition,
    })
}

// A width, and behind it an edition.
fn two_options(name: &str, word: &str, other: &str, last: &str) -> Option<Options>
    ensures { result ≡ both_options (width_option name.now word.now) (edition_option other.now last.now) }
{
    match (name, other) {
        ("--width", "--edition") => {
            let width = width_named(word)?;
            let edition = edition_named(last)?;
            Some(Options { width, edition })
        }
        _ => None,
    }
}

// The width of so many bits.
fn width_named(word: &str) -> Option<Width>
    ensures { result ≡ width_of word.now }
{
    match word {
        "16" => Some(Width::Bits16),
        "32" => Some(Width::Bits32),
        "64" => Some(Width::Bits64),
        _ => None,
    }
}

// The edition of this year.
fn edition_named(word: &str) -> Option<Edition>
    ensures { result ≡ edition_of word.now }
{
    match word {
        "2021" => Some(Edition::E2021),
        "2024" => Some(Edition::E2024),
        _ => None,
    }
}
