// A finding as data.
use explain_places::Place;

/// What a note is to its reader.
#[derive(Clone, Copy, Debug, PartialEq, Eq)]
pub enum NoteLevel {
    /// It says more of the finding.
    Note,
    /// It says what can be done.
    Help,
}

/// What is said of a finding besides its title and label.
#[derive(Debug, Drop)]
pub struct Note {
    /// Whether it says more or helps.
    pub level: NoteLevel,
    /// Its words, in one line without a full stop.
    pub text: String,
    /// What it is about: a part of the file, or where its lines are to be put in; `Nowhere` where it is words alone.
    pub place: Place,
    /// Whether a comma is to stand before its lines.
    pub comma: bool,
    /// Lines of code to put in before `place`, without indentation and line feed.
    pub lines: Vec<String>,
}

/// A finding.
#[derive(Debug, Drop)]
pub struct Diagnostic {
    /// Whether it breaks a build: a match is not exhaustive, or a rule is broken.
    pub breaks: bool,
    /// A short name of what is found: the name of a broken rule, or one of rustc's lints.
    pub code: String,
    /// What is found, in one line without a full stop.
    pub title: String,
    /// Where it is found; `Nowhere` where the report tells no place.
    pub place: Place,
    /// What is said of that place.
    pub label: String,
    /// What is said besides, in this order.
    pub notes: Vec<Note>,
}
