//! The laws of the grammar and of the texts.
ghost use Rattle.value_syntax.specs.Laws.{OneWritten, WrittenOrNot, ReadsBack};

/// A text spells at most one value.
pub fn one_written()
    ensures { OneWritten }
{}

/// A text spells a value, or it spells none.
pub fn written_or_not()
    ensures { WrittenOrNot }
{}

/// A canonical value of at most 64 levels is what its text spells.
pub fn reads_back()
    ensures { ReadsBack }
{}
