//! Laws without code: each function does nothing, and its contract is the law.
ghost use Rattle.value_laws.specs.Laws.{FileReadsBack, MeansAgain, ReadsBackAsValue};

/// A value of a type that is written with its names is read as itself.
pub fn written_value_means_again()
    ensures { MeansAgain }
{}

/// The text of a value is read as that value: where it has at most 64 levels, no number above 128 bits, and its names are
/// identifiers.
pub fn written_value_reads_back()
    ensures { ReadsBackAsValue }
{}

/// The text of a value of a file's type is read as that value: where it has at most 64 levels, and no number above 128
/// bits if `usize` and `isize` have no width.
pub fn file_value_reads_back()
    ensures { FileReadsBack }
{}
