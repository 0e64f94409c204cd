//! The laws of files: tokens spell one file or have one fault, and never both.
ghost use Rattle.decl_parser.specs.FileGrammar.{OneFile, OneFault, FileOrFault, SomeAnswer};

/// Tokens spell at most one file.
pub fn one_file()
    ensures { OneFile }
{}

/// Tokens have at most one fault: one kind of fault, one item, one place.
pub fn one_fault()
    ensures { OneFault }
{}

/// Tokens that spell a file have no fault.
pub fn file_or_fault()
    ensures { FileOrFault }
{}

/// Any tokens spell a file or have a fault.
pub fn some_answer()
    ensures { SomeAnswer }
{}
