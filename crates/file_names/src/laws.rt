//! Laws without code: each function does nothing, and its contract is the law.
ghost use Rattle.file_names.specs.Laws.{ItemNamesAreNames, ProgramNamesAreNames, TokenNamesAreNames};

/// Each name among the tokens of bytes is an identifier.
pub fn token_names_are_names()
    ensures { TokenNamesAreNames }
{}

/// Each name of an item that the tokens of bytes spell is an identifier.
pub fn item_names_are_names()
    ensures { ItemNamesAreNames }
{}

/// Each name of what a file declares is an identifier.
pub fn program_names_are_names()
    ensures { ProgramNamesAreNames }
{}
