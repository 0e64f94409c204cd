//! Laws without code: each function does nothing, and its contract is the law.
ghost use Rattle.name_laws.specs.Laws.{KeywordsAreWritten, NfcOfIdentifier};

/// The NFC of an identifier is an identifier.
pub fn nfc_of_identifier()
    ensures { NfcOfIdentifier }
{}

/// An identifier that is a keyword or `_` in NFC is written so.
pub fn keywords_are_written()
    ensures { KeywordsAreWritten }
{}
