//! Laws without code: each function does nothing, and its contract is the law.
ghost use Rattle.edition_laws.specs.Laws.{MovesWhereWritten, OlderWaysAgree, OlderMatchAgrees};

/// The binding mode is a move at each `&` and each `mut` that a value of the domain meets.
pub fn moves_where_written()
    ensures { MovesWhereWritten }
{}

/// So both readings give an arm the same ways.
pub fn older_ways_agree()
    ensures { OlderWaysAgree }
{}

/// And what is found of the match is the same by both.
pub fn older_match_agrees()
    ensures { OlderMatchAgrees }
{}
