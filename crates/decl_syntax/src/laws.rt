//! The laws of the grammar: tokens begin with at most one type, one pattern, one list of attributes.
ghost use Rattle.decl_syntax.specs.TypeGrammar.{OneType};
ghost use Rattle.decl_syntax.specs.PatternGrammar.{OnePattern, LevelsSuffice};
ghost use Rattle.decl_syntax.specs.Runs.{OneAttributeList};

/// Tokens begin with at most one type of at most 64 levels, and one place stands behind it.
pub fn one_type()
    ensures { OneType }
{}

/// Tokens begin with at most one pattern of at most 64 levels, and one place stands behind it.
pub fn one_pattern()
    ensures { OnePattern }
{}

/// Tokens begin with at most one list of attributes, and one place stands behind it.
pub fn one_attribute_list()
    ensures { OneAttributeList }
{}

/// A pattern of at most 64 levels is one that at most 64 forms around each other spell, however many are allowed: the levels
/// are the only limit.
pub fn levels_suffice()
    ensures { LevelsSuffice }
{}
