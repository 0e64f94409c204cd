//! The laws of the definition: a source has one list of tokens or one fault, and never both.
ghost use Rattle.decl_lexer.specs.Laws.{OneTokenList, OneFault, NeverBoth, OneOfThem, TokensInOrder, FaultsAreKnown, CommentsNest};

/// No source has two lists of tokens.
pub fn one_token_list()
    ensures { OneTokenList }
{}

/// No source has two faults.
pub fn one_fault()
    ensures { OneFault }
{}

/// Each source has its tokens or a fault, and never both.
pub fn tokens_or_fault()
    ensures some { OneOfThem }
    ensures not_both { NeverBoth }
{}

/// Tokens stand in order, and their places do not overlap.
pub fn tokens_in_order()
    ensures { TokensInOrder }
{}

/// Faults are of the rules 1 to 5, and stand within the source.
pub fn faults_are_known()
    ensures { FaultsAreKnown }
{}

/// Block comments nest.
pub fn comments_nest()
    ensures { CommentsNest }
{}
