//! What follows of the definitions: each function changes nothing, and its contract is a law.
ghost use Rattle.value_text.specs.Laws.{MeansValues, ReadsValues, ReadsOne};

use value_syntax::one_written;

/// What a written value means is a value of the type, whatever a program declares.
pub fn meant_is_value()
    ensures { MeansValues }
{}

/// What a text is read as is a value of the type.
pub fn read_is_value()
    ensures { ReadsValues }
{}

/// A text is read as one value of a type at most.
pub fn one_read()
    ensures { ReadsOne }
{
    one_written();
}
