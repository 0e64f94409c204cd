//! What follows from the definition: each function has an empty body, and its contract is a law.

ghost use Rattle.horn_clauses.specs.Laws.{ModelIsClosed, ModelIsLeast, ModelIsOne, ModelIsGrown};

/// The atoms that can be derived are closed under the clauses.
pub fn model_is_closed()
    ensures { ModelIsClosed }
{}

/// Each set of atoms that is closed under the clauses has every atom that can be derived.
pub fn model_is_least()
    ensures { ModelIsLeast }
{}

/// Two lists of marks that are the least model of the same clauses are equal.
pub fn model_is_one()
    ensures { ModelIsOne }
{}

/// The marks of the least model can be made one by one, each as the head of a clause whose body is marked by then.
pub fn model_is_grown()
    ensures { ModelIsGrown }
{}
