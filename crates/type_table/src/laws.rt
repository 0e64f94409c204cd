//! What follows of a whole table: each function changes nothing, and its contract is a law.
ghost use Rattle.std.specs.Prelude.{◌≡◌};
ghost use Rattle.match_model.specs.ContextLaws.{ValuesLaw, PartsLaw, EmptyLaw, UnsureLaw};
ghost use Rattle.match_model.specs.ContextViews.{View};
ghost use Rattle.match_model.specs.Emptiness.{IsRustType};
ghost use Rattle.match_model.specs.RustTypes.{IsSoundProgram, rust_context};
ghost use Rattle.type_table.specs.Marks.{found_empty, found_variant_empty};
ghost use Rattle.type_table.specs.TableContext.{TableValue, table_context};
ghost use Rattle.type_table.specs.Tables.{IsOf, table_program, table_type};
ghost use Rattle.type_table.specs.declared.table.TyId.{TyId};

use crate::table::TypeTable;

impl TypeTable {
    /// Two numbers of this table stand for one type only where they are equal.
    pub fn equal_types_have_one_number(&self)
        ensures { (a b : TyId) → IsOf self.now a → IsOf self.now b → table_type self.now a ≡ table_type self.now b
            → a ≡ b }
    {}

    /// Each type of a table is a type of its program, which is sound.
    pub fn types_are_sound(&self)
        ensures program { IsSoundProgram (table_program self.now) }
        ensures types { (ty : TyId) → IsOf self.now ty → IsRustType (table_program self.now) (table_type self.now ty) }
    {}

    /// The context of a table is seen through the types of its numbers as the context of Rust's types, and so keeps the
    /// laws of a context: what its types are, which values they have, and what is told of emptiness.
    pub fn context_is_lawful(&self)
        ensures view { View (table_type self.now) (IsOf self.now) (IsRustType (table_program self.now))
            (table_context self.now) (rust_context (table_program self.now)) }
        ensures values { ValuesLaw (IsOf self.now) (TableValue self.now) (table_context self.now) }
        ensures parts { PartsLaw (IsOf self.now) (TableValue self.now) (table_context self.now) }
        ensures empty { EmptyLaw (IsOf self.now) (TableValue self.now) (table_context self.now)
            (found_empty self.now) (found_variant_empty self.now) }
        ensures unsure { UnsureLaw (IsOf self.now) (TableValue self.now) }
    {}
}
