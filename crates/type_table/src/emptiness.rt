//! Which types of a table, and which variants of them, have no value where a place is sure to hold a valid one.
ghost use Rattle.std.specs.Prelude.{◌≡◌, is_some};
ghost use Rattle.match_model.specs.Declarations.{node_types};
ghost use Rattle.type_table.specs.Empty.{TellsEmpty, TellsVariantEmpty};
ghost use Rattle.type_table.specs.Marks.{found_empty, found_variant_empty, lacks_value, lacks_field};
ghost use Rattle.type_table.specs.Parts.{part_there};
ghost use Rattle.type_table.specs.Tables.{IsOf, table_program, table_type, fields_of_type};

use crate::nodes::Head;
use crate::table::{TyId, TypeTable};

impl TypeTable {
    /// Whether a type of this table has no value where a place is sure to hold a valid one. `&T` has one there where
    /// `T` has one at an unsure place, as every type of a table has.
    pub fn is_empty(&self, ty: TyId) -> bool
        requires of { IsOf self.now ty }
        ensures found { result ≡ found_empty self.now ty }
        ensures tells { TellsEmpty (table_program self.now) (table_type self.now ty) result }
    {
        !self.values[ty.index]
    }

    /// Whether a variant of a type of this table has no value there. A tuple and a struct have the variant 0, and a
    /// variant that is not there has no value. Variants count from 0.
    pub fn variant_empty(&self, ty: TyId, variant: u32) -> bool
        requires of { IsOf self.now ty }
        ensures found { result ≡ found_variant_empty self.now ty variant }
        ensures tells { TellsVariantEmpty (table_program self.now) (table_type self.now ty) variant result }
    {
        !self.has_variant(ty, variant as usize) || self.has_empty_field(ty, variant as usize)
    }

    // Whether the type has a variant with this number.
    fn has_variant(&self, ty: TyId, k: usize) -> bool
        requires of { IsOf self.now ty }
        ensures { result ≡ is_some (node_types (table_program self.now) (table_type self.now ty) k) }
    {
        match self.node(ty).head {
            Head::Base(_) => false,
            Head::Opaque(_) => false,
            Head::Tuple => k == 0,
            Head::Point(_) => false,
            Head::Slice => false,
            Head::Array(_) => false,
            Head::Named(_) => self.name_there(ty, k).is_some(),
        }
    }

    // Whether a field of the variant has no value.
    fn has_empty_field(&self, ty: TyId, k: usize) -> bool
        requires of { IsOf self.now ty }
        ensures { result
            ≡ lacks_field self.now ty k (fields_of_type (table_program self.now) (table_type self.now ty) k) }
    {
        for i in 0..self.fields_there(ty, k) {
            if self.is_empty_field(ty, k, i) {
                return true;
            }
        }
        false
    }

    // Whether the field with this number is there and has no value.
    fn is_empty_field(&self, ty: TyId, k: usize, i: usize) -> bool
        requires of { IsOf self.now ty }
        ensures { result ≡ lacks_value self.now (part_there self.now ty k i) }
    {
        match self.field_there(ty, k, i) {
            Some(id) => self.is_empty(id),
            None => false,
        }
    }
}
