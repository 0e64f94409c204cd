//! What is found by a name in a type.
ghost use Rattle.std.specs.Prelude.{◌≡◌};
ghost use Rattle.std.specs.Fmt.{decimal};
ghost use Rattle.std.specs.Str.{bytes_eq};
ghost use Rattle.match_model.specs.Declarations.{variants_of};
ghost use Rattle.type_table.specs.Lookups.{variant_named, field_named, name_or_number};
ghost use Rattle.type_table.specs.Tables.{IsOf, table_program, table_type, type_variant, field_name_of};

use crate::table::{TyId, TypeTable};
use itoa::Buffer;

impl TypeTable {
    /// The number of the first variant of this name, counted from 0; a struct has one variant, and what is neither an
    /// enum nor a struct has none. Its time grows as the variants do.
    pub fn variant_named(&self, ty: TyId, name: &str) -> Option<u32>
        requires { IsOf self.now ty }
        ensures { result ≡ variant_named (variants_of (table_program self.now) (table_type self.now ty)) name.now }
    {
        for k in 0..u32::MAX {
            let Some(other) = self.name_there(ty, k as usize) else {
                return None;
            };
            if name == other {
                return Some(k);
            }
        }
        None
    }

    /// The number of the first field of this name that the variant has, counted from 0. The fields of a tuple form are
    /// named `0`, `1` and so on; a tuple has no fields with names. Its time grows as the fields do.
    ///
    /// Source: the Rust Reference, "Struct patterns".
    pub fn field_named(&self, ty: TyId, variant: u32, name: &str) -> Option<u32>
        requires { IsOf self.now ty }
        ensures { result
            ≡ field_named (type_variant (table_program self.now) (table_type self.now ty) variant) name.now }
    {
        self.name_there(ty, variant as usize)?;
        for i in 0..self.fields(ty, variant) {
            if self.is_field_named(ty, variant, i, name) {
                return Some(i);
            }
        }
        None
    }

    // Whether the field is of this name, or, where it has none, of this number.
    fn is_field_named(&self, ty: TyId, variant: u32, i: u32, name: &str) -> bool
        requires { IsOf self.now ty }
        ensures { result ≡ bytes_eq name.now (name_or_number
            (field_name_of (type_variant (table_program self.now) (table_type self.now ty) variant) i) i) }
    {
        match self.field_name(ty, variant, i) {
            Some(other) => name == other,
            None => is_number(name, i),
        }
    }
}

// Whether the name is the number as it is written in decimal.
fn is_number(name: &str, number: u32) -> bool
    ensures { result ≡ bytes_eq name.now (decimal number) }
{
    let mut buffer = Buffer::new();
    name == buffer.format(number)
}
