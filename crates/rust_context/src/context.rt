// The context of the types of a table.
ghost use Rattle.std.specs.Prelude.{◌≡◌, ◌<◌};
ghost use Rattle.type_table.specs.Marks.{found_empty, found_variant_empty};
ghost use Rattle.type_table.specs.Parts.{part_id, inner_id};
ghost use Rattle.type_table.specs.TableContext.{table_context, TableValue};
ghost use Rattle.type_table.specs.Tables.{IsOf, table_program, table_type, fields_of_type};
ghost use Rattle.type_table.proofs.ContextLemmas.{table_values, table_parts, table_empty, table_unsure};

use crate::kinds::kind_set;
use pat_context::{Ctor, CtorSet, PatCx};
use slice_split::Shape;
use type_table::{TyId, TyKind, TypeTable};

/// The types of a table, as the engine asks for them: a type is its number in the table. `is_type` holds of the numbers
/// of the table (`IsOf`), the values of a type are Rust's (`TableValue`), and the answers are those of `table_context`.
/// None of the calls takes memory.
#[derive(Clone, Copy, Debug)]
pub struct RustCx<'t> {
    table: &'t TypeTable,
}

impl<'t> RustCx<'t> {
    /// The context of the types of this table. It takes no memory.
    pub fn new(table: &'t TypeTable) -> RustCx<'t>
        ensures { result.table.now ≡ table.now }
    {
        RustCx { table }
    }

    // The type of a part of a struct, tuple or variant.
    fn part(&self, ty: TyId, variant: u32, i: usize) -> TyId
        requires of { IsOf self.now.table.now ty }
        requires there { i < fields_of_type (table_program self.now.table.now) (table_type self.now.table.now ty) variant }
        ensures { result ≡ part_id self.now.table.now ty variant i }
    {
        self.table.field(ty, variant, i as u32)
    }

    // The type behind a reference, or of the items of a slice or array; of every other type the type itself.
    fn inner(&self, ty: TyId) -> TyId
        requires of { IsOf self.now.table.now ty }
        ensures { result ≡ inner_id self.now.table.now ty }
    {
        match self.table.kind(ty) {
            TyKind::Point { inner, .. } => inner,
            TyKind::Slice(item) => item,
            TyKind::Array(item, _) => item,
            _ => ty,
        }
    }
}

impl<'t> PatCx for RustCx<'t> {
    type Ty = TyId;

    ghost is_type = { λ cx. IsOf cx.table.now };

    ghost is_value = { λ cx. TableValue cx.table.now };

    ghost context = { λ cx. table_context cx.table.now };

    ghost empty_of = { λ cx. found_empty cx.table.now };

    ghost variant_empty_of = { λ cx. found_variant_empty cx.table.now };

    ghost values = { λ cx. table_values cx.table.now };

    ghost parts = { λ cx. table_parts cx.table.now };

    ghost empty = { λ cx. table_empty cx.table.now };

    ghost unsure = { λ cx. table_unsure cx.table.now };

    fn set(&self, ty: TyId) -> CtorSet {
        kind_set(self.table.width(), self.table.kind(ty))
    }

    fn is_empty(&self, ty: TyId) -> bool {
        self.table.is_empty(ty)
    }

    fn variant_empty(&self, ty: TyId, k: u32) -> bool {
        self.table.variant_empty(ty, k)
    }

    fn arity(&self, c: &Ctor, ty: TyId) -> usize {
        match c {
            Ctor::Single => self.table.fields(ty, 0) as usize,
            Ctor::Variant(k) => self.table.fields(ty, *k) as usize,
            Ctor::Point => 1,
            Ctor::Row(Shape::Fixed(len)) => *len as usize,
            Ctor::Row(Shape::Longer { front, back }) => *front as usize + *back as usize,
            _ => 0,
        }
    }

    fn sub(&self, c: &Ctor, ty: TyId, i: usize) -> TyId {
        match c {
            Ctor::Single => self.part(ty, 0, i),
            Ctor::Variant(k) => self.part(ty, *k, i),
            Ctor::Point => self.inner(ty),
            Ctor::Row(_) => self.inner(ty),
            _ => ty,
        }
    }
}
