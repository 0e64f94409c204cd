//! What kind of type a number stands for.
ghost use Rattle.std.specs.Prelude.{◌≡◌, ◌<◌, ◌^◌, List, length, slice_get, Some};
ghost use Rattle.type_names.specs.Views.{owner_view, base_view};
ghost use Rattle.match_model.specs.Types.{MType, DeclaredItem, NamedType, MTypes, no_types, types_list};
ghost use Rattle.type_table.specs.declared.table.TypeTable.{TypeTable};
ghost use Rattle.type_table.specs.declared.table.TyId.{TyId};
ghost use Rattle.type_table.specs.Parts.{node_inner, inner_id, HoldsInner};
ghost use Rattle.type_table.specs.Nodes.{owner_arguments};
ghost use Rattle.type_table.specs.Tables.{IsOf, KindIs, table_program, table_type};
ghost use Rattle.type_table.specs.Tables.{count_of_type, ItemKindIs, fields_of_entry, entry_count};
ghost use Rattle.type_table.specs.Entries.{entry_told};

use crate::entries::{Entry, VariantEntry};
use crate::fields::part_at;
use crate::nodes::{Head, Node};
use crate::table::{TyId, TypeTable};
use match_model::IntKind;
use type_names::{Base, FormKind, Owner};

/// The kinds of types. `Tuple` and `Struct` have the number of their parts, `Enum` the number of its variants; `later`
/// says that an enum is `#[non_exhaustive]`.
#[derive(Clone, Copy, Debug, PartialEq, Eq)]
pub enum TyKind {
    Bool,
    Char,
    Int(IntKind),
    Str,
    Never,
    Opaque,
    Tuple(u32),
    Point { mutable: bool, inner: TyId },
    Slice(TyId),
    Array(TyId, u64),
    Struct(u32),
    Enum { count: u32, later: bool },
}

impl TypeTable {
    /// The kind of a type of this table.
    pub fn kind(&self, ty: TyId) -> TyKind
        requires of { IsOf self.now ty }
        ensures is { KindIs self.now (table_type self.now ty) result }
        ensures inner { HoldsInner result (inner_id self.now ty) }
    {
        let node = self.node(ty);
        match node.head {
            Head::Base(b) => base_kind(b),
            Head::Opaque(_) => TyKind::Opaque,
            Head::Tuple => TyKind::Tuple(node.parts.len() as u32),
            Head::Point(mutable) => TyKind::Point {
                mutable,
                inner: self.inner(ty),
            },
            Head::Slice => TyKind::Slice(self.inner(ty)),
            Head::Array(n) => TyKind::Array(self.inner(ty), n),
            Head::Named(owner) => self.named_kind(ty, owner),
        }
    }

    /// The type behind a reference, or of the items of a slice or array; of every other type the type itself.
    pub(crate) fn inner(&self, ty: TyId) -> TyId
        requires { IsOf self.now ty }
        ensures { result ≡ inner_id self.now ty }
    {
        node_inner(self.node(ty)).unwrap_or(ty)
    }

    // The kind of a named type.
    fn named_kind(&self, ty: TyId, owner: Owner) -> TyKind
        requires of { IsOf self.now ty }
        requires named { (ts : MTypes) × (table_type self.now ty ≡ NamedType (owner_view owner) ts)
            × (length (types_list ts) ≡ owner_arguments (owner_view owner)) }
        requires few { count_of_type (table_program self.now) (table_type self.now ty) < 2 ^ 32 }
        ensures is { KindIs self.now (table_type self.now ty) result }
        ensures inner { (id : TyId) → HoldsInner result id }
    {
        match owner {
            Owner::Item(i) => self.item_kind(i as usize),
            Owner::Option => TyKind::Enum {
                count: 2,
                later: false,
            },
            Owner::Result => TyKind::Enum {
                count: 2,
                later: false,
            },
        }
    }

    // The kind of the type that an item declares.
    fn item_kind(&self, i: usize) -> TyKind
        requires few { count_of_type (table_program self.now) (NamedType (DeclaredItem i) no_types) < 2 ^ 32 }
        ensures is { KindIs self.now (NamedType (DeclaredItem i) no_types) result }
        ensures inner { (id : TyId) → HoldsInner result id }
    {
        match self.items.get(i) {
            Some(entry) => entry_kind(entry),
            None => TyKind::Enum {
                count: 0,
                later: false,
            },
        }
    }

    /// The node of a type.
    pub(crate) fn node(&self, ty: TyId) -> &Node
        requires { IsOf self.now ty }
        ensures { slice_get self.now.nodes.keys ty.index ≡ Some result.now }
    {
        &self.nodes.as_slice()[ty.index]
    }
}

// What is behind a node's type.
fn node_inner(node: &Node) -> Option<TyId>
    ensures { result ≡ node_inner (Some node.now) }
{
    match node.head {
        Head::Base(_) => None,
        Head::Opaque(_) => None,
        Head::Tuple => None,
        Head::Point(_) => part_at(node, Some(0)),
        Head::Slice => part_at(node, Some(0)),
        Head::Array(_) => part_at(node, Some(0)),
        Head::Named(_) => None,
    }
}

// The kind of a type without arguments.
fn base_kind(base: Base) -> TyKind
    ensures is { (table : TypeTable) → KindIs table (base_view base) result }
    ensures inner { (id : TyId) → HoldsInner result id }
{
    match base {
        Base::Bool => TyKind::Bool,
        Base::Char => TyKind::Char,
        Base::Str => TyKind::Str,
        Base::Never => TyKind::Never,
        Base::U8 => TyKind::Int(IntKind::U8),
        Base::U16 => TyKind::Int(IntKind::U16),
        Base::U32 => TyKind::Int(IntKind::U32),
        Base::U64 => TyKind::Int(IntKind::U64),
        Base::U128 => TyKind::Int(IntKind::U128),
        Base::USize => TyKind::Int(IntKind::USize),
        Base::I8 => TyKind::Int(IntKind::I8),
        Base::I16 => TyKind::Int(IntKind::I16),
        Base::I32 => TyKind::Int(IntKind::I32),
        Base::I64 => TyKind::Int(IntKind::I64),
        Base::I128 => TyKind::Int(IntKind::I128),
        Base::ISize => TyKind::Int(IntKind::ISize),
    }
}

// The kind of the type that an item declares.
fn entry_kind(entry: &Entry) -> TyKind
    requires { (entry_count entry.now) < 2 ^ 32 }
    ensures is { (types : List MType) → ItemKindIs (entry_told types entry.now).item result }
    ensures inner { (id : TyId) → HoldsInner result id }
{
    match entry {
        Entry::Struct { variant, .. } => TyKind::Struct(field_count(variant) as u32),
        Entry::Enum {
            later,
            variants,
            ..
        } => TyKind::Enum {
            count: variants.len() as u32,
            later: *later,
        },
        Entry::Function { .. } => TyKind::Enum {
            count: 0,
            later: false,
        },
        Entry::Import => TyKind::Enum {
            count: 0,
            later: false,
        },
    }
}

/// How many fields a variant has.
pub(crate) fn field_count(variant: &VariantEntry) -> usize
    ensures { result ≡ fields_of_entry variant.now }
{
    match variant.form {
        FormKind::Unit => 0,
        FormKind::Tuple => variant.fields.len(),
        FormKind::Brace => variant.fields.len(),
    }
}
