//! Who declares a type, and what a function looks at.
ghost use Rattle.std.specs.Prelude.{◌≡◌, ◌<◌, ℕ, true, Some, List, slice_get, option_map, IfSome};
ghost use Rattle.match_model.specs.Types.{MType};
ghost use Rattle.type_names.specs.Views.{owner_view};
ghost use Rattle.type_table.specs.Entries.{entry_told, entry_below};
ghost use Rattle.type_table.specs.Tables.{IsOf, table_program, table_type, table_told, NamedBy};
ghost use Rattle.type_table.specs.Readers.{type_owner, is_enum_item, enum_owner, item_name, owner_item};
ghost use Rattle.type_table.specs.Readers.{owner_name, behind, scrutinee_by, scrutinee_of, parameter_told};
ghost use Rattle.type_table.specs.Nodes.{type_at};

use crate::entries::Entry;
use crate::nodes::Head;
use crate::table::{TyId, TypeTable};
use type_names::Owner;

impl TypeTable {
    /// The owner of an enum type; every other type has none.
    pub fn owner(&self, ty: TyId) -> Option<Owner>
        requires of { IsOf self.now ty }
        ensures { option_map owner_view result
            ≡ enum_owner (table_program self.now) (type_owner (table_type self.now ty)) }
    {
        let owner = self.named(ty)?;
        self.if_enum(owner)
    }

    /// The number of the item that declares an enum or struct type, counted from 0; every other type has none.
    pub fn item(&self, ty: TyId) -> Option<u64>
        requires of { IsOf self.now ty }
        ensures { result ≡ owner_item (table_program self.now) (type_owner (table_type self.now ty)) }
    {
        match self.named(ty) {
            Some(Owner::Item(i)) => match self.item_name(i as usize) {
                Some(_) => Some(i),
                None => None,
            },
            Some(Owner::Option) => None,
            Some(Owner::Result) => None,
            None => None,
        }
    }

    /// The name of the item that declares an enum or struct type; every other type has none.
    pub fn owner_name(&self, ty: TyId) -> Option<&str>
        requires of { IsOf self.now ty }
        ensures { option_map (λ s. s.now) result
            ≡ owner_name (table_program self.now) (type_owner (table_type self.now ty)) }
    {
        match self.named(ty) {
            Some(Owner::Item(i)) => self.item_name(i as usize),
            Some(Owner::Option) => None,
            Some(Owner::Result) => None,
            None => None,
        }
    }

    /// Who declares a named type.
    pub(crate) fn named(&self, ty: TyId) -> Option<Owner>
        requires of { IsOf self.now ty }
        ensures owner { option_map owner_view result ≡ type_owner (table_type self.now ty) }
        ensures by { IfSome result (NamedBy self.now ty) }
    {
        match self.node(ty).head {
            Head::Base(_) => None,
            Head::Opaque(_) => None,
            Head::Tuple => None,
            Head::Point(_) => None,
            Head::Slice => None,
            Head::Array(_) => None,
            Head::Named(owner) => Some(owner),
        }
    }

    // The owner, if it declares an enum.
    fn if_enum(&self, owner: Owner) -> Option<Owner>
        ensures { option_map owner_view result ≡ enum_owner (table_program self.now) (Some (owner_view owner)) }
    {
        match owner {
            Owner::Item(i) => {
                if self.is_enum(i as usize) {
                    Some(Owner::Item(i))
                } else {
                    None
                }
            }
            Owner::Option => Some(Owner::Option),
            Owner::Result => Some(Owner::Result),
        }
    }

    // Whether the item is an enum.
    fn is_enum(&self, i: usize) -> bool
        ensures { result ≡ is_enum_item (slice_get (table_program self.now).items i) }
    {
        match self.items.get(i) {
            Some(entry) => entry_is_enum(entry),
            None => false,
        }
    }

    // The name of the enum or struct that an item declares.
    fn item_name(&self, i: usize) -> Option<&str>
        ensures { option_map (λ s. s.now) result ≡ item_name (slice_get (table_program self.now).items i) }
    {
        match self.items.get(i) {
            Some(entry) => entry_name(entry),
            None => None,
        }
    }

    /// The type that the function with this item number looks at, and whether it writes `match *x`; none where it does
    /// and its parameter is no reference. What is no function has none either. Items count from 0.
    pub fn scrutinee(&self, item: u64) -> Option<(TyId, bool)>
        ensures of { IfSome result (λ r. IsOf self.now r.0) }
        ensures told { option_map (λ r. (table_type self.now r.0, r.1)) result
            ≡ scrutinee_of (parameter_told (slice_get (table_told self.now) item)) }
    {
        let (param, deref) = self.parameter(item as usize)?;
        self.looked_at(param, deref)
    }

    // The type of `x`, or of `*x`.
    fn looked_at(&self, param: TyId, deref: bool) -> Option<(TyId, bool)>
        requires of { IsOf self.now param }
        ensures of { IfSome result (λ r. IsOf self.now r.0) }
        ensures told { option_map (λ r. (table_type self.now r.0, r.1)) result
            ≡ scrutinee_by (table_type self.now param) deref }
    {
        if !deref {
            return Some((param, false));
        }
        let inner = self.behind(param)?;
        Some((inner, true))
    }

    // The type behind a reference.
    fn behind(&self, ty: TyId) -> Option<TyId>
        requires of { IsOf self.now ty }
        ensures of { IfSome result (IsOf self.now) }
        ensures type_is { option_map (table_type self.now) result ≡ behind (table_type self.now ty) }
    {
        match self.node(ty).head {
            Head::Base(_) => None,
            Head::Opaque(_) => None,
            Head::Tuple => None,
            Head::Point(_) => Some(self.inner(ty)),
            Head::Slice => None,
            Head::Array(_) => None,
            Head::Named(_) => None,
        }
    }

    // The type of a function's parameter, and whether it writes `match *x`.
    fn parameter(&self, i: usize) -> Option<(TyId, bool)>
        ensures of { IfSome result (λ r. IsOf self.now r.0) }
        ensures told { option_map (λ r. (table_type self.now r.0, r.1)) result
            ≡ parameter_told (slice_get (table_told self.now) i) }
    {
        match self.items.get(i) {
            Some(entry) => entry_parameter(entry),
            None => None,
        }
    }
}

// Whether the item is an enum.
fn entry_is_enum(entry: &Entry) -> bool
    ensures { (types : List MType) → result ≡ is_enum_item (Some (entry_told types entry.now).item) }
{
    match entry {
        Entry::Enum { .. } => true,
        Entry::Struct { .. } => false,
        Entry::Function { .. } => false,
        Entry::Import => false,
    }
}

// The name of the enum or struct that the item declares.
fn entry_name(entry: &Entry) -> Option<&str>
    ensures { (types : List MType) → option_map (λ s. s.now) result
        ≡ item_name (Some (entry_told types entry.now).item) }
{
    match entry {
        Entry::Enum { name, .. } => Some(name.as_str()),
        Entry::Struct { variant, .. } => Some(variant.name.as_str()),
        Entry::Function { .. } => None,
        Entry::Import => None,
    }
}

// The type of a function's parameter, and whether it writes `match *x`.
fn entry_parameter(entry: &Entry) -> Option<(TyId, bool)>
    ensures below { (n : ℕ) → entry_below n entry.now ≡ true → IfSome result (λ r. r.0.index < n) }
    ensures told { (types : List MType) → option_map (λ r. (type_at types r.0.index, r.1)) result
        ≡ (entry_told types entry.now).parameter }
{
    match entry {
        Entry::Enum { .. } => None,
        Entry::Struct { .. } => None,
        Entry::Function { param, deref } => Some((TyId { index: *param }, *deref)),
        Entry::Import => None,
    }
}
