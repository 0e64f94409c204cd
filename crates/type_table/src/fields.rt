//! The variants and fields of types.
ghost use Rattle.std.specs.Prelude.{◌≡◌, ◌<◌, nat_eq, nat_lt, if◌then◌else◌, List, Some};
ghost use Rattle.std.specs.Prelude.{length, slice_get, option_map, IsSome};
ghost use Rattle.match_model.specs.Types.{MType, OptionOwner, ResultOwner, NamedType, more_types, no_types};
ghost use Rattle.match_model.specs.Declarations.{MProgram, variant_types, item_variants};
ghost use Rattle.match_model.specs.RustTypes.{count_of_types};
ghost use Rattle.type_table.specs.Entries.{variant_entry, entry_told};
ghost use Rattle.type_table.specs.Tables.{IsOf, table_program, table_type, table_types, field_type};
ghost use Rattle.type_table.specs.Tables.{field_name_of, declared_variant_at, form_field_name};
ghost use Rattle.type_table.specs.Tables.{NamedBy, type_variant, variant_name_of, fields_of_type};
ghost use Rattle.type_table.specs.Parts.{id_at, part_at, field_at, entry_variant_at, named_part, node_part};
ghost use Rattle.type_table.specs.Parts.{part_there, part_id};
ghost use Rattle.type_table.specs.Readings.{tuple_part, option_part, result_part};

use crate::entries::{Entry, VariantEntry};
use crate::kinds::field_count;
use crate::nodes::{Head, Node};
use crate::table::{TyId, TypeTable};
use type_names::{FormKind, Owner};

impl TypeTable {
    /// The type of a field, or of a part of a tuple, whose variant is 0 as that of a struct. Numbers count from 0.
    pub fn field(&self, ty: TyId, variant: u32, i: u32) -> TyId
        requires of { IsOf self.now ty }
        requires there { IsSome (field_type (table_program self.now) (table_type self.now ty) variant i) }
        ensures is { result ≡ part_id self.now ty variant i }
        ensures of { IsOf self.now result }
        ensures type_is { field_type (table_program self.now) (table_type self.now ty) variant i
            ≡ Some (table_type self.now result) }
    {
        match self.field_there(ty, variant as usize, i as usize) {
            Some(id) => id,
            None => unreachable!(),
        }
    }

    /// The same, if it is there.
    pub(crate) fn field_there(&self, ty: TyId, k: usize, i: usize) -> Option<TyId>
        requires { IsOf self.now ty }
        ensures { result ≡ part_there self.now ty k i }
    {
        self.node_part(self.node(ty), k, i)
    }

    // The field of a node's type, if it is there.
    fn node_part(&self, node: &Node, k: usize, i: usize) -> Option<TyId>
        ensures { result ≡ node_part self.now.items.items (Some node.now) k i }
    {
        match node.head {
            Head::Base(_) => None,
            Head::Opaque(_) => None,
            Head::Tuple => part_at(node, tuple_part(k, i)),
            Head::Point(_) => None,
            Head::Slice => None,
            Head::Array(_) => None,
            Head::Named(owner) => self.named_part(node, owner, k, i),
        }
    }

    /// How many fields a variant has, or how many parts a tuple, whose variant is 0. Variants count from 0.
    pub fn fields(&self, ty: TyId, variant: u32) -> u32
        requires of { IsOf self.now ty }
        ensures { result ≡ fields_of_type (table_program self.now) (table_type self.now ty) variant }
    {
        self.fields_there(ty, variant as usize) as u32
    }

    /// The same, of any size.
    pub(crate) fn fields_there(&self, ty: TyId, k: usize) -> usize
        requires of { IsOf self.now ty }
        ensures { result ≡ fields_of_type (table_program self.now) (table_type self.now ty) k }
    {
        let node = self.node(ty);
        match node.head {
            Head::Base(_) => 0,
            Head::Opaque(_) => 0,
            Head::Tuple => tuple_fields(node, k),
            Head::Point(_) => 0,
            Head::Slice => 0,
            Head::Array(_) => 0,
            Head::Named(owner) => self.named_fields(ty, owner, k),
        }
    }

    // How many fields a variant of a named type has.
    fn named_fields(&self, ty: TyId, owner: Owner, k: usize) -> usize
        requires of { IsOf self.now ty }
        requires named { NamedBy self.now ty owner }
        ensures { result ≡ fields_of_type (table_program self.now) (table_type self.now ty) k }
    {
        match owner {
            Owner::Item(n) => self.item_fields(n as usize, k),
            Owner::Option => option_fields(k),
            Owner::Result => result_fields(k),
        }
    }

    // How many fields a variant of a declared type has.
    fn item_fields(&self, n: usize, k: usize) -> usize
        ensures { result ≡ count_of_types (variant_types (declared_variant_at self.now n k)) }
    {
        match self.declared_variant(n, k) {
            Some(variant) => field_count(variant),
            None => 0,
        }
    }

    // The type of a field of a named type, if it is there.
    fn named_part(&self, node: &Node, owner: Owner, k: usize, i: usize) -> Option<TyId>
        ensures { result ≡ named_part self.now.items.items owner node.now.parts.items k i }
    {
        match owner {
            Owner::Item(n) => self.item_field(n as usize, k, i),
            Owner::Option => part_at(node, option_part(k, i)),
            Owner::Result => part_at(node, result_part(k, i)),
        }
    }

    // The type of a field of a declared type, if it is there.
    fn item_field(&self, n: usize, k: usize, i: usize) -> Option<TyId>
        ensures { result ≡ field_at (entry_variant_at (slice_get self.now.items.items n) k) i }
    {
        let variant = self.declared_variant(n, k)?;
        variant_field(variant, i)
    }

    /// The name of a variant of an enum, or of the one of a struct, without the enum's. Variants count from 0.
    pub fn variant_name(&self, ty: TyId, variant: u32) -> &str
        requires of { IsOf self.now ty }
        requires there { IsSome (type_variant (table_program self.now) (table_type self.now ty) variant) }
        ensures { variant_name_of (type_variant (table_program self.now) (table_type self.now ty) variant)
            ≡ Some result.now }
    {
        match self.name_there(ty, variant as usize) {
            Some(name) => name,
            None => unreachable!(),
        }
    }

    /// The same, if it is there.
    pub(crate) fn name_there(&self, ty: TyId, k: usize) -> Option<&str>
        requires of { IsOf self.now ty }
        ensures { option_map (λ s. s.now) result
            ≡ variant_name_of (type_variant (table_program self.now) (table_type self.now ty) k) }
    {
        match self.named(ty) {
            Some(Owner::Item(i)) => self.declared_name(i as usize, k),
            Some(Owner::Option) => option_name(k),
            Some(Owner::Result) => result_name(k),
            None => None,
        }
    }

    // The name of a variant of the item with this number.
    fn declared_name(&self, i: usize, k: usize) -> Option<&str>
        ensures { option_map (λ s. s.now) result ≡ variant_name_of (declared_variant_at self.now i k) }
    {
        let variant = self.declared_variant(i, k)?;
        Some(variant.name.as_str())
    }

    /// The name of a field of a variant of brace form; a field of another form has none. Numbers count from 0.
    pub fn field_name(&self, ty: TyId, variant: u32, i: u32) -> Option<&str>
        requires of { IsOf self.now ty }
        ensures { option_map (λ s. s.now) result
            ≡ field_name_of (type_variant (table_program self.now) (table_type self.now ty) variant) i }
    {
        match self.named(ty) {
            Some(Owner::Item(n)) => self.declared_field_name(
                n as usize,
                variant as usize,
                i as usize,
            ),
            Some(Owner::Option) => None,
            Some(Owner::Result) => None,
            None => None,
        }
    }

    // The name of a field of the item with this number.
    fn declared_field_name(&self, n: usize, k: usize, i: usize) -> Option<&str>
        ensures { option_map (λ s. s.now) result ≡ field_name_of (declared_variant_at self.now n k) i }
    {
        let variant = self.declared_variant(n, k)?;
        variant_field_name(variant, i)
    }

    // The variant with this number of the item with this number.
    fn declared_variant(&self, i: usize, k: usize) -> Option<&VariantEntry>
        ensures is { option_map (λ v. v.now) result ≡ entry_variant_at (slice_get self.now.items.items i) k }
        ensures variant { option_map (λ v. variant_entry (table_types self.now) v.now) result
            ≡ declared_variant_at self.now i k }
    {
        let entry = self.items.get(i)?;
        entry_variant(entry, k)
    }
}

// The variant with this number of an item; a struct has one.
fn entry_variant(entry: &Entry, k: usize) -> Option<&VariantEntry>
    ensures is { option_map (λ v. v.now) result ≡ entry_variant_at (Some entry.now) k }
    ensures variant { (types : List MType) → option_map (λ v. variant_entry types v.now) result
        ≡ slice_get (item_variants (Some (entry_told types entry.now).item)) k }
{
    match entry {
        Entry::Struct { variant, .. } => { if k == 0 { Some(variant) } else { None } }
        Entry::Enum { variants, .. } => variants.get(k),
        Entry::Function { .. } => None,
        Entry::Import => None,
    }
}

// The type of a field of a variant.
fn variant_field(variant: &VariantEntry, i: usize) -> Option<TyId>
    ensures { result ≡ field_at (Some variant.now) i }
{
    match variant.form {
        FormKind::Unit => None,
        FormKind::Tuple => field_id(variant, i),
        FormKind::Brace => field_id(variant, i),
    }
}

// The type of the field with this number in the list.
fn field_id(variant: &VariantEntry, i: usize) -> Option<TyId>
    ensures { result ≡ id_at (option_map (λ f. f.ty) (slice_get variant.now.fields.items i)) }
{
    let field = variant.fields.get(i)?;
    Some(TyId { index: field.ty })
}

// The name of a field of a variant of brace form.
fn variant_field_name(variant: &VariantEntry, i: usize) -> Option<&str>
    ensures { (types : List MType) → option_map (λ s. s.now) result
        ≡ form_field_name (variant_entry types variant.now).form i }
{
    match variant.form {
        FormKind::Unit => None,
        FormKind::Tuple => None,
        FormKind::Brace => {
            let field = variant.fields.get(i)?;
            Some(field.name.as_str())
        }
    }
}

/// The part of a node with this number, if there is one.
pub(crate) fn part_at(node: &Node, number: Option<usize>) -> Option<TyId>
    ensures { result ≡ part_at node.now.parts.items number }
{
    let index = node.parts.get(number?)?;
    Some(TyId { index: *index })
}

// Which part of a tuple a field is.
fn tuple_part(k: usize, i: usize) -> Option<usize>
    ensures { result ≡ tuple_part k i }
{
    if k == 0 { Some(i) } else { None }
}

// Which argument of `Option` a field is.
fn option_part(k: usize, i: usize) -> Option<usize>
    ensures { result ≡ option_part k i }
{
    if k == 1 && i == 0 { Some(0) } else { None }
}

// Which argument of `Result` a field is.
fn result_part(k: usize, i: usize) -> Option<usize>
    ensures { result ≡ result_part k i }
{
    if k < 2 && i == 0 { Some(k) } else { None }
}

// The name of a variant of `Option`.
fn option_name(k: usize) -> Option<&'static str>
    ensures { (program : MProgram) (t : MType) → option_map (λ s. s.now) result
        ≡ variant_name_of (type_variant program (NamedType OptionOwner (more_types t no_types)) k) }
{
    match k {
        0 => Some("None"),
        1 => Some("Some"),
        _ => None,
    }
}

// The name of a variant of `Result`.
fn result_name(k: usize) -> Option<&'static str>
    ensures { (program : MProgram) (t u : MType) → option_map (λ s. s.now) result
        ≡ variant_name_of (type_variant program (NamedType ResultOwner (more_types t (more_types u no_types))) k) }
{
    match k {
        0 => Some("Ok"),
        1 => Some("Err"),
        _ => None,
    }
}

// How many fields a variant of a tuple has.
fn tuple_fields(node: &Node, k: usize) -> usize
    ensures { result ≡ (if nat_eq k 0 then length node.now.parts.items else 0) }
{
    if k == 0 { node.parts.len() } else { 0 }
}

// How many fields a variant of `Option` has.
fn option_fields(k: usize) -> usize
    ensures { result ≡ (if nat_eq k 1 then 1 else 0) }
{
    if k == 1 { 1 } else { 0 }
}

// How many fields a variant of `Result` has.
fn result_fields(k: usize) -> usize
    ensures { result ≡ (if nat_lt k 2 then 1 else 0) }
{
    if k < 2 { 1 } else { 0 }
}
