//! The variants that `use E::..;` and paths `E::V` name.
ghost use Rattle.std.specs.Prelude.{◌≡◌, List, [], map, position, slice_get, option_map};
ghost use Rattle.std.specs.Rc.{rc_str_bytes};
ghost use Rattle.std.specs.Str.{bytes_eq};
ghost use Rattle.match_model.specs.Types.{DeclaredItem, OptionOwner, ResultOwner};
ghost use Rattle.decl_syntax.specs.Items.{ItemTree, item_view, form_view, variant_view, kind_view};
ghost use Rattle.type_names.specs.Imports.{kind_variants, form_kind, enum_item, enum_of, meant_enum, variant_number, owner_variants, form_at};
ghost use Rattle.type_names.specs.Views.{owner_view, means_in, place_in, AreNames};

use crate::meanings::{FormKind, Meaning, Owner};
use crate::names::{Names, VariantNames};
use decl_lexer::Name;
use decl_syntax::{Form, Item, ItemKind, Variant};

/// The enum that a name means in the file with these items, if it means one.
pub fn enum_of(names: &Names, items: &[Item], name: &str) -> Option<Owner>
    requires { AreNames (map item_view items.now) names.now }
    ensures { option_map owner_view result ≡ enum_of (map item_view items.now) name.now }
{
    meant_enum(names, items, name)
}

// The same, by the look-ups.
fn meant_enum(names: &Names, items: &[Item], name: &str) -> Option<Owner>
    ensures { option_map owner_view result ≡ meant_enum (map item_view items.now) (means_in names.now name.now) }
{
    match names.meaning(name) {
        Some(Meaning::Item(i)) => enum_item(items, i),
        Some(Meaning::Option) => Some(Owner::Option),
        Some(Meaning::Result) => Some(Owner::Result),
        Some(Meaning::Base(_)) => None,
        Some(Meaning::Opaque(_)) => None,
        None => None,
    }
}

// The item, if it is an enum.
fn enum_item(items: &[Item], i: usize) -> Option<Owner>
    ensures { option_map owner_view result ≡ enum_item i (slice_get (map item_view items.now) i) }
{
    let item = items.get(i)?;
    match &item.kind {
        ItemKind::Enum(_) => Some(Owner::Item(i as u64)),
        _ => None,
    }
}

/// The kind of a form.
pub fn form_kind(form: &Form) -> FormKind
    ensures { result ≡ form_kind (form_view form.now) }
{
    match form {
        Form::Unit => FormKind::Unit,
        Form::Tuple(_) => FormKind::Tuple,
        Form::Brace(_) => FormKind::Brace,
    }
}

impl Names {
    /// The number of the first variant of this name, counted from 0.
    pub fn variant(&self, owner: Owner, name: &str) -> Option<usize>
        ensures { (items : List ItemTree) → AreNames items self.now
            → result ≡ variant_number items (owner_view owner) name.now }
    {
        match owner {
            Owner::Item(i) => self.item_variant(i as usize, name),
            Owner::Option => option_variant(name),
            Owner::Result => result_variant(name),
        }
    }

    // The number of the first variant of this name of the item.
    fn item_variant(&self, i: usize, name: &str) -> Option<usize>
        ensures { result ≡ place_in (slice_get self.now.variants.items i) name.now }
    {
        match self.variants.get(i)? {
            VariantNames::Few(names) => first_place(names, name),
            VariantNames::Many(places) => places.get(name).copied(),
        }
    }
}

// The place of the first of the names that is this one.
fn first_place(names: &[Name], name: &str) -> Option<usize>
    ensures { result ≡ position (bytes_eq name.now) (map rc_str_bytes names.now) }
{
    for (i, other) in names.iter().enumerate() {
        if name == other.as_str() {
            return Some(i);
        }
    }
    None
}

// The number of the variant of `Option` of this name.
fn option_variant(name: &str) -> Option<usize>
    ensures { result ≡ variant_number [] OptionOwner name.now }
{
    if name == "None" {
        return Some(0);
    }
    if name == "Some" {
        return Some(1);
    }
    None
}

// The number of the variant of `Result` of this name.
fn result_variant(name: &str) -> Option<usize>
    ensures { result ≡ variant_number [] ResultOwner name.now }
{
    if name == "Ok" {
        return Some(0);
    }
    if name == "Err" {
        return Some(1);
    }
    None
}

/// The form of the variant with this number, counted from 0.
pub fn variant_form(items: &[Item], owner: Owner, k: usize) -> Option<FormKind>
    ensures { result ≡ form_at (owner_variants (map item_view items.now) (owner_view owner)) (Some k) }
{
    match owner {
        Owner::Item(i) => item_variant_form(items, i as usize, k),
        Owner::Option => match k {
            0 => Some(FormKind::Unit),
            1 => Some(FormKind::Tuple),
            _ => None,
        },
        Owner::Result => match k {
            0 => Some(FormKind::Tuple),
            1 => Some(FormKind::Tuple),
            _ => None,
        },
    }
}

// The form of the item's variant with this number.
fn item_variant_form(items: &[Item], i: usize, k: usize) -> Option<FormKind>
    ensures { result ≡ form_at (owner_variants (map item_view items.now) (DeclaredItem i)) (Some k) }
{
    let item = items.get(i)?;
    let variant = variants_of(&item.kind).get(k)?;
    Some(form_kind(&variant.form))
}

/// The variants of an item; what is no enum has none.
pub fn variants_of(kind: &ItemKind) -> &[Variant]
    ensures { map variant_view result.now ≡ kind_variants (kind_view kind.now) }
{
    match kind {
        ItemKind::Enum(e) => &e.variants,
        ItemKind::Struct(_) => &[],
        ItemKind::Import(_) => &[],
        ItemKind::Function(_) => &[],
    }
}
