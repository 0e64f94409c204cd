//! The enums and structs of a file by name, and the variants of each enum by name.
ghost use Rattle.std.specs.Prelude.{◌≡◌, map, OnOk, IfOk, option_map};
ghost use Rattle.std.specs.Rc.{rc_str_bytes};
ghost use Rattle.type_names.specs.NameMaps.{get_by_name};
ghost use Rattle.decl_syntax.specs.Items.{item_view, kind_view, variant_view, file_view};
ghost use Rattle.type_names.specs.Meanings.{declared_name, declared_at};
ghost use Rattle.type_names.specs.Imports.{kind_variants};
ghost use Rattle.type_names.specs.Views.{meaning_view, means_in, text_of, with_place, variant_at, places_of, AreNames};

use crate::meanings::{Meaning, built_in};
use decl_lexer::Name;
use decl_syntax::{File, Item, ItemKind, Variant};
use indexmap::IndexMap;
use no_memory::NoMemory;
use std::alloc::Global;

/// The names of a file: the number of the first enum or struct of each name, counted from 0 over all items, and
/// for each item the names of its variants.
#[derive(Debug, Drop)]
pub struct Names {
    pub(crate) declared: IndexMap<Name, usize>,
    pub(crate) variants: Vec<VariantNames>,
}

/// The names of the variants of an item: in the order of declaration, or the number of the first variant of each
/// name. What is no enum has none.
#[derive(Debug, Drop)]
pub(crate) enum VariantNames {
    Few(Vec<Name>),
    Many(Box<IndexMap<Name, usize>>),
}

// The names of so many variants are gone over; of more they are put into a map.
const FEW: usize = 8;

impl Names {
    /// The names of this file.
    pub fn new(alloc: Global, file: &File) -> Result<Names, NoMemory>
        ensures { IfOk result (AreNames (file_view file.now)) }
    {
        let declared = declared_places(alloc, &file.items)?;
        let variants = all_variant_names(alloc, &file.items)?;
        Ok(Names { declared, variants })
    }

    /// What a name means as a type: the first enum or struct of the file that has it, else a built-in type.
    pub fn meaning(&self, name: &str) -> Option<Meaning>
        ensures { option_map meaning_view result ≡ means_in self.now name.now }
    {
        match self.declared.get(name) {
            Some(i) => Some(Meaning::Item(*i)),
            None => built_in(name),
        }
    }
}

// The enums and structs by name.
fn declared_places(alloc: Global, items: &[Item]) -> Result<IndexMap<Name, usize>, NoMemory>
    ensures { IfOk result (λ places. get_by_name places ≡ declared_at (map item_view items.now)) }
{
    let mut places = IndexMap::new(alloc);
    for (i, item) in items.iter().enumerate() {
        note(&mut places, declared_name(&item.kind), i)?;
    }
    Ok(places)
}

// The name that an item declares as a type.
fn declared_name(kind: &ItemKind) -> Option<&Name>
    ensures { text_of result ≡ declared_name (kind_view kind.now) }
{
    match kind {
        ItemKind::Enum(e) => Some(&e.name),
        ItemKind::Struct(s) => Some(&s.name),
        ItemKind::Import(_) => None,
        ItemKind::Function(_) => None,
    }
}

// Notes that a name stands at a place, unless it stands at an earlier one.
fn note(places: &mut IndexMap<Name, usize>, name: Option<&Name>, at: usize) -> Result<(), NoMemory>
    ensures { OnOk result (get_by_name places.new
        ≡ with_place (get_by_name places.old) (text_of name.entry) at) }
{
    let Some(text) = name else {
        return Ok(());
    };
    let copy = text.clone()?;
    places.entry(copy)?.or_insert(at);
    Ok(())
}

// The names of the variants of each item.
fn all_variant_names(alloc: Global, items: &[Item]) -> Result<Vec<VariantNames>, NoMemory>
    ensures { IfOk result (λ all. map places_of all.items
        ≡ map (λ i. variant_at (kind_variants i.kind)) (map item_view items.now)) }
{
    let mut all = Vec::with_capacity(alloc, items.len())?;
    for item in items {
        let names = item_variant_names(alloc, &item.kind)?;
        all.push(names)?;
    }
    Ok(all)
}

// The names of the variants of an item; what is no enum has none.
fn item_variant_names(alloc: Global, kind: &ItemKind) -> Result<VariantNames, NoMemory>
    ensures { IfOk result (λ names. places_of names ≡ variant_at (kind_variants (kind_view kind.now))) }
{
    match kind {
        ItemKind::Enum(e) => variant_names(alloc, &e.variants),
        _ => Ok(VariantNames::Few(Vec::new(alloc))),
    }
}

// The names of these variants.
fn variant_names(alloc: Global, variants: &[Variant]) -> Result<VariantNames, NoMemory>
    ensures { IfOk result (λ names. places_of names ≡ variant_at (map variant_view variants.now)) }
{
    if variants.len() <= FEW {
        let names = few_names(alloc, variants)?;
        Ok(VariantNames::Few(names))
    } else {
        let places = variant_places(alloc, variants)?;
        Ok(VariantNames::Many(Box::new(alloc, places)?))
    }
}

// The names in the order of declaration.
fn few_names(alloc: Global, variants: &[Variant]) -> Result<Vec<Name>, NoMemory>
    ensures { IfOk result (λ all. map rc_str_bytes all.items ≡ map (λ v. v.name) (map variant_view variants.now)) }
{
    let mut all = Vec::with_capacity(alloc, variants.len())?;
    for variant in variants {
        let copy = variant.name.clone()?;
        all.push(copy)?;
    }
    Ok(all)
}

// The number of the first variant of each name.
fn variant_places(alloc: Global, variants: &[Variant]) -> Result<IndexMap<Name, usize>, NoMemory>
    ensures { IfOk result (λ places. get_by_name places ≡ variant_at (map variant_view variants.now)) }
{
    let mut places = IndexMap::new(alloc);
    for (i, variant) in variants.iter().enumerate() {
        note(&mut places, Some(&variant.name), i)?;
    }
    Ok(places)
}
