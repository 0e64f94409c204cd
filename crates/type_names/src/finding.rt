//! The names that structs and imports of a file give to patterns, and what a path finds by them.
ghost use Rattle.std.specs.Prelude.{◌≡◌, ℕ, List, [], ◌∷◌, map, slice_get, option_map, IfOk, OnOk, if◌then◌else◌};
ghost use Rattle.std.specs.Rc.{rc_str_bytes};
ghost use Rattle.std.specs.Str.{bytes_eq};
ghost use Rattle.decl_syntax.specs.Items.{ItemTree, item_view, kind_view, variant_view};
ghost use Rattle.decl_syntax.specs.Patterns.{path_view};
ghost use Rattle.type_names.specs.Imports.{meant_enum, variant_number, item_variants};
ghost use Rattle.type_names.specs.NameRules.{is_among};
ghost use Rattle.type_names.specs.Finding.{numbered, variant_in, path_variant, given_by, given_from, glob_owner, glob_owners, globbed, or_else, prelude_variant, name_finds, names_find, path_finds};
ghost use Rattle.type_names.specs.FindingViews.{IsFinder, target_view, found_in, joined, masked, owners_find};
ghost use Rattle.type_names.specs.Views.{AreNames, meaning_view, owner_view};

use crate::imports::{enum_of, variants_of};
use crate::meanings::{Meaning, Owner};
use crate::names::Names;
use crate::targets::{Target, or_else, prelude_variant, with_variant};
use decl_lexer::Name;
use decl_syntax::{Item, ItemKind, Path, Variant};
use indexmap::{IndexMap, IndexSet};
use no_memory::NoMemory;
use std::alloc::Global;

/// What names alone find in a file, before the variants that every file has: by its structs and listed imports, and by
/// its imports of all variants of an enum.
#[derive(Debug, Drop)]
pub struct Finder {
    pub(crate) given: IndexMap<String, Target>,
    pub(crate) globs: IndexMap<String, Target>,
}

impl Finder {
    /// The finder of these items. Its time grows as the items, their variants and their listed names do.
    pub fn new(alloc: Global, names: &Names, items: &[Item]) -> Result<Finder, NoMemory>
        requires { AreNames (map item_view items.now) names.now }
        ensures { IfOk result (IsFinder (map item_view items.now)) }
    {
        let given = given_targets(alloc, names, items)?;
        let owners = glob_owners(alloc, names, items)?;
        let globs = glob_targets(alloc, names, items, owners.as_slice())?;
        Ok(Finder { given, globs })
    }

    /// What a path finds, with the names of the same items.
    ///
    /// Source: the Rust Reference, "Path patterns" and "Use declarations"; that imports name variants in patterns only
    /// is our own choice.
    pub fn find(&self, names: &Names, path: &Path) -> Target
        ensures { (items : List ItemTree) → AreNames items names.now → IsFinder items self.now
            → target_view result ≡ path_finds items (path_view path.now) }
    {
        if path.plain {
            self.find_parts(names, &path.names)
        } else {
            Target::Nothing
        }
    }

    // What the names of a path find.
    fn find_parts(&self, names: &Names, parts: &[Name]) -> Target
        ensures { (items : List ItemTree) → AreNames items names.now → IsFinder items self.now
            → target_view result ≡ names_find items (map rc_str_bytes parts.now) }
    {
        match parts {
            [name] => self.find_name(name),
            [owner, name] => path_variant(names, owner, name),
            _ => Target::Nothing,
        }
    }

    /// What a name alone finds.
    ///
    /// Source: the Rust Reference, "Identifier patterns" and "Use declarations"; that imports name variants in patterns
    /// only is our own choice.
    pub fn find_name(&self, name: &str) -> Target
        ensures { (items : List ItemTree) → IsFinder items self.now → target_view result ≡ name_finds items name.now }
    {
        let by_glob = or_else(told(&self.globs, name), prelude_variant(name));
        or_else(told(&self.given, name), by_glob)
    }
}

// What a look-up says; nothing where the name is not there.
fn told(targets: &IndexMap<String, Target>, name: &str) -> Target
    ensures { target_view result ≡ found_in targets.now name.now }
{
    match targets.get(name) {
        Some(target) => *target,
        None => Target::Nothing,
    }
}

// Writes what a name finds.
fn put(
    alloc: Global,
    targets: &mut IndexMap<String, Target>,
    name: &str,
    target: Target,
) -> Result<(), NoMemory>
    ensures { (q : List ℕ) → OnOk result (found_in targets.new q
        ≡ (if bytes_eq q name.now then target_view target else found_in targets.old q)) }
{
    let key = String::from_str(alloc, name)?;
    targets.insert(key, target)?;
    Ok(())
}

// Gives a target to a name, unless the name has one.
fn give(
    alloc: Global,
    targets: &mut IndexMap<String, Target>,
    name: &str,
    target: Target,
) -> Result<(), NoMemory>
    ensures { (q : List ℕ) → OnOk result (found_in targets.new q
        ≡ or_else (found_in targets.old q) (masked (bytes_eq q name.now) (target_view target))) }
{
    let first = or_else(told(targets, name), target);
    put(alloc, targets, name, first)
}

// What structs and listed imports give to names: to each the first.
fn given_targets(
    alloc: Global,
    names: &Names,
    items: &[Item],
) -> Result<IndexMap<String, Target>, NoMemory>
    requires { AreNames (map item_view items.now) names.now }
    ensures { IfOk result (λ targets. (q : List ℕ) →
        found_in targets q ≡ given_from (map item_view items.now) q 0 (map item_view items.now)) }
{
    let mut targets = IndexMap::new(alloc);
    for (i, item) in items.iter().enumerate() {
        give_item(alloc, &mut targets, names, i, &item.kind)?;
    }
    Ok(targets)
}

// Gives what an item gives to names.
fn give_item(
    alloc: Global,
    targets: &mut IndexMap<String, Target>,
    names: &Names,
    i: usize,
    kind: &ItemKind,
) -> Result<(), NoMemory>
    ensures { (items : List ItemTree) → AreNames items names.now → (q : List ℕ) → OnOk result
        (found_in targets.new q ≡ or_else (found_in targets.old q) (given_by items q i (kind_view kind.now))) }
{
    match kind {
        ItemKind::Struct(s) => give(alloc, targets, &s.name, Target::Struct(i as u64)),
        ItemKind::Import(u) => match &u.names {
            Some(listed) => give_listed(alloc, targets, names, &u.owner, listed),
            None => Ok(()),
        },
        ItemKind::Enum(_) => Ok(()),
        ItemKind::Function(_) => Ok(()),
    }
}

// Gives the variants of the enum that the owner's name means to their names, which are listed.
fn give_listed(
    alloc: Global,
    targets: &mut IndexMap<String, Target>,
    names: &Names,
    owner: &str,
    listed: &[Name],
) -> Result<(), NoMemory>
    ensures { (items : List ItemTree) → AreNames items names.now → (q : List ℕ) → OnOk result
        (found_in targets.new q ≡ or_else (found_in targets.old q)
        (masked (is_among q (map rc_str_bytes listed.now)) (path_variant items owner.now q))) }
{
    for name in listed {
        give(alloc, targets, name, path_variant(names, owner, name))?;
    }
    Ok(())
}

// The variant of this name of the enum that the owner's name means.
fn path_variant(names: &Names, owner: &str, name: &str) -> Target
    ensures { (items : List ItemTree) → AreNames items names.now
        → target_view result ≡ path_variant items owner.now name.now }
{
    meant_variant(names, names.meaning(owner), name)
}

// The variant of this name of what is meant; what is no enum has none.
fn meant_variant(names: &Names, meaning: Option<Meaning>, name: &str) -> Target
    ensures { (items : List ItemTree) → AreNames items names.now
        → target_view result ≡ variant_in items (meant_enum items (option_map meaning_view meaning)) name.now }
{
    match meaning {
        Some(Meaning::Item(i)) => numbered(names, Owner::Item(i as u64), name),
        Some(Meaning::Option) => numbered(names, Owner::Option, name),
        Some(Meaning::Result) => numbered(names, Owner::Result, name),
        Some(Meaning::Base(_)) => Target::Nothing,
        Some(Meaning::Opaque(_)) => Target::Nothing,
        None => Target::Nothing,
    }
}

// The variant of this name.
fn numbered(names: &Names, owner: Owner, name: &str) -> Target
    ensures { (items : List ItemTree) → AreNames items names.now
        → target_view result ≡ numbered (owner_view owner) (variant_number items (owner_view owner) name.now) }
{
    match names.variant(owner, name) {
        Some(variant) => Target::Variant { owner, variant },
        None => Target::Nothing,
    }
}

// The enums that the file names by `use E::*`, each once.
fn glob_owners(alloc: Global, names: &Names, items: &[Item]) -> Result<IndexSet<Owner>, NoMemory>
    requires { AreNames (map item_view items.now) names.now }
    ensures { let all = map item_view items.now in IfOk result (λ owners. (q : List ℕ) →
        owners_find all q owners.keys ≡ globbed all q) }
{
    let mut owners = IndexSet::new(alloc);
    for item in items {
        note_owner(&mut owners, glob_owner(names, items, &item.kind))?;
    }
    Ok(owners)
}

// The enum that `use E::*` names.
fn glob_owner(names: &Names, items: &[Item], kind: &ItemKind) -> Option<Owner>
    requires { AreNames (map item_view items.now) names.now }
    ensures { option_map owner_view result ≡ glob_owner (map item_view items.now) (kind_view kind.now) }
{
    match kind {
        ItemKind::Import(u) => match &u.names {
            Some(_) => None,
            None => enum_of(names, items, &u.owner),
        },
        ItemKind::Enum(_) => None,
        ItemKind::Struct(_) => None,
        ItemKind::Function(_) => None,
    }
}

// Notes an enum, if there is one.
fn note_owner(owners: &mut IndexSet<Owner>, owner: Option<Owner>) -> Result<(), NoMemory>
    ensures { (items : List ItemTree) → (q : List ℕ) → OnOk result (owners_find items q owners.new.keys
        ≡ joined (owners_find items q owners.old.keys) (variant_in items (option_map owner_view owner) q)) }
{
    let Some(owner) = owner else {
        return Ok(());
    };
    owners.insert(owner)?;
    Ok(())
}

// What these enums give to the names of their variants.
fn glob_targets(
    alloc: Global,
    names: &Names,
    items: &[Item],
    owners: &[Owner],
) -> Result<IndexMap<String, Target>, NoMemory>
    requires { AreNames (map item_view items.now) names.now }
    ensures { IfOk result (λ targets. (q : List ℕ) →
        found_in targets q ≡ owners_find (map item_view items.now) q owners.now) }
{
    let mut targets = IndexMap::new(alloc);
    for owner in owners {
        join_owner(alloc, &mut targets, names, items, *owner)?;
    }
    Ok(targets)
}

// Joins the variants of an enum to what their names find.
fn join_owner(
    alloc: Global,
    targets: &mut IndexMap<String, Target>,
    names: &Names,
    items: &[Item],
    owner: Owner,
) -> Result<(), NoMemory>
    requires { AreNames (map item_view items.now) names.now }
    ensures { let all = map item_view items.now in (q : List ℕ) → OnOk result (found_in targets.new q
        ≡ joined (found_in targets.old q) (numbered (owner_view owner) (variant_number all (owner_view owner) q))) }
{
    match owner {
        Owner::Item(i) => join_variants(
            alloc,
            targets,
            names,
            owner,
            item_variants(items, i as usize),
        ),
        Owner::Option => join_two(alloc, targets, names, owner, "None", "Some"),
        Owner::Result => join_two(alloc, targets, names, owner, "Ok", "Err"),
    }
}

// The variants of the item with this number; what is no enum has none.
fn item_variants(items: &[Item], i: usize) -> &[Variant]
    ensures { map variant_view result.now ≡ item_variants (slice_get (map item_view items.now) i) }
{
    match items.get(i) {
        Some(item) => variants_of(&item.kind),
        None => &[],
    }
}

// Joins the variants of an enum that have the names of these.
fn join_variants(
    alloc: Global,
    targets: &mut IndexMap<String, Target>,
    names: &Names,
    owner: Owner,
    variants: &[Variant],
) -> Result<(), NoMemory>
    ensures { (items : List ItemTree) → AreNames items names.now → (q : List ℕ) → OnOk result (found_in targets.new q
        ≡ joined (found_in targets.old q) (masked (is_among q (map (λ v. v.name) (map variant_view variants.now)))
        (numbered (owner_view owner) (variant_number items (owner_view owner) q)))) }
{
    for variant in variants {
        join_name(alloc, targets, names, owner, &variant.name)?;
    }
    Ok(())
}

// Joins the variants of an enum that have these two names.
fn join_two(
    alloc: Global,
    targets: &mut IndexMap<String, Target>,
    names: &Names,
    owner: Owner,
    first: &str,
    second: &str,
) -> Result<(), NoMemory>
    ensures { (items : List ItemTree) → AreNames items names.now → (q : List ℕ) → OnOk result (found_in targets.new q
        ≡ joined (found_in targets.old q) (masked (is_among q (first.now ∷ second.now ∷ []))
        (numbered (owner_view owner) (variant_number items (owner_view owner) q)))) }
{
    join_name(alloc, targets, names, owner, first)?;
    join_name(alloc, targets, names, owner, second)
}

// Joins the variant of this name, if the enum has it.
fn join_name(
    alloc: Global,
    targets: &mut IndexMap<String, Target>,
    names: &Names,
    owner: Owner,
    name: &str,
) -> Result<(), NoMemory>
    ensures { (items : List ItemTree) → AreNames items names.now → (q : List ℕ) → OnOk result (found_in targets.new q
        ≡ joined (found_in targets.old q) (masked (bytes_eq q name.now)
        (numbered (owner_view owner) (variant_number items (owner_view owner) name.now)))) }
{
    match names.variant(owner, name) {
        Some(variant) => {
            let found = with_variant(told(targets, name), owner, variant);
            put(alloc, targets, name, found)
        }
        None => Ok(()),
    }
}
