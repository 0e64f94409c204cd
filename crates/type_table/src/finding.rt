//! What a path in a pattern finds, as types of the table.
ghost use Rattle.std.specs.Prelude.{◌≡◌, List, slice_get, option_map, Some, is_some};
ghost use Rattle.decl_syntax.specs.Items.{ItemTree};
ghost use Rattle.decl_syntax.specs.Patterns.{PathTree, path_view};
ghost use Rattle.match_model.specs.declared.Width.{Width as AnyWidth};
ghost use Rattle.type_names.specs.Finding.{FoundTree, name_finds, path_finds, found_form, is_found};
ghost use Rattle.type_names.specs.declared.meanings.Owner.TheVariants.{Option as OptionOwner};
ghost use Rattle.type_names.specs.Views.{owner_view};
ghost use Rattle.type_table.specs.declared.entries.Entry.{Entry as DeclaredEntry};
ghost use Rattle.type_table.specs.Paths.{FoundIs, FoundOf, struct_id, found_at, found_variant, answer};
ghost use Rattle.type_table.specs.Paths.{struct_form_by, variant_form_by, enum_entry_form, form_by};
ghost use Rattle.type_table.specs.Tables.{IsTableOf};

use crate::entries::Entry;
use crate::table::{TyId, TypeTable};
use decl_syntax::Path;
use type_names::{FormKind, Owner, Target};

/// What a path finds: nothing, two different variants, a struct, or the variant with this number of an enum, counted
/// from 0.
#[derive(Clone, Copy, Debug, PartialEq, Eq)]
pub enum Found {
    Nothing,
    Twice,
    Struct(TyId),
    Variant { owner: Owner, variant: u32 },
}

impl TypeTable {
    /// What a path finds in the file of the table; a struct is given as the type that its item declares.
    ///
    /// Source: the Rust Reference, "Path patterns" and "Use declarations"; that imports name variants in patterns only
    /// is our own choice.
    pub fn find(&self, path: &Path) -> Found
        ensures { (items : List ItemTree) → (width : AnyWidth) → IsTableOf items width self.now →
            FoundIs self.now (path_finds items (path_view path.now)) result }
    {
        let target = self.finder.find(&self.names, path);
        self.found(target)
    }

    /// What a bare name finds in the file of the table, as [`TypeTable::find`] tells of a path.
    ///
    /// Source: the Rust Reference, "Identifier patterns".
    pub fn find_name(&self, name: &str) -> Found
        ensures { (items : List ItemTree) → (width : AnyWidth) → IsTableOf items width self.now →
            FoundIs self.now (name_finds items name.now) result }
    {
        let target = self.finder.find_name(name);
        self.found(target)
    }

    // The answer by what was found.
    fn found(&self, target: Target) -> Found
        ensures { result ≡ answer self.now target }
    {
        match target {
            Target::Nothing => Found::Nothing,
            Target::Twice => Found::Twice,
            Target::Struct(item) => self.found_struct(item as usize),
            Target::Variant { owner, variant } => found_variant(owner, variant),
        }
    }

    /// The form of the struct or variant that a path finds; there is none exactly where it finds nothing or two
    /// different variants.
    pub fn form(&self, found: &Found) -> Option<FormKind>
        requires of { FoundOf self.now found.now }
        ensures form { (items : List ItemTree) → (width : AnyWidth) → (told : FoundTree) →
            IsTableOf items width self.now → FoundIs self.now told found.now → result ≡ found_form items told }
        ensures exact { (items : List ItemTree) → (width : AnyWidth) → (path : PathTree) →
            IsTableOf items width self.now → FoundIs self.now (path_finds items path) found.now →
            is_some result ≡ is_found (path_finds items path) }
    {
        self.form_told(found)
    }

    // The form of what was found.
    fn form_told(&self, found: &Found) -> Option<FormKind>
        requires of { FoundOf self.now found.now }
        ensures { result ≡ form_by self.now found.now }
    {
        match *found {
            Found::Nothing => None,
            Found::Twice => None,
            Found::Struct(ty) => self.struct_form(self.named(ty)),
            Found::Variant { owner, variant } => self.variant_form(owner, variant as usize),
        }
    }

    // The form of the struct that the owner declares.
    fn struct_form(&self, owner: Option<Owner>) -> Option<FormKind>
        ensures { result ≡ struct_form_by self.now.items.items (option_map owner_view owner) }
    {
        let Some(Owner::Item(i)) = owner else {
            return None;
        };
        match self.items.get(i as usize) {
            Some(Entry::Struct { variant, .. }) => Some(variant.form),
            Some(Entry::Enum { .. }) => None,
            Some(Entry::Function { .. }) => None,
            Some(Entry::Import) => None,
            None => None,
        }
    }

    // The form of the variant with this number of the enum.
    fn variant_form(&self, owner: Owner, k: usize) -> Option<FormKind>
        ensures { result ≡ variant_form_by self.now.items.items owner k }
    {
        match owner {
            Owner::Item(i) => self.item_variant_form(i as usize, k),
            Owner::Option => option_form(k),
            Owner::Result => { if k < 2 { Some(FormKind::Tuple) } else { None } }
        }
    }

    // The form of the variant with this number of the enum that an item declares.
    fn item_variant_form(&self, i: usize, k: usize) -> Option<FormKind>
        ensures { result ≡ enum_entry_form (slice_get self.now.items.items i) k }
    {
        let Some(Entry::Enum { variants, .. }) = self.items.get(i) else {
            return None;
        };
        let variant = variants.get(k)?;
        Some(variant.form)
    }

    // The struct that the item with this number declares.
    fn found_struct(&self, item: usize) -> Found
        ensures { result ≡ found_at (struct_id (slice_get self.now.items.items item)) }
    {
        match self.items.get(item) {
            Some(Entry::Struct { id, .. }) => Found::Struct(TyId { index: *id }),
            Some(Entry::Enum { .. }) => Found::Nothing,
            Some(Entry::Function { .. }) => Found::Nothing,
            Some(Entry::Import) => Found::Nothing,
            None => Found::Nothing,
        }
    }
}

// The form of `None` or `Some`.
fn option_form(k: usize) -> Option<FormKind>
    ensures { (items : List DeclaredEntry) → result ≡ variant_form_by items OptionOwner k }
{
    match k {
        0 => Some(FormKind::Unit),
        1 => Some(FormKind::Tuple),
        _ => None,
    }
}

// The variant with this number.
fn found_variant(owner: Owner, variant: usize) -> Found
    ensures { result ≡ found_variant owner variant }
{
    match u32::try_from(variant) {
        Ok(variant) => Found::Variant { owner, variant },
        Err(_) => Found::Nothing,
    }
}
