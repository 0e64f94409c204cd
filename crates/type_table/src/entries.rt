//! What the items of a file declare, with their types as the numbers of nodes.
ghost use Rattle.std.specs.Prelude.{◌≡◌, true, map, length, IfOk, OnOk};
ghost use Rattle.std.specs.Rc.{rc_str_bytes};
ghost use Rattle.std.specs.List.{list_all};
ghost use Rattle.decl_syntax.specs.Items.{field_view, form_view, variant_view, kind_view, item_view};
ghost use Rattle.type_names.specs.Written.{field_of, form_of, variant_of};
ghost use Rattle.type_names.specs.Views.{means_in};
ghost use Rattle.type_table.specs.Keeping.{KeepsNamed, KeepsItem, KeepsItems};
ghost use Rattle.type_table.specs.Nodes.{AreNodes, Extends, types_in};
ghost use Rattle.type_table.specs.Entries.{field_entry, variant_entry, variant_named, entry_told};
ghost use Rattle.type_table.specs.Entries.{form_fields, item_told, items_told, field_below, variant_below, entry_below};

use crate::nodes::{Head, Node};
use crate::written::{leaf, type_id};
use decl_lexer::Name;
use decl_syntax::{Field, Form, Item, ItemKind, Variant};
use indexmap::IndexSet;
use no_memory::NoMemory;
use std::alloc::Global;
use type_names::{FormKind, Names, Owner, field_name, form_kind, is_marked};

/// A field: its name, which is empty in a tuple form, and the number of its type.
#[derive(Debug, Drop)]
pub(crate) struct FieldEntry {
    pub(crate) name: Name,
    pub(crate) ty: usize,
}

/// A variant of an enum, or the one of a struct.
#[derive(Debug, Drop)]
pub(crate) struct VariantEntry {
    pub(crate) name: Name,
    pub(crate) form: FormKind,
    pub(crate) fields: Vec<FieldEntry>,
}

/// What an item says. `id` is the number of the type that it declares, `param` that of the parameter's type, `later`
/// says that an enum is `#[non_exhaustive]`, and `deref` that a function writes `match *x`.
#[derive(Debug, Drop)]
pub(crate) enum Entry {
    Struct {
        id: usize,
        variant: VariantEntry,
    },
    Enum {
        id: usize,
        name: Name,
        later: bool,
        variants: Vec<VariantEntry>,
    },
    Function {
        param: usize,
        deref: bool,
    },
    Import,
}

/// What the items of a file say.
pub(crate) fn all_entries(
    alloc: Global,
    names: &Names,
    nodes: &mut IndexSet<Node>,
    items: &[Item],
) -> Result<Vec<Entry>, NoMemory>
    requires { AreNodes nodes.old.keys }
    ensures extends { OnOk result (Extends nodes.old.keys nodes.new.keys) }
    ensures are { OnOk result (AreNodes nodes.new.keys) }
    ensures declared { OnOk result (KeepsItems names.now (map item_view items.now) nodes.old.keys nodes.new.keys) }
    ensures below { IfOk result (λ v. list_all (entry_below (length nodes.new.keys)) v.items ≡ true) }
    ensures told { IfOk result (λ v. map (entry_told (types_in nodes.new.keys)) v.items
        ≡ items_told (means_in names.now) (map item_view items.now)) }
{
    let mut all = Vec::with_capacity(alloc, items.len())?;
    for (i, item) in items.iter().enumerate() {
        let entry = item_entry(alloc, names, nodes, i, item)?;
        all.push(entry)?;
    }
    Ok(all)
}

// What an item says.
fn item_entry(
    alloc: Global,
    names: &Names,
    nodes: &mut IndexSet<Node>,
    i: usize,
    item: &Item,
) -> Result<Entry, NoMemory>
    requires { AreNodes nodes.old.keys }
    ensures extends { OnOk result (Extends nodes.old.keys nodes.new.keys) }
    ensures are { OnOk result (AreNodes nodes.new.keys) }
    ensures declared { OnOk result (KeepsItem names.now i (kind_view item.now.kind) nodes.old.keys nodes.new.keys) }
    ensures below { IfOk result (λ e. entry_below (length nodes.new.keys) e ≡ true) }
    ensures told { IfOk result (λ e. entry_told (types_in nodes.new.keys) e
        ≡ item_told (means_in names.now) i (item_view item.now)) }
{
    match &item.kind {
        ItemKind::Enum(e) => {
            let variants = variant_entries(alloc, names, nodes, &e.variants)?;
            let name = e.name.clone()?;
            let later = is_marked(&item.attrs);
            let id = leaf(alloc, nodes, Head::Named(Owner::Item(i as u64)))?;
            Ok(Entry::Enum {
                id,
                name,
                later,
                variants,
            })
        }
        ItemKind::Struct(s) => {
            let variant = variant_entry(alloc, names, nodes, &s.name, &s.form)?;
            let id = leaf(alloc, nodes, Head::Named(Owner::Item(i as u64)))?;
            Ok(Entry::Struct { id, variant })
        }
        ItemKind::Import(_) => Ok(Entry::Import),
        ItemKind::Function(f) => {
            let param = type_id(alloc, names, nodes, true, &f.param)?;
            let deref = f.deref.is_some();
            Ok(Entry::Function { param, deref })
        }
    }
}

// The variants.
fn variant_entries(
    alloc: Global,
    names: &Names,
    nodes: &mut IndexSet<Node>,
    variants: &[Variant],
) -> Result<Vec<VariantEntry>, NoMemory>
    requires { AreNodes nodes.old.keys }
    ensures extends { OnOk result (Extends nodes.old.keys nodes.new.keys) }
    ensures are { OnOk result (AreNodes nodes.new.keys) }
    ensures declared { OnOk result (KeepsNamed names.now nodes.old.keys nodes.new.keys) }
    ensures below { IfOk result (λ v. list_all (variant_below (length nodes.new.keys)) v.items ≡ true) }
    ensures variants { IfOk result (λ v. map (variant_entry (types_in nodes.new.keys)) v.items
        ≡ map (variant_of (means_in names.now)) (map variant_view variants.now)) }
{
    let mut all = Vec::with_capacity(alloc, variants.len())?;
    for variant in variants {
        let entry = variant_entry(alloc, names, nodes, &variant.name, &variant.form)?;
        all.push(entry)?;
    }
    Ok(all)
}

// A variant of this name and form.
fn variant_entry(
    alloc: Global,
    names: &Names,
    nodes: &mut IndexSet<Node>,
    name: &Name,
    form: &Form,
) -> Result<VariantEntry, NoMemory>
    requires { AreNodes nodes.old.keys }
    ensures extends { OnOk result (Extends nodes.old.keys nodes.new.keys) }
    ensures are { OnOk result (AreNodes nodes.new.keys) }
    ensures declared { OnOk result (KeepsNamed names.now nodes.old.keys nodes.new.keys) }
    ensures below { IfOk result (λ v. variant_below (length nodes.new.keys) v ≡ true) }
    ensures variant { IfOk result (λ v. variant_entry (types_in nodes.new.keys) v
        ≡ variant_named (rc_str_bytes name.now) (form_of (means_in names.now) (form_view form.now))) }
{
    let fields = form_entries(alloc, names, nodes, form)?;
    let name = name.clone()?;
    Ok(VariantEntry {
        name,
        form: form_kind(form),
        fields,
    })
}

// The fields of a form.
fn form_entries(
    alloc: Global,
    names: &Names,
    nodes: &mut IndexSet<Node>,
    form: &Form,
) -> Result<Vec<FieldEntry>, NoMemory>
    requires { AreNodes nodes.old.keys }
    ensures extends { OnOk result (Extends nodes.old.keys nodes.new.keys) }
    ensures are { OnOk result (AreNodes nodes.new.keys) }
    ensures declared { OnOk result (KeepsNamed names.now nodes.old.keys nodes.new.keys) }
    ensures below { IfOk result (λ v. list_all (field_below (length nodes.new.keys)) v.items ≡ true) }
    ensures fields { IfOk result (λ v. map (field_entry (types_in nodes.new.keys)) v.items
        ≡ form_fields (means_in names.now) (form_view form.now)) }
{
    match form {
        Form::Unit => Ok(Vec::new(alloc)),
        Form::Tuple(fields) => field_entries(alloc, names, nodes, fields),
        Form::Brace(fields) => field_entries(alloc, names, nodes, fields),
    }
}

// The fields.
fn field_entries(
    alloc: Global,
    names: &Names,
    nodes: &mut IndexSet<Node>,
    fields: &[Field],
) -> Result<Vec<FieldEntry>, NoMemory>
    requires { AreNodes nodes.old.keys }
    ensures extends { OnOk result (Extends nodes.old.keys nodes.new.keys) }
    ensures are { OnOk result (AreNodes nodes.new.keys) }
    ensures declared { OnOk result (KeepsNamed names.now nodes.old.keys nodes.new.keys) }
    ensures below { IfOk result (λ v. list_all (field_below (length nodes.new.keys)) v.items ≡ true) }
    ensures fields { IfOk result (λ v. map (field_entry (types_in nodes.new.keys)) v.items
        ≡ map (field_of (means_in names.now)) (map field_view fields.now)) }
{
    let mut all = Vec::with_capacity(alloc, fields.len())?;
    for field in fields {
        let entry = field_entry(alloc, names, nodes, field)?;
        all.push(entry)?;
    }
    Ok(all)
}

// The field.
fn field_entry(
    alloc: Global,
    names: &Names,
    nodes: &mut IndexSet<Node>,
    field: &Field,
) -> Result<FieldEntry, NoMemory>
    requires { AreNodes nodes.old.keys }
    ensures extends { OnOk result (Extends nodes.old.keys nodes.new.keys) }
    ensures are { OnOk result (AreNodes nodes.new.keys) }
    ensures declared { OnOk result (KeepsNamed names.now nodes.old.keys nodes.new.keys) }
    ensures below { IfOk result (λ f. field_below (length nodes.new.keys) f ≡ true) }
    ensures field { IfOk result (λ f. field_entry (types_in nodes.new.keys) f
        ≡ field_of (means_in names.now) (field_view field.now)) }
{
    let ty = type_id(alloc, names, nodes, true, &field.ty)?;
    let name = field_name(alloc, field)?;
    Ok(FieldEntry { name, ty })
}
