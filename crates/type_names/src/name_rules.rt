//! Rules 10, 11, 12 and 18: names that are taken, and names that no enum or variant has.
ghost use Rattle.std.specs.Prelude.{◌≡◌, ◌++◌, ◌∷◌, filter, if◌then◌else◌, true, false, not, ◌||◌, List, [], ℕ, length, is_none, map, IfOk, OnOk, option_map};
ghost use Rattle.std.specs.Rc.{rc_str_bytes};
ghost use Rattle.std.specs.Str.{bytes_eq};
ghost use Rattle.std.specs.List.{list_any};
ghost use Rattle.type_names.specs.Written.{field_name};
ghost use Rattle.type_names.specs.NameMaps.{contains_name};
ghost use Rattle.decl_syntax.specs.Items.{item_view, kind_view, form_view, field_view, variant_view};
ghost use Rattle.type_names.specs.Imports.{enum_of, variant_form, variant_number};
ghost use Rattle.type_names.specs.NameRules.{is_value_form, listed, has_variant_twice, has_field_twice, form_has_field_twice, is_bad_use, some_unlisted, some_among, is_among, repeats, is_taken, taken_names, function_names, value_names};
ghost use Rattle.type_names.specs.Rules.{FirstOf, named_twice_at};
ghost use Rattle.type_names.specs.Views.{among, owner_view, AreNames, AreTaken};

use crate::imports::{enum_of, variant_form};
use crate::meanings::{FormKind, Owner};
use crate::names::Names;
use decl_lexer::Name;
use decl_syntax::{Field, Form, Item, ItemKind, Variant};
use indexmap::IndexSet;
use no_memory::NoMemory;
use std::alloc::Global;

/// The names that the items so far have taken: those of enums, structs and listed imports, of functions, and of
/// values.
#[derive(Debug, Drop)]
pub struct Taken {
    types: IndexSet<Name>,
    functions: IndexSet<Name>,
    values: IndexSet<Name>,
}

impl Taken {
    // No names.
    fn new(alloc: Global) -> Taken
        ensures { AreTaken [] [] [] result }
    {
        Taken {
            types: IndexSet::new(alloc),
            functions: IndexSet::new(alloc),
            values: IndexSet::new(alloc),
        }
    }

    // Whether the item breaks rule 10 against these names; if not, its names are added to them.
    fn take(
        &mut self,
        alloc: Global,
        names: &Names,
        items: &[Item],
        kind: &ItemKind,
    ) -> Result<bool, NoMemory>
        requires { AreNames (map item_view items.now) names.now }
        ensures { let all = map item_view items.now in let k = kind_view kind.now in
            (types functions values : List (List ℕ)) → AreTaken types functions values self.old → IfOk result (λ b.
            (b ≡ is_taken all types functions values k)
            × (b ≡ false → AreTaken (types ++ taken_names k) (functions ++ function_names k)
            (values ++ value_names all k) self.new)) }
    {
        match kind {
            ItemKind::Enum(e) => self.take_type(&e.name),
            ItemKind::Function(f) => self.take_function(&f.name),
            _ => self.take_all(alloc, names, items, kind),
        }
    }

    // The same of an enum of this name.
    fn take_type(&mut self, name: &Name) -> Result<bool, NoMemory>
        ensures { (types functions values : List (List ℕ)) → AreTaken types functions values self.old →
            let n = rc_str_bytes name.now in IfOk result (λ b. (b ≡ is_among n types)
            × (b ≡ false → AreTaken (types ++ n ∷ []) functions values self.new)) }
    {
        let is_new = take_name(&mut self.types, name)?;
        Ok(!is_new)
    }

    // The same of a function of this name.
    fn take_function(&mut self, name: &Name) -> Result<bool, NoMemory>
        ensures { (types functions values : List (List ℕ)) → AreTaken types functions values self.old →
            let n = rc_str_bytes name.now in IfOk result (λ b. (b ≡ (is_among n functions || is_among n values))
            × (b ≡ false → AreTaken types (functions ++ n ∷ []) values self.new)) }
    {
        if self.values.contains(name.as_str()) {
            return Ok(true);
        }
        let is_new = take_name(&mut self.functions, name)?;
        Ok(!is_new)
    }

    // The same of any item.
    fn take_all(
        &mut self,
        alloc: Global,
        names: &Names,
        items: &[Item],
        kind: &ItemKind,
    ) -> Result<bool, NoMemory>
        requires { AreNames (map item_view items.now) names.now }
        ensures { let all = map item_view items.now in let k = kind_view kind.now in
            (types functions values : List (List ℕ)) → AreTaken types functions values self.old → IfOk result (λ b.
            (b ≡ is_taken all types functions values k)
            × (b ≡ false → AreTaken (types ++ taken_names k) (functions ++ function_names k)
            (values ++ value_names all k) self.new)) }
    {
        let own_types = taken_names(alloc, kind)?;
        let own_functions = function_names(alloc, kind)?;
        let own_values = value_names(alloc, names, items, kind)?;
        if !take_names(&mut self.types, &own_types)? {
            return Ok(true);
        }
        if some_taken(&self.functions, &own_functions)
            || some_taken(&self.values, &own_functions)
            || some_taken(&self.functions, &own_values)
        {
            return Ok(true);
        }
        add_names(&mut self.functions, &own_functions)?;
        add_names(&mut self.values, &own_values)?;
        Ok(false)
    }
}

// The names that an enum, a struct or a list of imports takes.
fn taken_names(alloc: Global, kind: &ItemKind) -> Result<Vec<Name>, NoMemory>
    ensures { IfOk result (λ v. map rc_str_bytes v.items ≡ taken_names (kind_view kind.now)) }
{
    match kind {
        ItemKind::Enum(e) => one_name(alloc, &e.name),
        ItemKind::Struct(s) => one_name(alloc, &s.name),
        ItemKind::Import(u) => listed_names(alloc, &u.names),
        ItemKind::Function(_) => Ok(Vec::new(alloc)),
    }
}

// The name of a function.
fn function_names(alloc: Global, kind: &ItemKind) -> Result<Vec<Name>, NoMemory>
    ensures { IfOk result (λ v. map rc_str_bytes v.items ≡ function_names (kind_view kind.now)) }
{
    match kind {
        ItemKind::Function(f) => one_name(alloc, &f.name),
        _ => Ok(Vec::new(alloc)),
    }
}

// The name alone.
fn one_name(alloc: Global, name: &Name) -> Result<Vec<Name>, NoMemory>
    ensures { IfOk result (λ v. map rc_str_bytes v.items ≡ rc_str_bytes name.now ∷ []) }
{
    let mut all = Vec::new(alloc);
    let copy = name.clone()?;
    all.push(copy)?;
    Ok(all)
}

// The names that are listed, if any are.
fn listed_names(alloc: Global, names: &Option<Vec<Name>>) -> Result<Vec<Name>, NoMemory>
    ensures { IfOk result (λ v. map rc_str_bytes v.items
        ≡ listed (option_map (λ l. map rc_str_bytes l.items) names.now)) }
{
    match names {
        Some(names) => copied_names(alloc, names),
        None => Ok(Vec::new(alloc)),
    }
}

// The same names.
fn copied_names(alloc: Global, names: &[Name]) -> Result<Vec<Name>, NoMemory>
    ensures { IfOk result (λ v. map rc_str_bytes v.items ≡ map rc_str_bytes names.now) }
{
    let mut all = Vec::new(alloc);
    for name in names {
        let copy = name.clone()?;
        all.push(copy)?;
    }
    Ok(all)
}

// The names of unit and tuple structs and of listed imports of unit and tuple variants.
fn value_names(
    alloc: Global,
    names: &Names,
    items: &[Item],
    kind: &ItemKind,
) -> Result<Vec<Name>, NoMemory>
    requires { AreNames (map item_view items.now) names.now }
    ensures { IfOk result (λ v. map rc_str_bytes v.items ≡ value_names (map item_view items.now) (kind_view kind.now)) }
{
    match kind {
        ItemKind::Struct(s) => match &s.form {
            Form::Brace(_) => Ok(Vec::new(alloc)),
            _ => one_name(alloc, &s.name),
        },
        ItemKind::Import(u) => match &u.names {
            Some(listed) => value_imports(alloc, names, items, &u.owner, listed),
            None => Ok(Vec::new(alloc)),
        },
        _ => Ok(Vec::new(alloc)),
    }
}

// Those of the names that are unit or tuple variants of the enum.
fn value_imports(
    alloc: Global,
    names: &Names,
    items: &[Item],
    owner: &str,
    listed: &[Name],
) -> Result<Vec<Name>, NoMemory>
    requires { AreNames (map item_view items.now) names.now }
    ensures { IfOk result (λ v. map rc_str_bytes v.items
        ≡ filter (λ n. is_value_form
        (variant_form (map item_view items.now) (enum_of (map item_view items.now) owner.now) n))
        (map rc_str_bytes listed.now)) }
{
    let owner = enum_of(names, items, owner);
    let mut all = Vec::new(alloc);
    for name in listed {
        let is_value = is_value_variant(names, items, owner, name);
        add_if(&mut all, is_value, name)?;
    }
    Ok(all)
}

// Adds a name, where it is to be added.
fn add_if(all: &mut Vec<Name>, is_added: bool, name: &Name) -> Result<(), NoMemory>
    ensures { OnOk result (map rc_str_bytes all.new.items
        ≡ map rc_str_bytes all.old.items ++ (if is_added then rc_str_bytes name.now ∷ [] else [])) }
{
    if is_added {
        let copy = name.clone()?;
        all.push(copy)?;
    }
    Ok(())
}

// Whether the name is a unit or tuple variant of the enum.
fn is_value_variant(names: &Names, items: &[Item], owner: Option<Owner>, name: &str) -> bool
    requires { AreNames (map item_view items.now) names.now }
    ensures { result ≡ is_value_form (variant_form (map item_view items.now) (option_map owner_view owner) name.now) }
{
    match form_of_variant(names, items, owner, name) {
        Some(FormKind::Unit) => true,
        Some(FormKind::Tuple) => true,
        Some(FormKind::Brace) => false,
        None => false,
    }
}

/// The form of the first variant of this name of the enum, if there is one.
pub(crate) fn form_of_variant(
    names: &Names,
    items: &[Item],
    owner: Option<Owner>,
    name: &str,
) -> Option<FormKind>
    requires { AreNames (map item_view items.now) names.now }
    ensures { result ≡ variant_form (map item_view items.now) (option_map owner_view owner) name.now }
{
    let owner = owner?;
    let k = names.variant(owner, name)?;
    variant_form(items, owner, k)
}

// Takes a name, and says whether it was free.
fn take_name(taken: &mut IndexSet<Name>, name: &Name) -> Result<bool, NoMemory>
    ensures free { IfOk result (λ b. b ≡ not (contains_name taken.old (rc_str_bytes name.now))) }
    ensures taken { OnOk result (contains_name taken.new
        ≡ (λ q. contains_name taken.old q || bytes_eq q (rc_str_bytes name.now))) }
{
    let copy = name.clone()?;
    let is_new = taken.insert(copy)?;
    Ok(is_new)
}

// Takes names one after the other, and says whether each was free.
fn take_names(taken: &mut IndexSet<Name>, names: &[Name]) -> Result<bool, NoMemory>
    ensures { (before : List (List ℕ)) → contains_name taken.old ≡ among before →
        let all = map rc_str_bytes names.now in IfOk result (λ b. (b ≡ not (repeats before all))
        × (b ≡ true → contains_name taken.new ≡ among (before ++ all))) }
{
    for name in names {
        if !take_name(taken, name)? {
            return Ok(false);
        }
    }
    Ok(true)
}

// Whether one of the names is taken.
fn some_taken(taken: &IndexSet<Name>, names: &[Name]) -> bool
    ensures { (before : List (List ℕ)) → contains_name taken.now ≡ among before
        → result ≡ some_among (map rc_str_bytes names.now) before }
{
    for name in names {
        if taken.contains(name.as_str()) {
            return true;
        }
    }
    false
}

// Adds names, those that are there as well.
fn add_names(taken: &mut IndexSet<Name>, names: &[Name]) -> Result<(), NoMemory>
    ensures { (before : List (List ℕ)) → contains_name taken.old ≡ among before
        → OnOk result (contains_name taken.new ≡ among (before ++ map rc_str_bytes names.now)) }
{
    for name in names {
        let _ = take_name(taken, name)?;
    }
    Ok(())
}

/// The first item that breaks rule 10, counted from 0.
pub fn first_name_twice(
    alloc: Global,
    names: &Names,
    items: &[Item],
) -> Result<Option<usize>, NoMemory>
    requires { AreNames (map item_view items.now) names.now }
    ensures { let all = map item_view items.now in IfOk result (FirstOf (named_twice_at all) (length all)) }
{
    let mut taken = Taken::new(alloc);
    for (i, item) in items.iter().enumerate() {
        if taken.take(alloc, names, items, &item.kind)? {
            return Ok(Some(i));
        }
    }
    Ok(None)
}

// Whether two of the names are equal.
fn has_repeats(alloc: Global, names: &[Name]) -> Result<bool, NoMemory>
    ensures { IfOk result (λ b. b ≡ repeats [] (map rc_str_bytes names.now)) }
{
    let mut taken = IndexSet::new(alloc);
    let all_free = take_names(&mut taken, names)?;
    Ok(!all_free)
}

/// Whether two variants of an enum have one name.
pub(crate) fn has_variant_twice(alloc: Global, kind: &ItemKind) -> Result<bool, NoMemory>
    ensures { IfOk result (λ b. b ≡ has_variant_twice (kind_view kind.now)) }
{
    match kind {
        ItemKind::Enum(e) => variants_repeat(alloc, &e.variants),
        _ => Ok(false),
    }
}

// So many variants are compared with each other; of more, the names are put into a set.
const FEW: usize = 8;

// Whether two of the variants have one name.
fn variants_repeat(alloc: Global, variants: &[Variant]) -> Result<bool, NoMemory>
    ensures { IfOk result (λ b. b ≡ repeats [] (map (λ x. x.name) (map variant_view variants.now))) }
{
    if variants.len() <= FEW {
        Ok(few_repeat(variants))
    } else {
        many_repeat(alloc, variants)
    }
}

// The same of few variants, each of which is compared with those before it.
fn few_repeat(variants: &[Variant]) -> bool
    ensures { result ≡ repeats [] (map (λ x. x.name) (map variant_view variants.now)) }
{
    for (i, variant) in variants.iter().enumerate() {
        if is_named_before(&variants[..i], variant) {
            return true;
        }
    }
    false
}

// Whether one of the variants before it has the name of this one.
fn is_named_before(before: &[Variant], variant: &Variant) -> bool
    ensures { result ≡ is_among (variant_view variant.now).name (map (λ x. x.name) (map variant_view before.now)) }
{
    for other in before {
        if variant.name.as_str() == other.name.as_str() {
            return true;
        }
    }
    false
}

// The same of any number of variants. Each name is kept once: an enum may have millions.
fn many_repeat(alloc: Global, variants: &[Variant]) -> Result<bool, NoMemory>
    ensures { IfOk result (λ b. b ≡ repeats [] (map (λ x. x.name) (map variant_view variants.now))) }
{
    let mut taken = IndexSet::new(alloc);
    for variant in variants {
        if !take_name(&mut taken, &variant.name)? {
            return Ok(true);
        }
    }
    Ok(false)
}

/// Whether two fields of a struct or variant have one name.
pub(crate) fn has_field_twice(alloc: Global, kind: &ItemKind) -> Result<bool, NoMemory>
    ensures { IfOk result (λ b. b ≡ has_field_twice (kind_view kind.now)) }
{
    match kind {
        ItemKind::Enum(e) => some_variant_repeats(alloc, &e.variants),
        ItemKind::Struct(s) => form_repeats(alloc, &s.form),
        _ => Ok(false),
    }
}

// Whether two fields of one of the variants have one name.
fn some_variant_repeats(alloc: Global, variants: &[Variant]) -> Result<bool, NoMemory>
    ensures { IfOk result (λ b. b ≡ list_any (λ v. form_has_field_twice v.form) (map variant_view variants.now)) }
{
    for variant in variants {
        if form_repeats(alloc, &variant.form)? {
            return Ok(true);
        }
    }
    Ok(false)
}

// Whether two fields of a form have one name.
fn form_repeats(alloc: Global, form: &Form) -> Result<bool, NoMemory>
    ensures { IfOk result (λ b. b ≡ form_has_field_twice (form_view form.now)) }
{
    match form {
        Form::Unit => Ok(false),
        Form::Tuple(_) => Ok(false),
        Form::Brace(fields) => {
            let all = field_names(alloc, fields)?;
            has_repeats(alloc, &all)
        }
    }
}

// The names of the fields.
fn field_names(alloc: Global, fields: &[Field]) -> Result<Vec<Name>, NoMemory>
    ensures { IfOk result (λ v. map rc_str_bytes v.items ≡ map (λ f. field_name f.name) (map field_view fields.now)) }
{
    let mut all = Vec::new(alloc);
    for field in fields {
        let copy = field_name(alloc, field)?;
        all.push(copy)?;
    }
    Ok(all)
}

/// The name of a field; without one it is empty.
pub fn field_name(alloc: Global, field: &Field) -> Result<Name, NoMemory>
    ensures { IfOk result (λ s. rc_str_bytes s ≡ field_name (field_view field.now).name) }
{
    match &field.name {
        Some(name) => {
            let copy = name.clone()?;
            Ok(copy)
        }
        None => Ok(Name::from_str(alloc, "")?),
    }
}

/// Whether the name before `::` is no enum, or a listed name is no variant of it.
pub(crate) fn is_bad_use(names: &Names, items: &[Item], kind: &ItemKind) -> bool
    requires { AreNames (map item_view items.now) names.now }
    ensures { result ≡ is_bad_use (map item_view items.now) (kind_view kind.now) }
{
    match kind {
        ItemKind::Import(u) => match enum_of(names, items, &u.owner) {
            Some(owner) => lists_another(names, items, owner, &u.names),
            None => true,
        },
        _ => false,
    }
}

// Whether one of the names that may be listed is no variant of the enum.
fn lists_another(names: &Names, items: &[Item], owner: Owner, listed: &Option<Vec<Name>>) -> bool
    requires { AreNames (map item_view items.now) names.now }
    ensures { result ≡ some_unlisted (map item_view items.now) (Some (owner_view owner)) (option_map
        (λ l. map rc_str_bytes l.items) listed.now) }
{
    match listed {
        Some(listed) => some_is_another(names, items, owner, listed),
        None => false,
    }
}

// Whether one of the names is no variant of the enum.
fn some_is_another(names: &Names, items: &[Item], owner: Owner, listed: &[Name]) -> bool
    requires { AreNames (map item_view items.now) names.now }
    ensures { result ≡ list_any (λ n. is_none (variant_number (map item_view items.now) (owner_view owner) n))
        (map rc_str_bytes listed.now) }
{
    for name in listed {
        if is_another(names, items, owner, name) {
            return true;
        }
    }
    false
}

// Whether the name is no variant of the enum.
fn is_another(names: &Names, items: &[Item], owner: Owner, name: &str) -> bool
    requires { AreNames (map item_view items.now) names.now }
    ensures { result ≡ is_none (variant_number (map item_view items.now) (owner_view owner) name.now) }
{
    names.variant(owner, name).is_none()
}
