//! How many parts the lists of an item have.
ghost use Rattle.std.specs.Prelude.{◌≡◌, map};
ghost use Rattle.decl_syntax.specs.Items.{field_view, form_view, variant_view, arm_view, kind_view, item_view};
ghost use Rattle.decl_parser.specs.ItemWidths.{some_field_is_wide, fields_are_wide, form_is_wide, some_variant_is_wide};
ghost use Rattle.decl_parser.specs.ItemWidths.{some_arm_is_wide, kind_is_wide, item_is_wide};

use decl_syntax::{
    Arm, Field, Form, Item, ItemKind, MOST_PARTS, Variant, pattern_is_wide, type_is_wide,
};

/// Whether an item has more than 256 fields in a form, parts in a tuple type, or items or fields in one list of a
/// pattern.
pub fn item_is_wide(item: &Item) -> bool
    ensures { result ≡ item_is_wide (item_view item.now) }
{
    kind_is_wide(&item.kind)
}

/// The same of what an item is.
fn kind_is_wide(kind: &ItemKind) -> bool
    ensures { result ≡ kind_is_wide (kind_view kind.now) }
{
    match kind {
        ItemKind::Enum(item) => some_variant_is_wide(&item.variants),
        ItemKind::Struct(item) => form_is_wide(&item.form),
        ItemKind::Import(_) => false,
        ItemKind::Function(item) => type_is_wide(&item.param) || some_arm_is_wide(&item.arms),
    }
}

/// The same of a form.
fn form_is_wide(form: &Form) -> bool
    ensures { result ≡ form_is_wide (form_view form.now) }
{
    match form {
        Form::Unit => false,
        Form::Tuple(fields) => fields_are_wide(fields),
        Form::Brace(fields) => fields_are_wide(fields),
    }
}

/// The same of fields.
fn fields_are_wide(fields: &Vec<Field>) -> bool
    ensures { result ≡ fields_are_wide (map field_view fields.now.items) }
{
    if fields.len() > MOST_PARTS {
        return true;
    }
    some_field_is_wide(fields)
}

/// The same of the type of some field.
fn some_field_is_wide(fields: &Vec<Field>) -> bool
    ensures { result ≡ some_field_is_wide (map field_view fields.now.items) }
{
    for field in fields {
        if type_is_wide(&field.ty) {
            return true;
        }
    }
    false
}

/// The same of the form of some variant.
fn some_variant_is_wide(variants: &Vec<Variant>) -> bool
    ensures { result ≡ some_variant_is_wide (map variant_view variants.now.items) }
{
    for variant in variants {
        if form_is_wide(&variant.form) {
            return true;
        }
    }
    false
}

/// The same of the pattern of some arm.
fn some_arm_is_wide(arms: &Vec<Arm>) -> bool
    ensures { result ≡ some_arm_is_wide (map arm_view arms.now.items) }
{
    for arm in arms {
        if pattern_is_wide(&arm.pat) {
            return true;
        }
    }
    false
}
