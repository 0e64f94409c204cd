//! Rule 19: attributes that are not supported.
ghost use Rattle.std.specs.Prelude.{◌≡◌, map};
ghost use Rattle.std.specs.List.{list_any};
ghost use Rattle.decl_syntax.specs.Patterns.{attr_view, pattern_view, patterns_from, fields_from};
ghost use Rattle.decl_syntax.specs.Patterns.{field_view as pattern_field_view};
ghost use Rattle.decl_syntax.specs.Items.{field_view, form_view, variant_view, arm_view, kind_view, item_view};
ghost use Rattle.type_names.specs.Written.{is_mark, is_marked_by};
ghost use Rattle.type_names.specs.Attributes.{is_gate, is_gated, variant_unsupported, arm_unsupported, field_unsupported, is_unsupported, pattern_unsupported, some_unsupported, fields_unsupported, form_unsupported, parts_unsupported, own_unsupported, has_unsupported};

use decl_syntax::{Arm, Attr, Field, FieldPat, Form, Item, ItemKind, Pat, PatKind, Variant};

/// Whether attributes of the item, its parts or arms are not supported there.
pub(crate) fn has_unsupported(item: &Item) -> bool
    ensures { result ≡ has_unsupported (item_view item.now) }
{
    own_unsupported(&item.kind, &item.attrs) || parts_unsupported(&item.kind)
}

// Whether the attributes of the item itself may not stand there.
fn own_unsupported(kind: &ItemKind, attrs: &[Attr]) -> bool
    ensures { result ≡ own_unsupported (kind_view kind.now) (map attr_view attrs.now) }
{
    match kind {
        ItemKind::Enum(_) => is_gated(attrs),
        ItemKind::Struct(_) => is_unsupported(attrs),
        ItemKind::Import(_) => is_unsupported(attrs),
        ItemKind::Function(_) => is_unsupported(attrs),
    }
}

// Whether one of the attributes is `cfg` or `cfg_attr`.
fn is_gated(attrs: &[Attr]) -> bool
    ensures { result ≡ is_gated (map attr_view attrs.now) }
{
    for attr in attrs {
        if is_gate(attr) {
            return true;
        }
    }
    false
}

/// Whether one of the attributes is `non_exhaustive`.
pub fn is_marked(attrs: &[Attr]) -> bool
    ensures { result ≡ is_marked_by (map attr_view attrs.now) }
{
    for attr in attrs {
        if is_mark(attr) {
            return true;
        }
    }
    false
}

// Whether the attribute is `cfg` or `cfg_attr`.
fn is_gate(attr: &Attr) -> bool
    ensures { result ≡ is_gate (attr_view attr.now) }
{
    attr.word.as_str() == "cfg" || attr.word.as_str() == "cfg_attr"
}

// Whether the attribute is `non_exhaustive`.
fn is_mark(attr: &Attr) -> bool
    ensures { result ≡ is_mark (attr_view attr.now) }
{
    attr.word.as_str() == "non_exhaustive"
}

// Whether the attributes may not stand on anything but an enum.
fn is_unsupported(attrs: &[Attr]) -> bool
    ensures { result ≡ is_unsupported (map attr_view attrs.now) }
{
    is_gated(attrs) || is_marked(attrs)
}

// Whether such attributes are on a part of the item.
fn parts_unsupported(kind: &ItemKind) -> bool
    ensures { result ≡ parts_unsupported (kind_view kind.now) }
{
    match kind {
        ItemKind::Enum(e) => variants_unsupported(&e.variants),
        ItemKind::Struct(s) => form_unsupported(&s.form),
        ItemKind::Import(_) => false,
        ItemKind::Function(f) => arms_unsupported(&f.arms),
    }
}

// Whether such attributes are on one of the variants or a field of one.
fn variants_unsupported(variants: &[Variant]) -> bool
    ensures { result ≡ list_any variant_unsupported (map variant_view variants.now) }
{
    for variant in variants {
        if variant_unsupported(variant) {
            return true;
        }
    }
    false
}

// Whether such attributes are on the variant or a field of it.
fn variant_unsupported(variant: &Variant) -> bool
    ensures { result ≡ variant_unsupported (variant_view variant.now) }
{
    is_unsupported(&variant.attrs) || form_unsupported(&variant.form)
}

// Whether such attributes are on a field.
fn form_unsupported(form: &Form) -> bool
    ensures { result ≡ form_unsupported (form_view form.now) }
{
    match form {
        Form::Unit => false,
        Form::Tuple(fields) => some_field_unsupported(fields),
        Form::Brace(fields) => some_field_unsupported(fields),
    }
}

// Whether such attributes are on one of the fields.
fn some_field_unsupported(fields: &[Field]) -> bool
    ensures { result ≡ list_any (λ f. is_unsupported f.attrs) (map field_view fields.now) }
{
    for field in fields {
        if is_unsupported(&field.attrs) {
            return true;
        }
    }
    false
}

// Whether such attributes are on one of the arms or in its pattern.
fn arms_unsupported(arms: &[Arm]) -> bool
    ensures { result ≡ list_any arm_unsupported (map arm_view arms.now) }
{
    for arm in arms {
        if arm_unsupported(arm) {
            return true;
        }
    }
    false
}

// Whether such attributes are on the arm or in its pattern.
fn arm_unsupported(arm: &Arm) -> bool
    ensures { result ≡ arm_unsupported (arm_view arm.now) }
{
    is_unsupported(&arm.attrs) || pattern_unsupported(&arm.pat)
}

// Whether such attributes are on a field of a brace pattern within the pattern.
#[cycle(attributes)]
fn pattern_unsupported(pattern: &Pat) -> bool
    ensures { result ≡ pattern_unsupported (pattern_view pattern.now) }
{
    match &pattern.kind {
        PatKind::Bind { sub: Some(sub), .. } => pattern_unsupported(sub),
        PatKind::TupleForm { items, .. } => some_unsupported(items),
        PatKind::Brace { fields, .. } => fields_unsupported(fields),
        PatKind::Tuple(items) => some_unsupported(items),
        PatKind::Group(inner) => pattern_unsupported(inner),
        PatKind::Slice(items) => some_unsupported(items),
        PatKind::Point { inner, .. } => pattern_unsupported(inner),
        PatKind::Or(all) => some_unsupported(all),
        PatKind::Bind { sub: None, .. } => false,
        PatKind::Wild => false,
        PatKind::Rest => false,
        PatKind::Lit(_) => false,
        PatKind::Name(_) => false,
        PatKind::Path(_) => false,
        PatKind::Range(_) => false,
    }
}

// Whether they are within one of the patterns.
#[cycle(attributes)]
fn some_unsupported(patterns: &[Pat]) -> bool
    ensures { result ≡ some_unsupported (patterns_from (map pattern_view patterns.now)) }
{
    for pattern in patterns {
        if pattern_unsupported(pattern) {
            return true;
        }
    }
    false
}

// Whether they are on one of the fields or within its pattern.
#[cycle(attributes)]
fn fields_unsupported(fields: &[FieldPat]) -> bool
    ensures { result ≡ fields_unsupported (fields_from (map pattern_field_view fields.now)) }
{
    for field in fields {
        if field_unsupported(field) {
            return true;
        }
    }
    false
}

// Whether they are on the field or within its pattern.
#[cycle(attributes)]
fn field_unsupported(field: &FieldPat) -> bool
    ensures { result ≡ field_unsupported (pattern_field_view field.now) }
{
    is_unsupported(&field.attrs) || pattern_unsupported(&field.pat)
}
