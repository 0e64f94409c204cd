//! Rules 13, 14, 16 and 17: which written types break them.
ghost use Rattle.std.specs.Prelude.{◌≡◌, Bool, true, map, Some, option_map};
ghost use Rattle.std.specs.List.{list_any};
ghost use Rattle.decl_syntax.specs.Types.{type_view, types_from};
ghost use Rattle.decl_syntax.specs.Items.{field_view, form_view, variant_view, kind_view};
ghost use Rattle.type_names.specs.Meanings.{Means, holds_sizeless, argument_count, arguments_sized};
ghost use Rattle.type_names.specs.Written.{is_length};
ghost use Rattle.type_names.specs.TypeRules.{is_unknown, means_str, is_sizeless, is_long, is_miscounted, type_test, some_within, some_of_all, some_field, some_type};
ghost use Rattle.type_names.specs.SomeRule.{is_misnamed, some_test, rule_test};
ghost use Rattle.type_names.specs.Views.{opaque_view, meaning_view, means_in};

use crate::meanings::{Base, Meaning, Opaque};
use crate::names::Names;
use decl_syntax::{Field, Form, ItemKind, Ty, Variant};

/// The rules on written types.
#[derive(Clone, Copy, Debug, PartialEq, Eq)]
pub enum TypeRule {
    /// Rule 13: a type name means nothing.
    UnknownType,
    /// Rule 14: `str` or `[T]` stands where a size is needed.
    SizelessPlace,
    /// Rule 16: a length above 4,294,967,295, or with a suffix other than `usize`.
    ArrayLength,
    /// Rule 17: the number of type arguments isn't that of the type.
    ArgumentCount,
}

/// Whether a type that is written in the item breaks the rule; with none, whether it breaks one of them.
pub(crate) fn breaks_in_item(names: &Names, rule: Option<TypeRule>, kind: &ItemKind) -> bool
    ensures { result ≡ some_type (means_in names.now) (rule_test rule (means_in names.now)) (kind_view kind.now) }
{
    match kind {
        ItemKind::Enum(e) => breaks_in_variants(names, rule, &e.variants),
        ItemKind::Struct(s) => breaks_in_form(names, rule, &s.form),
        ItemKind::Import(_) => false,
        ItemKind::Function(f) => breaks_within(names, rule, true, &f.param),
    }
}

// Whether the type of a field of one of the variants breaks the rule.
fn breaks_in_variants(names: &Names, rule: Option<TypeRule>, variants: &[Variant]) -> bool
    ensures { result ≡ list_any (λ v. some_field (means_in names.now) (rule_test rule (means_in names.now)) v.form)
        (map variant_view variants.now) }
{
    for variant in variants {
        if breaks_in_form(names, rule, &variant.form) {
            return true;
        }
    }
    false
}

// Whether the type of a field breaks the rule.
fn breaks_in_form(names: &Names, rule: Option<TypeRule>, form: &Form) -> bool
    ensures { result ≡ some_field (means_in names.now) (rule_test rule (means_in names.now)) (form_view form.now) }
{
    match form {
        Form::Unit => false,
        Form::Tuple(fields) => breaks_in_fields(names, rule, fields),
        Form::Brace(fields) => breaks_in_fields(names, rule, fields),
    }
}

// Whether the type of one of the fields breaks the rule.
fn breaks_in_fields(names: &Names, rule: Option<TypeRule>, fields: &[Field]) -> bool
    ensures { result ≡ list_any
        (λ f. some_within (means_in names.now) (rule_test rule (means_in names.now)) true f.type)
        (map field_view fields.now) }
{
    for field in fields {
        if breaks_within(names, rule, true, &field.ty) {
            return true;
        }
    }
    false
}

// Whether a written type, or one that stands in it, breaks the rule.
#[cycle(within)]
fn breaks_within(names: &Names, rule: Option<TypeRule>, sized: bool, ty: &Ty) -> bool
    ensures { result ≡ some_within (means_in names.now) (rule_test rule (means_in names.now)) sized (type_view ty.now) }
{
    if breaks_asked(names, rule, sized, ty) {
        return true;
    }
    match ty {
        Ty::Never => false,
        Ty::Tuple(parts) => some_breaks(names, rule, true, parts),
        Ty::Point { inner, .. } => breaks_within(names, rule, false, inner),
        Ty::Slice(item) => breaks_within(names, rule, true, item),
        Ty::Array { item, .. } => breaks_within(names, rule, true, item),
        Ty::Named { name, args } => {
            if args.is_empty() {
                return false;
            }
            some_breaks(names, rule, arguments_sized(names, name), args)
        }
    }
}

// Whether one of the written types breaks the rule.
#[cycle(within)]
fn some_breaks(names: &Names, rule: Option<TypeRule>, sized: bool, types: &[Ty]) -> bool
    ensures { result ≡ some_of_all (means_in names.now) (rule_test rule (means_in names.now)) sized
        (types_from (map type_view types.now)) }
{
    for ty in types {
        if breaks_within(names, rule, sized, ty) {
            return true;
        }
    }
    false
}

/// Whether the arguments of what the name means need a size.
pub fn arguments_sized(names: &Names, name: &str) -> bool
    ensures { result ≡ arguments_sized (means_in names.now name.now) }
{
    match names.meaning(name) {
        Some(Meaning::Opaque(o)) => !holds_sizeless(o),
        _ => true,
    }
}

// Whether the argument of an opaque type needs no size.
fn holds_sizeless(opaque: Opaque) -> bool
    ensures { result ≡ holds_sizeless (opaque_view opaque) }
{
    matches!(opaque, Opaque::Box | Opaque::Rc | Opaque::Arc)
}

// Whether the written type itself breaks the rule; with none, whether it breaks one of them.
fn breaks_asked(names: &Names, rule: Option<TypeRule>, sized: bool, ty: &Ty) -> bool
    ensures { result ≡ rule_test rule (means_in names.now) sized (type_view ty.now) }
{
    match rule {
        Some(rule) => breaks_here(names, rule, sized, ty),
        None => breaks_some_here(names, sized, ty),
    }
}

// Whether the written type itself breaks the rule.
fn breaks_here(names: &Names, rule: TypeRule, sized: bool, ty: &Ty) -> bool
    ensures { result ≡ type_test rule (means_in names.now) sized (type_view ty.now) }
{
    match rule {
        TypeRule::UnknownType => is_unknown(names, ty),
        TypeRule::SizelessPlace => sized && is_sizeless(names, ty),
        TypeRule::ArrayLength => is_long(ty),
        TypeRule::ArgumentCount => is_miscounted(names, ty),
    }
}

// Whether the written type itself breaks one of the rules. Its name is looked up once.
fn breaks_some_here(names: &Names, sized: bool, ty: &Ty) -> bool
    ensures { result ≡ some_test (means_in names.now) sized (type_view ty.now) }
{
    match ty {
        Ty::Slice(_) => sized,
        Ty::Array { .. } => is_long(ty),
        Ty::Named { name, args } => is_misnamed(names.meaning(name), sized, args.len()),
        _ => false,
    }
}

// Whether a name of this meaning with so many arguments breaks one of the rules.
fn is_misnamed(meaning: Option<Meaning>, sized: bool, count: usize) -> bool
    ensures { result ≡ is_misnamed (option_map meaning_view meaning) sized count }
{
    match meaning {
        None => true,
        Some(m) => (sized && is_str(m)) || count != argument_count(m),
    }
}

// Whether it is `str`.
fn is_str(meaning: Meaning) -> bool
    ensures { result ≡ means_str (Some (meaning_view meaning)) }
{
    matches!(meaning, Meaning::Base(Base::Str))
}

// Whether it is a name that means nothing.
fn is_unknown(names: &Names, ty: &Ty) -> bool
    ensures { (sized : Bool) → result ≡ is_unknown (means_in names.now) sized (type_view ty.now) }
{
    match ty {
        Ty::Named { name, .. } => names.meaning(name).is_none(),
        _ => false,
    }
}

// Whether it has no size.
fn is_sizeless(names: &Names, ty: &Ty) -> bool
    ensures { result ≡ is_sizeless (means_in names.now) true (type_view ty.now) }
{
    match ty {
        Ty::Slice(_) => true,
        Ty::Named { name, .. } => matches!(names.meaning(name), Some(Meaning::Base(Base::Str))),
        _ => false,
    }
}

// Whether it is an array with a length that is none.
fn is_long(ty: &Ty) -> bool
    ensures { (names : Means) (sized : Bool) → result ≡ is_long names sized (type_view ty.now) }
{
    match ty {
        Ty::Array { size, .. } => !is_length(size.len, &size.suffix),
        _ => false,
    }
}

/// Whether an array may have this length: at most 4,294,967,295, with no suffix or `usize`.
pub fn is_length(len: Option<u128>, suffix: &str) -> bool
    ensures { result ≡ is_length len suffix.now }
{
    match len {
        None => false,
        Some(n) => n <= 4_294_967_295 && (suffix.is_empty() || suffix == "usize"),
    }
}

// Whether it is a name with another number of arguments than its type has.
fn is_miscounted(names: &Names, ty: &Ty) -> bool
    ensures { (sized : Bool) → result ≡ is_miscounted (means_in names.now) sized (type_view ty.now) }
{
    match ty {
        Ty::Named { name, args } => match names.meaning(name) {
            None => false,
            Some(m) => args.len() != argument_count(m),
        },
        _ => false,
    }
}

/// How many type arguments what the name means has.
pub fn argument_count(meaning: Meaning) -> usize
    ensures { result ≡ argument_count (meaning_view meaning) }
{
    match meaning {
        Meaning::Item(_) | Meaning::Base(_) => 0,
        Meaning::Opaque(Opaque::Text | Opaque::F32 | Opaque::F64) => 0,
        Meaning::Opaque(Opaque::Box | Opaque::Vec | Opaque::Rc | Opaque::Arc) => 1,
        Meaning::Option => 1,
        Meaning::Result => 2,
    }
}
