//! The rules that one item breaks by itself.
ghost use Rattle.std.specs.Prelude.{◌≡◌, false, length, map, IfOk, None};
ghost use Rattle.std.specs.List.{list_any};
ghost use Rattle.decl_syntax.specs.Items.{item_view};
ghost use Rattle.type_names.specs.Rules.{FirstOf, item_test, breaks_at};
ghost use Rattle.type_names.specs.SomeRule.{breaks_some, breaks_some_written, breaks_other};
ghost use Rattle.type_names.specs.Views.{AreNames};

use crate::attributes::has_unsupported;
use crate::name_rules::{has_field_twice, has_variant_twice, is_bad_use};
use crate::names::Names;
use crate::type_rules::{TypeRule, breaks_in_item};
use decl_syntax::Item;
use no_memory::NoMemory;
use std::alloc::Global;

/// A rule that one item breaks by itself.
#[derive(Clone, Copy, Debug, PartialEq, Eq)]
pub enum ItemRule {
    /// Rules 13, 14, 16 and 17, on written types.
    Written(TypeRule),
    /// Rule 11: an enum has two variants of one name.
    VariantTwice,
    /// Rule 12: a struct or variant has two fields of one name.
    FieldTwice,
    /// Rule 18: the name before `::` is no enum, or a listed name is no variant of it.
    BadUse,
    /// Rule 19: an attribute that is not supported there.
    UnsupportedAttribute,
}

/// The first item that breaks the rule, counted from 0.
pub fn first_fault(
    alloc: Global,
    names: &Names,
    items: &[Item],
    rule: ItemRule,
) -> Result<Option<usize>, NoMemory>
    requires { AreNames (map item_view items.now) names.now }
    ensures { let all = map item_view items.now in IfOk result (FirstOf (breaks_at rule all) (length all)) }
{
    for (i, item) in items.iter().enumerate() {
        if breaks(alloc, names, items, rule, item)? {
            return Ok(Some(i));
        }
    }
    Ok(None)
}

/// Whether some item breaks one of the rules. It goes over the items once.
pub fn some_fault(alloc: Global, names: &Names, items: &[Item]) -> Result<bool, NoMemory>
    requires { AreNames (map item_view items.now) names.now }
    ensures some { let all = map item_view items.now in IfOk result (λ b. b ≡ list_any (breaks_some all) all) }
    ensures none { let all = map item_view items.now in IfOk result (λ b. b ≡ false → (rule : ItemRule)
        → FirstOf (breaks_at rule all) (length all) None) }
{
    for item in items {
        if breaks_some(alloc, names, items, item)? {
            return Ok(true);
        }
    }
    Ok(false)
}

// Whether the item breaks one of the rules.
fn breaks_some(alloc: Global, names: &Names, items: &[Item], item: &Item) -> Result<bool, NoMemory>
    requires { AreNames (map item_view items.now) names.now }
    ensures { IfOk result (λ b. b ≡ breaks_some (map item_view items.now) (item_view item.now)) }
{
    if breaks_some_written(names, items, item) {
        return Ok(true);
    }
    if breaks_other(names, items, item) {
        return Ok(true);
    }
    if has_variant_twice(alloc, &item.kind)? {
        return Ok(true);
    }
    has_field_twice(alloc, &item.kind)
}

// Whether a type that is written in the item breaks one of the rules on written types.
fn breaks_some_written(names: &Names, items: &[Item], item: &Item) -> bool
    requires { AreNames (map item_view items.now) names.now }
    ensures { result ≡ breaks_some_written (map item_view items.now) (item_view item.now) }
{
    breaks_in_item(names, None, &item.kind)
}

// Whether the item breaks rule 18 or 19.
fn breaks_other(names: &Names, items: &[Item], item: &Item) -> bool
    requires { AreNames (map item_view items.now) names.now }
    ensures { result ≡ breaks_other (map item_view items.now) (item_view item.now) }
{
    is_bad_use(names, items, &item.kind) || has_unsupported(item)
}

// Whether the item breaks the rule.
fn breaks(
    alloc: Global,
    names: &Names,
    items: &[Item],
    rule: ItemRule,
    item: &Item,
) -> Result<bool, NoMemory>
    requires { AreNames (map item_view items.now) names.now }
    ensures { IfOk result (λ b. b ≡ item_test rule (map item_view items.now) (item_view item.now)) }
{
    match rule {
        ItemRule::Written(rule) => Ok(breaks_written(names, items, rule, item)),
        ItemRule::VariantTwice => has_variant_twice(alloc, &item.kind),
        ItemRule::FieldTwice => has_field_twice(alloc, &item.kind),
        ItemRule::BadUse => Ok(is_bad_use(names, items, &item.kind)),
        ItemRule::UnsupportedAttribute => Ok(has_unsupported(item)),
    }
}

// Whether a type that is written in the item breaks the rule.
fn breaks_written(names: &Names, items: &[Item], rule: TypeRule, item: &Item) -> bool
    requires { AreNames (map item_view items.now) names.now }
    ensures { result ≡ item_test (ItemRule.Written rule) (map item_view items.now) (item_view item.now) }
{
    breaks_in_item(names, Some(rule), &item.kind)
}
