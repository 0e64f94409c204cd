//! The first item of a file that breaks a rule.
ghost use Rattle.std.specs.Prelude.{◌≡◌, false, length, map, IfOk, None, option_map};
ghost use Rattle.decl_syntax.specs.Items.{item_view};
ghost use Rattle.type_names.specs.Written.{program_of};
ghost use Rattle.type_names.specs.Rules.{FirstOf, breaks_at};
ghost use Rattle.type_names.specs.Views.{AreNames};
ghost use Rattle.type_names.specs.declared.item_rules.ItemRule.TheVariants.{Written};
ghost use Rattle.type_table.specs.Faults.{Breaks, ContainsItself, IsEndless, FirstThat, LeastFault};
ghost use Rattle.type_table.specs.Readings.{earlier, fault_pair};
ghost use Rattle.type_table.specs.declared.faults.DeclFault.TheVariants.{NoMemory as FaultNoMemory};

use decl_syntax::Item;
use match_model::Width;
use no_memory::NoMemory;
use std::alloc::Global;
use type_names::{ItemRule, Names, TypeRule, first_fault, first_name_twice, some_fault};

/// Why a file has no table: the first item that breaks a rule, counted from 0, with the least rule that it breaks and
/// the byte offset where the item begins; or memory was refused.
#[derive(Clone, Copy, Debug, PartialEq, Eq)]
pub enum DeclFault {
    Rule { rule: u32, item: u64, at: u64 },
    NoMemory,
}

impl From<NoMemory> for DeclFault {
    ghost from_gives = { λ _ e. e ≡ FaultNoMemory };

    fn from(_e: NoMemory) -> DeclFault {
        DeclFault::NoMemory
    }
}

/// The first item that breaks a rule, with the least rule that it breaks, as a pair of rule and item number. `cyclic`
/// is the first item whose type reaches itself, and `endless` the first whose type has no finite value.
pub(crate) fn least_fault(
    alloc: Global,
    names: &Names,
    items: &[Item],
    _width: Width,
    cyclic: Option<usize>,
    endless: Option<usize>,
) -> Result<Option<(u32, usize)>, NoMemory>
    requires names { AreNames (map item_view items.now) names.now }
    requires cyclic { FirstThat (ContainsItself (program_of (map item_view items.now) _width)) cyclic }
    requires endless { FirstThat (IsEndless (program_of (map item_view items.now) _width)) endless }
    ensures { IfOk result (λ best. LeastFault (Breaks (map item_view items.now) _width) (option_map fault_pair best)) }
{
    let by_name_twice = first_name_twice(alloc, names, items)?;
    let broken = some_fault(alloc, names, items)?;
    let by_variant_twice = first_where(alloc, names, items, broken, ItemRule::VariantTwice)?;
    let by_field_twice = first_where(alloc, names, items, broken, ItemRule::FieldTwice)?;
    let by_unknown_type = first_written(alloc, names, items, broken, TypeRule::UnknownType)?;
    let by_sizeless_place = first_written(alloc, names, items, broken, TypeRule::SizelessPlace)?;
    let by_array_length = first_written(alloc, names, items, broken, TypeRule::ArrayLength)?;
    let by_argument_count = first_written(alloc, names, items, broken, TypeRule::ArgumentCount)?;
    let by_bad_use = first_where(alloc, names, items, broken, ItemRule::BadUse)?;
    let by_unsupported = first_where(alloc, names, items, broken, ItemRule::UnsupportedAttribute)?;
    let upto_name_twice = earlier(None, 10, by_name_twice);
    let upto_variant_twice = earlier(upto_name_twice, 11, by_variant_twice);
    let upto_field_twice = earlier(upto_variant_twice, 12, by_field_twice);
    let upto_unknown_type = earlier(upto_field_twice, 13, by_unknown_type);
    let upto_sizeless_place = earlier(upto_unknown_type, 14, by_sizeless_place);
    let upto_contains_itself = earlier(upto_sizeless_place, 15, cyclic);
    let upto_array_length = earlier(upto_contains_itself, 16, by_array_length);
    let upto_argument_count = earlier(upto_array_length, 17, by_argument_count);
    let upto_bad_use = earlier(upto_argument_count, 18, by_bad_use);
    let upto_unsupported_attribute = earlier(upto_bad_use, 19, by_unsupported);
    let upto_endless_type = earlier(upto_unsupported_attribute, 36, endless);
    Ok(upto_endless_type)
}

// The first item with a written type that breaks the rule, which is looked for only where some item breaks one of the rules.
fn first_written(
    alloc: Global,
    names: &Names,
    items: &[Item],
    broken: bool,
    rule: TypeRule,
) -> Result<Option<usize>, NoMemory>
    requires names { AreNames (map item_view items.now) names.now }
    requires none { let all = map item_view items.now in broken ≡ false → FirstOf (breaks_at (Written rule) all) (length all) None }
    ensures { let all = map item_view items.now in IfOk result (FirstOf (breaks_at (Written rule) all) (length all)) }
{
    first_where(alloc, names, items, broken, ItemRule::Written(rule))
}

// The first item that breaks the rule, which is looked for only where some item breaks one of the rules.
fn first_where(
    alloc: Global,
    names: &Names,
    items: &[Item],
    broken: bool,
    rule: ItemRule,
) -> Result<Option<usize>, NoMemory>
    requires names { AreNames (map item_view items.now) names.now }
    requires none { let all = map item_view items.now in broken ≡ false → FirstOf (breaks_at rule all) (length all) None }
    ensures { let all = map item_view items.now in IfOk result (FirstOf (breaks_at rule all) (length all)) }
{
    if broken {
        first_fault(alloc, names, items, rule)
    } else {
        Ok(None)
    }
}

// The least fault, where the item `found` is the first that breaks `rule`; `rule` is above those of `best`.
fn earlier(best: Option<(u32, usize)>, rule: u32, found: Option<usize>) -> Option<(u32, usize)>
    ensures { option_map fault_pair result ≡ earlier (option_map fault_pair best) rule found }
{
    let Some(item) = found else {
        return best;
    };
    match best {
        Some((_, first)) if first <= item => best,
        _ => Some((rule, item)),
    }
}
