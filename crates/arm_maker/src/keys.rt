// The numbers by which witnesses of a type are put in the order of arms. One witness stands before another where its
// numbers stand before the other's, compared one by one.
ghost use Rattle.std.specs.Prelude.{◌≡◌, ◌++◌, ◌∷◌, [], true, suc, pos, chars, map, IfOk, OnOk};
ghost use Rattle.match_model.specs.RustTypes.{inner_type};
ghost use Rattle.match_model.specs.Declarations.{node_types};
ghost use Rattle.match_model.specs.declared.IntKind.TheVariants.{ISize};
ghost use Rattle.match_model.specs.Witness.{NodeOf, witnesses_of};
ghost use Rattle.range_split.specs.Ends.{plain_end};
ghost use Rattle.range_split.specs.Ranges.{plain_range};
ghost use Rattle.type_table.specs.Tables.{IsOf, table_program, table_type};
ghost use Rattle.witnesses.specs.Views.{plain_witness};
ghost use Rattle.witness_text.specs.Ranges.{ends_below_literals};
ghost use Rattle.witness_names.specs.Named.{types_there};
ghost use Rattle.witness_names.specs.Lookups.{front_of, back_of};
ghost use Rattle.arm_maker.specs.Keys.{arm_key, parts_key, items_key, ends_count, is_row};
ghost use Rattle.arm_maker.specs.Keys.{late_key, low_key, high_key, range_key, text_key};
ghost use Rattle.arm_maker.specs.Order.{is_late};
ghost use Rattle.arm_maker.specs.Turns.{values};

use match_model::IntKind;
use no_memory::NoMemory;
use range_split::{End, Num, Range};
use std::alloc::Global;
use type_table::{TyId, TyKind, TypeTable};
use witnesses::Witness;

// The numbers of a witness.
pub(crate) fn key_of(
    alloc: Global,
    table: &TypeTable,
    ty: TyId,
    witness: &Witness,
) -> Result<Vec<Num>, NoMemory>
    requires { IsOf table.now ty }
    ensures { IfOk result (λ v. values v.items ≡ arm_key (table_program table.now) (table_type table.now ty)
        (plain_witness witness.now)) }
{
    let mut key = Vec::new(alloc);
    push_key(&mut key, table, ty, witness)?;
    Ok(key)
}

// Adds a number that is not below zero.
fn push_count(key: &mut Vec<Num>, count: u128) -> Result<(), NoMemory>
    ensures { OnOk result (values key.new.items ≡ values key.old.items ++ (pos count ∷ [])) }
{
    key.push(Num::new(false, count))?;
    Ok(())
}

// Adds the numbers of a witness. It goes down level by level. Where the pattern is within the limits of the grammar,
// it has 64 levels at most, references counted.
#[cycle(key)]
fn push_key(
    key: &mut Vec<Num>,
    table: &TypeTable,
    ty: TyId,
    witness: &Witness,
) -> Result<(), NoMemory>
    requires { IsOf table.now ty }
    ensures { OnOk result (values key.new.items ≡ values key.old.items
        ++ arm_key (table_program table.now) (table_type table.now ty) (plain_witness witness.now)) }
{
    match witness {
        Witness::Any => Ok(()),
        Witness::Later => push_count(key, 1),
        Witness::Flag(flag) => push_count(key, u128::from(*flag)),
        Witness::Span(range) => push_range(key, table, ty, range),
        Witness::Text(text) => push_text(key, text.as_str()),
        Witness::Else(_) => push_count(key, 1),
        Witness::Node { variant, parts } => push_node(key, table, ty, *variant, parts),
        Witness::Point(inner) => push_key(key, table, behind(table, ty), inner),
        Witness::Row { .. } => push_row(key, table, ty, witness),
    }
}

// Adds the numbers of a tuple or struct, whose variant is 0, or of a variant.
#[cycle(key)]
fn push_node(
    key: &mut Vec<Num>,
    table: &TypeTable,
    ty: TyId,
    variant: u32,
    parts: &[Witness],
) -> Result<(), NoMemory>
    requires { IsOf table.now ty }
    ensures { OnOk result (values key.new.items ≡ values key.old.items
        ++ arm_key (table_program table.now) (table_type table.now ty)
        (NodeOf variant (witnesses_of (map plain_witness parts.now)))) }
{
    push_count(key, 0)?;
    push_count(key, u128::from(variant))?;
    push_parts(key, table, ty, variant, parts)?;
    Ok(())
}

// How many items a row has at its ends; another witness has none.
fn ends_count(witness: &Witness) -> u128
    ensures { result ≡ ends_count (plain_witness witness.now) }
{
    match witness {
        Witness::Row { front, back, .. } => front.len() as u128 + back.len() as u128,
        _ => 0,
    }
}

// Adds the numbers of a row: how many items it has at its ends, then these.
#[cycle(key)]
fn push_row(
    key: &mut Vec<Num>,
    table: &TypeTable,
    ty: TyId,
    witness: &Witness,
) -> Result<(), NoMemory>
    requires of { IsOf table.now ty }
    requires row { is_row (plain_witness witness.now) ≡ true }
    ensures { OnOk result (values key.new.items ≡ values key.old.items
        ++ arm_key (table_program table.now) (table_type table.now ty) (plain_witness witness.now)) }
{
    push_count(key, ends_count(witness))?;
    let item = behind(table, ty);
    push_front(key, table, item, witness)?;
    push_back(key, table, item, witness)?;
    Ok(())
}

// Adds the numbers of the first items of a row.
#[cycle(key)]
fn push_front(
    key: &mut Vec<Num>,
    table: &TypeTable,
    item: TyId,
    witness: &Witness,
) -> Result<(), NoMemory>
    requires { IsOf table.now item }
    ensures { OnOk result (values key.new.items ≡ values key.old.items
        ++ items_key (table_program table.now) (table_type table.now item) (front_of (plain_witness witness.now))) }
{
    match witness {
        Witness::Row { front, .. } => push_items(key, table, item, front),
        _ => Ok(()),
    }
}

// Adds the numbers of the last items of a row.
#[cycle(key)]
fn push_back(
    key: &mut Vec<Num>,
    table: &TypeTable,
    item: TyId,
    witness: &Witness,
) -> Result<(), NoMemory>
    requires { IsOf table.now item }
    ensures { OnOk result (values key.new.items ≡ values key.old.items
        ++ items_key (table_program table.now) (table_type table.now item) (back_of (plain_witness witness.now))) }
{
    match witness {
        Witness::Row { back, .. } => push_items(key, table, item, back),
        _ => Ok(()),
    }
}

// Adds the numbers of the parts of a variant, a tuple's being 0, each of its own type.
#[cycle(key)]
fn push_parts(
    key: &mut Vec<Num>,
    table: &TypeTable,
    ty: TyId,
    variant: u32,
    parts: &[Witness],
) -> Result<(), NoMemory>
    requires { IsOf table.now ty }
    ensures { OnOk result (values key.new.items ≡ values key.old.items ++ parts_key (table_program table.now)
        (types_there (node_types (table_program table.now) (table_type table.now ty) variant))
        (witnesses_of (map plain_witness parts.now))) }
{
    let count = table.fields(ty, variant);
    let mut i = 0;
    for part in parts {
        if i < count {
            push_key(key, table, table.field(ty, variant, i), part)?;
            i += 1;
        }
    }
    Ok(())
}

// Adds the numbers of items, all of one type.
#[cycle(key)]
fn push_items(
    key: &mut Vec<Num>,
    table: &TypeTable,
    item: TyId,
    items: &[Witness],
) -> Result<(), NoMemory>
    requires { IsOf table.now item }
    ensures { OnOk result (values key.new.items ≡ values key.old.items
        ++ items_key (table_program table.now) (table_type table.now item)
        (witnesses_of (map plain_witness items.now))) }
{
    for witness in items {
        push_key(key, table, item, witness)?;
    }
    Ok(())
}

// The type behind a reference, or of the items of a slice or array; of every other type the type itself.
fn behind(table: &TypeTable, ty: TyId) -> TyId
    requires { IsOf table.now ty }
    ensures of { IsOf table.now result }
    ensures is { table_type table.now result ≡ inner_type (table_type table.now ty) }
{
    match table.kind(ty) {
        TyKind::Point { inner, .. } => inner,
        TyKind::Slice(item) => item,
        TyKind::Array(item, _) => item,
        _ => ty,
    }
}

// Adds the numbers of a range: whether it is late, then its ends.
fn push_range(
    key: &mut Vec<Num>,
    table: &TypeTable,
    ty: TyId,
    range: &Range,
) -> Result<(), NoMemory>
    requires { IsOf table.now ty }
    ensures { OnOk result (values key.new.items ≡ values key.old.items ++ range_key (table_type table.now ty)
        (plain_range range.now)) }
{
    push_late(key, is_late(table, ty, range))?;
    push_low(key, range.low())?;
    push_high(key, range.high())?;
    Ok(())
}

// Adds the number of a late range; another one has none.
fn push_late(key: &mut Vec<Num>, late: bool) -> Result<(), NoMemory>
    ensures { OnOk result (values key.new.items ≡ values key.old.items ++ late_key late) }
{
    if late {
        return push_count(key, 2);
    }
    Ok(())
}

// Adds the numbers of a low end.
fn push_low(key: &mut Vec<Num>, low: End) -> Result<(), NoMemory>
    ensures { OnOk result (values key.new.items ≡ values key.old.items ++ low_key (plain_end low)) }
{
    match low {
        End::Free => push_count(key, 0),
        End::At(number) => {
            push_count(key, 1)?;
            key.push(number)?;
            Ok(())
        }
    }
}

// Adds the numbers of a high end.
fn push_high(key: &mut Vec<Num>, high: End) -> Result<(), NoMemory>
    ensures { OnOk result (values key.new.items ≡ values key.old.items ++ high_key (plain_end high)) }
{
    match high {
        End::Free => push_count(key, 1),
        End::At(number) => {
            push_count(key, 0)?;
            key.push(number)?;
            Ok(())
        }
    }
}

// Whether the range is one of `isize` that ends below every literal.
fn is_late(table: &TypeTable, ty: TyId, range: &Range) -> bool
    requires { IsOf table.now ty }
    ensures { result ≡ is_late (table_type table.now ty) (plain_range range.now) }
{
    match table.kind(ty) {
        TyKind::Int(IntKind::ISize) => ends_low(range),
        _ => false,
    }
}

// Whether the range ends below every literal of `isize`.
fn ends_low(range: &Range) -> bool
    ensures { result ≡ ends_below_literals ISize (plain_range range.now).high }
{
    match range.high() {
        End::At(high) => high.negative && high.size > 0x8000_0000_0000_0000,
        End::Free => false,
    }
}

// Adds the characters of a text, each by one more than its number.
fn push_characters(key: &mut Vec<Num>, text: &str) -> Result<(), NoMemory>
    ensures { OnOk result (values key.new.items ≡ values key.old.items ++ map (λ c. pos (suc c)) (chars text.now)) }
{
    for c in text.chars() {
        push_count(key, u128::from(u32::from(c)) + 1)?;
    }
    Ok(())
}

// Adds the numbers of a text: 0, its characters, and 0 at the end. So a text stands before those that go on from it.
fn push_text(key: &mut Vec<Num>, text: &str) -> Result<(), NoMemory>
    ensures { OnOk result (values key.new.items ≡ values key.old.items ++ text_key text.now) }
{
    push_count(key, 0)?;
    push_characters(key, text)?;
    push_count(key, 0)?;
    Ok(())
}
