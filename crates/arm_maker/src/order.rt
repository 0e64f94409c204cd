// Witnesses in the order of arms.
ghost use Rattle.std.specs.Prelude.{◌≡◌, map, IfOk, IsTrue};
ghost use Rattle.std.specs.List.{All};
ghost use Rattle.match_model.specs.Lists.{Ordered};
ghost use Rattle.match_model.specs.OfType.{witness_is_of};
ghost use Rattle.match_model.specs.RustTypes.{rust_context};
ghost use Rattle.type_table.specs.Tables.{IsOf, table_program, table_type};
ghost use Rattle.witnesses.specs.Views.{plain_witness};
ghost use Rattle.arm_maker.specs.Order.{AreInArmOrder, IsOneFirst};
ghost use Rattle.arm_maker.specs.Turns.{plain_loans, turn_cmp, turn_witnesses, HasKey};

use crate::compare::compare_keys;
use crate::keys::key_of;
use no_memory::NoMemory;
use range_split::Num;
use std::alloc::Global;
use std::cmp::Ordering;
use type_table::{TyId, TypeTable};
use witnesses::Witness;

// A witness with the numbers by which it stands in the order of arms.
#[derive(Drop)]
pub(crate) struct Turn<'w> {
    pub(crate) key: Vec<Num>,
    pub(crate) witness: &'w Witness,
}

// Which of two turns is first.
fn compare(first: &Turn<'_>, second: &Turn<'_>) -> Ordering
    ensures { result ≡ turn_cmp first.now second.now }
{
    compare_keys(first.key.as_slice(), second.key.as_slice())
}

// The witnesses in the order of arms. Of any two of them one stands before the other.
pub(crate) fn in_order<'w>(
    alloc: Global,
    table: &TypeTable,
    ty: TyId,
    witnesses: &'w [Witness],
) -> Result<Vec<&'w Witness>, NoMemory>
    requires of { IsOf table.now ty }
    requires typed { All (λ w. IsTrue (witness_is_of (rust_context (table_program table.now)) (table_type table.now ty)
        (plain_witness w))) witnesses.now }
    requires apart { Ordered IsOneFirst (map plain_witness witnesses.now) }
    ensures { IfOk result (λ v. AreInArmOrder (table_program table.now) (table_type table.now ty)
        (map plain_witness witnesses.now) (plain_loans v.items)) }
{
    let mut turns = turns_of(alloc, table, ty, witnesses)?;
    turns.sort_by(|first, second| compare(first, second))?;
    let sorted = witnesses_of(alloc, turns)?;
    Ok(sorted)
}

// The witnesses with their numbers.
fn turns_of<'w>(
    alloc: Global,
    table: &TypeTable,
    ty: TyId,
    witnesses: &'w [Witness],
) -> Result<Vec<Turn<'w>>, NoMemory>
    requires { IsOf table.now ty }
    ensures witnesses { IfOk result (λ v. turn_witnesses v.items ≡ map plain_witness witnesses.now) }
    ensures keys { IfOk result (λ v. All (HasKey (table_program table.now) (table_type table.now ty)) v.items) }
{
    let mut turns = Vec::with_capacity(alloc, witnesses.len())?;
    for witness in witnesses {
        let key = key_of(alloc, table, ty, witness)?;
        turns.push(Turn { key, witness })?;
    }
    Ok(turns)
}

// The witnesses alone.
fn witnesses_of<'w>(alloc: Global, turns: Vec<Turn<'w>>) -> Result<Vec<&'w Witness>, NoMemory>
    ensures { IfOk result (λ v. plain_loans v.items ≡ turn_witnesses turns.entry.items) }
{
    let mut witnesses = Vec::with_capacity(alloc, turns.len())?;
    for turn in turns {
        witnesses.push(turn.witness)?;
    }
    Ok(witnesses)
}
