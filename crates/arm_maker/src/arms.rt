// The texts of the arms.
ghost use Rattle.std.specs.Prelude.{◌≡◌, map, IfErr, IfOk, IsTrue, string_bytes};
ghost use Rattle.std.specs.List.{All};
ghost use Rattle.match_model.specs.Lists.{Ordered};
ghost use Rattle.match_model.specs.OfType.{witness_is_of};
ghost use Rattle.match_model.specs.RustTypes.{rust_context};
ghost use Rattle.type_table.specs.Tables.{IsOf, table_program, table_type};
ghost use Rattle.witnesses.specs.Views.{plain_witness};
ghost use Rattle.witness_text.specs.Trees.{witness_view};
ghost use Rattle.witness_names.specs.Named.{IsOfFile};
ghost use Rattle.arm_maker.specs.Arms.{AreArms, IsArmFault, are_small, arm_tree, patterns_of};
ghost use Rattle.arm_maker.specs.Order.{IsOneFirst};
ghost use Rattle.arm_maker.specs.Turns.{plain_loans};

use crate::order::in_order;
use crate::sizes::{MOST_LEVELS, fits};
use no_memory::NoMemory;
use std::alloc::Global;
use type_table::{TyId, TypeTable};
use witness_names::{Paths, name_witness};
use witness_text::{NamedWitness, arm_text};
use witnesses::Witness;

/// Why there are no arms.
#[derive(Clone, Copy, Debug, PartialEq, Eq)]
pub enum ArmFault {
    /// A pattern would pass the limits of the grammar: rule 50.
    Rule { rule: u32 },
    /// Memory was wanted and refused.
    NoMemory,
}

impl From<NoMemory> for ArmFault {
    ghost use Rattle.arm_maker.specs.declared.arms.ArmFault.TheVariants as faults;

    ghost from_gives = { λ _ e. e ≡ faults.NoMemory };

    fn from(_e: NoMemory) -> ArmFault {
        ArmFault::NoMemory
    }
}

/// The patterns of the arms that take what these witnesses of the type show, in the order in which the arms stand.
/// They are written as Rust writes patterns (the Rust Reference, "Patterns"). Rule 50 comes exactly where a pattern
/// would have more than 64 levels or a list of more than 256 parts, `..` counted. The only other error is want of
/// memory.
///
/// Of any two of the witnesses one stands before the other, as in each list that judging gives. A text without a
/// reference in front has no pattern: there `*` stands in front of the literal.
pub fn arm_texts(
    alloc: Global,
    table: &TypeTable,
    ty: TyId,
    witnesses: &[Witness],
) -> Result<Vec<String>, ArmFault>
    requires of { IsOf table.now ty }
    requires file { IsOfFile table.now }
    requires typed { All (λ w. IsTrue (witness_is_of (rust_context (table_program table.now)) (table_type table.now ty)
        (plain_witness w))) witnesses.now }
    requires apart { Ordered IsOneFirst (map plain_witness witnesses.now) }
    ensures arms { IfOk result (λ v. AreArms (table_program table.now) (table_type table.now ty)
        (map plain_witness witnesses.now) (map string_bytes v.items)) }
    ensures fault { IfErr result (IsArmFault (table_program table.now) (table_type table.now ty)
        (map plain_witness witnesses.now)) }
{
    if !are_small(alloc, table, ty, witnesses)? {
        return Err(ArmFault::Rule { rule: 50 });
    }
    let sorted = in_order(alloc, table, ty, witnesses)?;
    let texts = patterns_of(alloc, table, ty, &sorted)?;
    Ok(texts)
}

// The witness with the names that an arm has.
fn name_arm<'t>(
    alloc: Global,
    table: &'t TypeTable,
    ty: TyId,
    witness: &'t Witness,
) -> Result<NamedWitness<'t>, NoMemory>
    requires of { IsOf table.now ty }
    requires file { IsOfFile table.now }
    ensures { IfOk result (λ n. witness_view n ≡ arm_tree (table_program table.now) (table_type table.now ty)
        (plain_witness witness.now)) }
{
    name_witness(alloc, Paths::Whole, table, ty, witness)
}

// Whether the pattern of each witness is within the limits of the grammar.
fn are_small(
    alloc: Global,
    table: &TypeTable,
    ty: TyId,
    witnesses: &[Witness],
) -> Result<bool, NoMemory>
    requires of { IsOf table.now ty }
    requires file { IsOfFile table.now }
    ensures { IfOk result (λ b. b ≡ are_small (table_program table.now) (table_type table.now ty)
        (map plain_witness witnesses.now)) }
{
    for witness in witnesses {
        let named = name_arm(alloc, table, ty, witness)?;
        if !fits(MOST_LEVELS, &named) {
            return Ok(false);
        }
    }
    Ok(true)
}

// The patterns of the witnesses. One tree with names is there at a time.
fn patterns_of(
    alloc: Global,
    table: &TypeTable,
    ty: TyId,
    witnesses: &[&Witness],
) -> Result<Vec<String>, NoMemory>
    requires of { IsOf table.now ty }
    requires file { IsOfFile table.now }
    ensures { IfOk result (λ v. map string_bytes v.items
        ≡ patterns_of (table_program table.now) (table_type table.now ty) (plain_loans witnesses.now)) }
{
    let mut texts = Vec::with_capacity(alloc, witnesses.len())?;
    for witness in witnesses {
        let named = name_arm(alloc, table, ty, witness)?;
        let text = arm_text(alloc, &named)?;
        texts.push(text)?;
    }
    Ok(texts)
}
