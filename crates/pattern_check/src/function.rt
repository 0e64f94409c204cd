//! The first broken rule of a function's patterns.
ghost use Rattle.std.specs.Prelude.{◌≡◌, true, Some, None, map, option_map, slice_get, IfOk, IfSome};
ghost use Rattle.decl_syntax.specs.Functions.{function_view};
ghost use Rattle.decl_syntax.specs.Items.{ItemTree, arm_view};
ghost use Rattle.type_table.specs.Tables.{IsOf, table_type};
ghost use Rattle.pattern_rules.specs.Settings.{Setting};
ghost use Rattle.pattern_rules.specs.Faults.{function_of, nodes_of_arm, nodes_of_arms, function_nodes};
ghost use Rattle.pattern_rules.specs.Faults.{node_rules, alternative_rules};
ghost use Rattle.pattern_rules.specs.Faults.{BreaksNone, IsFirstPatternFault};
ghost use Rattle.pattern_rules.specs.FirstFault.{first_at, first_fault, star_fault};
ghost use Rattle.pattern_check.specs.Checking.{IsOfFile, IsSettingOf};
ghost use Rattle.pattern_check.specs.FunctionFaults.{fault_view, first_but_bindings, in_arm};

use crate::alternatives::gather;
use crate::fault::NodeFault;
use crate::own_fault::Standing;
use crate::types::Place;
use crate::walk::walk_pattern;
use decl_syntax::{Arm, FnItem};
use indexmap::IndexSet;
use match_model::Mode;
use no_memory::NoMemory;
use pattern_rules::Edition;
use std::alloc::Global;
use type_table::{TyId, TypeTable};

/// A rule that is broken, the arm where it is in one, counted from 0, and the offset.
#[derive(Clone, Copy, Debug, PartialEq, Eq)]
pub struct Fault {
    pub rule: u32,
    pub arm: Option<u64>,
    pub at: u64,
}

/// The first broken rule of a function's patterns: rule 34 at the scrutinee, or else that of the first node that breaks
/// a rule other than 31, with its least rule, or else rule 31 at the first or-pattern that breaks it; none where the
/// function breaks no rule. `item` is the number of the function's item in the file. The only error is want of memory.
pub fn first_fault(
    alloc: Global,
    table: &TypeTable,
    edition: Edition,
    item: u64,
    function: &FnItem,
) -> Result<Option<Fault>, NoMemory>
    requires { IsOfFile table.now }
    ensures found { (s : Setting) (i : ItemTree) → IsSettingOf table.now s → s.edition ≡ edition
        → slice_get s.items item ≡ Some i → function_of i.kind ≡ Some (function_view function.now)
        → IfOk result (λ r. IfSome r (λ x. IsFirstPatternFault s (function_view function.now) x.rule x.arm x.at)) }
    ensures none { (s : Setting) (i : ItemTree) → IsSettingOf table.now s → s.edition ≡ edition
        → slice_get s.items item ≡ Some i → function_of i.kind ≡ Some (function_view function.now)
        → IfOk result (λ r. r ≡ None → BreaksNone s (function_view function.now)) }
{
    node_or_alternatives(alloc, table, edition, item, function)
}

// The same, by the walk that tells it.
fn node_or_alternatives(
    alloc: Global,
    table: &TypeTable,
    edition: Edition,
    item: u64,
    function: &FnItem,
) -> Result<Option<Fault>, NoMemory>
    requires { IsOfFile table.now }
    ensures { (s : Setting) (i : ItemTree) → IsSettingOf table.now s → s.edition ≡ edition
        → slice_get s.items item ≡ Some i → function_of i.kind ≡ Some (function_view function.now)
        → IfOk result (λ r. option_map fault_view r ≡ first_fault s (function_view function.now)) }
{
    let fault = scrutinee_or_arms(alloc, table, edition, item, function)?;
    if fault.is_some() {
        return Ok(fault);
    }
    alternatives_fault(alloc, table, item, function)
}

// The first or-pattern that breaks rule 31, where no other rule is broken.
fn alternatives_fault(
    alloc: Global,
    table: &TypeTable,
    item: u64,
    function: &FnItem,
) -> Result<Option<Fault>, NoMemory>
    requires { IsOfFile table.now }
    ensures { (s : Setting) (i : ItemTree) → IsSettingOf table.now s
        → slice_get s.items item ≡ Some i → function_of i.kind ≡ Some (function_view function.now)
        → first_but_bindings s (function_view function.now) ≡ None → IfOk result (λ r. option_map fault_view r
        ≡ first_at alternative_rules s (function_nodes s (function_view function.now))) }
{
    match table.scrutinee(item) {
        Some((ty, _)) => arms_alternatives(alloc, table, &function.arms, ty),
        None => Ok(None),
    }
}

// The same of the arms, whose patterns stand at this type.
fn arms_alternatives(
    alloc: Global,
    table: &TypeTable,
    arms: &[Arm],
    ty: TyId,
) -> Result<Option<Fault>, NoMemory>
    requires file { IsOfFile table.now }
    requires of { IsOf table.now ty }
    ensures { (s : Setting) → IsSettingOf table.now s
        → first_at node_rules s (nodes_of_arms s (table_type table.now ty) 0 (map arm_view arms.now)) ≡ None
        → IfOk result (λ r. option_map fault_view r
        ≡ first_at alternative_rules s (nodes_of_arms s (table_type table.now ty) 0 (map arm_view arms.now))) }
{
    let mut number = 0;
    for arm in arms {
        let fault = arm_alternatives(alloc, table, arm, ty, number)?;
        if fault.is_some() {
            return Ok(fault);
        }
        number += 1;
    }
    Ok(None)
}

// The same of the arm with this number.
fn arm_alternatives(
    alloc: Global,
    table: &TypeTable,
    arm: &Arm,
    ty: TyId,
    number: u64,
) -> Result<Option<Fault>, NoMemory>
    requires file { IsOfFile table.now }
    requires of { IsOf table.now ty }
    ensures { (s : Setting) → IsSettingOf table.now s
        → first_at node_rules s (nodes_of_arm s (table_type table.now ty) number (arm_view arm.now)) ≡ None
        → IfOk result (λ r. option_map fault_view r
        ≡ first_at alternative_rules s (nodes_of_arm s (table_type table.now ty) number (arm_view arm.now))) }
{
    let mut bounds = IndexSet::new(alloc);
    let here = Place {
        ty,
        mode: Mode::Move,
    };
    let fault = gather(alloc, table, &arm.pat, here, &mut bounds)?;
    Ok(in_arm(number, fault))
}

/// The first broken rule of a function's patterns, rule 31 left out: rule 34 at the scrutinee, or else that of the
/// first node that breaks one, with its least rule. `item` is the number of the function's item in the file. The only
/// error is want of memory.
pub fn first_node_fault(
    alloc: Global,
    table: &TypeTable,
    edition: Edition,
    item: u64,
    function: &FnItem,
) -> Result<Option<Fault>, NoMemory>
    requires { IsOfFile table.now }
    ensures is { (s : Setting) (i : ItemTree) → IsSettingOf table.now s → s.edition ≡ edition
        → slice_get s.items item ≡ Some i → function_of i.kind ≡ Some (function_view function.now)
        → IfOk result (λ r. option_map fault_view r ≡ first_but_bindings s (function_view function.now)) }
    ensures found { (s : Setting) (i : ItemTree) → IsSettingOf table.now s → s.edition ≡ edition
        → slice_get s.items item ≡ Some i → function_of i.kind ≡ Some (function_view function.now)
        → IfOk result (λ r. IfSome r (λ x. IsFirstPatternFault s (function_view function.now) x.rule x.arm x.at)) }
{
    scrutinee_or_arms(alloc, table, edition, item, function)
}

// The same.
fn scrutinee_or_arms(
    alloc: Global,
    table: &TypeTable,
    edition: Edition,
    item: u64,
    function: &FnItem,
) -> Result<Option<Fault>, NoMemory>
    requires { IsOfFile table.now }
    ensures { (s : Setting) (i : ItemTree) → IsSettingOf table.now s → s.edition ≡ edition
        → slice_get s.items item ≡ Some i → function_of i.kind ≡ Some (function_view function.now)
        → IfOk result (λ r. option_map fault_view r ≡ first_but_bindings s (function_view function.now)) }
{
    match table.scrutinee(item) {
        Some((ty, _)) => arms_fault(alloc, table, edition, &function.arms, ty),
        None => Ok(star_fault(function)),
    }
}

// Rule 34 at the `*` before the scrutinee.
fn star_fault(function: &FnItem) -> Option<Fault>
    ensures { option_map fault_view result ≡ star_fault true function.now.deref }
{
    match function.deref {
        Some(at) => Some(Fault {
            rule: 34,
            arm: None,
            at,
        }),
        None => None,
    }
}

// The first broken rule of the arms, whose patterns stand at this type.
fn arms_fault(
    alloc: Global,
    table: &TypeTable,
    edition: Edition,
    arms: &[Arm],
    ty: TyId,
) -> Result<Option<Fault>, NoMemory>
    requires file { IsOfFile table.now }
    requires of { IsOf table.now ty }
    ensures { (s : Setting) → IsSettingOf table.now s → s.edition ≡ edition → IfOk result (λ r. option_map fault_view r
        ≡ first_at node_rules s (nodes_of_arms s (table_type table.now ty) 0 (map arm_view arms.now))) }
{
    let mut number = 0;
    for arm in arms {
        let fault = arm_fault(alloc, table, edition, arm, ty, number)?;
        if fault.is_some() {
            return Ok(fault);
        }
        number += 1;
    }
    Ok(None)
}

// The first broken rule of the arm with this number.
fn arm_fault(
    alloc: Global,
    table: &TypeTable,
    edition: Edition,
    arm: &Arm,
    ty: TyId,
    number: u64,
) -> Result<Option<Fault>, NoMemory>
    requires file { IsOfFile table.now }
    requires of { IsOf table.now ty }
    ensures { (s : Setting) → IsSettingOf table.now s → s.edition ≡ edition → IfOk result (λ r. option_map fault_view r
        ≡ first_at node_rules s (nodes_of_arm s (table_type table.now ty) number (arm_view arm.now))) }
{
    let mut names = IndexSet::new(alloc);
    let here = Place {
        ty,
        mode: Mode::Move,
    };
    let fault = walk_pattern(
        alloc,
        table,
        edition,
        &arm.pat,
        Standing::Elsewhere,
        here,
        &mut names,
    )?;
    Ok(in_arm(number, fault))
}

// The fault of a node in the arm with this number.
fn in_arm(number: u64, fault: Option<NodeFault>) -> Option<Fault>
    ensures { option_map fault_view result ≡ option_map (in_arm number) fault }
{
    match fault {
        Some(fault) => Some(Fault {
            rule: fault.rule,
            arm: Some(number),
            at: fault.at,
        }),
        None => None,
    }
}
