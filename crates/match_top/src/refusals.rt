// Refusals that stand alone.
ghost use Rattle.std.specs.Prelude.{◌≡◌, IfOk};
ghost use Rattle.match_top.specs.Refusals.{IsRefusal, IsRefusedIn, IsRefusedAt};
ghost use Rattle.match_top.specs.Reports.{refusal_of};
ghost use Rattle.match_top.specs.Statuses.{IsVerdict};
ghost use Rattle.verdict_json.specs.Rules.{IsRule};

use crate::Status;
use crate::answering::Answer;
use no_memory::NoMemory;
use pattern_check::function::Fault;
use std::alloc::Global;
use verdict_json::{Refusal, refusal_bytes};

/// The refusal of the function with this item number by its first broken rule.
pub(crate) fn refusal_of(number: u64, fault: &Fault) -> Refusal
    ensures { result ≡ refusal_of number fault.now.rule fault.now.arm fault.now.at }
{
    Refusal {
        rule: fault.rule,
        item: Some(number),
        arm: fault.arm,
        at: Some(fault.at),
    }
}

/// The refusal, alone.
pub(crate) fn refused(alloc: Global, refusal: &Refusal) -> Result<Answer, NoMemory>
    requires { IsRule refusal.now.rule }
    ensures answers { IfOk result (λ a. IsRefusal refusal.now a.text.items a.status) }
    ensures verdict { IfOk result (λ a. IsVerdict a.status) }
{
    Ok(Answer {
        text: refusal_bytes(alloc, refusal)?,
        status: Status::Refused,
    })
}

/// The refusal of the whole source by a rule, with its item and its place, if any.
pub(crate) fn refused_in(
    alloc: Global,
    rule: u32,
    item: Option<u64>,
    at: Option<u64>,
) -> Result<Answer, NoMemory>
    requires { IsRule rule }
    ensures answers { IfOk result (λ a. IsRefusedIn rule item at a.text.items a.status) }
    ensures verdict { IfOk result (λ a. IsVerdict a.status) }
{
    let refusal = Refusal {
        rule,
        item,
        arm: None,
        at,
    };
    refused(alloc, &refusal)
}

/// The refusal by a rule that names no item, with its place, if any.
pub(crate) fn refused_at(alloc: Global, rule: u32, at: Option<u64>) -> Result<Answer, NoMemory>
    requires { IsRule rule }
    ensures answers { IfOk result (λ a. IsRefusedAt rule at a.text.items a.status) }
    ensures verdict { IfOk result (λ a. IsVerdict a.status) }
{
    refused_in(alloc, rule, None, at)
}
