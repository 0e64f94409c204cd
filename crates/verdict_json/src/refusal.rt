// Refusals.
ghost use Rattle.std.specs.Prelude.{◌≡◌, ◌++◌, IfOk, OnOk, decimal, string_bytes};
ghost use Rattle.serde_json.specs.Written.{compact_text};
ghost use Rattle.verdict_json.specs.Rules.{IsRule};
ghost use Rattle.verdict_json.specs.Refused.{number_data, refusal_data, refusal_text};
ghost use Rattle.verdict_json.specs.Report.{refused_data};

use crate::rules::rule_name;
use itoa::Buffer;
use no_memory::NoMemory;
use std::alloc::{AllocError, Global};
use witness_text::push_quoted;

/// A rule that is broken, and where, as far as the rule has a place.
#[derive(Clone, Copy, Debug, PartialEq, Eq)]
pub struct Refusal {
    /// The rule's number.
    pub rule: u32,
    /// The item, counted from 0 in the file.
    pub item: Option<u64>,
    /// The arm, counted from 0 in the match.
    pub arm: Option<u64>,
    /// A byte offset in the file.
    pub at: Option<u64>,
}

// Adds a number.
fn push_number(text: &mut String, number: u64) -> Result<(), AllocError>
    ensures { OnOk result (string_bytes text.new ≡ string_bytes text.old ++ decimal number) }
{
    let mut buffer = Buffer::new();
    text.push_str(buffer.format(number))
}

// Adds a number, or `null` where there is none.
fn push_place(text: &mut String, number: Option<u64>) -> Result<(), AllocError>
    ensures { OnOk result (string_bytes text.new ≡ string_bytes text.old ++ compact_text (number_data number)) }
{
    match number {
        Some(number) => push_number(text, number),
        None => text.push_str("null"),
    }
}

// Adds a refusal by a rule of this name.
fn push_refusal(
    alloc: Global,
    text: &mut String,
    refusal: &Refusal,
    name: &str,
) -> Result<(), AllocError>
    ensures { OnOk result (string_bytes text.new
        ≡ string_bytes text.old ++ compact_text (refusal_data refusal.now name.now)) }
{
    text.push_str("{\"arm\":")?;
    push_place(text, refusal.arm)?;
    text.push_str(",\"at\":")?;
    push_place(text, refusal.at)?;
    text.push_str(",\"item\":")?;
    push_place(text, refusal.item)?;
    text.push_str(",\"name\":")?;
    push_quoted(alloc, text, name)?;
    text.push_str(",\"rule\":")?;
    push_number(text, u64::from(refusal.rule))?;
    text.push('}')?;
    Ok(())
}

// The text of the refusal, and a line feed.
fn refusal_line(alloc: Global, refusal: &Refusal) -> Result<String, AllocError>
    requires { IsRule refusal.now.rule }
    ensures { IfOk result (λ s. string_bytes s ≡ refusal_text refusal.now) }
{
    let name = rule_name(refusal.rule).unwrap();
    let mut text = String::from_str(alloc, "{\"refused\":")?;
    push_refusal(alloc, &mut text, refusal, name)?;
    text.push_str("}\n")?;
    Ok(text)
}

// Adds the entry of a function of this name that is refused.
pub fn push_refused(
    alloc: Global,
    text: &mut String,
    function: &str,
    refusal: &Refusal,
) -> Result<(), AllocError>
    requires { IsRule refusal.now.rule }
    ensures { OnOk result (string_bytes text.new
        ≡ string_bytes text.old ++ compact_text (refused_data function.now refusal.now)) }
{
    let name = rule_name(refusal.rule).unwrap();
    text.push_str("{\"name\":")?;
    push_quoted(alloc, text, function)?;
    text.push_str(",\"refused\":")?;
    push_refusal(alloc, text, refusal, name)?;
    text.push('}')?;
    Ok(())
}

/// The whole output for a file or a value that is refused: the refusal with the rule's name, and a line feed.
///
/// The rule is one that has a name.
pub fn refusal_bytes(alloc: Global, refusal: &Refusal) -> Result<Vec<u8>, NoMemory>
    requires { IsRule refusal.now.rule }
    ensures { IfOk result (λ bytes. bytes.items ≡ refusal_text refusal.now) }
{
    Ok(refusal_line(alloc, refusal)?.into_bytes())
}
