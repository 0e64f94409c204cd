// What a match does with one value.
ghost use Rattle.std.specs.Prelude.{◌≡◌, ◌++◌, OnOk, IfOk, map, false, codes, string_bytes};
ghost use Rattle.serde_json.specs.Data.{string};
ghost use Rattle.serde_json.specs.View.{items_of};
ghost use Rattle.serde_json.specs.Written.{compact_text, items_text};
ghost use Rattle.tree_text.specs.Reported.{count_data, mode_word};
ghost use Rattle.verdict_json.specs.OutcomeTrees.{held_view, asked_view, ending_view, outcome_view};
ghost use Rattle.verdict_json.specs.Outcomes.{held_data, bindings_data, asked_data, taken_arm_data};
ghost use Rattle.verdict_json.specs.Outcomes.{taken_bindings_data, ending_word, outcome_data, outcome_text};

use match_model::Mode;
use no_memory::NoMemory;
use std::alloc::{AllocError, Global};
use witness_text::{push_comma, push_quoted};

/// A name that an arm binds, with the text of what it is bound to.
#[derive(Debug, Drop)]
pub struct HeldText {
    /// The name, without `r#`.
    pub name: String,
    pub mode: Mode,
    /// The value as a text.
    pub value: String,
}

/// A guard that got an answer.
#[derive(Debug, Drop)]
pub struct AskedText {
    /// The guard's arm, counted from 0.
    pub arm: u32,
    /// The names that the guard saw, ascending.
    pub bindings: Vec<HeldText>,
}

/// How a match ends with a value.
#[derive(Debug, Drop)]
pub enum EndingText {
    /// The arm, counted from 0, is taken, with its names ascending.
    Took { arm: u32, bindings: Vec<HeldText> },
    /// No arm is taken.
    Missed,
    /// An answer of a guard is missing.
    Short,
}

/// What a match does with one value.
#[derive(Debug, Drop)]
pub struct OutcomeText {
    /// The guards that got an answer, in order.
    pub asked: Vec<AskedText>,
    pub ending: EndingText,
}

// How a name is bound, as a JSON string.
fn mode_text(mode: Mode) -> &'static str
    ensures { result.now ≡ compact_text (string (mode_word mode)) }
{
    match mode {
        Mode::Move => "\"move\"",
        Mode::Ref => "\"ref\"",
        Mode::RefMut => "\"ref mut\"",
    }
}

// Adds the number of an arm.
fn push_arm(text: &mut String, arm: u32) -> Result<(), AllocError>
    ensures { OnOk result (string_bytes text.new ≡ string_bytes text.old ++ compact_text (count_data arm)) }
{
    write!(text, "{arm}")
}

// Adds a name with its mode and its value.
fn push_held(alloc: Global, text: &mut String, held: &HeldText) -> Result<(), AllocError>
    ensures { OnOk result (string_bytes text.new
        ≡ string_bytes text.old ++ compact_text (held_data (held_view held.now))) }
{
    text.push_str("{\"mode\":")?;
    text.push_str(mode_text(held.mode))?;
    text.push_str(",\"name\":")?;
    push_quoted(alloc, text, held.name.as_str())?;
    text.push_str(",\"value\":")?;
    push_quoted(alloc, text, held.value.as_str())?;
    text.push('}')?;
    Ok(())
}

// Adds names with commas between them, and the bracket that closes them.
fn push_each_held(alloc: Global, text: &mut String, bindings: &[HeldText]) -> Result<(), AllocError>
    ensures { OnOk result (string_bytes text.new
        ≡ string_bytes text.old ++ items_text false (items_of (map held_data (map held_view bindings.now)))) }
{
    let mut later = false;
    for held in bindings {
        push_comma(text, later)?;
        push_held(alloc, text, held)?;
        later = true;
    }
    text.push(']')?;
    Ok(())
}

// Adds names in brackets.
fn push_bindings(alloc: Global, text: &mut String, bindings: &[HeldText]) -> Result<(), AllocError>
    ensures { OnOk result (string_bytes text.new
        ≡ string_bytes text.old ++ compact_text (bindings_data (map held_view bindings.now))) }
{
    text.push('[')?;
    push_each_held(alloc, text, bindings)
}

// Adds a guard that got an answer.
fn push_asked(alloc: Global, text: &mut String, asked: &AskedText) -> Result<(), AllocError>
    ensures { OnOk result (string_bytes text.new
        ≡ string_bytes text.old ++ compact_text (asked_data (asked_view asked.now))) }
{
    text.push_str("{\"arm\":")?;
    push_arm(text, asked.arm)?;
    text.push_str(",\"bindings\":")?;
    push_bindings(alloc, text, &asked.bindings)?;
    text.push('}')?;
    Ok(())
}

// Adds the guards with commas between them, and the bracket that closes them.
fn push_each_asked(alloc: Global, text: &mut String, asked: &[AskedText]) -> Result<(), AllocError>
    ensures { OnOk result (string_bytes text.new
        ≡ string_bytes text.old ++ items_text false (items_of (map asked_data (map asked_view asked.now)))) }
{
    let mut later = false;
    for one in asked {
        push_comma(text, later)?;
        push_asked(alloc, text, one)?;
        later = true;
    }
    text.push(']')?;
    Ok(())
}

// Adds the arm that is taken, where one is.
fn push_taken_arm(text: &mut String, ending: &EndingText) -> Result<(), AllocError>
    ensures { OnOk result (string_bytes text.new
        ≡ string_bytes text.old ++ compact_text (taken_arm_data (ending_view ending.now))) }
{
    match ending {
        EndingText::Took { arm, .. } => push_arm(text, *arm),
        EndingText::Missed => text.push_str("null"),
        EndingText::Short => text.push_str("null"),
    }
}

// Adds the names of the arm that is taken, where one is.
fn push_taken(alloc: Global, text: &mut String, ending: &EndingText) -> Result<(), AllocError>
    ensures { OnOk result (string_bytes text.new
        ≡ string_bytes text.old ++ compact_text (taken_bindings_data (ending_view ending.now))) }
{
    match ending {
        EndingText::Took { bindings, .. } => push_bindings(alloc, text, bindings),
        EndingText::Missed => text.push_str("null"),
        EndingText::Short => text.push_str("null"),
    }
}

// The word for how it ends, with its key, and the brace that closes the object.
fn last_piece(ending: &EndingText) -> &'static str
    ensures { result.now ≡ codes ",\"outcome\":"
        ++ (compact_text (string (ending_word (ending_view ending.now))) ++ codes "}") }
{
    match ending {
        EndingText::Took { .. } => ",\"outcome\":\"took\"}",
        EndingText::Missed => ",\"outcome\":\"missed\"}",
        EndingText::Short => ",\"outcome\":\"short\"}",
    }
}

// Adds what a match does with a value.
fn push_outcome(alloc: Global, text: &mut String, outcome: &OutcomeText) -> Result<(), AllocError>
    ensures { OnOk result (string_bytes text.new
        ≡ string_bytes text.old ++ compact_text (outcome_data (outcome_view outcome.now))) }
{
    text.push_str("{\"arm\":")?;
    push_taken_arm(text, &outcome.ending)?;
    text.push_str(",\"asked\":[")?;
    push_each_asked(alloc, text, &outcome.asked)?;
    text.push_str(",\"bindings\":")?;
    push_taken(alloc, text, &outcome.ending)?;
    text.push_str(last_piece(&outcome.ending))?;
    Ok(())
}

// The text of what a match does with a value, and a line feed.
#[tactic(auto, unfolding(crate::specs::Outcomes::outcome_text))]
fn outcome_line(alloc: Global, outcome: &OutcomeText) -> Result<String, AllocError>
    ensures { IfOk result (λ s. string_bytes s ≡ outcome_text (outcome_view outcome.now)) }
{
    let mut text = String::new(alloc);
    push_outcome(alloc, &mut text, outcome)?;
    text.push('\n')?;
    Ok(text)
}

/// The whole output for one value: what the match does with it, and a line feed. The only error is want of memory.
pub fn outcome_bytes(alloc: Global, outcome: &OutcomeText) -> Result<Vec<u8>, NoMemory>
    ensures { IfOk result (λ bytes. bytes.items ≡ outcome_text (outcome_view outcome.now)) }
{
    Ok(outcome_line(alloc, outcome)?.into_bytes())
}
