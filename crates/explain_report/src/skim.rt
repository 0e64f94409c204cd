// A JSON text without what stands deep in it.
ghost use Rattle.std.specs.Prelude.{◌≡◌, ◌++◌, IfOk, OnOk, string_bytes};
ghost use Rattle.std.specs.Str.Lossy.{utf8_lossy};
ghost use Rattle.serde_json.specs.View.{view};
ghost use Rattle.explain_report.specs.Reading.{Reads};
ghost use Rattle.explain_report.specs.Skimming.{after_plain, after_quoted, next_skim, kept_byte, skimmed_from, skimmed, outermost, read_skimmed};

use crate::records::ReadFault;
use serde_json::Value;
use std::alloc::{AllocError, Global};

// How many brackets may be open around a bracket that is kept.
const MOST_LEVELS: usize = 8;

/// What a place of a JSON text is within.
#[derive(Clone, Copy, Debug, PartialEq, Eq)]
pub(crate) enum Mode {
    /// No string.
    Plain,
    /// A string.
    Quoted,
    /// A string, behind a backslash.
    Escaped,
}

/// What a place is within, and how many brackets are open there.
#[derive(Clone, Copy, Debug, PartialEq, Eq)]
pub(crate) struct Skim {
    pub mode: Mode,
    pub depth: usize,
}

// Behind a byte outside all strings.
fn after_plain(depth: usize, byte: u8) -> Skim
    ensures { result ≡ after_plain depth byte }
{
    match byte {
        b'"' => Skim {
            mode: Mode::Quoted,
            depth,
        },
        b'[' | b'{' => Skim {
            mode: Mode::Plain,
            depth: depth.saturating_add(1),
        },
        b']' | b'}' => Skim {
            mode: Mode::Plain,
            depth: depth.saturating_sub(1),
        },
        _ => Skim {
            mode: Mode::Plain,
            depth,
        },
    }
}

// Behind a byte of a string.
fn after_quoted(depth: usize, byte: u8) -> Skim
    ensures { result ≡ after_quoted depth byte }
{
    match byte {
        b'"' => Skim {
            mode: Mode::Plain,
            depth,
        },
        b'\\' => Skim {
            mode: Mode::Escaped,
            depth,
        },
        _ => Skim {
            mode: Mode::Quoted,
            depth,
        },
    }
}

// Behind a byte.
fn next_skim(skim: Skim, byte: u8) -> Skim
    ensures { result ≡ next_skim skim byte }
{
    let depth = skim.depth;
    match skim.mode {
        Mode::Plain => after_plain(depth, byte),
        Mode::Quoted => after_quoted(depth, byte),
        Mode::Escaped => Skim {
            mode: Mode::Quoted,
            depth,
        },
    }
}

// Adds what is left of a byte.
fn push_kept(kept: &mut Vec<u8>, before: Skim, after: Skim, byte: u8) -> Result<(), AllocError>
    ensures { OnOk result (kept.new.items ≡ kept.old.items ++ kept_byte before after byte) }
{
    if MOST_LEVELS < before.depth {
        return Ok(());
    }
    if MOST_LEVELS < after.depth {
        return kept.extend_from_slice(b"null");
    }
    Ok(kept.push(byte)?)
}

// What is left of a text.
fn skimmed(alloc: Global, text: &[u8]) -> Result<Vec<u8>, AllocError>
    ensures { IfOk result (λ kept. kept.items ≡ skimmed text.now) }
{
    let mut kept = Vec::with_capacity(alloc, text.len())?;
    let mut skim = Skim {
        mode: Mode::Plain,
        depth: 0,
    };
    for byte in text {
        let after = next_skim(skim, *byte);
        push_kept(&mut kept, skim, after, *byte)?;
        skim = after;
    }
    Ok(kept)
}

// What is left of a text, as a text.
fn skimmed_text(alloc: Global, json: &str) -> Result<String, AllocError>
    ensures { IfOk result (λ text. string_bytes text ≡ utf8_lossy (skimmed json.now)) }
{
    let kept = skimmed(alloc, json.as_bytes())?;
    let text = String::from_utf8_lossy(alloc, kept.as_slice())?;
    Ok(text)
}

/// The JSON that a text is, with `null` for each list and object that stands within eight others: parts of the trees of
/// witnesses, which may be thousands of levels deep, and nothing else of a report. In what is passed over only strings
/// and brackets are told apart. `NoReport` says that the rest is no JSON.
#[tactic(auto, unfolding(crate::specs::Skimming::read_skimmed))]
pub fn value_of(alloc: Global, json: &str) -> Result<Value, ReadFault>
    ensures { Reads view (read_skimmed json.now) result }
{
    let text = skimmed_text(alloc, json)?;
    match Value::from_str(alloc, text.as_str()) {
        Ok(value) => Ok(value),
        Err(error) if error.is_memory() => Err(ReadFault::NoMemory),
        Err(_) => Err(ReadFault::NoReport),
    }
}
