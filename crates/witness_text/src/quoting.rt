// Pieces of JSON.
ghost use Rattle.std.specs.Prelude.{◌≡◌, ◌++◌, ◌↔◌, IsTrue, OnOk, string_bytes};
ghost use Rattle.std.specs.List.{All};
ghost use Rattle.serde_json.specs.Data.{string};
ghost use Rattle.serde_json.specs.Written.{compact_text, comma_if};
ghost use Rattle.witness_text.specs.Plain.{IsPlain};

use serde_json::json;
use std::alloc::{AllocError, Global};

/// Adds a comma where something stands before. The only error is want of memory.
pub fn push_comma(text: &mut String, later: bool) -> Result<(), AllocError>
    ensures { OnOk result (string_bytes text.new ≡ string_bytes text.old ++ comma_if later) }
{
    if !later {
        return Ok(());
    }
    text.push(',')
}

/// Adds a text as a JSON string. The only error is want of memory.
pub fn push_quoted(alloc: Global, text: &mut String, shown: &str) -> Result<(), AllocError>
    ensures { OnOk result (string_bytes text.new ≡ string_bytes text.old ++ compact_text (string shown.now)) }
{
    if is_plain(shown.as_bytes()) {
        return push_plain(text, shown);
    }
    let quoted = json!(in alloc; shown)?.to_string(alloc)?;
    text.push_str(quoted.as_str())?;
    Ok(())
}

// Adds a text of which each byte stands for itself in a JSON string, as in most names.
fn push_plain(text: &mut String, shown: &str) -> Result<(), AllocError>
    requires { All IsPlain shown.now }
    ensures { OnOk result (string_bytes text.new ≡ string_bytes text.old ++ compact_text (string shown.now)) }
{
    text.push('"')?;
    text.push_str(shown)?;
    text.push('"')?;
    Ok(())
}

// Whether each of the bytes stands for itself in a JSON string: it is above the quote, and no backslash.
fn is_plain(bytes: &[u8]) -> bool
    ensures { IsTrue result ↔ All IsPlain bytes.now }
{
    for byte in bytes {
        if *byte <= b'"' || *byte == b'\\' {
            return false;
        }
    }
    true
}
