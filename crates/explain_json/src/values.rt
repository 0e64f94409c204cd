// Numbers and texts as JSON.
ghost use Rattle.std.specs.Prelude.{◌≡◌, ◌++◌, OnOk, decimal, option_map, string_bytes};
ghost use Rattle.serde_json.specs.Data.{string};
ghost use Rattle.serde_json.specs.Written.{comma_if, compact_text};
ghost use Rattle.explain_json.specs.Values.{text_data};

use serde_json::json;
use std::alloc::{AllocError, Global};

// Adds a comma where something stands before.
pub(crate) fn push_comma(text: &mut String, later: bool) -> Result<(), AllocError>
    ensures { OnOk result (string_bytes text.new ≡ string_bytes text.old ++ comma_if later) }
{
    if !later {
        return Ok(());
    }
    text.push(',')
}

// Adds a text as a JSON string.
pub(crate) fn push_quoted(alloc: Global, text: &mut String, shown: &str) -> Result<(), AllocError>
    ensures { OnOk result (string_bytes text.new ≡ string_bytes text.old ++ compact_text (string shown.now)) }
{
    let quoted = json!(in alloc; shown)?.to_string(alloc)?;
    text.push_str(quoted.as_str())?;
    Ok(())
}

// Adds a text as a JSON string, or `null` where there is none.
pub(crate) fn push_optional(
    alloc: Global,
    text: &mut String,
    shown: Option<&str>,
) -> Result<(), AllocError>
    ensures { OnOk result (string_bytes text.new
        ≡ string_bytes text.old ++ compact_text (text_data (option_map (λ s. s.now) shown.entry))) }
{
    match shown {
        Some(shown) => push_quoted(alloc, text, shown),
        None => text.push_str("null"),
    }
}

// Adds a key, or what else stands before a number, and the number.
pub(crate) fn push_counted(text: &mut String, front: &str, count: usize) -> Result<(), AllocError>
    ensures { OnOk result (string_bytes text.new ≡ string_bytes text.old ++ (front.now ++ decimal count)) }
{
    text.push_str(front)?;
    write!(text, "{count}")?;
    Ok(())
}
