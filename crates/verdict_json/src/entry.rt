// Unreachable arms and alternatives of a report on one function.
ghost use Rattle.std.specs.Prelude.{◌≡◌, ◌++◌, OnOk, codes, string_bytes};
ghost use Rattle.serde_json.specs.Data.{boolean};
ghost use Rattle.serde_json.specs.Written.{compact_text};
ghost use Rattle.verdict_json.specs.Report.{unreachable_data};
ghost use Rattle.verdict_json.specs.Trees.{unreachable_view};

use itoa::Buffer;
use std::alloc::AllocError;
use witnesses::Unreachable;

// Whether it is the whole arm, with the key in front and the brace that closes the object.
fn last_piece(whole: bool) -> &'static str
    ensures { result.now ≡ codes ",\"whole\":" ++ (compact_text (boolean whole) ++ codes "}") }
{
    if whole {
        ",\"whole\":true}"
    } else {
        ",\"whole\":false}"
    }
}

// Adds an unreachable arm or alternative.
pub fn push_entry(text: &mut String, entry: &Unreachable) -> Result<(), AllocError>
    ensures { OnOk result (string_bytes text.new
        ≡ string_bytes text.old ++ compact_text (unreachable_data (unreachable_view entry.now))) }
{
    let mut buffer = Buffer::new();
    text.push_str("{\"arm\":")?;
    text.push_str(buffer.format(entry.arm))?;
    text.push_str(",\"at\":")?;
    text.push_str(buffer.format(entry.at))?;
    text.push_str(last_piece(entry.whole))?;
    Ok(())
}
