// How a name is written.
ghost use Rattle.std.specs.Prelude.{◌≡◌, ◌++◌, OnOk, string_bytes};
ghost use Rattle.decl_lexer.specs.Written.{written_name};

use crate::words::word_of;
use std::alloc::AllocError;

/// Adds a name to a text as Rust writes it: one that is a keyword has `r#` in front.
pub fn push_name(text: &mut String, name: &str) -> Result<(), AllocError>
    ensures { OnOk result (string_bytes text.new ≡ string_bytes text.old ++ written_name name.now) }
{
    if word_of(name).is_some() {
        text.push_str("r#")?;
    }
    text.push_str(name)
}
