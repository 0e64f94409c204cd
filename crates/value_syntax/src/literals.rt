// Literals of characters, bytes and texts.
ghost use Rattle.std.specs.Prelude.{◌≡◌, ◌++◌, ◌<◌, OnOk, flat_map, string_bytes, chars};
ghost use Rattle.witness_text.specs.Literals.{escaped, code_escape, char_literal, string_literal};
ghost use Rattle.value_syntax.specs.Texts.{byte_escape, escaped_byte, byte_literal};

use std::alloc::AllocError;

// Adds a character as it stands in a literal that the quote ends.
#[tactic(auto, unfolding(witness_text::specs::Literals::escaped))]
fn push_escaped(text: &mut String, quote: char, c: char) -> Result<(), AllocError>
    requires { quote < 128 }
    ensures { OnOk result (string_bytes text.new ≡ string_bytes text.old ++ escaped quote c) }
{
    if c == quote || c == '\\' {
        text.push('\\')?;
        return text.push(c);
    }
    if c >= ' ' && c <= '~' {
        return text.push(c);
    }
    push_code(text, c)
}

// Adds a character by its scalar value.
fn push_code(text: &mut String, c: char) -> Result<(), AllocError>
    ensures { OnOk result (string_bytes text.new ≡ string_bytes text.old ++ code_escape c) }
{
    let value = u32::from(c);
    write!(text, "\\u{{{value:x}}}")
}

// Adds the literal of a character.
pub fn push_char(text: &mut String, c: char) -> Result<(), AllocError>
    ensures { OnOk result (string_bytes text.new ≡ string_bytes text.old ++ char_literal c) }
{
    text.push('\'')?;
    push_escaped(text, '\'', c)?;
    text.push('\'')?;
    Ok(())
}

// Adds the characters of a text as they stand in its literal.
fn push_all_escaped(text: &mut String, shown: &str) -> Result<(), AllocError>
    ensures { OnOk result (string_bytes text.new
        ≡ string_bytes text.old ++ flat_map (escaped 34) (chars shown.now)) }
{
    for c in shown.chars() {
        push_escaped(text, '"', c)?;
    }
    Ok(())
}

// Adds the literal of a text.
pub fn push_string(text: &mut String, shown: &str) -> Result<(), AllocError>
    ensures { OnOk result (string_bytes text.new
        ≡ string_bytes text.old ++ string_literal (chars shown.now)) }
{
    text.push('"')?;
    push_all_escaped(text, shown)?;
    text.push('"')?;
    Ok(())
}

// Adds a byte as it stands in its literal.
#[tactic(auto, unfolding(crate::specs::Texts::escaped_byte))]
fn push_escaped_byte(text: &mut String, byte: u8) -> Result<(), AllocError>
    ensures { OnOk result (string_bytes text.new ≡ string_bytes text.old ++ escaped_byte byte) }
{
    if byte == b'\'' || byte == b'\\' {
        text.push('\\')?;
        return text.push(char::from(byte));
    }
    if byte >= b' ' && byte <= b'~' {
        return text.push(char::from(byte));
    }
    push_byte_code(text, byte)
}

// Adds a byte by its value, in two digits.
fn push_byte_code(text: &mut String, byte: u8) -> Result<(), AllocError>
    ensures { OnOk result (string_bytes text.new ≡ string_bytes text.old ++ byte_escape byte) }
{
    text.push_str("\\x")?;
    if byte < 16 {
        text.push('0')?;
    }
    write!(text, "{byte:x}")
}

// Adds the literal of a byte.
pub fn push_byte(text: &mut String, byte: u8) -> Result<(), AllocError>
    ensures { OnOk result (string_bytes text.new ≡ string_bytes text.old ++ byte_literal byte) }
{
    text.push_str("b'")?;
    push_escaped_byte(text, byte)?;
    text.push('\'')?;
    Ok(())
}
