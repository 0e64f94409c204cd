// Colours of a terminal.
ghost use Rattle.std.specs.Prelude.{◌≡◌, ◌++◌, OnOk, string_bytes};
ghost use Rattle.explain_text.specs.Styles.{style_end, style_start, styled};

use std::alloc::AllocError;

/// How a part of a text is shown where colours are wanted: bold, and but for the last in a colour.
#[derive(Clone, Copy, Debug, PartialEq, Eq)]
pub(crate) enum Style {
    /// What breaks a build: red.
    Error,
    /// What does not: yellow.
    Warning,
    /// A note: green.
    Note,
    /// A help: cyan.
    Help,
    /// Numbers of lines and what stands around a line: blue.
    Frame,
    /// A message, and the name of a note.
    Bold,
}

// What begins a style.
fn style_start(style: Style) -> &'static str
    ensures { result.now ≡ style_start style }
{
    match style {
        Style::Error => "\x1b[1;91m",
        Style::Warning => "\x1b[1;33m",
        Style::Note => "\x1b[1;92m",
        Style::Help => "\x1b[1;96m",
        Style::Frame => "\x1b[1;94m",
        Style::Bold => "\x1b[1m",
    }
}

// Adds a text in a style.
fn push_painted(text: &mut String, style: Style, inner: &str) -> Result<(), AllocError>
    ensures { OnOk result (string_bytes text.new
        ≡ string_bytes text.old ++ (style_start style ++ (inner.now ++ style_end))) }
{
    text.push_str(style_start(style))?;
    text.push_str(inner)?;
    text.push_str("\x1b[0m")?;
    Ok(())
}

// Adds a text, in a style where colours are wanted.
#[tactic(auto, unfolding(crate::specs::Styles::styled))]
pub(crate) fn push_styled(
    text: &mut String,
    paint: bool,
    style: Style,
    inner: &str,
) -> Result<(), AllocError>
    ensures { OnOk result (string_bytes text.new ≡ string_bytes text.old ++ styled paint style inner.now) }
{
    if paint {
        push_painted(text, style, inner)
    } else {
        text.push_str(inner)
    }
}
