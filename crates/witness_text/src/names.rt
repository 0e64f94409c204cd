// Names of forms.
ghost use Rattle.std.specs.Prelude.{◌≡◌, ◌++◌, IfOk, OnOk, codes, string_bytes};
ghost use Rattle.decl_lexer.specs.Written.{written_name};
ghost use Rattle.witness_text.specs.Trees.{name_view};
ghost use Rattle.witness_text.specs.Texts.{name_text};

use crate::FormName;
use decl_lexer::push_name;
use std::alloc::{AllocError, Global};

// Adds the name of a variant behind that of its enum.
fn push_path(text: &mut String, owner: &str, variant: &str) -> Result<(), AllocError>
    ensures { OnOk result (string_bytes text.new
        ≡ string_bytes text.old ++ (written_name owner.now ++ (codes "::" ++ written_name variant.now))) }
{
    push_name(text, owner)?;
    text.push_str("::")?;
    push_name(text, variant)?;
    Ok(())
}

// Adds a name; one that is a keyword has `r#`.
#[tactic(auto, unfolding(crate::specs::Texts::name_text))]
pub fn push_form_name(text: &mut String, name: &FormName<'_>) -> Result<(), AllocError>
    ensures { OnOk result (string_bytes text.new ≡ string_bytes text.old ++ name_text (name_view name.now)) }
{
    match name {
        FormName::Plain(name) => push_name(text, name),
        FormName::Variant { owner, variant } => push_path(text, owner, variant),
    }
}

/// The text of a name; one that is a keyword has `r#`. The only error is want of memory.
pub fn form_name(alloc: Global, name: &FormName<'_>) -> Result<String, AllocError>
    ensures { IfOk result (λ s. string_bytes s ≡ name_text (name_view name.now)) }
{
    let mut text = String::new(alloc);
    push_form_name(&mut text, name)?;
    Ok(text)
}
