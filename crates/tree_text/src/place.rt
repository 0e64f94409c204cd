// Places as a report writes them.
ghost use Rattle.std.specs.Prelude.{◌≡◌, ◌++◌, OnOk, flat_map, string_bytes};
ghost use Rattle.serde_json.specs.Written.{compact_text};
ghost use Rattle.pat_context.specs.Places.{steps_of};
ghost use Rattle.pat_context.specs.Views.{plain_place, plain_step};
ghost use Rattle.tree_text.specs.Places.{step_text};
ghost use Rattle.tree_text.specs.Reported.{place_data};

use pat_context::{Place, Step};
use std::alloc::AllocError;

// Adds a step.
fn push_step(text: &mut String, step: &Step) -> Result<(), AllocError>
    ensures { OnOk result (string_bytes text.new ≡ string_bytes text.old ++ step_text (plain_step step.now)) }
{
    match step {
        Step::Through => text.push('*'),
        Step::Field { part, .. } => write!(text, ".{part}"),
        Step::Front(i) => write!(text, "[{i}]"),
        Step::Back(i) => write!(text, "[-{i}]"),
        Step::Middle { front, back } => write!(text, "[{front}..-{back}]"),
    }
}

// Adds the steps, one after the other.
fn push_steps(text: &mut String, steps: &[Step]) -> Result<(), AllocError>
    ensures { OnOk result (string_bytes text.new
        ≡ string_bytes text.old ++ flat_map step_text (plain_place steps.now)) }
{
    for step in steps {
        push_step(text, step)?;
    }
    Ok(())
}

// Adds a place as a JSON string; none of its characters is escaped there.
pub fn push_place(text: &mut String, place: &Place) -> Result<(), AllocError>
    ensures { OnOk result (string_bytes text.new
        ≡ string_bytes text.old ++ compact_text (place_data (plain_place (steps_of place.now)))) }
{
    text.push_str("\"$")?;
    push_steps(text, place.steps())?;
    text.push('"')?;
    Ok(())
}
