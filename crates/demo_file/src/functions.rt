// The function of an item.
ghost use Rattle.std.specs.Prelude.{◌≡◌, ◌++◌, ◌+◌, ◌<◌, map, length, IfOk, OnOk, string_bytes};
ghost use Rattle.std.specs.List.{range_with_len};
ghost use Rattle.demo_file.specs.Generated.{unit_variant, arm_text, arms_from, even_patterns, third_patterns};
ghost use Rattle.demo_file.specs.Generated.{field_patterns, function_head, function_line};

use crate::enums::unit_count;
use std::alloc::AllocError;

// Adds an arm: its pattern behind the enum's name, and its number.
fn push_arm(text: &mut String, item: u32, pattern: &str, arm: u32) -> Result<(), AllocError>
    ensures { OnOk result (string_bytes text.new ≡ string_bytes text.old ++ arm_text item arm pattern.now) }
{
    write!(text, "E{item}::{pattern} => {arm}, ")
}

// Adds the arm of a unit variant, which has the variant's number.
fn push_unit_arm(text: &mut String, item: u32, variant: u32) -> Result<(), AllocError>
    ensures { OnOk result (string_bytes text.new
        ≡ string_bytes text.old ++ arm_text item variant (unit_variant variant)) }
{
    write!(text, "E{item}::V{variant} => {variant}, ")
}

// Adds the arms of so many unit variants.
fn push_unit_arms(text: &mut String, item: u32, count: u32) -> Result<(), AllocError>
    ensures { OnOk result (string_bytes text.new
        ≡ string_bytes text.old ++ arms_from item 0 (map unit_variant (range_with_len 0 count))) }
{
    for variant in 0..count {
        push_unit_arm(text, item, variant)?;
    }
    Ok(())
}

// Adds the arm that only the functions of even numbers have, and gives the number of the next arm.
fn push_even_arm(text: &mut String, item: u32, arm: u32) -> Result<u32, AllocError>
    requires { arm < 1000 }
    ensures added { OnOk result (string_bytes text.new
        ≡ string_bytes text.old ++ arms_from item arm (even_patterns item)) }
    ensures next { IfOk result (λ next. next ≡ arm + length (even_patterns item)) }
{
    if item % 2 == 0 {
        push_arm(text, item, "W(_, false)", arm)?;
        return Ok(arm + 1);
    }
    Ok(arm)
}

// Adds the arm that only each third function has.
fn push_third_arm(text: &mut String, item: u32, arm: u32) -> Result<(), AllocError>
    ensures { OnOk result (string_bytes text.new
        ≡ string_bytes text.old ++ arms_from item arm (third_patterns item)) }
{
    if item % 3 == 0 {
        push_arm(text, item, "V0", arm)?;
    }
    Ok(())
}

// Adds the arms behind those of the unit variants.
fn push_field_arms(text: &mut String, item: u32, arm: u32) -> Result<(), AllocError>
    requires { arm < 100 }
    ensures { OnOk result (string_bytes text.new
        ≡ string_bytes text.old ++ arms_from item arm (field_patterns item)) }
{
    push_arm(text, item, "W(0..=100, true)", arm)?;
    push_arm(text, item, "W(100..=255, _)", arm + 1)?;
    let next = push_even_arm(text, item, arm + 2)?;
    push_third_arm(text, item, next)?;
    Ok(())
}

// Adds what stands in front of the arms.
fn push_head(text: &mut String, item: u32) -> Result<(), AllocError>
    ensures { OnOk result (string_bytes text.new ≡ string_bytes text.old ++ function_head item) }
{
    write!(text, "fn f{item}(x: &E{item}) {{ match x {{ ")
}

// Adds the line of the function.
pub(crate) fn push_function(text: &mut String, item: u32) -> Result<(), AllocError>
    ensures { OnOk result (string_bytes text.new ≡ string_bytes text.old ++ function_line item) }
{
    let count = unit_count(item);
    push_head(text, item)?;
    push_unit_arms(text, item, count)?;
    push_field_arms(text, item, count)?;
    text.push_str("} }\n")?;
    Ok(())
}
