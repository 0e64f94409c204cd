// The file, item by item.
ghost use Rattle.std.specs.Prelude.{◌≡◌, ◌++◌, ◌<◌, ◌≤◌, IfOk, OnOk, string_bytes};
ghost use Rattle.demo_file.specs.Generated.{item_text, demo_file};

use crate::enums::push_enum;
use crate::functions::push_function;
use no_memory::NoMemory;
use std::alloc::{AllocError, Global};

// Adds the two lines of an item.
fn push_item(text: &mut String, item: u32) -> Result<(), AllocError>
    ensures { OnOk result (string_bytes text.new ≡ string_bytes text.old ++ item_text item) }
{
    push_enum(text, item)?;
    push_function(text, item)
}

/// The bytes of the generated file with `n` enums and `n` functions. `n` is from 1 to 200. The only error is want of
/// memory.
pub fn demo_source(alloc: Global, n: u32) -> Result<Vec<u8>, NoMemory>
    requires { (0 < n) × (n ≤ 200) }
    ensures { IfOk result (λ text. text.items ≡ demo_file n) }
{
    let mut text = String::new(alloc);
    for item in 0..n {
        push_item(&mut text, item)?;
    }
    Ok(text.into_bytes())
}
