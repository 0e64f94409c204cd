// The enum of an item.
ghost use Rattle.std.specs.Prelude.{◌≡◌, ◌++◌, ◌+◌, ◌%◌, OnOk, string_bytes};
ghost use Rattle.std.specs.List.{flat_map, range_with_len};
ghost use Rattle.demo_file.specs.Generated.{listed_variant, enum_line};

use std::alloc::AllocError;

// How many unit variants the enum has.
pub(crate) fn unit_count(item: u32) -> u32
    ensures { result ≡ item % 5 + 1 }
{
    item % 5 + 1
}

// Adds a unit variant with a comma behind it.
fn push_listed_variant(text: &mut String, variant: u32) -> Result<(), AllocError>
    ensures { OnOk result (string_bytes text.new ≡ string_bytes text.old ++ listed_variant variant) }
{
    write!(text, "V{variant}, ")
}

// Adds so many unit variants.
fn push_variants(text: &mut String, count: u32) -> Result<(), AllocError>
    ensures { OnOk result (string_bytes text.new
        ≡ string_bytes text.old ++ flat_map listed_variant (range_with_len 0 count)) }
{
    for variant in 0..count {
        push_listed_variant(text, variant)?;
    }
    Ok(())
}

// Adds the line of the enum.
pub(crate) fn push_enum(text: &mut String, item: u32) -> Result<(), AllocError>
    ensures { OnOk result (string_bytes text.new ≡ string_bytes text.old ++ enum_line item) }
{
    write!(text, "enum E{item} {{ ")?;
    push_variants(text, unit_count(item))?;
    text.push_str("W(u8, bool) }\n")?;
    Ok(())
}
