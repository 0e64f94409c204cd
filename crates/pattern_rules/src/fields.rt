//! The fields that a brace pattern names.
ghost use Rattle.std.specs.Prelude.{◌≡◌, [], map, IfOk};
ghost use Rattle.std.specs.Str.{bytes_eq};
ghost use Rattle.decl_syntax.specs.Patterns.{field_view, fields_from};
ghost use Rattle.list_members.specs.Members.{repeats};
ghost use Rattle.pattern_rules.specs.NodeRules.{written_names};

use decl_syntax::FieldPat;
use list_members::names_repeat;
use no_memory::NoMemory;
use std::alloc::Global;

/// The names of the written fields, in order.
pub fn written_names<'a>(alloc: Global, fields: &'a [FieldPat]) -> Result<Vec<&'a str>, NoMemory>
    ensures { IfOk result (λ v. map (λ n. n.now) v.items ≡ written_names (fields_from (map field_view fields.now))) }
{
    let mut names = Vec::new(alloc);
    for field in fields {
        names.push(field.name.as_str())?;
    }
    Ok(names)
}

/// Whether a field is named twice. The only error is want of memory.
pub fn names_field_twice(alloc: Global, fields: &[FieldPat]) -> Result<bool, NoMemory>
    ensures { IfOk result
        (λ b. b ≡ repeats bytes_eq [] (written_names (fields_from (map field_view fields.now)))) }
{
    let names = written_names(alloc, fields)?;
    names_repeat(alloc, &names)
}
