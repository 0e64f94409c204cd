//! What the paths and bare names of patterns stand for, by a table of types.
ghost use Rattle.std.specs.Prelude.{◌≡◌};
ghost use Rattle.decl_syntax.specs.Patterns.{path_view};
ghost use Rattle.type_names.specs.Finding.{FoundTree, path_finds, name_finds};
ghost use Rattle.type_table.specs.Paths.{FoundIs, FoundOf};
ghost use Rattle.pattern_rules.specs.Settings.{Setting};
ghost use Rattle.pattern_rules.specs.Namings.{is_short, is_path_name, name_form, found_if, found_number};
ghost use Rattle.pattern_elaboration.specs.Checking.{IsOfFile, IsSettingOf};

use decl_syntax::Path;
use pattern_rules::paths::is_short;
use type_table::{FormKind, Found, TypeTable};

/// What a path finds, if it is one or two plain names; else nothing.
pub fn path_found(table: &TypeTable, path: &Path) -> Found
    requires { IsOfFile table.now }
    ensures of { FoundOf table.now result }
    ensures is { (s : Setting) → IsSettingOf table.now s →
        FoundIs table.now (found_if (is_short (path_view path.now)) (path_finds s.items (path_view path.now))) result }
{
    if is_short(path) {
        table.find(path)
    } else {
        Found::Nothing
    }
}

/// The form of what a bare name finds.
pub fn name_form(table: &TypeTable, name: &str) -> Option<FormKind>
    requires { IsOfFile table.now }
    ensures { (s : Setting) → IsSettingOf table.now s → result ≡ name_form s name.now }
{
    let found = table.find_name(name);
    table.form(&found)
}

/// Whether a bare name is a path: it finds a unit struct or a unit variant.
pub fn is_path_name(table: &TypeTable, name: &str) -> bool
    requires { IsOfFile table.now }
    ensures { (s : Setting) → IsSettingOf table.now s → result ≡ is_path_name s name.now }
{
    match name_form(table, name) {
        Some(FormKind::Unit) => true,
        Some(FormKind::Tuple) => false,
        Some(FormKind::Brace) => false,
        None => false,
    }
}

/// What a bare name that is a path finds; nothing where the name binds.
pub fn name_found(table: &TypeTable, name: &str) -> Found
    requires { IsOfFile table.now }
    ensures of { FoundOf table.now result }
    ensures is { (s : Setting) → IsSettingOf table.now s →
        FoundIs table.now (found_if (is_path_name s name.now) (name_finds s.items name.now)) result }
{
    if is_path_name(table, name) {
        table.find_name(name)
    } else {
        Found::Nothing
    }
}

/// The number of the variant that was found; a struct has the variant 0.
pub fn found_number(table: &TypeTable, found: &Found) -> u32
    ensures { (told : FoundTree) → FoundIs table.now told found.now → result ≡ found_number told }
{
    match found {
        Found::Nothing => 0,
        Found::Twice => 0,
        Found::Struct(_) => 0,
        Found::Variant { variant, .. } => *variant,
    }
}
