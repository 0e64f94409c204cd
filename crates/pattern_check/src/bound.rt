// The names that are bound before a node.
ghost use Rattle.std.specs.Prelude.{◌≡◌, ◌&&◌, not, ◌∷◌, ◌++◌, [], ℕ, List, map, take, drop, OnOk, IfOk};
ghost use Rattle.decl_syntax.specs.Patterns.{shape_view};
ghost use Rattle.type_names.specs.NameRules.{is_among};
ghost use Rattle.pattern_rules.specs.Settings.{Setting, Place as AnyPlace};
ghost use Rattle.pattern_rules.specs.Namings.{is_path_name};
ghost use Rattle.pattern_rules.specs.Nodes.{Standing as AnyStanding, name_if};
ghost use Rattle.pattern_rules.specs.OtherRules.{binds_twice};
ghost use Rattle.pattern_check.specs.Checking.{IsOfFile, IsSettingOf};
ghost use Rattle.pattern_check.specs.NodeForms.{node_at};
ghost use Rattle.pattern_check.specs.Walks.{text_at, Holds, Adds, own_names};

use crate::names::is_path_name;
use decl_syntax::PatKind;
use indexmap::IndexSet;
use no_memory::NoMemory;
use type_table::TypeTable;

/// Adds the name that a form binds by itself, if it binds one, and tells whether it is bound already.
pub(crate) fn bind_own<'a>(
    table: &TypeTable,
    kind: &'a PatKind,
    names: &mut IndexSet<&'a str>,
) -> Result<bool, NoMemory>
    requires { IsOfFile table.now }
    ensures twice { IfOk result (λ b.
        (s : Setting) (at : ℕ) (standing : AnyStanding) (p : AnyPlace) (before : List (List ℕ)) →
        IsSettingOf table.now s → Holds (map text_at names.old.keys) before
        → b ≡ binds_twice s (node_at at (shape_view kind.now) standing p before)) }
    ensures adds { OnOk result ((s : Setting) → IsSettingOf table.now s
        → Adds (map text_at names.old.keys) (map text_at names.new.keys) (own_names s (shape_view kind.now))) }
{
    match kind {
        PatKind::Name(name) => bind_bare(table, name, names),
        PatKind::Bind { name, .. } => bind(name, names),
        PatKind::Wild => Ok(false),
        PatKind::Rest => Ok(false),
        PatKind::Lit(_) => Ok(false),
        PatKind::Range(_) => Ok(false),
        PatKind::Path(_) => Ok(false),
        PatKind::TupleForm { .. } => Ok(false),
        PatKind::Brace { .. } => Ok(false),
        PatKind::Tuple(_) => Ok(false),
        PatKind::Group(_) => Ok(false),
        PatKind::Slice(_) => Ok(false),
        PatKind::Point { .. } => Ok(false),
        PatKind::Or(_) => Ok(false),
    }
}

// Adds a bare name, unless it is a path, and tells whether it is bound already.
fn bind_bare<'a>(
    table: &TypeTable,
    name: &'a str,
    names: &mut IndexSet<&'a str>,
) -> Result<bool, NoMemory>
    requires { IsOfFile table.now }
    ensures twice { IfOk result (λ b. (s : Setting) → IsSettingOf table.now s
        → b ≡ (not (is_path_name s name.now) && is_among name.now (map text_at names.old.keys))) }
    ensures adds { OnOk result ((s : Setting) → IsSettingOf table.now s
        → Adds (map text_at names.old.keys) (map text_at names.new.keys) (name_if (is_path_name s name.now) name.now)) }
{
    if is_path_name(table, name) {
        return Ok(false);
    }
    bind(name, names)
}

// Adds a name, and tells whether it is there already.
fn bind<'a>(name: &'a str, names: &mut IndexSet<&'a str>) -> Result<bool, NoMemory>
    ensures twice { IfOk result (λ b. b ≡ is_among name.now (map text_at names.old.keys)) }
    ensures adds { OnOk result (Adds (map text_at names.old.keys) (map text_at names.new.keys) (name.now ∷ [])) }
{
    let is_new = names.insert(name)?;
    Ok(!is_new)
}

/// Moves the names behind the first so many to another list.
pub(crate) fn set_aside<'a>(
    names: &mut IndexSet<&'a str>,
    count: usize,
    aside: &mut Vec<&'a str>,
) -> Result<(), NoMemory>
    ensures names { OnOk result (map text_at names.new.keys ≡ take count (map text_at names.old.keys)) }
    ensures aside { OnOk result (map text_at aside.new.items
        ≡ map text_at aside.old.items ++ drop count (map text_at names.old.keys)) }
{
    copy_from(names.as_slice(), count, aside)?;
    names.truncate(count);
    Ok(())
}

// Adds the names from that number on to the list.
fn copy_from<'a>(names: &[&'a str], start: usize, list: &mut Vec<&'a str>) -> Result<(), NoMemory>
    ensures { OnOk result (map text_at list.new.items
        ≡ map text_at list.old.items ++ drop start (map text_at names.now)) }
{
    for i in start..names.len() {
        list.push(names[i])?;
    }
    Ok(())
}

/// Adds the names.
pub(crate) fn put_back<'a>(names: &mut IndexSet<&'a str>, aside: &[&'a str]) -> Result<(), NoMemory>
    ensures { OnOk result (Adds (map text_at names.old.keys) (map text_at names.new.keys) (map text_at aside.now)) }
{
    for name in aside {
        names.insert(*name)?;
    }
    Ok(())
}
