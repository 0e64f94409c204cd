//! The types of the names that a pattern of the engine binds.
//!
//! A name stands beside the pattern whose value it is bound to, so it has that pattern's type. In an or-pattern each
//! alternative binds the same names with the same types; so the first pattern that binds the name tells its type.
//! [`type_of_bound`] looks for one name, [`BoundTypes`] has all of them.
#![tactic(auto)]

ghost use Rattle.std.specs.Prelude.{◌≡◌};
ghost use Rattle.match_model.specs.Texts.{text_eq};
ghost use Rattle.match_model.specs.ArenaPatterns.{type_of};
ghost use Rattle.pattern_arena.specs.Trees.{tree, plain_bound};
ghost use Rattle.std.specs.Prelude.{map};
ghost use Rattle.bound_types.specs.Types.{has_name, bound_type};

mod types;

use pattern_arena::{Bound, DePat};
pub use types::BoundTypes;

/// The type of the first pattern, in preorder, that binds the name: the pattern itself, or one below it, those of an
/// earlier part first. A name that is bound to the rest of a row has the type of the whole row. `None` where no pattern
/// binds the name. It takes no memory.
pub fn type_of_bound<'a, T: Copy>(pat: &DePat<'a, T>, name: &str) -> Option<T>
    ensures { result ≡ bound_type (tree pat.now) name.now }
{
    if has_name(pat.form.binds, name) {
        return Some(type_of(pat));
    }
    for sub in pat.form.subs {
        let found = type_of_bound(sub, name);
        if found.is_some() {
            return found;
        }
    }
    None
}

// The type of the pattern.
pub(crate) fn type_of<'a, T: Copy>(pat: &DePat<'a, T>) -> T
    ensures { result ≡ type_of (tree pat.now) }
{
    copied(&pat.form.ty)
}

// The same type.
pub(crate) fn copied<T: Copy>(ty: &T) -> T
    ensures { result ≡ ty.now }
{
    *ty
}

// Tells whether the name is one of these.
fn has_name<'a>(binds: &[Bound<'a>], name: &str) -> bool
    ensures { result ≡ has_name name.now (map plain_bound binds.now) }
{
    for bound in binds {
        if is_same_name(bound.name, name) {
            return true;
        }
    }
    false
}

// Tells whether two names are the same.
fn is_same_name(name: &str, other: &str) -> bool
    ensures { result ≡ text_eq name.now other.now }
{
    name == other
}
