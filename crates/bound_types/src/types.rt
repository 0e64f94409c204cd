// The types of all names of a pattern, by name.
ghost use Rattle.std.specs.Prelude.{◌≡◌, ℕ, List, IfOk, OnOk, map};
ghost use Rattle.std.specs.Option.{is_some, option_or};
ghost use Rattle.indexmap.specs.IndexMap.{get_by_text};
ghost use Rattle.match_model.specs.Places.{some_if};
ghost use Rattle.match_model.specs.Texts.{text_eq};
ghost use Rattle.pattern_arena.specs.Trees.{tree, plain_bound};
ghost use Rattle.bound_types.specs.Types.{has_name, bound_type};

use crate::{copied, type_of};
use indexmap::IndexMap;
use no_memory::NoMemory;
use pattern_arena::{Bound, DePat};
use std::alloc::Global;

/// The types of the names that a pattern binds. Contracts see what it says of each name (`type_in`).
#[derive(Drop)]
pub struct BoundTypes<T: Copy> {
    types: IndexMap<String, T>,
}

impl<T: Copy> BoundTypes<T> {
    ghost use Rattle.bound_types.specs.Maps.{type_in};

    /// The types of the names of the pattern: to each name that of the first pattern, in preorder, that binds it. The
    /// time grows as the pattern does. The only error is want of memory.
    pub fn new<'a>(alloc: Global, pat: &DePat<'a, T>) -> Result<BoundTypes<T>, NoMemory>
        ensures { (name : List ℕ) → IfOk result (λ m. type_in m name ≡ bound_type (tree pat.now) name) }
    {
        let mut types = IndexMap::new(alloc);
        note_pattern(alloc, &mut types, pat)?;
        Ok(BoundTypes { types })
    }

    /// The type of the name; `None` where the pattern does not bind it. It takes no memory.
    pub fn get(&self, name: &str) -> Option<T>
        ensures { result ≡ type_in self.now name.now }
    {
        match self.types.get(name) {
            Some(ty) => Some(*ty),
            None => None,
        }
    }
}

// Notes the types of the names of the pattern that are not noted yet.
fn note_pattern<'a, T: Copy>(
    alloc: Global,
    types: &mut IndexMap<String, T>,
    pat: &DePat<'a, T>,
) -> Result<(), NoMemory>
    ensures { (q : List ℕ) → OnOk result
        (get_by_text types.new q ≡ option_or (get_by_text types.old q) (bound_type (tree pat.now) q)) }
{
    note_names(alloc, types, pat.form.binds, type_of(pat))?;
    for sub in pat.form.subs {
        note_pattern(alloc, types, sub)?;
    }
    Ok(())
}

// Notes the type for those of the names that are not noted yet.
fn note_names<'a, T: Copy>(
    alloc: Global,
    types: &mut IndexMap<String, T>,
    binds: &[Bound<'a>],
    ty: T,
) -> Result<(), NoMemory>
    ensures { (q : List ℕ) → OnOk result (get_by_text types.new q
        ≡ option_or (get_by_text types.old q) (some_if (has_name q (map plain_bound binds.now)) ty)) }
{
    for bound in binds {
        note(alloc, types, bound.name, &ty)?;
    }
    Ok(())
}

// Notes the type of a name, where none is noted yet.
fn note<T: Copy>(
    alloc: Global,
    types: &mut IndexMap<String, T>,
    name: &str,
    ty: &T,
) -> Result<(), NoMemory>
    ensures { (q : List ℕ) → OnOk result (get_by_text types.new q
        ≡ option_or (get_by_text types.old q) (some_if (text_eq name.now q) ty.now)) }
{
    if is_noted(types, name) {
        return Ok(());
    }
    let key = String::from_str(alloc, name)?;
    types.insert(key, copied(ty))?;
    Ok(())
}

// Tells whether a type of the name is noted.
fn is_noted<T: Copy>(types: &IndexMap<String, T>, name: &str) -> bool
    ensures { result ≡ is_some (get_by_text types.now name.now) }
{
    types.get(name).is_some()
}
