// Lists of keys.
ghost use Rattle.std.specs.Prelude.{◌≡◌, [], IfOk};
ghost use Rattle.std.specs.List.{list_all, list_any};
ghost use Rattle.indexmap.specs.IndexSet.{insert_all};
ghost use Rattle.list_members.specs.Members.{are_among, have_same_members, repeats};

use indexmap::IndexSet;
use no_memory::NoMemory;
use std::alloc::Global;
use std::hash::Hash;

/// Whether a key stands twice in the list. The only error is want of memory.
pub fn repeats<K: Copy + Eq + Hash>(alloc: Global, all: &[K]) -> Result<bool, NoMemory>
    ensures { IfOk result (λ b. b ≡ repeats K.eq [] all.now) }
{
    let mut seen = IndexSet::new(alloc);
    for key in all {
        if !seen.insert(*key)? {
            return Ok(true);
        }
    }
    Ok(false)
}

/// Whether all keys of the first list are among the second. The only error is want of memory.
pub fn are_among<K: Copy + Eq + Hash>(
    alloc: Global,
    first: &[K],
    second: &[K],
) -> Result<bool, NoMemory>
    ensures { IfOk result (λ b. b ≡ are_among K.eq first.now second.now) }
{
    let members = member_set(alloc, second)?;
    Ok(has_all(&members, first))
}

// Whether the set has all of the keys.
fn has_all<K: Copy + Eq + Hash>(members: &IndexSet<K>, keys: &[K]) -> bool
    ensures { result ≡ list_all (λ key. list_any (K.eq key) members.now.keys) keys.now }
{
    keys.iter().all(|key| members.contains(key))
}

/// Whether each of the two lists has all keys of the other, in any order and number. The only error is want of memory.
pub fn have_same_members<K: Copy + Eq + Hash>(
    alloc: Global,
    first: &[K],
    second: &[K],
) -> Result<bool, NoMemory>
    ensures { IfOk result (λ b. b ≡ have_same_members K.eq first.now second.now) }
{
    if !are_among(alloc, first, second)? {
        return Ok(false);
    }
    are_among(alloc, second, first)
}

// The keys of the list, each once.
fn member_set<K: Copy + Eq + Hash>(alloc: Global, all: &[K]) -> Result<IndexSet<K>, NoMemory>
    ensures { IfOk result (λ set. set.keys ≡ insert_all K.eq [] all.now) }
{
    let mut set = IndexSet::new(alloc);
    for key in all {
        set.insert(*key)?;
    }
    Ok(set)
}
