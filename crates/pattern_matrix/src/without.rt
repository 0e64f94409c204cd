// The heads of a row without those at a column.
ghost use Rattle.std.specs.Prelude.{◌≡◌, ◌≤◌, ◌+◌, ◌++◌, ◌∷◌, [], length, take, drop, true, IfOk, OnOk};
ghost use Rattle.pattern_matrix.specs.Sparse.{without};
ghost use Rattle.pattern_matrix.specs.HeadLists.{kept_heads, part_heads};
ghost use Rattle.pattern_matrix.specs.Views.{plain_heads};

use crate::{Head, HeadPart, Heads};
use no_memory::NoMemory;
use std::alloc::Global;

// How many heads stand before the first one at the column.
#[inline(always)]
fn count_before<'a, T: Copy>(heads: &[Head<'a, T>], column: usize) -> usize
    ensures within { result ≤ length heads.now }
    ensures others { without column (plain_heads heads.now) ≡ plain_heads (take result heads.now) ++ without column (plain_heads (drop (result + 1) heads.now)) }
{
    for (i, head) in heads.iter().enumerate() {
        if head.column == column {
            return i;
        }
    }
    heads.len()
}

// The heads behind so many and one more.
fn behind<'a, 'b, T: Copy>(heads: &'b [Head<'a, T>], count: usize) -> &'b [Head<'a, T>]
    ensures { result.now ≡ drop (count + 1) heads.now }
{
    if count < heads.len() {
        &heads[count + 1..]
    } else {
        &[]
    }
}

// Adds the heads but those at the column.
pub(crate) fn add_others<'a, T: Copy>(
    heads: &mut Vec<Head<'a, T>>,
    others: &[Head<'a, T>],
    column: usize,
) -> Result<(), NoMemory>
    ensures { OnOk result (plain_heads heads.new.items ≡ plain_heads heads.old.items ++ without column (plain_heads others.now)) }
{
    let mut rest = others;
    while !rest.is_empty() {
        let count = count_before(rest, column);
        heads.extend_from_slice(&rest[..count])?;
        rest = behind(rest, count);
    }
    Ok(())
}

// Tells whether no head stands at the column.
fn is_free<'a, T: Copy>(heads: &[Head<'a, T>], column: usize) -> bool
    ensures { result ≡ true → without column (plain_heads heads.now) ≡ plain_heads heads.now }
{
    count_before(heads, column) == heads.len()
}

// The heads but those at the column, in a list of their own.
fn others_of<'a, T: Copy>(
    alloc: Global,
    heads: &[Head<'a, T>],
    column: usize,
) -> Result<Heads<'a, T>, NoMemory>
    ensures { IfOk result (λ h. plain_heads (kept_heads h) ≡ without column (plain_heads heads.now)) }
{
    let mut all = Vec::with_capacity(alloc, heads.len())?;
    add_others(&mut all, heads, column)?;
    Heads::of(all)
}

// The heads of the part but those at the column. Where these are the first one, the last one or none, the list is shared.
#[inline(always)]
#[tactic(auto, using(crate::proofs::HeadParts::lefts))]
fn part_without<'a, T: Copy>(
    alloc: Global,
    part: &HeadPart<'a, T>,
    column: usize,
) -> Result<Heads<'a, T>, NoMemory>
    ensures { IfOk result (λ h. plain_heads (kept_heads h) ≡ without column (plain_heads (part_heads part.now))) }
{
    let heads = part.as_slice();
    let before = count_before(heads, column);
    let rest = behind(heads, before);
    if rest.is_empty() {
        return part.some(0, before);
    }
    if before == 0 && is_free(rest, column) {
        return part.some(1, rest.len());
    }
    others_of(alloc, heads, column)
}

// One head, unless it stands at the column.
#[inline(always)]
fn one_without<'a, T: Copy>(one: Head<'a, T>, column: usize) -> Heads<'a, T>
    ensures { plain_heads (kept_heads result) ≡ without column (plain_heads (one.entry ∷ [])) }
{
    if one.column == column {
        Heads::Bare
    } else {
        Heads::One(one)
    }
}

// The heads but those at the column.
#[inline(always)]
pub(crate) fn heads_without<'a, T: Copy>(
    alloc: Global,
    heads: &Heads<'a, T>,
    column: usize,
) -> Result<Heads<'a, T>, NoMemory>
    ensures { IfOk result (λ h. plain_heads (kept_heads h) ≡ without column (plain_heads (kept_heads heads.now))) }
{
    match heads {
        Heads::Bare => Ok(Heads::Bare),
        Heads::One(one) => Ok(one_without(*one, column)),
        Heads::Several(part) => part_without(alloc, part, column),
    }
}
