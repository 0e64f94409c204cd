// The heads of a row: one alone stands in the row itself, several in a list that rows share.
ghost use Rattle.std.specs.Prelude.{◌≡◌, ◌≤◌, ◌+◌, ◌==◌, length, take, drop, IfOk};
ghost use Rattle.pattern_matrix.specs.HeadLists.{kept_heads, part_heads};

use crate::Head;
use no_memory::NoMemory;
use std::alloc::Global;
use std::rc::RcSlice;
use std::slice;

/// The heads of a row, in order: one alone stands in the row itself, several are part of a list that other rows may have
/// parts of too. So a row that keeps its heads, or all but the first or the last, takes no memory for them.
#[derive(Drop)]
pub enum Heads<'a, T: Copy> {
    /// No head.
    Bare,
    /// One head.
    One(Head<'a, T>),
    /// As many heads as the part has.
    Several(HeadPart<'a, T>),
}

/// Part of a list of heads. It has fewer than 2^32 heads, and fewer stand before it.
#[derive(Drop)]
pub struct HeadPart<'a, T: Copy> {
    list: RcSlice<Head<'a, T>, Global>,
    // How many heads of the list stand before the part.
    first: u32,
    // How many heads the part has.
    count: u32,
}

// The number in half the room. From 2^32 on it is want of memory: as many heads or constructors take 64 gigabytes and more.
pub(crate) fn short(number: usize) -> Result<u32, NoMemory>
    ensures { IfOk result (λ n. n ≡ number) }
{
    if number <= 4294967295 {
        Ok(number as u32)
    } else {
        Err(NoMemory)
    }
}

// So many items, from this one on; fewer where there are not so many.
fn part_of<X>(items: &[X], first: usize, count: usize) -> &[X]
    ensures { result.now ≡ take count (drop first items.now) }
{
    if first <= items.len() {
        let rest = &items[first..];
        if count <= rest.len() {
            &rest[..count]
        } else {
            rest
        }
    } else {
        &[]
    }
}

impl<'a, T: Copy> HeadPart<'a, T> {
    // The heads, in order.
    pub(crate) fn as_slice(&self) -> &[Head<'a, T>]
        ensures { result.now ≡ part_heads self.now }
    {
        part_of(
            self.list.as_slice(),
            self.first as usize,
            self.count as usize,
        )
    }

    // So many heads of the part, from this one on. They are shared.
    #[inline(always)]
    #[tactic(auto, using(crate::proofs::HeadParts::parts))]
    fn narrowed(&self, first: usize, count: usize) -> Result<HeadPart<'a, T>, NoMemory>
        requires within { first + count ≤ length (part_heads self.now) }
        ensures { IfOk result (λ p. part_heads p ≡ take count (drop first (part_heads self.now))) }
    {
        let first = short(self.first as usize + first)?;
        let count = short(count)?;
        let list = self.list.clone()?;
        Ok(HeadPart { list, first, count })
    }

    // The same, where one alone stands in the row.
    #[inline(always)]
    pub(crate) fn some(&self, first: usize, count: usize) -> Result<Heads<'a, T>, NoMemory>
        requires within { first + count ≤ length (part_heads self.now) }
        ensures { IfOk result (λ h. kept_heads h ≡ take count (drop first (part_heads self.now))) }
    {
        if count == 1 {
            let heads = self.as_slice();
            Ok(Heads::One(heads[first]))
        } else {
            let part = self.narrowed(first, count)?;
            Ok(Heads::Several(part))
        }
    }
}

impl<'a, T: Copy> Heads<'a, T> {
    // The heads of the list.
    pub(crate) fn of(all: Vec<Head<'a, T>>) -> Result<Self, NoMemory>
        ensures { IfOk result (λ h. kept_heads h ≡ all.entry.items) }
    {
        if all.is_empty() {
            return Ok(Heads::Bare);
        }
        if all.len() == 1 {
            return Ok(Heads::One(all[0]));
        }
        let count = short(all.len())?;
        let list = RcSlice::from_vec(all)?;
        Ok(Heads::Several(HeadPart {
            list,
            first: 0,
            count,
        }))
    }

    /// The heads, in order.
    pub fn as_slice(&self) -> &[Head<'a, T>]
        ensures { result.now ≡ kept_heads self.now }
    {
        match self {
            Heads::Bare => &[],
            Heads::One(one) => slice::from_ref(one),
            Heads::Several(part) => part.as_slice(),
        }
    }

    /// The same heads, in the same order. Several of them are shared, not copied. The only error is want of memory.
    pub fn shared(&self) -> Result<Self, NoMemory>
        ensures { IfOk result (λ h. kept_heads h ≡ kept_heads self.now) }
    {
        match self {
            Heads::Bare => Ok(Heads::Bare),
            Heads::One(one) => Ok(Heads::One(*one)),
            Heads::Several(part) => {
                let list = part.list.clone()?;
                Ok(Heads::Several(HeadPart {
                    list,
                    first: part.first,
                    count: part.count,
                }))
            }
        }
    }

    /// How many heads these are.
    pub fn len(&self) -> usize
        ensures { result ≡ length (kept_heads self.now) }
    {
        self.as_slice().len()
    }

    /// Tells whether there is none.
    pub fn is_empty(&self) -> bool
        ensures { result ≡ (length (kept_heads self.now) == 0) }
    {
        self.as_slice().is_empty()
    }
}
