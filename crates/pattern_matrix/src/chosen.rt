// The alternatives that were chosen on the way to a row.
ghost use Rattle.std.specs.Prelude.{◌≡◌, ◌++◌, ◌∷◌, ◌==◌, [], length, IfOk};
ghost use Rattle.pattern_matrix.specs.ChosenLists.{kept_chosen};

use no_memory::NoMemory;
use std::alloc::Global;
use std::rc::RcSlice;
use std::slice;

/// The uids of the alternatives that were chosen on the way to a row, in order. Mostly there is none. Several stand in a
/// list that is shared, so that a copy takes no memory.
#[derive(Drop)]
pub enum Chosen {
    /// No alternative.
    Nothing,
    /// One alternative.
    One(u64),
    /// As many alternatives as the list has.
    Several(RcSlice<u64, Global>),
}

// Both lists, one behind the other.
fn both(alloc: Global, front: &[u64], back: &[u64]) -> Result<Vec<u64>, NoMemory>
    ensures { IfOk result (λ v. v.items ≡ front.now ++ back.now) }
{
    let mut all = Vec::with_capacity(alloc, front.len().saturating_add(back.len()))?;
    all.extend_from_slice(front)?;
    all.extend_from_slice(back)?;
    Ok(all)
}

// The list, shared by its copies.
fn shared(all: Vec<u64>) -> Result<Chosen, NoMemory>
    ensures { IfOk result (λ c. kept_chosen c ≡ all.items) }
{
    let list = RcSlice::from_vec(all)?;
    Ok(Chosen::Several(list))
}

impl Chosen {
    /// The uids, in order.
    pub fn as_slice(&self) -> &[u64]
        ensures { result.now ≡ kept_chosen self.now }
    {
        match self {
            Chosen::Nothing => &[],
            Chosen::One(uid) => slice::from_ref(uid),
            Chosen::Several(list) => list.as_slice(),
        }
    }

    /// How many alternatives these are.
    pub fn len(&self) -> usize
        ensures { result ≡ length (kept_chosen self.now) }
    {
        self.as_slice().len()
    }

    /// Tells whether nothing was chosen.
    pub fn is_empty(&self) -> bool
        ensures { result ≡ (length (kept_chosen self.now) == 0) }
    {
        self.as_slice().is_empty()
    }

    // The same alternatives. A list is shared with the copy.
    #[inline(always)]
    pub(crate) fn copied(&self) -> Result<Chosen, NoMemory>
        ensures { IfOk result (λ c. kept_chosen c ≡ kept_chosen self.now) }
    {
        match self {
            Chosen::Nothing => Ok(Chosen::Nothing),
            Chosen::One(uid) => Ok(Chosen::One(*uid)),
            Chosen::Several(list) => {
                let list = list.clone()?;
                Ok(Chosen::Several(list))
            }
        }
    }

    // These alternatives, and one more.
    pub(crate) fn and(&self, alloc: Global, uid: u64) -> Result<Chosen, NoMemory>
        ensures { IfOk result (λ c. kept_chosen c ≡ kept_chosen self.now ++ uid ∷ []) }
    {
        match self {
            Chosen::Nothing => Ok(Chosen::One(uid)),
            _ => {
                let all = both(alloc, self.as_slice(), &[uid])?;
                shared(all)
            }
        }
    }

    // These alternatives, and the others behind them.
    #[inline(always)]
    pub(crate) fn and_all(&self, alloc: Global, more: &Chosen) -> Result<Chosen, NoMemory>
        ensures { IfOk result (λ c. kept_chosen c ≡ kept_chosen self.now ++ kept_chosen more.now) }
    {
        if self.is_empty() {
            more.copied()
        } else if more.is_empty() {
            self.copied()
        } else {
            let all = both(alloc, self.as_slice(), more.as_slice())?;
            shared(all)
        }
    }
}
