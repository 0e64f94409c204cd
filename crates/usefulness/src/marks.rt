// What was found to be reached.
ghost use Rattle.std.specs.Prelude.{◌≡◌, ◌<◌, ◌&&◌, ◌||◌, length, false, nat_eq, IfOk, OnOk};
ghost use Rattle.std.specs.List.{list_any};
ghost use Rattle.pattern_matrix.specs.Counting.{Question};
ghost use Rattle.usefulness.specs.Marking.{is_asked, is_marked, is_answer};

use indexmap::IndexSet;
use no_memory::NoMemory;
use pattern_matrix::Marked;
use std::alloc::Global;

/// An alternative of an or-pattern: the number of its arm, from 0, and its uid.
#[derive(Clone, Copy, Debug, PartialEq, Eq, Hash)]
pub struct Alternative {
    pub arm: u32,
    pub uid: u64,
}

/// Which arms of a match and which of their alternatives are reached. Behind the arms stands one for the values that no
/// arm covers.
#[derive(Debug, Drop)]
pub struct Marks {
    /// For each arm, and for the row behind all, whether some value comes to it.
    pub arms: Vec<bool>,
    /// The alternatives through which some value comes to their arm.
    pub alternatives: IndexSet<Alternative>,
}

// Adds the alternative to those that are marked.
fn add(alternatives: &mut IndexSet<Alternative>, one: Alternative) -> Result<(), NoMemory>
    ensures { OnOk result ((q : Question) → list_any (is_asked q) alternatives.new.keys ≡ (list_any (is_asked q) alternatives.old.keys || is_asked q one)) }
{
    alternatives.insert(one)?;
    Ok(())
}

// Marks these alternatives of the arm.
fn add_all(
    alternatives: &mut IndexSet<Alternative>,
    arm: u32,
    chosen: &[u64],
) -> Result<(), NoMemory>
    ensures { OnOk result ((q : Question) → list_any (is_asked q) alternatives.new.keys
        ≡ (list_any (is_asked q) alternatives.old.keys || (nat_eq q.arm arm && list_any (nat_eq q.id) chosen.now))) }
{
    for uid in chosen {
        add(alternatives, Alternative { arm, uid: *uid })?;
    }
    Ok(())
}

impl Marks {
    // No mark, for so many arms and the row behind them.
    pub(crate) fn none(alloc: Global, arms: usize) -> Result<Marks, NoMemory>
        ensures arms { IfOk result (λ m. length m.arms.items ≡ arms) }
        ensures none { IfOk result (λ m. (q : Question) → is_marked m q ≡ false) }
    {
        let arms = vec![in alloc; false; arms]?;
        Ok(Marks {
            arms,
            alternatives: IndexSet::new(alloc),
        })
    }

    // Marks the arm and these of its alternatives.
    pub(crate) fn mark(&mut self, arm: u32, chosen: &[u64]) -> Result<(), NoMemory>
        requires { arm < length self.old.arms.items }
        ensures arms { length self.new.arms.items ≡ length self.old.arms.items }
        ensures marked { OnOk result ((q : Question) → is_marked self.new q ≡ (is_marked self.old q || is_answer arm chosen.now q)) }
    {
        self.arms[arm as usize] = true;
        add_all(&mut self.alternatives, arm, chosen)?;
        Ok(())
    }
}

impl Marked for Marks {
    ghost is_marked = { is_marked };

    fn has_arm(&self, arm: u32) -> bool {
        let at = arm as usize;
        at < self.arms.len() && self.arms[at]
    }

    fn has_alternative(&self, arm: u32, uid: u64) -> bool {
        self.alternatives.contains(&Alternative { arm, uid })
    }
}
