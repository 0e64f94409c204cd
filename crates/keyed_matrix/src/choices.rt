// The choices among the alternatives of a pattern.
ghost use Rattle.std.specs.Prelude.{◌≡◌, ◌++◌, ◌∷◌, [], map, cond, IfOk, OnOk};
ghost use Rattle.match_model.specs.Rows.{is_or_ctor, choices_of};
ghost use Rattle.pat_context.specs.Views.{plain_ctor};
ghost use Rattle.pattern_arena.specs.Trees.{tree, plain_bound};
ghost use Rattle.keyed_matrix.specs.Choosing.{plain_choices, choices_after};

use no_memory::NoMemory;
use pat_context::Ctor;
use pattern_arena::{Bound, DePat};
use smallvec::SmallVec;
use std::alloc::Global;

// A pattern that stands in place of another when or-patterns are taken apart.
#[derive(Drop)]
pub(crate) struct PatChoice<'a, T: Copy> {
    // The pattern, which is no or-pattern.
    pub(crate) pat: &'a DePat<'a, T>,
    // The uids of the alternatives that were chosen on the way to it.
    pub(crate) chosen: SmallVec<u64, 2>,
    // The names that were bound around it.
    pub(crate) binds: Vec<Bound<'a>>,
}

// Tells whether the constructor is an or-pattern.
pub(crate) fn is_or(ctor: &Ctor) -> bool
    ensures { result ≡ is_or_ctor (plain_ctor ctor.now) }
{
    match ctor {
        Ctor::Or => true,
        _ => false,
    }
}

// The chosen alternatives, and one more where there are several.
fn choosing(
    alloc: Global,
    chosen: &[u64],
    uid: u64,
    several: bool,
) -> Result<SmallVec<u64, 2>, NoMemory>
    ensures { IfOk result (λ c. c.items ≡ chosen.now ++ cond several (uid ∷ []) []) }
{
    let room = chosen.len().saturating_add(1);
    let mut all = SmallVec::with_capacity(alloc, room)?;
    all.extend_from_slice(chosen)?;
    if several {
        all.push(uid)?;
    }
    Ok(all)
}

// The names of both lists.
fn both_binds<'a>(
    alloc: Global,
    binds: &[Bound<'a>],
    more: &[Bound<'a>],
) -> Result<Vec<Bound<'a>>, NoMemory>
    ensures { IfOk result (λ b. b.items ≡ binds.now ++ more.now) }
{
    let mut all = Vec::from_slice(alloc, binds)?;
    for bound in more {
        all.push(*bound)?;
    }
    Ok(all)
}

// Adds the choices of the pattern, before which these alternatives were chosen and these names bound.
#[tactic(auto, using(crate::proofs::ChoiceByChoice::choices))]
fn add_choices<'a, T: Copy>(
    alloc: Global,
    all: &mut Vec<PatChoice<'a, T>>,
    p: &'a DePat<'a, T>,
    chosen: SmallVec<u64, 2>,
    binds: &[Bound<'a>],
) -> Result<(), NoMemory>
    ensures { OnOk result (plain_choices all.new.items ≡ plain_choices all.old.items
        ++ choices_after chosen.items (map plain_bound binds.now) (tree p.entry.now)) }
{
    if is_or(&p.form.ctor) {
        let several = p.form.subs.len() > 1;
        let around = both_binds(alloc, binds, p.form.binds)?;
        for q in p.form.subs {
            let more = choosing(alloc, chosen.as_slice(), q.uid, several)?;
            add_choices(alloc, all, q, more, &around)?;
        }
        Ok(())
    } else {
        add_choice(alloc, all, p, chosen, binds)
    }
}

// Adds the pattern itself.
fn add_choice<'a, T: Copy>(
    alloc: Global,
    all: &mut Vec<PatChoice<'a, T>>,
    p: &'a DePat<'a, T>,
    chosen: SmallVec<u64, 2>,
    binds: &[Bound<'a>],
) -> Result<(), NoMemory>
    ensures { OnOk result (plain_choices all.new.items ≡ plain_choices all.old.items
        ++ (record { pat = tree p.entry.now; chosen = chosen.items; binds = map plain_bound binds.now }) ∷ []) }
{
    let binds = Vec::from_slice(alloc, binds)?;
    all.push(PatChoice {
        pat: p,
        chosen,
        binds,
    })?;
    Ok(())
}

// What stands in place of the pattern when or-patterns are taken apart, in order.
#[tactic(auto, using(crate::proofs::ChoiceByChoice::choices_alone))]
pub(crate) fn choices_of<'a, T: Copy>(
    alloc: Global,
    p: &'a DePat<'a, T>,
) -> Result<Vec<PatChoice<'a, T>>, NoMemory>
    ensures { IfOk result (λ v. plain_choices v.items ≡ choices_of (tree p.entry.now)) }
{
    let mut all = Vec::new(alloc);
    add_choices(alloc, &mut all, p, SmallVec::new(alloc), &[])?;
    Ok(all)
}
