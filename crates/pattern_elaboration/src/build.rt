//! Nodes of patterns, each with a number of its own.
ghost use Rattle.std.specs.Prelude.{◌≡◌, ◌+◌, ◌≤◌, ℕ, [], map, IfOk};
ghost use Rattle.match_model.specs.ArenaPatterns.{de_pat, no_de_pats, de_pats_of};
ghost use Rattle.match_model.specs.Types.{MType};
ghost use Rattle.decl_syntax.specs.Patterns.{pattern_view};
ghost use Rattle.pat_context.specs.Views.{plain_ctor};
ghost use Rattle.pattern_arena.specs.Trees.{plain_bound, tree};
ghost use Rattle.pattern_rules.specs.Elaborated.{is_wide_ctor, standing_at};
ghost use Rattle.pattern_rules.specs.Nodes.{offset_of};
ghost use Rattle.pattern_rules.specs.Shown.{settled, shown as shown_of};
ghost use Rattle.type_table.specs.declared.table.TyId.{TyId as AnyType};
ghost use Rattle.type_table.specs.declared.table.TypeTable.{TypeTable as AnyTable};
ghost use Rattle.type_table.specs.Tables.{IsOf};
ghost use Rattle.pattern_elaboration.specs.Numbered.{IsMade, AreMade};
ghost use Rattle.pattern_elaboration.specs.Placed.{bound_on, standing_tree};

use crate::placing::{FormPlacer, TableForm};
use decl_syntax::Pat;
use no_memory::NoMemory;
use pat_context::Ctor;
use pattern_arena::{Bound, DePat, Form};
use std::alloc::Global;
use type_table::TyId;

/// The next number. There are fewer patterns in memory than numbers.
pub fn fresh(next: &mut u64) -> Result<u64, NoMemory>
    ensures { IfOk result (λ uid. (uid ≡ next.old) × (next.new ≡ next.old + 1)) }
{
    let uid = *next;
    if uid == u64::MAX {
        return Err(NoMemory);
    }
    *next = uid + 1;
    Ok(uid)
}

// The pattern of this form, with the number and the offset.
fn of_form<'a>(form: &'a TableForm<'a>, uid: u64, at: u64) -> DePat<'a, TyId>
    ensures { tree result ≡ de_pat (plain_ctor form.now.ctor) form.now.ty uid at
        (de_pats_of (map tree form.now.subs.now)) (map plain_bound form.now.binds.now) }
{
    DePat { form, uid, at }
}

/// The pattern of these parts. The only error is want of memory.
pub fn make<'a>(
    placer: &FormPlacer<'a>,
    ctor: Ctor<'a>,
    ty: TyId,
    uid: u64,
    at: u64,
    subs: &'a [DePat<'a, TyId>],
    binds: &'a [Bound<'a>],
) -> Result<DePat<'a, TyId>, NoMemory>
    ensures { IfOk result (λ p. tree p
        ≡ de_pat (plain_ctor ctor.entry) ty uid at (de_pats_of (map tree subs.now)) (map plain_bound binds.now)) }
{
    let form = placer.arena.place_form(Form {
        ctor,
        ty,
        subs,
        binds,
    })?;
    Ok(of_form(form, uid, at))
}

/// A pattern with nothing below. The only error is want of memory.
pub fn leaf<'a>(
    placer: &FormPlacer<'a>,
    next: &mut u64,
    ctor: Ctor<'a>,
    ty: TyId,
    at: u64,
) -> Result<DePat<'a, TyId>, NoMemory>
    ensures tree { IfOk result (λ p. tree p ≡ de_pat (plain_ctor ctor.entry) ty next.old at no_de_pats []) }
    ensures next { IfOk result (λ p. next.new ≡ next.old + 1) }
    ensures made { (any : AnyTable) → IsOf any ty
        → IfOk result (λ p. IsMade (IsOf any) next.old next.new (tree p)) }
{
    over_placed(placer, next, ctor, ty, at, &[])
}

/// A pattern over others, one for each part.
pub fn over<'a>(
    placer: &FormPlacer<'a>,
    next: &mut u64,
    ctor: Ctor<'a>,
    ty: TyId,
    at: u64,
    subs: &[DePat<'a, TyId>],
) -> Result<DePat<'a, TyId>, NoMemory>
    ensures tree { IfOk result (λ p. tree p
        ≡ de_pat (plain_ctor ctor.entry) ty next.old at (de_pats_of (map tree subs.now)) []) }
    ensures next { IfOk result (λ p. next.new ≡ next.old + 1) }
    ensures made { (any : AnyTable) (from : ℕ) → IsOf any ty
        → AreMade (IsOf any) from next.old (map tree subs.now)
        → IfOk result (λ p. IsMade (IsOf any) from next.new (tree p)) }
{
    let subs = placer.arena.place_subs(subs)?;
    over_placed(placer, next, ctor, ty, at, subs)
}

/// The same, where the others stand in the arena already.
pub fn over_placed<'a>(
    placer: &FormPlacer<'a>,
    next: &mut u64,
    ctor: Ctor<'a>,
    ty: TyId,
    at: u64,
    subs: &'a [DePat<'a, TyId>],
) -> Result<DePat<'a, TyId>, NoMemory>
    ensures tree { IfOk result (λ p. tree p
        ≡ de_pat (plain_ctor ctor.entry) ty next.old at (de_pats_of (map tree subs.now)) []) }
    ensures next { IfOk result (λ p. next.new ≡ next.old + 1) }
    ensures made { (any : AnyTable) (from : ℕ) → IsOf any ty
        → AreMade (IsOf any) from next.old (map tree subs.now)
        → IfOk result (λ p. IsMade (IsOf any) from next.new (tree p)) }
{
    let uid = fresh(next)?;
    let form = placer.place_over(ctor, ty, subs)?;
    Ok(of_form(form, uid, at))
}

/// The pattern with one more name, before those that it has.
pub fn with_name<'a>(
    alloc: Global,
    placer: &FormPlacer<'a>,
    bound: Bound<'a>,
    pattern: DePat<'a, TyId>,
) -> Result<DePat<'a, TyId>, NoMemory>
    ensures tree { IfOk result (λ p. tree p ≡ bound_on (plain_bound bound.entry) (tree pattern.entry)) }
    ensures made { (any : AnyTable) (from to : ℕ) → IsMade (IsOf any) from to (tree pattern.entry)
        → IfOk result (λ p. IsMade (IsOf any) from to (tree p)) }
{
    let mut all = Vec::new(alloc);
    all.push(bound)?;
    all.extend_from_slice(pattern.form.binds)?;
    let binds = placer.arena.place_binds(&all)?;
    make(
        placer,
        pattern.form.ctor,
        pattern.form.ty,
        pattern.uid,
        pattern.at,
        pattern.form.subs,
        binds,
    )
}

/// Whether the constructor is a range of more than one number.
pub fn is_wide(ctor: &Ctor<'_>) -> bool
    ensures { result ≡ is_wide_ctor (plain_ctor ctor.now) }
{
    match ctor {
        Ctor::Numbers(range) => !range.is_single(),
        _ => false,
    }
}

// The pattern that a written one becomes, as an alternative or as an arm's: it stands where the written one begins,
// parentheses around it included.
pub(crate) fn standing_as<'a>(
    placer: &FormPlacer<'a>,
    next: &mut u64,
    written: &Pat,
    pattern: DePat<'a, TyId>,
) -> Result<DePat<'a, TyId>, NoMemory>
    ensures stands { (type : AnyType → MType) → IfOk result (λ p. shown_of type (tree p)
        ≡ standing_at (offset_of (pattern_view written.now)) (settled type 0 (tree pattern.entry))) }
    ensures made { (any : AnyTable) (from : ℕ) → IsMade (IsOf any) from next.old (tree pattern.entry)
        → IfOk result (λ p. IsMade (IsOf any) from next.new (tree p)) }
{
    standing(placer, next, written.from, pattern)
}

// The pattern at the offset; a range that stands elsewhere keeps its own below.
fn standing<'a>(
    placer: &FormPlacer<'a>,
    next: &mut u64,
    at: u64,
    pattern: DePat<'a, TyId>,
) -> Result<DePat<'a, TyId>, NoMemory>
    ensures tree { IfOk result (λ p. tree p ≡ standing_tree next.old at (tree pattern.entry)) }
    ensures next { IfOk result (λ p. next.old ≤ next.new) }
    ensures made { (any : AnyTable) (from : ℕ) → IsMade (IsOf any) from next.old (tree pattern.entry)
        → IfOk result (λ p. IsMade (IsOf any) from next.new (tree p)) }
{
    if is_wide(&pattern.form.ctor) && at != pattern.at {
        return over(placer, next, Ctor::Or, pattern.form.ty, at, &[pattern]);
    }
    Ok(of_form(pattern.form, pattern.uid, at))
}
