// Patterns of the toy context, for tests.
ghost use Rattle.std.specs.Prelude.{◌≡◌, [], map, IfOk};
ghost use Rattle.match_model.specs.ArenaPatterns.{de_pat, de_pats_of, no_de_pats};
ghost use Rattle.pat_context.specs.Views.{plain_ctor};
ghost use Rattle.pat_context.specs.declared.toy.ToyTy.TheVariants.{Flag as FlagTy};
ghost use Rattle.pattern_arena.specs.Examples.{flag_arm as plain_flag_arm};
ghost use Rattle.pattern_arena.specs.Trees.{placed_subs, plain_arm, plain_bound, tree};

use no_memory::NoMemory;
use pat_context::Ctor;
use pat_context::toy::ToyTy;
use pattern_arena::{Bound, CheckedArm, DePat, Form, Placer};

// The pattern of these parts. Its offset is its uid.
pub(crate) fn pattern<'a>(
    placer: &Placer<'a>,
    ctor: Ctor<'a>,
    ty: ToyTy,
    uid: u64,
    subs: &'a [DePat<'a, ToyTy>],
    binds: &'a [Bound<'a>],
) -> Result<DePat<'a, ToyTy>, NoMemory>
    ensures tree { IfOk result (λ p. tree p
        ≡ de_pat (plain_ctor ctor.entry) ty uid uid (de_pats_of (map tree subs.now)) (map plain_bound binds.now)) }
    ensures subs { IfOk result (λ p. placed_subs p ≡ subs.now) }
{
    let form = placer.place_form(Form {
        ctor,
        ty,
        subs,
        binds,
    })?;
    Ok(DePat { form, uid, at: uid })
}

// A pattern of a flag.
pub(crate) fn flag<'a>(
    placer: &Placer<'a>,
    ctor: Ctor<'a>,
    uid: u64,
) -> Result<DePat<'a, ToyTy>, NoMemory>
    ensures { IfOk result (λ p. tree p ≡ de_pat (plain_ctor ctor.entry) FlagTy uid uid no_de_pats []) }
{
    let made = pattern(placer, ctor, ToyTy::Flag, uid, &[], &[])?;
    Ok(made)
}

// The arm of a flag, without a guard.
pub(crate) fn flag_arm<'a>(
    placer: &Placer<'a>,
    value: bool,
    uid: u64,
) -> Result<CheckedArm<'a, ToyTy>, NoMemory>
    ensures { IfOk result (λ a. plain_arm a ≡ plain_flag_arm value uid) }
{
    let pat = flag(placer, Ctor::Flag(value), uid)?;
    Ok(CheckedArm {
        pat,
        guarded: false,
    })
}
