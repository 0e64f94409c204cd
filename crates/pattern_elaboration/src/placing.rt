//! Forms of patterns, where those of leaves that are alike are placed once.
ghost use Rattle.std.specs.Prelude.{◌≡◌, ◌<◌, true, [], IfOk};
ghost use Rattle.pat_context.specs.Views.{plain_ctor};
ghost use Rattle.pattern_elaboration.specs.Placed.{IsFormOver};

use no_memory::NoMemory;
use pat_context::Ctor;
use pattern_arena::{DePat, Form, Placer};
use std::cell::RefCell;
use std::hash::{FoldHasher, Hash, Hasher};
use type_table::TyId;

/// A form of patterns at the types of a table.
pub type TableForm<'a> = Form<'a, TyId, DePat<'a, TyId>>;

// So many forms are remembered.
const REMEMBERED: usize = 32;

/// Places patterns of one match. A leaf without names that is like one of the last leaves shares its form, and then takes
/// no more than its number, its offset and a reference.
#[derive(Drop)]
pub struct FormPlacer<'a> {
    pub arena: Placer<'a>,
    // Forms of leaves that were placed of late, each where its constructor and its type say. They are no more than hints:
    // what stands here is compared.
    recent: RefCell<[Option<&'a TableForm<'a>>; REMEMBERED]>,
}

impl<'a> FormPlacer<'a> {
    /// A placer for the arena. It takes no memory.
    pub fn new(arena: Placer<'a>) -> FormPlacer<'a>
        ensures { result.arena ≡ arena.entry }
    {
        FormPlacer {
            arena,
            recent: RefCell::new([None; REMEMBERED]),
        }
    }

    /// The form of a pattern without names over others, or over none. The only error is want of memory.
    pub fn place_over(
        &self,
        ctor: Ctor<'a>,
        ty: TyId,
        subs: &'a [DePat<'a, TyId>],
    ) -> Result<&'a TableForm<'a>, NoMemory>
        ensures { IfOk result (λ form. IsFormOver (plain_ctor ctor.entry) ty subs.now form.now) }
    {
        if subs.is_empty() {
            return self.place_leaf(ctor, ty);
        }
        let form = self.arena.place_form(Form {
            ctor,
            ty,
            subs,
            binds: &[],
        })?;
        Ok(form)
    }

    // The form of a leaf without names: one that is remembered, or a new one.
    fn place_leaf(&self, ctor: Ctor<'a>, ty: TyId) -> Result<&'a TableForm<'a>, NoMemory>
        ensures { IfOk result (λ form. IsFormOver (plain_ctor ctor.entry) ty [] form.now) }
    {
        let place = place_of(&ctor, ty);
        if let Some(form) = self.remembered(place) {
            if is_leaf_like(form, &ctor, ty) {
                return Ok(form);
            }
        }
        let form = self.arena.place_form(Form {
            ctor,
            ty,
            subs: &[],
            binds: &[],
        })?;
        self.remember(place, form);
        Ok(form)
    }

    // The form that is remembered at the place. The list is held for no longer than that; that it is free is not proved, and
    // where it was not, a form would only be placed anew.
    fn remembered(&self, place: usize) -> Option<&'a TableForm<'a>>
        requires { place < REMEMBERED }
    {
        match self.recent.try_borrow() {
            Ok(recent) => recent[place],
            Err(_held) => None,
        }
    }

    // Remembers the form at the place.
    fn remember(&self, place: usize, form: &'a TableForm<'a>)
        requires { place < REMEMBERED }
    {
        if let Ok(mut recent) = self.recent.try_borrow_mut() {
            recent[place] = Some(form);
        }
    }
}

// The place at which forms with the constructor and the type are remembered. Of one type, constructors whose numbers stand
// next to one another have places of their own.
fn place_of(ctor: &Ctor<'_>, ty: TyId) -> usize
    ensures { result < REMEMBERED }
{
    let mut hasher = FoldHasher::default();
    ty.hash(&mut hasher);
    hasher.finish().wrapping_add(ctor_number(ctor)) as usize % REMEMBERED
}

// A number of the constructor, by which it is remembered.
fn ctor_number(ctor: &Ctor<'_>) -> u64 {
    match ctor {
        Ctor::Variant(number) => *number as u64,
        Ctor::Flag(flag) => *flag as u64,
        Ctor::Numbers(range) => range.low_size.lower,
        Ctor::Text(text) => text.len() as u64,
        Ctor::Wild => REMEMBERED as u64 / 2,
        _ => 0,
    }
}

// Whether the form has this constructor and type, nothing below and no names.
fn is_leaf_like<'a>(form: &TableForm<'a>, ctor: &Ctor<'a>, ty: TyId) -> bool
    ensures { result ≡ true → IsFormOver (plain_ctor ctor.now) ty [] form.now }
{
    is_bare(form) && form.ty == ty && form.ctor == *ctor
}

// Whether the form has nothing below and no names.
fn is_bare(form: &TableForm<'_>) -> bool
    ensures subs { result ≡ true → form.now.subs.now ≡ [] }
    ensures binds { result ≡ true → form.now.binds.now ≡ [] }
{
    form.subs.is_empty() && form.binds.is_empty()
}
