// The open places of the search.
ghost use Rattle.std.specs.Prelude.{◌≡◌, ◌≤◌, ◌<◌, ◌+◌, ◌^◌, ◌++◌, ◌∷◌, [], take, length, reverse, IsTrue, IfOk, OnOk, IfSome, IfNone};
ghost use Rattle.match_model.specs.Constructors.{belongs};
ghost use Rattle.match_model.specs.Rows.{parts_open};
ghost use Rattle.pat_context.specs.Laws.{HasFewItems};
ghost use Rattle.pat_context.specs.Views.{plain_ctor};
ghost use Rattle.pattern_matrix.specs.Columns.{plain_column, plain_columns};
ghost use Rattle.pattern_matrix.specs.Sparse.{columns_from};
ghost use Rattle.witness_search.specs.Opened.{places_of, numbers_of};

use no_memory::NoMemory;
use pat_context::{Ctor, PatCx};
use pattern_matrix::{Column, open_columns};
use std::alloc::Global;

/// An open place: the number by which rows name it, its type, and whether it is sure to hold a valid value. Open places
/// stand in a list whose last one is looked at first.
#[derive(Clone, Copy)]
pub(crate) struct Opened<T: Copy> {
    pub(crate) number: usize,
    pub(crate) column: Column<T>,
}

// Adds the columns, which stand last part first, to the open places; the last one has the first number.
#[tactic(auto, using(crate::proofs::Plain::last_places))]
fn add_parts<T: Copy>(
    opened: &mut Vec<Opened<T>>,
    parts: Vec<Column<T>>,
    first: usize,
) -> Result<(), NoMemory>
    requires { first + length parts.items < 2 ^ 64 }
    ensures places { OnOk result (places_of opened.new.items ≡ plain_columns (reverse parts.items) ++ places_of opened.old.items) }
    ensures numbers { OnOk result (numbers_of opened.new.items ≡ columns_from first (length parts.items) ++ numbers_of opened.old.items) }
    ensures kept { OnOk result (take (length opened.old.items) opened.new.items ≡ opened.old.items) }
{
    let mut number = first + parts.len();
    for column in parts {
        number -= 1;
        opened.push(Opened { number, column })?;
    }
    Ok(())
}

// Opens the places of the parts of a piece, numbered from the first number on, before all others; gives how many. The
// piece is one of the column's set.
pub(crate) fn open_parts<C: PatCx>(
    alloc: Global,
    cx: &C,
    opened: &mut Vec<Opened<C::Ty>>,
    column: &Column<C::Ty>,
    piece: &Ctor,
    first: usize,
) -> Result<usize, NoMemory>
    requires ty { C.is_type cx.now column.now.ty }
    requires belongs { IsTrue (belongs ((C.context cx.now).set_of column.now.ty) (plain_ctor piece.now)) }
    requires held { HasFewItems (plain_ctor piece.now) }
    requires room { first + 2 ^ 33 < 2 ^ 64 }
    ensures count { IfOk result (λ n. n ≡ (C.context cx.now).arity (plain_ctor piece.now) column.now.ty) }
    ensures few { IfOk result (λ n. n ≤ 2 ^ 33) }
    ensures places { OnOk result (places_of opened.new.items ≡ parts_open (C.context cx.now) (plain_column column.now) (plain_ctor piece.now) ++ places_of opened.old.items) }
    ensures numbers { IfOk result (λ n. numbers_of opened.new.items ≡ columns_from first n ++ numbers_of opened.old.items) }
    ensures kept { OnOk result (take (length opened.old.items) opened.new.items ≡ opened.old.items) }
{
    let mut parts = Vec::new(alloc);
    let count = open_columns(cx, &mut parts, column, piece)?;
    parts.reverse();
    add_parts(opened, parts, first)?;
    Ok(count)
}

// Takes off the place that is looked at first, where there is one.
#[tactic(auto, using(crate::proofs::Plain::last_places))]
pub(crate) fn take_first<T: Copy>(opened: &mut Vec<Opened<T>>) -> Option<Opened<T>>
    ensures none { IfNone result (places_of opened.old.items ≡ []) }
    ensures same { IfNone result (opened.new.items ≡ opened.old.items) }
    ensures places { IfSome result (λ o. places_of opened.old.items ≡ plain_column o.column ∷ places_of opened.new.items) }
    ensures numbers { IfSome result (λ o. numbers_of opened.old.items ≡ o.number ∷ numbers_of opened.new.items) }
    ensures items { IfSome result (λ o. opened.old.items ≡ opened.new.items ++ o ∷ []) }
{
    opened.pop()
}

// Puts a place back, to be looked at first.
pub(crate) fn put_back<T: Copy>(
    opened: &mut Vec<Opened<T>>,
    place: Opened<T>,
) -> Result<(), NoMemory>
    ensures { OnOk result (opened.new.items ≡ opened.old.items ++ place ∷ []) }
{
    opened.push(place)?;
    Ok(())
}
