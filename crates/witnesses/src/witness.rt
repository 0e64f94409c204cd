// Witnesses.
ghost use Rattle.std.specs.Prelude.{◌≡◌, ◌∷◌, ◌+◌, ◌<◌, ◌≤◌, true, map, take, drop, replicate, length, IfOk};
ghost use Rattle.match_model.specs.Witness.{AnyOf, NodeOf, witnesses_of};
ghost use Rattle.slice_split.specs.Shapes.{plain_shape};
ghost use Rattle.pat_context.specs.Views.{plain_ctor};
ghost use Rattle.witnesses.specs.Views.{plain_witness, plain_strings, plain_names, tops};
ghost use Rattle.witnesses.specs.Rooms.{row_room, room_for, parts_of_witness, filled};
ghost use Rattle.witnesses.specs.Points.{begins_with_point, behind_points, put_behind};
ghost use Rattle.witnesses.specs.declared.witness.Witness.{size-Witness};

use no_memory::NoMemory;
use pat_context::Ctor;
use range_split::Range;
use slice_split::Shape;
use std::alloc::Global;

/// What values that no arm takes may look like. It is as deep as the patterns of its match: 64 levels at most in a
/// source file, each behind sixty references at most. Copying and dropping one go down level by level, and through
/// references that follow one another in loops.
#[derive(Debug)]
pub enum Witness {
    /// Any value.
    Any,
    /// The one flag.
    Flag(bool),
    /// The numbers of the range.
    Span(Range),
    /// The one text.
    Text(String),
    /// Every text but these.
    Else(Vec<String>),
    /// A tuple or struct, which has the variant 0, or a variant by its number from 0, with a witness for each part.
    Node {
        variant: u32,
        parts: Vec<Witness>,
    },
    /// A reference, with a witness for what it points to.
    Point(Box<Witness>),
    /// A row by its first and last items. With `longer` any more may stand between them; without it `back` is empty.
    Row {
        front: Vec<Witness>,
        longer: bool,
        back: Vec<Witness>,
    },
    /// A variant that is not declared yet.
    Later,
}

impl Drop for Witness {
    // A loop over references, so that many of them take no stack.
    fn drop(mut self) {
        loop {
            match self {
                Witness::Point(inner) => self = Box::into_inner(inner),
                Witness::Node {
                    variant: _,
                    parts: _,
                } => return,
                Witness::Row {
                    front: _,
                    longer: _,
                    back: _,
                } => return,
                Witness::Text(_) => return,
                Witness::Else(_) => return,
                Witness::Any => return,
                Witness::Flag(_) => return,
                Witness::Span(_) => return,
                Witness::Later => return,
            }
        }
    }
}

// The same texts again.
fn copy_strings(alloc: Global, texts: &[String]) -> Result<Vec<String>, NoMemory>
    ensures { IfOk result (λ v. plain_strings v.items ≡ plain_strings texts.now) }
{
    let mut all = Vec::with_capacity(alloc, texts.len())?;
    for text in texts {
        let copy = String::from_str(alloc, text.as_str())?;
        all.push(copy)?;
    }
    Ok(all)
}

// The texts, owned.
fn own_texts(alloc: Global, texts: &[&str]) -> Result<Vec<String>, NoMemory>
    ensures { IfOk result (λ v. plain_strings v.items ≡ plain_names texts.now) }
{
    let mut all = Vec::with_capacity(alloc, texts.len())?;
    for text in texts {
        let copy = String::from_str(alloc, text)?;
        all.push(copy)?;
    }
    Ok(all)
}

// What stands behind the references that the witness begins with.
fn behind_points(w: &Witness) -> &Witness
    ensures behind { plain_witness result.now ≡ behind_points (plain_witness w.now) }
    ensures size { size-Witness result.now ≤ size-Witness w.now }
{
    let mut here = w;
    while let Witness::Point(inner) = here {
        here = inner;
    }
    here
}

// The witness `last` with as many references around it as `w` begins with.
fn put_behind(alloc: Global, w: &Witness, last: Witness) -> Result<Witness, NoMemory>
    ensures { IfOk result (λ r. plain_witness r ≡ put_behind (plain_witness w.now) (plain_witness last)) }
{
    let mut here = w;
    let mut all = last;
    while let Witness::Point(inner) = here {
        all = Witness::Point(Box::new(alloc, all)?);
        here = inner;
    }
    Ok(all)
}

// The same witness again. References that follow one another are gone through in loops.
#[cycle(copying)]
pub(crate) fn copy_witness(alloc: Global, w: &Witness) -> Result<Witness, NoMemory>
    ensures { IfOk result (λ r. plain_witness r ≡ plain_witness w.now) }
{
    match w {
        Witness::Any => Ok(Witness::Any),
        Witness::Flag(b) => Ok(Witness::Flag(*b)),
        Witness::Span(range) => Ok(Witness::Span(*range)),
        Witness::Text(text) => Ok(Witness::Text(String::from_str(alloc, text.as_str())?)),
        Witness::Else(texts) => Ok(Witness::Else(copy_strings(alloc, texts)?)),
        Witness::Node { variant, parts } => {
            let parts = copy_all(alloc, parts)?;
            Ok(Witness::Node {
                variant: *variant,
                parts,
            })
        }
        Witness::Point(_) => copy_points(alloc, w),
        Witness::Row {
            front,
            longer,
            back,
        } => {
            let front = copy_all(alloc, front)?;
            let back = copy_all(alloc, back)?;
            Ok(Witness::Row {
                front,
                longer: *longer,
                back,
            })
        }
        Witness::Later => Ok(Witness::Later),
    }
}

// The same witness again, which begins with a reference.
#[cycle(copying)]
fn copy_points(alloc: Global, w: &Witness) -> Result<Witness, NoMemory>
    requires { begins_with_point (plain_witness w.now) ≡ true }
    ensures { IfOk result (λ r. plain_witness r ≡ plain_witness w.now) }
{
    let Witness::Point(inner) = w else {
        unreachable!();
    };
    let last = copy_witness(alloc, behind_points(inner))?;
    let all = put_behind(alloc, w, last)?;
    Ok(all)
}

// The same witnesses again.
#[cycle(copying)]
pub(crate) fn copy_all(alloc: Global, ws: &[Witness]) -> Result<Vec<Witness>, NoMemory>
    ensures { IfOk result (λ v. map plain_witness v.items ≡ map plain_witness ws.now) }
{
    let mut all = Vec::with_capacity(alloc, ws.len())?;
    for w in ws {
        let new = copy_witness(alloc, w)?;
        all.push(new)?;
    }
    Ok(all)
}

// So many witnesses that any value fits.
#[tactic(auto, using(crate::proofs::Tops::more_anys))]
pub(crate) fn anys(alloc: Global, count: usize) -> Result<Vec<Witness>, NoMemory>
    ensures { IfOk result (λ v. map plain_witness v.items ≡ replicate count AnyOf) }
{
    let mut all = Vec::with_capacity(alloc, count)?;
    for _place in 0..count {
        all.push(Witness::Any)?;
    }
    Ok(all)
}

// A node of the variant with so many parts that any value fits.
fn node_room(alloc: Global, variant: u32, count: usize) -> Result<Witness, NoMemory>
    ensures { IfOk result (λ w. plain_witness w ≡ NodeOf variant (witnesses_of (replicate count AnyOf))) }
{
    let parts = anys(alloc, count)?;
    Ok(Witness::Node { variant, parts })
}

// A row of the shape with so many items that any value fits.
fn row_room(alloc: Global, shape: Shape, count: usize) -> Result<Witness, NoMemory>
    ensures { IfOk result (λ w. plain_witness w ≡ row_room (plain_shape shape) count) }
{
    match shape {
        Shape::Fixed(_) => {
            let front = anys(alloc, count)?;
            Ok(Witness::Row {
                front,
                longer: false,
                back: Vec::new(alloc),
            })
        }
        Shape::Longer { front, .. } => {
            let at = count.min(front as usize);
            let front = anys(alloc, at)?;
            let back = anys(alloc, count - at)?;
            Ok(Witness::Row {
                front,
                longer: true,
                back,
            })
        }
    }
}

// A witness of the constructor with room for so many parts, where the column names these texts: in place of each part
// stands one that any value fits.
pub(crate) fn room_for(
    alloc: Global,
    ctor: &Ctor,
    count: usize,
    named: &[&str],
) -> Result<Witness, NoMemory>
    ensures { IfOk result (λ w. plain_witness w ≡ room_for (plain_ctor ctor.now) (plain_names named.now) count) }
{
    match ctor {
        Ctor::Single => node_room(alloc, 0, count),
        Ctor::Variant(k) => node_room(alloc, *k, count),
        Ctor::Point => Ok(Witness::Point(Box::new(alloc, Witness::Any)?)),
        Ctor::Later => Ok(Witness::Later),
        Ctor::Flag(b) => Ok(Witness::Flag(*b)),
        Ctor::Numbers(range) => Ok(Witness::Span(*range)),
        Ctor::Text(text) => Ok(Witness::Text(String::from_str(alloc, text)?)),
        Ctor::OtherText => Ok(Witness::Else(own_texts(alloc, named)?)),
        Ctor::Row(shape) => row_room(alloc, *shape, count),
        Ctor::Wild => Ok(Witness::Any),
        Ctor::Or => Ok(Witness::Any),
    }
}

// Takes the top witness off a stack, whose top stands last; there is one.
#[tactic(auto, using(crate::proofs::Tops::top_steps))]
pub(crate) fn pop_top(open: &mut Vec<Witness>) -> Witness
    requires { 0 < length open.old.items }
    ensures { tops open.old.items ≡ plain_witness result ∷ tops open.new.items }
{
    match open.pop() {
        Some(w) => w,
        None => unreachable!(),
    }
}

// The list with the top witnesses of a stack, whose top stands last, in its places, the topmost first.
fn take_into(mut places: Vec<Witness>, open: &mut Vec<Witness>) -> Vec<Witness>
    requires { length places.items ≤ length open.old.items }
    ensures taken { map plain_witness result.items ≡ take (length places.items) (tops open.old.items) }
    ensures left { tops open.new.items ≡ drop (length places.items) (tops open.old.items) }
{
    for i in 0..places.len() {
        let w = pop_top(open);
        places[i] = w;
    }
    places
}

impl Witness {
    // The witness with the top ones of a stack, whose top stands last, in the places of its parts, the topmost first.
    pub(crate) fn fill(self, open: &mut Vec<Witness>) -> Witness
        requires { parts_of_witness (plain_witness self) ≤ length open.old.items }
        ensures filled { plain_witness result ≡ filled (plain_witness self) (tops open.old.items) }
        ensures left { tops open.new.items ≡ drop (parts_of_witness (plain_witness self)) (tops open.old.items) }
    {
        match self {
            Witness::Node { variant, parts } => {
                let parts = take_into(parts, open);
                Witness::Node { variant, parts }
            }
            Witness::Point(mut inner) => {
                *inner = pop_top(open);
                Witness::Point(inner)
            }
            Witness::Row {
                front,
                longer,
                back,
            } => {
                let front = take_into(front, open);
                let back = take_into(back, open);
                Witness::Row {
                    front,
                    longer,
                    back,
                }
            }
            bare => bare,
        }
    }
}
