// The constructors of leaves, one that stands near the same one left out.
ghost use Rattle.std.specs.Prelude.{◌≡◌, ◌++◌, ◌∷◌, [], List, true, chars, IfOk, OnOk, IfSome, Some, slice_get};
ghost use Rattle.match_model.specs.Texts.{text_eq};
ghost use Rattle.std.specs.Option.{option_to_list};
ghost use Rattle.match_model.specs.Constructors.{MCtor};
ghost use Rattle.match_model.specs.Rows.{first_ctor, ctor_unless_wild};
ghost use Rattle.range_split.specs.Ends.{plain_end};
ghost use Rattle.range_split.specs.Numbers.{num_value};
ghost use Rattle.slice_split.specs.Shapes.{plain_shape};
ghost use Rattle.pat_context.specs.Views.{plain_ctor};
ghost use Rattle.constructor_sets.specs.Columns.{plain_ctors};
ghost use Rattle.pattern_matrix.specs.Distinct.{AreDistinct};
ghost use Rattle.pattern_matrix.specs.Halving.{leaf_ctors};
ghost use Rattle.pattern_matrix.specs.Sparse.{bare_head};
ghost use Rattle.pattern_matrix.specs.Views.{plain_leaves, plain_pattern};

use crate::Leaf;
use crate::heads::short;
use no_memory::NoMemory;
use pat_context::Ctor;
use pattern_arena::DePat;
use range_split::{End, Num};
use slice_split::Shape;
use std::alloc::Global;

// So many leaves are a list whose memory matters.
pub(crate) const MANY: usize = 65_536;

// In such a list so many of the constructors that were kept last are looked at for the same one.
const NEAR: usize = 16;

/// Constructors, and for each of those that they stand for the number of the same one among them.
#[derive(Drop)]
pub(crate) struct Distinct<'a> {
    pub(crate) ctors: Vec<Ctor<'a>>,
    pub(crate) numbers: Vec<u32>,
    // So many of those that were kept last are looked at for the same one.
    near: usize,
}

// Tells whether two numbers are the same.
fn is_same_number(number: &Num, other: &Num) -> bool
    ensures { result ≡ true → num_value number.now ≡ num_value other.now }
{
    number.negative == other.negative && number.size == other.size
}

// Tells whether two ends are the same.
fn is_same_end(end: &End, other: &End) -> bool
    ensures { result ≡ true → plain_end end.now ≡ plain_end other.now }
{
    match (end, other) {
        (End::Free, End::Free) => true,
        (End::At(number), End::At(second)) => is_same_number(number, second),
        _ => false,
    }
}

// Tells whether two shapes are the same.
fn is_same_shape(shape: &Shape, other: &Shape) -> bool
    ensures { result ≡ true → plain_shape shape.now ≡ plain_shape other.now }
{
    match (shape, other) {
        (Shape::Fixed(len), Shape::Fixed(second)) => *len == *second,
        _ => false,
    }
}

// Tells whether two texts are the same.
fn is_same_text(text: &str, other: &str) -> bool
    ensures { result ≡ text_eq (chars text.now) (chars other.now) }
{
    text == other
}

// Tells whether two constructors are the same; of rows with a rest it tells nothing.
fn is_same(ctor: &Ctor, other: &Ctor) -> bool
    ensures { result ≡ true → plain_ctor ctor.now ≡ plain_ctor other.now }
{
    match (ctor, other) {
        (Ctor::Single, Ctor::Single) => true,
        (Ctor::Point, Ctor::Point) => true,
        (Ctor::Variant(number), Ctor::Variant(second)) => *number == *second,
        (Ctor::Flag(flag), Ctor::Flag(second)) => *flag == *second,
        (Ctor::Numbers(range), Ctor::Numbers(second)) => {
            is_same_end(&range.low(), &second.low()) && is_same_end(&range.high(), &second.high())
        }
        (Ctor::Text(text), Ctor::Text(second)) => is_same_text(text, second),
        (Ctor::Row(shape), Ctor::Row(second)) => is_same_shape(shape, second),
        _ => false,
    }
}

// Where the constructor stands among so many of those that were kept last.
fn place_near(ctors: &[Ctor], ctor: &Ctor, near: usize) -> Option<usize>
    ensures { IfSome result (λ k. slice_get (plain_ctors ctors.now) k ≡ Some (plain_ctor ctor.now)) }
{
    let first = ctors.len().saturating_sub(near);
    for i in first..ctors.len() {
        if is_same(&ctors[i], ctor) {
            return Some(i);
        }
    }
    None
}

// Adds the number.
fn note_number(numbers: &mut Vec<u32>, number: usize) -> Result<(), NoMemory>
    ensures { OnOk result (numbers.new.items ≡ numbers.old.items ++ number ∷ []) }
{
    let number = short(number)?;
    numbers.push(number)?;
    Ok(())
}

// Adds the constructor, unless it stands among those that were kept last.
fn add_ctor<'a>(heads: &mut Distinct<'a>, ctor: Ctor<'a>) -> Result<(), NoMemory>
    ensures { OnOk result ((all : List MCtor) → AreDistinct all (plain_ctors heads.old.ctors.items) heads.old.numbers.items
        → AreDistinct (all ++ plain_ctor ctor.entry ∷ []) (plain_ctors heads.new.ctors.items) heads.new.numbers.items) }
{
    match place_near(&heads.ctors, &ctor, heads.near) {
        Some(number) => {
            note_number(&mut heads.numbers, number)?;
            Ok(())
        }
        None => {
            note_number(&mut heads.numbers, heads.ctors.len())?;
            heads.ctors.push(ctor)?;
            Ok(())
        }
    }
}

// Adds the constructor, unless it is a wildcard.
fn add_unless_wild<'a>(heads: &mut Distinct<'a>, ctor: Ctor<'a>) -> Result<(), NoMemory>
    ensures { OnOk result ((all : List MCtor) → AreDistinct all (plain_ctors heads.old.ctors.items) heads.old.numbers.items
        → AreDistinct (all ++ option_to_list (ctor_unless_wild (plain_ctor ctor.entry))) (plain_ctors heads.new.ctors.items) heads.new.numbers.items) }
{
    match ctor {
        Ctor::Wild => Ok(()),
        _ => add_ctor(heads, ctor),
    }
}

// Adds the constructor of the pattern, unless it is a wildcard.
#[tactic(auto, using(crate::proofs::LeafCtors::leaf_heads))]
fn add_head<'a, T: Copy>(
    heads: &mut Distinct<'a>,
    head: Option<&'a DePat<'a, T>>,
) -> Result<(), NoMemory>
    ensures { OnOk result ((all : List MCtor) → AreDistinct all (plain_ctors heads.old.ctors.items) heads.old.numbers.items
        → AreDistinct (all ++ option_to_list (first_ctor (bare_head (plain_pattern head.entry) ∷ []))) (plain_ctors heads.new.ctors.items) heads.new.numbers.items) }
{
    match head {
        None => Ok(()),
        Some(p) => add_unless_wild(heads, p.form.ctor),
    }
}

/// The constructors of the leaves that are no wildcards, in order; of very many leaves one that stands near the same one
/// is left out.
pub(crate) fn distinct_ctors<'a, T: Copy>(
    alloc: Global,
    leaves: &[Leaf<'a, T>],
) -> Result<Distinct<'a>, NoMemory>
    ensures { IfOk result (λ d. AreDistinct (leaf_ctors (plain_leaves leaves.now)) (plain_ctors d.ctors.items) d.numbers.items) }
{
    let count = leaves.len();
    let few = count < MANY;
    let mut heads = Distinct {
        ctors: Vec::with_capacity(alloc, if few { count } else { 0 })?,
        numbers: Vec::with_capacity(alloc, count)?,
        near: if few { 0 } else { NEAR },
    };
    for leaf in leaves {
        add_head(&mut heads, leaf.head)?;
    }
    Ok(heads)
}
