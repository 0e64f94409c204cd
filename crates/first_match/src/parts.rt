// The parts of a value that the patterns below a constructor meet.
ghost use Rattle.std.specs.Prelude.{◌≡◌, ◌<◌, IfOk, Some, [], chars, length, map, option_map, slice_get};
ghost use Rattle.match_model.specs.ArenaWays.{bound_part};
ghost use Rattle.match_model.specs.Matching.{middle_of};
ghost use Rattle.match_model.specs.Places.{some_if};
ghost use Rattle.match_model.specs.Texts.{text_eq};
ghost use Rattle.pat_context.specs.Views.{plain_ctor};
ghost use Rattle.pattern_arena.specs.Trees.{plain_part};
ghost use Rattle.slice_split.specs.Shapes.{plain_shape};
ghost use Rattle.tree_eval.specs.Views.{plain_value};
ghost use Rattle.first_match.specs.Parts.{plain_met, values_met, row_met};

use no_memory::NoMemory;
use pat_context::Ctor;
use pattern_arena::Part;
use slice_split::Shape;
use std::alloc::Global;
use tree_eval::Value;

// Parts of a value: those in front, and those at the back.
#[derive(Clone, Copy)]
pub(crate) struct Met<'v> {
    pub(crate) front: &'v [Value],
    pub(crate) back: &'v [Value],
}

// No parts, where the test holds.
fn none_if<'v>(holds: bool) -> Option<Met<'v>>
    ensures { option_map plain_met result ≡ some_if holds [] }
{
    if holds {
        Some(Met {
            front: &[],
            back: &[],
        })
    } else {
        None
    }
}

// All of the parts, where the test holds.
fn all_if<'v>(holds: bool, parts: &'v [Value]) -> Option<Met<'v>>
    ensures { option_map plain_met result ≡ some_if holds (map plain_value parts.now) }
{
    if holds {
        Some(Met {
            front: parts,
            back: &[],
        })
    } else {
        None
    }
}

// The items of a row that the patterns of a shape meet, where the shape has its length.
fn row_met<'v>(shape: &Shape, items: &'v [Value]) -> Option<Met<'v>>
    ensures { option_map plain_met result ≡ row_met (plain_shape shape.now) (map plain_value items.now) }
{
    let count = items.len() as u64;
    if !shape.covers(count) {
        return None;
    }
    match *shape {
        Shape::Fixed(_) => all_if(true, items),
        Shape::Longer { front, back } => Some(Met {
            front: &items[..front as usize],
            back: &items[(count - back) as usize..],
        }),
    }
}

// The parts that the patterns below the constructor meet, where it builds the value.
pub(crate) fn parts_met<'a, 'v>(ctor: &Ctor<'a>, value: &'v Value) -> Option<Met<'v>>
    ensures { option_map plain_met result ≡ values_met (plain_ctor ctor.now) (plain_value value.entry.now) }
{
    match (value, ctor) {
        (Value::Node { variant, parts }, Ctor::Single) => all_if(*variant == 0, parts),
        (Value::Node { variant, parts }, Ctor::Variant(k)) => all_if(*variant == *k, parts),
        (Value::Point { inner, .. }, Ctor::Point) => all_if(true, std::slice::from_ref(&**inner)),
        (Value::Later, Ctor::Later) => none_if(true),
        (Value::Flag(b), Ctor::Flag(c)) => none_if(*c == *b),
        (Value::Num(n), Ctor::Numbers(range)) => none_if(range.contains(n)),
        (Value::Text(t), Ctor::Text(u)) => none_if(is_same_text(u, t.as_str())),
        (Value::Text(_), Ctor::OtherText) => none_if(true),
        (Value::Row(items), Ctor::Row(shape)) => row_met(shape, items),
        _ => None,
    }
}

// Tells whether two texts are the same.
fn is_same_text(text: &str, other: &str) -> bool
    ensures { result ≡ text_eq (chars text.now) (chars other.now) }
{
    text == other
}

impl<'v> Met<'v> {
    // How many they are.
    pub(crate) fn count(&self) -> usize
        ensures { result ≡ length (plain_met self.now) }
    {
        self.front.len() + self.back.len()
    }

    // The part with the number, from 0.
    pub(crate) fn part(&self, i: usize) -> &'v Value
        requires { i < length (plain_met self.now) }
        ensures { slice_get (plain_met self.now) i ≡ Some (plain_value result.now) }
    {
        if i < self.front.len() {
            &self.front[i]
        } else {
            &self.back[i - self.front.len()]
        }
    }
}

// The items of a row without so many at each end.
fn middle_of(alloc: Global, items: &[Value], front: u64, back: u64) -> Result<Value, NoMemory>
    ensures { IfOk result (λ v. plain_value v ≡ middle_of front back (map plain_value items.now)) }
{
    let count = items.len() as u64;
    let from = front.min(count);
    let to = count - back.min(count - from);
    let copied = copy_items(alloc, &items[from as usize..to as usize])?;
    Ok(Value::Row(copied))
}

// The same items again.
fn copy_items(alloc: Global, items: &[Value]) -> Result<Vec<Value>, NoMemory>
    ensures { IfOk result (λ v. map plain_value v.items ≡ map plain_value items.now) }
{
    let mut all = Vec::with_capacity(alloc, items.len())?;
    for item in items {
        all.push(item.copy(alloc)?)?;
    }
    Ok(all)
}

// What a name holds of the value that its pattern meets.
pub(crate) fn part_held(alloc: Global, part: &Part, value: &Value) -> Result<Value, NoMemory>
    ensures { IfOk result (λ v. plain_value v ≡ bound_part (plain_part part.now) (plain_value value.now)) }
{
    match (part, value) {
        (Part::Middle { front, back }, Value::Row(items)) => middle_of(alloc, items, *front, *back),
        _ => value.copy(alloc),
    }
}
