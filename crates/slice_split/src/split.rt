// The pieces into which a column cuts the lengths of rows.
ghost use Rattle.std.specs.Prelude.{◌≡◌, ◌+◌, ◌-◌, ◌^◌, ◌<◌, ◌≤◌, ℕ, IsTrue, IfOk, map, nat_le, length};
ghost use Rattle.std.specs.List.{All, list_any};
ghost use Rattle.std.specs.Option.{ForSome};
ghost use Rattle.match_model.specs.Constructors.{FixedShape, LongerShape, RowCtor, covers};
ghost use Rattle.match_model.specs.Pieces.{fixed_end, longest_front, longest_back, array_piece, each_below};
ghost use Rattle.slice_split.specs.Shapes.{plain_shape, plain_shapes, plain_pieces, IsShort};
ghost use Rattle.slice_split.specs.Lengths.{IsSplit, AreMarks, is_longer_at, is_marked};

use crate::Shape;
use no_memory::NoMemory;
use std::alloc::Global;

/// The pieces into which the shapes of a column cut the lengths of rows, ascending, each with whether some shape of the
/// column has it. `whole` is the one length that there is, as of an array, or nothing where every length is there, as
/// in a slice. Which pieces there are is our own choice, after the documentation of `rustc_pattern_analysis`
/// (constructor splitting).
///
/// A shape of the column has at most 4,294,967,296 items, and it covers the one length where there is one. The only
/// error is want of memory.
pub fn split_lengths(
    alloc: Global,
    whole: Option<u64>,
    columns: &[Shape],
) -> Result<Vec<(Shape, bool)>, NoMemory>
    requires short { All IsShort columns.now }
    requires covered { ForSome whole (λ n. All (λ s. IsTrue (covers (plain_shape s) n)) columns.now) }
    ensures { IfOk result (λ v. IsSplit whole (plain_shapes columns.now) (plain_pieces v.items)) }
{
    match whole {
        Some(len) => one_length(alloc, len, columns),
        None => every_length(alloc, columns),
    }
}

// What the shapes of a column name at most.
#[derive(Clone, Copy)]
struct Ends {
    // One more than the greatest fixed length, 0 where there is none.
    fixed_end: u64,
    // The longest front and the longest back of the shapes with a rest.
    front: u64,
    back: u64,
}

// Reads off what the shapes of a column name at most.
fn ends_of(columns: &[Shape]) -> Ends
    requires { All IsShort columns.now }
    ensures fixed { result.fixed_end ≡ fixed_end (map RowCtor (plain_shapes columns.now)) }
    ensures front { result.front ≡ longest_front (map RowCtor (plain_shapes columns.now)) }
    ensures back { result.back ≡ longest_back (map RowCtor (plain_shapes columns.now)) }
    ensures fixed_bound { result.fixed_end ≤ 2 ^ 32 + 1 }
    ensures front_bound { result.front ≤ 2 ^ 32 }
    ensures back_bound { result.back ≤ 2 ^ 32 }
{
    let mut fixed_end = 0;
    let mut longest_front = 0;
    let mut longest_back = 0;
    for column in columns {
        match *column {
            Shape::Fixed(len) => fixed_end = fixed_end.max(len + 1),
            Shape::Longer { front, back } => {
                longest_front = longest_front.max(front);
                longest_back = longest_back.max(back);
            }
        }
    }
    Ends {
        fixed_end,
        front: longest_front,
        back: longest_back,
    }
}

// The one piece of rows of one length.
fn one_length(alloc: Global, len: u64, columns: &[Shape]) -> Result<Vec<(Shape, bool)>, NoMemory>
    requires short { All IsShort columns.now }
    requires covered { All (λ s. IsTrue (covers (plain_shape s) len)) columns.now }
    ensures { IfOk result (λ v. IsSplit (Some len) (plain_shapes columns.now) (plain_pieces v.items)) }
{
    let mut pieces = Vec::new(alloc);
    pieces.push((one_shape(len, columns), !columns.is_empty()))?;
    Ok(pieces)
}

// The shape of that piece: by its ends where no fixed length stands in the column and the ends do not meet.
fn one_shape(len: u64, columns: &[Shape]) -> Shape
    requires { All IsShort columns.now }
    ensures { RowCtor (plain_shape result) ≡ array_piece len (map RowCtor (plain_shapes columns.now)) }
{
    let ends = ends_of(columns);
    if ends.fixed_end != 0 || len <= ends.front + ends.back {
        Shape::Fixed(len)
    } else {
        Shape::Longer {
            front: ends.front,
            back: ends.back,
        }
    }
}

// The pieces of rows of every length.
fn every_length(alloc: Global, columns: &[Shape]) -> Result<Vec<(Shape, bool)>, NoMemory>
    requires { All IsShort columns.now }
    ensures { IfOk result (λ v. IsSplit None (plain_shapes columns.now) (plain_pieces v.items)) }
{
    let ends = ends_of(columns);
    let end = ends.fixed_end.max(ends.front + ends.back);
    let marks = fixed_marks(alloc, end, columns)?;
    let least = least_longer(columns);
    let mut pieces = short_pieces(alloc, &marks, least)?;
    let last = Shape::Longer {
        front: end - ends.back,
        back: ends.back,
    };
    pieces.push((last, least <= end))?;
    Ok(pieces)
}

// Marks the lengths below `end` that stand in the column.
fn fixed_marks(alloc: Global, end: u64, columns: &[Shape]) -> Result<Vec<bool>, NoMemory>
    requires { fixed_end (map RowCtor (plain_shapes columns.now)) ≤ end }
    ensures len { IfOk result (λ marks. length marks.items ≡ end) }
    ensures marks { IfOk result (λ marks. AreMarks marks.items (plain_shapes columns.now)) }
{
    let mut marks = vec![in alloc; false; end as usize]?;
    for column in columns {
        if let Shape::Fixed(len) = *column {
            marks[len as usize] = true;
        }
    }
    Ok(marks)
}

// The least length that a shape with a rest has, the greatest number where there is none.
fn least_longer(columns: &[Shape]) -> u64
    requires { All IsShort columns.now }
    ensures { (n : ℕ) → n < 2 ^ 64 - 1 → list_any (is_longer_at n) (plain_shapes columns.now) ≡ nat_le result n }
{
    let mut least = u64::MAX;
    for column in columns {
        if let Shape::Longer { front, back } = *column {
            least = least.min(front + back);
        }
    }
    least
}

// A piece for each length that there is a mark for.
fn short_pieces(alloc: Global, marks: &[bool], least: u64) -> Result<Vec<(Shape, bool)>, NoMemory>
    ensures shapes { IfOk result (λ v. map (λ p. plain_shape p.0) v.items ≡ each_below FixedShape (length marks.now)) }
    ensures flags { IfOk result (λ v. All (λ p. p.1 ≡ is_marked marks.now least (plain_shape p.0)) v.items) }
{
    let mut pieces = Vec::with_capacity(alloc, marks.len())?;
    for (place, is_fixed) in marks.iter().enumerate() {
        let len = place as u64;
        pieces.push((Shape::Fixed(len), *is_fixed || least <= len))?;
    }
    Ok(pieces)
}
