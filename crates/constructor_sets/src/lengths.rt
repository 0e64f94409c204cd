// The pieces of rows of every length.
ghost use Rattle.std.specs.Prelude.{◌≡◌, ◌+◌, ◌≤◌, ◌^◌, ◌||◌, ℕ, false, None, IsTrue, IfOk, OnOk};
ghost use Rattle.std.specs.Prelude.{max, nat_eq, nat_le, slice_index_or, length};
ghost use Rattle.std.specs.List.{All};
ghost use Rattle.match_model.specs.Constructors.{RowSet};
ghost use Rattle.match_model.specs.Pieces.{each_below};
ghost use Rattle.pat_context.specs.Views.{plain_ctor};
ghost use Rattle.constructor_sets.specs.Columns.{is_head, plain_ctors, plain_flagged, IsSetSplit};
ghost use Rattle.constructor_sets.specs.RowLengths.{IsShortRow, AddsHead, AddsFixed, AddsLonger, AreLengths};
ghost use Rattle.constructor_sets.specs.RowLengths.{length_piece};

use no_memory::NoMemory;
use pat_context::Ctor;
use slice_split::Shape;
use std::alloc::Global;

// What the rows of a column name.
#[derive(Drop)]
pub(crate) struct Lengths {
    // For each length up to the greatest that some row has alone, whether some row has it alone.
    pub(crate) marks: Vec<bool>,
    // The longest front and the longest back of the rows with a rest.
    pub(crate) front: u64,
    pub(crate) back: u64,
    // The least length that a row with a rest has, the greatest number where there is none.
    pub(crate) least: u64,
}

// The pieces of rows of every length: each length below that from which on the rows of the column tell nothing apart,
// and one piece for all the others.
pub(crate) fn slices<'a>(
    alloc: Global,
    column: &[Ctor<'a>],
) -> Result<Vec<(Ctor<'a>, bool)>, NoMemory>
    requires { All (λ h. IsTrue (is_head (RowSet None) h)) (plain_ctors column.now) }
    ensures { IfOk result (λ v. IsSetSplit (RowSet None) (plain_ctors column.now) (plain_flagged v.items)) }
{
    let lengths = lengths_of(alloc, column)?;
    let end = (lengths.marks.len() as u64).max(lengths.front + lengths.back);
    let mut pieces = short_pieces(alloc, &lengths, end)?;
    let last = Shape::Longer {
        front: end - lengths.back,
        back: lengths.back,
    };
    pieces.push((Ctor::Row(last), lengths.least <= end))?;
    Ok(pieces)
}

// Reads off what the rows of a column name.
fn lengths_of(alloc: Global, column: &[Ctor]) -> Result<Lengths, NoMemory>
    requires { All IsShortRow (plain_ctors column.now) }
    ensures { IfOk result (λ l. AreLengths (plain_ctors column.now) l) }
{
    let mut lengths = Lengths {
        marks: Vec::new(alloc),
        front: 0,
        back: 0,
        least: u64::MAX,
    };
    for head in column {
        add_head(&mut lengths, head)?;
    }
    Ok(lengths)
}

// Adds what a head names, if it is a row.
fn add_head(lengths: &mut Lengths, head: &Ctor) -> Result<(), NoMemory>
    requires { IsShortRow (plain_ctor head.now) }
    ensures { OnOk result (AddsHead (plain_ctor head.now) lengths.old lengths.new) }
{
    match *head {
        Ctor::Row(Shape::Fixed(len)) => add_fixed(lengths, len),
        Ctor::Row(Shape::Longer { front, back }) => {
            add_longer(lengths, front, back);
            Ok(())
        }
        _ => Ok(()),
    }
}

// Adds a row that has one length.
fn add_fixed(lengths: &mut Lengths, len: u64) -> Result<(), NoMemory>
    requires { len ≤ 2 ^ 32 }
    ensures { OnOk result (AddsFixed len lengths.old lengths.new) }
{
    mark(&mut lengths.marks, len as usize)
}

// Marks a place.
fn mark(marks: &mut Vec<bool>, place: usize) -> Result<(), NoMemory>
    requires { place ≤ 2 ^ 32 }
    ensures count { OnOk result (length marks.new.items ≡ max (length marks.old.items) (place + 1)) }
    ensures marked { OnOk result ((n : ℕ) → slice_index_or marks.new.items n false
        ≡ (slice_index_or marks.old.items n false || nat_eq place n)) }
{
    make_room(marks, place + 1)?;
    marks[place] = true;
    Ok(())
}

// Makes room for so many marks.
fn make_room(marks: &mut Vec<bool>, count: usize) -> Result<(), NoMemory>
    ensures count { OnOk result (length marks.new.items ≡ max (length marks.old.items) count) }
    ensures same { OnOk result ((n : ℕ) → slice_index_or marks.new.items n false
        ≡ slice_index_or marks.old.items n false) }
{
    if marks.len() < count {
        marks.resize(count, false)?;
    }
    Ok(())
}

// Adds a row with a rest.
fn add_longer(lengths: &mut Lengths, front: u64, back: u64)
    requires { front + back ≤ 2 ^ 32 }
    ensures { AddsLonger front back lengths.old lengths.new }
{
    lengths.front = lengths.front.max(front);
    lengths.back = lengths.back.max(back);
    lengths.least = lengths.least.min(front + back);
}

// A piece for each length below `end`.
fn short_pieces<'a>(
    alloc: Global,
    lengths: &Lengths,
    end: u64,
) -> Result<Vec<(Ctor<'a>, bool)>, NoMemory>
    requires { end ≤ 2 ^ 33 }
    ensures { IfOk result (λ v. plain_flagged v.items
        ≡ each_below (length_piece lengths.now.marks.items lengths.now.least) end) }
{
    let mut pieces = Vec::with_capacity(alloc, end as usize + 1)?;
    for len in 0..end {
        let held = is_held(&lengths.marks, lengths.least, len);
        pieces.push((Ctor::Row(Shape::Fixed(len)), held))?;
    }
    Ok(pieces)
}

// Tells whether a length is marked, or is at or beyond `least`.
fn is_held(marks: &[bool], least: u64, len: u64) -> bool
    ensures { result ≡ (slice_index_or marks.now len false || nat_le least len) }
{
    is_marked(marks, len as usize) || least <= len
}

// Tells whether a place is marked.
fn is_marked(marks: &[bool], place: usize) -> bool
    ensures { result ≡ slice_index_or marks.now place false }
{
    place < marks.len() && marks[place]
}
