// The pieces of a set of constructors by the heads of a column.
ghost use Rattle.std.specs.Prelude.{◌≡◌, ◌<◌, ◌^◌, IsTrue, IfOk, OnOk, map, length, true};
ghost use Rattle.std.specs.List.{All, list_any, filter_map};
ghost use Rattle.match_model.specs.Constructors.{VariantSet, NumberSet, SingleSet, PointSet, FlagSet};
ghost use Rattle.match_model.specs.Constructors.{VariantCtor};
ghost use Rattle.match_model.specs.ContextLaws.{RangesAscend};
ghost use Rattle.match_model.specs.Pieces.{range_of, each_below};
ghost use Rattle.range_split.specs.Splits.{plain_ranges, HasRoomBelow, HasRoomAbove};
ghost use Rattle.range_split.specs.Ranges.{plain_range};
ghost use Rattle.pat_context.specs.Views.{plain_ctor, plain_set, plain_second};
ghost use Rattle.constructor_sets.specs.Columns.{is_head, writes, plain_ctors, plain_flagged};
ghost use Rattle.constructor_sets.specs.Columns.{IsSetSplit, AreVariantMarks, AddsRanges, IsVariantBelow};

use crate::arrays::array;
use crate::heads::is_written;
use crate::lengths::slices;
use crate::texts::texts;
use no_memory::NoMemory;
use pat_context::{Ctor, CtorSet};
use range_split::{Range, split};
use std::alloc::Global;

// The pieces of the set, in order, each with whether a head of the column that is no wildcard has it.
pub(crate) fn set_pieces<'a>(
    alloc: Global,
    set: &CtorSet,
    column: &[Ctor<'a>],
) -> Result<Vec<(Ctor<'a>, bool)>, NoMemory>
    requires column { All (λ h. IsTrue (is_head (plain_set set.now) h)) (plain_ctors column.now) }
    requires ascend { RangesAscend (plain_set set.now) }
    ensures { IfOk result (λ v. IsSetSplit (plain_set set.now) (plain_ctors column.now) (plain_flagged v.items)) }
{
    match *set {
        CtorSet::Single => single(alloc, column),
        CtorSet::Point => point(alloc, column),
        CtorSet::Flags => flags(alloc, column),
        CtorSet::Variants { count, later } => variants(alloc, count, later, column),
        CtorSet::Numbers { first, second } => numbers(alloc, &first, &second, column),
        CtorSet::Texts => texts(alloc, column),
        CtorSet::Rows { len: Some(len) } => array(alloc, len, column),
        CtorSet::Rows { len: None } => slices(alloc, column),
        CtorSet::Opaque => Ok(Vec::new(alloc)),
        CtorSet::Nothing => Ok(Vec::new(alloc)),
    }
}

// The piece of a struct or tuple.
fn single<'a>(alloc: Global, column: &[Ctor<'a>]) -> Result<Vec<(Ctor<'a>, bool)>, NoMemory>
    ensures { IfOk result (λ v. IsSetSplit SingleSet (plain_ctors column.now) (plain_flagged v.items)) }
{
    let mut pieces = Vec::new(alloc);
    let present = is_written(column, &Ctor::Single);
    pieces.push((Ctor::Single, present))?;
    Ok(pieces)
}

// The piece of a reference.
fn point<'a>(alloc: Global, column: &[Ctor<'a>]) -> Result<Vec<(Ctor<'a>, bool)>, NoMemory>
    ensures { IfOk result (λ v. IsSetSplit PointSet (plain_ctors column.now) (plain_flagged v.items)) }
{
    let mut pieces = Vec::new(alloc);
    let present = is_written(column, &Ctor::Point);
    pieces.push((Ctor::Point, present))?;
    Ok(pieces)
}

// The pieces of flags.
fn flags<'a>(alloc: Global, column: &[Ctor<'a>]) -> Result<Vec<(Ctor<'a>, bool)>, NoMemory>
    ensures { IfOk result (λ v. IsSetSplit FlagSet (plain_ctors column.now) (plain_flagged v.items)) }
{
    let mut pieces = Vec::new(alloc);
    let has_false = is_written(column, &Ctor::Flag(false));
    let has_true = is_written(column, &Ctor::Flag(true));
    pieces.push((Ctor::Flag(false), has_false))?;
    pieces.push((Ctor::Flag(true), has_true))?;
    Ok(pieces)
}

// The pieces of variants.
fn variants<'a>(
    alloc: Global,
    count: u32,
    later: bool,
    column: &[Ctor<'a>],
) -> Result<Vec<(Ctor<'a>, bool)>, NoMemory>
    requires { All (λ h. IsTrue (is_head (VariantSet count later) h)) (plain_ctors column.now) }
    ensures { IfOk result (λ v. IsSetSplit (VariantSet count later) (plain_ctors column.now)
        (plain_flagged v.items)) }
{
    let marks = variant_marks(alloc, count, column)?;
    let mut pieces = variant_pieces(alloc, &marks)?;
    if later {
        pieces.push((Ctor::Later, false))?;
        Ok(pieces)
    } else {
        Ok(pieces)
    }
}

// Marks the variants that stand in the column.
fn variant_marks(alloc: Global, count: u32, column: &[Ctor]) -> Result<Vec<bool>, NoMemory>
    requires { All (IsVariantBelow count) (plain_ctors column.now) }
    ensures len { IfOk result (λ marks. length marks.items ≡ count) }
    ensures marks { IfOk result (λ marks. AreVariantMarks marks.items (plain_ctors column.now)) }
{
    let mut marks = vec![in alloc; false; count as usize]?;
    for head in column {
        if let Ctor::Variant(k) = *head {
            marks[k as usize] = true;
        }
    }
    Ok(marks)
}

// A piece for each variant that there is a mark for.
fn variant_pieces<'a>(alloc: Global, marks: &[bool]) -> Result<Vec<(Ctor<'a>, bool)>, NoMemory>
    requires { length marks.now < 2 ^ 32 }
    ensures ctors { IfOk result (λ v. map (λ p. p.0) (plain_flagged v.items) ≡ each_below VariantCtor
        (length marks.now)) }
    ensures flags { IfOk result (λ v. map (λ p. p.1) (plain_flagged v.items) ≡ marks.now) }
{
    let mut pieces = Vec::with_capacity(alloc, marks.len())?;
    for (place, is_there) in marks.iter().enumerate() {
        let k = place as u32;
        pieces.push((Ctor::Variant(k), *is_there))?;
    }
    Ok(pieces)
}

// The pieces of numbers.
fn numbers<'a>(
    alloc: Global,
    first: &Range,
    second: &Option<Range>,
    column: &[Ctor<'a>],
) -> Result<Vec<(Ctor<'a>, bool)>, NoMemory>
    requires column { All (λ h. IsTrue (is_head (NumberSet (plain_range first.now) (plain_second second.now)) h))
        (plain_ctors column.now) }
    requires ascend { RangesAscend (NumberSet (plain_range first.now) (plain_second second.now)) }
    ensures { IfOk result (λ v. IsSetSplit (NumberSet (plain_range first.now) (plain_second second.now))
        (plain_ctors column.now) (plain_flagged v.items)) }
{
    let ranges = ranges_of(alloc, column)?;
    let mut pieces = Vec::new(alloc);
    add_ranges(&mut pieces, alloc, first, &ranges)?;
    match second {
        None => Ok(pieces),
        Some(second) => {
            add_ranges(&mut pieces, alloc, second, &ranges)?;
            Ok(pieces)
        }
    }
}

// The ranges of the column.
fn ranges_of(alloc: Global, column: &[Ctor]) -> Result<Vec<Range>, NoMemory>
    ensures { IfOk result (λ v. plain_ranges v.items ≡ filter_map range_of (plain_ctors column.now)) }
{
    let mut ranges = Vec::with_capacity(alloc, column.len())?;
    for head in column {
        if let Ctor::Numbers(range) = *head {
            ranges.push(range)?;
        }
    }
    Ok(ranges)
}

// Adds the pieces of one range of numbers.
fn add_ranges<'a>(
    pieces: &mut Vec<(Ctor<'a>, bool)>,
    alloc: Global,
    whole: &Range,
    ranges: &[Range],
) -> Result<(), NoMemory>
    requires below { All (λ r. HasRoomBelow (plain_range whole.now) (plain_range r)) ranges.now }
    requires above { All (λ r. HasRoomAbove (plain_range whole.now) (plain_range r)) ranges.now }
    ensures { OnOk result (AddsRanges (plain_range whole.now) (plain_ranges ranges.now)
        (plain_flagged pieces.old.items) (plain_flagged pieces.new.items)) }
{
    let cut = split(alloc, whole, ranges)?;
    for (range, present) in &cut {
        pieces.push((Ctor::Numbers(*range), *present))?;
    }
    Ok(())
}
