//! Types, patterns and attributes, as the readings of items use them.
ghost use Rattle.std.specs.Prelude.{map};
ghost use Rattle.decl_syntax.specs.Units.{left};
ghost use Rattle.decl_syntax.specs.Types.{type_view};
ghost use Rattle.decl_syntax.specs.Patterns.{attr_view, pattern_view};
ghost use Rattle.decl_syntax.specs.Reading.{Gives};
ghost use Rattle.decl_syntax.specs.RunReading.{attributes_at};
ghost use Rattle.decl_syntax.specs.TypeReading.{type_at};
ghost use Rattle.decl_syntax.specs.PatternReading.{pattern_at};

use decl_syntax::{Attr, Cursor, Pat, Stop, Ty, read_attributes, read_pattern, read_type};
use std::alloc::Global;

/// A type, and the place behind it.
pub fn type_at(alloc: Global, at: Cursor<'_>) -> Result<(Ty, Cursor<'_>), Stop>
    ensures { Gives (λ x. (type_view x.0, left x.1)) result (type_at 64 (left at.entry)) }
{
    read_type(alloc, at)
}

/// A pattern, and the place behind it.
pub fn pattern_at(alloc: Global, at: Cursor<'_>) -> Result<(Pat, Cursor<'_>), Stop>
    ensures { Gives (λ x. (pattern_view x.0, left x.1)) result (pattern_at (left at.entry)) }
{
    read_pattern(alloc, at)
}

/// Attributes one after the other, and the place behind them.
pub fn attributes_at(alloc: Global, at: Cursor<'_>) -> Result<(Vec<Attr>, Cursor<'_>), Stop>
    ensures { Gives (λ x. (map attr_view x.0.items, left x.1)) result (attributes_at (left at.entry)) }
{
    read_attributes(alloc, at)
}
