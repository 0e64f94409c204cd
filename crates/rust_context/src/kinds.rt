// The constructors of each kind of type (the documentation of `rustc_pattern_analysis`, constructors).
ghost use Rattle.std.specs.Prelude.{◌≡◌, List, length};
ghost use Rattle.match_model.specs.declared.Width as widths;
ghost use Rattle.match_model.specs.Declarations.{MVariant};
ghost use Rattle.match_model.specs.Emptiness.{IsRustType};
ghost use Rattle.match_model.specs.Numbers.{numbers_of};
ghost use Rattle.match_model.specs.RustTypes.{rust_set, number_set, enum_set};
ghost use Rattle.match_model.specs.Types.{MType, CharType};
ghost use Rattle.pat_context.specs.Views.{plain_set};
ghost use Rattle.type_table.specs.Tables.{KindIs, table_program};
ghost use Rattle.type_table.specs.declared.table.TypeTable.{TypeTable};

use crate::numbers::{between, kind_numbers};
use match_model::Width;
use pat_context::CtorSet;
use type_table::TyKind;

// The constructors of every type of that kind, in a table for that width.
pub(crate) fn kind_set(width: Width, kind: TyKind) -> CtorSet
    ensures { (table : TypeTable) (t : MType) → (table_program table).width ≡ width
        → IsRustType (table_program table) t → KindIs table t kind
        → plain_set result ≡ rust_set (table_program table) t }
{
    match kind {
        TyKind::Bool => CtorSet::Flags,
        TyKind::Char => char_set(),
        TyKind::Int(kind) => CtorSet::Numbers {
            first: kind_numbers(width, kind),
            second: None,
        },
        TyKind::Str => CtorSet::Texts,
        TyKind::Never => CtorSet::Nothing,
        TyKind::Opaque => CtorSet::Opaque,
        TyKind::Tuple(_) => CtorSet::Single,
        TyKind::Point { .. } => CtorSet::Point,
        TyKind::Slice(_) => CtorSet::Rows { len: None },
        TyKind::Array(_, len) => CtorSet::Rows { len: Some(len) },
        TyKind::Struct(_) => CtorSet::Single,
        TyKind::Enum { count, later } => enum_set(count, later),
    }
}

// The scalar values: all numbers below 0x110000 but the surrogates (The Unicode Standard, Unicode scalar value).
fn char_set() -> CtorSet
    ensures { (width : widths.Width) → plain_set result ≡ number_set (numbers_of width CharType) }
{
    CtorSet::Numbers {
        first: between(0, 0xd7ff),
        second: Some(between(0xe000, 0x10ffff)),
    }
}

// The variants of an enum; without any, and with none to come, it has no constructors.
fn enum_set(count: u32, later: bool) -> CtorSet
    ensures { (variants : List MVariant) → length variants ≡ count → plain_set result ≡ enum_set later variants }
{
    if count == 0 && !later {
        CtorSet::Nothing
    } else {
        CtorSet::Variants { count, later }
    }
}
