// Ranges of characters and of numbers.
ghost use Rattle.std.specs.Prelude.{◌≡◌};
ghost use Rattle.match_model.specs.Numbers.{At};
ghost use Rattle.match_model.specs.Types.{CharType};
ghost use Rattle.range_split.specs.Ends.{plain_end};
ghost use Rattle.range_split.specs.Numbers.{num_value};
ghost use Rattle.range_split.specs.Ranges.{plain_range};
ghost use Rattle.type_table.specs.Tables.{IsOf, table_type};
ghost use Rattle.witness_text.specs.Trees.{witness_view};
ghost use Rattle.witness_names.specs.Named.{char_end, numbers_tree};

use range_split::{End, Num, Range};
use type_table::{TyId, TyKind, TypeTable};
use witness_text::NamedWitness;

// The character with this number, if there is one.
pub(crate) fn character(number: &Num) -> Option<char>
    ensures { result ≡ char_end (At (num_value number.now)) }
{
    if number.negative {
        return None;
    }
    let code = u32::try_from(number.size).ok()?;
    char::from_u32(code)
}

// An end of a range of characters.
fn char_end(end: &End) -> Option<char>
    ensures { result ≡ char_end (plain_end end.now) }
{
    match end {
        End::Free => None,
        End::At(number) => character(number),
    }
}

// The characters whose numbers the range has.
fn characters<'t>(range: &Range) -> NamedWitness<'t>
    ensures { witness_view result ≡ numbers_tree CharType (plain_range range.now) }
{
    let low = char_end(&range.low());
    let high = char_end(&range.high());
    NamedWitness::Chars { low, high }
}

// The numbers of a range, as numbers of the type.
pub(crate) fn name_numbers<'t>(table: &TypeTable, ty: TyId, range: &Range) -> NamedWitness<'t>
    requires { IsOf table.now ty }
    ensures { witness_view result ≡ numbers_tree (table_type table.now ty) (plain_range range.now) }
{
    match table.kind(ty) {
        TyKind::Char => characters(range),
        TyKind::Int(kind) => NamedWitness::Ints {
            kind,
            range: *range,
        },
        _ => NamedWitness::Any,
    }
}
