// The limits of the grammar: 64 levels, and 256 parts in a list.
ghost use Rattle.std.specs.Prelude.{◌≡◌, ◌+◌, ◌&&◌, suc, nat_le, not, is_some};
ghost use Rattle.decl_syntax.specs.Widths.{most_parts};
ghost use Rattle.witness_text.specs.Arms.{is_one_char};
ghost use Rattle.witness_text.specs.Texts.{text_of};
ghost use Rattle.witness_text.specs.Trees.{witness_view, witnesses_view, fields_view};
ghost use Rattle.arm_maker.specs.Sizes.{arm_fits, parts_fit, fields_fit, point_fits};
ghost use Rattle.arm_maker.specs.Sizes.{range_fits, rest_fits, rest_count, tree_count, field_count};

use witness_text::{NamedField, NamedWitness};

// The greatest number of levels of a pattern.
pub(crate) const MOST_LEVELS: u32 = 64;

// The greatest number of parts of a list.
const MOST_PARTS: usize = 256;

// Whether the pattern of an arm for the witness has at most so many levels, and no list of it more than 256 parts, `..`
// counted. It goes down as many levels as there may be.
#[cycle(size)]
pub(crate) fn fits(levels: u32, witness: &NamedWitness<'_>) -> bool
    ensures { result ≡ arm_fits levels (witness_view witness.now) }
{
    if levels == 0 {
        return false;
    }
    fits_above(levels - 1, witness)
}

// The same for one level more than so many.
#[cycle(size)]
fn fits_above(below: u32, witness: &NamedWitness<'_>) -> bool
    ensures { result ≡ arm_fits (suc below) (witness_view witness.now) }
{
    match witness {
        NamedWitness::Any | NamedWitness::Later | NamedWitness::Else(_) => true,
        NamedWitness::Flag(_) | NamedWitness::Text(_) | NamedWitness::UnitForm(_) => true,
        NamedWitness::Ints { range, .. } => range_fits(below, range.is_single()),
        NamedWitness::Chars { low, high } => range_fits(below, is_one(*low, *high)),
        NamedWitness::Tuple(parts) => list_fits(below, parts),
        NamedWitness::TupleForm { parts, .. } => list_fits(below, parts),
        NamedWitness::BraceForm { fields, .. } => form_fits(below, fields),
        NamedWitness::Point { mutable, inner } => point_fits(below, *mutable, inner),
        NamedWitness::Row {
            front,
            longer,
            back,
        } => {
            if !row_fits(below, front.len(), *longer, back.len()) {
                return false;
            }
            if !all_fit(below, front) {
                return false;
            }
            all_fit(below, back)
        }
    }
}

// Whether so many levels are left for what a reference points to; a text is one literal with its reference.
#[cycle(size)]
fn point_fits(levels: u32, mutable: bool, witness: &NamedWitness<'_>) -> bool
    ensures { result ≡ point_fits mutable (text_of (witness_view witness.now))
        (arm_fits levels (witness_view witness.now)) }
{
    if is_literal(mutable, witness) {
        return true;
    }
    fits(levels, witness)
}

// Whether so many levels are left below for the range in its parentheses, where there is one.
fn range_fits(below: u32, one: bool) -> bool
    ensures { result ≡ range_fits below one }
{
    if one {
        return true;
    }
    below > 0
}

// Whether a list of at most 256 parts has at most so many levels.
#[tactic(auto, using(crate::proofs::Counts::counted))]
#[cycle(size)]
fn list_fits(levels: u32, parts: &[NamedWitness<'_>]) -> bool
    ensures { result ≡ (nat_le (tree_count (witnesses_view parts.now)) most_parts
        && parts_fit levels (witnesses_view parts.now)) }
{
    if parts.len() > MOST_PARTS {
        return false;
    }
    all_fit(levels, parts)
}

// The same of a list of fields.
#[tactic(auto, using(crate::proofs::Counts::fields_counted))]
#[cycle(size)]
fn form_fits(levels: u32, fields: &[NamedField<'_>]) -> bool
    ensures { result ≡ (nat_le (field_count (fields_view fields.now)) most_parts
        && fields_fit levels (fields_view fields.now)) }
{
    if fields.len() > MOST_PARTS {
        return false;
    }
    fields_fit(levels, fields)
}

// Whether a row of so many items at each end, with `..` between them or not, is within the limits but for its items.
fn row_fits(levels: u32, front: usize, longer: bool, back: usize) -> bool
    ensures { result ≡ (nat_le (front + (rest_count longer + back)) most_parts && rest_fits levels longer) }
{
    if !is_narrow(front, longer, back) {
        return false;
    }
    rest_fits(levels, longer)
}

// Whether so many levels are left for a `..`, where one stands there.
fn rest_fits(levels: u32, longer: bool) -> bool
    ensures { result ≡ rest_fits levels longer }
{
    if !longer {
        return true;
    }
    levels > 0
}

// The same of each of these.
#[cycle(size)]
fn all_fit(levels: u32, parts: &[NamedWitness<'_>]) -> bool
    ensures { result ≡ parts_fit levels (witnesses_view parts.now) }
{
    for part in parts {
        if !fits(levels, part) {
            return false;
        }
    }
    true
}

// The same of each of these fields.
#[cycle(size)]
fn fields_fit(levels: u32, fields: &[NamedField<'_>]) -> bool
    ensures { result ≡ fields_fit levels (fields_view fields.now) }
{
    for field in fields {
        if !fits(levels, &field.witness) {
            return false;
        }
    }
    true
}

// Whether a row of so many items at each end, with `..` between them or not, is a list of at most 256 parts.
fn is_narrow(front: usize, longer: bool, back: usize) -> bool
    ensures { result ≡ nat_le (front + (rest_count longer + back)) most_parts }
{
    if front > MOST_PARTS || back > MOST_PARTS {
        return false;
    }
    front + back + usize::from(longer) <= MOST_PARTS
}

// Whether the ends are one character.
fn is_one(low: Option<char>, high: Option<char>) -> bool
    ensures { result ≡ is_one_char low high }
{
    match (low, high) {
        (Some(low), Some(high)) => low == high,
        _ => false,
    }
}

// Whether a reference to the witness is written as a literal.
fn is_literal(mutable: bool, witness: &NamedWitness<'_>) -> bool
    ensures { result ≡ (not mutable && is_some (text_of (witness_view witness.now))) }
{
    if mutable {
        return false;
    }
    match witness {
        NamedWitness::Text(_) => true,
        NamedWitness::Any | NamedWitness::Flag(_) | NamedWitness::Ints { .. } => false,
        NamedWitness::Chars { .. } | NamedWitness::Else(_) | NamedWitness::Tuple(_) => false,
        NamedWitness::UnitForm(_) | NamedWitness::TupleForm { .. } => false,
        NamedWitness::BraceForm { .. } | NamedWitness::Point { .. } => false,
        NamedWitness::Row { .. } | NamedWitness::Later => false,
    }
}
