//! Literals and the ends of ranges as they are written: what they are, and which types and numbers they have.
ghost use Rattle.std.specs.Prelude.{◌≡◌, option_map};
ghost use Rattle.decl_syntax.specs.Patterns.{lit_view};
ghost use Rattle.number_kinds.specs.Kinds.{kind_type};
ghost use Rattle.range_split.specs.Numbers.{num_value, signed};
ghost use Rattle.pattern_rules.specs.Literals.{is_odd_suffix, is_refused, end_refused, is_char, is_kind, is_integer, has_suffix_type, has_type, end_has_type, number_of, end_number, is_number_of, is_outside, end_outside};

use decl_syntax::{IntLit, Lit};
use match_model::{IntKind, Width};
use number_kinds::{NumberKind, is_literal_of};
use range_split::Num;
use type_names::int_kind;

/// Whether a literal or end of a range is refused whatever its type: a float, a byte or C string, a path, or an integer
/// with a suffix that is no integer type.
pub fn is_refused(lit: &Lit) -> bool
    ensures { result ≡ is_refused (lit_view lit.now) }
{
    match lit {
        Lit::Flag(_) => false,
        Lit::Char(_) => false,
        Lit::Byte(_) => false,
        Lit::Small { .. } => false,
        Lit::Int(int) => is_odd_suffix(&int.suffix),
        Lit::Str(_) => false,
        Lit::Other => true,
    }
}

// Whether there is a suffix, and it is no integer type.
fn is_odd_suffix(suffix: &str) -> bool
    ensures { result ≡ is_odd_suffix suffix.now }
{
    !suffix.is_empty() && int_kind(suffix).is_none()
}

/// The same of an end that may be there.
pub fn end_refused(end: &Option<Lit>) -> bool
    ensures { result ≡ end_refused (option_map lit_view end.now) }
{
    match end {
        Some(lit) => is_refused(lit),
        None => false,
    }
}

/// Whether a literal or end of a range has the type. A string has none of these types.
pub fn has_type(lit: &Lit, kind: NumberKind) -> bool
    ensures { result ≡ has_type (lit_view lit.now) (kind_type kind) }
{
    match lit {
        Lit::Flag(_) => false,
        Lit::Char(_) => is_char(kind),
        Lit::Byte(_) => is_kind(IntKind::U8, kind),
        Lit::Small { .. } => has_suffix_type("", kind),
        Lit::Int(int) => has_suffix_type(&int.suffix, kind),
        Lit::Str(_) => false,
        Lit::Other => false,
    }
}

/// The same of an end that may be there.
pub fn end_has_type(end: &Option<Lit>, kind: NumberKind) -> bool
    ensures { result ≡ end_has_type (option_map lit_view end.now) (kind_type kind) }
{
    match end {
        Some(lit) => has_type(lit, kind),
        None => true,
    }
}

// Whether the type is `char`.
fn is_char(kind: NumberKind) -> bool
    ensures { result ≡ is_char (kind_type kind) }
{
    match kind {
        NumberKind::Char => true,
        NumberKind::Int(_) => false,
    }
}

// Whether the type is this integer type.
fn is_kind(int: IntKind, kind: NumberKind) -> bool
    ensures { result ≡ is_kind int (kind_type kind) }
{
    match kind {
        NumberKind::Char => false,
        NumberKind::Int(other) => int == other,
    }
}

// Whether an integer with this suffix has the type.
fn has_suffix_type(suffix: &str, kind: NumberKind) -> bool
    ensures { result ≡ has_suffix_type suffix.now (kind_type kind) }
{
    if suffix.is_empty() {
        return is_integer(kind);
    }
    match int_kind(suffix) {
        Some(int) => is_kind(int, kind),
        None => false,
    }
}

// Whether the type is an integer type.
fn is_integer(kind: NumberKind) -> bool
    ensures { result ≡ is_integer (kind_type kind) }
{
    match kind {
        NumberKind::Char => false,
        NumberKind::Int(_) => true,
    }
}

/// The number that a literal or end of a range is, if it is one of at most 128 bits; a character is its scalar value.
pub fn number_of(lit: &Lit) -> Option<Num>
    ensures { option_map num_value result ≡ number_of (lit_view lit.now) }
{
    match lit {
        Lit::Flag(_) => None,
        Lit::Char(c) => Some(Num::new(false, *c as u128)),
        Lit::Byte(b) => Some(Num::new(false, *b as u128)),
        Lit::Small { negative, size } => Some(Num::new(*negative, *size as u128)),
        Lit::Int(int) => int_number(int),
        Lit::Str(_) => None,
        Lit::Other => None,
    }
}

// The number of an integer, if it is one of at most 128 bits.
fn int_number(int: &IntLit) -> Option<Num>
    ensures { option_map num_value result ≡ option_map (λ n. signed int.now.negative n) int.now.size }
{
    match int.size {
        Some(size) => Some(Num::new(int.negative, size)),
        None => None,
    }
}

/// The number of an end that may be there.
pub fn end_number(end: &Option<Lit>) -> Option<Num>
    ensures { option_map num_value result ≡ end_number (option_map lit_view end.now) }
{
    match end {
        Some(lit) => number_of(lit),
        None => None,
    }
}

/// Whether an integer literal or end of a range is no number of the integer type.
pub fn is_outside(width: Width, kind: NumberKind, lit: &Lit) -> bool
    ensures { result ≡ is_outside width (kind_type kind) (lit_view lit.now) }
{
    if !is_integer(kind) {
        return false;
    }
    match lit {
        Lit::Flag(_) => false,
        Lit::Char(_) => false,
        Lit::Byte(_) => false,
        Lit::Small { .. } => !is_number_of(width, kind, number_of(lit)),
        Lit::Int(_) => !is_number_of(width, kind, number_of(lit)),
        Lit::Str(_) => false,
        Lit::Other => false,
    }
}

// Whether the number is there, and a literal of the type can be it.
fn is_number_of(width: Width, kind: NumberKind, n: Option<Num>) -> bool
    ensures { result ≡ is_number_of width (kind_type kind) (option_map num_value n) }
{
    match n {
        Some(n) => is_literal_of(width, kind, &n),
        None => false,
    }
}

/// The same of an end that may be there.
pub fn end_outside(width: Width, kind: NumberKind, end: &Option<Lit>) -> bool
    ensures { result ≡ end_outside width (kind_type kind) (option_map lit_view end.now) }
{
    match end {
        Some(lit) => is_outside(width, kind, lit),
        None => false,
    }
}
