//! What names mean as types.
ghost use Rattle.std.specs.Prelude.{◌≡◌, option_map};
ghost use Rattle.type_names.specs.Meanings.{built_in, int_of, int_kind};
ghost use Rattle.type_names.specs.Views.{base_view, meaning_view};

use match_model::IntKind;

/// A type without arguments. The integer types are the Rust Reference's, "Numeric types".
#[derive(Clone, Copy, Debug, PartialEq, Eq, Hash)]
pub enum Base {
    Bool,
    Char,
    Str,
    Never,
    U8,
    U16,
    U32,
    U64,
    U128,
    USize,
    I8,
    I16,
    I32,
    I64,
    I128,
    ISize,
}

/// A type that patterns can only bind or ignore; `Text` is `String`.
#[derive(Clone, Copy, Debug, PartialEq, Eq, Hash)]
pub enum Opaque {
    Text,
    F32,
    F64,
    Box,
    Vec,
    Rc,
    Arc,
}

/// What a name means as a type: the enum or struct that the item with this number declares, counted from 0 over
/// all items of the file, or a built-in type.
#[derive(Clone, Copy, Debug)]
pub enum Meaning {
    Item(usize),
    Base(Base),
    Opaque(Opaque),
    Option,
    Result,
}

/// Who declares an enum: the item with this number, counted from 0 over all items of the file, or std.
#[derive(Clone, Copy, Debug, PartialEq, Eq, Hash)]
pub enum Owner {
    Item(u64),
    Option,
    Result,
}

/// How a struct or variant is declared: `S`, `S(..)` or `S { .. }`.
#[derive(Clone, Copy, Debug, PartialEq, Eq)]
pub enum FormKind {
    Unit,
    Tuple,
    Brace,
}

/// The built-in type of this name.
///
/// Source: the Rust Reference, "Types"; which types of std there are is our own choice.
#[tactic(auto, unfolding(crate::specs::Meanings::built_in))]
pub fn built_in(name: &str) -> Option<Meaning>
    ensures { option_map meaning_view result ≡ built_in name.now }
{
    match name {
        "bool" => Some(Meaning::Base(Base::Bool)),
        "char" => Some(Meaning::Base(Base::Char)),
        "str" => Some(Meaning::Base(Base::Str)),
        "u8" => Some(Meaning::Base(Base::U8)),
        "u16" => Some(Meaning::Base(Base::U16)),
        "u32" => Some(Meaning::Base(Base::U32)),
        "u64" => Some(Meaning::Base(Base::U64)),
        "u128" => Some(Meaning::Base(Base::U128)),
        "usize" => Some(Meaning::Base(Base::USize)),
        "i8" => Some(Meaning::Base(Base::I8)),
        "i16" => Some(Meaning::Base(Base::I16)),
        "i32" => Some(Meaning::Base(Base::I32)),
        "i64" => Some(Meaning::Base(Base::I64)),
        "i128" => Some(Meaning::Base(Base::I128)),
        "isize" => Some(Meaning::Base(Base::ISize)),
        "String" => Some(Meaning::Opaque(Opaque::Text)),
        "f32" => Some(Meaning::Opaque(Opaque::F32)),
        "f64" => Some(Meaning::Opaque(Opaque::F64)),
        "Box" => Some(Meaning::Opaque(Opaque::Box)),
        "Vec" => Some(Meaning::Opaque(Opaque::Vec)),
        "Rc" => Some(Meaning::Opaque(Opaque::Rc)),
        "Arc" => Some(Meaning::Opaque(Opaque::Arc)),
        "Option" => Some(Meaning::Option),
        "Result" => Some(Meaning::Result),
        _ => None,
    }
}

/// The integer type that the suffix of a literal names; no item of a file takes such a name away.
///
/// Source: the Rust Reference, "Integer literal expressions".
pub fn int_kind(suffix: &str) -> Option<IntKind>
    ensures { result ≡ int_kind suffix.now }
{
    match built_in(suffix) {
        Some(Meaning::Base(base)) => base_int(base),
        Some(Meaning::Item(_)) => None,
        Some(Meaning::Opaque(_)) => None,
        Some(Meaning::Option) => None,
        Some(Meaning::Result) => None,
        None => None,
    }
}

// The integer type, if it is one.
fn base_int(base: Base) -> Option<IntKind>
    ensures { result ≡ int_of (base_view base) }
{
    match base {
        Base::Bool => None,
        Base::Char => None,
        Base::Str => None,
        Base::Never => None,
        Base::U8 => Some(IntKind::U8),
        Base::U16 => Some(IntKind::U16),
        Base::U32 => Some(IntKind::U32),
        Base::U64 => Some(IntKind::U64),
        Base::U128 => Some(IntKind::U128),
        Base::USize => Some(IntKind::USize),
        Base::I8 => Some(IntKind::I8),
        Base::I16 => Some(IntKind::I16),
        Base::I32 => Some(IntKind::I32),
        Base::I64 => Some(IntKind::I64),
        Base::I128 => Some(IntKind::I128),
        Base::ISize => Some(IntKind::ISize),
    }
}
