//! What it means that a rule is broken, in a few words each, by the rule's number.
//!
//! A title is what is reported, in rustc's words where it has them. A label says what is wrong at the place, and a help
//! what can be done. Each may speak of what stands at the place by its name. docs/rules.md has each rule in full. This crate stands on no other.
#![tactic(auto)]

ghost use Rattle.std.specs.Prelude.{◌≡◌, Some, option_map};
ghost use Rattle.rule_texts.specs.Rules.{IsNamed, IsPlain, help_of, label_of, phrase_view, title_of};

mod phrases;

pub use phrases::Phrase;

// Words as they stand.
fn plain(words: &'static str) -> Option<Phrase>
    ensures { option_map phrase_view result ≡ Some (IsPlain words.now) }
{
    Some(Phrase::Plain(words))
}

// Words before a name and behind it.
fn named(front: &'static str, back: &'static str) -> Option<Phrase>
    ensures { option_map phrase_view result ≡ Some (IsNamed front.now back.now) }
{
    Some(Phrase::Named { front, back })
}

/// What is reported where the rule of this number is broken, as a phrase without a full stop; `None` for a number that is no
/// rule's.
pub fn rule_title(rule: u64) -> Option<Phrase>
    ensures { option_map phrase_view result ≡ title_of rule }
{
    match rule {
        1 => plain("the file is not UTF-8"),
        2 => plain("unknown start of token"),
        3 => plain("unterminated block comment"),
        4 => plain("unterminated text literal"),
        5 => plain("unknown escape"),
        6 => plain("expected an item"),
        7 => plain("the file is too long"),
        9 => plain("too many members in one list"),
        10 => named("the name ", " is defined multiple times"),
        11 => plain("a variant is defined multiple times"),
        12 => plain("a field is already declared"),
        13 => plain("cannot find a type in this scope"),
        14 => plain("the size of a type cannot be known at compilation time"),
        15 => named("recursive type ", " has infinite size"),
        16 => plain("invalid array length"),
        17 => plain("wrong number of generic arguments"),
        18 => named("unresolved import ", ""),
        19 => plain("unsupported attribute"),
        20 => named("cannot find ", " in this scope"),
        21 => plain("match bindings cannot shadow structs or variants"),
        22 => plain("mismatched types"),
        23 => plain("wrong number of parts"),
        24 => plain("no such field"),
        25 => plain("field bound multiple times in the pattern"),
        26 => plain("pattern does not mention all fields"),
        27 => plain("`..` can only be used once per list of patterns"),
        28 => plain("literal out of range for its type"),
        29 => plain("empty range pattern"),
        30 => named(
            "identifier ",
            " is bound more than once in the same pattern",
        ),
        31 => plain("variable is not bound in all alternatives"),
        32 => plain("cannot write a binding mode within an implicitly-borrowing pattern"),
        33 => plain("open range in a slice pattern"),
        34 => plain("type cannot be dereferenced"),
        35 => plain("unsupported pattern"),
        36 => named("recursive type ", " has no finite value"),
        40 => plain("invalid value"),
        41 => plain("mismatched value"),
        42 => plain("unknown function"),
        50 => plain("an arm to add is too large"),
        _ => None,
    }
}

/// What is wrong at the place where the rule of this number is broken, as a phrase without a full stop; `None` for a number
/// that is no rule's.
pub fn rule_label(rule: u64) -> Option<Phrase>
    ensures { option_map phrase_view result ≡ label_of rule }
{
    match rule {
        1 => plain("no character of UTF-8 begins with this byte"),
        2 => plain("no token begins here"),
        3 => plain("this comment is not closed"),
        4 => plain("this text is not closed"),
        5 => plain("no escape begins with this backslash"),
        6 => plain(
            "no `enum`, `struct`, `use` or `fn` of the grammar begins here, or it is deeper than 64 levels",
        ),
        7 => plain("the file has more than 16777216 bytes"),
        9 => plain("this item has a list of more than 256 fields, parts or items"),
        10 => named("", " is taken, as a type or as a value"),
        11 => named("two variants of ", " have one name"),
        12 => named("two fields of one form of ", " have one name"),
        13 => named("", " names a type that is not declared"),
        14 => named("", " has `str` or `[T]` where a size is needed"),
        15 => named("", " has itself by value"),
        16 => named(
            "an array length of ",
            " is above 4294967295, or has another suffix than `usize`",
        ),
        17 => named("", " has a type with a wrong number of arguments"),
        18 => named("", " is no enum, or it has no such variant"),
        19 => named("the checker does not support an attribute of ", ""),
        20 => plain("this path finds nothing, or its name is found twice"),
        21 => named(
            "",
            " finds a struct or variant that needs more than its name",
        ),
        22 => plain("this pattern does not fit the type of the value"),
        23 => plain("this pattern has another number of parts than the value"),
        24 => plain("this pattern names a field that the form does not have"),
        25 => plain("this pattern names a field twice"),
        26 => plain("a field is missing, and there is no `..`"),
        27 => plain("this list has a second `..`"),
        28 => plain("this number is none of the type's"),
        29 => plain("no number is in this range"),
        30 => named("", " is bound twice"),
        31 => plain("the alternatives bind other names, types or modes"),
        32 => plain("`ref`, `mut`, `&` and `&mut` are not allowed here"),
        33 => plain("this range needs parentheses"),
        34 => plain("the type of the scrutinee is no reference"),
        35 => plain("the checker does not support this literal, suffix or path in a pattern"),
        36 => named("", " has no finite value, even behind references"),
        40 => plain("the value is not written as a value"),
        41 => plain("the value is none of the function's type"),
        42 => plain("the file has no function of this name"),
        50 => plain("an arm to add has more than 64 levels, or more than 256 parts in a list"),
        _ => None,
    }
}

/// What can be done where the rule of this number is broken, as a phrase without a full stop; `None` where there is no
/// advice.
pub fn rule_help(rule: u64) -> Option<Phrase>
    ensures { option_map phrase_view result ≡ help_of rule }
{
    match rule {
        6 => plain(
            "a file holds enums, structs, imports of variants, and functions of one parameter whose body is one `match` on it",
        ),
        13 => plain("declare the type in this file: the checker reads no other file"),
        14 => plain("put it behind a reference"),
        15 => plain("insert some indirection, such as `&`, to break the cycle"),
        18 => plain("an import is `use E::*;` or `use E::{A, B};` for an enum `E` of this file"),
        21 => named(
            "write the parts of ",
            " behind it, or give the binding another name",
        ),
        26 => plain("name the other fields, or write `..` to ignore them"),
        31 => plain("bind the same names in each alternative, with the same types and modes"),
        32 => plain("remove it, or match the reference itself with `&`"),
        33 => plain("write parentheses around it, as in `[(1..), _]`"),
        34 => plain("match on the scrutinee without `*`"),
        35 => plain(
            "patterns have no floats, byte texts, constants or paths of more than two names here",
        ),
        _ => None,
    }
}
