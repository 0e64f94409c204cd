//! Reads types and patterns from the tokens of a source.
//!
//! The grammar stands in `docs/grammar.md` and, as relations with a case for each form, in
//! `specs/TypeGrammar.antt`, `specs/EndGrammar.antt` and `specs/PatternGrammar.antt`. Each relation
//! says what tokens begin with and what stands behind it. A token `&&` counts as two `&` and `>>` as
//! two `>`: a [`Cursor`] is a place in that list of marks and tokens, and `left` of it is the list of
//! those behind the place. A type and a pattern have at most 64 levels, one for each node.
//!
//! [`read_type`] and [`read_pattern`] give the tree that stands at a place and the place behind it, and
//! answer [`Stop::Syntax`] exactly where the grammar has none. The laws of `laws.rt` say that there is
//! never a second one. [`read_attributes`] gives the attributes that stand at a place.
//!
//! The trees of whole items stand here too: a [`File`] and its parts, which `decl_parser` reads and the table of types
//! takes.
#![tactic(auto)]

mod attributes;
mod cursor;
mod ends;
mod items;
mod laws;
mod levels;
mod lists;
mod pattern;
mod stop;
mod tree;
mod ty;
mod widths;

pub use attributes::{mark_of, read_attributes, track};
pub use cursor::{
    Cursor, Seen, Unit, behind, behind_lifetime, behind_word, expect, expect_word, name_at,
    skip_mark, skip_word,
};
pub use items::{
    Arm, EnumItem, Field, File, FnItem, Form, Item, ItemKind, StructItem, UseItem, Variant,
};
pub use laws::{levels_suffice, one_attribute_list, one_pattern, one_type};
pub use lists::fitted;
pub use pattern::read_pattern;
pub use stop::Stop;
pub use tree::{Attr, FieldPat, IntLit, Lit, Pat, PatKind, Path, RangePat};
pub use ty::{ArraySize, Ty, read_type};
pub use widths::{MOST_PARTS, pattern_is_wide, type_is_wide};
