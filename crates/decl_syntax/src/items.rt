//! The trees of items as they are written.
use crate::tree::{Attr, Pat};
use crate::ty::Ty;
use decl_lexer::Name;

/// A file: its items in order, without the attributes `#![..]` at its start.
#[derive(Debug, Drop)]
pub struct File {
    pub items: Vec<Item>,
}

/// An item, with the byte offset of its first token, which may be that of an attribute or of `pub`.
#[derive(Debug, Drop)]
pub struct Item {
    pub from: u64,
    pub attrs: Vec<Attr>,
    pub kind: ItemKind,
}

/// The kinds of items.
///
/// Source: the Rust Reference, "Items"; which of them are our own choice.
#[derive(Debug, Drop)]
pub enum ItemKind {
    Enum(EnumItem),
    Struct(StructItem),
    Import(UseItem),
    Function(FnItem),
}

/// An enum, with its variants in order.
#[derive(Debug, Drop)]
pub struct EnumItem {
    pub name: Name,
    pub variants: Vec<Variant>,
}

/// A variant; what stands behind its `=` leaves no trace.
#[derive(Debug, Drop)]
pub struct Variant {
    pub name: Name,
    pub attrs: Vec<Attr>,
    pub form: Form,
}

/// A struct.
#[derive(Debug, Drop)]
pub struct StructItem {
    pub name: Name,
    pub form: Form,
}

/// The fields of a struct or variant: none, `(..)` or `{..}`.
#[derive(Debug, Drop)]
pub enum Form {
    Unit,
    Tuple(Vec<Field>),
    Brace(Vec<Field>),
}

/// A field. It has a name exactly in a brace form.
#[derive(Debug, Drop)]
pub struct Field {
    pub name: Option<Name>,
    pub attrs: Vec<Attr>,
    pub ty: Ty,
}

/// `use OWNER::{..};` with the names in order, or `use OWNER::*;` with none.
#[derive(Debug, Drop)]
pub struct UseItem {
    pub owner: Name,
    pub names: Option<Vec<Name>>,
}

/// A function whose body is one match on its one parameter, of type `param`. `deref` is the byte offset of the `*` in
/// `match *x`. What the function returns leaves no trace.
#[derive(Debug, Drop)]
pub struct FnItem {
    pub name: Name,
    pub param: Ty,
    pub deref: Option<u64>,
    pub arms: Vec<Arm>,
}

/// An arm. What its guard and its body are leaves no trace.
#[derive(Debug, Drop)]
pub struct Arm {
    pub attrs: Vec<Attr>,
    pub pat: Pat,
    pub guarded: bool,
}
