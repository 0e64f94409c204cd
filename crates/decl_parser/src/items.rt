//! Items.
ghost use Rattle.decl_syntax.specs.Units.{left};
ghost use Rattle.decl_syntax.specs.Reading.{Gives};
ghost use Rattle.decl_syntax.specs.Items.{kind_view, item_view};
ghost use Rattle.decl_parser.specs.ItemReading.{enum_at, struct_at, import_at, named_function_at, kind_at, item_at};

use crate::declarations::{head_at, struct_form_at, variants_at};
use crate::fields::skip_visibility;
use crate::functions::function_at;
use crate::names::{names_at, owned_name_at};
use crate::parts::attributes_at;
use decl_lexer::{Mark, Word};
use decl_syntax::{
    Cursor, EnumItem, FnItem, Item, ItemKind, Stop, StructItem, UseItem, behind_word, expect,
    expect_word, fitted,
};
use std::alloc::Global;

/// An item, and the place behind it. Where the tokens begin with none it answers `Syntax`; want of memory is
/// the one free answer.
///
/// Source: the Rust Reference, "Items"; which of them are our own choice.
#[tactic(auto, unfolding(crate::specs::ItemReading::item_at))]
pub fn item_at(alloc: Global, at: Cursor<'_>) -> Result<(Item, Cursor<'_>), Stop>
    ensures { Gives (λ x. (item_view x.0, left x.1)) result (item_at (left at.entry)) }
{
    let from = at.from();
    let (attrs, rest) = attributes_at(alloc, at)?;
    let rest = skip_visibility(alloc, rest)?;
    let (kind, rest) = kind_at(alloc, rest)?;
    Ok((Item { from, attrs, kind }, rest))
}

/// What stands behind the visibility of an item, and the place behind it.
#[tactic(auto, unfolding(crate::specs::ItemReading::kind_at))]
fn kind_at(alloc: Global, at: Cursor<'_>) -> Result<(ItemKind, Cursor<'_>), Stop>
    ensures { Gives (λ x. (kind_view x.0, left x.1)) result (kind_at (left at.entry)) }
{
    if let Some(_) = behind_word(at, Word::Enum) {
        return enum_at(alloc, at);
    }
    if let Some(_) = behind_word(at, Word::Struct) {
        return struct_at(alloc, at);
    }
    match behind_word(at, Word::Use) {
        Some(_) => import_at(alloc, at),
        None => named_function_at(alloc, at),
    }
}

/// An enum, and the place behind it.
#[tactic(auto, unfolding(crate::specs::ItemReading::enum_at))]
fn enum_at(alloc: Global, at: Cursor<'_>) -> Result<(ItemKind, Cursor<'_>), Stop>
    ensures { Gives (λ x. (kind_view x.0, left x.1)) result (enum_at (left at.entry)) }
{
    let (name, rest) = head_at(Word::Enum, at)?;
    let rest = expect(rest, Mark::OpenCurly)?;
    let (variants, rest) = variants_at(alloc, rest)?;
    let variants = fitted(variants);
    Ok((ItemKind::Enum(EnumItem { name, variants }), rest))
}

/// A struct, and the place behind it.
#[tactic(auto, unfolding(crate::specs::ItemReading::struct_at))]
fn struct_at(alloc: Global, at: Cursor<'_>) -> Result<(ItemKind, Cursor<'_>), Stop>
    ensures { Gives (λ x. (kind_view x.0, left x.1)) result (struct_at (left at.entry)) }
{
    let (name, rest) = head_at(Word::Struct, at)?;
    let (form, rest) = struct_form_at(alloc, rest)?;
    Ok((ItemKind::Struct(StructItem { name, form }), rest))
}

/// An import, and the place behind it.
#[tactic(auto, unfolding(crate::specs::ItemReading::import_at))]
fn import_at(alloc: Global, at: Cursor<'_>) -> Result<(ItemKind, Cursor<'_>), Stop>
    ensures { Gives (λ x. (kind_view x.0, left x.1)) result (import_at (left at.entry)) }
{
    let rest = expect_word(at, Word::Use)?;
    let (owner, rest) = owned_name_at(rest)?;
    let rest = expect(rest, Mark::PathSeparator)?;
    let (names, rest) = names_at(alloc, rest)?;
    let rest = expect(rest, Mark::Semicolon)?;
    Ok((ItemKind::Import(UseItem { owner, names }), rest))
}

/// A function, and the place behind it.
#[tactic(auto, unfolding(crate::specs::ItemReading::named_function_at))]
fn named_function_at(alloc: Global, at: Cursor<'_>) -> Result<(ItemKind, Cursor<'_>), Stop>
    ensures { Gives (λ x. (kind_view x.0, left x.1)) result (named_function_at (left at.entry)) }
{
    let (name, rest) = head_at(Word::Fn, at)?;
    let (body, rest) = function_at(alloc, rest)?;
    let kind = ItemKind::Function(FnItem {
        name,
        param: body.param,
        deref: body.deref,
        arms: body.arms,
    });
    Ok((kind, rest))
}
