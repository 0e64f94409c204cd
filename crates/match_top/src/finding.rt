// The function of a name.
ghost use Rattle.std.specs.Prelude.{◌≡◌, map, option_map};
ghost use Rattle.decl_syntax.specs.Items.{item_view, kind_view};
ghost use Rattle.match_top.specs.Outcomes.{function_named};
ghost use Rattle.match_top.specs.Reports.{function_at, functions_of};
ghost use Rattle.match_top.specs.Selections.{numbered_view};

use decl_syntax::{FnItem, Item, ItemKind};

/// A function, with the number of its item from 0.
#[derive(Clone, Copy)]
pub(crate) struct Numbered<'f> {
    pub number: u64,
    pub function: &'f FnItem,
}

/// The function of this name, with the number of its item.
pub(crate) fn function_named<'f>(items: &'f [Item], name: &str) -> Option<Numbered<'f>>
    ensures { option_map numbered_view result ≡ function_named (functions_of (map item_view items.now)) name.now }
{
    for (number, item) in items.iter().enumerate() {
        match function_at(number as u64, item, name) {
            Some(found) => return Some(found),
            None => {}
        }
    }
    None
}

// The item with this number, if it is a function of this name.
fn function_at<'f>(number: u64, item: &'f Item, name: &str) -> Option<Numbered<'f>>
    ensures { option_map numbered_view result ≡ function_named (function_at number (kind_view item.now.kind)) name.now }
{
    match &item.kind {
        ItemKind::Enum(_) => None,
        ItemKind::Struct(_) => None,
        ItemKind::Import(_) => None,
        ItemKind::Function(f) => {
            if f.name.as_str() != name {
                return None;
            }
            Some(Numbered {
                number,
                function: f,
            })
        }
    }
}
