//! The table of a file, or the first item that breaks a rule.
ghost use Rattle.std.specs.Prelude.{List, IfOk, IfErr, option_map};
ghost use Rattle.decl_syntax.specs.Items.{ItemTree, file_view};
ghost use Rattle.match_model.specs.declared.Width.{Width as AnyWidth};
ghost use Rattle.type_table.specs.Empty.{NoneEndless};
ghost use Rattle.type_table.specs.Faults.{Breaks, BreaksNone, LeastFault, IsFaultOf};
ghost use Rattle.type_table.specs.Possible.{program_in};
ghost use Rattle.type_table.specs.Readings.{fault_pair};
ghost use Rattle.type_table.specs.Tables.{IsDraftOf, IsTableOf};
ghost use Rattle.type_table.specs.Whole.{IsWhole};

use crate::cyclic::first_cyclic;
use crate::draft::{Draft, assemble};
use crate::endless::first_endless;
use crate::faults::{DeclFault, least_fault};
use crate::table::TypeTable;
use decl_syntax::File;
use match_model::Width;
use no_memory::NoMemory;
use std::alloc::Global;

impl TypeTable {
    /// The table of a file for this width of `usize` and `isize`, or the first item that breaks one of the rules 10 to
    /// 19 and 36, with the least rule that it breaks. Refused as want of memory are more than 2,147,483,647 items
    /// or types, and 4,294,967,296 parts of a tuple, variants of an enum or fields of a variant and more.
    pub fn build(alloc: Global, file: &File, width: Width) -> Result<TypeTable, DeclFault>
        ensures table { IfOk result (IsTableOf (file_view file.now) width) }
        ensures fault { IfErr result (IsFaultOf (file_view file.now) width) }
    {
        let draft = assemble(alloc, file, width)?;
        match draft_fault(alloc, file, &draft, width)? {
            Some((rule, item)) => Err(DeclFault::Rule {
                rule,
                item: item as u64,
                at: file.items[item].from,
            }),
            None => Ok(finished(draft)),
        }
    }
}

// The first item that breaks a rule, with the least rule that it breaks, as a pair of rule and item number.
fn draft_fault(
    alloc: Global,
    file: &File,
    draft: &Draft,
    width: Width,
) -> Result<Option<(u32, usize)>, NoMemory>
    requires { IsDraftOf (file_view file.now) width draft.now }
    ensures { IfOk result (λ best. LeastFault (Breaks (file_view file.now) width) (option_map fault_pair best)) }
{
    let nodes = draft.nodes.as_slice();
    let cyclic = first_cyclic(alloc, nodes, &draft.items, width)?;
    let endless = first_endless(alloc, nodes, &draft.items, width)?;
    least_fault(alloc, &draft.names, &file.items, width, cyclic, endless)
}

// The table of a draft in which no declared type is endless.
fn finished(draft: Draft) -> TypeTable
    requires whole { IsWhole draft.nodes.keys draft.items.items draft.values.items }
    requires finite { NoneEndless (program_in draft.width draft.nodes.keys draft.items.items) }
    ensures { (items : List ItemTree) (width : AnyWidth) → IsDraftOf items width draft → BreaksNone items width
        → IsTableOf items width result }
{
    let Draft {
        width,
        nodes,
        items,
        names,
        values,
        finder,
    } = draft;
    TypeTable {
        width,
        nodes,
        items,
        names,
        values,
        finder,
    }
}
