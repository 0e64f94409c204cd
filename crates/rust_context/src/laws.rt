//! What a caller sees of the context of a table: the function changes nothing, and its contract is the law.
ghost use Rattle.std.specs.Prelude.{◌≡◌, ◌↔◌, Bool};
ghost use Rattle.match_model.specs.Values.{MValue};
ghost use Rattle.type_table.specs.TableContext.{TableValue, table_context};
ghost use Rattle.type_table.specs.Tables.{IsOf};
ghost use Rattle.type_table.specs.declared.table.TyId.{TyId};

use crate::RustCx;
use pat_context::PatCx;

/// The types of the context are the numbers of its table, their values are Rust's, and its answers are those of the
/// table's context.
pub fn context_is_the_tables<'t>(cx: &RustCx<'t>)
    ensures types { (ty : TyId) → ⟦<RustCx<'t> as PatCx>⟧.is_type cx.now ty ↔ IsOf cx.now.table.now ty }
    ensures values { (ty : TyId) (sure : Bool) (v : MValue)
        → ⟦<RustCx<'t> as PatCx>⟧.is_value cx.now ty sure v ↔ TableValue cx.now.table.now ty sure v }
    ensures context { ⟦<RustCx<'t> as PatCx>⟧.context cx.now ≡ table_context cx.now.table.now }
{}
