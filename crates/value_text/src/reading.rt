// Values read from texts.
ghost use Rattle.std.specs.Prelude.{IfOk, IfErr, IsTrue, ◌≡◌};
ghost use Rattle.match_model.specs.Typing.{is_value};
ghost use Rattle.pat_context.specs.Views.{is_sure};
ghost use Rattle.tree_eval.specs.Views.{plain_value};
ghost use Rattle.type_table.specs.Tables.{IsOf, table_program, table_type};
ghost use Rattle.value_text.specs.Names.{IsOfFile};
ghost use Rattle.value_text.specs.Reading.{IsReadValue, FaultIs};

use crate::meaning::mean;
use pat_context::Validity;
use std::alloc::Global;
use tree_eval::Value;
use type_table::{TyId, TypeTable};
use value_syntax::{ReadFault, read_written};

/// Why no value was read: by rule 40 the text writes no value, by rule 41 the value that it writes is none of the type
/// there; or memory ran out.
#[derive(Debug, Drop)]
pub enum ValueFault {
    Rule { rule: u32 },
    NoMemory,
}

/// The value of a type of the table that a text writes, at a place of this validity. Rule 40 comes exactly where the
/// text writes no value, rule 41 exactly where it writes one that is no value of the type there.
///
/// Its time grows as the text does, and for each name of a variant or field as the enum has variants, or the form has
/// fields. Values are 64 levels deep at most, as their grammar says.
pub fn read_value(
    alloc: Global,
    table: &TypeTable,
    ty: TyId,
    validity: Validity,
    text: &str,
) -> Result<Value, ValueFault>
    requires of { IsOf table.now ty }
    requires file { IsOfFile table.now }
    ensures read { IfOk result (λ v. IsReadValue (table_program table.now) (is_sure validity)
        (table_type table.now ty) text.now (plain_value v)) }
    ensures value { IfOk result (λ v. IsTrue (is_value (table_program table.now) (is_sure validity)
        (table_type table.now ty) (plain_value v))) }
    ensures fault { IfErr result (FaultIs (table_program table.now) (is_sure validity)
        (table_type table.now ty) text.now) }
{
    let written = match read_written(alloc, text) {
        Ok(written) => written,
        Err(ReadFault::Syntax) => return Err(ValueFault::Rule { rule: 40 }),
        Err(ReadFault::NoMemory) => return Err(ValueFault::NoMemory),
    };
    match mean(alloc, table, ty, is_sure(validity), &written) {
        Ok(Some(value)) => Ok(value),
        Ok(None) => Err(ValueFault::Rule { rule: 41 }),
        Err(_) => Err(ValueFault::NoMemory),
    }
}

// Whether the place is sure to hold a valid value.
fn is_sure(validity: Validity) -> bool
    ensures { result ≡ is_sure validity }
{
    match validity {
        Validity::Sure => true,
        Validity::Unsure => false,
    }
}
