// Values.
ghost use Rattle.std.specs.Prelude.{◌≡◌, map, IfOk};
ghost use Rattle.tree_eval.specs.Views.{plain_value};

use no_memory::NoMemory;
use range_split::Num;
use std::alloc::Global;

/// A value that a scrutinee may have, as a finite tree. Copying and dropping one go down level by level.
#[derive(Debug, Drop)]
pub enum Value {
    Flag(bool),
    /// A number; a character is its scalar value.
    Num(Num),
    Text(String),
    /// A tuple or struct, which has the variant 0, or a variant by its number from 0, with its parts in order.
    Node { variant: u32, parts: Vec<Value> },
    /// A reference, with what it points to.
    Point { mutable: bool, inner: Box<Value> },
    /// The items of a slice or array.
    Row(Vec<Value>),
    /// A value of an opaque type.
    Thing,
    /// A variant that is not declared yet.
    Later,
    /// What stands at a place of a type without constructors, where no valid value need be.
    Unseen,
}

impl Value {
    /// The same value again. The only error is want of memory.
    pub fn copy(&self, alloc: Global) -> Result<Value, NoMemory>
        ensures { IfOk result (λ v. plain_value v ≡ plain_value self.now) }
    {
        copy_value(alloc, self)
    }
}

// The same value again.
#[cycle(copying)]
fn copy_value(alloc: Global, v: &Value) -> Result<Value, NoMemory>
    ensures { IfOk result (λ r. plain_value r ≡ plain_value v.now) }
{
    match v {
        Value::Flag(b) => Ok(Value::Flag(*b)),
        Value::Num(n) => Ok(Value::Num(*n)),
        Value::Text(text) => Ok(Value::Text(String::from_str(alloc, text.as_str())?)),
        Value::Node { variant, parts } => {
            let parts = copy_values(alloc, parts)?;
            Ok(Value::Node {
                variant: *variant,
                parts,
            })
        }
        Value::Point { mutable, inner } => {
            let new = copy_value(alloc, inner)?;
            Ok(Value::Point {
                mutable: *mutable,
                inner: Box::new(alloc, new)?,
            })
        }
        Value::Row(items) => Ok(Value::Row(copy_values(alloc, items)?)),
        Value::Thing => Ok(Value::Thing),
        Value::Later => Ok(Value::Later),
        Value::Unseen => Ok(Value::Unseen),
    }
}

// The same values again.
#[cycle(copying)]
fn copy_values(alloc: Global, values: &[Value]) -> Result<Vec<Value>, NoMemory>
    ensures { IfOk result (λ r. map plain_value r.items ≡ map plain_value values.now) }
{
    let mut all = Vec::with_capacity(alloc, values.len())?;
    for v in values {
        let new = copy_value(alloc, v)?;
        all.push(new)?;
    }
    Ok(all)
}
