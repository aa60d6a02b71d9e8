//! Copies of values.

ghost use Rattle.std.specs.Prelude.{◌≡◌, IfOk};

use ctf_decode::Value;
use ctf_list::{Boxed, List, NoMemory};
use std::alloc::Global;

/// A copy of a value.
#[cycle(copy)]
pub(crate) fn copy(alloc: Global, value: &Value) -> Result<Value, NoMemory>
    ensures { IfOk result (λ copied. copied ≡ value.now) }
{
    match value {
        Value::Unsigned(number) => Ok(Value::Unsigned(*number)),
        Value::Signed(number) => Ok(Value::Signed(*number)),
        Value::Label(number) => Ok(Value::Label(*number)),
        Value::Text(bytes) => {
            let bytes = List::from_slice(alloc, bytes.as_slice())?;
            Ok(Value::Text(bytes))
        }
        Value::Group(members) => {
            let members = copy_each(alloc, members.as_slice())?;
            Ok(Value::Group(members))
        }
        Value::List(elements) => {
            let elements = copy_each(alloc, elements.as_slice())?;
            Ok(Value::List(elements))
        }
        Value::Choice(option, inner) => {
            let inner = copy(alloc, inner.get())?;
            let inner = Boxed::new(alloc, inner)?;
            Ok(Value::Choice(*option, inner))
        }
    }
}

/// Copies of values, in their order.
#[cycle(copy)]
fn copy_each(alloc: Global, values: &[Value]) -> Result<List<Value>, NoMemory>
    ensures { IfOk result (λ copied. copied ≡ values.now) }
{
    let mut copied = List::new(alloc);
    for value in values {
        copied.push(copy(alloc, value)?)?;
    }
    Ok(copied)
}
