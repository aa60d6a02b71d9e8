//! Room for values.

ghost use Rattle.std.specs.Prelude.{◌≡◌, length, IfOk};

use crate::value::Value;
use ctf_list::List;
use std::alloc::AllocError;

/// Keeps so many values, or puts as many there. Mostly there are as many.
pub(crate) fn with_room(values: &mut List<Value>, count: usize) -> Result<(), AllocError>
    ensures { IfOk result (λ _. length values.new ≡ count) }
{
    if values.len() == count {
        return Ok(());
    }
    resize(values, count)
}

/// Keeps so many values, or puts as many there.
#[cold]
#[inline(never)]
fn resize(values: &mut List<Value>, count: usize) -> Result<(), AllocError>
    ensures { IfOk result (λ _. length values.new ≡ count) }
{
    values.truncate(count);
    let missing = count - values.len();
    for _more in 0..missing {
        values.push(Value::Unsigned(0))?;
    }
    Ok(())
}
