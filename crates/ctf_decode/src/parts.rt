//! The parts of values.

ghost use Rattle.std.specs.Prelude.{◌≡◌, map, option_map, Some};
ghost use Rattle.ctf_decode.specs.Values.{vals_of};
ghost use Rattle.ctf_decode.specs.Views.{val};
ghost use Rattle.ctf_decode.specs.Fields as fields;

use crate::value::Value;
use ctf_list::Boxed;

/// The members of a structure's value.
pub fn members_in(value: &Value) -> &[Value]
    ensures { vals_of (map val result.now) ≡ fields.members_in (val value.now) }
{
    match value {
        Value::Group(members) => members.as_slice(),
        Value::Unsigned(_) => &[],
        Value::Signed(_) => &[],
        Value::Label(_) => &[],
        Value::Text(_) => &[],
        Value::List(_) => &[],
        Value::Choice(_, _) => &[],
    }
}

/// The elements of an array's value.
pub fn elements_in(value: &Value) -> &[Value]
    ensures { vals_of (map val result.now) ≡ fields.elements_in (val value.now) }
{
    match value {
        Value::List(elements) => elements.as_slice(),
        Value::Unsigned(_) => &[],
        Value::Signed(_) => &[],
        Value::Label(_) => &[],
        Value::Text(_) => &[],
        Value::Group(_) => &[],
        Value::Choice(_, _) => &[],
    }
}

/// An option's number and value.
pub fn choice_in(value: &Value) -> Option<(usize, &Value)>
    ensures { option_map (λ c. (c.0, val c.1.now)) result ≡ fields.choice_in (val value.now) }
{
    match value {
        Value::Choice(option, inner) => Some((*option, inner.get())),
        Value::Unsigned(_) => None,
        Value::Signed(_) => None,
        Value::Label(_) => None,
        Value::Text(_) => None,
        Value::Group(_) => None,
        Value::List(_) => None,
    }
}
