//! What a route finds: lengths, tags and options.

ghost use Rattle.std.specs.Prelude.{◌≡◌, map, option_map, option_and_then, slice_get, Some};
ghost use Rattle.std.specs.Option.{option_copied};
ghost use Rattle.ctf_decode.specs.Values as values;
ghost use Rattle.ctf_decode.specs.Views.{val, env, earlier};
ghost use Rattle.ctf_decode.specs.Routes as routes;

use crate::place::Frame;
use crate::scopes::Scopes;
use crate::value::Value;
use ctf_class::{Choices, Length, Origin, Route, Scope};

/// The earlier members of the structure that lies so many structures further out.
fn around<'a>(frame: &'a Frame<'a>, out: u32) -> Option<&'a [Value]>
    ensures { option_map (λ vs. map val vs.now) result ≡ slice_get (env frame.now) out }
{
    match frame {
        Frame::Top => None,
        Frame::Within(values, outer) => {
            if out == 0 {
                Some(values)
            } else {
                around(outer, out - 1)
            }
        }
    }
}

/// The member at an index.
fn nth(members: &[Value], index: usize) -> Option<&Value>
    ensures { option_copied result ≡ slice_get members.now index }
{
    members.get(index)
}

/// The member that some steps lead to, through structures only.
fn down<'a>(steps: &[u32], value: &'a Value) -> Option<&'a Value>
    ensures { option_map val (option_copied result) ≡ values.down steps.now (val value.now) }
{
    let mut at = value;
    for step in steps {
        let Value::Group(members) = at else {
            return None;
        };
        at = nth(members.as_slice(), *step as usize)?;
    }
    Some(at)
}

/// The value that some steps lead to in an earlier scope.
fn in_scope<'a>(scopes: &'a Scopes, scope: Scope, steps: &[u32]) -> Option<&'a Value>
    ensures { option_map val (option_copied result) ≡
        option_and_then (values.down steps.now) (earlier scopes.now scope) }
{
    down(steps, scopes.get(scope)?)
}

/// The value that some steps lead to among the earlier members of one structure.
fn inside<'a>(members: &'a [Value], steps: &[u32]) -> Option<&'a Value>
    ensures { option_map val (option_copied result) ≡
        routes.inside steps.now (map val members.now) }
{
    match steps {
        [] => None,
        [first, rest @ ..] => member(members, *first as usize, rest),
    }
}

/// The value that some steps lead to in one of these members.
fn member<'a>(members: &'a [Value], first: usize, rest: &[u32]) -> Option<&'a Value>
    ensures { option_map val (option_copied result) ≡
        option_and_then (values.down rest.now) (option_map val (slice_get members.now first)) }
{
    down(rest, members.get(first)?)
}

/// The value that a route leads to, if there is one (CTF 1.8.3, section 7.3.2).
#[tactic(auto, unfolding(crate::specs::Routes::found))]
pub fn value_at<'a>(route: &Route, scopes: &'a Scopes, frame: &'a Frame<'a>) -> Option<&'a Value>
    ensures { option_map val (option_copied result) ≡
        routes.found route.now (earlier scopes.now) (env frame.now) }
{
    let steps = route.steps.as_slice();
    match route.origin {
        Origin::Earlier(scope) => in_scope(scopes, scope, steps),
        Origin::Enclosing(out) => inside(around(frame, out)?, steps),
    }
}

/// How many elements an array has; 0 where no field says it.
pub fn length_at(length: &Length, scopes: &Scopes, frame: &Frame<'_>) -> u64
    ensures { result ≡ routes.length_of length.now (earlier scopes.now) (env frame.now) }
{
    match length {
        Length::Fixed(count) => *count,
        Length::Field(route) => value_at(route, scopes, frame).map_or(0, number_of),
    }
}

/// An unsigned number; 0 of another value.
fn number_of(value: &Value) -> u64
    ensures { result ≡ routes.number_of (Some (val value.now)) }
{
    if let Value::Unsigned(number) = value {
        return *number;
    }
    0
}

/// The number of an enumeration; `None` where the value is none.
pub(crate) fn tag_of(value: &Value) -> Option<i128>
    ensures { result ≡ routes.tag_of (Some (val value.now)) }
{
    if let Value::Label(tag) = value {
        return Some(*tag);
    }
    None
}

/// The option that a variant's tag names.
pub fn option_at(
    tag: &Route,
    choices: &Choices,
    scopes: &Scopes,
    frame: &Frame<'_>,
) -> Option<usize>
    ensures { result ≡ routes.option_at tag.now choices.now (earlier scopes.now) (env frame.now) }
{
    let value = value_at(tag, scopes, frame)?;
    choices.option(tag_of(value)?)
}
