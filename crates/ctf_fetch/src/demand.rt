//! Values of a packet's header and context, decoded while their bytes come: the bytes of a value are taken at once
//! where it is known how many they are, others once they are needed, and decoding goes on where it stopped for them, so
//! that the time is linear in the bytes.

ghost use Rattle.std.specs.Prelude.{◌+◌, ◌*◌, ◌≤◌, min, max, length, IfOk};
ghost use Rattle.ctf_packet.specs.Scopes.{longest};
ghost use Rattle.ctf_fetch.specs.Demand.{found_at, members_at, elements_at, options_at, IsFound, Failed};
ghost use Rattle.ctf_fetch.specs.Failing.{IfFault};
ghost use Rattle.ctf_fetch.specs.Fetching.{longest_bytes};
ghost use Rattle.ctf_fetch.specs.Keeping.{Keeps};

use crate::intake::Intake;
use crate::least::least_end;
use crate::needed::{leaf_on_demand, opening_end, string_on_demand, whole_on_demand};
use ctf_bits::Source;
use ctf_class::{Class, Kind, Member};
use ctf_decode::{Decoded, Frame, MOST_VALUES, Scopes, Value, length_at, option_at};
use ctf_list::{Boxed, List};
use ctf_packet::StreamFault;
use std::alloc::Global;

/// Where a value is decoded: the values of the scopes before, the members of the structures around it, the bit
/// at which the value before ends, and how many values were begun so far.
#[derive(Drop)]
pub(crate) struct ValuePlace<'a> {
    pub(crate) alloc: Global,
    pub(crate) scopes: &'a Scopes,
    pub(crate) frame: &'a Frame<'a>,
    pub(crate) end: u64,
    pub(crate) spent: u64,
}

/// The value of a class that is next at a place, for which bytes are taken as they are needed.
///
/// An error is the fault of the header or context: F1, F5, F8, F11 or F13; or `NoMemory`.
#[cycle(demand)]
pub(crate) fn value_on_demand<S: Source>(
    class: &Class,
    place: &ValuePlace<'_>,
    intake: &mut Intake<'_, S>,
) -> Result<Decoded, StreamFault>
    requires start { place.now.end ≤ min (8 * length intake.old.buffer.now) longest }
    requires few { length intake.old.buffer.now ≤ longest_bytes }
    ensures keeps { Keeps S.Source intake.old intake.new }
    ensures few { length intake.new.buffer.now ≤ longest_bytes }
    ensures value { IfOk result (IsFound (found_at class.now place.now intake.new.buffer.now)) }
    ensures within { IfOk result (λ d. d.end ≤ min (8 * length intake.new.buffer.now) longest) }
    ensures forward { IfOk result (λ d. place.now.end ≤ d.end) }
    ensures near { IfOk result (λ d.
        8 * length intake.new.buffer.now ≤ max (8 * length intake.old.buffer.now) (d.end + 7)) }
    ensures faulty { IfFault S.Source intake.old intake.new result
        (λ ending all. Failed ending (found_at class.now place.now all)) }
{
    if let Some(end) = least_end(class, place) {
        return whole_on_demand(class, end, place, intake);
    }
    match &class.kind {
        Kind::Structure { members } => {
            let inner = opening_end(class.align, place, intake)?;
            members_on_demand(members.as_slice(), &inner, intake)
        }
        Kind::Array { length, element } => {
            let element = element.get();
            let count = length_at(length, place.scopes, place.frame);
            let inner = opening_end(element.align, place, intake)?;
            elements_on_demand(element, count, &inner, intake)
        }
        Kind::Variant {
            tag,
            choices,
            options,
        } => {
            let chosen = option_at(tag, choices, place.scopes, place.frame);
            option_on_demand(options.as_slice(), chosen, place, intake)
        }
        Kind::String => string_on_demand(class, place, intake),
        Kind::Integer(_) => leaf_on_demand(class, place, intake),
        Kind::Enumeration { container, labels } => { leaf_on_demand(class, place, intake) }
        Kind::Text { length } => leaf_on_demand(class, place, intake),
    }
}

/// The structure of these members, which was opened, each seeing those before it.
#[cycle(demand)]
fn members_on_demand<S: Source>(
    members: &[Member],
    place: &ValuePlace<'_>,
    intake: &mut Intake<'_, S>,
) -> Result<Decoded, StreamFault>
    requires start { place.now.end ≤ min (8 * length intake.old.buffer.now) longest }
    requires few { length intake.old.buffer.now ≤ longest_bytes }
    ensures keeps { Keeps S.Source intake.old intake.new }
    ensures few { length intake.new.buffer.now ≤ longest_bytes }
    ensures value { IfOk result (IsFound (members_at members.now place.now intake.new.buffer.now)) }
    ensures within { IfOk result (λ d. d.end ≤ min (8 * length intake.new.buffer.now) longest) }
    ensures forward { IfOk result (λ d. place.now.end ≤ d.end) }
    ensures near { IfOk result (λ d.
        8 * length intake.new.buffer.now ≤ max (8 * length intake.old.buffer.now) (d.end + 7)) }
    ensures faulty { IfFault S.Source intake.old intake.new result
        (λ ending all. Failed ending (members_at members.now place.now all)) }
{
    let mut values = List::new(place.alloc);
    let mut end = place.end;
    let mut spent = place.spent;
    for member in members {
        let frame = Frame::Within(values.as_slice(), place.frame);
        let inner = ValuePlace {
            alloc: place.alloc,
            scopes: place.scopes,
            frame: &frame,
            end,
            spent,
        };
        let next = value_on_demand(&member.class, &inner, intake)?;
        end = next.end;
        spent = next.spent;
        let Ok(()) = values.push(next.value) else {
            return Err(StreamFault::NoMemory);
        };
    }
    let value = Value::Group(values);
    Ok(Decoded { value, end, spent })
}

/// The array of so many elements, which was opened.
#[cycle(demand)]
fn elements_on_demand<S: Source>(
    element: &Class,
    count: u64,
    place: &ValuePlace<'_>,
    intake: &mut Intake<'_, S>,
) -> Result<Decoded, StreamFault>
    requires start { place.now.end ≤ min (8 * length intake.old.buffer.now) longest }
    requires few { length intake.old.buffer.now ≤ longest_bytes }
    ensures keeps { Keeps S.Source intake.old intake.new }
    ensures few { length intake.new.buffer.now ≤ longest_bytes }
    ensures value { let found = elements_at element.now count place.now intake.new.buffer.now in
        IfOk result (IsFound found) }
    ensures within { IfOk result (λ d. d.end ≤ min (8 * length intake.new.buffer.now) longest) }
    ensures forward { IfOk result (λ d. place.now.end ≤ d.end) }
    ensures near { IfOk result (λ d.
        8 * length intake.new.buffer.now ≤ max (8 * length intake.old.buffer.now) (d.end + 7)) }
    ensures faulty { IfFault S.Source intake.old intake.new result
        (λ ending all. Failed ending (elements_at element.now count place.now all)) }
{
    let mut values = List::new(place.alloc);
    let mut end = place.end;
    let mut spent = place.spent;
    for _more in 0..count {
        let inner = ValuePlace {
            alloc: place.alloc,
            scopes: place.scopes,
            frame: place.frame,
            end,
            spent,
        };
        let next = value_on_demand(element, &inner, intake)?;
        end = next.end;
        spent = next.spent;
        let Ok(()) = values.push(next.value) else {
            return Err(StreamFault::NoMemory);
        };
    }
    let value = Value::List(values);
    Ok(Decoded { value, end, spent })
}

/// The chosen option of a variant.
#[cycle(demand)]
fn option_on_demand<S: Source>(
    options: &[Member],
    chosen: Option<usize>,
    place: &ValuePlace<'_>,
    intake: &mut Intake<'_, S>,
) -> Result<Decoded, StreamFault>
    requires start { place.now.end ≤ min (8 * length intake.old.buffer.now) longest }
    requires few { length intake.old.buffer.now ≤ longest_bytes }
    ensures keeps { Keeps S.Source intake.old intake.new }
    ensures few { length intake.new.buffer.now ≤ longest_bytes }
    ensures value { let found = options_at options.now chosen place.now intake.new.buffer.now in
        IfOk result (IsFound found) }
    ensures within { IfOk result (λ d. d.end ≤ min (8 * length intake.new.buffer.now) longest) }
    ensures forward { IfOk result (λ d. place.now.end ≤ d.end) }
    ensures near { IfOk result (λ d.
        8 * length intake.new.buffer.now ≤ max (8 * length intake.old.buffer.now) (d.end + 7)) }
    ensures faulty { IfFault S.Source intake.old intake.new result
        (λ ending all. Failed ending (options_at options.now chosen place.now all)) }
{
    if place.spent >= MOST_VALUES {
        return Err(StreamFault::TooManyValues);
    }
    let Some(i) = chosen else {
        return Err(StreamFault::NoOption);
    };
    if i >= options.len() {
        return Err(StreamFault::NoOption);
    }
    let inner = ValuePlace {
        alloc: place.alloc,
        scopes: place.scopes,
        frame: place.frame,
        end: place.end,
        spent: place.spent + 1,
    };
    let next = value_on_demand(&options[i].class, &inner, intake)?;
    let Ok(value) = Boxed::new(place.alloc, next.value) else {
        return Err(StreamFault::NoMemory);
    };
    Ok(Decoded {
        value: Value::Choice(i, value),
        end: next.end,
        spent: next.spent,
    })
}
