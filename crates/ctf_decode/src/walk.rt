//! Values of classes, made in place.

ghost use Rattle.std.specs.Prelude.{◌≡◌, ◌+◌, ◌≤◌, ◌<◌, [], ◌∷◌, length, map, take, drop, IfOk};
ghost use Rattle.std.specs.Int.{next_multiple_of};
ghost use Rattle.ctf_decode.specs.Forms.{parts_of};
ghost use Rattle.ctf_decode.specs.Views.{form, member_part, val, env, input};
ghost use Rattle.ctf_decode.specs.Walk.{walk, walk_members, walk_option, repeat, open_at, and_then, begin, with_option, as_group, as_list, as_choice};
ghost use Rattle.ctf_decode.specs.Gives.{Gives, GivesNext};

use crate::fault::DecodeFault;
use crate::find::{length_at, option_at};
use crate::leaf::{enumeration_into, integer_into};
use crate::octets::{are_octets, is_octet, octets_into};
use crate::place::{Around, Cursor, Frame, Stopped, begin_at};
use crate::plain::plain_members_into;
use crate::room::with_room;
use crate::scopes::MOST_VALUES;
use crate::text::{characters_into, string_into};
use crate::value::Value;
use ctf_class::{Align, Class, Kind, Member};
use ctf_list::{Boxed, List};
use std::mem;

/// Makes the value of a class at a place the value.
#[cycle(walk)]
pub(crate) fn value_into(
    class: &Class,
    around: &Around<'_>,
    at: &mut Cursor,
    value: &mut Value,
) -> Result<(), Stopped>
    requires start { at.old.end ≤ around.now.packet.content }
    ensures gives { Gives result at.new (val value.new)
        (walk (form class.now) (input around.now.packet) (env around.now.frame.now)
        at.old.end at.old.spent) }
    ensures within { IfOk result (λ _. (at.new.end ≤ around.now.packet.content) ×
        (at.new.spent ≤ MOST_VALUES)) }
{
    match &class.kind {
        Kind::Integer(integer) => integer_into(integer, class.align, &around.packet, at, value),
        Kind::Enumeration { container, labels } => enumeration_into(
            container,
            class.align,
            &around.packet,
            at,
            value,
        ),
        Kind::String => string_into(around.alloc, &around.packet, at, value),
        Kind::Structure { members } => {
            structure_into(class.align, members.as_slice(), around, at, value)
        }
        Kind::Variant {
            tag,
            choices,
            options,
        } => {
            let chosen = option_at(tag, choices, around.packet.scopes, around.frame);
            choice_into(options.as_slice(), chosen, around, at, value)
        }
        Kind::Array { length, element } => {
            let count = length_at(length, around.packet.scopes, around.frame);
            array_into(element.get(), count, around, at, value)
        }
        Kind::Text { length } => {
            let count = length_at(length, around.packet.scopes, around.frame);
            characters_into(around.alloc, count, &around.packet, at, value)
        }
    }
}

/// Decodes the value of a scope in place of another. Mostly it is a structure, so that is looked at first.
#[inline(always)]
pub(crate) fn scope_into(
    class: &Class,
    around: &Around<'_>,
    at: &mut Cursor,
    value: &mut Value,
) -> Result<(), Stopped>
    requires start { at.old.end ≤ around.now.packet.content }
    ensures gives { Gives result at.new (val value.new)
        (walk (form class.now) (input around.now.packet) (env around.now.frame.now)
        at.old.end at.old.spent) }
    ensures within { IfOk result (λ _. (at.new.end ≤ around.now.packet.content) ×
        (at.new.spent ≤ MOST_VALUES)) }
{
    if let Kind::Structure { members } = &class.kind {
        let members = members.as_slice();
        return structure_into(class.align, members, around, at, value);
    }
    value_into(class, around, at, value)
}

/// Makes the structure at a place the value.
#[cycle(walk)]
#[inline(always)]
fn structure_into(
    align: Align,
    members: &[Member],
    around: &Around<'_>,
    at: &mut Cursor,
    value: &mut Value,
) -> Result<(), Stopped>
    requires start { at.old.end ≤ around.now.packet.content }
    ensures gives { let b = next_multiple_of at.old.end align in
        Gives result at.new (val value.new)
        (begin (input around.now.packet) at.old.spent (open_at (input around.now.packet) b (and_then
        (walk_members (parts_of (map member_part members.now)) (input around.now.packet)
        (env around.now.frame.now) [] b (at.old.spent + 1)) as_group))) }
    ensures within { IfOk result (λ _. (at.new.end ≤ around.now.packet.content) ×
        (at.new.spent ≤ MOST_VALUES)) }
{
    if at.spent >= MOST_VALUES {
        return Err(at.stop_full());
    }
    let begin = begin_at(at.end, align);
    if begin > around.packet.content {
        return Err(at.stop_beyond(begin));
    }
    at.end = begin;
    at.spent += 1;
    if let Value::Group(values) = value {
        return members_into(members, around, at, values);
    }
    new_group_into(members, around, at, value)
}

/// Makes a structure of these members the value, of which no memory is used again.
#[cycle(walk)]
#[inline(never)]
fn new_group_into(
    members: &[Member],
    around: &Around<'_>,
    at: &mut Cursor,
    value: &mut Value,
) -> Result<(), Stopped>
    requires start { at.old.end ≤ around.now.packet.content }
    requires spent { at.old.spent ≤ MOST_VALUES }
    ensures gives { Gives result at.new (val value.new) (and_then
        (walk_members (parts_of (map member_part members.now)) (input around.now.packet)
        (env around.now.frame.now) [] at.old.end at.old.spent) as_group) }
    ensures within { IfOk result (λ _. (at.new.end ≤ around.now.packet.content) ×
        (at.new.spent ≤ MOST_VALUES)) }
{
    let mut values = List::new(around.alloc);
    members_into(members, around, at, &mut values)?;
    *value = Value::Group(values);
    Ok(())
}

/// Makes the members of a structure the values, each seeing those before it.
#[cycle(walk)]
fn members_into(
    members: &[Member],
    around: &Around<'_>,
    at: &mut Cursor,
    values: &mut List<Value>,
) -> Result<(), Stopped>
    requires start { at.old.end ≤ around.now.packet.content }
    requires spent { at.old.spent ≤ MOST_VALUES }
    ensures gives { Gives result at.new (map val values.new)
        (walk_members (parts_of (map member_part members.now)) (input around.now.packet)
        (env around.now.frame.now) [] at.old.end at.old.spent) }
    ensures within { IfOk result (λ _. (at.new.end ≤ around.now.packet.content) ×
        (at.new.spent ≤ MOST_VALUES)) }
{
    let Ok(()) = with_room(values, members.len()) else {
        return Err(at.stop_refused());
    };
    each_member_into(members, around, at, values.as_mut_slice())
}

/// Makes the members of a structure the values, of which there are as many. Mostly the plain ones are all.
#[cycle(walk)]
fn each_member_into(
    members: &[Member],
    around: &Around<'_>,
    at: &mut Cursor,
    values: &mut [Value],
) -> Result<(), Stopped>
    requires start { at.old.end ≤ around.now.packet.content }
    requires spent { at.old.spent ≤ MOST_VALUES }
    requires room { length values.old ≡ length members.now }
    ensures gives { Gives result at.new (map val values.new)
        (walk_members (parts_of (map member_part members.now)) (input around.now.packet)
        (env around.now.frame.now) [] at.old.end at.old.spent) }
    ensures within { IfOk result (λ _. (at.new.end ≤ around.now.packet.content) ×
        (at.new.spent ≤ MOST_VALUES)) }
{
    let first = plain_members_into(members, &around.packet, at, values);
    if first >= members.len() {
        return Ok(());
    }
    members_from(members, first, around, at, values)
}

/// Makes the members of a structure from one on the values, those before it being there. It is not inlined, so that
/// fewer registers are saved where there is no such member.
#[cycle(walk)]
#[inline(never)]
fn members_from(
    members: &[Member],
    first: usize,
    around: &Around<'_>,
    at: &mut Cursor,
    values: &mut [Value],
) -> Result<(), Stopped>
    requires start { at.old.end ≤ around.now.packet.content }
    requires spent { at.old.spent ≤ MOST_VALUES }
    requires room { length values.old ≡ length members.now }
    requires first { first ≤ length members.now }
    ensures gives { Gives result at.new (map val values.new)
        (walk_members (parts_of (map member_part (drop first members.now)))
        (input around.now.packet) (env around.now.frame.now) (map val (take first values.old))
        at.old.end at.old.spent) }
    ensures within { IfOk result (λ _. (at.new.end ≤ around.now.packet.content) ×
        (at.new.spent ≤ MOST_VALUES)) }
{
    for i in first..members.len() {
        member_into(&members[i].class, around, at, values, i)?;
    }
    Ok(())
}

/// Makes the next member of a structure the value at an index, those before it being there. Mostly it is an integer, or
/// else a string: two comparisons tell these apart, where many classes would be told apart by a table of jumps, which a
/// processor foresees worse.
#[cycle(walk)]
#[inline(always)]
fn member_into(
    class: &Class,
    around: &Around<'_>,
    at: &mut Cursor,
    values: &mut [Value],
    i: usize,
) -> Result<(), Stopped>
    requires start { at.old.end ≤ around.now.packet.content }
    requires room { i < length values.old }
    ensures gives { GivesNext result at.new (map val (take i values.old))
        (map val (take (i + 1) values.new))
        (walk (form class.now) (input around.now.packet)
        (map val (take i values.old) ∷ env around.now.frame.now) at.old.end at.old.spent) }
    ensures within { IfOk result (λ _. (at.new.end ≤ around.now.packet.content) ×
        (at.new.spent ≤ MOST_VALUES)) }
{
    if let Kind::Integer(integer) = &class.kind {
        return integer_into(integer, class.align, &around.packet, at, &mut values[i]);
    }
    if let Kind::String = &class.kind {
        return string_into(around.alloc, &around.packet, at, &mut values[i]);
    }
    other_member_into(class, around, at, values, i)
}

/// Decodes a member that is neither an integer nor a string in place of another value. Of those before it an array of
/// bytes asks for its length alone, so its value is not taken out.
#[cycle(walk)]
#[inline(never)]
fn other_member_into(
    class: &Class,
    around: &Around<'_>,
    at: &mut Cursor,
    values: &mut [Value],
    i: usize,
) -> Result<(), Stopped>
    requires start { at.old.end ≤ around.now.packet.content }
    requires room { i < length values.old }
    ensures gives { GivesNext result at.new (map val (take i values.old))
        (map val (take (i + 1) values.new))
        (walk (form class.now) (input around.now.packet)
        (map val (take i values.old) ∷ env around.now.frame.now) at.old.end at.old.spent) }
    ensures within { IfOk result (λ _. (at.new.end ≤ around.now.packet.content) ×
        (at.new.spent ≤ MOST_VALUES)) }
{
    if let Kind::Text { length } = &class.kind {
        let inner = Frame::Within(&values[..i], &*around.frame);
        let count = length_at(length, around.packet.scopes, &inner);
        return characters_into(around.alloc, count, &around.packet, at, &mut values[i]);
    }
    if let Kind::Enumeration { container, labels } = &class.kind {
        return enumeration_into(container, class.align, &around.packet, at, &mut values[i]);
    }
    if let Kind::Array { length, element } = &class.kind {
        if is_octet(element.get()) {
            let inner = Frame::Within(&values[..i], &*around.frame);
            let count = length_at(length, around.packet.scopes, &inner);
            return array_into(element.get(), count, around, at, &mut values[i]);
        }
    }
    inner_member_into(class, around, at, values, i)
}

/// Makes the next member of a structure the value at an index, where it may see those before it. It is
/// taken out meanwhile.
#[cycle(walk)]
#[inline(never)]
fn inner_member_into(
    class: &Class,
    around: &Around<'_>,
    at: &mut Cursor,
    values: &mut [Value],
    i: usize,
) -> Result<(), Stopped>
    requires start { at.old.end ≤ around.now.packet.content }
    requires room { i < length values.old }
    ensures gives { GivesNext result at.new (map val (take i values.old))
        (map val (take (i + 1) values.new))
        (walk (form class.now) (input around.now.packet)
        (map val (take i values.old) ∷ env around.now.frame.now) at.old.end at.old.spent) }
    ensures within { IfOk result (λ _. (at.new.end ≤ around.now.packet.content) ×
        (at.new.spent ≤ MOST_VALUES)) }
{
    let mut value = mem::replace(&mut values[i], Value::Unsigned(0));
    let frame = Frame::Within(&values[..i], &*around.frame);
    let inner = Around {
        alloc: around.alloc,
        packet: around.packet,
        frame: &frame,
    };
    value_into(class, &inner, at, &mut value)?;
    values[i] = value;
    Ok(())
}

/// Makes the array of so many elements at a place the value.
#[cycle(walk)]
fn array_into(
    element: &Class,
    count: u64,
    around: &Around<'_>,
    at: &mut Cursor,
    value: &mut Value,
) -> Result<(), Stopped>
    requires start { at.old.end ≤ around.now.packet.content }
    ensures gives { let b = next_multiple_of at.old.end element.now.align in
        Gives result at.new (val value.new)
        (begin (input around.now.packet) at.old.spent (open_at (input around.now.packet) b (and_then
        (repeat (walk (form element.now) (input around.now.packet) (env around.now.frame.now))
        count [] b (at.old.spent + 1)) as_list))) }
    ensures within { IfOk result (λ _. (at.new.end ≤ around.now.packet.content) ×
        (at.new.spent ≤ MOST_VALUES)) }
{
    if at.spent >= MOST_VALUES {
        return Err(at.stop_full());
    }
    let begin = begin_at(at.end, element.align);
    if begin > around.packet.content {
        return Err(at.stop_beyond(begin));
    }
    at.end = begin;
    at.spent += 1;
    if are_octets(element, count, &around.packet, at) {
        return octets_into(around.alloc, count, &around.packet, at, value);
    }
    let mut values = Vec::new(around.alloc);
    if let Value::List(old) = value {
        values = mem::replace(old, List::new(around.alloc)).into_vec();
    }
    elements_into(element, count, around, at, &mut values)?;
    *value = Value::List(List::from_vec(values));
    Ok(())
}

/// Makes so many elements, one after another, the values.
#[cycle(walk)]
fn elements_into(
    element: &Class,
    count: u64,
    around: &Around<'_>,
    at: &mut Cursor,
    values: &mut Vec<Value>,
) -> Result<(), Stopped>
    requires start { at.old.end ≤ around.now.packet.content }
    requires spent { at.old.spent ≤ MOST_VALUES }
    ensures gives { Gives result at.new (map val values.new.items)
        (repeat (walk (form element.now) (input around.now.packet) (env around.now.frame.now))
        count [] at.old.end at.old.spent) }
    ensures within { IfOk result (λ _. (at.new.end ≤ around.now.packet.content) ×
        (at.new.spent ≤ MOST_VALUES)) }
{
    for i in 0..count {
        element_into(element, around, at, values, i as usize)?;
    }
    values.truncate(count as usize);
    Ok(())
}

/// Makes the next element the value at an index, those before it being there.
#[cycle(walk)]
fn element_into(
    element: &Class,
    around: &Around<'_>,
    at: &mut Cursor,
    values: &mut Vec<Value>,
    i: usize,
) -> Result<(), Stopped>
    requires start { at.old.end ≤ around.now.packet.content }
    requires room { i ≤ length values.old.items }
    ensures gives { GivesNext result at.new (map val (take i values.old.items))
        (map val (take (i + 1) values.new.items))
        (walk (form element.now) (input around.now.packet) (env around.now.frame.now)
        at.old.end at.old.spent) }
    ensures within { IfOk result (λ _. (at.new.end ≤ around.now.packet.content) ×
        (at.new.spent ≤ MOST_VALUES) × (i < length values.new.items)) }
{
    if i == values.len() {
        let Ok(()) = values.push(Value::Unsigned(0)) else {
            return Err(at.stop_refused());
        };
    }
    if let Kind::Integer(integer) = &element.kind {
        return integer_into(integer, element.align, &around.packet, at, &mut values[i]);
    }
    value_into(element, around, at, &mut values[i])
}

/// Makes the chosen option of a variant the value.
#[cycle(walk)]
fn choice_into(
    options: &[Member],
    chosen: Option<usize>,
    around: &Around<'_>,
    at: &mut Cursor,
    value: &mut Value,
) -> Result<(), Stopped>
    requires start { at.old.end ≤ around.now.packet.content }
    ensures gives { Gives result at.new (val value.new)
        (begin (input around.now.packet) at.old.spent (with_option chosen (λ i. and_then
        (walk_option (parts_of (map member_part options.now)) i (input around.now.packet)
        (env around.now.frame.now) at.old.end (at.old.spent + 1)) (as_choice i)))) }
    ensures within { IfOk result (λ _. (at.new.end ≤ around.now.packet.content) ×
        (at.new.spent ≤ MOST_VALUES)) }
{
    if at.spent >= MOST_VALUES {
        return Err(at.stop_full());
    }
    let Some(i) = chosen else {
        return Err(at.stop_unchosen());
    };
    at.spent += 1;
    option_into(options, i, around, at, value)
}

/// Makes an option of a variant the value.
#[cycle(walk)]
fn option_into(
    options: &[Member],
    i: usize,
    around: &Around<'_>,
    at: &mut Cursor,
    value: &mut Value,
) -> Result<(), Stopped>
    requires start { at.old.end ≤ around.now.packet.content }
    ensures gives { Gives result at.new (val value.new) (and_then
        (walk_option (parts_of (map member_part options.now)) i (input around.now.packet)
        (env around.now.frame.now) at.old.end at.old.spent) (as_choice i)) }
    ensures within { IfOk result (λ _. (at.new.end ≤ around.now.packet.content) ×
        (at.new.spent ≤ MOST_VALUES)) }
{
    if i >= options.len() {
        return Err(at.stop_unchosen());
    }
    let class = &options[i].class;
    if let Value::Choice(option, inner) = value {
        *option = i;
        return value_into(class, around, at, inner.get_mut());
    }
    new_choice_into(class, i, around, at, value)
}

/// Makes option i of a variant the value, of which no memory is used again.
#[cycle(walk)]
#[inline(never)]
fn new_choice_into(
    class: &Class,
    i: usize,
    around: &Around<'_>,
    at: &mut Cursor,
    value: &mut Value,
) -> Result<(), Stopped>
    requires start { at.old.end ≤ around.now.packet.content }
    ensures gives { Gives result at.new (val value.new)
        (and_then (walk (form class.now) (input around.now.packet) (env around.now.frame.now)
        at.old.end at.old.spent) (as_choice i)) }
    ensures within { IfOk result (λ _. (at.new.end ≤ around.now.packet.content) ×
        (at.new.spent ≤ MOST_VALUES)) }
{
    let mut inner = Value::Unsigned(0);
    value_into(class, around, at, &mut inner)?;
    let Ok(inner) = Boxed::new(around.alloc, inner) else {
        return Err(at.stop_refused());
    };
    *value = Value::Choice(i, inner);
    Ok(())
}
