//! Arrays of bytes: they are copied at once, where other elements are decoded one by one.

ghost use Rattle.std.specs.Prelude.{◌≡◌, ◌↔◌, ◌+◌, ◌*◌, ◌/◌, ◌%◌, ◌≤◌, [], length, map, IsTrue, IfOk};
ghost use Rattle.ctf_decode.specs.Values.{unsigned, list, vals_of};
ghost use Rattle.ctf_decode.specs.Forms.{Form};
ghost use Rattle.ctf_decode.specs.Input.{Env};
ghost use Rattle.ctf_decode.specs.Walk.{walk, repeat, and_then, as_list};
ghost use Rattle.ctf_decode.specs.Octets.{IsOctet, Octets};
ghost use Rattle.ctf_decode.specs.Views.{form, val, input};
ghost use Rattle.ctf_decode.specs.Gives.{Gives};

use crate::leaf::put_unsigned;
use crate::place::{Cursor, Packet, Stopped};
use crate::room::with_room;
use crate::scopes::MOST_VALUES;
use crate::text::bytes_at;
use crate::value::Value;
use ctf_class::{Class, Kind};
use ctf_list::List;
use std::alloc::{AllocError, Global};

/// Whether each value of a class that begins at a byte is that byte's number, in either byte order.
#[inline(always)]
pub(crate) fn is_octet(class: &Class) -> bool
    ensures { IsTrue result ↔ IsOctet (form class.now) }
{
    if let Kind::Integer(integer) = &class.kind {
        return integer.size.bits() == 8 && !integer.is_signed && class.align.bits() <= 8;
    }
    false
}

/// Whether so many elements at a place are bytes, all in the content, and no value too many.
#[inline(always)]
pub(crate) fn are_octets(element: &Class, count: u64, packet: &Packet<'_>, at: &Cursor) -> bool
    requires start { at.now.end ≤ packet.now.content }
    requires spent { at.now.spent ≤ MOST_VALUES }
    ensures { IsTrue result →
        Octets (form element.now) count (input packet.now) at.now.end at.now.spent }
{
    is_octet(element)
        && at.end % 8 == 0
        && count <= (packet.content - at.end) / 8
        && count <= MOST_VALUES - at.spent
}

/// Makes the array of so many bytes at a place, which lie in the content, the value.
#[inline(always)]
pub(crate) fn octets_into(
    alloc: Global,
    count: u64,
    packet: &Packet<'_>,
    at: &mut Cursor,
    value: &mut Value,
) -> Result<(), Stopped>
    requires inside { at.old.end + 8 * count ≤ packet.now.content }
    requires few { at.old.spent + count ≤ MOST_VALUES }
    ensures gives { (k : Form) (around : Env) →
        Octets k count (input packet.now) at.old.end at.old.spent →
        Gives result at.new (val value.new) (and_then (repeat (walk k (input packet.now) around)
        count [] at.old.end at.old.spent) as_list) }
    ensures within { IfOk result (λ _. (at.new.end ≤ packet.now.content) ×
        (at.new.spent ≤ MOST_VALUES)) }
{
    let bytes = bytes_at(packet.bytes, at.end, count);
    let Ok(()) = list_into(alloc, bytes, value) else {
        return Err(at.stop_refused());
    };
    at.end += 8 * count;
    at.spent += count;
    Ok(())
}

/// Makes the list of some bytes the value. Memory that the value has is used again.
#[inline(always)]
fn list_into(alloc: Global, bytes: &[u8], value: &mut Value) -> Result<(), AllocError>
    ensures { IfOk result (λ _. val value.new ≡ list (vals_of (map unsigned bytes.now))) }
{
    if let Value::List(old) = value {
        return numbers_into(bytes, old);
    }
    new_list_into(alloc, bytes, value)
}

/// Makes the list of some bytes the value, of which no memory is used again.
#[cold]
#[inline(never)]
fn new_list_into(alloc: Global, bytes: &[u8], value: &mut Value) -> Result<(), AllocError>
    ensures { IfOk result (λ _. val value.new ≡ list (vals_of (map unsigned bytes.now))) }
{
    let mut values = List::new(alloc);
    numbers_into(bytes, &mut values)?;
    *value = Value::List(values);
    Ok(())
}

/// Makes the numbers of some bytes the values.
fn numbers_into(bytes: &[u8], values: &mut List<Value>) -> Result<(), AllocError>
    ensures { IfOk result (λ _. map val values.new ≡ map unsigned bytes.now) }
{
    with_room(values, bytes.len())?;
    each_number_into(bytes, values.as_mut_slice());
    Ok(())
}

/// Makes the numbers of some bytes the values, of which there are as many.
#[inline(always)]
fn each_number_into(bytes: &[u8], values: &mut [Value])
    requires room { length values.old ≡ length bytes.now }
    ensures { map val values.new ≡ map unsigned bytes.now }
{
    for (i, byte) in bytes.iter().enumerate() {
        put_unsigned(&mut values[i], u64::from(*byte));
    }
}
