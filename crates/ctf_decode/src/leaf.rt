//! Integers and enumerations.

ghost use Rattle.std.specs.Prelude.{◌≡◌, ◌+◌, ◌≤◌, IfOk};
ghost use Rattle.std.specs.Int.{next_multiple_of};
ghost use Rattle.ctf_class.specs.Integers.{bits_of};
ghost use Rattle.ctf_decode.specs.Values.{unsigned, signed, label};
ghost use Rattle.ctf_decode.specs.Input.{integer_at, label_at};
ghost use Rattle.ctf_decode.specs.Views.{val, input};
ghost use Rattle.ctf_decode.specs.Walk.{begin, leaf};
ghost use Rattle.ctf_decode.specs.Gives.{Gives};

use crate::place::{Cursor, Packet, Stopped, begin_at};
use crate::scopes::MOST_VALUES;
use crate::value::Value;
use ctf_bits::{sint_within, uint_within};
use ctf_class::{Align, Integer};

/// Makes the integer at a place the value.
#[inline(always)]
pub(crate) fn integer_into(
    integer: &Integer,
    align: Align,
    packet: &Packet<'_>,
    at: &mut Cursor,
    value: &mut Value,
) -> Result<(), Stopped>
    requires start { at.old.end ≤ packet.now.content }
    ensures gives { let b = next_multiple_of at.old.end align in
        Gives result at.new (val value.new)
        (begin (input packet.now) at.old.spent
        (leaf (input packet.now) (b + bits_of integer.now) at.old.spent
        (integer_at (input packet.now) integer.now b))) }
    ensures within { IfOk result (λ _. (at.new.end ≤ packet.now.content) ×
        (at.new.spent ≤ MOST_VALUES)) }
{
    if at.spent >= MOST_VALUES {
        return Err(at.stop_full());
    }
    let size = integer.size.bits();
    let begin = begin_at(at.end, align);
    let end = begin + u64::from(size);
    if end > packet.content {
        return Err(at.stop_beyond(end));
    }
    if integer.is_signed {
        let number = sint_within(packet.bytes, begin, size, integer.order);
        put_signed(value, number);
    } else {
        let number = uint_within(packet.bytes, begin, size, integer.order);
        put_unsigned(value, number);
    }
    at.end = end;
    at.spent += 1;
    Ok(())
}

/// Makes the enumeration at a place the value.
#[inline(always)]
pub(crate) fn enumeration_into(
    container: &Integer,
    align: Align,
    packet: &Packet<'_>,
    at: &mut Cursor,
    value: &mut Value,
) -> Result<(), Stopped>
    requires start { at.old.end ≤ packet.now.content }
    ensures gives { let b = next_multiple_of at.old.end align in
        Gives result at.new (val value.new)
        (begin (input packet.now) at.old.spent
        (leaf (input packet.now) (b + bits_of container.now) at.old.spent
        (label_at (input packet.now) container.now b))) }
    ensures within { IfOk result (λ _. (at.new.end ≤ packet.now.content) ×
        (at.new.spent ≤ MOST_VALUES)) }
{
    if at.spent >= MOST_VALUES {
        return Err(at.stop_full());
    }
    let size = container.size.bits();
    let begin = begin_at(at.end, align);
    let end = begin + u64::from(size);
    if end > packet.content {
        return Err(at.stop_beyond(end));
    }
    if container.is_signed {
        let number = sint_within(packet.bytes, begin, size, container.order);
        put_label(value, i128::from(number));
    } else {
        let number = uint_within(packet.bytes, begin, size, container.order);
        put_label(value, i128::from(number));
    }
    at.end = end;
    at.spent += 1;
    Ok(())
}

/// Makes an unsigned number the value. A value of this kind is changed in place.
pub(crate) fn put_unsigned(value: &mut Value, number: u64)
    ensures { val value.new ≡ unsigned number }
{
    if let Value::Unsigned(old) = value {
        *old = number;
        return;
    }
    new_unsigned(value, number);
}

/// Puts an unsigned number in place of a value of another kind.
#[cold]
#[inline(never)]
fn new_unsigned(value: &mut Value, number: u64)
    ensures { val value.new ≡ unsigned number }
{
    *value = Value::Unsigned(number);
}

/// Makes a signed number the value. A value of this kind is changed in place.
fn put_signed(value: &mut Value, number: i64)
    ensures { val value.new ≡ signed number }
{
    if let Value::Signed(old) = value {
        *old = number;
        return;
    }
    new_signed(value, number);
}

/// Puts a signed number in place of a value of another kind.
#[cold]
#[inline(never)]
fn new_signed(value: &mut Value, number: i64)
    ensures { val value.new ≡ signed number }
{
    *value = Value::Signed(number);
}

/// Makes an enumeration's number the value. A value of this kind is changed in place.
fn put_label(value: &mut Value, number: i128)
    ensures { val value.new ≡ label number }
{
    if let Value::Label(old) = value {
        *old = number;
        return;
    }
    new_label(value, number);
}

/// Puts an enumeration's number in place of a value of another kind.
#[cold]
#[inline(never)]
fn new_label(value: &mut Value, number: i128)
    ensures { val value.new ≡ label number }
{
    *value = Value::Label(number);
}
