//! Strings and arrays of characters.

ghost use Rattle.std.specs.Prelude.{◌≡◌, ◌+◌, ◌-◌, ◌*◌, ◌/◌, ◌≤◌, ◌<◌, not, nat_eq, position, take, drop, length, IfOk, IfSome};
ghost use Rattle.std.specs.Int.{next_multiple_of};
ghost use Rattle.std.specs.List.{take_while};
ghost use Rattle.ctf_decode.specs.Values.{text};
ghost use Rattle.ctf_decode.specs.Stands.{text_in};
ghost use Rattle.ctf_decode.specs.Views.{val, input};
ghost use Rattle.ctf_decode.specs.Walk.{begin, leaf, string_at};
ghost use Rattle.ctf_decode.specs.Gives.{Gives};

use crate::fault::DecodeFault;
use crate::place::{Cursor, Packet, Stopped, byte_at};
use crate::scopes::MOST_VALUES;
use crate::value::Value;
use ctf_list::List;
use std::alloc::{AllocError, Global};

/// Makes a text the value. Memory that the value has is used again.
fn text_into(alloc: Global, bytes: &[u8], value: &mut Value) -> Result<(), AllocError>
    ensures { IfOk result (λ _. val value.new ≡ text bytes.now) }
{
    if let Value::Text(old) = value {
        old.clear();
        old.extend_from_slice(bytes)?;
        return Ok(());
    }
    *value = Value::Text(List::from_slice(alloc, bytes)?);
    Ok(())
}

/// As many bytes of a packet as are whole between the bit `begin` and the content's end, both counted from its first
/// bit: from the byte on that has the bit `begin`.
#[inline(always)]
pub fn bytes_from(packet: &[u8], content: u64, begin: u64) -> &[u8]
    requires begin { begin ≤ content }
    requires held { content ≤ 8 * length packet.now }
    ensures { result.now ≡ take ((content - begin) / 8) (drop (begin / 8) packet.now) }
{
    let from = (begin / 8) as usize;
    let count = ((content - begin) / 8) as usize;
    &packet[from..from + count]
}

/// The index of the first zero byte.
#[inline(always)]
pub fn zero_in(bytes: &[u8]) -> Option<usize>
    ensures first { result ≡ position (λ x. nat_eq x 0) bytes.now }
    ensures within { IfSome result (λ n. n < length bytes.now) }
{
    bytes.iter().position(|byte| *byte == 0)
}

/// Makes the string at a place the value.
#[tactic(auto, unfolding(crate::specs::Walk::string_at))]
pub(crate) fn string_into(
    alloc: Global,
    packet: &Packet<'_>,
    at: &mut Cursor,
    value: &mut Value,
) -> Result<(), Stopped>
    requires start { at.old.end ≤ packet.now.content }
    ensures gives { Gives result at.new (val value.new)
        (begin (input packet.now) at.old.spent
        (string_at (input packet.now) (next_multiple_of at.old.end 8) at.old.spent)) }
    ensures within { IfOk result (λ _. (at.new.end ≤ packet.now.content) ×
        (at.new.spent ≤ MOST_VALUES)) }
{
    if at.spent >= MOST_VALUES {
        return Err(at.stop_full());
    }
    let begin = byte_at(at.end);
    if begin > packet.content {
        return Err(at.stop_beyond(begin + 8));
    }
    let bytes = bytes_from(packet.bytes, packet.content, begin);
    let Some(n) = zero_in(bytes) else {
        let end = begin + 8 * (bytes.len() as u64 + 1);
        return Err(at.stop_beyond(end));
    };
    let Ok(()) = text_into(alloc, &bytes[..n], value) else {
        return Err(at.stop_refused());
    };
    at.end = begin + 8 * (n as u64 + 1);
    at.spent += 1;
    Ok(())
}

/// The bytes before the first zero byte, or all of them.
#[inline(always)]
pub fn before_zero(bytes: &[u8]) -> &[u8]
    ensures { result.now ≡ take_while (λ x. not (nat_eq x 0)) bytes.now }
{
    match zero_in(bytes) {
        None => bytes,
        Some(n) => &bytes[..n],
    }
}

/// The `count` bytes of a packet from the byte on that has the bit `begin`, counted from its first one.
#[inline(always)]
pub fn bytes_at(packet: &[u8], begin: u64, count: u64) -> &[u8]
    requires { begin + 8 * count ≤ 8 * length packet.now }
    ensures { result.now ≡ take count (drop (begin / 8) packet.now) }
{
    let from = (begin / 8) as usize;
    &packet[from..from + count as usize]
}

/// Makes the text of so many bytes at a place the value.
pub(crate) fn characters_into(
    alloc: Global,
    count: u64,
    packet: &Packet<'_>,
    at: &mut Cursor,
    value: &mut Value,
) -> Result<(), Stopped>
    requires start { at.old.end ≤ packet.now.content }
    ensures gives { let b = next_multiple_of at.old.end 8 in
        Gives result at.new (val value.new)
        (begin (input packet.now) at.old.spent
        (leaf (input packet.now) (b + 8 * count) at.old.spent
        (text_in (input packet.now) b count))) }
    ensures within { IfOk result (λ _. (at.new.end ≤ packet.now.content) ×
        (at.new.spent ≤ MOST_VALUES)) }
{
    if at.spent >= MOST_VALUES {
        return Err(at.stop_full());
    }
    let begin = byte_at(at.end);
    let end = u128::from(begin) + 8 * u128::from(count);
    if end > u128::from(packet.content) {
        return Err(at.stop(DecodeFault::ContentEnds(end)));
    }
    let text = before_zero(bytes_at(packet.bytes, begin, count));
    let Ok(()) = text_into(alloc, text, value) else {
        return Err(at.stop_refused());
    };
    at.end = begin + 8 * count;
    at.spent += 1;
    Ok(())
}
