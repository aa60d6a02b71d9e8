//! Plain members: unsigned integers that begin at bytes. Mostly all members of a packet's context are plain, so
//! they are decoded one after another before other members are told apart.

ghost use Rattle.std.specs.Prelude.{◌≡◌, ◌+◌, ◌*◌, ◌≤◌, ◌<◌, [], ℕ, length, map, take, drop, IsTrue, IfSome, Ok};
ghost use Rattle.ctf_decode.specs.Forms.{parts_of};
ghost use Rattle.ctf_decode.specs.Input.{Env};
ghost use Rattle.ctf_decode.specs.Views.{form, member_part, val, input};
ghost use Rattle.ctf_decode.specs.Walk.{walk, walk_members};

use crate::leaf::put_unsigned;
use crate::place::{Cursor, Packet, begin_at};
use crate::scopes::MOST_VALUES;
use crate::value::Value;
use ctf_bits::uint_at_byte;
use ctf_class::{Class, Kind, Member};

/// Makes the first members of a structure the values, as far as they are plain, and gives how many these are. What
/// holds for all of them is looked at once: that so many values may be begun, and that there are bytes after the
/// content, so that each integer has a whole word.
#[inline(always)]
pub(crate) fn plain_members_into(
    members: &[Member],
    packet: &Packet<'_>,
    at: &mut Cursor,
    values: &mut [Value],
) -> usize
    requires start { at.old.end ≤ packet.now.content }
    requires spent { at.old.spent ≤ MOST_VALUES }
    requires room { length values.old ≡ length members.now }
    ensures walked { (around : Env) →
        walk_members (parts_of (map member_part (drop result members.now))) (input packet.now)
        around (map val (take result values.new)) at.new.end at.new.spent ≡
        walk_members (parts_of (map member_part members.now)) (input packet.now)
        around [] at.old.end at.old.spent }
    ensures count { result ≤ length members.now }
    ensures within { at.new.end ≤ packet.now.content }
    ensures few { at.new.spent ≤ MOST_VALUES }
{
    let most = at.spent + members.len() as u64;
    if most > MOST_VALUES || !is_padded(packet) {
        return 0;
    }
    let (count, end) = plain_run(members, packet, at.end, values);
    at.end = end;
    at.spent += count as u64;
    count
}

/// Whether eight bytes follow the content of a packet.
fn is_padded(packet: &Packet<'_>) -> bool
    ensures { IsTrue result → packet.now.content + 64 ≤ 8 * length packet.now.bytes.now }
{
    // As many bytes as the content takes, rounded up, and eight.
    packet.content.div_ceil(8) + 8 <= packet.bytes.len() as u64
}

/// Makes the first members of a structure the values, as far as they are plain. How many these are, and where the
/// last one ends.
#[inline(always)]
fn plain_run(
    members: &[Member],
    packet: &Packet<'_>,
    start: u64,
    values: &mut [Value],
) -> (usize, u64)
    requires start { start ≤ packet.now.content }
    requires padded { packet.now.content + 64 ≤ 8 * length packet.now.bytes.now }
    requires room { length values.old ≡ length members.now }
    ensures walked { (around : Env) (spent : ℕ) → spent + length members.now ≤ MOST_VALUES →
        walk_members (parts_of (map member_part (drop result.0 members.now))) (input packet.now)
        around (map val (take result.0 values.new)) result.1 (spent + result.0) ≡
        walk_members (parts_of (map member_part members.now)) (input packet.now)
        around [] start spent }
    ensures count { result.0 ≤ length members.now }
    ensures within { result.1 ≤ packet.now.content }
{
    let mut end = start;
    for (i, member) in members.iter().enumerate() {
        match plain_into(&member.class, packet, end, &mut values[i]) {
            Some(next) => {
                end = next;
            }
            None => return (i, end),
        }
    }
    (members.len(), end)
}

/// Makes the plain integer after a place the value, and gives its end. `None` where the class is another one, where
/// it does not begin at a byte, or where the content ends before; the value is then unspecified.
#[inline(always)]
fn plain_into(class: &Class, packet: &Packet<'_>, place: u64, value: &mut Value) -> Option<u64>
    requires start { place ≤ packet.now.content }
    requires padded { packet.now.content + 64 ≤ 8 * length packet.now.bytes.now }
    ensures gives { IfSome result (λ end. (around : Env) (spent : ℕ) → spent < MOST_VALUES →
        walk (form class.now) (input packet.now) around place spent ≡
        Ok (val value.new, end, spent + 1)) }
    ensures within { IfSome result (λ end. end ≤ packet.now.content) }
{
    let Kind::Integer(integer) = &class.kind else {
        return None;
    };
    let size = integer.size.bits();
    let begin = begin_at(place, class.align);
    let end = begin + u64::from(size);
    if integer.is_signed || begin % 8 != 0 || end > packet.content {
        return None;
    }
    let number = uint_at_byte(packet.bytes, begin, size, integer.order);
    put_unsigned(value, number);
    Some(end)
}
