//! How many bits a value takes at least, where that is known before its bytes come.

ghost use Rattle.std.specs.Prelude.{◌≡◌, ◌≤◌, max, option_map, option_copied, IfSome};
ghost use Rattle.ctf_decode.specs.Views.{form};
ghost use Rattle.ctf_packet.specs.Scopes.{longest};
ghost use Rattle.ctf_fetch.specs.Demand.{TakesAtLeast, MembersTake, ElementsTake, TakesAt, EndsAtLeast, ScopeTakes, ContextTakes, FrontTakes};
ghost use Rattle.ctf_fetch.specs.Fetching.{longest_bytes};

use crate::demand::ValuePlace;
use ctf_class::{Align, Class, Kind, Length, Member, TraceClass, Width};
use ctf_decode::length_at;
use ctf_packet::LONGEST_PACKET;

/// How deep the parts of a class may lie in one another. Where its size is not known, its parts are asked about by
/// themselves: so each is looked at a few times, however deep it lies.
const DEEPEST: u32 = 4;

/// How many bytes the header and the context of each packet of a trace take at least. What the context takes is known
/// where the trace has one stream class, of which each packet is then.
pub(crate) fn least_front(trace: &TraceClass) -> usize
    ensures takes { FrontTakes trace.now result }
    ensures bounded { result ≤ longest_bytes }
{
    let header = bits_of_scope(trace.packet_header());
    let context = bits_of_context(trace);
    ((header + context).min(LONGEST_PACKET) / 8) as usize
}

/// How many bits the context of each packet takes at least, as far as that is known.
fn bits_of_context(trace: &TraceClass) -> u64
    ensures takes { ContextTakes trace.now result }
    ensures bounded { result ≤ longest }
{
    match trace.only() {
        None => 0,
        Some(stream) => bits_of_scope(stream.packet_context()),
    }
}

/// How many bits a scope takes at least, as far as that is known.
fn bits_of_scope(class: Option<&Class>) -> u64
    ensures takes { ScopeTakes (option_map form (option_copied class.entry)) result }
    ensures bounded { result ≤ longest }
{
    match class {
        None => 0,
        Some(class) => {
            if class.depth > DEEPEST {
                return 0;
            }
            least_bits(class).unwrap_or(0)
        }
    }
}

/// A bit, counted from the packet's first one, before which the value at a place does not end: it ends there or up to
/// seven bits later. So the bytes up to it can be asked for at once.
///
/// `None` where its size depends on values in the packet, as that of a string, a variant, or an array in a structure
/// whose length is in a field; where a part of it is not of whole bytes, or may not begin at each of them, since its
/// end would be further away; where it takes no bits; where its parts lie deeper than `DEEPEST`; and where no packet is
/// so long.
pub(crate) fn least_end(class: &Class, place: &ValuePlace<'_>) -> Option<u64>
    requires { place.now.end ≤ longest }
    ensures least { IfSome result (EndsAtLeast class.now place.now) }
    ensures bounded { IfSome result (λ end. end ≤ longest) }
{
    if class.depth > DEEPEST {
        return None;
    }
    let bits = least_bits_at(class, place)?;
    if bits == 0 || !is_packed(class) {
        return None;
    }
    in_packet(u128::from(place.end) + u128::from(bits))
}

/// A bit, counted from the packet's first one, before which the structure at a place does not end: its begin and the
/// bits of its parts, without the padding that alignments may ask for between them. So the bytes up to it can be asked
/// for at once, whatever these alignments are.
///
/// `None` where the class is no structure, where its size depends on values in the packet, where its parts lie deeper
/// than `DEEPEST`, and where no packet is so long.
pub(crate) fn structure_end(class: &Class, place: &ValuePlace<'_>) -> Option<u64>
    requires { place.now.end ≤ longest }
    ensures least { IfSome result (EndsAtLeast class.now place.now) }
    ensures bounded { IfSome result (λ end. end ≤ longest) }
{
    let Kind::Structure { members } = &class.kind else {
        return None;
    };
    if class.depth > DEEPEST {
        return None;
    }
    let begin = class.align.up(place.end);
    let bits = bits_of_structure(members.as_slice())?;
    in_packet(u128::from(begin) + u128::from(bits))
}

/// Whether each part of a class takes whole bytes and may begin at each of them.
#[cycle(packed)]
fn is_packed(class: &Class) -> bool {
    match &class.kind {
        Kind::Integer(integer) => integer.size.bits() % 8 == 0 && is_of_bytes(class.align),
        Kind::Enumeration { container, labels } => {
            container.size.bits() % 8 == 0 && is_of_bytes(class.align)
        }
        Kind::Structure { members } => is_of_bytes(class.align) && are_packed(members.as_slice()),
        Kind::Array { length, element } => are_packed_elements(element.get(), length),
        Kind::String => true,
        Kind::Variant {
            tag,
            choices,
            options,
        } => true,
        Kind::Text { length } => true,
    }
}

/// Whether each part of the members takes whole bytes and may begin at each of them.
#[cycle(packed)]
fn are_packed(members: &[Member]) -> bool {
    for member in members {
        if !is_packed(&member.class) {
            return false;
        }
    }
    true
}

/// Whether so many elements begin at a byte, and each part of them takes whole bytes and may begin at each of them.
/// Where there are none, their alignment alone is looked at.
#[cycle(packed)]
fn are_packed_elements(element: &Class, length: &Length) -> bool {
    match length {
        Length::Fixed(0) => is_of_bytes(element.align),
        _ => is_packed(element),
    }
}

/// How many bits a value at a place takes at least. An array's length may be in a field.
fn least_bits_at(class: &Class, place: &ValuePlace<'_>) -> Option<u64>
    ensures least { IfSome result (TakesAt class.now place.now) }
    ensures bounded { IfSome result (λ bits. bits ≤ longest) }
{
    match &class.kind {
        Kind::Array { length, element } => {
            let count = length_at(length, place.scopes, place.frame);
            bits_of_elements(element.get(), count)
        }
        _ => least_bits(class),
    }
}

/// How many bits a value of a class takes at least, wherever it is.
#[cycle(least)]
fn least_bits(class: &Class) -> Option<u64>
    ensures least { IfSome result (TakesAtLeast class.now) }
    ensures bounded { IfSome result (λ bits. bits ≤ longest) }
{
    match &class.kind {
        Kind::Integer(integer) => Some(bits_of_integer(integer.size)),
        Kind::Enumeration { container, labels } => Some(bits_of_integer(container.size)),
        Kind::String => None,
        Kind::Structure { members } => bits_of_structure(members.as_slice()),
        Kind::Variant {
            tag,
            choices,
            options,
        } => None,
        Kind::Array { length, element } => match length {
            Length::Fixed(count) => bits_of_elements(element.get(), *count),
            Length::Field(_) => None,
        },
        Kind::Text { length } => match length {
            Length::Fixed(count) => in_packet(8 * u128::from(*count)),
            Length::Field(_) => None,
        },
    }
}

/// How many bits an integer takes at least.
fn bits_of_integer(size: Width) -> u64
    ensures least { result ≤ max 1 size }
    ensures bounded { result ≤ longest }
{
    u64::from(size.bits())
}

/// How many bits a structure of these members takes at least.
#[cycle(least)]
fn bits_of_structure(members: &[Member]) -> Option<u64>
    ensures least { IfSome result (MembersTake members.now) }
    ensures bounded { IfSome result (λ bits. bits ≤ longest) }
{
    let mut bits = 0;
    for member in members {
        let more = bits_of_member(&member.class)?;
        bits = in_packet(u128::from(bits) + u128::from(more))?;
    }
    Some(bits)
}

/// How many bits a member takes at least. Mostly it is an integer, which takes no call.
#[cycle(least)]
#[inline(always)]
fn bits_of_member(class: &Class) -> Option<u64>
    ensures least { IfSome result (TakesAtLeast class.now) }
    ensures bounded { IfSome result (λ bits. bits ≤ longest) }
{
    if let Kind::Integer(integer) = &class.kind {
        return Some(bits_of_integer(integer.size));
    }
    least_bits(class)
}

/// How many bits so many elements take at least. Where there are none, their class is not looked at.
#[cycle(least)]
fn bits_of_elements(element: &Class, count: u64) -> Option<u64>
    ensures least { IfSome result (ElementsTake element.now count) }
    ensures bounded { IfSome result (λ bits. bits ≤ longest) }
{
    if count == 0 {
        return Some(0);
    }
    let bits = least_bits(element)?;
    in_packet(u128::from(bits) * u128::from(count))
}

/// Whether each byte begins at a multiple of an alignment. It is asked of each member, so it takes no division:
/// alignments are powers of two.
fn is_of_bytes(align: Align) -> bool {
    align.bits() <= 8
}

/// A number of bits, if a packet may have so many.
fn in_packet(bits: u128) -> Option<u64>
    ensures value { IfSome result (λ n. n ≡ bits) }
    ensures bounded { IfSome result (λ n. n ≤ longest) }
{
    if bits > u128::from(LONGEST_PACKET) {
        return None;
    }
    Some(bits as u64)
}
