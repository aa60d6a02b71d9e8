//! What a packet's header says.

ghost use Rattle.std.specs.Prelude.{◌≡◌, map, Some, option_map, option_and_then, option_copied};
ghost use Rattle.std.specs.Str.{bytes_eq};
ghost use Rattle.ctf_clock.specs.declared.moment.Shift.{Shift};
ghost use Rattle.ctf_decode.specs.Values.{vals_of};
ghost use Rattle.ctf_decode.specs.Views.{form, val};
ghost use Rattle.ctf_packet.specs.Classes.{stream_form, trace_form};
ghost use Rattle.ctf_packet.specs.Roles as roles;
ghost use Rattle.ctf_packet.specs.Packets as packets;
ghost use Rattle.ctf_packet.specs.Gives.{Exactly};

use crate::fault::StreamFault;
use crate::field::UnsignedField;
use crate::reached::Reached;
use crate::roles::{field_at_top, fields_of_roles, number_in};
use ctf_class::{Class, HasId, Kind, Length, Role, StreamClass, TraceClass};
use ctf_decode::{Value, elements_in};

const MAGIC: u64 = 0xC1FC_1FC1;

/// The stream class of a packet with this header (CTF 1.8.3, section 5.1).
///
/// F2, F3 or F4, the first of these, exactly where the header says something that can't be.
#[tactic(auto, unfolding(crate::specs::Packets::stream_checked))]
pub fn stream_checked<'a>(
    trace: &'a TraceClass,
    reached: Option<&Reached>,
    header: Option<&Value>,
) -> Result<&'a StreamClass, StreamFault>
    ensures { (shift : Shift) →
        Exactly (λ s. stream_form shift s.now) result
        (packets.stream_checked (trace_form shift trace.now) (option_copied reached.entry)
        (option_map val (option_copied header.entry))) }
{
    let (magic, stream_id) = fields_of_roles(
        trace.header_front(),
        header,
        Role::Magic,
        Role::StreamId,
    );
    if !is_magic(magic) {
        return Err(StreamFault::WrongMagic);
    }
    if !is_of_trace(trace, header) {
        return Err(StreamFault::OtherTrace);
    }
    match stream_of(trace, reached, number_in(stream_id)) {
        Some(stream) => Ok(stream),
        None => Err(StreamFault::UnknownStream),
    }
}

/// Whether a magic number is the right one, if it is one.
fn is_magic(field: Option<UnsignedField>) -> bool
    ensures { result ≡ roles.is_magic field }
{
    match field {
        None => true,
        Some(field) => field.width.bits() != 32 || field.number == MAGIC,
    }
}

/// Whether a packet's identifier is that of its trace, where both have one.
#[tactic(auto, unfolding(crate::specs::Roles::uuid_field))]
fn is_of_trace(trace: &TraceClass, header: Option<&Value>) -> bool
    ensures { result ≡ roles.is_of_trace trace.now.uuid
        (roles.uuid_field (option_map form trace.now.packet_header)
        (option_map val (option_copied header.entry))) }
{
    match &trace.uuid {
        None => true,
        Some(uuid) => match field_at_top(trace.header_front(), header, Role::Uuid) {
            None => true,
            Some((class, value)) => has_octets(class, value, uuid),
        },
    }
}

/// Whether an array of 16 bytes holds these, if it is one.
fn has_octets(class: &Class, value: &Value, uuid: &[u8]) -> bool
    ensures { result ≡ roles.is_of_trace (Some uuid.now)
        (roles.sixteen_octets (form class.now) (val value.now)) }
{
    match &class.kind {
        Kind::Array { length, element } => {
            if is_sixteen(length) && is_octet(element.get()) {
                same_octets(elements_in(value), uuid)
            } else {
                true
            }
        }
        Kind::Integer(_) => true,
        Kind::Structure { members } => true,
        Kind::Enumeration { container, labels } => true,
        Kind::String => true,
        Kind::Variant {
            tag,
            choices,
            options,
        } => true,
        Kind::Text { length } => true,
    }
}

fn is_sixteen(length: &Length) -> bool
    ensures { result ≡ roles.is_sixteen length.now }
{
    match length {
        Length::Fixed(count) => *count == 16,
        Length::Field(_) => false,
    }
}

/// Whether a class is an unsigned integer of a byte.
fn is_octet(class: &Class) -> bool
    ensures { result ≡ roles.is_octet (form class.now) }
{
    match &class.kind {
        Kind::Integer(integer) => {
            class.align.bits() == 8 && integer.size.bits() == 8 && !integer.is_signed
        }
        Kind::Structure { members } => false,
        Kind::Enumeration { container, labels } => false,
        Kind::String => false,
        Kind::Variant {
            tag,
            choices,
            options,
        } => false,
        Kind::Array { length, element } => false,
        Kind::Text { length } => false,
    }
}

/// Whether the numbers of elements are these bytes.
fn same_octets(elements: &[Value], bytes: &[u8]) -> bool
    ensures { result ≡ bytes_eq (roles.octets (vals_of (map val elements.now))) bytes.now }
{
    if elements.len() != bytes.len() {
        return false;
    }
    for (i, element) in elements.iter().enumerate() {
        if octet(element) != u64::from(bytes[i]) {
            return false;
        }
    }
    true
}

/// An unsigned number; 0 of another value.
fn octet(value: &Value) -> u64
    ensures { result ≡ roles.octet (val value.now) }
{
    match value {
        Value::Unsigned(number) => *number,
        Value::Signed(_) => 0,
        Value::Label(_) => 0,
        Value::Text(_) => 0,
        Value::Group(_) => 0,
        Value::List(_) => 0,
        Value::Choice(_, _) => 0,
    }
}

/// The stream class of a packet: that of the number in its header, or without a number the only one of the trace.
/// `None` where there is no such class, and where the packets before are of another one.
fn stream_of<'a>(
    trace: &'a TraceClass,
    reached: Option<&Reached>,
    number: Option<u64>,
) -> Option<&'a StreamClass>
    ensures { (shift : Shift) → option_map (stream_form shift) (option_copied result) ≡
        option_and_then (packets.same_stream (option_copied reached.entry))
        (packets.stream_named (map (stream_form shift) trace.now.streams) number) }
{
    match stream_named(trace, number) {
        None => None,
        Some(stream) => same_stream(reached, stream),
    }
}

/// The stream class of a number, or the only one.
fn stream_named(trace: &TraceClass, number: Option<u64>) -> Option<&StreamClass>
    ensures { (shift : Shift) → option_map (stream_form shift) (option_copied result) ≡
        packets.stream_named (map (stream_form shift) trace.now.streams) number }
{
    match number {
        Some(id) => trace.stream(id),
        None => trace.only(),
    }
}

/// A stream class, if it is that of the packets before.
fn same_stream<'a>(reached: Option<&Reached>, stream: &'a StreamClass) -> Option<&'a StreamClass>
    ensures { (shift : Shift) → option_map (stream_form shift) (option_copied result) ≡
        packets.same_stream (option_copied reached.entry) (stream_form shift stream.now) }
{
    match reached {
        None => Some(stream),
        Some(reached) => {
            if stream.id() == reached.stream {
                Some(stream)
            } else {
                None
            }
        }
    }
}
