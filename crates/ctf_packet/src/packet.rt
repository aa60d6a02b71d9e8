//! Packets whose header and context were decoded.

ghost use Rattle.std.specs.Prelude.{◌≡◌, ◌≤◌, option_map, option_and_then, option_copied, IfOk};
ghost use Rattle.ctf_decode.specs.Views.{val};
ghost use Rattle.ctf_packet.specs.Classes.{stream_form};
ghost use Rattle.ctf_packet.specs.Scopes.{Values};
ghost use Rattle.ctf_packet.specs.Packets as packets;
ghost use Rattle.ctf_packet.specs.Views.{opened_of};
ghost use Rattle.ctf_packet.specs.Gives.{Exactly, Placed};

use crate::clock::{clock_after, clock_before, clock_until, discarded_since, lost_since};
use crate::fault::StreamFault;
use crate::packet_place::PacketPlace;
use crate::reached::Reached;
use crate::roles::{field_of_role, fields_of_roles, number_in};
use crate::sizes::{LONGEST_PACKET, Sizes};
use ctf_class::{Role, StreamClass};
use ctf_clock::{Moment, Shift, Timeline};
use ctf_decode::Value;

/// A packet whose header and context were decoded, and whose bytes are there.
#[derive(Clone, Copy)]
pub struct OpenPacket<'a> {
    pub stream: &'a StreamClass,
    /// The times of the stream's clock, where it has one.
    pub timeline: Option<Timeline>,
    /// Where it begins in the stream, in bytes.
    pub start: u64,
    /// Where it ends in the stream, in bytes.
    pub end: u64,
    /// Where its event records begin, in bits from its first one.
    pub first: u64,
    /// Where its content ends, in bits from its first one.
    pub content: u64,
    /// The clock before it.
    pub before: Option<Moment>,
    /// The clock after its context.
    pub clock: Option<Moment>,
    /// How many packets were lost before it.
    pub lost: Option<u64>,
    /// How many event records were discarded before it.
    pub dropped: Option<u64>,
    /// Its count of discarded event records.
    pub discarded: Option<u64>,
    /// Its sequence number.
    pub number: Option<u64>,
}

/// The times of a stream's clock.
fn timeline_of(stream: &StreamClass, shift: Shift) -> Option<Timeline>
    ensures { result ≡ (stream_form shift stream.now).line }
{
    match stream.clock() {
        None => None,
        Some(clock) => Some(Timeline::new(clock, shift)),
    }
}

/// The last packet's sequence number.
fn number_before(reached: Option<&Reached>) -> Option<u64>
    ensures { result ≡ option_and_then (λ r. r.number) (option_copied reached.entry) }
{
    reached?.number
}

/// The last packet's count of discarded event records.
fn discarded_before(reached: Option<&Reached>) -> Option<u64>
    ensures { result ≡ option_and_then (λ r. r.discarded) (option_copied reached.entry) }
{
    reached?.discarded
}

/// The packet of these sizes, in bits, at a place of its stream. Its context has this value and ends at the bit `first`
/// of the packet.
///
/// F9 exactly where its clock is refused.
#[tactic(auto, unfolding(crate::specs::Packets::placed))]
pub fn packet_of_sizes<'a>(
    stream: &'a StreamClass,
    place: &PacketPlace<'_>,
    context: Option<&Value>,
    first: u64,
    sizes: Sizes,
) -> Result<OpenPacket<'a>, StreamFault>
    requires packet { sizes.packet ≤ LONGEST_PACKET }
    ensures exactly { let at = place.now in
        (values : Values) →
        values.packet_context ≡ option_map val (option_copied context.entry) →
        Exactly (opened_of at.shift values) result
        (packets.placed (stream_form at.shift stream.now) (option_copied at.reached) at.start values
        first sizes) }
    ensures line { IfOk result
        (λ packet. packet.timeline ≡ (stream_form place.now.shift packet.stream.now).line) }
    ensures places { IfOk result (Placed place.now.start first sizes) }
{
    let timeline = timeline_of(stream, place.shift);
    let reached = place.reached;
    let before = clock_before(timeline.as_ref(), reached)?;
    let front = stream.context_front();
    let clock = clock_after(timeline.as_ref(), before, front, context)?;
    let counts = fields_of_roles(front, context, Role::SequenceNumber, Role::EventsDiscarded);
    let sequence = number_in(counts.0);
    let discarded = number_in(counts.1);
    Ok(OpenPacket {
        stream,
        timeline,
        start: place.start,
        end: place.start + sizes.packet / 8,
        first,
        content: sizes.content,
        before,
        clock,
        lost: lost_since(number_before(reached), counts.0),
        dropped: discarded_since(discarded_before(reached), counts.1),
        discarded,
        number: sequence,
    })
}

/// The clock at the end of a packet, as far as the value of its context says. It is asked for where event records were
/// discarded, and so is not looked for in each packet.
pub fn clock_at_end(
    packet: &OpenPacket<'_>,
    shift: Shift,
    context: Option<&Value>,
) -> Option<Moment>
    ensures { (values : Values) →
        values.packet_context ≡ option_map val (option_copied context.entry) →
        result ≡ (opened_of shift values packet.now).until }
{
    let timeline = timeline_of(packet.stream, shift);
    let end = field_of_role(packet.stream.context_front(), context, Role::TimestampEnd);
    clock_until(timeline.as_ref(), packet.clock, end)
}
