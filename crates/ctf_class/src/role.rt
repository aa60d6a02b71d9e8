//! Names by which the members of a packet's header and context say something of the packet.

/// What a member of a packet's header or context says of the packet, by its name (CTF 1.8.3, section 5).
#[derive(Clone, Copy)]
pub enum Role {
    Magic,
    Uuid,
    StreamId,
    PacketSize,
    ContentSize,
    TimestampEnd,
    EventsDiscarded,
    SequenceNumber,
}
