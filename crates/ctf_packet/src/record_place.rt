//! Places of event records.

ghost use Rattle.std.specs.Prelude.{◌*◌, ◌^◌, ◌≤◌, length};

use crate::packet::OpenPacket;
use ctf_clock::Moment;

/// Where an event record of a packet begins (CTF 1.8.3, section 6).
#[derive(Clone, Copy)]
pub struct RecordPlace<'p, 'a> {
    pub packet: &'p OpenPacket<'a>,
    /// The packet's bytes, and any after them.
    pub bytes: &'p [u8],
    /// How far the packet's clock came before it.
    pub clock: Option<Moment>,
    /// In bits from the packet's first one.
    pub place: u64,
    ghost start: { place ≤ packet.now.content },
    ghost bounded: { packet.now.content ≤ 2 ^ 62 },
    ghost held: { packet.now.content ≤ 8 * length bytes.now },
}
