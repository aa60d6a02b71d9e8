//! Places of packets.

ghost use Rattle.std.specs.Prelude.{◌^◌, ◌≤◌};

use crate::reached::Reached;
use ctf_clock::Shift;

/// Where a packet begins in its stream (CTF 1.8.3, section 5).
#[derive(Clone, Copy)]
pub struct PacketPlace<'r> {
    /// What is added to each time.
    pub shift: Shift,
    /// What the stream came to by the packet before, if there is one.
    pub reached: Option<&'r Reached>,
    /// In bytes of the stream.
    pub start: u64,
    ghost bounded: { start ≤ 2 ^ 62 },
}
