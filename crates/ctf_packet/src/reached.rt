//! How far a stream has come.

use ctf_clock::Moment;

/// What a stream has come to at the end of a packet.
#[derive(Clone, Copy)]
pub struct Reached {
    /// The number of the stream class of its packets.
    pub stream: u64,
    /// Its clock, where it has one.
    pub clock: Option<Moment>,
    /// The last packet's count of discarded event records.
    pub discarded: Option<u64>,
    /// The last packet's sequence number.
    pub number: Option<u64>,
}
