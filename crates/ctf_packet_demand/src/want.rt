//! What the first bytes of a packet ask for.

use ctf_class::StreamClass;
use ctf_packet::Sizes;

/// A packet whose header and context were decoded.
#[derive(Clone, Copy)]
pub struct Begun<'a> {
    pub stream: &'a StreamClass,
    /// Where its context ends, in bits from the packet's first one.
    pub first: u64,
}

/// What a packet asks for whose header and context were decoded.
#[derive(Clone, Copy)]
pub enum Want<'a> {
    /// The packet, of these sizes, in bits.
    Whole(Begun<'a>, Sizes),
    /// All that is left of the stream.
    Rest(Begun<'a>),
}
