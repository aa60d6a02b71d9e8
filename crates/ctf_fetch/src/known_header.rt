//! The header that the packets of a stream share.

ghost use Rattle.std.specs.Prelude.{◌≡◌, ◌*◌, ◌≤◌, min, length, take, IsTrue, IfSome};
ghost use Rattle.ctf_decode.specs.declared.scopes.TheConstants.{MOST_VALUES};
ghost use Rattle.ctf_packet.specs.Scopes.{longest};

use ctf_class::StreamClass;
use ctf_decode::MOST_VALUES;
use std::alloc::Global;

/// The longest header that is kept, in bytes.
const LONGEST_KEPT: usize = 64;

/// The header of a packet, which was decoded or is known: the stream class that it gives, and the bit at which it ends.
#[derive(Clone, Copy)]
pub(crate) struct FoundHeader<'a> {
    pub(crate) stream: &'a StreamClass,
    pub(crate) end: u64,
}

/// A header with the bytes that it was decoded from: each packet of its stream that begins with them has this header.
#[derive(Drop)]
pub(crate) struct KnownHeader<'a> {
    pub(crate) bytes: Vec<u8>,
    pub(crate) found: FoundHeader<'a>,
    /// How many values were begun in it.
    pub(crate) spent: u64,
    ghost within: { found.end ≤ min (8 * length bytes.items) longest },
    ghost few: { spent ≤ MOST_VALUES },
}

impl<'a> KnownHeader<'a> {
    /// Keeps the header that was decoded of these bytes, in which so many values were begun, unless it is long or an
    /// allocation fails.
    pub(crate) fn new(
        alloc: Global,
        bytes: &[u8],
        found: FoundHeader<'a>,
        spent: u64,
    ) -> Option<KnownHeader<'a>>
        requires within { found.end ≤ min (8 * length bytes.now) longest }
        requires few { spent ≤ MOST_VALUES }
        ensures bytes { IfSome result (λ k. k.bytes.items ≡ bytes.now) }
        ensures found { IfSome result (λ k. k.found ≡ found.entry) }
        ensures spent { IfSome result (λ k. k.spent ≡ spent) }
    {
        if bytes.len() > LONGEST_KEPT {
            return None;
        }
        match bytes.to_vec(alloc) {
            Err(_) => None,
            Ok(bytes) => Some(KnownHeader {
                bytes,
                found,
                spent,
            }),
        }
    }

    /// Whether a packet begins with its bytes.
    pub(crate) fn is_front_of(&self, packet: &[u8]) -> bool
        ensures { IsTrue result →
            take (length self.now.bytes.items) packet.now ≡ self.now.bytes.items }
    {
        let count = self.bytes.len();
        packet.len() >= count && packet[..count] == self.bytes[..]
    }
}
