//! Sizes of packets.

ghost use Rattle.std.specs.Prelude.{◌≡◌, ◌*◌, ℕ, None, length, IfOk};
ghost use Rattle.ctf_packet.specs.Packets as packets;
ghost use Rattle.ctf_packet.specs.Gives.{SizesTold, Fitting};

use crate::fault::StreamFault;
use crate::scope::cut_short;
use ctf_bits::{Ending, up};

/// The longest packet, in bits.
pub const LONGEST_PACKET: u64 = 2_147_483_648;

/// The sizes of a packet and of its content, in bits.
#[derive(Clone, Copy)]
pub struct Sizes {
    pub packet: u64,
    pub content: u64,
}

/// The sizes that a packet's context gives, where it ends at a bit; `None` where it gives neither, and the
/// packet is the rest of the stream (CTF 1.8.3, section 5.2).
///
/// F5 exactly where they can't be.
pub fn told_sizes(
    packet_size: Option<u64>,
    content_size: Option<u64>,
    end: u64,
) -> Result<Option<Sizes>, StreamFault>
    ensures { (rest : ℕ) → SizesTold packet_size content_size rest end result }
{
    let sizes = match packet_size {
        Some(packet) => Sizes {
            packet,
            content: content_size.unwrap_or(packet),
        },
        None => match content_size {
            None => return Ok(None),
            Some(content) => {
                if content > LONGEST_PACKET {
                    return Err(StreamFault::ImpossibleSizes);
                }
                Sizes {
                    packet: up(content, 8),
                    content,
                }
            }
        },
    };
    if !are_possible(sizes, end) {
        return Err(StreamFault::ImpossibleSizes);
    }
    Ok(Some(sizes))
}

/// The sizes of a packet whose context ends at a bit, where `left` is left of its stream.
///
/// F5 where they can't be; F1 or F13 where its end was not seen.
#[tactic(auto, unfolding(crate::specs::Packets::sizes_checked))]
pub fn sizes_checked(
    packet_size: Option<u64>,
    content_size: Option<u64>,
    ending: Ending,
    left: &[u8],
    end: u64,
) -> Result<Sizes, StreamFault>
    ensures value { result ≡ packets.sizes_checked packet_size content_size ending
        (8 * length left.now) end }
    ensures fits { IfOk result (Fitting end (length left.now)) }
{
    let Some(sizes) = told_sizes(packet_size, content_size, end)? else {
        return rest_sizes(ending, left, end);
    };
    if (left.len() as u64) < sizes.packet / 8 {
        return Err(cut_short(ending));
    }
    Ok(sizes)
}

/// The sizes of a packet that is the rest of its stream.
#[tactic(auto, unfolding(crate::specs::Packets::sizes_checked))]
fn rest_sizes(ending: Ending, left: &[u8], end: u64) -> Result<Sizes, StreamFault>
    ensures value { result ≡ packets.sizes_checked None None ending (8 * length left.now) end }
    ensures fits { IfOk result (Fitting end (length left.now)) }
{
    let bytes = left.len() as u64;
    if bytes > LONGEST_PACKET / 8 {
        return Err(StreamFault::ImpossibleSizes);
    }
    let sizes = Sizes {
        packet: 8 * bytes,
        content: 8 * bytes,
    };
    if !are_possible(sizes, end) {
        return Err(StreamFault::ImpossibleSizes);
    }
    match ending {
        Ending::Clean => Ok(sizes),
        Ending::Failed => Err(StreamFault::ReadFailed),
    }
}

/// Whether a packet whose context ends at a bit can have these sizes.
pub fn are_possible(sizes: Sizes, end: u64) -> bool
    ensures { result ≡ packets.are_possible sizes end }
{
    0 < sizes.packet
        && sizes.packet % 8 == 0
        && sizes.packet <= LONGEST_PACKET
        && sizes.content <= sizes.packet
        && end <= sizes.content
}
