//! Metadata packets.

ghost use Rattle.std.specs.Prelude.{◌≡◌, ◌≤◌, false, length, MatchOption, MatchResult};
ghost use Rattle.tsdl_text.specs.Packets.{magic, word, order_of, sizes_fit, header_fault, first_fault, IsJoined, MetaText, MetaRefused};
ghost use Rattle.tsdl_text.specs.PacketReading.{HasEnds, BeginsPacket, JoinRefused};

use crate::fault::MetaFault;
use byteorder::{BigEndian, ByteOrder, LittleEndian};
use std::alloc::Global;

/// How many bytes metadata has at the most (own).
pub const MOST_BYTES: usize = 67_108_864;

/// How many bytes the header of a metadata packet has (CTF 1.8.3, section 7.1).
pub const HEADER_LEN: usize = 37;

/// Where the uuid of a header begins, in bytes, after the magic (CTF 1.8.3, section 7.1).
const UUID_AT: usize = 4;

/// Where its checksum begins, after the uuid.
const CHECKSUM_AT: usize = 20;

/// Where the size of the content begins.
const CONTENT_SIZE_AT: usize = 24;

/// Where the size of the packet begins.
const PACKET_SIZE_AT: usize = 28;

/// Where the scheme of the compression is.
const COMPRESSION_AT: usize = 32;

/// Where the scheme of the encryption is.
const ENCRYPTION_AT: usize = 33;

/// Where the scheme of the checksum is.
const CHECKSUM_SCHEME_AT: usize = 34;

/// Where the major version is.
const MAJOR_AT: usize = 35;

/// Where the minor version is.
const MINOR_AT: usize = 36;

/// The byte order of the headers.
#[derive(Clone, Copy)]
pub(crate) enum HeaderOrder {
    Big,
    Little,
}

impl HeaderOrder {
    /// The magic in this order.
    fn magic(self) -> &'static [u8]
        ensures { result.now ≡ magic self }
    {
        match self {
            HeaderOrder::Big => &[0x75, 0xD1, 0x1D, 0x57],
            HeaderOrder::Little => &[0x57, 0x1D, 0xD1, 0x75],
        }
    }

    /// The number in the first four bytes.
    #[tactic(auto, unfolding(crate::specs::Packets::word))]
    fn word(self, bytes: &[u8]) -> u32
        requires { 4 ≤ length bytes.now }
        ensures { result ≡ word self bytes.now }
    {
        match self {
            HeaderOrder::Big => BigEndian::read_u32(bytes),
            HeaderOrder::Little => LittleEndian::read_u32(bytes),
        }
    }

    /// The order of the magic at the beginning, if it is there.
    #[tactic(auto, unfolding(crate::specs::Packets::order_of))]
    fn of(bytes: &[u8]) -> Option<HeaderOrder>
        ensures { result ≡ order_of bytes.now }
    {
        let front = &bytes[..bytes.len().min(UUID_AT)];
        if front == HeaderOrder::Big.magic() {
            Some(HeaderOrder::Big)
        } else if front == HeaderOrder::Little.magic() {
            Some(HeaderOrder::Little)
        } else {
            None
        }
    }
}

/// Where the content ends and where the packet ends, in bytes, if the sizes in the header are possible.
fn ends(order: HeaderOrder, rest: &[u8]) -> Option<(usize, usize)>
    requires { HEADER_LEN ≤ length rest.now }
    ensures { MatchOption result (sizes_fit order rest.now ≡ false) (HasEnds order rest.now) }
{
    let content_size = order.word(&rest[CONTENT_SIZE_AT..PACKET_SIZE_AT]) as usize;
    let packet_size = order.word(&rest[PACKET_SIZE_AT..COMPRESSION_AT]) as usize;
    if content_size % 8 != 0 || packet_size % 8 != 0 {
        return None;
    }
    let content_end = content_size / 8;
    let packet_end = packet_size / 8;
    if content_end < HEADER_LEN || packet_end < content_end || rest.len() < packet_end {
        return None;
    }
    Some((content_end, packet_end))
}

/// The first check that a header fails, but for the sizes.
#[tactic(auto, unfolding(crate::specs::Packets::header_fault))]
fn header_fault(order: HeaderOrder, id: &[u8], rest: &[u8]) -> Option<MetaFault>
    ensures { result ≡ header_fault order id.now rest.now }
{
    if rest.len() < HEADER_LEN {
        return Some(MetaFault::CutShort);
    }
    if &rest[..UUID_AT] != order.magic() {
        return Some(MetaFault::WrongMagic);
    }
    if rest[COMPRESSION_AT] != 0 || rest[ENCRYPTION_AT] != 0 || rest[CHECKSUM_SCHEME_AT] != 0 {
        return Some(MetaFault::SchemeUnsupported);
    }
    if rest[MAJOR_AT] != 1 || rest[MINOR_AT] != 8 {
        return Some(MetaFault::WrongVersion);
    }
    if &rest[UUID_AT..CHECKSUM_AT] != id {
        return Some(MetaFault::UuidDiffers);
    }
    None
}

/// The content of the next packet, and how many bytes the packet has.
fn packet<'a>(order: HeaderOrder, id: &[u8], rest: &'a [u8]) -> Result<(&'a [u8], usize), MetaFault>
    ensures { MatchResult result
        (λ found. BeginsPacket order id.now rest.now found.0.now found.1)
        (λ fault. first_fault order id.now rest.now ≡ Some fault) }
{
    if let Some(fault) = header_fault(order, id, rest) {
        return Err(fault);
    }
    match ends(order, rest) {
        Some((end, len)) => Ok((&rest[HEADER_LEN..end], len)),
        None => Err(MetaFault::CutShort),
    }
}

/// The contents of packets, joined.
fn contents(alloc: Global, order: HeaderOrder, bytes: &[u8]) -> Result<Vec<u8>, MetaFault>
    requires { order_of bytes.now ≡ Some order }
    ensures { MatchResult result (λ text. IsJoined order bytes.now text.items)
        (λ fault. JoinRefused order bytes.now fault) }
{
    if bytes.len() < HEADER_LEN {
        return Err(MetaFault::CutShort);
    }
    let id = &bytes[UUID_AT..CHECKSUM_AT];
    let mut text = Vec::new(alloc);
    let mut start = 0;
    while start < bytes.len() {
        let (content, len) = packet(order, id, &bytes[start..])?;
        text.extend_from_slice(content)?;
        start += len;
    }
    Ok(text)
}

/// The text of metadata, which is plain text or packets whose contents, joined, are the text
/// (CTF 1.8.3, section 7.1). It fails where the bytes are more than 67,108,864 (M6) or a packet is not good (M1
/// to M5), and where an allocation fails.
pub fn metadata_text(alloc: Global, bytes: &[u8]) -> Result<Vec<u8>, MetaFault>
    ensures { MatchResult result (λ text. MetaText bytes.now text.items) (MetaRefused bytes.now) }
{
    if bytes.len() > MOST_BYTES {
        return Err(MetaFault::TooLong);
    }
    match HeaderOrder::of(bytes) {
        Some(order) => contents(alloc, order, bytes),
        None => Ok(Vec::from_slice(alloc, bytes)?),
    }
}
