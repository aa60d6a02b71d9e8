//! The values of scopes.

ghost use Rattle.std.specs.Prelude.{◌≡◌, ◌*◌, ◌^◌, ◌≤◌, min, [], None, length, option_map, option_copied, IfOk, OnErr};
ghost use Rattle.ctf_decode.specs.Views.{form};
ghost use Rattle.ctf_decode.specs.Walk.{walk};
ghost use Rattle.ctf_packet.specs.Scopes as values;
ghost use Rattle.ctf_packet.specs.Views.{values_of, PutsValue, PutsScope, IsTold};

use crate::fault::StreamFault;
use crate::sizes::LONGEST_PACKET;
use ctf_bits::Ending;
use ctf_class::{Class, Scope};
use ctf_decode::{DecodeFault, MOST_VALUES, Packet, Scopes, Value, decode_into};
use std::alloc::Global;

/// Where the value of a scope begins in a packet (CTF 1.8.3, section 7.3.2).
#[derive(Clone, Copy)]
pub struct ScopePlace<'a> {
    pub scope: Scope,
    /// The packet's bytes, and any after them.
    pub bytes: &'a [u8],
    /// Where the packet's content ends, in bits from its first one.
    pub content: u64,
    /// In bits from the packet's first one.
    pub place: u64,
    ghost start: { place ≤ content },
    ghost bounded: { content ≤ 2 ^ 62 },
    ghost held: { content ≤ 8 * length bytes.now },
}

/// Decodes the value of a class at a place into the scope there, and gives the place where it ends, in bits from the
/// packet's first one. The memory of `spare` is used for it, and an unspecified value is in it then.
#[inline(always)]
pub fn scope_into(
    alloc: Global,
    class: &Class,
    at: &ScopePlace<'_>,
    spare: &mut Value,
    scopes: &mut Scopes,
) -> Result<u64, DecodeFault>
    ensures puts { let before = values_of scopes.old in
        PutsValue at.now.scope before (walk (form class.now)
        (values.input_of at.now.bytes.now at.now.content before) [] at.now.place scopes.old.spent)
        result scopes.new }
    ensures within { IfOk result (λ end. end ≤ at.now.content) }
    ensures forward { IfOk result (λ end. at.now.place ≤ end) }
    ensures kept { OnErr result (scopes.new ≡ scopes.old) }
{
    let packet = Packet {
        bytes: at.bytes,
        content: at.content,
        scopes: &*scopes,
    };
    let reached = decode_into(alloc, class, &packet, at.place, spare)?;
    scopes.exchange(at.scope, spare);
    scopes.set_spent(reached.spent);
    Ok(reached.end)
}

/// The content of the beginning of a stream, as far as a packet may reach, in bits.
pub fn front_content(left: &[u8]) -> u64
    ensures value { result ≡ min (8 * length left.now) values.longest }
    ensures held { result ≤ 8 * length left.now }
    ensures bounded { result ≤ LONGEST_PACKET }
{
    let bytes = left.len() as u64;
    if bytes >= LONGEST_PACKET / 8 {
        return LONGEST_PACKET;
    }
    8 * bytes
}

/// What is wrong with a stream that ends inside a packet.
pub fn cut_short(ending: Ending) -> StreamFault
    ensures { result ≡ values.cut_short ending }
{
    match ending {
        Ending::Clean => StreamFault::CutShort,
        Ending::Failed => StreamFault::ReadFailed,
    }
}

/// What is wrong with an event record whose scope has a fault.
fn fault_in_record(fault: DecodeFault) -> StreamFault
    ensures { IsTold values.fault_in_record fault result }
{
    match fault {
        DecodeFault::ContentEnds(_) => StreamFault::ContentEnds,
        DecodeFault::NoOption => StreamFault::NoOption,
        DecodeFault::TooManyValues => StreamFault::TooManyValues,
        DecodeFault::NoMemory => StreamFault::NoMemory,
    }
}

/// Decodes the value of a scope of an event record at a place into that scope, and gives the place where it ends, in
/// bits from the packet's first one. The memory of `spare` is used for it, and an unspecified value is in it then.
#[inline(always)]
pub fn record_scope(
    alloc: Global,
    class: Option<&Class>,
    at: &ScopePlace<'_>,
    spare: &mut Value,
    scopes: &mut Scopes,
) -> Result<u64, StreamFault>
    ensures puts { let before = values_of scopes.old in
        PutsScope at.now.scope before (values.scope_at values.fault_in_record
        (option_map form (option_copied class.entry))
        (values.input_of at.now.bytes.now at.now.content before) at.now.place scopes.old.spent)
        result scopes.new }
    ensures within { IfOk result (λ end. end ≤ at.now.content) }
    ensures forward { IfOk result (λ end. at.now.place ≤ end) }
{
    match class {
        None => {
            scopes.leave(at.scope, spare);
            Ok(at.place)
        }
        Some(class) => match scope_into(alloc, class, at, spare, scopes) {
            Ok(end) => Ok(end),
            Err(fault) => Err(fault_in_record(fault)),
        },
    }
}
