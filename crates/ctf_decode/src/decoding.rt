//! Values of classes, and their faults.

ghost use Rattle.std.specs.Prelude.{◌≡◌, ◌+◌, ◌*◌, ◌^◌, ◌≤◌, [], length, IfOk, IfErr};
ghost use Rattle.ctf_decode.specs.Values.{count};
ghost use Rattle.ctf_decode.specs.Stands.{Stands};
ghost use Rattle.ctf_decode.specs.Breaks.{Breaks};
ghost use Rattle.ctf_decode.specs.Views.{form, val, env, input, input_in};
ghost use Rattle.ctf_decode.specs.Walk.{walk};
ghost use Rattle.ctf_decode.specs.Gives.{Told};
ghost use Rattle.ctf_decode.specs.Decoding.{Decodes};

use crate::fault::DecodeFault;
use crate::place::{Around, Cursor, DecodeProgress, Frame, Packet, Stopped};
use crate::scopes::{MOST_VALUES, Scopes};
use crate::value::Value;
use crate::walk::{scope_into, value_into};
use ctf_class::Class;
use std::alloc::Global;

/// A decoded value.
#[derive(Drop)]
pub struct Decoded {
    pub value: Value,
    /// The place where it ends, in bits from the packet's first one.
    pub end: u64,
    /// How many values were begun so far.
    pub spent: u64,
}

/// Makes the value of a class that is at the bit `start` of a packet the value, whatever it was before; its memory is
/// used again. The value of each scope that the class may name is in the packet's scopes, and so is how many values
/// were begun before.
///
/// At an error the value is unspecified: F6 with the place that the content does not reach, F8, F11, or
/// `NoMemory`.
#[inline(always)]
pub fn decode_into(
    alloc: Global,
    class: &Class,
    packet: &Packet<'_>,
    start: u64,
    value: &mut Value,
) -> Result<DecodeProgress, DecodeFault>
    requires start { start ≤ packet.now.content }
    ensures value { IfOk result
        (λ r. Stands (form class.now) (input packet.now) [] start (val value.new) r.end) }
    ensures counted { IfOk result (λ r. r.spent ≡
        packet.now.scopes.now.spent + count (val value.new)) }
    ensures few { IfOk result (λ r. r.spent ≤ MOST_VALUES) }
    ensures within { IfOk result (λ r. r.end ≤ packet.now.content) }
    ensures fault { IfErr result
        (Told (Breaks (form class.now) (input packet.now) [] start
        packet.now.scopes.now.spent)) }
{
    let around = Around {
        alloc,
        packet: *packet,
        frame: &Frame::Top,
    };
    let mut at = Cursor {
        end: start,
        spent: packet.scopes.spent(),
        fault: DecodeFault::NoMemory,
    };
    match scope_into(class, &around, &mut at, value) {
        Ok(()) => Ok(DecodeProgress {
            end: at.end,
            spent: at.spent,
        }),
        Err(Stopped) => Err(at.fault),
    }
}

/// The value of a class that is at the bit `start` of a packet. `content` is where the packet's
/// content ends, in bits. The value of each scope that the class may name is in `scopes`, and so is how
/// many values were begun before.
///
/// An error is F6 with the place that the content does not reach, F8, F11, or `NoMemory`.
pub fn decode(
    alloc: Global,
    class: &Class,
    packet: &[u8],
    start: u64,
    content: u64,
    scopes: &Scopes,
) -> Result<Decoded, DecodeFault>
    requires start { start ≤ content }
    requires content { content ≤ 2 ^ 62 }
    requires held { content ≤ 8 * length packet.now }
    ensures value { IfOk result
        (λ d. Stands (form class.now) (input_in packet.now content scopes.now) [] start
        (val d.value) d.end) }
    ensures counted { IfOk result (λ d. d.spent ≡ scopes.now.spent + count (val d.value)) }
    ensures few { IfOk result (λ d. d.spent ≤ MOST_VALUES) }
    ensures within { IfOk result (λ d. d.end ≤ content) }
    ensures fault { IfErr result
        (Told (Breaks (form class.now) (input_in packet.now content scopes.now) [] start
        scopes.now.spent)) }
{
    let mut value = Value::Unsigned(0);
    let packet = Packet {
        bytes: packet,
        content,
        scopes,
    };
    let reached = decode_into(alloc, class, &packet, start, &mut value)?;
    Ok(Decoded {
        value,
        end: reached.end,
        spent: reached.spent,
    })
}

/// The value of a class that is at a place of a packet, which may see the earlier members of the structures
/// around it: what a header or a context is decoded by, part after part, while its bytes come.
///
/// An error is F6 with the place that the content does not reach, F8, F11, or `NoMemory`.
pub fn decode_within(
    alloc: Global,
    class: &Class,
    packet: &Packet<'_>,
    frame: &Frame<'_>,
    at: DecodeProgress,
) -> Result<Decoded, DecodeFault>
    requires start { at.end ≤ packet.now.content }
    ensures decodes { let found = walk (form class.now) (input packet.now)
        (env frame.now) at.end at.spent in
        Decodes result found }
    ensures within { IfOk result (λ d. d.end ≤ packet.now.content) }
    ensures few { IfOk result (λ d. d.spent ≤ MOST_VALUES) }
{
    let around = Around {
        alloc,
        packet: *packet,
        frame: &*frame,
    };
    let mut value = Value::Unsigned(0);
    let mut cursor = Cursor {
        end: at.end,
        spent: at.spent,
        fault: DecodeFault::NoMemory,
    };
    match value_into(class, &around, &mut cursor, &mut value) {
        Ok(()) => Ok(Decoded {
            value,
            end: cursor.end,
            spent: cursor.spent,
        }),
        Err(Stopped) => Err(cursor.fault),
    }
}
