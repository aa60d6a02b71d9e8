//! Values in a beginning of a packet.

ghost use Rattle.std.specs.Prelude.{◌≡◌, ◌+◌, ◌*◌, ◌^◌, ◌<◌, ◌≤◌, [], length, IfOk, IfErr};
ghost use Rattle.ctf_decode.specs.Values.{count};
ghost use Rattle.ctf_decode.specs.Breaks.{Breaks, past};
ghost use Rattle.ctf_decode.specs.Stands.{Stands};
ghost use Rattle.ctf_decode.specs.Views.{form, val, input_in};
ghost use Rattle.ctf_decode.specs.Fronts.{OnDone, OnNeed, Needed, ToldInFront};

use crate::decoding::{Decoded, decode};
use crate::fault::DecodeFault;
use crate::scopes::{MOST_VALUES, Scopes};
use ctf_class::Class;
use std::alloc::Global;

/// What a beginning of a packet holds.
#[derive(Drop)]
pub enum Front {
    /// A value that is there, and so in the whole packet.
    Done(Decoded),
    /// More: every packet with this beginning in which a value is there has at least so many bits.
    Need(u128),
}

/// The value of a class that is at the bit `start` of a beginning of a packet, or how many bits of
/// the packet are needed.
///
/// An error is F8, F11, or `NoMemory`.
pub fn decode_front(
    alloc: Global,
    class: &Class,
    front: &[u8],
    start: u64,
    scopes: &Scopes,
) -> Result<Front, DecodeFault>
    requires start { start ≤ 8 * length front.now }
    requires content { 8 * length front.now ≤ 2 ^ 62 }
    ensures value { IfOk result
        (OnDone (λ d. Stands (form class.now) (input_in front.now (8 * length front.now) scopes.now)
        [] start (val d.value) d.end)) }
    ensures counted { IfOk result (OnDone (λ d. d.spent ≡ scopes.now.spent + count (val d.value))) }
    ensures few { IfOk result (OnDone (λ d. d.spent ≤ MOST_VALUES)) }
    ensures within { IfOk result (OnDone (λ d. d.end ≤ 8 * length front.now)) }
    ensures ends { IfOk result
        (OnNeed (λ n. Breaks (form class.now) (input_in front.now (8 * length front.now) scopes.now)
        [] start scopes.now.spent (past n))) }
    ensures beyond { IfOk result (OnNeed (λ n. 8 * length front.now < n)) }
    ensures needed { IfOk result (OnNeed (Needed (form class.now) front.now scopes.now start)) }
    ensures fault { IfErr result
        (ToldInFront (Breaks (form class.now) (input_in front.now (8 * length front.now) scopes.now)
        [] start scopes.now.spent)) }
{
    let content = 8 * front.len() as u64;
    match decode(alloc, class, front, start, content, scopes) {
        Err(DecodeFault::ContentEnds(bits)) => Ok(Front::Need(bits)),
        decoded => Ok(Front::Done(decoded?)),
    }
}
