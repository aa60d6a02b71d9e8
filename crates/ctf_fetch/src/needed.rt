//! Values that have no parts, and openings of those that have, once their bytes came.

ghost use Rattle.std.specs.Prelude.{◌≡◌, ◌+◌, ◌*◌, ◌≤◌, ◌<◌, min, max, length, get_or, Err, IfOk, OnOk, ℕ};
ghost use Rattle.std.specs.Int.{next_multiple_of};
ghost use Rattle.ctf_decode.specs.Breaks.{past};
ghost use Rattle.ctf_decode.specs.Decoding.{Decodes};
ghost use Rattle.ctf_packet.specs.Scopes.{longest};
ghost use Rattle.ctf_class.specs.declared.class.Kind.TheVariants.{String};
ghost use Rattle.ctf_fetch.specs.Demand.{found_at, text_at, IsFound, Failed, IsOpened, FailsToOpen, EndsNear, EndsAtLeast};
ghost use Rattle.ctf_fetch.specs.Failing.{IfFault};
ghost use Rattle.ctf_fetch.specs.Fetching.{longest_bytes};
ghost use Rattle.ctf_fetch.specs.Keeping.{Keeps};

use crate::demand::ValuePlace;
use crate::fill::{fill_ahead, fill_front};
use crate::intake::Intake;
use ctf_bits::{Source, up};
use ctf_class::{Align, Class};
use ctf_decode::{DecodeFault, DecodeProgress, Decoded, MOST_VALUES, Packet, decode_within};
use ctf_packet::{StreamFault, front_content};

/// The place after the opening of a structure or an array, which begins at a multiple of `align`.
///
/// An error is F1, F5, F11 or F13; or `NoMemory`.
pub(crate) fn opening_end<'a, S: Source>(
    align: Align,
    place: &ValuePlace<'a>,
    intake: &mut Intake<'_, S>,
) -> Result<ValuePlace<'a>, StreamFault>
    requires start { place.now.end ≤ min (8 * length intake.old.buffer.now) longest }
    requires few { length intake.old.buffer.now ≤ longest_bytes }
    ensures keeps { Keeps S.Source intake.old intake.new }
    ensures few { length intake.new.buffer.now ≤ longest_bytes }
    ensures opens { IfOk result (IsOpened place.now (next_multiple_of place.now.end align)) }
    ensures within { IfOk result
        (λ inner. inner.end ≤ min (8 * length intake.new.buffer.now) longest) }
    ensures forward { IfOk result (λ inner. place.now.end ≤ inner.end) }
    ensures near { IfOk result (λ inner.
        8 * length intake.new.buffer.now ≤ max (8 * length intake.old.buffer.now) (inner.end + 7)) }
    ensures faulty { IfFault S.Source intake.old intake.new result
        (λ ending all. FailsToOpen ending place.now (next_multiple_of place.now.end align) all) }
{
    if place.spent >= MOST_VALUES {
        return Err(StreamFault::TooManyValues);
    }
    let end = align.up(place.end);
    if end > front_content(intake.as_slice()) {
        fill_front(intake, u128::from(end))?;
    }
    Ok(ValuePlace {
        alloc: place.alloc,
        scopes: place.scopes,
        frame: place.frame,
        end,
        spent: place.spent + 1,
    })
}

/// The value of a class that has no parts: what it needs is known once it is looked for, but of a string.
pub(crate) fn leaf_on_demand<S: Source>(
    class: &Class,
    place: &ValuePlace<'_>,
    intake: &mut Intake<'_, S>,
) -> Result<Decoded, StreamFault>
    requires start { place.now.end ≤ min (8 * length intake.old.buffer.now) longest }
    requires few { length intake.old.buffer.now ≤ longest_bytes }
    ensures keeps { Keeps S.Source intake.old intake.new }
    ensures few { length intake.new.buffer.now ≤ longest_bytes }
    ensures value { IfOk result (IsFound (found_at class.now place.now intake.new.buffer.now)) }
    ensures within { IfOk result (λ d. d.end ≤ min (8 * length intake.new.buffer.now) longest) }
    ensures forward { IfOk result (λ d. place.now.end ≤ d.end) }
    ensures near { IfOk result (λ d.
        8 * length intake.new.buffer.now ≤ max (8 * length intake.old.buffer.now) (d.end + 7)) }
    ensures faulty { IfFault S.Source intake.old intake.new result
        (λ ending all. Failed ending (found_at class.now place.now all)) }
{
    loop {
        match decode_at(class, place, intake.as_slice()) {
            Ok(decoded) => return Ok(decoded),
            Err(DecodeFault::ContentEnds(bits)) => fill_front(intake, bits)?,
            Err(DecodeFault::NoOption) => return Err(StreamFault::NoOption),
            Err(DecodeFault::TooManyValues) => return Err(StreamFault::TooManyValues),
            Err(DecodeFault::NoMemory) => return Err(StreamFault::NoMemory),
        }
    }
}

/// The value of a class that ends at a bit at least: the bytes up to it are asked for at once.
pub(crate) fn whole_on_demand<S: Source>(
    class: &Class,
    end: u64,
    place: &ValuePlace<'_>,
    intake: &mut Intake<'_, S>,
) -> Result<Decoded, StreamFault>
    requires start { place.now.end ≤ min (8 * length intake.old.buffer.now) longest }
    requires few { length intake.old.buffer.now ≤ longest_bytes }
    requires least { EndsAtLeast class.now place.now end }
    requires end { end ≤ longest }
    ensures keeps { Keeps S.Source intake.old intake.new }
    ensures few { length intake.new.buffer.now ≤ longest_bytes }
    ensures value { IfOk result (IsFound (found_at class.now place.now intake.new.buffer.now)) }
    ensures within { IfOk result (λ d. d.end ≤ min (8 * length intake.new.buffer.now) longest) }
    ensures forward { IfOk result (λ d. place.now.end ≤ d.end) }
    ensures near { IfOk result (λ d.
        8 * length intake.new.buffer.now ≤ max (8 * length intake.old.buffer.now) (d.end + 7)) }
    ensures faulty { IfFault S.Source intake.old intake.new result
        (λ ending all. Failed ending (found_at class.now place.now all)) }
{
    fill_ahead(intake, end)?;
    leaf_on_demand(class, place, intake)
}

/// The value of a class at a place in these bytes.
fn decode_at(class: &Class, place: &ValuePlace<'_>, bytes: &[u8]) -> Result<Decoded, DecodeFault>
    requires { place.now.end ≤ min (8 * length bytes.now) longest }
    ensures decodes { Decodes result (found_at class.now place.now bytes.now) }
    ensures within { IfOk result (λ d. d.end ≤ min (8 * length bytes.now) longest) }
{
    let packet = Packet {
        bytes,
        content: front_content(bytes),
        scopes: place.scopes,
    };
    let at = DecodeProgress {
        end: place.end,
        spent: place.spent,
    };
    decode_within(place.alloc, class, &packet, place.frame, at)
}

/// The value of a string: its bytes are taken up to the first zero byte, and looked at once.
pub(crate) fn string_on_demand<S: Source>(
    class: &Class,
    place: &ValuePlace<'_>,
    intake: &mut Intake<'_, S>,
) -> Result<Decoded, StreamFault>
    requires start { place.now.end ≤ min (8 * length intake.old.buffer.now) longest }
    requires few { length intake.old.buffer.now ≤ longest_bytes }
    requires string { class.now.kind ≡ String }
    ensures keeps { Keeps S.Source intake.old intake.new }
    ensures few { length intake.new.buffer.now ≤ longest_bytes }
    ensures value { IfOk result (IsFound (found_at class.now place.now intake.new.buffer.now)) }
    ensures within { IfOk result (λ d. d.end ≤ min (8 * length intake.new.buffer.now) longest) }
    ensures forward { IfOk result (λ d. place.now.end ≤ d.end) }
    ensures near { IfOk result (λ d.
        8 * length intake.new.buffer.now ≤ max (8 * length intake.old.buffer.now) (d.end + 7)) }
    ensures faulty { IfFault S.Source intake.old intake.new result
        (λ ending all. Failed ending (found_at class.now place.now all)) }
{
    if place.spent >= MOST_VALUES {
        return Err(StreamFault::TooManyValues);
    }
    take_text(place, intake)?;
    leaf_on_demand(class, place, intake)
}

/// Takes bytes until one of a string at a place is zero.
fn take_text<S: Source>(
    place: &ValuePlace<'_>,
    intake: &mut Intake<'_, S>,
) -> Result<(), StreamFault>
    requires begun { place.now.spent < MOST_VALUES }
    requires start { place.now.end ≤ min (8 * length intake.old.buffer.now) longest }
    requires few { length intake.old.buffer.now ≤ longest_bytes }
    ensures keeps { Keeps S.Source intake.old intake.new }
    ensures few { length intake.new.buffer.now ≤ longest_bytes }
    ensures near { OnOk result
        (EndsNear place.now (length intake.old.buffer.now) intake.new.buffer.now) }
    ensures faulty { IfFault S.Source intake.old intake.new result
        (λ ending all. Failed ending (text_at place.now all)) }
{
    let mut next = (up(place.end, 8) / 8) as usize;
    while text_byte(place, next, intake)? != 0 {
        next += 1;
    }
    Ok(())
}

/// The byte at an index of the packet, up to which no byte of a string at a place is zero. It is taken where it is not
/// there.
fn text_byte<S: Source>(
    place: &ValuePlace<'_>,
    next: usize,
    intake: &mut Intake<'_, S>,
) -> Result<u8, StreamFault>
    requires begun { place.now.spent < MOST_VALUES }
    requires few { length intake.old.buffer.now ≤ longest_bytes }
    requires asks { length intake.old.buffer.now ≤ next →
        text_at place.now intake.old.buffer.now ≡ Err (past (8 * (next + 1))) }
    ensures keeps { Keeps S.Source intake.old intake.new }
    ensures few { length intake.new.buffer.now ≤ longest_bytes }
    ensures byte { IfOk result (λ byte. byte ≡ get_or intake.new.buffer.now next 0) }
    ensures there { OnOk result (next < length intake.new.buffer.now) }
    ensures near { (before : ℕ) → EndsNear place.now before intake.old.buffer.now →
        OnOk result (EndsNear place.now before intake.new.buffer.now) }
    ensures faulty { IfFault S.Source intake.old intake.new result
        (λ ending all. Failed ending (text_at place.now all)) }
{
    if next < intake.len() {
        return Ok(intake.as_slice()[next]);
    }
    fill_front(intake, 8 * (next as u128 + 1))?;
    Ok(intake.as_slice()[next])
}
