//! The clock of a packet, and its counts.

ghost use Rattle.std.specs.Prelude.{◌≡◌, Some, option_map, option_copied};
ghost use Rattle.ctf_clock.specs.Counting as counting;
ghost use Rattle.ctf_decode.specs.Views.{form, val};
ghost use Rattle.ctf_packet.specs.Packets as packets;

use crate::fault::StreamFault;
use crate::field::UnsignedField;
use crate::moves::moment_after;
use crate::reached::Reached;
use ctf_class::FrontClass;
use ctf_clock::{Moment, Timeline, discarded_between, lost_between};
use ctf_decode::Value;

/// The clock before a packet: in the first one it starts at 0.
///
/// F9 exactly where the time at that start has more than 64 bits.
pub fn clock_before(
    timeline: Option<&Timeline>,
    reached: Option<&Reached>,
) -> Result<Option<Moment>, StreamFault>
    ensures { result ≡ packets.clock_before (option_copied timeline.entry)
        (option_copied reached.entry) }
{
    match timeline {
        None => Ok(None),
        Some(timeline) => match reached {
            Some(reached) => Ok(reached.clock),
            None => match timeline.moment(0) {
                Some(start) => Ok(Some(start)),
                None => Err(StreamFault::ClockRefused),
            },
        },
    }
}

/// The clock after a packet's context, whose integers set it.
///
/// F9 exactly where one of them is refused.
pub fn clock_after(
    timeline: Option<&Timeline>,
    clock: Option<Moment>,
    class: Option<&FrontClass>,
    value: Option<&Value>,
) -> Result<Option<Moment>, StreamFault>
    ensures { result ≡ packets.clock_after (option_copied timeline.entry) clock
        (packets.moves (option_map form (option_copied class.entry))
        (option_map val (option_copied value.entry))) }
{
    match timeline {
        None => Ok(None),
        Some(timeline) => match clock {
            None => Ok(None),
            Some(clock) => set(timeline, clock, class, value),
        },
    }
}

/// The clock after a scope, where there is one.
fn set(
    timeline: &Timeline,
    clock: Moment,
    class: Option<&FrontClass>,
    value: Option<&Value>,
) -> Result<Option<Moment>, StreamFault>
    ensures { result ≡ packets.clock_after (Some timeline.now) (Some clock)
        (packets.moves (option_map form (option_copied class.entry))
        (option_map val (option_copied value.entry))) }
{
    match class {
        None => Ok(Some(clock)),
        Some(class) => match value {
            None => Ok(Some(clock)),
            Some(value) => match moment_after(timeline, class, value, clock) {
                Some(next) => Ok(Some(next)),
                None => Err(StreamFault::ClockRefused),
            },
        },
    }
}

/// The clock at a packet's end: `timestamp_end`, extended from the clock after its context, or that clock
/// where there is no such field or it is refused.
pub fn clock_until(
    timeline: Option<&Timeline>,
    clock: Option<Moment>,
    end: Option<UnsignedField>,
) -> Option<Moment>
    ensures { result ≡ packets.clock_until (option_copied timeline.entry) clock end }
{
    let timeline = timeline?;
    let clock = clock?;
    let Some(field) = end else {
        return Some(clock);
    };
    let until = timeline.advance(clock, field.width, field.number);
    Some(until.unwrap_or(clock))
}

/// How many packets were lost since one with a sequence number; `None` at the first packet, and where
/// none was.
pub fn lost_since(before: Option<u64>, number: Option<UnsignedField>) -> Option<u64>
    ensures { result ≡ packets.since counting.lost_between before number }
{
    let before = before?;
    let field = number?;
    lost_between(field.width, before, field.number)
}

/// How many event records were discarded since a packet with a count; `None` at the first packet, and
/// where none was.
pub fn discarded_since(before: Option<u64>, count: Option<UnsignedField>) -> Option<u64>
    ensures { result ≡ packets.since counting.discarded_between before count }
{
    let before = before?;
    let field = count?;
    discarded_between(field.width, before, field.number)
}
