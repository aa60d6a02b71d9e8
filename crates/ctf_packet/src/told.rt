//! What the header of an event record says.

ghost use Rattle.std.specs.Prelude.{◌≡◌, [], Some, Ok, option_map, option_copied};
ghost use Rattle.ctf_decode.specs.Views.{form, val};
ghost use Rattle.ctf_packet.specs.Packets as packets;
ghost use Rattle.ctf_packet.specs.Telling.{TellsHeader};

use crate::fault::StreamFault;
use crate::moves::{IdAndClock, tell_scope};
use ctf_class::Class;
use ctf_clock::{Moment, Timeline};
use ctf_decode::{Value, last_id};

/// What the header of an event record says of it.
#[derive(Clone, Copy)]
pub(crate) struct HeaderTold {
    /// The number of its class, if there is one.
    pub(crate) id: Option<i128>,
    /// The clock after it.
    pub(crate) clock: Option<Moment>,
}

/// What a header says, where the clock came so far.
///
/// F9 exactly where one of its integers that set the clock is refused.
pub(crate) fn told_by(
    timeline: Option<&Timeline>,
    clock: Option<Moment>,
    class: Option<&Class>,
    header: Option<&Value>,
) -> Result<HeaderTold, StreamFault>
    ensures { TellsHeader (option_copied timeline.entry) clock
        (option_map form (option_copied class.entry)) (option_map val (option_copied header.entry))
        result }
{
    match class {
        None => Ok(HeaderTold {
            id: None,
            clock: unchanged_clock(timeline, clock),
        }),
        Some(class) => match header {
            None => Ok(HeaderTold {
                id: None,
                clock: unchanged_clock(timeline, clock),
            }),
            Some(header) => told_in(timeline, clock, class, header),
        },
    }
}

/// The clock after a scope that does not set it.
fn unchanged_clock(timeline: Option<&Timeline>, clock: Option<Moment>) -> Option<Moment>
    ensures { packets.clock_after (option_copied timeline.entry) clock [] ≡ Ok result }
{
    match timeline {
        None => None,
        Some(_line) => clock,
    }
}

/// What a header that is there says.
fn told_in(
    timeline: Option<&Timeline>,
    clock: Option<Moment>,
    class: &Class,
    header: &Value,
) -> Result<HeaderTold, StreamFault>
    ensures { TellsHeader (option_copied timeline.entry) clock (Some (form class.now))
        (Some (val header.now)) result }
{
    match timeline {
        None => Ok(HeaderTold {
            id: last_id(class, header),
            clock: None,
        }),
        Some(timeline) => match clock {
            None => Ok(HeaderTold {
                id: last_id(class, header),
                clock: None,
            }),
            Some(clock) => told_on(timeline, clock, class, header),
        },
    }
}

/// What a header says that sets a clock.
fn told_on(
    timeline: &Timeline,
    clock: Moment,
    class: &Class,
    header: &Value,
) -> Result<HeaderTold, StreamFault>
    ensures { TellsHeader (Some timeline.now) (Some clock) (Some (form class.now))
        (Some (val header.now)) result }
{
    let mut told = IdAndClock { id: None, clock };
    if tell_scope(timeline, class, header, &mut told) {
        Ok(HeaderTold {
            id: told.id,
            clock: Some(told.clock),
        })
    } else {
        Err(StreamFault::ClockRefused)
    }
}
