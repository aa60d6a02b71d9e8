//! Times of a clock's values.

ghost use Rattle.std.specs.Prelude.{◌≡◌, ◌^◌, ◌+ℤ◌, ◌*ℤ◌, ◌≤ℤ◌, pos, neg_ℤ};
ghost use Rattle.std.specs.Int.{int_div_euclid};
ghost use Rattle.ctf_clock.specs.Clock as clocks;

use crate::counting::steps_up;
use crate::moment::{Moment, Shift};
use ctf_class::{Clock, Frequency, Width};
use std::marker::Model;

/// Nanoseconds in a second.
const NANOS_A_SECOND: i128 = 1_000_000_000;

/// How the cycles of a clock become nanoseconds since the epoch (CTF 1.8.3, section 8). Contracts see
/// where it starts, in nanoseconds, its offset in cycles, and its frequency.
#[derive(Clone, Copy)]
pub struct Timeline {
    start: i128,
    offset: i64,
    frequency: Frequency,
}

impl Model for Timeline {
    ghost use Rattle.std.specs.Prelude.{pos, ◌<ℤ◌, ◌^◌, neg_ℤ};
    ghost use Rattle.ctf_clock.specs.Clock.{Line};

    ghost Value = { Line };

    ghost view = { λ timeline. record {
      start = timeline.start;
      offset = timeline.offset;
      frequency = timeline.frequency;
    } };

    ghost invariant = { λ timeline. (neg_ℤ (pos (2 ^ 96)) <ℤ timeline.start)
        × (timeline.start <ℤ pos (2 ^ 96)) };

    ghost inverse = { λ line. record {
      start = line.start;
      offset = line.offset;
      frequency = line.frequency;
    } };
}

impl Timeline {
    /// The times of a clock, each shifted.
    pub fn new(clock: &Clock, shift: Shift) -> Timeline
        ensures { result ≡ clocks.line_of clock.now shift }
    {
        let seconds = i128::from(clock.offset_seconds) + i128::from(shift.seconds);
        Timeline {
            start: seconds * NANOS_A_SECOND + i128::from(shift.nanos),
            offset: clock.offset,
            frequency: clock.frequency,
        }
    }

    /// The time at a value of the clock, in nanoseconds since the epoch, rounded down. `None` exactly
    /// where it has more than 64 bits.
    #[inline(always)]
    pub fn time(&self, cycles: u64) -> Option<i64>
        ensures { result ≡ clocks.time_of self.now cycles }
    {
        let time = self.start + nanos_of(self.offset, cycles, self.frequency);
        i64::try_from(time).ok()
    }

    /// The moment at a value of the clock. `None` exactly where its time has more than 64 bits.
    #[inline(always)]
    pub fn moment(&self, cycles: u64) -> Option<Moment>
        ensures { result ≡ clocks.moment_at self.now cycles }
    {
        let time = self.time(cycles)?;
        Some(Moment { cycles, time })
    }

    /// The moment at which an integer of `width` bits sets the clock: its value becomes the least number
    /// that is not below the old one and has the integer's bits (CTF 1.8.3, section 8). `None` exactly
    /// where that value or its time has more than 64 bits.
    #[inline(always)]
    pub fn advance(&self, from: Moment, width: Width, number: u64) -> Option<Moment>
        ensures { result ≡ clocks.advanced self.now from width number }
    {
        let steps = steps_up(width, from.cycles, number);
        self.moment(from.cycles.checked_add(steps)?)
    }
}

/// The nanoseconds of so many cycles after an offset, rounded down.
fn nanos_of(offset: i64, cycles: u64, frequency: Frequency) -> i128
    ensures value { result ≡ int_div_euclid ((offset +ℤ pos cycles) *ℤ pos 1000000000)
        (pos frequency) }
    ensures above { neg_ℤ (pos (2 ^ 96)) ≤ℤ result }
    ensures below { result ≤ℤ pos (2 ^ 96) }
{
    let cycles = i128::from(offset) + i128::from(cycles);
    let frequency = i128::from(frequency.cycles());
    // The usual clock needs no division.
    if frequency == NANOS_A_SECOND {
        return cycles;
    }
    (cycles * NANOS_A_SECOND).div_euclid(frequency)
}
