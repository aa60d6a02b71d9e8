//! How times are printed.

use crate::zone::Zone;

/// What a stamp shows.
#[derive(Clone, Copy, Default)]
pub enum ClockStyle {
    /// `hh:mm:ss.nnnnnnnnn` in the zone.
    #[default]
    Time,
    /// `YYYY-MM-DD hh:mm:ss.nnnnnnnnn` in the zone.
    Date,
    /// Seconds since the epoch, with nine digits after the dot.
    Seconds,
    /// The clock's value without its offsets, in 20 digits.
    Cycles,
}

/// How the times of lines are printed.
#[derive(Clone, Copy)]
pub struct Style {
    /// What a stamp shows.
    pub clock: ClockStyle,
    /// Whether a line has the time since the one before.
    pub delta: bool,
    /// The zone of civil times.
    pub zone: Zone,
}
