//! Clocks of streams: numbers that are extended to a clock's value, the times of values in nanoseconds,
//! and counts that start again at 0.
#![tactic(auto)]

mod counting;
mod laws;
mod moment;
mod timeline;

pub use counting::{discarded_between, lost_between, steps_up};
pub use laws::least_from_is_least;
pub use moment::{Moment, Shift};
pub use timeline::Timeline;
