//! Laws of what the bytes of a stream mean.
#![tactic(auto)]

mod laws;

pub use laws::{all_timed_or_none, items_are_held, later_bytes_change_nothing, times_rise};
