//! The times of a log: which of them are wanted, stamps of moments in four styles, the time since the line
//! before, and time zones.
#![tactic(auto)]

mod civil;
mod digits;
mod laws;
mod stamper;
mod style;
mod text;
mod trim;
mod zone;

pub use laws::{civil_times_are_shown, folds_give_the_earlier};
pub use stamper::{MOST_PART, MOST_STAMP, Stamper};
pub use style::{ClockStyle, Style};
pub use text::{append_part, append_stamp};
pub use trim::{Trim, Verdict};
pub use zone::{Zone, ZoneFault};
