//! The lines of a log: event records, and messages about what tracers did not write.
#![tactic(auto)]

mod gap;
mod printer;

pub use printer::{Printer, line};
