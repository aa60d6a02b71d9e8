//! A run over streams, an item at a time: what a log and its messages are.
#![tactic(auto)]

mod input;
mod laws;
mod log;
mod next_item;
mod opening;
mod printing;
mod session;
mod step;
mod writing;

pub use ctf_faults::{LoadFault, Outcome, RunFault, io_line};
pub use ctf_merge::MergeFault;
pub use input::Streams;
pub use laws::{bytes_given, first_parts, whole_in_one};
pub use log::Log;
pub use printing::say;
pub use session::{Session, print_all};
pub use step::{Step, Stop};
pub use writing::put_all;
