//! The words of the command line of `bt-ctf`.
#![tactic(auto)]

mod arguments;
mod asked;
mod civil;
mod command;
mod names;
mod number;
mod options;
mod time;
mod usage;

pub use arguments::options_of;
pub use names::stream_names;
pub use options::Options;
pub use usage::Usage;
