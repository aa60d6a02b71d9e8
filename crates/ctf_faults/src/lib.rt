//! How a run ends, and the lines that say why.
#![tactic(auto)]

mod io;
mod line;
mod load;
mod outcome;
mod table;

pub use io::io_line;
pub use line::{metadata_line, stream_line};
pub use load::LoadFault;
pub use outcome::{Outcome, RunFault};
