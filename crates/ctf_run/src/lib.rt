//! A run over traces: from the bytes of their metadata and of their streams to the lines of a log and messages.
#![tactic(auto)]

pub mod laws;
mod loading;
mod naming;
mod running;
mod trace;

pub use ctf_session::{
    LoadFault, Log, MergeFault, Outcome, RunFault, Session, Step, Streams, io_line, put_all,
};
pub use loading::load;
pub use running::run;
pub use trace::Trace;
