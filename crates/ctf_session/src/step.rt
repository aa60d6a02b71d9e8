//! What a step of a session did, and how a session ends.

ghost use Rattle.std.specs.Prelude.{◌≡◌};
ghost use Rattle.ctf_session.specs.Endings as endings;

use ctf_faults::{Outcome, RunFault};
use ctf_packet::StreamFault;

/// What a step of a session did.
#[derive(Drop)]
pub enum Step {
    /// It went past one item: its line or its message was written, or it was before the beginning.
    Went,
    /// Nothing comes any more.
    Ended(Outcome),
}

/// What stops the writing of a text.
#[derive(Clone, Copy)]
pub enum Stop {
    WriteFailed,
    NoMemory,
}

impl Stop {
    /// The outcome of a run that it stops.
    pub fn outcome(self) -> Outcome
        ensures { result ≡ endings.stop_outcome self }
    {
        match self {
            Stop::WriteFailed => Outcome::WriteFailed,
            Stop::NoMemory => Outcome::NoMemory,
        }
    }
}

/// How a session ended.
#[derive(Clone, Copy)]
pub(crate) enum SessionEnding {
    Done,
    /// A stream of the trace of this number goes no further.
    Fault(usize, StreamFault),
    Stopped(Stop),
}

impl SessionEnding {
    /// The outcome of a run that ends so.
    pub(crate) fn outcome(self) -> Outcome
        ensures { result ≡ endings.outcome_of self }
    {
        match self {
            SessionEnding::Done => Outcome::Done,
            SessionEnding::Fault(trace, fault) => Outcome::Fault(RunFault::Stream { trace, fault }),
            SessionEnding::Stopped(stop) => stop.outcome(),
        }
    }
}
