//! How a run ends.

ghost use Rattle.std.specs.Prelude.{◌≡◌};
ghost use Rattle.ctf_faults.specs.Outcomes.{outcome_text, status_of};

use crate::load::LoadFault;
use ctf_packet::StreamFault;
use thiserror::Error;

/// Why a run over traces stopped early.
#[derive(Clone, Copy, Debug, PartialEq, Eq, Error)]
pub enum RunFault {
    /// The metadata of the trace of this number, from 0, has no trace class.
    #[error("{fault}")]
    Metadata { trace: usize, fault: LoadFault },
    /// A stream of the trace of this number, from 0, goes no further.
    #[error("{fault}")]
    Stream { trace: usize, fault: StreamFault },
    /// An allocation failed. A run answers `Outcome::NoMemory` in its place.
    #[error("no memory")]
    NoMemory,
}

/// How a run ended.
#[derive(Clone, Copy)]
pub enum Outcome {
    /// Everything was printed.
    Done,
    /// A trace has a fault, whose line was written.
    Fault(RunFault),
    /// A sink failed. Nothing was written after that.
    WriteFailed,
    /// An allocation failed. Nothing was written after that.
    NoMemory,
}

impl Outcome {
    /// The exit status: 0 on success, else 1.
    pub fn status(&self) -> u8
        ensures { result ≡ status_of self.now }
    {
        match self {
            Outcome::Done => 0,
            Outcome::Fault(_) | Outcome::WriteFailed | Outcome::NoMemory => 1,
        }
    }

    /// The line that a program is to print after the run, with its newline; empty where there is none. It takes
    /// no memory.
    pub fn text(&self) -> &'static [u8]
        ensures { result.now ≡ outcome_text self.now }
    {
        match self {
            Outcome::Done | Outcome::Fault(_) => b"",
            Outcome::WriteFailed => b"ERROR: O1: write failed\n",
            Outcome::NoMemory => b"ERROR: O2: no memory\n",
        }
    }
}
