//! Why metadata has no trace class.

ghost use Rattle.std.specs.Prelude.{◌≡◌};
ghost use Rattle.ctf_faults.specs.Table.{is_refusal};

use ctf_meaning::ResolveFault;
use thiserror::Error;
use tsdl_parse::SyntaxFault;
use tsdl_text::MetaFault;

/// Why metadata has no trace class, the first of these that applies. Each part can also run out of memory.
#[derive(Clone, Copy, Debug, PartialEq, Eq, Error)]
pub enum LoadFault {
    /// M1 to M6: its packets.
    #[error("metadata is broken")]
    Metadata(MetaFault),
    /// S1: its text has a place where no token begins.
    #[error("metadata has no tokens")]
    Text(MetaFault),
    /// S2 or R9: its tokens.
    #[error("metadata has no tree")]
    Syntax(SyntaxFault),
    /// R1 to R9: what its tree means.
    #[error("metadata has no trace class")]
    Meaning(ResolveFault),
}

impl LoadFault {
    /// Whether an allocation failed.
    pub fn is_refusal(&self) -> bool
        ensures { result ≡ is_refusal self.now }
    {
        match self {
            LoadFault::Metadata(fault) => *fault == MetaFault::NoMemory,
            LoadFault::Text(fault) => *fault == MetaFault::NoMemory,
            LoadFault::Syntax(fault) => *fault == SyntaxFault::NoMemory,
            LoadFault::Meaning(fault) => *fault == ResolveFault::NoMemory,
        }
    }
}
