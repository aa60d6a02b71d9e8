//! Why bytes are no metadata, or a text has no tokens.

ghost use Rattle.std.specs.Prelude.{◌≡◌, ◌≢◌, ℕ, MatchOption};

use crate::line::LineNumber;
use std::alloc::AllocError;
use thiserror::Error;

/// Why bytes are no metadata (M1 to M6), or a text has no tokens (S1).
#[derive(Clone, Copy, Debug, PartialEq, Eq, Error)]
pub enum MetaFault {
    /// M1: fewer bytes are left than a header has, or the sizes in the header are impossible.
    #[error("metadata packet cut short or sizes wrong")]
    CutShort,
    /// M2: a later packet has another magic, or the first one's in the other byte order.
    #[error("metadata magic is wrong")]
    WrongMagic,
    /// M3: compressed, encrypted, or with a checksum.
    #[error("metadata scheme not supported")]
    SchemeUnsupported,
    /// M4: not version 1.8.
    #[error("metadata version is not 1.8")]
    WrongVersion,
    /// M5: another uuid than the first packet's.
    #[error("metadata uuid differs")]
    UuidDiffers,
    /// M6: more than 67,108,864 bytes.
    #[error("metadata too long")]
    TooLong,
    /// S1: on this line there is a place at which no token, blank or comment begins.
    #[error("no token")]
    NoToken(LineNumber),
    /// An allocation failed.
    #[error("no memory")]
    NoMemory,
}

impl MetaFault {
    /// The line of a place at which no token begins, and `None` of another fault.
    pub fn line(&self) -> Option<LineNumber>
        ensures { MatchOption result
            ((line : ℕ) → self.now ≢ MetaFault.NoToken line)
            (λ line. self.now ≡ MetaFault.NoToken line) }
    {
        match self {
            MetaFault::NoToken(line) => Some(*line),
            MetaFault::CutShort
            | MetaFault::WrongMagic
            | MetaFault::SchemeUnsupported
            | MetaFault::WrongVersion
            | MetaFault::UuidDiffers
            | MetaFault::TooLong
            | MetaFault::NoMemory => None,
        }
    }
}

/// Where this crate answers a `MetaFault`, a failed allocation comes as an `AllocError`.
impl From<AllocError> for MetaFault {
    ghost use Rattle.std.specs.Prelude.{◌≡◌};
    ghost use Rattle.tsdl_text.specs.declared.fault.MetaFault.TheVariants as faults;

    ghost from_gives = { λ _ fault. fault ≡ faults.NoMemory };

    fn from(_refused: AllocError) -> MetaFault {
        MetaFault::NoMemory
    }
}
