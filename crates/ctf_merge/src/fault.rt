//! Why a merge goes no further.

use ctf_packet::StreamFault;
use thiserror::Error;

/// Why a merge of streams goes no further.
#[derive(Clone, Copy, Debug, PartialEq, Eq, Error)]
pub enum MergeFault {
    /// A stream goes no further. It is the one of this number, from 0.
    #[error("{fault}")]
    Stream { number: usize, fault: StreamFault },
    /// An allocation failed. No merge gives this: where a stream has no memory, it is the stream's.
    #[error("no memory")]
    NoMemory,
}
