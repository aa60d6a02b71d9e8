//! Numbers of a packet's header and context.

use ctf_class::Width;

/// An unsigned integer, with its width.
#[derive(Clone, Copy)]
pub struct UnsignedField {
    pub width: Width,
    pub number: u64,
}
