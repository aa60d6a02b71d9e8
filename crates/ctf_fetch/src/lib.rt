//! Packets out of a source: a packet's header and context while their bytes come, and then the rest of it.
#![tactic(auto)]

mod buffer;
mod demand;
mod fill;
mod intake;
mod known_header;
mod least;
mod needed;
mod packet_scratch;
mod packet_start;
mod scope;

pub use buffer::Buffer;
pub use packet_scratch::PacketScratch;
pub use packet_start::PacketStart;
