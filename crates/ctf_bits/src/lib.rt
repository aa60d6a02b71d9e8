//! Numbers at any bit of a list of bytes, where bytes come from, and where they go; calls that a signal interrupts,
//! made again.
#![tactic(auto)]

mod align;
mod drip_sink;
mod failing_sink;
mod from_read;
mod interrupts;
mod number;
mod parts;
mod rest;
mod short;
mod signed;
mod sink;
mod slices;
mod source;
mod to_write;
mod vec_sink;
mod window;

pub use align::up;
pub use drip_sink::DripSink;
pub use failing_sink::FailingSink;
pub use from_read::FromRead;
pub use interrupts::{
    flush_uninterrupted, read_uninterrupted, retry_interrupted, write_uninterrupted,
};
pub use number::{Order, uint, uint_at_byte, uint_within};
pub use short::ShortInteger;
pub use signed::{is_unsigned, sint, sint_within};
pub use sink::{Sink, SinkFault};
pub use slices::{FailingSource, PieceSource, SliceSource};
pub use source::{Ending, Source, SourceFault};
pub use to_write::ToWrite;
pub use vec_sink::VecSink;
pub use window::Window;
