//! Readers of streams: a packet at a time, an item at a time.
#![tactic(auto)]

mod copy;
mod giving;
mod item;
mod owned;
mod packet;
mod peeked;
mod read_state;
mod reader;
mod texts;

pub use item::{CurrentItem, Event, EventText, Gap, Item};
pub use owned::{OwnedEvent, OwnedGap, OwnedItem};
pub use peeked::Peeked;
pub use reader::StreamReader;
pub use texts::Texts;
