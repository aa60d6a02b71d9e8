//! What the settings of a syntax tree say: the attributes of integers, strings, enumerations and
//! structures, and the settings of clocks, of blocks and of the environment (CTF 1.8.3, sections 4, 7.4 and
//! 8).
//!
//! What is meant, and what is wrong, is defined in `ctf_meaning`. Of what is wrong each function reports the
//! first.
#![tactic(auto)]

mod aligned;
mod attributes;
mod block;
mod clocks;
mod dots;
mod ends;
mod entry_name;
mod entry_names;
mod environment;
mod event;
mod integers;
mod labelled;
mod lookup;
mod naming;
mod numbered;
mod reading;
mod stream;
mod strings;
mod trace;
mod value;

pub use aligned::alignment;
pub use clocks::clock;
pub use environment::host;
pub use event::EventSettings;
pub use integers::integer;
pub use labelled::labels;
pub use naming::{is_two_words, is_word};
pub use numbered::{number_in, numbers};
pub use stream::stream_id;
pub use strings::string;
pub use trace::TraceSettings;
