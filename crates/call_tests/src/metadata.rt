//! Metadata texts, and what they declare.
//!
//! `recorded_lttng_ust` was written by LTTng 2.13 (a session with one channel, the contexts `vpid` and `procname`, and
//! three tracepoints of a provider of its own), `recorded_converted` by babeltrace2 2.0.4 from that trace, and
//! `recorded_lines` by babeltrace2 from three lines of text; host, date, identifiers and the clock's offset were
//! replaced by others of the same length. Ids and names of events, names, sizes and signs of fields and the numbers of
//! labels are those that babeltrace2 shows of these traces (`sink.text.details`).

mod class;
mod count;
mod faults;
mod header;
mod integer;
mod outcome;
mod owners;
mod reading;
mod trace;

pub use faults::put_table;
pub use owners::put_owners;
pub use reading::put_declared;
