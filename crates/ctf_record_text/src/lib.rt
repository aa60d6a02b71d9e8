//! Event records on their way to a line: as values, as text where they can be shown without these, or passed over.
#![tactic(auto)]

mod header;
mod part;
mod planned_header;
mod record;

pub use header::Headers;
pub use part::PacketPart;
pub use record::{LONGEST_KEPT, LineBuffer, LineRecord, next_line, passed_record, written_line};
