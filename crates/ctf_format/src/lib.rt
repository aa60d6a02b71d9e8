//! The text of values, and of the part of an event record's line after its stamp.
#![tactic(auto)]

mod array;
mod binary;
mod branches;
mod byte_integers;
mod content;
mod decimal;
mod element;
mod given;
mod hexadecimal;
mod kept;
mod label;
mod leaf;
mod mark;
mod number;
mod octal;
mod packet;
mod passed_branches;
mod passed_record;
mod passed_row;
mod pattern;
mod placed_run;
mod planned_number;
mod planned_record;
mod record;
mod room;
mod shown_row;
mod standing;
mod structures;
mod text;
mod value;
mod whole;
mod window;

pub use content::Content;
pub use ctf_class::escaped;
pub use kept::KeptNumbers;
pub use mark::put_bytes;
pub use packet::put_packet_part;
pub use passed_record::{Passed, pass_planned_record};
pub use planned_record::put_planned_record;
pub use record::{RecordScopes, put_front, put_record};
pub use room::with_room;
pub use standing::Standing;
pub use value::put_value;
pub use whole::{packet_part, record_text, value_text};
