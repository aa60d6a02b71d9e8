//! Packets of a stream, and the event records in them: what a stream of bytes means.
#![tactic(auto)]

mod clock;
mod fault;
mod field;
mod header;
mod laws;
mod moves;
mod packet;
mod packet_place;
mod reached;
mod record;
mod record_place;
mod roles;
mod scope;
mod scratch;
mod sizes;
mod told;

pub use clock::{clock_after, clock_before, clock_until, discarded_since, lost_since};
pub use fault::StreamFault;
pub use field::UnsignedField;
pub use header::stream_checked;
pub use laws::{
    clock_goes_by_moving, longest_packet, packets_go_on, records_go_on, walk_finds_what_stands,
};
pub use moves::moment_after;
pub use packet::{OpenPacket, clock_at_end, packet_of_sizes};
pub use packet_place::PacketPlace;
pub use reached::Reached;
pub use record::{EventRecord, Head, event_named, next_head, next_record, put_body};
pub use record_place::RecordPlace;
pub use roles::{fields_of_roles, number_in};
pub use scope::{ScopePlace, cut_short, front_content, record_scope, scope_into};
pub use scratch::Scratch;
pub use sizes::{LONGEST_PACKET, Sizes, are_possible, sizes_checked, told_sizes};
