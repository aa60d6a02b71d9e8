//! Values from bits: a value exactly where one is, a fault exactly where one is.
#![tactic(auto)]

mod decoding;
mod fault;
mod find;
mod front;
mod ids;
mod laws;
mod leaf;
mod moves;
mod octets;
mod parts;
mod place;
mod plain;
mod room;
mod scopes;
mod slot;
mod text;
mod value;
mod walk;

pub use decoding::{Decoded, decode, decode_into, decode_within};
pub use fault::DecodeFault;
pub use find::{length_at, option_at, value_at};
pub use front::{Front, decode_front};
pub use ids::{last_id, named_id};
pub use laws::{most_values, moved_are_held, needs_so_much, one_stands, stands_in_whole};
pub use moves::{moving, moving_into};
pub use parts::{choice_in, elements_in, members_in};
pub use place::{DecodeProgress, Frame, Packet};
pub use scopes::{MOST_VALUES, Scopes};
pub use text::{before_zero, bytes_at, bytes_from, zero_in};
pub use value::Value;
