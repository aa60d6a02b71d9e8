//! Laws of the classes that metadata denote.
#![tactic(auto)]

mod laws;

pub use laws::{integers_are_sized, lengths_and_tags_are_found};
