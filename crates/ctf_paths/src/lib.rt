//! Classes at their places in a scope: the paths of their lengths and tags lead to fields, their clocks are
//! known, and the byte order is the trace's where none is written (CTF 1.8.3, sections 4, 7.3.2 and 8).
//!
//! What a class is at its place is defined in `ctf_meaning`, and step by step in `ctf_meaning_steps`.
#![tactic(auto)]

mod clocks;
mod find;
mod leaf;
mod link;
mod moved;
mod name;
mod parts;
mod reach;
mod scope;
mod spot;
mod trail;

pub use clocks::Clocks;
pub use find::rank;
pub use link::Linker;
pub use moved::Moved;
pub use scope::{scope_class, scope_moved};
pub use spot::EarlierStructure;
