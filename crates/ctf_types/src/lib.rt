//! The trace class of a metadata text.
#![tactic(auto)]

mod clocks;
mod event;
mod gather;
mod home;
mod ids;
mod link;
mod linked;
mod links;
mod resolving;
mod row;
mod rows;
mod streams;
mod text;
mod trace;

pub use resolving::resolve;
