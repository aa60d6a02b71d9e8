//! The items of several streams in one order.
#![tactic(auto)]

mod fault;
mod laws;
mod merge;
mod turn;
mod turns;

pub use fault::MergeFault;
pub use laws::{merge_goes_on, merge_is_cut, merge_rises, none_is_before};
pub use merge::Merge;
