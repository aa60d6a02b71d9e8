//! The trace class of metadata.
#![tactic(auto)]

pub mod laws;
mod loading;

pub use ctf_faults::LoadFault;
pub use loading::load;
