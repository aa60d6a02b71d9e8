//! What the first bytes of a packet ask for, before all of it was read.
#![tactic(auto)]

mod judge;
mod laws;
mod want;

pub use judge::judge_sizes;
pub use laws::wants_tell;
pub use want::{Begun, Want};
