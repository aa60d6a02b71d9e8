//! Classes by their declaration, as the resolver keeps them: shared and not copied, the names of a
//! compound's members found without a walk, and with each class what is asked of it often.
#![tactic(auto)]

mod copy;
mod facts;
mod known;
mod parts;
mod shape;

pub use copy::{copied_path, copy_integer};
pub use known::{Known, KnownMember};
pub use shape::{Members, Shape};
