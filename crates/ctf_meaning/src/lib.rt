//! What the syntax tree of a metadata text means: the classes of its trace, or the faults by which it has
//! none (CTF 1.8.3, sections 4 to 8). Nothing here resolves a tree: the definition is in `specs/`, and
//! the functions state its laws.
#![tactic(auto)]

mod clock;
mod fault;
mod integer;
pub mod laws;

pub use clock::DEFAULT_FREQUENCY;
pub use fault::ResolveFault;
pub use integer::DeclaredInteger;
