//! How the syntax tree of a metadata text is gone through from its beginning, with the names that are
//! before each place, and that this gives what the text means. The way is in `specs/`; the functions
//! state its laws.
#![tactic(auto)]

pub mod laws;
