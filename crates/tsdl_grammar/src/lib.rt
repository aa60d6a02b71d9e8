//! The grammar of TSDL: which syntax tree a list of tokens spells, and how it is read.
#![tactic(auto)]

pub mod laws;
