//! From the tokens of TSDL metadata to the syntax tree that they spell.
//!
//! The tree is in the crate `tsdl_tree`, and the grammar, as a relation between trees and lists of
//! tokens, in `tsdl_grammar`, whose laws are passed on here.
#![tactic(auto)]

mod blocks;
mod classes;
mod declarators;
mod enums;
mod failure;
mod fault;
mod metadata;
mod part;
mod settings;
mod terminals;
mod typenames;

pub use fault::SyntaxFault;
pub use metadata::{BRACE_LIMIT, brace_limit, parse};
pub use tsdl_grammar::laws;
