//! The syntax tree of TSDL metadata (CTF 1.8.3, section 7 and appendix C.2).
//!
//! It is separate from the grammar that says which tokens spell it, so that what reads a tree need not
//! wait for what makes one.
#![tactic(auto)]

mod tree;

pub use tree::{
    BlockEntry, BlockKind, Compound, Container, Declaration, Declarator, Item, Label, Length,
    Number, Path, Reference, Setting, Span, Specifier, TableKind, Tree, TypeDeclaration, Typename,
    Value, Word,
};
