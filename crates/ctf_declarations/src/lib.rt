//! The declarations of a syntax tree from its beginning, with the names known so far: the classes of the scopes of
//! each declaration, or the first fault that a declaration has by itself and by what is before it (CTF 1.8.3,
//! sections 4, 7 and 8).
#![tactic(auto)]

mod classes;
mod declared_once;
mod declaring;
mod entries;
mod entry_name;
mod keys;
mod leaves;
mod looking;
mod names;
mod placing;
mod so_far;
mod text;
mod visible;

pub use placing::ScopeShape;
pub use text::{Rows, scope_classes};
