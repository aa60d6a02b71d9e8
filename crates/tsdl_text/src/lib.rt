//! The text of TSDL metadata: packets of text joined, and the text cut into tokens.
#![tactic(auto)]

mod fault;
pub mod laws;
mod lexer;
mod line;
mod packet;
mod string;
mod token;

pub use fault::MetaFault;
pub use lexer::tokens;
pub use line::LineNumber;
pub use packet::{HEADER_LEN, MOST_BYTES, metadata_text};
pub use token::{Symbol, Token, TokenKind};
