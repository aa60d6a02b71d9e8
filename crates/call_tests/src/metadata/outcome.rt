//! What is reported of a metadata text.

use crate::metadata::count::classes_in;
use crate::row::Row;
use crate::texts::code_of;
use ctf_meaning::ResolveFault;
use ctf_types::resolve;
use tsdl_parse::{SyntaxFault, parse};
use tsdl_text::{LineNumber, Token, metadata_text, tokens};
use tsdl_tree::Tree;

/// Puts words about a metadata text: the code of its fault, with the line where it has one (`S2:1`), or `accepted`; how
/// many declarations its tree has (`tree:2`), or the code of its fault (`tree:S2:1`); and how many classes
/// its scopes have (`classes:5`).
pub fn put_outcome(row: &mut Row<'_>, bytes: &[u8]) {
    match metadata_text(row.alloc, bytes) {
        Ok(text) => put_text(row, &text),
        Err(fault) => row.put(code_of(&fault)),
    }
}

/// Puts words about a text.
fn put_text(row: &mut Row<'_>, text: &[u8]) {
    match tokens(row.alloc, text) {
        Ok(tokens) => put_tokens(row, tokens.as_slice()),
        Err(fault) => put_code(row, b"", code_of(&fault), fault.line()),
    }
}

/// Puts words about tokens.
fn put_tokens(row: &mut Row<'_>, tokens: &[Token<'_>]) {
    match parse(row.alloc, tokens) {
        Ok(tree) => put_tree(row, &tree),
        Err(fault) => {
            put_code(row, b"", code_of_syntax(&fault), fault.line());
            put_code(row, b" tree:", code_of_syntax(&fault), fault.line());
        }
    }
}

/// Puts words about a tree.
fn put_tree(row: &mut Row<'_>, tree: &Tree) {
    let count = tree.declarations.len() as i128;
    match resolve(row.alloc, tree) {
        Ok(trace) => {
            row.put_number(b"accepted tree:", count);
            row.put_number(b" classes:", classes_in(&trace) as i128);
        }
        Err(fault) => {
            row.put(code_of_class(fault));
            row.put_number(b" tree:", count);
        }
    }
}

/// Puts a code, with the line where there is one.
fn put_code(row: &mut Row<'_>, lead: &[u8], code: &[u8], line: Option<LineNumber>) {
    row.put(lead);
    row.put(code);
    if let Some(line) = line {
        row.put_number(b":", line.number() as i128);
    }
}

/// The code of a fault of the grammar.
fn code_of_syntax(fault: &SyntaxFault) -> &'static [u8] {
    match fault {
        SyntaxFault::Syntax { .. } => b"S2",
        SyntaxFault::TooDeep => b"R9",
        SyntaxFault::NoMemory => b"no memory",
    }
}

/// The code of a fault of the meaning.
fn code_of_class(fault: ResolveFault) -> &'static [u8] {
    match fault {
        ResolveFault::UnknownType => b"R1",
        ResolveFault::DeclaredTwice => b"R2",
        ResolveFault::Attribute => b"R3",
        ResolveFault::FloatingPoint => b"R4",
        ResolveFault::SizeOrAlignment => b"R5",
        ResolveFault::LengthOrTag => b"R6",
        ResolveFault::Clock => b"R7",
        ResolveFault::Twice => b"R8",
        ResolveFault::TooDeep => b"R9",
        ResolveFault::NoMemory => b"no memory",
    }
}
