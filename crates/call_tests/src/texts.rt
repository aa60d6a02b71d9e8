//! Texts that are cut into tokens, and packets of metadata that are joined to texts.
//!
//! - `tokens TEXT` are the tokens of a text, or its fault.
//! - `packets BYTES` is the text of metadata, or the fault of its packets.

use crate::row::{Row, unquote};
use tsdl_text::{MetaFault, Token, TokenKind, metadata_text, tokens};

/// Puts the lines of what comes of a row of texts.
pub fn put_row(row: &mut Row<'_>) {
    let kind = row.word();
    let bytes = unquote(row.alloc, row.words);
    match kind {
        "tokens" => put_tokens(row, &bytes),
        _ => put_text(row, &bytes),
    }
}

/// Puts a line for each token of a text, or its fault.
fn put_tokens(row: &mut Row<'_>, text: &[u8]) {
    match tokens(row.alloc, text) {
        Ok(tokens) => {
            for token in tokens.as_slice() {
                put_token(row, token);
            }
        }
        Err(fault) => put_fault(row, &fault),
    }
}

/// Puts where a token starts, its line and what it is: `10 2 symbol struct`. The bytes that a string stands for are
/// put in hexadecimal.
fn put_token(row: &mut Row<'_>, token: &Token<'_>) {
    row.put_number(b"", token.start as i128);
    row.put_number(b" ", token.line.number() as i128);
    match token.kind {
        TokenKind::Identifier => {
            row.put(b" name ");
            row.put(token.text);
        }
        TokenKind::Constant(number) => row.put_number(b" constant ", number as i128),
        TokenKind::String => put_string(row, token),
        TokenKind::Symbol(symbol) => {
            row.put(b" symbol ");
            row.put(symbol.spelling());
        }
    }
    row.put(b"\n");
}

/// Puts the bytes that a string stands for.
fn put_string(row: &mut Row<'_>, token: &Token<'_>) {
    row.put(b" string");
    match token.string(row.alloc) {
        Ok(Some(value)) => row.put_hexadecimal(&value),
        Ok(None) => {}
        Err(_) => row.put(b" no memory"),
    }
}

/// Puts the text of metadata, or the fault of its packets.
fn put_text(row: &mut Row<'_>, metadata: &[u8]) {
    match metadata_text(row.alloc, metadata) {
        Ok(text) => {
            row.put(&text);
            row.put(b"\n");
        }
        Err(fault) => put_fault(row, &fault),
    }
}

/// Puts the code of a fault, with its line where it has one.
fn put_fault(row: &mut Row<'_>, fault: &MetaFault) {
    row.put(code_of(fault));
    if let Some(line) = fault.line() {
        row.put_number(b" at line ", line.number() as i128);
    }
    row.put(b"\n");
}

/// The code of a fault.
pub fn code_of(fault: &MetaFault) -> &'static [u8] {
    match fault {
        MetaFault::CutShort => b"M1",
        MetaFault::WrongMagic => b"M2",
        MetaFault::SchemeUnsupported => b"M3",
        MetaFault::WrongVersion => b"M4",
        MetaFault::UuidDiffers => b"M5",
        MetaFault::TooLong => b"M6",
        MetaFault::NoToken(_) => b"S1",
        MetaFault::NoMemory => b"no memory",
    }
}
