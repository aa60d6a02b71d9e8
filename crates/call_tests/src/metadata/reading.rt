//! What a metadata text declares.

use crate::metadata::trace::put_trace;
use crate::row::Row;
use ctf_types::resolve;
use tsdl_parse::parse;
use tsdl_text::{Token, metadata_text, tokens};
use tsdl_tree::Tree;

/// Puts how many declarations a metadata text has, and the trace class that they are.
pub fn put_declared(row: &mut Row<'_>, bytes: &[u8]) {
    if let Ok(text) = metadata_text(row.alloc, bytes) {
        if let Ok(tokens) = tokens(row.alloc, &text) {
            put_tokens(row, &tokens);
        }
    }
}

/// Puts what tokens declare.
fn put_tokens(row: &mut Row<'_>, tokens: &[Token<'_>]) {
    if let Ok(tree) = parse(row.alloc, tokens) {
        put_tree(row, &tree);
    }
}

/// Puts what a tree declares.
fn put_tree(row: &mut Row<'_>, tree: &Tree) {
    row.put_number(b"", tree.declarations.len() as i128);
    row.put(b" declarations\n");
    if let Ok(trace) = resolve(row.alloc, tree) {
        put_trace(row, &trace);
    }
}
