//! Lists that grow.
//!
//! `pushed TEXT MORE` is the list of the bytes of a text to which those of another are pushed one by one, how many
//! there are, and whether its copy is equal; `extended TEXT MORE` gets them at once.

use crate::row::Row;
use ctf_list::List;
use std::alloc::{AllocError, Global};

/// Puts what comes of a row of lists.
pub fn put_row(row: &mut Row<'_>) {
    let kind = row.word();
    let text = row.word().as_bytes();
    if let Ok(list) = longer_list(row.alloc, kind, text, row.words.as_bytes()) {
        put_list(row, &list);
    }
}

/// The list of some bytes, with more added at its end.
fn longer_list(
    alloc: Global,
    kind: &str,
    text: &[u8],
    more: &[u8],
) -> Result<List<u8>, AllocError> {
    let mut list = List::from_slice(alloc, text)?;
    if kind == "extended" {
        list.extend_from_slice(more)?;
    } else {
        for byte in more {
            list.push(*byte)?;
        }
    }
    Ok(list)
}

/// Puts a list, and whether its copy is equal.
fn put_list(row: &mut Row<'_>, list: &List<u8>) {
    row.put(list.as_slice());
    row.put_number(b" ", list.len() as i128);
    if let Ok(copy) = list.clone() {
        row.put_answer(b" ", copy == *list);
    }
}
