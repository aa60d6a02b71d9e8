//! Texts that are kept ready to be printed.
//!
//! - `escaped TEXT` is how a text is shown.
//! - `ready TEXT` is a line of three bytes and then a text, and the length of that text.
//! - `field NAME` is the name of a member and what is printed for it, `copy NAME` those of its copy, `after NAME LEAD`
//!   a text and what is printed for the name after it, and `same NAME NAME` whether two names are equal.
//! - `label NAME` is a label, what is printed for it, and whether it is equal to itself.
//! - `heading HOST NAME` is a host, the name of an event class, and what is printed for both, in two texts where the
//!   host's is long.

ghost use Rattle.std.specs.Prelude.{◌≤◌};

use crate::row::{Row, unquote};
use ctf_class::{FieldName, Heading, Host, LabelName, PreparedText, escaped};
use ctf_list::{List, NoMemory};
use std::alloc::Global;

/// Puts what comes of a row of a text, a label or a heading.
pub fn put_row(row: &mut Row<'_>) {
    match row.word() {
        "escaped" => row.put_made(escaped(row.alloc, &unquote(row.alloc, row.words))),
        "ready" => put_ready_row(row),
        "label" => put_label_row(row),
        _ => put_heading_row(row),
    }
}

/// The bytes of a text, as a list.
fn list_of(alloc: Global, text: &str) -> List<u8> {
    List::from_vec(unquote(alloc, text))
}

/// Puts a line of three bytes and then a text, and the length of that text.
fn put_ready_row(row: &mut Row<'_>) {
    if let Ok(ready) = PreparedText::new(row.alloc, &unquote(row.alloc, row.words)) {
        put_ready(row, &ready, 3);
        row.put_number(b", ", ready.len() as i128);
        row.put(b" bytes");
    }
}

/// Puts the beginning of a line that has a text at an index, if there is room for it.
fn put_ready(row: &mut Row<'_>, ready: &PreparedText, at: usize)
    requires { at ≤ 3 }
{
    let mut line = [b'#'; 67];
    if ready.len() <= 40 {
        let end = ready.put(&mut line, at);
        row.put(&line[..end]);
    }
}

/// Puts a text, and in brackets what is printed.
fn put_printed(row: &mut Row<'_>, text: &[u8], ready: &PreparedText) {
    row.put(text);
    row.put(b" [");
    put_ready(row, ready, 0);
    row.put(b"]");
}

/// Puts what comes of a row of the name of a member.
pub fn put_field_row(row: &mut Row<'_>) {
    let kind = row.word();
    if let Ok(name) = field_of(row) {
        match kind {
            "field" => put_printed(row, name.as_slice(), name.ready()),
            "copy" => put_copy(row, &name),
            "same" => put_same(row, &name),
            _ => put_after(row, &name),
        }
    }
}

/// The name of a member.
fn field_of(row: &mut Row<'_>) -> Result<FieldName, NoMemory> {
    FieldName::new(row.alloc, list_of(row.alloc, row.word()))
}

/// Puts the copy of a name, and whether it is equal.
fn put_copy(row: &mut Row<'_>, name: &FieldName) {
    if let Ok(copy) = name.clone() {
        put_printed(row, copy.as_slice(), copy.ready());
        row.put_answer(b" ", copy == *name);
    }
}

/// Puts whether another name is equal.
fn put_same(row: &mut Row<'_>, name: &FieldName) {
    if let Ok(other) = field_of(row) {
        row.put_answer(b"", *name == other);
    }
}

/// Puts a text and what is printed for a name after it.
fn put_after(row: &mut Row<'_>, name: &FieldName) {
    if let Ok(ready) = name.after(row.alloc, row.words.as_bytes()) {
        put_printed(row, b"", &ready);
    }
}

/// Puts a label and what is printed for it.
fn put_label_row(row: &mut Row<'_>) {
    if let Ok(label) = LabelName::new(row.alloc, list_of(row.alloc, row.words)) {
        put_printed(row, label.as_slice(), label.ready());
        row.put_answer(b" ", label == label);
    }
}

/// Puts a host, a name, and what is printed for both.
fn put_heading_row(row: &mut Row<'_>) {
    let host = match row.word() {
        "-" => None,
        host => Host::new(row.alloc, &unquote(row.alloc, host)).ok(),
    };
    if let Ok(heading) = Heading::new(row.alloc, host, list_of(row.alloc, row.words)) {
        row.put(heading.host().unwrap_or(b"-"));
        row.put(b" ");
        match heading.ready() {
            Some(ready) => put_printed(row, heading.name(), ready),
            None => put_apart(row, &heading),
        }
    }
}

/// Puts a name, and what is printed for a long host and for the name.
fn put_apart(row: &mut Row<'_>, heading: &Heading) {
    let texts = heading.texts();
    if let Some(host) = texts.host {
        put_printed(row, heading.name(), host);
        put_printed(row, b",", texts.rest);
    }
}
