//! Event records.

use crate::row::Row;
use crate::value::classes::event_of;
use crate::value::standing::LINE;
use crate::value::words::values_of;
use ctf_class::{EventClass, StreamClass};
use ctf_decode::Value;
use ctf_format::{RecordScopes, put_record, record_text};
use ctf_list::NoMemory;
use std::alloc::Global;

/// The classes of an event record.
#[derive(Clone, Copy)]
struct Classes<'a> {
    stream: &'a StreamClass,
    event: &'a EventClass,
}

/// Puts what is shown of an event record, alone or in a line.
pub fn put_row(row: &mut Row<'_>, kind: &str, stream: &StreamClass) {
    if let Some(event) = event_of(stream, row.word()) {
        let packet = packet_of(row.alloc, row.word());
        let values = values_of(row.alloc, row.words);
        if let Some(scopes) = scopes_of(&packet, &values) {
            put_shown(row, kind, Classes { stream, event }, &scopes);
        }
    }
}

/// The text of a packet, and the values of both contexts and of the fields, or of the fields alone.
fn scopes_of<'a>(packet: &'a [u8], values: &'a [Value]) -> Option<RecordScopes<'a>> {
    match values {
        [fields] => Some(RecordScopes {
            packet,
            stream_context: None,
            event_context: None,
            fields,
        }),
        [stream_context, event_context, fields] => Some(RecordScopes {
            packet,
            stream_context: Some(stream_context),
            event_context: Some(event_context),
            fields,
        }),
        _ => None,
    }
}

/// The text of a packet, where `_` stands for a space.
fn packet_of(alloc: Global, word: &str) -> Vec<u8> {
    let mut text = Row::new(alloc, "");
    for byte in word.as_bytes() {
        match *byte {
            b'-' => {}
            b'_' => text.put(b" "),
            byte => text.put(&[byte]),
        }
    }
    text.into_text()
}

/// Puts what is shown of an event record.
fn put_shown(row: &mut Row<'_>, kind: &str, classes: Classes<'_>, scopes: &RecordScopes<'_>) {
    let made = match kind {
        "after" => line_of(row.alloc, classes, scopes),
        _ => record_text(row.alloc, classes.stream, classes.event, scopes),
    };
    row.put_made(made);
}

/// A line to whose end the text of an event record is written, over old bytes of its buffer.
fn line_of(
    alloc: Global,
    classes: Classes<'_>,
    scopes: &RecordScopes<'_>,
) -> Result<Vec<u8>, NoMemory> {
    let mut line = Vec::from_slice(alloc, LINE)?;
    let end = put_record(classes.stream, classes.event, scopes, &mut line, 5)?;
    line.truncate(end);
    Ok(line)
}
