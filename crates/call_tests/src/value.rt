//! What is decoded at places of packets, and the text of values, of event records and of packet contexts.
//!
//! Beside each table are the metadata that declare its classes: `places` has rows of what is decoded, and `texts` rows
//! of what is shown. A class is named as a member of the fields of the first event class, as `fields.N`, the fields of
//! the event class of this id, as `S.N`, those of an event class of another stream class, or as `header.N`, the event
//! header of the stream class of this id.
//!
//! - `decode CLASS START..CONTENT BYTES SPENT` is a place of a packet, the end of its content, both in bits, and how
//!   many values were begun before, where it is not 0. `into CLASS START..CONTENT BYTES` decodes into another value.
//! - `front CLASS START..CONTENT BYTES` is a place of a beginning of a packet.
//! - `standing CLASS START..CONTENT BYTES CONTEXT` is the text of the structure at a place, written from its bits to
//!   the end of a line by the plan of event records whose fields it is, over old bytes of the line's buffer, where the
//!   packet context has this value, if one is given, and `planned STREAM EVENT START..CONTENT BYTES` that of the scopes
//!   of an event record by its plan. After it come the place where it ends and how many values were begun up to there.
//! - `headers CLASS START..CONTENT BYTES, ..` is one header after the other, each decoded in the place of the one
//!   before, as headers and in the general way.
//! - `moving CLASS VALUE` is what the value of a header says.
//! - `value CLASS VALUE` is the text of a value.
//! - `record STREAM EVENT PACKET VALUES` is that of an event record of the classes of these ids. `PACKET` is the text
//!   that the records of the packet share, where `_` stands for a space, or `-`. The values are those of the stream
//!   event context, of the event context and of the fields, or of the fields alone. `after` has the same row, and the
//!   text is written to the end of a line, over old bytes of the line's buffer.
//! - `packet STREAM VALUE` is the text of a packet context of the stream class of this id; `-` stands for no class and
//!   for no value.
//! - `digits CLASS DIGITS` is each number whose digits begin these.
//! - `lengths CLASS TEXT` is each beginning of the text, with each of three bytes at its begin, inside and at its end.
//!
//! After each row is what came of it: values with the place where they end and how many were begun up to there, a
//! fault, or a text.

mod classes;
mod counts;
mod decoding;
mod headers;
mod place;
mod records;
mod standing;
mod words;

use crate::row::Row;
use classes::{class_named, stream_of};
use ctf_class::{Class, StreamClass, TraceClass};
use ctf_format::{packet_part, value_text};
use place::Place;
pub use words::put_value;
use words::values_of;

/// Puts what comes of a row of the classes of a trace.
pub fn put_row(row: &mut Row<'_>, trace: &TraceClass) {
    let kind = row.word();
    let name = row.word();
    match kind {
        "planned" | "record" | "after" => put_stream_row(row, kind, trace, name),
        "packet" => put_packet(row, stream_of(trace, name)),
        _ => {
            if let Some(class) = class_named(trace, name) {
                put_class_row(row, kind, class);
            }
        }
    }
}

/// Puts what comes of a row of an event record.
fn put_stream_row(row: &mut Row<'_>, kind: &str, trace: &TraceClass, name: &str) {
    if let Some(stream) = stream_of(trace, name) {
        match kind {
            "planned" => standing::put_planned_row(row, stream),
            _ => records::put_row(row, kind, stream),
        }
    }
}

/// Puts what comes of a row of a class.
fn put_class_row(row: &mut Row<'_>, kind: &str, class: &Class) {
    match kind {
        "moving" | "value" => put_value_row(row, kind, class),
        "headers" => headers::put_row(row, class),
        "digits" => counts::put_digits(row, class),
        "lengths" => counts::put_lengths(row, class),
        _ => put_place_row(row, kind, class),
    }
}

/// Puts what comes of a row of a place.
fn put_place_row(row: &mut Row<'_>, kind: &str, class: &Class) {
    let range = row.word();
    let bytes = row.bytes();
    if let Some(place) = Place::new(range, &bytes) {
        match kind {
            "standing" => standing::put_place(row, class, place),
            _ => decoding::put_place(row, kind, class, place),
        }
    }
}

/// Puts what is shown of a value, or what the value of a header says.
fn put_value_row(row: &mut Row<'_>, kind: &str, class: &Class) {
    let values = values_of(row.alloc, row.words);
    if let Some(value) = values.first() {
        match kind {
            "moving" => headers::put_moving(row, class, value),
            _ => row.put_made(value_text(row.alloc, class, value)),
        }
    }
}

/// Puts what is shown of a packet context.
fn put_packet(row: &mut Row<'_>, stream: Option<&StreamClass>) {
    let values = values_of(row.alloc, row.words);
    let class = match stream {
        Some(stream) => stream.context_front(),
        None => None,
    };
    row.put_made(packet_part(row.alloc, class, values.first()));
}
