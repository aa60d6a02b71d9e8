//! Trace classes as lines.

use crate::metadata::class::put_class;
use crate::metadata::header::put_plan;
use crate::row::Row;
use ctf_class::{Class, Clock, EventClass, HasId, StreamClass, TraceClass};

/// Puts the lines of a trace class.
pub fn put_trace(row: &mut Row<'_>, trace: &TraceClass) {
    row.put(b"trace");
    if let Some(uuid) = trace.uuid {
        row.put(b" uuid ");
        for byte in uuid {
            row.put_digits(byte);
        }
    }
    if let Some(host) = trace.host() {
        row.put(b" host ");
        row.put(host);
    }
    row.put(b"\n");
    put_scope(row, b"packet.header", trace.packet_header());
    for stream in trace.streams.as_slice() {
        put_stream(row, stream);
    }
}

fn put_stream(row: &mut Row<'_>, stream: &StreamClass) {
    row.put_number(b"stream ", stream.id() as i128);
    if let Some(clock) = stream.clock() {
        put_clock(row, clock);
    }
    row.put(b"\n");
    put_scope(row, b"packet.context", stream.packet_context());
    put_event_header(row, stream);
    put_scope(row, b"event.context", stream.event_context());
    for event in stream.events() {
        put_event(row, event);
    }
}

fn put_clock(row: &mut Row<'_>, clock: &Clock) {
    row.put(b" clock ");
    row.put(clock.name.get().as_slice());
    row.put_number(b" of ", clock.frequency.cycles() as i128);
    row.put_number(b" Hz from ", clock.offset_seconds as i128);
    row.put_number(b" s and ", clock.offset as i128);
}

fn put_event(row: &mut Row<'_>, event: &EventClass) {
    row.put_number(b"event ", event.id as i128);
    row.put(b" ");
    row.put(event.name());
    row.put(b"\n");
    put_scope(row, b"context", event.context());
    put_scope(row, b"fields", Some(event.fields()));
}

/// Puts the line of the event headers, where they are declared.
fn put_event_header(row: &mut Row<'_>, stream: &StreamClass) {
    if let Some(class) = stream.event_header() {
        put_scope_class(row, b"event.header", class);
        put_plan(row, stream.header_plan());
        row.put(b"\n");
    }
}

/// Puts the line of a scope, where it is declared.
fn put_scope(row: &mut Row<'_>, scope: &[u8], class: Option<&Class>) {
    if let Some(class) = class {
        put_scope_class(row, scope, class);
        row.put(b"\n");
    }
}

/// Puts a scope and its class.
fn put_scope_class(row: &mut Row<'_>, scope: &[u8], class: &Class) {
    row.put(scope);
    row.put_number(b" of depth ", class.depth as i128);
    row.put_number(b" with ", class.nodes as i128);
    row.put(b" classes: ");
    put_class(row, class);
}
