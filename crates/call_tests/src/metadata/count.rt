//! How many classes a trace class has.

use ctf_class::{Class, EventClass, StreamClass, TraceClass};

/// The classes in all scopes.
pub fn classes_in(trace: &TraceClass) -> u64 {
    let mut count = in_scope(trace.packet_header());
    for stream in trace.streams.as_slice() {
        count = count.saturating_add(in_stream(stream));
    }
    count
}

/// The classes in the scopes of a stream and of its events.
fn in_stream(stream: &StreamClass) -> u64 {
    let mut count = in_scope(stream.packet_context())
        .saturating_add(in_scope(stream.event_header()))
        .saturating_add(in_scope(stream.event_context()));
    for event in stream.events() {
        count = count.saturating_add(in_event(event));
    }
    count
}

/// The classes in the scopes of an event.
fn in_event(event: &EventClass) -> u64 {
    in_scope(event.context()).saturating_add(in_scope(Some(event.fields())))
}

/// The classes in a scope.
fn in_scope(class: Option<&Class>) -> u64 {
    match class {
        Some(class) => u64::from(class.nodes),
        None => 0,
    }
}
