//! Classes of the metadata, by their names and ids.

use ctf_class::{Class, EventClass, Kind, StreamClass, TraceClass};

/// The class of a name: the fields of an event class, the event header of a stream class, or a member.
pub fn class_named<'a>(trace: &'a TraceClass, name: &str) -> Option<&'a Class> {
    match name.split_once('.') {
        Some(("header", id)) => stream_of(trace, id)?.event_header(),
        Some(("fields", id)) => fields_of(trace, "0", id),
        Some((stream, id)) => fields_of(trace, stream, id),
        None => member_named(fields_of(trace, "0", "0")?, name.as_bytes()),
    }
}

/// The fields of an event class, by the ids of its stream class and of its own.
fn fields_of<'a>(trace: &'a TraceClass, stream: &str, id: &str) -> Option<&'a Class> {
    Some(event_of(stream_of(trace, stream)?, id)?.fields())
}

/// The class of a member of a structure.
fn member_named<'a>(class: &'a Class, name: &[u8]) -> Option<&'a Class> {
    if let Kind::Structure { members } = &class.kind {
        for member in members.as_slice() {
            if member.name.as_slice() == name {
                return Some(&member.class);
            }
        }
    }
    None
}

/// The stream class of an id.
pub fn stream_of<'a>(trace: &'a TraceClass, id: &str) -> Option<&'a StreamClass> {
    trace.stream(id.parse::<u64>().ok()?)
}

/// The event class of an id.
pub fn event_of<'a>(stream: &'a StreamClass, id: &str) -> Option<&'a EventClass> {
    stream.event(id.parse::<u64>().ok()?)
}
