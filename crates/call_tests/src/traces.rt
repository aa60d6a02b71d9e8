//! The parts of event, stream and trace classes. A scope is an integer of so many bits, and 0 stands for none.
//!
//! - `event NUMBER NAME CONTEXT FIELDS` is an event class: its number, its name, its context and its fields, whose
//!   class is named as `classes` says.
//! - `stream NUMBER PACKET HEADER CONTEXT EVENTS EVENT` is a stream class with event classes of these numbers: its
//!   number, its packet context, its event header and its event context, then the event class of the number and the
//!   only one, each with its plan, as `plans` has it.
//! - `trace HOST HEADER NUMBERS STREAM` is a trace class with stream classes of these numbers: its host, its packet
//!   header, the stream class of the number and the only one.
//!
//! A class is in a list, whose drop is a call.

use crate::classes::{front, members_of, put_class, scope};
use crate::plans::put_fields;
use crate::row::Row;
use ctf_class::{
    Class, EventClass, HasId, Heading, Host, Indexed, PlanRoom, PlannedEvent, StreamClass,
    StreamParts, TraceClass,
};
use ctf_list::{List, NoMemory};
use std::alloc::Global;

/// The fields of the event classes of streams.
const FIELDS: &str = "integer:8:8 struct:8:1";

/// Puts what comes of a row of classes.
pub fn put_row(row: &mut Row<'_>) {
    match row.word() {
        "event" => put_event_row(row),
        "stream" => put_stream_row(row),
        _ => put_trace_row(row),
    }
}

/// Puts what a scope is, after a space.
fn put_scope(row: &mut Row<'_>, scope: Option<&Class>) {
    match scope {
        Some(class) => put_class(row, class),
        None => row.put(b" none"),
    }
}

/// Puts an event class.
fn put_event_row(row: &mut Row<'_>) {
    let mut events = List::new(row.alloc);
    let (id, name, context) = (row.long(), row.word(), row.number());
    let named = NamedEvent {
        id,
        name,
        context,
        fields: row.words,
    };
    let added = add_event(row.alloc, &mut events, named);
    if let (Ok(()), Some(event)) = (added, events.as_slice().first()) {
        put_event(row, event);
    }
}

fn put_event(row: &mut Row<'_>, event: &EventClass) {
    row.put_number(b"", event.id as i128);
    row.put(b" ");
    row.put(event.name());
    put_scope(row, event.context());
    put_class(row, event.fields());
}

/// An event class as a row names it: which scope its context has, and the words of the class of its fields.
#[derive(Clone, Copy)]
struct NamedEvent<'a> {
    id: u64,
    name: &'a str,
    context: u32,
    fields: &'a str,
}

/// Adds an event class that a row names.
fn add_event(
    alloc: Global,
    events: &mut List<EventClass>,
    named: NamedEvent<'_>,
) -> Result<(), NoMemory> {
    let name = List::from_slice(alloc, named.name.as_bytes())?;
    let heading = Heading::new(alloc, None, name)?;
    if let Some(fields) = members_of(alloc, named.fields).pop() {
        events.push(EventClass {
            id: named.id,
            heading,
            context: scope(named.context),
            fields: fields.class,
        })?;
    }
    Ok(())
}

/// Puts a stream class, and event classes of it.
fn put_stream_row(row: &mut Row<'_>) {
    let mut streams = List::new(row.alloc);
    let id = row.long();
    let scopes = [row.number(), row.number(), row.number()];
    let added = add_stream(row.alloc, &mut streams, id, scopes, row.word());
    if let (Ok(()), Some(stream)) = (added, streams.as_slice().first()) {
        put_stream(row, stream);
        put_events(row, stream);
    }
}

/// Adds a stream class with event classes of these numbers.
fn add_stream(
    alloc: Global,
    streams: &mut List<StreamClass>,
    id: u64,
    scopes: [u32; 3],
    numbers: &str,
) -> Result<(), NoMemory> {
    let [packet, header, context] = scopes;
    let mut events = List::new(alloc);
    for number in numbers.split(',') {
        if let Ok(id) = number.parse::<u64>() {
            let tick = NamedEvent {
                id,
                name: "tick",
                context: 0,
                fields: FIELDS,
            };
            add_event(alloc, &mut events, tick)?;
        }
    }
    let parts = StreamParts {
        id,
        packet_context: front(alloc, packet)?,
        event_header: scope(header),
        event_context: scope(context),
        clock: None,
        events: Indexed::new(alloc, events)?,
    };
    let stream = StreamClass::new(alloc, parts, &mut PlanRoom::new())?;
    Ok(streams.push(stream)?)
}

fn put_stream(row: &mut Row<'_>, stream: &StreamClass) {
    row.put_number(b"", stream.id() as i128);
    row.put(b" scopes");
    put_scope(row, stream.packet_context());
    put_scope(row, stream.event_header());
    put_scope(row, stream.event_context());
    match stream.clock() {
        Some(_) => row.put(b", a clock"),
        None => row.put(b", no clock"),
    }
}

/// Puts the event class of a number and the only one.
fn put_events(row: &mut Row<'_>, stream: &StreamClass) {
    let number = row.long();
    put_planned(
        row,
        b", event ",
        stream.event(number),
        stream.planned_event(number),
    );
    put_planned(row, b", only event ", stream.only(), stream.planned_only());
}

/// Puts an event class, if there is one, and its plan.
fn put_planned(
    row: &mut Row<'_>,
    lead: &[u8],
    event: Option<&EventClass>,
    planned: Option<PlannedEvent<'_>>,
) {
    if let Some(event) = event {
        row.put(lead);
        put_event(row, event);
    }
    if let Some(planned) = planned {
        row.put(b", plan ");
        put_fields(row, planned.plan);
    }
}

/// Puts a trace class, and stream classes of it.
fn put_trace_row(row: &mut Row<'_>) {
    let mut traces = List::new(row.alloc);
    let (host, header, numbers) = (row.word(), row.number(), row.word());
    let added = add_trace(row.alloc, &mut traces, host, header, numbers);
    if let (Ok(()), Some(trace)) = (added, traces.as_slice().first()) {
        put_trace(row, trace);
    }
}

/// Adds a trace class with stream classes of these numbers.
fn add_trace(
    alloc: Global,
    traces: &mut List<TraceClass>,
    host: &str,
    header: u32,
    numbers: &str,
) -> Result<(), NoMemory> {
    let mut streams = List::new(alloc);
    for number in numbers.split(',') {
        if let Ok(id) = number.parse::<u64>() {
            add_stream(alloc, &mut streams, id, [32, 64, 0], "-")?;
        }
    }
    let streams = Indexed::new(alloc, streams)?;
    let host = Host::new(alloc, host.as_bytes())?;
    traces.push(TraceClass {
        uuid: None,
        host: Some(host),
        packet_header: front(alloc, header)?,
        streams,
    })?;
    Ok(())
}

fn put_trace(row: &mut Row<'_>, trace: &TraceClass) {
    row.put(trace.host().unwrap_or(b"-"));
    put_scope(row, trace.packet_header());
    if let Some(stream) = trace.stream(row.long()) {
        row.put(b", stream ");
        put_stream(row, stream);
    }
    if let Some(stream) = trace.only() {
        row.put(b", only stream ");
        put_stream(row, stream);
    }
}
