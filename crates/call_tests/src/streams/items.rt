//! Items as text.

use crate::row::Row;
use crate::streams::words::RecordDetail;
use crate::value::put_value;
use ctf_class::Scope;
use ctf_clock::Moment;
use ctf_stream::{Event, EventText, Gap, Item};

/// The scopes of an event record, by name.
const SCOPES: [(&str, Scope); 6] = [
    ("; packet.header ", Scope::PacketHeader),
    ("; packet.context ", Scope::PacketContext),
    ("; event.header ", Scope::EventHeader),
    ("; stream.event.context ", Scope::StreamEventContext),
    ("; event.context ", Scope::EventContext),
    ("; event.fields ", Scope::EventFields),
];

/// Puts an item.
pub fn put_item(row: &mut Row<'_>, item: &Item<'_>, shown: RecordDetail) {
    match item {
        Item::Event(event) => put_event(row, event, shown),
        Item::Discarded(gap) => put_gap(row, b"discarded ", gap),
        Item::Lost(gap) => put_gap(row, b"lost ", gap),
    }
    row.put(b"\n");
}

/// Puts an event record that was read as a text.
pub fn put_text(row: &mut Row<'_>, event: &EventText<'_>) {
    put_moment(row, b"text at ", event.moment);
    row.put(b": ");
    row.put(event.text);
    row.put(b"\n");
}

/// Puts the clock of an event record that was passed over.
pub fn put_passed(row: &mut Row<'_>, moment: Option<Moment>) {
    put_moment(row, b"passed at ", moment);
    row.put(b"\n");
}

fn put_event(row: &mut Row<'_>, event: &Event<'_>, shown: RecordDetail) {
    row.put_number(b"event ", event.class.id as i128);
    put_moment(row, b" at ", event.moment);
    match (shown, event.part) {
        (RecordDetail::Nothing, _) => {}
        (RecordDetail::Values, _) => put_scopes(row, event),
        (RecordDetail::Part, None) => row.put(b", no part"),
        (RecordDetail::Part, Some(part)) => {
            row.put(b", part ");
            row.put(part);
        }
    }
}

/// Puts the values of the scopes that have one.
fn put_scopes(row: &mut Row<'_>, event: &Event<'_>) {
    for (name, scope) in SCOPES {
        if let Some(value) = event.value(scope) {
            row.put(name.as_bytes());
            put_value(row, value);
        }
    }
}

fn put_gap(row: &mut Row<'_>, verb: &[u8], gap: &Gap<'_>) {
    row.put_number(verb, gap.count as i128);
    row.put(b" of ");
    row.put(gap.name.as_bytes());
    put_moment(row, b" at ", gap.moment);
    put_moment(row, b", between ", gap.from);
    put_moment(row, b" and ", gap.to);
}

/// Puts a moment: the clock's value in cycles and its time in nanoseconds.
fn put_moment(row: &mut Row<'_>, lead: &[u8], moment: Option<Moment>) {
    row.put(lead);
    match moment {
        None => row.put(b"-"),
        Some(moment) => {
            row.put_number(b"", moment.cycles as i128);
            row.put_number(b"/", moment.time as i128);
        }
    }
}
