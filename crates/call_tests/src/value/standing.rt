//! Texts that are written from bits to the end of a line, over old bytes of the line's buffer.

ghost use Rattle.std.specs.Prelude.{◌≡◌, List};
ghost use Rattle.ctf_class.specs.Records.{ScopeClass, IsPlanOf};

use crate::row::Row;
use crate::value::decoding::put_reached;
use crate::value::place::Place;
use crate::value::words::values_of;
use ctf_class::{Class, RecordPlan, Scope, StreamClass};
use ctf_decode::Scopes;
use ctf_format::{Content, KeptNumbers, Passed, Standing, pass_planned_record, put_planned_record};

/// A line of five bytes, and after it old bytes of its buffer.
pub const LINE: &[u8] = b"[12] and what was there";

/// Puts the text of the structure at a place by the plan of event records whose fields it is, where the words after it
/// are the value of the packet context.
pub fn put_place(row: &mut Row<'_>, class: &Class, place: Place<'_>) {
    let scopes = scopes_of(row);
    if let Ok(plan) = RecordPlan::new(row.alloc, None, None, class) {
        put_planned(row, &plan, &scopes, place);
    }
}

/// The content in which a place is.
fn content_of(place: Place<'_>) -> Content<'_>
    ensures end { result.end ≡ place.entry.content }
    ensures bytes { result.bytes ≡ place.entry.bytes }
{
    Content {
        bytes: place.bytes,
        end: place.content,
    }
}

/// A text begins at the place, after what is in a line.
fn begin_of(place: Place<'_>) -> Standing
    ensures place { result.place ≡ place.entry.start }
    ensures spent { result.spent ≡ 0 }
    ensures end { result.end ≡ 5 }
{
    Standing {
        place: place.start,
        spent: 0,
        end: 5,
    }
}

/// The scopes of which the words are the value of the packet context, if they are one.
fn scopes_of(row: &Row<'_>) -> Scopes {
    let mut scopes = Scopes::new();
    let mut values = values_of(row.alloc, row.words);
    if let Some(value) = values.pop() {
        scopes.put(Scope::PacketContext, value);
    }
    scopes
}

/// Puts the text of the scopes of an event record at a place.
pub fn put_planned_row(row: &mut Row<'_>, stream: &StreamClass) {
    if let Some(planned) = stream.planned_event(row.long()) {
        let range = row.word();
        let bytes = row.bytes();
        if let Some(place) = Place::new(range, &bytes) {
            put_planned(row, planned.plan, &Scopes::new(), place);
        }
    }
}

/// Puts the text of the scopes of a plan at a place, where the values of the packet are in `scopes`.
fn put_planned(row: &mut Row<'_>, plan: &RecordPlan, scopes: &Scopes, place: Place<'_>)
    requires { (scopes : List ScopeClass) × IsPlanOf scopes plan.now }
{
    if let Ok(line) = Vec::from_slice(row.alloc, LINE) {
        let mut line = line;
        let content = content_of(place);
        let mut kept = KeptNumbers::new(row.alloc);
        if kept.begin(plan, scopes).is_ok() {
            let from = begin_of(place);
            let standing = put_planned_record(plan, &content, from, &mut kept, &mut line);
            put_text(row, &line, standing);
            put_passed(row, plan, place, &mut kept, standing);
        }
    }
}

/// Puts a word where the record, passed over without a text, would end elsewhere, or not be there.
fn put_passed(
    row: &mut Row<'_>,
    plan: &RecordPlan,
    place: Place<'_>,
    kept: &mut KeptNumbers,
    standing: Option<Standing>,
)
    requires { (scopes : List ScopeClass) × IsPlanOf scopes plan.now }
{
    let from = Passed {
        place: place.start,
        spent: 0,
    };
    match (
        standing,
        pass_planned_record(plan, &content_of(place), from, kept),
    ) {
        (Some(standing), Some(passed)) => {
            if passed.place != standing.place || passed.spent != standing.spent {
                row.put(b", passed otherwise");
            }
        }
        // Without a text no room is needed for numbers that are read at once.
        (None, _) => {}
        (Some(_), None) => row.put(b", passed otherwise"),
    }
}

/// Puts a line up to the end of a text, and where its value ends.
fn put_text(row: &mut Row<'_>, line: &[u8], standing: Option<Standing>) {
    match standing {
        Some(standing) => {
            row.put(line.get(..standing.end).unwrap_or(b"?"));
            put_reached(row, standing.place, standing.spent);
        }
        None => row.put(b"no text"),
    }
}
