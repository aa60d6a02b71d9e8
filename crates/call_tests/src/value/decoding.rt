//! What is decoded at places of packets. The values decoded before are in a box: its drop is a call.

use crate::row::Row;
use crate::value::place::Place;
use crate::value::words::put_value;
use ctf_class::Class;
use ctf_decode::{
    DecodeFault, Decoded, Front, MOST_VALUES, Packet, Scopes, Value, decode, decode_front,
    decode_into,
};

/// Puts what is decoded at a place.
pub fn put_place(row: &mut Row<'_>, kind: &str, class: &Class, place: Place<'_>) {
    if let Ok(scopes) = Box::new(row.alloc, Scopes::new()) {
        let mut scopes = scopes;
        scopes.set_spent(MOST_VALUES.min(row.long()));
        match kind {
            "decode" => put_decoded(row, class, place, &scopes),
            "into" => put_into(row, class, place, &scopes),
            _ => put_front(row, class, place, &scopes),
        }
    }
}

/// Puts what is decoded at a place.
fn put_decoded(row: &mut Row<'_>, class: &Class, place: Place<'_>, scopes: &Scopes) {
    let Place {
        bytes,
        start,
        content,
    } = place;
    match decode(row.alloc, class, bytes, start, content, scopes) {
        Ok(found) => put_found(row, &found),
        Err(fault) => put_fault(row, fault),
    }
}

/// Puts what is decoded at a place into the value 1.
fn put_into(row: &mut Row<'_>, class: &Class, place: Place<'_>, scopes: &Scopes) {
    let Place {
        bytes,
        start,
        content,
    } = place;
    let packet = Packet {
        bytes,
        content,
        scopes,
    };
    let mut value = Value::Signed(1);
    match decode_into(row.alloc, class, &packet, start, &mut value) {
        Ok(reached) => {
            put_value(row, &value);
            put_reached(row, reached.end, reached.spent);
        }
        Err(fault) => put_fault(row, fault),
    }
}

/// Puts what is decoded at a place of a beginning of a packet, all of the bytes.
fn put_front(row: &mut Row<'_>, class: &Class, place: Place<'_>, scopes: &Scopes) {
    if place.bytes.len() > 1 << 58 {
        return;
    }
    match decode_front(row.alloc, class, place.bytes, place.start, scopes) {
        Ok(Front::Done(found)) => put_found(row, &found),
        Ok(Front::Need(bits)) => {
            row.put(b"needs ");
            row.put_shown(&bits);
        }
        Err(fault) => put_fault(row, fault),
    }
}

fn put_found(row: &mut Row<'_>, found: &Decoded) {
    put_value(row, &found.value);
    put_reached(row, found.end, found.spent);
}

/// Puts where a value ends, and how many values were begun up to there.
pub fn put_reached(row: &mut Row<'_>, end: u64, spent: u64) {
    row.put_number(b" to ", end as i128);
    row.put_number(b", values: ", spent as i128);
}

/// Puts a fault.
pub fn put_fault(row: &mut Row<'_>, fault: DecodeFault) {
    match fault {
        DecodeFault::ContentEnds(place) => {
            row.put(b"content ends before ");
            row.put_shown(&place);
        }
        other => row.put_shown(&other),
    }
}
