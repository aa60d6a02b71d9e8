//! Class numbers and stamps of event records.

use crate::row::{Row, bytes_of_digits};
use crate::value::decoding::put_fault;
use crate::value::place::Place;
use ctf_class::{Class, Width};
use ctf_decode::{Packet, Scopes, Value, decode_into, last_id, moving, moving_into};
use ctf_list::NoMemory;
use std::alloc::Global;

/// What headers are decoded into, and the values decoded before.
#[derive(Drop)]
struct HeaderScratch {
    scopes: Scopes,
    value: Value,
}

/// Puts a line for each header, which is at the start of a packet of its own. Each is decoded into the value of the one
/// before it.
pub fn put_row(row: &mut Row<'_>, class: &Class) {
    let scratch = HeaderScratch {
        scopes: Scopes::new(),
        value: Value::Signed(1),
    };
    if let Ok(scratch) = Box::new(row.alloc, scratch) {
        let mut scratch = scratch;
        let mut lead: &[u8] = b"";
        for header in row.words.split(", ") {
            row.put(lead);
            put_header(row, class, header, &mut scratch);
            lead = b"\n";
        }
    }
}

/// Puts what a header says, or its fault.
fn put_header(row: &mut Row<'_>, class: &Class, header: &str, scratch: &mut HeaderScratch) {
    let (range, digits) = header.split_once(' ').unwrap_or((header, ""));
    let bytes = bytes_of_digits(row.alloc, digits);
    if let Some(place) = Place::new(range, &bytes) {
        put_place(row, class, place, scratch);
    }
}

/// Puts what a header at a place says, or its fault.
fn put_place(row: &mut Row<'_>, class: &Class, place: Place<'_>, scratch: &mut HeaderScratch) {
    let Place {
        bytes,
        start,
        content,
    } = place;
    let HeaderScratch { scopes, value } = scratch;
    let packet = Packet {
        bytes,
        content,
        scopes: &*scopes,
    };
    match decode_into(row.alloc, class, &packet, start, value) {
        Err(fault) => put_fault(row, fault),
        Ok(reached) => {
            put_read(row, class, value);
            row.put_number(b", to ", reached.end as i128);
        }
    }
}

/// Puts what the value of a header says, in place of other stamps.
fn put_read(row: &mut Row<'_>, class: &Class, value: &Value) {
    match header_stamps(row.alloc, class, value) {
        Ok(stamps) => put_said(row, last_id(class, value), &stamps),
        Err(_) => row.put(b"no memory"),
    }
}

/// The stamps of a header, in place of another one.
fn header_stamps(
    alloc: Global,
    class: &Class,
    value: &Value,
) -> Result<Vec<(Width, u64)>, NoMemory> {
    let mut stamps = Vec::new(alloc);
    if let Some(width) = Width::new(1) {
        stamps.push((width, 1))?;
    }
    moving_into(class, value, &mut stamps)?;
    Ok(stamps)
}

/// Puts what the value of a header says.
pub fn put_moving(row: &mut Row<'_>, class: &Class, value: &Value) {
    match moving(row.alloc, class, value) {
        Ok(stamps) => put_said(row, last_id(class, value), &stamps),
        Err(_) => row.put(b"no memory"),
    }
}

/// Puts a class number, and the sizes and numbers of stamps.
fn put_said(row: &mut Row<'_>, id: Option<i128>, stamps: &[(Width, u64)]) {
    match id {
        Some(id) => row.put_number(b"id ", id),
        None => row.put(b"no id"),
    }
    for (size, number) in stamps {
        row.put_number(b", ", *number as i128);
        row.put_number(b" in ", size.bits() as i128);
        row.put(b" bits");
    }
}
