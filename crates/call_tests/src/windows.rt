//! Integers that are read at once.
//!
//! `window PLACE SIZE KIND ORDER FIRST BYTES` is an integer, `u` or in two's complement `i`, whose place is counted
//! from the end of the first FIRST bytes: its place, its end, its number if that is not below zero, and that of its
//! bits in two's complement. `short PLACE SIZE ORDER BYTES` is one whose place is counted from the first bit: its
//! number. The byte order is `le` or `be`.

use crate::row::Row;
use ctf_bits::{Order, ShortInteger, Window};

/// Puts what comes of a row of integers.
pub fn put_row(row: &mut Row<'_>) {
    if row.word() == "short" {
        put_short(row);
    } else {
        put_any_window(row);
    }
}

/// Puts what comes of a short integer, if it is one and there are enough bytes.
fn put_short(row: &mut Row<'_>) {
    let place = row.long();
    let size = row.number();
    let order = order_of(row);
    let bytes = row.bytes();
    if size == 0 || u128::from(place) / 8 + 8 > bytes.len() as u128 {
        return;
    }
    match ShortInteger::new(size) {
        Some(short) => row.put_number(b"", short.number(&bytes, place, order) as i128),
        None => row.put(b"none"),
    }
}

/// Puts what comes of a window.
fn put_any_window(row: &mut Row<'_>) {
    let place = row.long();
    let size = row.number();
    if size == 0 || size > 64 {
        return;
    }
    match Window::new(place, size, row.word() == "i") {
        Some(window) => put_window(row, &window),
        None => row.put(b"none"),
    }
}

/// Puts a window, and its number after the first bytes, if there are enough.
fn put_window(row: &mut Row<'_>, window: &Window) {
    let order = order_of(row);
    let first = row.long() as usize;
    let bytes = row.bytes();
    let place = window.place();
    if place > 1 << 32 || first as u128 + u128::from(place) / 8 + 8 > bytes.len() as u128 {
        return;
    }
    row.put_number(b"", place as i128);
    row.put_number(b"..", window.end() as i128);
    match window.number(&bytes, first, order) {
        Some(number) => row.put_number(b": ", number as i128),
        None => row.put(b": below zero"),
    }
    row.put_number(b", ", window.signed(&bytes, first, order) as i128);
}

/// The byte order that a row names.
fn order_of(row: &mut Row<'_>) -> Order {
    if row.word() == "be" {
        Order::Be
    } else {
        Order::Le
    }
}
