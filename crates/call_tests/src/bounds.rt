//! Numbers of classes at their bounds.
//!
//! - `width BITS`, `frequency CYCLES` and `align BITS` are the number that is kept, or `none`.
//! - `span FIRST LAST NUMBER` is whether a number is one of these.

use crate::row::Row;
use ctf_class::{Align, Frequency, Span, Width};

/// Puts what comes of a row of bounds.
pub fn put_row(row: &mut Row<'_>) {
    match row.word() {
        "width" => match Width::new(row.number()) {
            Some(width) => row.put_number(b"", width.bits() as i128),
            None => row.put(b"none"),
        },
        "frequency" => match Frequency::new(row.long()) {
            Some(frequency) => row.put_number(b"", frequency.cycles() as i128),
            None => row.put(b"none"),
        },
        "align" => match Align::new(row.long()) {
            Some(align) => row.put_number(b"", align.bits() as i128),
            None => row.put(b"none"),
        },
        _ => put_covers(row),
    }
}

/// Puts whether a number is one of a span.
fn put_covers(row: &mut Row<'_>) {
    let span = Span {
        first: bound_of(row),
        last: bound_of(row),
    };
    let number = bound_of(row);
    row.put_answer(b"", span.covers(number));
}

fn bound_of(row: &mut Row<'_>) -> i128 {
    row.word().parse::<i128>().unwrap_or(0)
}
