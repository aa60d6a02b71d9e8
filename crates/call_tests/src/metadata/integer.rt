//! Integers and labels as text.

use crate::row::Row;
use ctf_bits::Order;
use ctf_class::{Base, Integer, Label, Span};

/// Puts an integer as its sign and size, byte order, base where it is not decimal, and `!` where it sets the
/// clock: `u27le!`, `i32be:x`.
pub fn put_integer(row: &mut Row<'_>, integer: &Integer) {
    let sign = if integer.is_signed { b"i" } else { b"u" };
    row.put_number(sign, integer.size.bits() as i128);
    row.put(match integer.order {
        Order::Le => b"le",
        Order::Be => b"be",
    });
    row.put(match integer.base {
        Base::Binary => b":b",
        Base::Octal => b":o",
        Base::Decimal => b"",
        Base::Hexadecimal => b":x",
    });
    if integer.is_moving {
        row.put(b"!");
    }
}

/// Puts labels and the numbers that they cover.
pub fn put_labels(row: &mut Row<'_>, labels: &[Label]) {
    row.put(b" (");
    for label in labels {
        row.put(label.name.as_slice());
        row.put(b" ");
        put_span(row, label.span);
        row.put(b"; ");
    }
    row.put(b")");
}

/// Puts the first and the last number of a span.
pub fn put_span(row: &mut Row<'_>, span: Span) {
    row.put_number(b"", span.first);
    row.put_number(b"..", span.last);
}
