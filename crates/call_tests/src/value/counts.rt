//! Numbers of each count of digits, and texts of each length.

use crate::row::Row;
use crate::value::words::text_of;
use ctf_class::Class;
use ctf_decode::Value;
use ctf_format::value_text;
use std::alloc::Global;

/// Puts how many numbers begin with these digits, and a line before for each of which others are shown.
pub fn put_digits(row: &mut Row<'_>, class: &Class) {
    let digits = row.word();
    for end in 1..=digits.len() {
        let want = digits.get(..end).unwrap_or("");
        let value = Value::Unsigned(want.parse::<u64>().unwrap_or(0));
        if !is_shown(row.alloc, class, &value, want.as_bytes()) {
            row.put(b"another text of ");
            row.put(want.as_bytes());
            row.put(b"\n");
        }
    }
    row.put_number(b"", digits.len() as i128);
    row.put(b" numbers");
}

/// Whether this is what is shown of a value.
fn is_shown(alloc: Global, class: &Class, value: &Value, want: &[u8]) -> bool {
    match value_text(alloc, class, value) {
        Ok(text) => text.as_slice() == want,
        Err(_) => false,
    }
}

/// Puts how many texts are shown as they must be, of the beginnings of this one, each with each of three bytes at its
/// begin, inside and at its end.
pub fn put_lengths(row: &mut Row<'_>, class: &Class) {
    let plain = row.words.as_bytes();
    let mut count = 0u32;
    for length in 0..=plain.len() {
        for byte in [b'+', b'"', 1] {
            for place in [0, length / 2, length.saturating_sub(1)] {
                if is_text_shown(row.alloc, class, &plain[..length], place, byte) {
                    count = count.saturating_add(1);
                }
            }
        }
    }
    row.put_number(b"", count as i128);
    row.put(b" texts");
}

/// Whether a text is shown as it must be, with another byte at a place: only a quote and a byte 1 are escaped.
fn is_text_shown(alloc: Global, class: &Class, plain: &[u8], place: usize, other: u8) -> bool {
    let mut bytes = Row::new(alloc, "");
    let mut want = Row::new(alloc, "");
    want.put(b"\"");
    for (index, byte) in plain.iter().enumerate() {
        let byte = if index == place { other } else { *byte };
        bytes.put(&[byte]);
        match byte {
            b'"' => want.put(b"\\\""),
            1 => want.put(b"\\x01"),
            byte => want.put(&[byte]),
        }
    }
    want.put(b"\"");
    match text_of(alloc, bytes.text()) {
        Some(value) => is_shown(alloc, class, &value, want.text()),
        None => false,
    }
}
