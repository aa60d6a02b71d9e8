//! Values as words, parts before what they are parts of.
//!
//! `u:5` and `i:-5` are numbers, `label:5` is one of an enumeration, `text:TEXT` and `bytes:HEXADECIMAL` are texts,
//! `group:N` and `list:N` take the last N values as members or elements, and `option:N` takes the last value as that of
//! the option of this place.

use crate::row::{Row, bytes_of_digits};
use ctf_decode::Value;
use ctf_list::{Boxed, List};
use std::alloc::Global;

/// Puts a value as words.
#[cycle(put)]
pub fn put_value(row: &mut Row<'_>, value: &Value) {
    match value {
        Value::Unsigned(number) => row.put_number(b"u:", *number as i128),
        Value::Signed(number) => row.put_number(b"i:", *number as i128),
        Value::Label(number) => row.put_number(b"label:", *number),
        Value::Text(bytes) => {
            row.put(b"text:");
            row.put(bytes.as_slice());
        }
        Value::Group(members) => put_parts(row, b"group:", members.as_slice()),
        Value::List(elements) => put_parts(row, b"list:", elements.as_slice()),
        Value::Choice(option, inner) => {
            put_value(row, inner.get());
            row.put_number(b" option:", *option as i128);
        }
    }
}

/// Puts values, and how many they are.
#[cycle(put)]
fn put_parts(row: &mut Row<'_>, kind: &[u8], values: &[Value]) {
    for value in values {
        put_value(row, value);
        row.put(b" ");
    }
    row.put_number(kind, values.len() as i128);
}

/// The values that words name, without those that can't be; none for `-`.
pub fn values_of(alloc: Global, words: &str) -> Vec<Value> {
    let mut values = Vec::new(alloc);
    for word in words.split(' ') {
        add_value(alloc, &mut values, word);
    }
    values
}

/// Adds the value that a word names: after the values before it, or around the last of them.
fn add_value(alloc: Global, values: &mut Vec<Value>, word: &str) -> Option<()> {
    let (kind, rest) = word.split_once(':')?;
    let value = match kind {
        "u" => Value::Unsigned(rest.parse::<u64>().ok()?),
        "i" => Value::Signed(rest.parse::<i64>().ok()?),
        "label" => Value::Label(rest.parse::<i128>().ok()?),
        "text" => text_of(alloc, rest.as_bytes())?,
        "bytes" => text_of(alloc, &bytes_of_digits(alloc, rest))?,
        "option" => option_of(alloc, values, rest.parse::<usize>().ok()?)?,
        _ => parts_of(values, kind, rest.parse::<usize>().ok()?)?,
    };
    values.push(value).ok()
}

/// The value that is a text of these bytes.
pub fn text_of(alloc: Global, bytes: &[u8]) -> Option<Value> {
    Some(Value::Text(List::from_slice(alloc, bytes).ok()?))
}

/// The option of this place, around the last value.
fn option_of(alloc: Global, values: &mut Vec<Value>, place: usize) -> Option<Value> {
    let value = Boxed::new(alloc, values.pop()?).ok()?;
    Some(Value::Choice(place, value))
}

/// A group or a list around the last values.
fn parts_of(values: &mut Vec<Value>, kind: &str, count: usize) -> Option<Value> {
    let parts = values.split_off(values.len().saturating_sub(count)).ok()?;
    let parts = List::from_vec(parts);
    Some(match kind {
        "group" => Value::Group(parts),
        _ => Value::List(parts),
    })
}
