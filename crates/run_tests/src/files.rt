//! The bytes of metadata and of streams.

use crate::manner::Manner;
use crate::source::RowSource;
use std::alloc::Global;
use std::fs;

/// Adds the stream that a word names, `s0`, `s1` and so on, which gives its bytes in this manner.
pub fn add_stream(
    rt: &HostRuntime,
    streams: &mut Vec<(String, RowSource)>,
    word: &str,
    manner: Manner,
) {
    let bytes = match word.strip_prefix('@') {
        Some(file) => file_of(rt, file),
        None => bytes_of_digits(rt.alloc(), word),
    };
    add_bytes(rt.alloc(), streams, bytes, manner);
}

/// Adds a stream of these bytes.
pub fn add_bytes(
    alloc: Global,
    streams: &mut Vec<(String, RowSource)>,
    bytes: Vec<u8>,
    manner: Manner,
) {
    if let Ok(name) = format!(in alloc; "s{}", streams.len()) {
        let _ = streams.push((name, RowSource::new(bytes, manner)));
    }
}

/// The bytes of a file: `*N` has them N times, `-N` leaves out the last N, `+BYTES` adds others at the end, and
/// `@PLACE@BYTES` puts others at a place.
pub fn file_of(rt: &HostRuntime, word: &str) -> Vec<u8> {
    let end = word.find(['*', '-', '+', '@']).unwrap_or(word.len());
    let (path, change) = word.split_at(end);
    let mut bytes = fs::read(rt, path).unwrap_or(Vec::new(rt.alloc()));
    change_bytes(rt.alloc(), &mut bytes, change);
    bytes
}

/// Changes the bytes of a file.
fn change_bytes(alloc: Global, bytes: &mut Vec<u8>, change: &str) {
    if let Some(count) = change.strip_prefix('*') {
        repeat(alloc, bytes, number_of(count));
    } else if let Some(count) = change.strip_prefix('-') {
        bytes.truncate(bytes.len().saturating_sub(number_of(count)));
    } else if let Some(more) = change.strip_prefix('+') {
        let _ = bytes.extend_from_slice(&bytes_of_digits(alloc, more));
    } else if let Some(change) = change.strip_prefix('@') {
        let (place, other) = change.split_once('@').unwrap_or((change, ""));
        set(bytes, number_of(place), &bytes_of_digits(alloc, other));
    }
}

/// Has bytes so many times.
fn repeat(alloc: Global, bytes: &mut Vec<u8>, count: usize) {
    if let Ok(all) = bytes.repeat(alloc, count) {
        *bytes = all;
    }
}

/// Puts bytes in the place of those that are there.
fn set(bytes: &mut [u8], place: usize, other: &[u8]) {
    for (here, byte) in bytes.iter_mut().skip(place).zip(other) {
        *here = *byte;
    }
}

/// A number; 0 where a word is none.
fn number_of(word: &str) -> usize {
    word.parse::<usize>().unwrap_or(0)
}

/// The bytes that hexadecimal digits name; none where they name none.
pub fn bytes_of_digits(alloc: Global, digits: &str) -> Vec<u8> {
    hex::decode(alloc, digits).unwrap_or(Vec::new(alloc))
}
