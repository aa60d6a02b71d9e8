//! The bytes of streams, and traces that metadata declare.

use crate::row::bytes_of_digits;
use ctf_class::TraceClass;
use ctf_load::load;
use std::alloc::Global;
use std::fs;

/// The trace that the metadata in a file declare. It is in a box, whose drop is a call.
pub fn trace_of(rt: &HostRuntime, path: &str) -> Option<Box<TraceClass>> {
    let metadata = fs::read(rt, path).ok()?;
    match load(rt.alloc(), &metadata) {
        Ok(trace) => Box::new(rt.alloc(), trace).ok(),
        Err(_) => None,
    }
}

/// The bytes of each stream that words name.
pub fn streams_of(rt: &HostRuntime, words: &str) -> Vec<Vec<u8>> {
    let mut streams = Vec::new(rt.alloc());
    for word in words.split(' ') {
        if is_stream(word) {
            let _ = streams.push(stream_of(rt, word));
        }
    }
    streams
}

/// Whether a word is a stream: other words are in lower case.
pub fn is_stream(word: &str) -> bool {
    match word.as_bytes() {
        [] => false,
        [first, ..] => !first.is_ascii_lowercase(),
    }
}

/// The bytes of a stream.
fn stream_of(rt: &HostRuntime, word: &str) -> Vec<u8> {
    match word.strip_prefix('@') {
        Some(file) => file_of(rt, file),
        None => bytes_of_digits(rt.alloc(), word),
    }
}

/// The bytes of a file: without the last ones, with others added at the end, or with others at a place.
fn file_of(rt: &HostRuntime, word: &str) -> Vec<u8> {
    let end = word.find(['-', '+', '@']).unwrap_or(word.len());
    let (path, change) = word.split_at(end);
    let mut bytes = fs::read(rt, path).unwrap_or(Vec::new(rt.alloc()));
    change_bytes(rt.alloc(), &mut bytes, change);
    bytes
}

/// Changes the bytes of a file.
fn change_bytes(alloc: Global, bytes: &mut Vec<u8>, change: &str) {
    if let Some(count) = change.strip_prefix('-') {
        bytes.truncate(
            bytes
                .len()
                .saturating_sub(count.parse::<usize>().unwrap_or(0)),
        );
    } else if let Some(more) = change.strip_prefix('+') {
        let _ = bytes.extend_from_slice(&bytes_of_digits(alloc, more));
    } else {
        let (place, other) = change
            .trim_start_matches('@')
            .split_once('@')
            .unwrap_or(("0", ""));
        set(
            bytes,
            place.parse::<usize>().unwrap_or(0),
            &bytes_of_digits(alloc, other),
        );
    }
}

/// Puts bytes in the place of those that are there.
fn set(bytes: &mut [u8], place: usize, other: &[u8]) {
    for (here, byte) in bytes.iter_mut().skip(place).zip(other) {
        *here = *byte;
    }
}
