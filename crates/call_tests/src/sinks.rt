//! Sinks that get a text, and at each call what they left of it.
//!
//! `sink KIND TEXT` is how many bytes a sink takes at each call, `failed` where it fails, and what it has then.
//! `memory` is a sink in memory, `drip:N` takes at most so many bytes at a call, `failing:N` so many bytes in all,
//! `write` is a writer in memory, `silent` a writer that takes nothing, `broken` one that fails, and `interrupted` one
//! whose first call a signal interrupts. `flush KIND` is what comes of passing on what such a writer holds back.

use crate::device::Device;
use crate::row::Row;
use crate::sources::kind_and_count;
use ctf_bits::{DripSink, FailingSink, Sink, SinkFault, ToWrite, VecSink};

/// Puts what comes of a row of sinks.
pub fn put_row(row: &mut Row<'_>) {
    if row.word() == "flush" {
        put_flushed(row);
        return;
    }
    let (kind, count) = kind_and_count(row.word());
    match kind {
        "drip" => put_drip(row, DripSink::new(row.alloc, count)),
        "failing" => put_failing(row, FailingSink::new(row.alloc, count)),
        "memory" => put_memory(row, VecSink::new(row.alloc)),
        "write" => put_write(row, ToWrite::new(Vec::new(row.alloc))),
        name => put_poured(row, &mut ToWrite::new(Device::named(name))),
    }
}

/// Puts what comes of passing on what a writer holds back.
fn put_flushed(row: &mut Row<'_>) {
    let mut sink = ToWrite::new(Device::named(row.word()));
    match sink.flush() {
        Ok(()) => put_passed(row, &sink.into_inner()),
        Err(SinkFault::Failed) => row.put(b" failed"),
        Err(SinkFault::NoMemory) => row.put(b" no memory"),
    }
}

/// Puts whether what a device holds back was passed on.
fn put_passed(row: &mut Row<'_>, device: &Device) {
    match device {
        Device::Silent => row.put(b" passed on"),
        Device::Broken | Device::Interrupted | Device::Resumed => row.put(b" held back"),
    }
}

fn put_drip(row: &mut Row<'_>, mut sink: DripSink) {
    put_poured(row, &mut sink);
    put_bytes(row, sink.bytes());
}

fn put_failing(row: &mut Row<'_>, mut sink: FailingSink) {
    put_poured(row, &mut sink);
    put_bytes(row, sink.bytes());
}

fn put_memory(row: &mut Row<'_>, mut sink: VecSink) {
    put_poured(row, &mut sink);
    put_bytes(row, sink.bytes());
}

fn put_write(row: &mut Row<'_>, mut sink: ToWrite<Vec<u8>>) {
    put_poured(row, &mut sink);
    put_bytes(row, &sink.into_inner());
}

/// Puts what a sink has.
fn put_bytes(row: &mut Row<'_>, bytes: &[u8]) {
    row.put(b" [");
    row.put(bytes);
    row.put(b"]");
}

/// Puts how many bytes of the rest of a row a sink takes at each call.
fn put_poured<W: Sink>(row: &mut Row<'_>, sink: &mut W) {
    let text = row.words.as_bytes();
    let mut left = text;
    for _ in 0..text.len() {
        left = put_taken(row, sink, left);
    }
}

/// Puts how many bytes a sink takes. What it leaves of them.
fn put_taken<'a, W: Sink>(row: &mut Row<'_>, sink: &mut W, bytes: &'a [u8]) -> &'a [u8] {
    if bytes.is_empty() {
        return bytes;
    }
    match sink.put(bytes) {
        Ok(count) => {
            row.put_number(b" ", count as i128);
            return &bytes[count..];
        }
        Err(SinkFault::Failed) => row.put(b" failed"),
        Err(SinkFault::NoMemory) => row.put(b" no memory"),
    }
    bytes
}
