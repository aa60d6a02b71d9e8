//! Merges, and their lines.

use crate::row::Row;
use crate::source::RowSource;
use crate::streams::reading::{RowStream, add_reader};
use crate::streams::words::{Asked, ReaderCall};
use ctf_class::TraceClass;
use ctf_list::{List, NoMemory};
use ctf_log::line;
use ctf_merge::{Merge, MergeFault};
use ctf_stream::{Item, OwnedItem};
use ctf_timestamp::{ClockStyle, Style, Zone};
use std::alloc::Global;

/// Puts what is current in the merge of some streams, at the beginning and after each call.
pub fn put_merge(row: &mut Row<'_>, trace: &TraceClass, asked: &Asked, streams: &[Vec<u8>]) {
    if let Ok(merge) = merge_of(row.alloc, trace, asked, streams) {
        let mut merge = merge;
        put_calls(row, &mut merge, asked);
    }
}

/// The merge of some streams.
fn merge_of<'a>(
    alloc: Global,
    trace: &'a TraceClass,
    asked: &'a Asked,
    streams: &'a [Vec<u8>],
) -> Result<Merge<'a, RowSource>, NoMemory> {
    let mut readers = List::new(alloc);
    for (number, bytes) in streams.iter().enumerate() {
        let stream = RowStream {
            trace,
            asked,
            number,
            bytes,
        };
        add_reader(alloc, &mut readers, stream, asked.input)?;
    }
    Merge::new(alloc, readers.into_vec())
}

/// Puts what is current at the beginning and after each call.
fn put_calls(row: &mut Row<'_>, merge: &mut Merge<'_, RowSource>, asked: &Asked) {
    put_first(row, merge);
    for number in 0..usize::MAX {
        put_step(row, merge, asked.step(number));
        if put_first(row, merge) {
            break;
        }
    }
    put_step(row, merge, asked.step(2));
    put_first(row, merge);
}

/// Makes a call, and puts what it gives.
fn put_step(row: &mut Row<'_>, merge: &mut Merge<'_, RowSource>, step: ReaderCall) {
    match (step, merge.next_stream()) {
        (ReaderCall::Next, _) => put_given(row, &merge.next()),
        (ReaderCall::Leave, Some(number)) => merge.leave(number),
        _ => merge.go_on(),
    }
}

/// Puts what comes first, and answers whether that is the end.
fn put_first(row: &mut Row<'_>, merge: &Merge<'_, RowSource>) -> bool {
    let Some(number) = merge.next_stream() else {
        put_fault(row, merge.fault());
        return merge.fault().is_none();
    };
    row.put_number(b"", number as i128);
    row.put(b": ");
    if let Some(reader) = merge.reader(number) {
        put_item(row, reader.head());
    }
    false
}

/// Puts what is given by value.
fn put_given(row: &mut Row<'_>, given: &Result<Option<OwnedItem<'_>>, MergeFault>) {
    row.put(b"gives ");
    match given {
        Ok(None) => row.put(b"nothing\n"),
        Ok(Some(item)) => put_item(row, Some(item.as_item())),
        Err(fault) => put_fault(row, Some(*fault)),
    }
}

/// Puts the line of an item, with seconds since the epoch, as it follows the line of an event record at the epoch.
fn put_item(row: &mut Row<'_>, item: Option<Item<'_>>) {
    let style = Style {
        clock: ClockStyle::Seconds,
        delta: true,
        zone: Zone::utc(),
    };
    match item {
        Some(item) => row.put_made(line(row.alloc, &item, style, Some(0))),
        None => row.put(b"no item in front\n"),
    }
}

/// Puts a fault, or the end.
fn put_fault(row: &mut Row<'_>, fault: Option<MergeFault>) {
    match fault {
        None => row.put(b"end"),
        Some(MergeFault::NoMemory) => row.put(b"no memory"),
        Some(MergeFault::Stream { number, fault }) => {
            row.put_shown(&fault);
            row.put_number(b" in ", number as i128);
        }
    }
    row.put(b"\n");
}
