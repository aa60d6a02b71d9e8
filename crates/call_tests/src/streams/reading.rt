//! Readers, whose streams come whole and in pieces. A reader is in a list, whose drop is a call.

use crate::row::Row;
use crate::source::{Manner, RowSource};
use crate::streams::items::{put_item, put_passed, put_text};
use crate::streams::words::{Asked, ReaderCall, RecordDetail};
use ctf_class::TraceClass;
use ctf_clock::Shift;
use ctf_list::{List, NoMemory, Text};
use ctf_packet::StreamFault;
use ctf_stream::{CurrentItem, OwnedItem, StreamReader};
use std::alloc::Global;

/// How long the pieces are in which bytes are given again.
const PIECES: [usize; 5] = [1, 2, 3, 7, 13];

/// A stream of a row, by its number, from 0.
#[derive(Clone, Copy)]
pub struct RowStream<'a> {
    pub trace: &'a TraceClass,
    pub asked: &'a Asked,
    pub number: usize,
    pub bytes: &'a [u8],
}

/// Puts what the reader of each stream gives.
pub fn put_readers(row: &mut Row<'_>, trace: &TraceClass, asked: &Asked, streams: &[Vec<u8>]) {
    for (number, bytes) in streams.iter().enumerate() {
        put_stream(
            row,
            RowStream {
                trace,
                asked,
                number,
                bytes,
            },
        );
    }
}

/// Puts what the reader of a stream gives, and in which pieces the bytes come to the same.
fn put_stream(row: &mut Row<'_>, stream: RowStream<'_>) {
    let whole = reader_row(row.alloc, stream, stream.asked.input);
    row.put(&whole);
    if let Manner::Whole = stream.asked.input {
        row.put(b"alike in pieces of");
        for piece in PIECES {
            if reader_row(row.alloc, stream, Manner::Drip(piece)) == whole {
                row.put_number(b" ", piece as i128);
            }
        }
        row.put(b"\n");
    }
}

/// What the reader of a stream gives where its bytes come in this manner.
fn reader_row(alloc: Global, stream: RowStream<'_>, manner: Manner) -> Vec<u8> {
    let mut row = Row::new(alloc, "");
    let mut readers = List::new(alloc);
    let added = add_reader(alloc, &mut readers, stream, manner);
    if let (Ok(()), Some(reader)) = (added, readers.as_mut_slice().last_mut()) {
        put_reader(&mut row, reader, stream.asked);
    }
    row.into_text()
}

/// Adds a reader of a stream whose bytes come in this manner.
pub fn add_reader<'a>(
    alloc: Global,
    readers: &mut List<StreamReader<'a, RowSource>>,
    stream: RowStream<'a>,
    manner: Manner,
) -> Result<(), NoMemory> {
    let name = Text::from_string(format!(in alloc; "s{}", stream.number)?);
    let source = RowSource::new(Vec::from_slice(alloc, stream.bytes)?, manner);
    let shift = Shift {
        seconds: 0,
        nanos: stream.asked.shift,
    };
    let mut reader = StreamReader::new(alloc, stream.trace, name, source, shift);
    if stream.asked.writes {
        reader = reader.with_texts(stream.asked.begin);
    }
    Ok(readers.push(reader)?)
}

/// Puts the name of a reader's stream, and what each of its calls gives.
fn put_reader(row: &mut Row<'_>, reader: &mut StreamReader<'_, RowSource>, asked: &Asked) {
    put_counts(row, reader);
    row.put(reader.name().as_bytes());
    row.put(b"\n");
    for number in 0..usize::MAX {
        if put_step(row, reader, asked.step(number), asked.shown) {
            break;
        }
    }
    put_step(row, reader, asked.step(2), asked.shown);
}

/// Puts what a call gives, and answers whether no item comes after it. A reader has no `leave`.
fn put_step(
    row: &mut Row<'_>,
    reader: &mut StreamReader<'_, RowSource>,
    step: ReaderCall,
    shown: RecordDetail,
) -> bool {
    match step {
        ReaderCall::Next => {
            let given = reader.next();
            put_counts(row, reader);
            put_given(row, &given, shown)
        }
        _ => {
            reader.go_on();
            put_counts(row, reader);
            put_front(row, reader, shown)
        }
    }
}

/// Puts the current item, the end or the fault, and answers whether it is no item. `told` and `head` give one item.
fn put_front(row: &mut Row<'_>, reader: &StreamReader<'_, RowSource>, shown: RecordDetail) -> bool {
    match (reader.told(), reader.head()) {
        (Some(CurrentItem::Item(_)), Some(item)) => put_item(row, &item, shown),
        (Some(CurrentItem::Text(event)), None) => put_text(row, &event),
        (Some(CurrentItem::Passed(moment)), None) => put_passed(row, moment),
        (None, None) => return put_last(row, reader.fault()),
        _ => row.put(b"an item of which another is told\n"),
    }
    false
}

/// Puts what is given by value, and answers whether that is an end or a fault.
fn put_given(
    row: &mut Row<'_>,
    given: &Result<Option<OwnedItem<'_>>, StreamFault>,
    shown: RecordDetail,
) -> bool {
    match given {
        Ok(Some(item)) => {
            row.put(b"gives ");
            put_item(row, &item.as_item(), shown);
            false
        }
        Ok(None) => put_last(row, None),
        Err(fault) => put_last(row, Some(*fault)),
    }
}

/// Puts a fault or an end. Nothing comes after it.
fn put_last(row: &mut Row<'_>, fault: Option<StreamFault>) -> bool {
    match fault {
        Some(fault) => row.put_shown(&fault),
        None => row.put(b"end"),
    }
    row.put(b"\n");
    true
}

/// Puts how many bytes the source has given, and how many the reader holds.
fn put_counts(row: &mut Row<'_>, reader: &StreamReader<'_, RowSource>) {
    row.put_number(b"", reader.source().given() as i128);
    row.put_number(b"/", reader.held() as i128);
    row.put(b" ");
}
