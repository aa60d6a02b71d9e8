//! Prints the events of a trace in a layout of its own: `library_example METADATA STREAM..`.
//!
//! Each line has the time of an event, its name, and its integer fields. `docs/LIBRARY.md` goes through it.
#![tactic(auto)]

use anyhow::{Result, bail};
use ctf_cli::{
    Kind, Merge, MergeFault, OwnedEvent, OwnedItem, Scope, Shift, SliceSource, StreamReader, Text,
    TraceClass, Value, load,
};
use std::alloc::Global;
use std::io::{self, Write};
use std::{env, fs};

fn main(rt: HostRuntime) -> Result<()> {
    let alloc: Global = rt.alloc();
    let mut files = Vec::new(alloc);
    for path in env::args(&rt)?.skip(1) {
        files.push(fs::read(&rt, &path)?)?;
    }
    match files.as_slice() {
        [metadata, streams @ ..] => print_trace(alloc, metadata, streams, &mut io::writer(&rt)),
        [] => bail!("no metadata"),
    }
}

/// Prints the items of all streams, in the order of time.
fn print_trace<W: Write>(
    alloc: Global,
    metadata: &[u8],
    streams: &[Vec<u8>],
    out: &mut W,
) -> Result<()> {
    let trace = load(alloc, metadata)?;
    let readers = readers_of(alloc, &trace, streams)?;
    let mut merge = Merge::new(alloc, readers)?;
    print_items(&mut merge, out)
}

/// A reader of each stream.
fn readers_of<'a>(
    alloc: Global,
    trace: &'a TraceClass,
    streams: &'a [Vec<u8>],
) -> Result<Vec<StreamReader<'a, SliceSource<'a>>>> {
    let shift = Shift {
        seconds: 0,
        nanos: 0,
    };
    let mut readers = Vec::new(alloc);
    for (number, bytes) in streams.iter().enumerate() {
        let name = Text::from_string(format!(in alloc; "stream {number}")?);
        let source = SliceSource::new(bytes);
        readers.push(StreamReader::new(alloc, trace, name, source, shift))?;
    }
    Ok(readers)
}

/// Prints all items that are to come.
fn print_items<W: Write>(merge: &mut Merge<'_, SliceSource<'_>>, out: &mut W) -> Result<()> {
    for _ in 0..usize::MAX {
        if !print_next(merge, out)? {
            break;
        }
    }
    Ok(())
}

/// Prints the next item, and answers whether there was one.
fn print_next<W: Write>(merge: &mut Merge<'_, SliceSource<'_>>, out: &mut W) -> Result<bool> {
    let given = merge.next();
    print_given(out, &given)
}

fn print_given<W: Write>(
    out: &mut W,
    given: &Result<Option<OwnedItem<'_>>, MergeFault>,
) -> Result<bool> {
    match given {
        Ok(Some(item)) => print_item(out, item)?,
        Ok(None) => return Ok(false),
        Err(fault) => bail!("{}", *fault),
    }
    Ok(true)
}

fn print_item<W: Write>(out: &mut W, item: &OwnedItem<'_>) -> Result<()> {
    match item {
        OwnedItem::Event(event) => print_event(out, event)?,
        OwnedItem::Discarded(gap) => writeln!(out, "{} events discarded", gap.count)?,
        OwnedItem::Lost(gap) => writeln!(out, "{} packets lost", gap.count)?,
    }
    Ok(())
}

/// Prints the time of an event in nanoseconds since the epoch, its name, and its integer fields.
fn print_event<W: Write>(out: &mut W, event: &OwnedEvent<'_>) -> Result<()> {
    if let Some(time) = event.time() {
        write!(out, "{time} ")?;
    }
    out.write_all(event.class.name())?;
    if let Kind::Structure { members } = &event.class.fields().kind {
        if let Some(Value::Group(values)) = event.value(Scope::EventFields) {
            for (member, value) in members.as_slice().iter().zip(values.as_slice()) {
                print_integer(out, member.name.as_slice(), value)?;
            }
        }
    }
    writeln!(out)?;
    Ok(())
}

/// Prints a field that is an integer or an enumeration.
fn print_integer<W: Write>(out: &mut W, name: &[u8], value: &Value) -> Result<()> {
    let number = match value {
        Value::Unsigned(number) => i128::from(*number),
        Value::Signed(number) => i128::from(*number),
        Value::Label(number) => *number,
        _ => return Ok(()),
    };
    out.write_all(b" ")?;
    out.write_all(name)?;
    write!(out, "={number}")?;
    Ok(())
}
