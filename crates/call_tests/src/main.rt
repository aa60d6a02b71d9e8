//! Makes one call after another and prints what it answers.
//!
//! `data/tables` names the tables, each in a line. In a table a line that begins with `#` is a comment, and each other
//! line a row of words with one space between them. A text may hold bytes in hexadecimal between two backquotes. `-`
//! stands for nothing. `readers` and `merges` are rows of streams (`streams.rt`), `places` and `texts` rows of values
//! (`value.rt`), `faults` and `worked` metadata texts (`metadata/faults.rt`), and `declared` names files of metadata
//! whose trace classes are printed, and `owners` (`metadata/owners.rt`). In the other tables, each of the calls of one
//! module, the first word says what is called, and the module says what its rows are.
//!
//! After each row is what came of it. All of this is written down in `stdout`, from the contracts of the calls and the
//! rules of the format and of the layout. A call may answer that it is out of memory, and no contract says that it does
//! not: so each such call is made here with ample memory. What else a contract leaves open is here too; what it does
//! not is computed in `number_tests`.
//!
//! What costs is where a value is dropped. So what puts something owns little and answers nothing. What is refused
//! memory, and a row that is none, puts another text than the one that is wanted.
#![tactic(auto)]

mod bounds;
mod classes;
mod command;
mod device;
mod files;
mod items;
mod lists;
mod metadata;
mod names;
mod plans;
mod row;
mod sinks;
mod source;
mod sources;
mod stamps;
mod streams;
mod texts;
mod traces;
mod value;
mod windows;
mod zones;

use files::trace_of;
use row::Row;
use std::io::Write;
use std::{fs, io};

fn main(rt: HostRuntime) -> io::Result<()> {
    let tables = fs::read_to_string(&rt, "tables")?;
    for table in tables.lines() {
        print_table(&rt, table)?;
    }
    Ok(())
}

/// Prints what comes of a table.
fn print_table(rt: &HostRuntime, table: &str) -> io::Result<()> {
    let rows = fs::read_to_string(rt, table)?;
    if table == "faults" || table == "worked" {
        let mut told = Row::new(rt.alloc(), "");
        metadata::put_table(&mut told, &rows);
        return io::writer(rt).write_all(told.text());
    }
    for line in rows.lines() {
        if !line.is_empty() && !line.starts_with('#') {
            print_row(rt, table, line)?;
        }
    }
    Ok(())
}

/// Prints a row, and what comes of it.
fn print_row(rt: &HostRuntime, table: &str, line: &str) -> io::Result<()> {
    let mut row = Row::new(rt.alloc(), line);
    row.put(if table == "declared" { b"\n" } else { b"> " });
    row.put(line.as_bytes());
    row.put(b"\n");
    match table {
        "declared" => put_declared(rt, &mut row, line),
        "readers" | "merges" => put_streams(rt, &mut row, table),
        "places" => put_value(rt, &mut row, "places_metadata"),
        "texts" => put_value(rt, &mut row, "texts_metadata"),
        "text.rows" => texts::put_row(&mut row),
        _ => {
            put_call(&mut row, table);
            row.put(b"\n");
        }
    }
    io::writer(rt).write_all(row.text())
}

/// Puts what a file of metadata declares, or how owners compare with their copies.
fn put_declared(rt: &HostRuntime, row: &mut Row<'_>, path: &str) {
    match fs::read(rt, path) {
        Ok(bytes) => metadata::put_declared(row, &bytes),
        Err(_) => metadata::put_owners(row),
    }
}

/// Puts what the readers or the merge of a row do.
fn put_streams(rt: &HostRuntime, row: &mut Row<'_>, table: &str) {
    if let Some(trace) = trace_of(rt, row.word()) {
        streams::put_row(rt, row, table, &trace);
    }
}

/// Puts what comes of a row of the classes that the metadata in a file declare.
fn put_value(rt: &HostRuntime, row: &mut Row<'_>, metadata: &str) {
    if let Some(trace) = trace_of(rt, metadata) {
        value::put_row(row, &trace);
        row.put(b"\n");
    }
}

/// Puts what comes of a call.
fn put_call(row: &mut Row<'_>, table: &str) {
    match table {
        "list.rows" => lists::put_row(row),
        "window.rows" => windows::put_row(row),
        "source.rows" => sources::put_row(row),
        "sink.rows" => sinks::put_row(row),
        "bound.rows" => bounds::put_row(row),
        "name.rows" | "label.rows" => names::put_row(row),
        "field.rows" => names::put_field_row(row),
        "item.rows" => items::put_row(row),
        "plan.rows" => plans::put_row(row),
        "trace.rows" => traces::put_row(row),
        "stamp.rows" => stamps::put_row(row),
        "zone.rows" => zones::put_row(row),
        _ => command::put_row(row),
    }
}
