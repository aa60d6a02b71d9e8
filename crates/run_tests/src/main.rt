//! Prints what small rows come to: the program over made-up files and over those of `data/`, runs over traces, and
//! sessions.
//!
//! The tables in `data/` are `rows` (`program.rt`), `runs` (`run.rt`) and `sessions` (`session.rt`); `files` has the
//! made-up files, and the others are metadata and streams. A line that begins with `#` is a comment, each other line is
//! a row. What comes of each is written down in `stdout`, from the rules of the format, of runs and of the layout.
//!
//! After the rows the program starts as itself, over the words of this one's command line: a folder that is not there.
//! It prints nothing, and its status, 1, is that of this one; where a table can't be read or printed that is 2.
//!
//! What costs is where a value is dropped. So what puts something owns little and answers nothing. What is refused
//! memory, and a row that is none, puts another text than the one that is wanted.
#![tactic(auto)]

mod files;
mod manner;
mod program;
mod row;
mod run;
mod session;
mod sink;
mod source;
mod words;

use ctf_cli::start;
use row::Row;
use std::io::Write;
use std::process::ExitCode;
use std::{fs, io};

fn main(rt: HostRuntime) -> ExitCode {
    match print_tables(&rt) {
        Ok(()) => ExitCode::from(start(&rt, rt.stdout(), false, rt.stderr())),
        Err(_) => ExitCode::from(2),
    }
}

/// Prints each table.
fn print_tables(rt: &HostRuntime) -> io::Result<()> {
    print_table(rt, "rows")?;
    print_table(rt, "runs")?;
    print_table(rt, "sessions")
}

/// Prints each row of a table, and what comes of it.
fn print_table(rt: &HostRuntime, table: &str) -> io::Result<()> {
    let rows = fs::read_to_string(rt, table)?;
    for line in rows.lines() {
        if !line.is_empty() && !line.starts_with('#') {
            print_row(rt, table, line)?;
        }
    }
    Ok(())
}

/// Prints a row, and what comes of it.
fn print_row(rt: &HostRuntime, table: &str, line: &str) -> io::Result<()> {
    let mut row = Row::new(rt.alloc(), line);
    row.put_line(if table == "rows" { b"$ " } else { b"> " }, line.as_bytes());
    match table {
        "rows" => program::put_row(rt, &mut row),
        "runs" => run::put_row(rt, &mut row),
        _ => session::put_row(rt, &mut row),
    }
    io::writer(rt).write_all(row.text())
}
