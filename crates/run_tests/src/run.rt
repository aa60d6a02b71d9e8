//! Runs over small traces: what they write, and how they end.
//!
//! A row has words with one space between them:
//!
//! - `--OPTION` is a word of the command line, where `_` stands for a space.
//! - `NAME:FILE` is a trace of this name and the metadata in this file; `NAME:-` is a name without a trace.
//! - Hexadecimal digits are the bytes of the next stream of the trace, `-` stands for none, and `@FILE` for those of a
//!   file. Streams are called `s0`, `s1` and so on.
//! - `in=MANNER` says how streams give their bytes, `out=MANNER` and `err=MANNER` how the output and the messages are
//!   taken, and `both=MANNER` the two alike. A manner is `drip:N`, at most N bytes at a call, `fail:N`, N bytes and
//!   then a failure, `once:N`, N bytes, then one failure, and then all, or `refuse:N`, no memory at the Nth call. Of a
//!   stream only the first two count.
//!
//! After the name of a file, `*N` has it N times, `-N` leaves out its last N bytes, `+BYTES` adds bytes at its end, and
//! `@PLACE@BYTES` puts other bytes at a place.
//!
//! After a row come the lines of its output, its messages after `! ` and its status after `= `. A row whose last word
//! ends in `FIRST..LAST` is run for each of these numbers. Then a line comes for each: how many bytes the output and
//! the messages have, `other` where they are no beginning of those of the row without the last word, and the last
//! message, `done` where the run did not fail.

mod made;

use crate::row::Row;
use made::{RunResult, run_of};

/// Puts what comes of a row, or of a row for each of its numbers.
pub fn put_row(rt: &HostRuntime, row: &mut Row<'_>) {
    match row.words.split_once("..") {
        None => put_run(row, &run_of(rt, row.words)),
        Some((front, last)) => {
            let tries = tries_of(front, last);
            put_tries(rt, row, tries, &run_of(rt, tries.plain));
        }
    }
}

/// A row that is run for each of several numbers.
#[derive(Clone, Copy)]
struct Tries<'a> {
    /// The row without its last word.
    plain: &'a str,
    /// The row up to the number.
    front: &'a str,
    first: u32,
    last: u32,
}

/// The row with the numbers from that at the end of a front to the last one.
fn tries_of<'a>(front: &'a str, last: &str) -> Tries<'a> {
    let (front, first) = front.rsplit_once(':').unwrap_or((front, ""));
    let (plain, _) = front.rsplit_once(' ').unwrap_or((front, ""));
    Tries {
        plain,
        front,
        first: first.parse::<u32>().unwrap_or(0),
        last: last.parse::<u32>().unwrap_or(0),
    }
}

/// Puts a line for each number.
fn put_tries(rt: &HostRuntime, row: &mut Row<'_>, tries: Tries<'_>, whole: &RunResult) {
    for number in tries.first..=tries.last {
        row.put_number(b"", number as i128);
        if let Ok(line) = format!(in rt.alloc(); "{}:{number}", tries.front) {
            put_try(row, &run_of(rt, &line), whole);
        }
    }
}

/// Puts how far a run came beside the whole one.
fn put_try(row: &mut Row<'_>, run: &RunResult, whole: &RunResult) {
    row.put(b": output ");
    put_beginning(row, run.output.bytes(), whole.output.bytes());
    row.put(b", messages ");
    put_beginning(row, run.messages.bytes(), whole.messages.bytes());
    row.put_line(b", ", last_message(run));
}

/// Puts how long a text is, and whether it is another than a beginning of the whole one.
fn put_beginning(row: &mut Row<'_>, text: &[u8], whole: &[u8]) {
    if !whole.starts_with(text) {
        row.put(b"other ");
    }
    row.put_number(b"", text.len() as i128);
}

/// The line that the program prints after a run, or else the last message of the run.
fn last_message(run: &RunResult) -> &[u8] {
    if run.status == 0 {
        return b"done";
    }
    let text = if run.line.is_empty() {
        run.messages.bytes()
    } else {
        run.line
    };
    let text = text.strip_suffix(b"\n").unwrap_or(text);
    match text.rsplit(|byte| *byte == b'\n').next() {
        Some(message) => message,
        None => text,
    }
}

/// Puts the output, the messages and the status of a run.
fn put_run(row: &mut Row<'_>, run: &RunResult) {
    row.put_lines(b"", run.output.bytes());
    row.put_lines(b"! ", run.messages.bytes());
    row.put_number(b"= ", run.status as i128);
    row.put(b"\n");
}
