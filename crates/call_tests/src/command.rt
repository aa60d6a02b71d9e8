//! The words of command lines, and the names of streams.
//!
//! - `options WORD; WORD; ..` is what words ask for: the first and the last time that is printed, the clock of stamps,
//!   whether lines have the time since the line before, the shift in seconds and in nanoseconds, and the folders; or
//!   why not.
//! - `folders N` is how many folders come of so many.
//! - `usage FAULT` is the line that is printed for a fault, `help`, `bad` or `memory`.
//! - `files NAME NAME ..` are the names of the streams, out of those of a folder.

use crate::row::Row;
use ctf_list::Text;
use ctf_options::{Options, Usage, options_of, stream_names};
use ctf_timestamp::ClockStyle;
use std::alloc::{AllocError, Global};

/// Puts what comes of a row of a command line.
pub fn put_row(row: &mut Row<'_>) {
    match row.word() {
        "options" => put_options(row),
        "folders" => put_folders(row),
        "usage" => put_usage(row),
        _ => put_names(row),
    }
}

/// A word, and then those of a text.
fn words_of(
    alloc: Global,
    first: &str,
    text: &str,
    separator: &str,
) -> Result<Vec<String>, AllocError> {
    let mut words = Vec::new(alloc);
    words.push(String::from_str(alloc, first)?)?;
    for word in text.split(separator) {
        words.push(String::from_str(alloc, word)?)?;
    }
    Ok(words)
}

/// Puts what words ask for.
fn put_options(row: &mut Row<'_>) {
    match options_from(row.alloc, row.words) {
        Ok(options) => put_asked(row, &options),
        Err(usage) => row.put(word_of(usage)),
    }
}

/// Puts how many folders come of so many.
fn put_folders(row: &mut Row<'_>) {
    let count = row.long() as usize;
    let Ok(words) = "; d".repeat(row.alloc, count) else {
        return;
    };
    match options_from(row.alloc, words.get(2..).unwrap_or("")) {
        Ok(options) => row.put_number(b"", options.dirs.len() as i128),
        Err(usage) => row.put(word_of(usage)),
    }
}

/// What the words after the program's name ask for.
fn options_from(alloc: Global, text: &str) -> Result<Options, Usage> {
    match words_of(alloc, "bt-ctf", text, "; ") {
        Ok(words) => options_of(alloc, &words),
        Err(_) => Err(Usage::NoMemory),
    }
}

fn put_asked(row: &mut Row<'_>, options: &Options) {
    put_time(row, options.trim.begin);
    row.put(b" to ");
    put_time(row, options.trim.end);
    row.put(match options.style.clock {
        ClockStyle::Time => b", time",
        ClockStyle::Date => b", date",
        ClockStyle::Seconds => b", seconds",
        ClockStyle::Cycles => b", cycles",
    });
    if options.style.delta {
        row.put(b", delta");
    }
    row.put_number(b", shift ", options.shift.seconds as i128);
    row.put_number(b" ", options.shift.nanos as i128);
    row.put(b", in");
    put_dirs(row, options.dirs.as_slice());
}

fn put_time(row: &mut Row<'_>, time: Option<i64>) {
    match time {
        Some(time) => row.put_number(b"", time as i128),
        None => row.put(b"none"),
    }
}

fn put_dirs(row: &mut Row<'_>, dirs: &[Text]) {
    for dir in dirs {
        row.put(b" ");
        row.put(dir.as_str().as_bytes());
    }
}

/// Why no options come of words.
fn word_of(usage: Usage) -> &'static [u8] {
    match usage {
        Usage::Help => b"help",
        Usage::Bad => b"bad",
        Usage::NoMemory => b"no memory",
    }
}

/// Puts the line of a fault.
fn put_usage(row: &mut Row<'_>) {
    let usage = match row.word() {
        "help" => Usage::Help,
        "bad" => Usage::Bad,
        _ => Usage::NoMemory,
    };
    row.put(usage.text());
}

/// Puts the names of streams.
fn put_names(row: &mut Row<'_>) {
    let first = row.word();
    if let Ok(listed) = words_of(row.alloc, first, row.words, " ") {
        match stream_names(row.alloc, listed) {
            Ok(names) => put_each(row, &names),
            Err(_) => row.put(b"no memory"),
        }
    }
}

fn put_each(row: &mut Row<'_>, names: &[String]) {
    for name in names {
        row.put(b" ");
        row.put(name.as_str().as_bytes());
    }
}
