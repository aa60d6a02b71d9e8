//! Tables of metadata texts and what is reported of them.
//!
//! A line `= FRONT ~ BACK` says what is around the texts of the rows below it. A row is `WANTED TEXT`, where `WANTED`
//! is one of the words that are reported of the text, or several of which any may be (`R3|R4`); where it is `class`,
//! what the text declares is put. A backquote in the text stands for the end of a line.
//!
//! `WANTED*COUNT TEXT` has the text so many times, and of a text `OPEN ~ INNER ~ CLOSE` or `OPEN ~ CLOSE` its
//! ends, `OPEN` and `CLOSE`; `%` in them stands for the number of the repetition, from 0 on.
//!
//! After a table comes how many rows it has.

use crate::metadata::outcome::put_outcome;
use crate::metadata::reading::put_declared;
use crate::row::Row;
use std::alloc::Global;
use std::str;

/// What is around the texts of rows.
#[derive(Clone, Copy)]
struct Surroundings<'a> {
    front: &'a str,
    back: &'a str,
}

/// Puts what comes of the rows of a table, and how many there are.
pub fn put_table(told: &mut Row<'_>, table: &str) {
    let mut around = Surroundings {
        front: "",
        back: "",
    };
    let mut count = 0u64;
    for line in table.lines() {
        if let Some(pattern) = line.strip_prefix("= ") {
            around = around_of(pattern);
        } else if !line.is_empty() && !line.starts_with('#') {
            put_line(told, around, line);
            count = count.saturating_add(1);
        }
    }
    told.put_number(b"", count as i128);
    told.put(b" rows\n");
}

/// Puts what a row declares, or that something else was reported of it than it wants.
fn put_line(told: &mut Row<'_>, around: Surroundings<'_>, line: &str) {
    let (wanted, text) = line.split_once(' ').unwrap_or((line, ""));
    let (wanted, count) = wanted.split_once('*').unwrap_or((wanted, "1"));
    let text = text_of(
        told.alloc,
        around,
        text,
        count.parse::<usize>().unwrap_or(0),
    );
    if wanted == "class" {
        told.put(b"\n> ");
        told.put(line.as_bytes());
        told.put(b"\n");
        put_declared(told, &text);
    } else {
        put_compared(told, wanted, &text, line);
    }
}

/// Puts that something else was reported of a text than is wanted.
fn put_compared(told: &mut Row<'_>, wanted: &str, text: &[u8], line: &str) {
    let mut outcome = Row::new(told.alloc, "");
    put_outcome(&mut outcome, text);
    if !is_told(str::from_utf8(outcome.text()).unwrap_or(""), wanted) {
        told.put(outcome.text());
        told.put(b" in place of ");
        told.put(line.as_bytes());
        told.put(b"\n");
    }
}

/// Whether one of the wanted words, which have bars between them, is among the reported ones.
fn is_told(told: &str, wanted: &str) -> bool {
    for word in told.split(' ') {
        for one in wanted.split('|') {
            if one == word {
                return true;
            }
        }
    }
    false
}

/// The text of a row, with what is around it.
fn text_of(alloc: Global, around: Surroundings<'_>, text: &str, count: usize) -> Vec<u8> {
    let (open, rest) = halves(text);
    let (inner, close) = ends(rest);
    let mut whole = Row::new(alloc, "");
    whole.put(around.front.as_bytes());
    put_times(&mut whole, open, count);
    whole.put(inner.as_bytes());
    put_times(&mut whole, close, count);
    whole.put(around.back.as_bytes());
    whole.into_text()
}

/// What is before and after the `~` of a pattern.
fn around_of(pattern: &str) -> Surroundings<'_> {
    let (front, back) = halves(pattern);
    Surroundings { front, back }
}

/// What is before and after the first `~`; without one, all is before it.
fn halves(text: &str) -> (&str, &str) {
    text.split_once('~').unwrap_or((text, ""))
}

/// What is before and after the first `~`; without one, all is after it.
fn ends(text: &str) -> (&str, &str) {
    text.split_once('~').unwrap_or(("", text))
}

/// Puts a part so many times, with the number of the repetition for `%`, and the end of a line for a backquote.
fn put_times(whole: &mut Row<'_>, part: &str, count: usize) {
    for number in 0..count {
        for byte in part.as_bytes() {
            match *byte {
                b'%' => whole.put_number(b"", number as i128),
                b'`' => whole.put(b"\n"),
                byte => whole.put(&[byte]),
            }
        }
    }
}
