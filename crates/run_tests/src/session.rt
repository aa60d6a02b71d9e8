//! Sessions over small traces, step by step: what each step writes, and how many bytes each stream has given and holds.
//!
//! A row has words with one space between them: a file of metadata, and then
//!
//! - `--OPTION`, a word of the command line,
//! - hexadecimal digits, the bytes of the next stream, or `@FILE`, those of a file; streams are called `s0`, `s1` and
//!   so on,
//! - `in=drip:N`, where streams give at most N bytes at a call, or `in=fail:N`, where they give N bytes and then fail,
//! - `out=fail:N` and `err=fail:N`, where what takes the output or the messages of a step takes N bytes and then fails,
//! - `crossing` in the place of streams, for the thousands of streams of `crossing.rt`.
//!
//! After a row come `new`, and for each step the lines that it wrote, its messages after `! ` and its answer; with each
//! of them come the bytes that each stream has given and holds, `GIVEN/HELD`. After its end a session is asked for one
//! step more.

mod crossing;
mod step;

use crate::files::{add_stream, file_of};
use crate::manner::{Manner, Manners, manners_of};
use crate::row::Row;
use crate::source::RowSource;
use crate::words::{RowWord, add_word, command_of, word_of};
use crossing::{add_crossing, put_crossing};
use ctf_class::TraceClass;
use ctf_list::NoMemory;
use ctf_options::{Options, options_of};
use ctf_run::load;
use ctf_session::{Session, Streams};
use std::alloc::Global;
use step::put_steps;

/// Puts what the session of a row does.
pub fn put_row(rt: &HostRuntime, row: &mut Row<'_>) {
    let metadata = file_of(rt, row.word());
    if let Ok(class) = load(row.alloc, &metadata) {
        put_session(rt, row, &class);
    }
}

/// Puts what a session over the streams of a trace does.
fn put_session(rt: &HostRuntime, row: &mut Row<'_>, class: &TraceClass) {
    let mut command = command_of(row.alloc, row.words);
    add_word(row.alloc, &mut command, "d");
    if let Ok(options) = options_of(row.alloc, &command) {
        let manners = manners_of(row.words);
        let streams = streams_of(rt, row.words, manners.input);
        let count = streams.len();
        if let Ok(sessions) = sessions_of(row.alloc, class, streams, &options) {
            let mut sessions = sessions;
            if let Some(session) = sessions.last_mut() {
                match count > 1000 {
                    true => put_crossing(row, session, manners),
                    false => put_steps(row, session, manners, count),
                }
            }
        }
    }
}

/// The streams that words name.
fn streams_of(rt: &HostRuntime, words: &str, manner: Manner) -> Vec<(String, RowSource)> {
    let mut streams = Vec::new(rt.alloc());
    for word in words.split(' ') {
        match word_of(word) {
            RowWord::Stream("") => {}
            RowWord::Stream("crossing") => add_crossing(rt.alloc(), &mut streams),
            RowWord::Stream(word) => add_stream(rt, &mut streams, word, manner),
            _ => {}
        }
    }
    streams
}

/// The session over some streams, in a list, whose drop is a call.
fn sessions_of<'a>(
    alloc: Global,
    class: &'a TraceClass,
    streams: Vec<(String, RowSource)>,
    options: &Options,
) -> Result<Vec<Session<'a, RowSource>>, NoMemory> {
    let mut traces = Vec::new(alloc);
    traces.push(Streams { class, streams })?;
    let mut sessions = Vec::new(alloc);
    sessions.push(Session::new(alloc, traces, options)?)?;
    Ok(sessions)
}
