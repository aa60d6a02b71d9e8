//! Runs over the traces that a row names.

use crate::files::{add_stream, file_of};
use crate::manner::{Manner, Manners, manners_of};
use crate::sink::RowSink;
use crate::source::RowSource;
use crate::words::{RowWord, command_of, word_of};
use ctf_options::{Options, options_of};
use ctf_run::{Trace, run};
use std::alloc::Global;

/// What came of a run.
#[derive(Drop)]
pub struct RunResult {
    pub output: RowSink,
    pub messages: RowSink,
    pub status: u8,
    /// The line that a program prints after the run; empty where there is none.
    pub line: &'static [u8],
}

/// What comes of the run of a row.
pub fn run_of(rt: &HostRuntime, line: &str) -> RunResult {
    let manners = manners_of(line);
    let mut made = nothing(rt.alloc(), manners);
    if let Ok(options) = options_of(rt.alloc(), &command_of(rt.alloc(), line)) {
        let traces = traces_of(rt, line, manners.input);
        run_over(rt.alloc(), traces, &options, &mut made);
    }
    made
}

/// A run that did not begin.
fn nothing(alloc: Global, manners: Manners) -> RunResult {
    RunResult {
        output: RowSink::new(alloc, manners.output),
        messages: RowSink::new(alloc, manners.messages),
        status: 2,
        line: b"no run",
    }
}

/// Runs over traces.
fn run_over(alloc: Global, traces: Vec<Trace<RowSource>>, options: &Options, made: &mut RunResult) {
    let RunResult {
        output,
        messages,
        status,
        line,
    } = made;
    let outcome = run(alloc, traces, options, output, messages);
    *status = outcome.status();
    *line = outcome.text();
}

/// The traces, whose streams give their bytes in this manner.
fn traces_of(rt: &HostRuntime, line: &str, manner: Manner) -> Vec<Trace<RowSource>> {
    let mut traces = Vec::new(rt.alloc());
    for word in line.split(' ') {
        add_part(rt, &mut traces, word, manner);
    }
    traces
}

/// Adds the trace or the stream that a word names.
fn add_part(rt: &HostRuntime, traces: &mut Vec<Trace<RowSource>>, word: &str, manner: Manner) {
    match word_of(word) {
        RowWord::Trace(name, metadata) if metadata != "-" => add_trace(rt, traces, name, metadata),
        RowWord::Stream(bytes) => {
            if let Some(trace) = traces.last_mut() {
                add_stream(rt, &mut trace.streams, bytes, manner);
            }
        }
        _ => {}
    }
}

/// Adds a trace of this name with the metadata in a file.
fn add_trace(rt: &HostRuntime, traces: &mut Vec<Trace<RowSource>>, name: &str, metadata: &str) {
    if let Ok(name) = String::from_str(rt.alloc(), name) {
        let _ = traces.push(Trace {
            name,
            metadata: file_of(rt, metadata),
            streams: Vec::new(rt.alloc()),
        });
    }
}
