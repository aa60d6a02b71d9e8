//! Readers and merges of streams, call by call.
//!
//! A row has words with one space between them: a file of metadata, and then
//!
//! - hexadecimal digits, the bytes of a stream, `-` for none, or `@FILE`, those of a file: `-N` leaves out its last N
//!   bytes, `+BYTES` adds bytes at its end, and `@PLACE@BYTES` puts others at a place,
//! - `on`, `next` and `leave`, at most three calls that are made, `go_on`, `next` and of a merge `leave`, which is
//!   `go_on` where no item comes first; the last one, or `on`, is made again up to the end or the fault, and then once
//!   more,
//! - `in=drip:N`, where a source gives at most N bytes at a call, or `in=fail:N`, where it gives N bytes and then
//!   fails,
//! - `shift=N`, nanoseconds that are added to each time,
//! - `writing`, where event records are read as texts, or `writing=N`, where those before N nanoseconds since the
//!   epoch are not needed,
//! - `values` and `part`, where those of an event record are shown: the values of its scopes, as `value/words.rt` has
//!   them, or the text that the lines of its packet share.
//!
//! **Readers.** Each stream has a reader. After a row come for each the name of the stream and then what each call
//! gives, with `gives` before what is given by value, each after `GIVEN/HELD`: how many bytes the source has given and
//! the reader holds. A moment is `CYCLES/TIME`, `-` where there is none. Where all bytes came at one call, a last line
//! names the lengths of pieces in which they were given again and came to the same.
//!
//! **Merges.** After a row comes what is current: a stream's number and the line of its item, a fault and the number of
//! its stream, or the end. Then come, for each call, what it gives by value, and what is current after it. Lines are
//! those that follow the line of an event record at the epoch.

mod items;
mod merging;
mod reading;
mod words;

use crate::files::streams_of;
use crate::row::Row;
use ctf_class::TraceClass;
use words::asked_of;

/// Puts what the readers or the merge of the streams of a trace do.
pub fn put_row(rt: &HostRuntime, row: &mut Row<'_>, table: &str, trace: &TraceClass) {
    let asked = asked_of(row.words);
    let streams = streams_of(rt, row.words);
    match table {
        "readers" => reading::put_readers(row, trace, &asked, &streams),
        _ => merging::put_merge(row, trace, &asked, &streams),
    }
}
