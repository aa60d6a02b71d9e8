//! Sources, asked until they have reported their end twice.
//!
//! `source KIND PIECE TEXT` is what a source of a text gives into a buffer of so many bytes, piece by piece, and how
//! many bytes it says that it has given. `slice` is the text, `pieces:N` at most so many bytes at a call, `failing:N`
//! so many bytes and then a failure, `read` a reader of the text, `silent` a reader that gives nothing, `broken` one
//! that fails, and `interrupted` one whose first call a signal interrupts.

ghost use Rattle.std.specs.Prelude.{◌<◌, ◌≤◌, length};

use crate::device::Device;
use crate::row::Row;
use ctf_bits::{FailingSource, FromRead, PieceSource, SliceSource, Source, SourceFault};
use std::io::Cursor;

/// How often a source is asked at the most before its end.
const MOST_CALLS: u32 = 16;

/// Puts what comes of a row of sources.
pub fn put_row(row: &mut Row<'_>) {
    row.word();
    let (kind, count) = kind_and_count(row.word());
    let piece = row.long() as usize;
    if piece == 0 || piece > 8 {
        return;
    }
    let text = row.words.as_bytes();
    match kind {
        "silent" | "broken" | "interrupted" => {
            put_drained(row, &mut FromRead::new(Device::named(kind)), piece);
        }
        "read" => put_drained(row, &mut FromRead::new(Cursor::new(text)), piece),
        _ => {
            let given = put_text(row, kind, count, text, piece);
            row.put_number(b" ", given as i128);
            row.put(b" given");
        }
    }
}

/// A kind, and its count where it has one.
pub fn kind_and_count(word: &str) -> (&str, usize) {
    let (kind, count) = word.split_once(':').unwrap_or((word, ""));
    (kind, count.parse::<usize>().unwrap_or(0))
}

/// Puts what a source of a text gives. How much it says that it gave.
fn put_text(row: &mut Row<'_>, kind: &str, count: usize, text: &[u8], piece: usize) -> u64
    requires some { 0 < piece }
    requires small { piece ≤ 8 }
{
    match kind {
        "pieces" => {
            let mut source = PieceSource::new(text, count);
            put_drained(row, &mut source, piece);
            source.given()
        }
        "failing" => {
            let mut source = FailingSource::new(text, count);
            put_drained(row, &mut source, piece);
            source.given()
        }
        _ => {
            let mut source = SliceSource::new(text);
            put_drained(row, &mut source, piece);
            source.given()
        }
    }
}

/// Puts the pieces that a source gives up to its end, and what a further call gives.
fn put_drained<S: Source>(row: &mut Row<'_>, source: &mut S, piece: usize)
    requires some { 0 < piece }
    requires small { piece ≤ 8 }
{
    let mut buffer = [0; 8];
    for _ in 0..MOST_CALLS {
        if put_taken(row, source, &mut buffer[..piece]) {
            break;
        }
    }
    put_taken(row, source, &mut buffer[..piece]);
}

/// Puts the next piece, or the end, and answers whether it is the end.
fn put_taken<S: Source>(row: &mut Row<'_>, source: &mut S, buffer: &mut [u8]) -> bool
    requires { 0 < length buffer.old }
{
    row.put(b" ");
    match source.take(buffer) {
        Ok(0) => row.put(b"end"),
        Err(SourceFault::ReadFailed) => row.put(b"failed"),
        Ok(count) => {
            row.put(&buffer[..count]);
            return false;
        }
    }
    true
}
