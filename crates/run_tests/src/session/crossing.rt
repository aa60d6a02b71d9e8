//! Thousands of streams whose event records cross.
//!
//! Each of 4,096 streams has two event records: the first one of stream 4095 is at 0, that of stream 4094 at 1 and so
//! on, and the second one of each is at 8191. So the first ones come from the last stream to the first, and the second
//! ones from the first stream to the last.

use crate::files::add_bytes;
use crate::manner::{Manner, Manners};
use crate::row::Row;
use crate::session::step::put_step;
use crate::source::RowSource;
use ctf_session::Session;
use std::alloc::Global;

/// How many streams there are.
const COUNT: u32 = 4096;

/// How many event records there are.
const STEPS: u32 = 8192;

/// The time of the second event record of each stream.
const LAST: u32 = 8191;

/// How many bytes the content of a stream has.
const CONTENT: usize = 8;

/// Adds the streams: stamps of 27 bits after the class number 0.
pub fn add_crossing(alloc: Global, streams: &mut Vec<(String, RowSource)>) {
    for time in (0..COUNT).rev() {
        let mut bytes = Row::new(alloc, "");
        bytes.put(&u32::to_le_bytes(time << 5));
        bytes.put(&u32::to_le_bytes(LAST << 5));
        add_bytes(alloc, streams, bytes.into_text(), Manner::Whole);
    }
}

/// Which stream's event record a step takes, its time, and what the stream holds then.
#[derive(Clone, Copy)]
struct CrossingTurn {
    number: u32,
    time: u32,
    held: usize,
}

/// The turn at a step.
fn turn_at(step: u32) -> CrossingTurn {
    match step.checked_sub(COUNT) {
        None => CrossingTurn {
            number: (COUNT - 1).saturating_sub(step),
            time: step,
            held: CONTENT,
        },
        Some(number) => CrossingTurn {
            number,
            time: LAST,
            held: 0,
        },
    }
}

/// Puts the steps that take event records of the last stream, which has the first and the last one of all, how many
/// steps take the one whose turn it is, and the answers of two steps more.
pub fn put_crossing(row: &mut Row<'_>, session: &mut Session<'_, RowSource>, manners: Manners) {
    let mut count = 0u32;
    for number in 0..STEPS {
        if put_turn(row, session, manners, turn_at(number)) {
            count = count.saturating_add(1);
        }
    }
    row.put_number(b"", count as i128);
    row.put(b" steps in order\n");
    for _ in 0..2 {
        put_step(row, session, manners);
        row.put(b"\n");
    }
}

/// Puts the step of a turn of the last stream, and answers whether a step took the one whose turn it is.
fn put_turn(
    row: &mut Row<'_>,
    session: &mut Session<'_, RowSource>,
    manners: Manners,
    turn: CrossingTurn,
) -> bool {
    let mut step = Row::new(row.alloc, "");
    put_step(&mut step, session, manners);
    if turn.number == COUNT - 1 {
        row.put_line(b"", step.text());
    }
    is_turn(row.alloc, session, step.text(), turn)
}

/// Whether a step wrote one line, that of its turn, and left its stream as it should.
fn is_turn(
    alloc: Global,
    session: &Session<'_, RowSource>,
    text: &[u8],
    turn: CrossingTurn,
) -> bool {
    let lines = text.iter().filter(|byte| **byte == b'\n').count();
    match session.reader(turn.number as usize) {
        Some(reader) => {
            lines == 1
                && reader.held() == turn.held
                && text.ends_with(b"\nwent")
                && has_stamp(alloc, text, turn.time)
        }
        None => false,
    }
}

/// Whether a text begins with the stamp of a time.
fn has_stamp(alloc: Global, text: &[u8], time: u32) -> bool {
    match format!(in alloc; "[0.{time:09}] ") {
        Ok(stamp) => text.starts_with(stamp.as_bytes()),
        Err(_) => false,
    }
}
