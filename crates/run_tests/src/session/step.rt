//! The steps of a session, and what its streams have given.

use crate::manner::Manners;
use crate::row::Row;
use crate::sink::RowSink;
use crate::source::RowSource;
use ctf_session::{Outcome, Session, Step};

/// Puts what a session does to its end and at one step more.
pub fn put_steps(
    row: &mut Row<'_>,
    session: &mut Session<'_, RowSource>,
    manners: Manners,
    count: usize,
) {
    row.put(b"new");
    put_counts(row, session, count);
    for _ in 0..u64::MAX {
        let ends = put_step(row, session, manners);
        put_counts(row, session, count);
        if ends {
            break;
        }
    }
    put_step(row, session, manners);
    put_counts(row, session, count);
}

/// Puts what one step does, and answers whether the session ended.
pub fn put_step(row: &mut Row<'_>, session: &mut Session<'_, RowSource>, manners: Manners) -> bool {
    let mut output = RowSink::new(row.alloc, manners.output);
    let mut messages = RowSink::new(row.alloc, manners.messages);
    let step = session.step(&mut output, &mut messages);
    row.put_lines(b"", output.bytes());
    row.put_lines(b"! ", messages.bytes());
    put_answer(row, &step)
}

/// Puts the answer of a step, and answers whether the session ended.
fn put_answer(row: &mut Row<'_>, step: &Step) -> bool {
    row.put(match step {
        Step::Went => b"went",
        Step::Ended(Outcome::Done) => b"done",
        Step::Ended(Outcome::Fault(_)) => b"fault",
        Step::Ended(Outcome::WriteFailed) => b"write failed",
        Step::Ended(Outcome::NoMemory) => b"no memory",
    });
    match step {
        Step::Went => false,
        Step::Ended(_) => true,
    }
}

/// Puts how many bytes each stream has given and holds.
fn put_counts(row: &mut Row<'_>, session: &Session<'_, RowSource>, count: usize) {
    for number in 0..count {
        if let Some(reader) = session.reader(number) {
            row.put_number(b" ", reader.source().given() as i128);
            row.put_number(b"/", reader.held() as i128);
        }
    }
    row.put(b"\n");
}
