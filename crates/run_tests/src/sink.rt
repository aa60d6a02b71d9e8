//! Where the output and the messages of a row go.

ghost use Rattle.std.specs.Prelude.{◌≤◌, [], false, true};

use crate::manner::Manner;
use ctf_bits::{Sink, SinkFault};
use ctf_run::Log;
use std::alloc::Global;
use std::io::{self, Error, ErrorKind, Write};

/// Takes bytes as a row says it.
#[derive(Drop)]
pub struct RowSink {
    bytes: Vec<u8>,
    /// How many bytes it takes at a call, at the most.
    piece: usize,
    /// How many bytes it takes before it fails.
    room: usize,
    /// Whether it takes all bytes after its first failure.
    recovers: bool,
    /// How many calls are left before it is refused memory.
    calls: usize,
    /// Whether what a writer holds back cannot be passed on.
    holds: bool,
    failures: u64,
    refusals: u64,
    ghost some: { 1 ≤ piece },
}

impl RowSink {
    pub fn new(alloc: Global, manner: Manner) -> Self {
        let mut sink = RowSink {
            bytes: Vec::new(alloc),
            piece: usize::MAX,
            room: usize::MAX,
            recovers: false,
            calls: usize::MAX,
            holds: false,
            failures: 0,
            refusals: 0,
        };
        match manner {
            Manner::Whole => {}
            Manner::Drip(count) => sink.piece = count.max(1),
            Manner::Fail(count) => sink.room = count,
            Manner::Once(count) => {
                sink.room = count;
                sink.recovers = true;
            }
            Manner::Refuse(call) => sink.calls = call.saturating_sub(1),
            Manner::Hold => sink.holds = true,
        }
        sink
    }

    /// The bytes that it took.
    pub fn bytes(&self) -> &[u8] {
        &self.bytes
    }
}

impl Sink for RowSink {
    ghost tells = { λ _. false };

    ghost accepted = { λ _. [] };

    ghost failures = { λ sink. sink.failures };

    ghost refusals = { λ sink. sink.refusals };

    fn put(&mut self, bytes: &[u8]) -> Result<usize, SinkFault> {
        if self.room == 0 {
            self.failures = self.failures.saturating_add(1);
            if self.recovers {
                self.room = usize::MAX;
            }
            return Err(SinkFault::Failed);
        }
        let count = bytes.len().min(self.piece).min(self.room);
        if self.calls == 0 || self.bytes.extend_from_slice(&bytes[..count]).is_err() {
            self.refusals = self.refusals.saturating_add(1);
            return Err(SinkFault::NoMemory);
        }
        self.room -= count;
        self.calls -= 1;
        Ok(count)
    }
}

impl Log for RowSink {
    ghost settled = { λ _. true };

    fn settle(&mut self) -> Result<(), SinkFault> {
        Ok(())
    }
}

impl Write for RowSink {
    fn write(&mut self, buf: &[u8]) -> io::Result<usize> {
        if buf.is_empty() {
            return Ok(0);
        }
        match self.put(buf) {
            Ok(count) => Ok(count),
            Err(_) => Err(Error::from(ErrorKind::BrokenPipe)),
        }
    }

    fn flush(&mut self) -> io::Result<()> {
        if self.holds {
            return Err(Error::from(ErrorKind::BrokenPipe));
        }
        Ok(())
    }
}
