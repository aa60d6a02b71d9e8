//! A log that is held back in a buffer before it goes to a writer.

ghost use Rattle.std.specs.Prelude.{◌≡◌, ◌<◌, ◌≤◌, IfOk, IfErr, OnOk, [], is_some, unwrap_or, IsTrue, length};
ghost use Rattle.std.specs.Io.KnownBytes.{Keeps, WriteAppends};
ghost use Rattle.ctf_bits.specs.Count.{one_more};
ghost use Rattle.ctf_bits.specs.Putting.{failures_after};
ghost use Rattle.ctf_session.specs.Putting.{failures_put};
ghost use Rattle.ctf_cli.specs.LogWriters.{writer_of, failures_of, log_contents, room_of};

use crate::held::Held;
use ctf_bits::{Sink, SinkFault, flush_uninterrupted, write_uninterrupted};
use ctf_list::NoMemory;
use ctf_log::Printer;
use ctf_run::Log;
use ctf_stream::EventText;
use std::alloc::Global;
use std::io::Write;

/// A buffer for a writer, which is asked again where a signal interrupts it. It tells its bytes where the writer does.
/// An error of the writer is a failure.
#[derive(Drop)]
pub struct LogWriter<O: Write + Drop> {
    writer: O,
    /// What is held back from the writer. Mostly a line is made there.
    held: Held,
    failures: u64,
}

impl<O: Write + Drop> LogWriter<O> {
    /// Holds back so many bytes at the most; with none each piece is passed on at once.
    pub fn new(alloc: Global, held: usize, writer: O) -> Result<LogWriter<O>, NoMemory>
        ensures tells { IfOk result (λ log. ⟦<LogWriter<O> as Sink>⟧.tells log ≡
            is_some (O.contents writer)) }
        ensures accepted { IfOk result (λ log. ⟦<LogWriter<O> as Sink>⟧.accepted log ≡
            unwrap_or (O.contents writer) []) }
        ensures failures { IfOk result (λ log. ⟦<LogWriter<O> as Sink>⟧.failures log ≡ 0) }
        ensures settled { IfOk result (λ log. IsTrue (⟦<LogWriter<O> as Log>⟧.settled log)) }
        ensures held { IfOk result (λ log. room_of log ≡ held) }
    {
        Ok(LogWriter {
            writer,
            held: Held::new(alloc, held)?,
            failures: 0,
        })
    }

    /// Drops what is still held back: nothing is written after a failure.
    pub fn close(self) -> O
        ensures as_it_was { result ≡ writer_of self }
        ensures settled { IsTrue (⟦<LogWriter<O> as Log>⟧.settled self) →
            unwrap_or (O.contents result) [] ≡ ⟦<LogWriter<O> as Sink>⟧.accepted self }
    {
        let LogWriter {
            writer,
            held: _,
            failures: _,
        } = self;
        writer
    }

    /// Passes on what is held back. What was not taken is held on after a fault.
    #[inline(never)]
    fn pass_on(&mut self) -> Result<(), SinkFault>
        ensures keeps { Keeps (log_contents O.contents self.old)
            (log_contents O.contents self.new) }
        ensures empty { OnOk result (self.new.held.bytes ≡ []) }
        ensures failed { failures_of self.new ≡ failures_put result (failures_of self.old) }
        ensures fault { IfErr result (λ fault. fault ≡ SinkFault.Failed) }
    {
        while !self.held.as_slice().is_empty() {
            match write_uninterrupted(&mut self.writer, self.held.as_slice()) {
                Ok(count) if count > 0 => self.held.pass(count),
                Ok(_) | Err(_) => return Err(self.fail()),
            }
        }
        Ok(())
    }

    /// Passes a piece on at once, where nothing is held back.
    fn put_through(&mut self, bytes: &[u8]) -> Result<usize, SinkFault>
        requires { self.old.held.bytes ≡ [] }
        ensures some { IfOk result (λ count. 0 < count) }
        ensures bound { IfOk result (λ count. count ≤ length bytes.now) }
        ensures appends { WriteAppends (log_contents O.contents self.old)
            (log_contents O.contents self.new) result bytes.now }
        ensures failed { failures_of self.new ≡ failures_after result (failures_of self.old) }
        ensures fault { IfErr result (λ fault. fault ≡ SinkFault.Failed) }
    {
        match write_uninterrupted(&mut self.writer, bytes) {
            Ok(count) if count > 0 => Ok(count),
            Ok(_) | Err(_) => Err(self.fail()),
        }
    }

    /// Takes the first bytes of a piece for which there is no room, or just enough. A buffer is filled before it is
    /// passed on, so that a file is written by whole pages.
    #[cold]
    #[inline(never)]
    fn put_apart(&mut self, bytes: &[u8]) -> Result<usize, SinkFault>
        requires { 0 < length bytes.now }
        ensures some { IfOk result (λ count. 0 < count) }
        ensures bound { IfOk result (λ count. count ≤ length bytes.now) }
        ensures appends { WriteAppends (log_contents O.contents self.old)
            (log_contents O.contents self.new) result bytes.now }
        ensures failed { failures_of self.new ≡ failures_after result (failures_of self.old) }
        ensures fault { IfErr result (λ fault. fault ≡ SinkFault.Failed) }
    {
        if self.held.room() == 0 {
            self.pass_on()?;
            if self.held.room() == 0 {
                return self.put_through(bytes);
            }
        }
        let count = bytes.len().min(self.held.room());
        self.held.put(&bytes[..count]);
        Ok(count)
    }

    /// Counts a failure.
    fn fail(&mut self) -> SinkFault
        ensures fault { result ≡ SinkFault.Failed }
        ensures writer { writer_of self.new ≡ writer_of self.old }
        ensures held { self.new.held ≡ self.old.held }
        ensures failures { failures_of self.new ≡ one_more (failures_of self.old) }
    {
        self.failures = self.failures.saturating_add(1);
        SinkFault::Failed
    }
}

impl<O: Write + Drop> Sink for LogWriter<O> {
    ghost tells = { λ log. is_some (log_contents O.contents log) };

    ghost accepted = { λ log. unwrap_or (log_contents O.contents log) [] };

    ghost failures = { λ log. failures_of log };

    ghost refusals = { λ _. 0 };

    fn put(&mut self, bytes: &[u8]) -> Result<usize, SinkFault> {
        if bytes.len() < self.held.room() {
            self.held.put(bytes);
            return Ok(bytes.len());
        }
        self.put_apart(bytes)
    }
}

impl<O: Write + Drop> Log for LogWriter<O> {
    ghost use Rattle.ctf_cli.specs.LogWriters.{is_settled};

    ghost settled = { λ log. is_settled log };

    fn settle(&mut self) -> Result<(), SinkFault> {
        self.pass_on()?;
        match flush_uninterrupted(&mut self.writer) {
            Ok(()) => Ok(()),
            Err(_) => Err(self.fail()),
        }
    }

    #[inline(always)]
    fn put_line(
        &mut self,
        printer: &mut Printer,
        event: &EventText<'_>,
        last: Option<i64>,
    ) -> bool {
        self.held.put_line(printer, event, last)
    }
}
