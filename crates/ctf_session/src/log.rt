//! Where the lines of a log go.

ghost use Rattle.std.specs.Prelude.{◌≡◌, ◌++◌, Bool, false, true, IsTrue, OnOk};
ghost use Rattle.ctf_log.specs.Texts.{text_line};
ghost use Rattle.ctf_session.specs.Putting.{failures_put, refusals_put};

use ctf_bits::{DripSink, FailingSink, Sink, SinkFault, ToWrite, VecSink};
use ctf_log::Printer;
use ctf_stream::EventText;
use std::io::Write;

/// A sink for the lines of a log. What it accepted it may hold back for a while.
pub trait Log: Sink {
    /// Whether nothing is held back.
    ghost settled: { Self → Bool };

    /// Passes on what is held back. At a fault it failed or ran out of memory once more.
    fn settle(&mut self) -> Result<(), SinkFault>
        ensures settles { OnOk result (IsTrue (settled self.new)) }
        ensures stays { IsTrue (Self.tells self.old) → IsTrue (Self.tells self.new) }
        ensures keeps { IsTrue (Self.tells self.old) →
            Self.accepted self.new ≡ Self.accepted self.old }
        ensures failed { Self.failures self.new ≡ failures_put result (Self.failures self.old) }
        ensures refused { Self.refusals self.new ≡ refusals_put result (Self.refusals self.old) };

    /// Accepts the line of an event record that a printer makes out of its text, where the line can be made in memory
    /// of the log's own. Whether it could. It can't where the log has no room for it, as by default; then nothing is
    /// accepted. `last` is the time of the event record with a time that was printed before, in nanoseconds since the
    /// epoch.
    fn put_line(&mut self, printer: &mut Printer, event: &EventText<'_>, last: Option<i64>) -> bool
        ensures stays { IsTrue (Self.tells self.old) → IsTrue (Self.tells self.new) }
        ensures appends { IsTrue (Self.tells self.old) → IsTrue result →
            Self.accepted self.new ≡
            Self.accepted self.old ++ text_line printer.old.style last event.now }
        ensures none { result ≡ false → self.new ≡ self.old }
        ensures style { printer.new.style ≡ printer.old.style }
        ensures failed { Self.failures self.new ≡ Self.failures self.old }
        ensures refused { Self.refusals self.new ≡ Self.refusals self.old }
    {
        false
    }
}

impl Log for VecSink {
    ghost settled = { λ _. true };

    fn settle(&mut self) -> Result<(), SinkFault> {
        Ok(())
    }
}

impl Log for FailingSink {
    ghost settled = { λ _. true };

    fn settle(&mut self) -> Result<(), SinkFault> {
        Ok(())
    }
}

impl Log for DripSink {
    ghost settled = { λ _. true };

    fn settle(&mut self) -> Result<(), SinkFault> {
        Ok(())
    }
}

impl<W: Write> Log for ToWrite<W> {
    ghost settled = { λ _. true };

    fn settle(&mut self) -> Result<(), SinkFault> {
        self.flush()
    }
}
