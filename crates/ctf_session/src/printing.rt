//! The texts of a step, on their way to two sinks.

ghost use Rattle.std.specs.Prelude.{◌≡◌, ◌⊎◌, ℕ, [], List, IsTrue, None, option_map};
ghost use Rattle.ctf_class.specs.declared.trace.TraceClass.{TraceClass};
ghost use Rattle.ctf_record_text.specs.Texts.{event_text};
ghost use Rattle.ctf_log.specs.Lines.{event_line, line_of};
ghost use Rattle.ctf_packet.specs.Classes.{Classes};
ghost use Rattle.ctf_packet.specs.Items.{Event};
ghost use Rattle.ctf_stream.specs.Shown.{item_of, IsOf};
ghost use Rattle.ctf_session.specs.Answers as answers;
ghost use Rattle.ctf_session.specs.Printing.{Prints, CountsAfterPrint};
ghost use Rattle.ctf_session.specs.Printing as printing;
ghost use Rattle.ctf_session.specs.Steps.{counts_by};
ghost use Rattle.ctf_session.specs.Writing.{written_by};

use crate::log::Log;
use crate::step::Stop;
use crate::writing::put_all;
use ctf_bits::{Sink, SinkFault};
use ctf_clock::Moment;
use ctf_log::Printer;
use ctf_stream::{EventText, Item};

/// The time of the last printed event record after this item, in nanoseconds since the epoch.
pub(crate) fn last_after(last: Option<i64>, item: &Item<'_>) -> Option<i64>
    ensures { (end length : ℕ) → result ≡ answers.last_after last (item_of item.now end length) }
{
    match item {
        Item::Event(event) => last_moment(last, event.moment),
        Item::Discarded(_gap) => last,
        Item::Lost(_gap) => last,
    }
}

/// The last printed time, after an event record at this moment was printed.
pub(crate) fn last_moment(last: Option<i64>, moment: Option<Moment>) -> Option<i64>
    ensures { result ≡ answers.or_last last (option_map (λ m. m.time) moment) }
{
    match moment {
        None => last,
        Some(moment) => Some(moment.time),
    }
}

/// Writes the line of an event record to a sink, out of its text. It answers what stopped it.
pub(crate) fn print_text<W: Log>(
    printer: &mut Printer,
    event: &EventText<'_>,
    last: Option<i64>,
    out: &mut W,
) -> Option<Stop>
    ensures prints { let wrote = written_by W.accepted W.settled (λ text. text) in
        IsTrue (W.tells out.old) → (e : Event Classes) → event.now.moment ≡ e.clock
        → event.now.text.now ≡ event_text e → (messages : List ℕ)
        → Prints (record { output = event_line printer.old.style last e; messages = [] }) result
        (wrote out.old messages out.new messages) }
    ensures counts { (failures refusals : ℕ) →
        let counts = counts_by W.failures W.refusals (λ _. failures) (λ _. refusals) in
        CountsAfterPrint result (counts out.old out.old) (counts out.new out.new) }
    ensures style { printer.new.style ≡ printer.old.style }
    ensures tells { IsTrue (W.tells out.old) → IsTrue (W.tells out.new) }
{
    // Mostly the line is made where the log holds it back, so that it is not copied there.
    if out.put_line(printer, event, last) {
        return None;
    }
    match printer.print_text(event, last) {
        Ok(()) => stop_of(put_all(out, printer.text())),
        Err(_refused) => Some(Stop::NoMemory),
    }
}

/// Writes the line of an event record to the one sink, or a message to the other. It answers what stopped it.
pub(crate) fn print<W: Log, E: Sink>(
    printer: &mut Printer,
    item: &Item<'_>,
    last: Option<i64>,
    out: &mut W,
    err: &mut E,
) -> Option<Stop>
    ensures prints { let wrote = written_by W.accepted W.settled E.accepted in
        IsTrue (W.tells out.old) → IsTrue (E.tells err.old)
        → (trace : TraceClass) (name : List ℕ) (end length : ℕ) → IsOf trace name item.now
        → (let x = item_of item.now end length in
        Prints (answers.by_kind x (line_of printer.old.style last name x)) result
        (wrote out.old err.old out.new err.new)) }
    ensures counts { let counts = counts_by W.failures W.refusals E.failures E.refusals in
        CountsAfterPrint result (counts out.old err.old) (counts out.new err.new) }
    ensures settled { (err.new ≡ err.old) ⊎ IsTrue (W.settled out.new) }
    ensures style { printer.new.style ≡ printer.old.style }
    ensures out_tells { IsTrue (W.tells out.old) → IsTrue (W.tells out.new) }
    ensures err_tells { IsTrue (E.tells err.old) → IsTrue (E.tells err.new) }
{
    match printer.print(item, last) {
        Ok(()) => match item {
            Item::Event(_event) => stop_of(put_all(out, printer.text())),
            Item::Discarded(_gap) => say(printer.text(), out, err),
            Item::Lost(_gap) => say(printer.text(), out, err),
        },
        Err(_refused) => Some(Stop::NoMemory),
    }
}

/// Writes a message after the whole log. It answers what stopped it.
pub fn say<W: Log, E: Sink>(text: &[u8], out: &mut W, err: &mut E) -> Option<Stop>
    ensures prints { let wrote = written_by W.accepted W.settled E.accepted in
        IsTrue (W.tells out.old) → IsTrue (E.tells err.old)
        → Prints (record { output = []; messages = text.now }) result
        (wrote out.old err.old out.new err.new) }
    ensures counts { let counts = counts_by W.failures W.refusals E.failures E.refusals in
        CountsAfterPrint result (counts out.old err.old) (counts out.new err.new) }
    ensures settled { (err.new ≡ err.old) ⊎ IsTrue (W.settled out.new) }
    ensures after { result ≡ None → IsTrue (W.settled out.new) }
    ensures out_tells { IsTrue (W.tells out.old) → IsTrue (W.tells out.new) }
    ensures err_tells { IsTrue (E.tells err.old) → IsTrue (E.tells err.new) }
{
    match out.settle() {
        Ok(()) => stop_of(put_all(err, text)),
        Err(fault) => stop_of(Err(fault)),
    }
}

/// What a put stops.
fn stop_of(put: Result<(), SinkFault>) -> Option<Stop>
    ensures { result ≡ printing.stop_of put }
{
    match put {
        Ok(()) => None,
        Err(SinkFault::Failed) => Some(Stop::WriteFailed),
        Err(SinkFault::NoMemory) => Some(Stop::NoMemory),
    }
}
