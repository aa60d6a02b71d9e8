//! The next item of several streams, on its way to two sinks.

ghost use Rattle.std.specs.Prelude.{◌≡◌, ◌⊎◌, [], IfOk, IsTrue, get_or};
ghost use Rattle.ctf_log.specs.Lines.{line_of};
ghost use Rattle.ctf_merge.specs.Merged.{item};
ghost use Rattle.ctf_merge.specs.Merges.{IsNext, first_now, names_of};
ghost use Rattle.ctf_packet.specs.Classes.{Classes};
ghost use Rattle.ctf_packet.specs.Items.{Item};
ghost use Rattle.ctf_packet.specs.ItemTimes.{time_of};
ghost use Rattle.ctf_session.specs.Answers as answers;
ghost use Rattle.ctf_session.specs.Opening.{IsWanted};
ghost use Rattle.ctf_session.specs.Printing.{Prints, CountsAfterPrint, stop_in};
ghost use Rattle.ctf_session.specs.Steps.{counts_by};
ghost use Rattle.ctf_session.specs.Writing.{written_by};

use crate::log::Log;
use crate::printing::{last_after, last_moment, print, print_text};
use crate::step::Stop;
use ctf_bits::{Sink, Source};
use ctf_log::Printer;
use ctf_merge::Merge;
use ctf_stream::{CurrentItem, Peeked};

/// The next item of several streams, by the number of its stream.
#[derive(Clone, Copy)]
pub(crate) struct NextItem<'m, 'a, S: Source + Drop> {
    pub(crate) merge: &'m Merge<'a, S>,
    pub(crate) number: usize,
}

/// The time of the next item, in nanoseconds since the epoch.
pub(crate) fn front_time<'a, S: Source + Drop>(at: &NextItem<'_, 'a, S>) -> Option<i64>
    requires { IsNext at.now.merge.now at.now.number }
    ensures { (next : Item Classes) → first_now at.now.merge.now ≡ item at.now.number next
        → result ≡ time_of next }
{
    let Some(reader) = at.merge.reader(at.number) else {
        unreachable!()
    };
    match reader.ahead() {
        Peeked::Item(time) => time,
        Peeked::Start => unreachable!(),
        Peeked::Ended => unreachable!(),
        Peeked::Fault(_) => unreachable!(),
    }
}

/// Writes the line or the message of the next item. It gives the time of the last printed event record then, in
/// nanoseconds since the epoch, or what stopped it.
pub(crate) fn print_front<'a, S: Source + Drop, W: Log, E: Sink>(
    at: &NextItem<'_, 'a, S>,
    printer: &mut Printer,
    last: Option<i64>,
    out: &mut W,
    err: &mut E,
) -> Result<Option<i64>, Stop>
    requires next { IsNext at.now.merge.now at.now.number }
    requires wanted { IsWanted at.now.merge.now at.now.number }
    ensures prints { let wrote = written_by W.accepted W.settled E.accepted in
        let name = get_or (names_of at.now.merge.now.readers) at.now.number [] in
        IsTrue (W.tells out.old) → IsTrue (E.tells err.old)
        → (next : Item Classes) → first_now at.now.merge.now ≡ item at.now.number next
        → Prints (answers.by_kind next (line_of printer.old.style last name next)) (stop_in result)
        (wrote out.old err.old out.new err.new) }
    ensures last { (next : Item Classes) → first_now at.now.merge.now ≡ item at.now.number next
        → IfOk result (λ l. l ≡ answers.last_after last next) }
    ensures counts { let counts = counts_by W.failures W.refusals E.failures E.refusals in
        CountsAfterPrint (stop_in result) (counts out.old err.old) (counts out.new err.new) }
    ensures settled { (err.new ≡ err.old) ⊎ IsTrue (W.settled out.new) }
    ensures style { printer.new.style ≡ printer.old.style }
    ensures out_tells { IsTrue (W.tells out.old) → IsTrue (W.tells out.new) }
    ensures err_tells { IsTrue (E.tells err.old) → IsTrue (E.tells err.new) }
{
    let Some(reader) = at.merge.reader(at.number) else {
        unreachable!()
    };
    let Some(told) = reader.told() else {
        unreachable!()
    };
    match told {
        CurrentItem::Item(item) => match print(printer, &item, last, out, err) {
            None => Ok(last_after(last, &item)),
            Some(stop) => Err(stop),
        },
        CurrentItem::Text(event) => match print_text(printer, &event, last, out) {
            None => Ok(last_moment(last, event.moment)),
            Some(stop) => Err(stop),
        },
        // Only what is before the beginning is told so.
        CurrentItem::Passed(_) => unreachable!(),
    }
}
