//! A run, a step at a time, over two sinks.

ghost use Rattle.std.specs.Prelude.{◌≡◌, ◌⊎◌, [], IsTrue, IfOk, Some, None, map, length, MatchOption, slice_get, get_or};
ghost use Rattle.ctf_merge.specs.Merged.{merged, ends};
ghost use Rattle.ctf_merge.specs.Merges.{MergedOrRefused, EachFetched, EachTells, EachOnLine, EachAllTaken, given_of};
ghost use Rattle.ctf_session.specs.Inputs.{given_by, inputs_from, run_in, setting_of, AllTell};
ghost use Rattle.ctf_session.specs.Endings as endings;
ghost use Rattle.ctf_session.specs.Passing.{EachMeans, PassesWithin};
ghost use Rattle.ctf_session.specs.Printing.{TellsFault};
ghost use Rattle.ctf_session.specs.Steps.{answer_of, Tells, Steps, IsQuiet, IsRepeated, EndedBy, LeavesNothing, counts_by, CountsAfterStep, CountsAfter, SameForMessages, SettledBy, SettledByStep, IsNamedStep, IsNamed, Answered, RoomAfter, ReadersAfter, EndsBy};
ghost use Rattle.ctf_session.specs.Writing.{written_by};

use crate::input::Streams;
use crate::log::Log;
use crate::next_item::{NextItem, front_time, print_front};
use crate::opening::open_all;
use crate::printing::say;
use crate::step::{SessionEnding, Step, Stop};
use ctf_bits::{Sink, Source};
use ctf_faults::{Outcome, stream_line};
use ctf_list::NoMemory;
use ctf_log::Printer;
use ctf_merge::{Merge, MergeFault};
use ctf_options::Options;
use ctf_packet::StreamFault;
use ctf_stream::StreamReader;
use ctf_timestamp::{Trim, Verdict};
use std::alloc::Global;
use std::marker::Model;

/// Streams on their way to two sinks. It is seen as what is still to come.
#[derive(Drop)]
pub struct Session<'a, S: Source + Drop> {
    alloc: Global,
    merge: Merge<'a, S>,
    /// The number of the trace of each stream.
    traces: Vec<usize>,
    trim: Trim,
    printer: Printer,
    /// The time of the last printed event record that has one, in nanoseconds since the epoch.
    last: Option<i64>,
    ended: Option<SessionEnding>,
}

impl<'a, S: Source + Drop> Model for Session<'a, S> {
    ghost use Rattle.ctf_session.specs.Steps.{Session};
    ghost use Rattle.ctf_session.specs.Endings.{ended_by};
    ghost use Rattle.ctf_session.specs.Opening.{AreAsked};
    ghost use Rattle.ctf_session.specs.Sessions.{left_by};
    ghost use Rattle.ctf_merge.specs.Merges.{coming_of, names_of, room_of, writes_of};

    ghost Value = { Session };

    ghost use Rattle.ctf_class.specs.contracts.class.Kind as kinds;
    ghost use Rattle.ctf_stream.specs.Codes.{coded_val};
    ghost use Rattle.std.specs.Coded.{codes};

    ghost coded = { Prim.hlevel (codes, kinds.the_row.coded, coded_val) };

    ghost view = { λ s. record {
      readers = s.merge.readers;
      setting = record {
        trim = s.trim;
        style = s.printer.style;
        traces = s.traces.items;
        names = names_of s.merge.readers;
      };
      coming = left_by (ended_by s.ended) (coming_of s.merge);
      last = s.last;
      ended = ended_by s.ended;
      room = room_of s.merge.readers;
    } };

    ghost invariant = { λ s. AreAsked s.trim.begin (writes_of s.merge.readers) };
}

impl<'a, S: Source + Drop> Session<'a, S> {
    /// Fetches the first item of each stream. What is to come is the merged list of the items of all streams up to
    /// the cut, as the options ask for it. Streams are numbered by trace, and then in their order.
    pub fn new(
        alloc: Global,
        traces: Vec<Streams<'a, S>>,
        options: &Options,
    ) -> Result<Session<'a, S>, NoMemory>
        ensures told { let given = given_by S.tells S.left S.ending in
            let inputs = inputs_from given 0 traces.entry.items in
            let whole = merged (map (run_in options.now.shift) inputs) in
            AllTell inputs → IfOk result (λ s. MergedOrRefused whole s.coming) }
        ensures setting { let given = given_by S.tells S.left S.ending in
            let inputs = inputs_from given 0 traces.entry.items in
            IfOk result (λ s. s.setting ≡ setting_of options.now inputs) }
        ensures begins { IfOk result (λ s. s.last ≡ None) }
        ensures open { IfOk result (λ s. s.ended ≡ None) }

        // The bytes taken are those that the sources gave, and no more than the current items need.
        ensures tells { let given = given_by S.tells S.left S.ending in
            let inputs = inputs_from given 0 traces.entry.items in
            AllTell inputs → IfOk result (λ s. Tells s) }
        ensures counted { let given = given_by S.tells S.left S.ending in
            let inputs = inputs_from given 0 traces.entry.items in
            AllTell inputs
            → IfOk result (λ s. given_of s.readers ≡ map (λ i. length i.given.bytes) inputs) }
        ensures on_line { IfOk result (λ s. EachOnLine s.readers) }
        ensures all_taken { let given = given_by S.tells S.left S.ending in
            let inputs = inputs_from given 0 traces.entry.items in
            AllTell inputs → IfOk result (λ s. EachAllTaken s.readers) }

        // What is to come of each stream is what its bytes mean.
        ensures fetched { IfOk result (λ s. EachFetched s.readers) }
        ensures streams { let given = given_by S.tells S.left S.ending in
            let inputs = inputs_from given 0 traces.entry.items in
            AllTell inputs
            → IfOk result (λ s. EachMeans (map (run_in options.now.shift) inputs) s.readers) }
    {
        let (readers, numbers) = open_all(alloc, traces, options)?;
        let merge = Merge::new(alloc, readers)?;
        Ok(Session {
            alloc,
            merge,
            traces: numbers,
            trim: options.trim,
            printer: Printer::new(alloc, options.style),
            last: None,
            ended: None,
        })
    }

    /// Writes the line or the message of the next item, nothing for one before the beginning; or says how the run
    /// ends.
    pub fn step<W: Log, E: Sink>(&mut self, out: &mut W, err: &mut E) -> Step
        // One item and its text, or the end and the fault's line, or a first part of what comes next.
        ensures steps { let wrote = written_by W.accepted W.settled E.accepted in
            Tells self.old → self.old.ended ≡ None
            → IsTrue (W.tells out.old) → IsTrue (E.tells err.old)
            → Steps self.old result self.new (wrote out.old err.old out.new err.new) }
        ensures setting { self.new.setting ≡ self.old.setting }

        // An answer that it ended stays, and then nothing is written.
        ensures repeated { IsRepeated self.old.ended result }
        ensures untouched { (o : Outcome) → self.old.ended ≡ Some o
            → (self.new ≡ self.old) × ((out.new ≡ out.old) × (err.new ≡ err.old)) }
        ensures ends { EndedBy result self.new.ended }
        ensures nothing_left { self.old.ended ≡ None → LeavesNothing result self.new.coming }

        // No sink failed or ran out of memory but the one that stopped the step, once.
        ensures counts { let counts = counts_by W.failures W.refusals E.failures E.refusals in
            self.old.ended ≡ None
            → CountsAfterStep result (counts out.old err.old) (counts out.new err.new) }
        ensures named { self.old.ended ≡ None → IsNamedStep result }

        // No message is written while lines are held back, and where nothing is to be written no sink is touched.
        ensures settled { (err.new ≡ err.old) ⊎ IsTrue (W.settled out.new) }
        ensures after { self.old.ended ≡ None → SettledByStep result (W.settled out.new) }
        ensures quiet { Tells self.old → self.old.ended ≡ None → IsQuiet self.old
            → (out.new ≡ out.old) × (err.new ≡ err.old) }

        // Of any sources: a step that went took room and went past the first item; one that ended took nothing from a
        // source.
        ensures room { RoomAfter result self.old.room self.new.room }
        ensures readers { ReadersAfter result self.old.coming self.old.readers self.new.readers }

        // The bytes taken are those that the sources gave, and no more than the current items need.
        ensures tells { Tells self.old → Tells self.new }
        ensures counted { EachTells self.old.readers
            → given_of self.new.readers ≡ given_of self.old.readers }
        ensures on_line { EachOnLine self.old.readers → EachOnLine self.new.readers }
        ensures all_taken { EachTells self.old.readers → EachAllTaken self.old.readers
            → EachAllTaken self.new.readers }
        ensures out_tells { IsTrue (W.tells out.old) → IsTrue (W.tells out.new) }
        ensures err_tells { IsTrue (E.tells err.old) → IsTrue (E.tells err.new) }
    {
        if let Some(ending) = self.ended {
            return Step::Ended(ending.outcome());
        }
        let Some(number) = self.merge.next_stream() else {
            let ending = self.end(out, err);
            self.ended = Some(ending);
            return Step::Ended(ending.outcome());
        };
        let next = NextItem {
            merge: &self.merge,
            number,
        };
        match self.trim.judge(front_time(&next)) {
            Verdict::After => {
                self.ended = Some(SessionEnding::Done);
                Step::Ended(Outcome::Done)
            }
            Verdict::Before => {
                self.merge.leave(number);
                Step::Went
            }
            Verdict::Within => {
                let printer = &mut self.printer;
                match print_front(&next, printer, self.last, out, err) {
                    Ok(last) => {
                        self.last = last;
                        self.merge.leave(number);
                        Step::Went
                    }
                    Err(stop) => {
                        self.ended = Some(SessionEnding::Stopped(stop));
                        Step::Ended(stop.outcome())
                    }
                }
            }
        }
    }

    /// Says how the run ends where no item comes: its fault's line, if there is one.
    fn end<W: Log, E: Sink>(&self, out: &mut W, err: &mut E) -> SessionEnding
        ensures ends { let wrote = written_by W.accepted W.settled E.accepted in
            EachTells self.now.readers → self.now.ended ≡ None → self.now.coming.items ≡ []
            → IsTrue (W.tells out.old) → IsTrue (E.tells err.old)
            → EndsBy self.now (endings.outcome_of result) (wrote out.old err.old out.new err.new) }
        ensures counts { let counts = counts_by W.failures W.refusals E.failures E.refusals in
            let outcome = endings.outcome_of result in
            CountsAfter outcome (counts out.old err.old) (counts out.new err.new) }
        ensures named { IsNamed (endings.outcome_of result) }
        ensures settled { (err.new ≡ err.old) ⊎ IsTrue (W.settled out.new) }
        ensures after { SettledBy (endings.outcome_of result) (W.settled out.new) }
        ensures quiet { EachTells self.now.readers → self.now.ended ≡ None
            → self.now.coming ≡ ends None → (out.new ≡ out.old) × (err.new ≡ err.old) }
        ensures out_tells { IsTrue (W.tells out.old) → IsTrue (W.tells out.new) }
        ensures err_tells { IsTrue (E.tells err.old) → IsTrue (E.tells err.new) }
    {
        match self.merge.fault() {
            None => SessionEnding::Done,
            Some(MergeFault::NoMemory) => SessionEnding::Stopped(Stop::NoMemory),
            Some(MergeFault::Stream { number, fault }) => self.tell(number, fault, out, err),
        }
    }

    /// Writes the line of a stream's fault. Out of memory has none.
    fn tell<W: Log, E: Sink>(
        &self,
        number: usize,
        fault: StreamFault,
        out: &mut W,
        err: &mut E,
    ) -> SessionEnding
        ensures told { let wrote = written_by W.accepted W.settled E.accepted in
            IsTrue (W.tells out.old) → IsTrue (E.tells err.old)
            → TellsFault self.now.setting number fault (endings.outcome_of result)
            (wrote out.old err.old out.new err.new) }
        ensures counts { let counts = counts_by W.failures W.refusals E.failures E.refusals in
            let outcome = endings.outcome_of result in
            CountsAfter outcome (counts out.old err.old) (counts out.new err.new) }
        ensures named { IsNamed (endings.outcome_of result) }
        ensures settled { (err.new ≡ err.old) ⊎ IsTrue (W.settled out.new) }
        ensures after { SettledBy (endings.outcome_of result) (W.settled out.new) }
        ensures out_tells { IsTrue (W.tells out.old) → IsTrue (W.tells out.new) }
        ensures err_tells { IsTrue (E.tells err.old) → IsTrue (E.tells err.new) }
    {
        if let StreamFault::NoMemory = fault {
            return SessionEnding::Stopped(Stop::NoMemory);
        }
        match stream_line(self.alloc, fault, self.name(number)) {
            Ok(text) => match say(&text, out, err) {
                None => SessionEnding::Fault(self.trace(number), fault),
                Some(stop) => SessionEnding::Stopped(stop),
            },
            Err(_refused) => SessionEnding::Stopped(Stop::NoMemory),
        }
    }

    /// The name of a stream.
    fn name(&self, number: usize) -> &str
        ensures { result.now ≡ get_or self.now.setting.names number [] }
    {
        match self.merge.reader(number) {
            Some(reader) => reader.name(),
            None => "",
        }
    }

    /// The number of the trace of a stream.
    fn trace(&self, number: usize) -> usize
        ensures { result ≡ get_or self.now.setting.traces number 0 }
    {
        match self.traces.get(number) {
            Some(trace) => *trace,
            None => 0,
        }
    }

    /// The reader of one stream. No memory is taken.
    pub fn reader(&self, number: usize) -> Option<&StreamReader<'a, S>>
        ensures { let found = slice_get self.now.readers number in
            MatchOption result (found ≡ None) (λ r. found ≡ Some r.now) }
    {
        self.merge.reader(number)
    }
}

/// Steps until the session ends. Where it has ended, the answer is that of before, and nothing is written.
pub fn print_all<'a, S: Source + Drop, W: Log, E: Sink>(
    session: &mut Session<'a, S>,
    out: &mut W,
    err: &mut E,
) -> Outcome
    ensures runs { let wrote = written_by W.accepted W.settled E.accepted in
        session.old.ended ≡ None → Tells session.old
        → IsTrue (W.tells out.old) → IsTrue (E.tells err.old)
        → Answered (answer_of session.old) result (wrote out.old err.old out.new err.new) }
    ensures counts { let counts = counts_by W.failures W.refusals E.failures E.refusals in
        session.old.ended ≡ None
        → CountsAfter result (counts out.old err.old) (counts out.new err.new) }
    ensures named { session.old.ended ≡ None → IsNamed result }
    ensures repeated { (o : Outcome) → session.old.ended ≡ Some o → (result ≡ o)
        × ((session.new ≡ session.old) × ((out.new ≡ out.old) × (err.new ≡ err.old))) }

    // Of any sources and sinks: nothing of the log is held back after the line of a fault, nor where the messages
    // failed or ran out of memory.
    ensures after { session.old.ended ≡ None → SettledBy result (W.settled out.new) }
    ensures settled { let counts = counts_by W.failures W.refusals E.failures E.refusals in
        SameForMessages (counts out.old err.old) (counts out.new err.new)
        ⊎ IsTrue (W.settled out.new) }
    ensures ends { session.new.ended ≡ Some result }
    ensures setting { session.new.setting ≡ session.old.setting }

    // No stream is read on from an item after the end; the bytes taken are those that the sources gave, and no more
    // than the current items need.
    ensures passes { Tells session.old → IsTrue (W.tells out.old) → IsTrue (E.tells err.old)
        → PassesWithin session.old.setting session.old.readers session.new.readers }
    ensures tells { Tells session.old → Tells session.new }
    ensures counted { Tells session.old
        → given_of session.new.readers ≡ given_of session.old.readers }
    ensures on_line { EachOnLine session.old.readers → EachOnLine session.new.readers }
    ensures all_taken { Tells session.old → EachAllTaken session.old.readers
        → EachAllTaken session.new.readers }
    ensures out_tells { IsTrue (W.tells out.old) → IsTrue (W.tells out.new) }
    ensures err_tells { IsTrue (E.tells err.old) → IsTrue (E.tells err.new) }
{
    loop {
        match session.step(out, err) {
            Step::Went => {}
            Step::Ended(outcome) => return outcome,
        }
    }
}
